//! The separation time in ticks.
ghost use Rattle.std.specs.Prelude.{◌≡◌, ◌<◌, ◌≤◌};
ghost use Rattle.flow_plan.specs.Gap.{IsGap, gap_in, separation};

/// How many ticks of `period` microseconds a sender lets pass between two consecutive frames where a flow control asks for the
/// separation time `st`: the fewest that last so long, and one at least (ISO 15765-2, separation time).
pub fn gap_ticks(st: u8, period: u32) -> u64
    requires some { 0 < period }
    ensures gap { IsGap (separation st) period result }
    ensures ticks { result ≡ gap_in st period }
    ensures most { result ≤ 127000 }
{
    separation_micros(st).div_ceil(u64::from(period)).max(1)
}

/// A separation time in microseconds: 0 to 127 milliseconds, 100 to 900 microseconds, and 127 milliseconds for each reserved
/// value (ISO 15765-2, separation time).
fn separation_micros(st: u8) -> u64
    ensures { result ≡ separation st }
{
    match st {
        0..=0x7F => u64::from(st) * 1000,
        0xF1..=0xF9 => u64::from(st - 0xF0) * 100,
        _ => 127_000,
    }
}

#[cfg(test)]
mod tests {
    use super::*;

    /// Separation times of ISO 15765-2 and periods in microseconds, with the ticks between two frames.
    const GAPS: [(u8, u32, u64); 13] = [
        (0xF5, 100, 5),
        (0x80, 1000, 127),
        (0, 1000, 1),
        (1, 1000, 1),
        (1, 100, 10),
        (2, 1500, 2),
        (127, 500, 254),
        (0xF0, 1000, 127),
        (0xF1, 100, 1),
        (0xF1, 1000, 1),
        (0xF9, 500, 2),
        (0xFA, 500, 254),
        (0xFF, 1000, 127),
    ];

    #[test]
    fn separation_times_are_ticks(rt: HostRuntime) {
        for (st, period, ticks) in GAPS {
            assert!(rt; period > 0);
            assert_eq!(rt; gap_ticks(st, period), ticks);
        }
    }
}
