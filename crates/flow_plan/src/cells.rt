//! How many cells bytes take.
ghost use Rattle.std.specs.Prelude.{◌≡◌, ◌+◌, ◌-◌, ◌<◌, ◌≤◌};
ghost use Rattle.flow_plan.specs.Cells.{cells_for, cells_left};

/// The cells that hold a payload of so many bytes: seven bytes in each, and one more for the rest (this project's own).
pub fn cells_of(bytes: u32) -> u32
    ensures cells { result ≡ cells_for bytes }
    ensures small { result ≤ 613_566_757 }
{
    bytes.div_ceil(7)
}

/// The cells of a message of `len` bytes: its start carries `first` bytes, and each consecutive frame `cf` bytes or what
/// remains. Each payload has cells of its own (this project's own).
pub fn whole_cells(len: u32, first: u32, cf: u32) -> u64
    requires some { 0 < cf }
    requires start { first ≤ len }
    ensures { result ≡ cells_for first + cells_left cf (len - first) }
{
    let left = len - first;
    let full = u64::from(left / cf) * u64::from(cells_of(cf));
    u64::from(cells_of(first)) + full + u64::from(cells_of(left % cf))
}

#[cfg(test)]
mod tests {
    use super::*;

    /// Payloads in bytes, each with its cells: a single frame of 62 bytes fills nine.
    const PAYLOADS: [(u32, u32); 7] = [(0, 0), (1, 1), (6, 1), (7, 1), (8, 2), (62, 9), (63, 9)];

    /// Messages: length, bytes of the start, bytes of a full consecutive frame, cells. Classic with and without an address
    /// byte, FD with and without, at the longest of the short lengths and above it.
    const MESSAGES: [(u32, u32, u32, u64); 8] = [
        (2, 2, 7, 1),
        (34, 6, 7, 5),
        (63, 6, 7, 10),
        (4095, 6, 7, 586),
        (20, 5, 6, 4),
        (4095, 62, 63, 586),
        (4096, 58, 63, 586),
        (4095, 61, 62, 595),
    ];

    #[test]
    fn payloads_have_cells(rt: HostRuntime) {
        for (bytes, cells) in PAYLOADS {
            assert_eq!(rt; cells_of(bytes), cells);
        }
    }

    #[test]
    fn messages_have_cells(rt: HostRuntime) {
        for (len, first, cf, cells) in MESSAGES {
            assert!(rt; cf > 0 && first <= len);
            assert_eq!(rt; whole_cells(len, first, cf), cells);
        }
    }
}
