//! How many cells a message needs of its buffer.
ghost use Rattle.std.specs.Prelude.{◌≡◌, ◌<◌, ◌≤◌};
ghost use Rattle.flow_plan.specs.Need.{needed};

/// The cells that a buffer must have for a message, all in cells: `first` are those of the start's payload, `whole` those of
/// all payloads, `per_cf` those of a full consecutive frame (this project's own).
///
/// With `store` the whole message must fit. Else it may be longer than the buffer: there must be room for the start, and,
/// unless all fits, for what makes `threshold` cells and is then still short of a frame, so that a receiver which waits for
/// room has reached the threshold.
pub fn need(first: u32, whole: u64, threshold: u32, per_cf: u32, store: bool) -> u64
    requires some { 0 < per_cf }
    ensures { result ≡ needed first whole threshold per_cf store }
{
    if store {
        return whole;
    }
    let reached = u64::from(threshold) + u64::from(per_cf) - 1;
    u64::from(first).max(whole.min(reached))
}

#[cfg(test)]
mod tests {
    use super::*;

    /// Cells of the start, of the whole message, the threshold, the cells of a full consecutive frame, whether the message is
    /// stored whole, and the need.
    const NEEDS: [(u32, u64, u32, u32, bool, u64); 8] = [
        (1, 10, 1, 1, false, 1),
        (1, 5, 1, 1, true, 5),
        (1, 10, 4, 1, false, 4),
        (1, 3, 8192, 1, false, 3),
        (9, 586, 1, 9, false, 9),
        (9, 586, 4, 9, false, 12),
        (9, 586, 4, 9, true, 586),
        (9, 9, 1, 9, false, 9),
    ];

    #[test]
    fn messages_need_cells(rt: HostRuntime) {
        for (first, whole, threshold, per_cf, store, cells) in NEEDS {
            assert!(rt; per_cf > 0);
            assert_eq!(rt; need(first, whole, threshold, per_cf, store), cells);
        }
    }
}
