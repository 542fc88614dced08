ghost use Rattle.std.specs.Prelude.{◌≡◌, ◌≤◌, ℕ, true};
ghost use Rattle.can_frame.specs.Length.{least_fd_length, length_fits};

/// The most data bytes of a classic frame (ISO 11898-1, data length code).
pub const MAX_CLASSIC: usize = 8;

/// The most data bytes of an FD frame (ISO 11898-1, data length code).
pub const MAX_FD: usize = 64;

/// The least number of data bytes that an FD frame may have and that isn't below `len` (ISO 11898-1, data length code).
pub fn fill_up(len: usize) -> usize
    requires { len ≤ MAX_FD }
    ensures table { result ≡ least_fd_length len }
    ensures lawful { length_fits true result ≡ true }
    ensures covers { len ≤ result }
    ensures least { (other : ℕ) → len ≤ other → length_fits true other ≡ true → result ≤ other }
{
    match len {
        0..=MAX_CLASSIC => len,
        9..=12 => 12,
        13..=16 => 16,
        17..=20 => 20,
        21..=24 => 24,
        25..=32 => 32,
        33..=48 => 48,
        _ => MAX_FD,
    }
}
