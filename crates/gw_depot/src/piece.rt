ghost use Rattle.std.specs.Prelude.{◌≡◌, ◌-◌, ◌<◌, ◌≤◌, length, take, drop, min, IfOk};

use std::io::{self, ErrorKind, Write};

/// Copies the bytes from `at` on, at most so many and at most as many as fit, and answers how many.
pub fn copy_piece(bytes: &[u8], at: u64, most: usize, into: &mut [u8]) -> usize
    ensures count { result ≡ min most (min (length into.old) (length bytes.now - at)) }
    ensures bytes { take result into.new ≡ take result (drop at bytes.now) }
{
    let start = (at as usize).min(bytes.len());
    let rest = &bytes[start..];
    let count = most.min(into.len()).min(rest.len());
    into[..count].copy_from_slice(&rest[..count]);
    count
}

/// Writes once, and again where the system was interrupted. Taking nothing is an error.
pub fn write_piece<W: Write>(to: &mut W, piece: &[u8]) -> io::Result<usize>
    ensures { IfOk result (λ count. (0 < count) × (count ≤ length piece.now)) }
{
    for _ in 0..u64::MAX {
        match to.write(piece) {
            Err(error) if error.kind() == ErrorKind::Interrupted => {}
            Ok(0) => return Err(ErrorKind::WriteZero.into()),
            answer => return answer,
        }
    }
    Err(ErrorKind::Interrupted.into())
}
