ghost use Rattle.std.specs.Prelude.{◌≡◌, ◌≤◌};
ghost use Rattle.gw_base.specs.Decimal.{padded_decimal};

use arrayvec::ArrayVec;
use itoa::write_digits;

/// The most decimal digits that a `u64` has.
const MOST_DIGITS: usize = 20;

/// The decimal digits of the value, with leading zeros up to `width` digits.
pub fn decimal(value: u64, width: usize) -> ArrayVec<u8, MOST_DIGITS>
    requires { width ≤ 20 }
    ensures { result.items ≡ padded_decimal width value }
{
    let mut digits = [b'0'; MOST_DIGITS];
    let start = write_digits(value, &mut digits, MOST_DIGITS);
    let first = start.min(MOST_DIGITS - width);
    let Ok(text) = ArrayVec::try_from(&digits[first..]) else {
        unreachable!();
    };
    text
}
