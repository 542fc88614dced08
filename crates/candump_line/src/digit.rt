//! Digits at the front of a rest of a line.
ghost use Rattle.std.specs.Prelude.{◌≡◌, ◌<◌, ◌≤◌, ◌%◌, ◌^◌, length, take, IfSome};
ghost use Rattle.std.specs.Char.{digit_value, is_digit};
ghost use Rattle.std.specs.List.{prefix_len};
ghost use Rattle.std.specs.Str.Parse.{AllDigits, digits_value};
ghost use Rattle.candump_line.specs.Reading.{digits_in, is_hex, number_in};

use crate::pair::{DECIMAL_PAIRS, decimal_pair};

/// The base of decimal digits.
pub(crate) const DECIMAL: u8 = 10;

/// The base of hex digits.
pub(crate) const HEX: u8 = 16;

/// The value of each byte as a digit or a letter: 0 to 9, then 10 to 35 in either case; and 36 for any other byte.
const DIGIT_VALUES: [u8; 256] = [
    36, 36, 36, 36, 36, 36, 36, 36, 36, 36, 36, 36, 36, 36, 36, 36, 36, 36, 36, 36, 36, 36, 36, 36,
    36, 36, 36, 36, 36, 36, 36, 36, 36, 36, 36, 36, 36, 36, 36, 36, 36, 36, 36, 36, 36, 36, 36, 36,
    0, 1, 2, 3, 4, 5, 6, 7, 8, 9, 36, 36, 36, 36, 36, 36, 36, 10, 11, 12, 13, 14, 15, 16, 17, 18,
    19, 20, 21, 22, 23, 24, 25, 26, 27, 28, 29, 30, 31, 32, 33, 34, 35, 36, 36, 36, 36, 36, 36, 10,
    11, 12, 13, 14, 15, 16, 17, 18, 19, 20, 21, 22, 23, 24, 25, 26, 27, 28, 29, 30, 31, 32, 33, 34,
    35, 36, 36, 36, 36, 36, 36, 36, 36, 36, 36, 36, 36, 36, 36, 36, 36, 36, 36, 36, 36, 36, 36, 36,
    36, 36, 36, 36, 36, 36, 36, 36, 36, 36, 36, 36, 36, 36, 36, 36, 36, 36, 36, 36, 36, 36, 36, 36,
    36, 36, 36, 36, 36, 36, 36, 36, 36, 36, 36, 36, 36, 36, 36, 36, 36, 36, 36, 36, 36, 36, 36, 36,
    36, 36, 36, 36, 36, 36, 36, 36, 36, 36, 36, 36, 36, 36, 36, 36, 36, 36, 36, 36, 36, 36, 36, 36,
    36, 36, 36, 36, 36, 36, 36, 36, 36, 36, 36, 36, 36, 36, 36, 36, 36, 36, 36, 36, 36, 36, 36, 36,
    36, 36, 36, 36, 36, 36, 36, 36, 36, 36, 36, 36, 36, 36,
];

/// The value of the byte as a digit or a letter, 36 for any other byte. A digit of a base has a value below it.
#[inline(always)]
pub(crate) fn digit_value(byte: u8) -> u8
    ensures { result ≡ digit_value byte }
{
    DIGIT_VALUES[usize::from(byte)]
}

/// How many hex digits stand at the front.
pub(crate) fn count_hex(rest: &[u8]) -> usize
    ensures count { result ≡ prefix_len is_hex rest.now }
    ensures fits { result ≤ length rest.now }
{
    rest.iter()
        .take_while(|byte| char::from(**byte).is_digit(u32::from(HEX)))
        .count()
}

/// The number that the digits at the front write, and how many they are.
#[inline(always)]
fn digits_of(front: &[u8], base: u8) -> (u64, usize)
    requires base { (2 ≤ base) × (base ≤ 16) }
    requires short { length front.now ≤ 10 }
    ensures digits { result.1 ≡ prefix_len (λ byte. is_digit byte base) front.now }
    ensures value { result.0 ≡ digits_value base (take result.1 front.now) }
    ensures below { result.0 < base ^ result.1 }
    ensures fits { result.1 ≤ length front.now }
{
    let mut value = 0;
    let mut count = 0;
    for byte in front {
        let digit = digit_value(*byte);
        if digit >= base {
            return (value, count);
        }
        value = value * u64::from(base) + u64::from(digit);
        count += 1;
    }
    (value, count)
}

/// The number that the digits at the front write, of which so many are looked at, and how many they are.
#[inline(always)]
pub(crate) fn number(rest: &[u8], base: u8, most: usize) -> (u64, usize)
    requires base { (2 ≤ base) × (base ≤ 16) }
    requires short { most ≤ 10 }
    ensures digits { result.1 ≡ digits_in base most rest.now }
    ensures value { result.0 ≡ number_in base result.1 rest.now }
    ensures below { result.0 < base ^ result.1 }
    ensures fits { result.1 ≤ length rest.now }
    ensures few { result.1 ≤ most }
{
    if rest.len() < most {
        digits_of(rest, base)
    } else {
        digits_of(&rest[..most], base)
    }
}

/// The number that so many bytes write as decimal digits, two and two, where all of them are digits.
#[inline(always)]
pub(crate) fn all_decimal(front: &[u8]) -> Option<u64>
    requires even { length front.now % 2 ≡ 0 }
    requires short { length front.now ≤ 10 }
    ensures digits { IfSome result (λ _. AllDigits 10 front.now) }
    ensures value { IfSome result (λ value. value ≡ digits_value 10 front.now) }
{
    let mut value = 0;
    let mut at = 0;
    while at < front.len() {
        let pair = decimal_pair(front[at], front[at + 1]);
        if pair >= DECIMAL_PAIRS {
            return None;
        }
        value = value * u64::from(DECIMAL_PAIRS) + u64::from(pair);
        at += 2;
    }
    Some(value)
}
