//! The fields of a line, read at the front of a text: each is a value and what stands after it.
ghost use Rattle.std.specs.Prelude.{◌≡◌, ◌+◌, ◌<◌, ◌≤◌, ◌^◌, option_map, IfSome};
ghost use Rattle.session_report.specs.Reading.{after_word, byte_at, digits_at, digit_value, number_at, number_then, set_at, upper_value, within};

/// What stands after the word, where it stands at the front.
pub(crate) fn after<'a>(text: &'a [u8], word: &[u8]) -> Option<&'a [u8]>
    ensures { option_map (λ rest. rest.now) result ≡ after_word word.now text.now }
{
    text.strip_prefix(word)
}

/// The value of a decimal digit.
fn digit_of(byte: u8) -> Option<u64>
    ensures { result ≡ digit_value byte }
{
    if b'0' <= byte && byte <= b'9' {
        Some(u64::from(byte - b'0'))
    } else {
        None
    }
}

/// The number, where it is at most `most`, and what stands after it.
fn within(number: u64, most: u64, rest: &[u8]) -> Option<(u64, &[u8])>
    ensures found { option_map (λ found. (found.0, found.1.now)) result ≡ within (most + 1) (number, rest.now) }
    ensures most { IfSome result (λ found. found.0 ≤ most) }
{
    if number <= most {
        Some((number, rest))
    } else {
        None
    }
}

/// The number that the digits at the front write after those of `front`, where it is at most `most`.
fn more_digits(front: u64, most: u64, text: &[u8]) -> Option<(u64, &[u8])>
    ensures found { option_map (λ found. (found.0, found.1.now)) result ≡ within (most + 1) (digits_at front text.now) }
    ensures most { IfSome result (λ found. found.0 ≤ most) }
{
    let mut number = front;
    let mut rest = text;
    while let [first, later @ ..] = rest {
        let Some(digit) = digit_of(*first) else {
            return within(number, most, rest);
        };
        let Some(tens) = number.checked_mul(10) else {
            return None;
        };
        let Some(more) = tens.checked_add(digit) else {
            return None;
        };
        number = more;
        rest = later;
    }
    within(number, most, rest)
}

/// The number at the front, where it is at most `most`.
#[tactic(auto, unfolding(crate::specs::Reading::number_at))]
fn number(text: &[u8], most: u64) -> Option<(u64, &[u8])>
    ensures found { option_map (λ found. (found.0, found.1.now)) result ≡ number_at (most + 1) text.now }
    ensures most { IfSome result (λ found. found.0 ≤ most) }
{
    let [first, rest @ ..] = text else {
        return None;
    };
    if *first == b'0' {
        return Some((0, rest));
    }
    let Some(digit) = digit_of(*first) else {
        return None;
    };
    more_digits(digit, most, rest)
}

/// A number of at most `most` at the front, and what stands after it and the word.
#[tactic(auto, unfolding(crate::specs::Reading::number_then))]
fn number_then<'a>(text: &'a [u8], most: u64, word: &[u8]) -> Option<(u64, &'a [u8])>
    ensures found { option_map (λ found. (found.0, found.1.now)) result ≡ number_then word.now (most + 1) text.now }
    ensures most { IfSome result (λ found. found.0 ≤ most) }
{
    let (number, rest) = number(text, most)?;
    let rest = after(rest, word)?;
    Some((number, rest))
}

/// A number of one byte, and what stands after it and the word.
pub(crate) fn byte_then<'a>(text: &'a [u8], word: &[u8]) -> Option<(u8, &'a [u8])>
    ensures { option_map (λ found. (found.0, found.1.now)) result ≡ number_then word.now (2 ^ 8) text.now }
{
    let (number, rest) = number_then(text, u64::from(u8::MAX), word)?;
    Some((number as u8, rest))
}

/// A number of four bytes, and what stands after it and the word.
pub(crate) fn word_then<'a>(text: &'a [u8], word: &[u8]) -> Option<(u32, &'a [u8])>
    ensures { option_map (λ found. (found.0, found.1.now)) result ≡ number_then word.now (2 ^ 32) text.now }
{
    let (number, rest) = number_then(text, u64::from(u32::MAX), word)?;
    Some((number as u32, rest))
}

/// A number of eight bytes, and what stands after it and the word.
pub(crate) fn long_then<'a>(text: &'a [u8], word: &[u8]) -> Option<(u64, &'a [u8])>
    ensures { option_map (λ found. (found.0, found.1.now)) result ≡ number_then word.now (2 ^ 64) text.now }
{
    number_then(text, u64::MAX, word)
}

/// The value of an upper-case hex digit.
fn hex_value(byte: u8) -> Option<u8>
    ensures value { result ≡ upper_value byte }
    ensures small { IfSome result (λ value. value < 16) }
{
    if b'0' <= byte && byte <= b'9' {
        Some(byte - b'0')
    } else if b'A' <= byte && byte <= b'F' {
        Some(byte - b'A' + 10)
    } else {
        None
    }
}

/// The byte that two hex digits write.
#[tactic(auto, unfolding(crate::specs::Reading::byte_at))]
fn byte_of(text: &[u8]) -> Option<(u8, &[u8])>
    ensures { option_map (λ found. (found.0, found.1.now)) result ≡ byte_at text.now }
{
    let [high, low, rest @ ..] = text else {
        return None;
    };
    let high = hex_value(*high)?;
    let low = hex_value(*low)?;
    Some((high * 16 + low, rest))
}

/// A free set.
#[tactic(auto, unfolding(crate::specs::Reading::set_at))]
pub(crate) fn set_of(text: &[u8]) -> Option<(u32, &[u8])>
    ensures { option_map (λ found. (found.0, found.1.now)) result ≡ set_at text.now }
{
    let (a, rest) = byte_of(text)?;
    let (b, rest) = byte_of(rest)?;
    let (c, rest) = byte_of(rest)?;
    let (d, rest) = byte_of(rest)?;
    Some((u32::from_be_bytes([a, b, c, d]), rest))
}
