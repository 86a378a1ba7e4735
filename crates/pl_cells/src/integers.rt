//! Whole numbers from text. No call takes memory.
ghost use Rattle.std.specs.Prelude.{◌≡◌, ◌^◌, ◌≤◌, length, pos, true, false, IfSome};
ghost use Rattle.std.specs.Option.{option_map};
ghost use Rattle.pl_frame.specs.Types.{from_to, is_within, signed_range, unsigned_range};
ghost use Rattle.pl_cells.specs.Integers as spec;
ghost use Rattle.pl_cells.specs.Integers.{number_below, int64_value, signed, signed_value, unsigned_value, only_within, is_negative, without_sign};

// So many digits write a number below 2 ^ 64.
const SHORT: usize = 19;

// The number of at most 19 digits.
fn number_of_short(digits: &[u8]) -> Option<u64>
    requires { length digits.now ≤ SHORT }
    ensures { result ≡ number_below (2 ^ 64) digits.now }
{
    if digits.is_empty() {
        return None;
    }
    let mut number = 0u64;
    for byte in digits {
        if !byte.is_ascii_digit() {
            return None;
        }
        number = number * 10 + u64::from(*byte - b'0');
    }
    Some(number)
}

// The number of any number of digits, as leading zeros may stand before it.
fn number_of_long(digits: &[u8]) -> Option<u64>
    ensures { result ≡ number_below (2 ^ 64) digits.now }
{
    if digits.is_empty() {
        return None;
    }
    let mut number = 0u64;
    for byte in digits {
        if !byte.is_ascii_digit() {
            return None;
        }
        number = number
            .checked_mul(10)?
            .checked_add(u64::from(*byte - b'0'))?;
    }
    Some(number)
}

// The same in 128 bits.
fn number_of_longest(digits: &[u8]) -> Option<u128>
    ensures { result ≡ number_below (2 ^ 128) digits.now }
{
    if digits.is_empty() {
        return None;
    }
    let mut number = 0u128;
    for byte in digits {
        if !byte.is_ascii_digit() {
            return None;
        }
        number = number
            .checked_mul(10)?
            .checked_add(u128::from(*byte - b'0'))?;
    }
    Some(number)
}

/// The number of one or more digits, where it fits 64 bits.
pub fn number_of(digits: &[u8]) -> Option<u64>
    ensures { result ≡ number_below (2 ^ 64) digits.now }
{
    if digits.len() <= SHORT {
        number_of_short(digits)
    } else {
        number_of_long(digits)
    }
}

/// The same in 128 bits: most numbers fit 64, where reading is faster.
fn number_of_wide(digits: &[u8]) -> Option<u128>
    ensures { result ≡ number_below (2 ^ 128) digits.now }
{
    match number_of(digits) {
        Some(number) => Some(u128::from(number)),
        None => number_of_longest(digits),
    }
}

// Whether a minus stands in front, and what stands behind one sign.
#[inline]
pub(crate) fn split_sign(text: &[u8]) -> (bool, &[u8])
    ensures negative { result.0 ≡ is_negative text.now }
    ensures digits { result.1.now ≡ without_sign text.now }
{
    match text {
        [b'-', digits @ ..] => (true, digits),
        [b'+', digits @ ..] => (false, digits),
        _ => (false, text),
    }
}

// The number with its sign, where it fits 64 bits.
#[inline]
fn with_sign(negative: bool, number: u64) -> Option<i64>
    ensures { result ≡ only_within (signed_range 64) (signed negative number) }
{
    if number < 1 << 63 {
        let number = number as i64;
        Some(if negative { -number } else { number })
    } else if negative && number == 1 << 63 {
        Some(i64::MIN)
    } else {
        None
    }
}

// The number with its sign, where it fits 128 bits.
#[inline]
fn with_wide_sign(negative: bool, number: u128) -> Option<i128>
    ensures { result ≡ only_within (signed_range 128) (signed negative number) }
{
    if number < 1 << 127 {
        let number = number as i128;
        Some(if negative { -number } else { number })
    } else if negative && number == 1 << 127 {
        Some(i128::MIN)
    } else {
        None
    }
}

/// The whole number that a text writes, where it fits 64 bits: an optional sign and one or more ASCII digits.
pub(crate) fn parse_int64(text: &[u8]) -> Option<i64>
    ensures { result ≡ int64_value text.now }
{
    let (negative, digits) = split_sign(text);
    let number = number_of(digits)?;
    with_sign(negative, number)
}

/// The same where the number lies from `low` to `high`, both included.
pub(crate) fn parse_narrow(text: &[u8], low: i64, high: i64) -> Option<i64>
    ensures value { result ≡ signed_value (from_to low high) text.now }
    ensures within { IfSome result (λ n. is_within (from_to low high) n ≡ true) }
{
    let number = parse_int64(text)?;
    if low <= number && number <= high {
        Some(number)
    } else {
        None
    }
}

/// The whole number that a text writes, where it fits 128 bits: an optional sign and one or more ASCII digits.
pub(crate) fn parse_int128(text: &[u8]) -> Option<i128>
    ensures { result ≡ signed_value (signed_range 128) text.now }
{
    let (negative, digits) = split_sign(text);
    let number = number_of_wide(digits)?;
    with_wide_sign(negative, number)
}

/// The whole number from 0 to `high` that a text writes: an optional plus and one or more ASCII digits.
pub(crate) fn parse_unsigned_narrow(text: &[u8], high: i64) -> Option<i64>
    ensures value { result ≡ unsigned_value (from_to (pos 0) high) text.now }
    ensures within { IfSome result (λ n. is_within (from_to (pos 0) high) n ≡ true) }
{
    match text {
        [b'-', ..] => None,
        _ => parse_narrow(text, 0, high),
    }
}

/// The whole number that a text writes, where it fits 64 bits without a sign: an optional plus and one or more ASCII
/// digits.
pub(crate) fn parse_uint64(text: &[u8]) -> Option<u64>
    ensures { option_map pos result ≡ unsigned_value (unsigned_range 64) text.now }
{
    match text {
        [b'-', ..] => None,
        [b'+', digits @ ..] => number_of(digits),
        _ => number_of(text),
    }
}

// Whether a text is one or more digits.
fn is_digits(text: &[u8]) -> bool
    ensures { result ≡ spec.is_digits text.now }
{
    if text.is_empty() {
        return false;
    }
    for byte in text {
        if !byte.is_ascii_digit() {
            return false;
        }
    }
    true
}

/// Whether a text is an optional minus and one or more ASCII digits, however many.
pub fn is_integer_text(text: &[u8]) -> bool
    ensures { result ≡ spec.is_integer_text text.now }
{
    match text {
        [b'-', digits @ ..] => is_digits(digits),
        _ => is_digits(text),
    }
}
