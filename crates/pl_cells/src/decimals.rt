//! Decimal numbers from text. No call takes memory.
ghost use Rattle.std.specs.Prelude.{◌≡◌, ◌+◌, ◌++◌, ◌^◌, ◌<◌, ◌≤◌, ◌-◌, length, neg_ℤ, pos, true, IfSome, unwrap_or, nat_lt, take, drop, Some};
ghost use Rattle.pl_frame.specs.Types.{is_readable_decimal, from_to, is_within, decimal_range};
ghost use Rattle.pl_cells.specs.Integers.{is_negative, without_sign, signed, only_within};
ghost use Rattle.pl_cells.specs.DecimalParts as parts;
ghost use Rattle.pl_cells.specs.Decimals as spec;
ghost use Rattle.pl_cells.specs.Decimals.{before_point, behind_point, decimal_value};
ghost use Rattle.pl_cells.specs.DecimalParts.{scaled_below};

use crate::integers::split_sign;
use memchr::memchr;

// What stands before the first point, and what behind it.
#[inline]
fn split_point(text: &[u8]) -> (&[u8], &[u8])
    ensures before { result.0.now ≡ before_point text.now }
    ensures behind { result.1.now ≡ behind_point text.now }
{
    match memchr(b'.', text) {
        Some(at) => (&text[..at], &text[at + 1..]),
        None => (text, &[]),
    }
}

// Whether every byte is a zero.
fn are_zeros(text: &[u8]) -> bool
    ensures { result ≡ spec.are_zeros text.now }
{
    let mut rest = text;
    while let [first, behind @ ..] = rest {
        if *first != b'0' {
            return false;
        }
        rest = behind;
    }
    true
}

// The number of the digits that follow those of a number, where it fits 64 bits.
fn read_on_short(number: u64, digits: &[u8]) -> Option<u64>
    ensures { result ≡ parts.read_on (2 ^ 64) number digits.now }
{
    let mut all = number;
    for byte in digits {
        if !byte.is_ascii_digit() {
            return None;
        }
        all = all.checked_mul(10)?.checked_add(u64::from(*byte - b'0'))?;
    }
    Some(all)
}

// The same in 128 bits.
fn read_on(number: u128, digits: &[u8]) -> Option<u128>
    ensures { result ≡ parts.read_on (2 ^ 128) number digits.now }
{
    let mut all = number;
    for byte in digits {
        if !byte.is_ascii_digit() {
            return None;
        }
        all = all.checked_mul(10)?.checked_add(u128::from(*byte - b'0'))?;
    }
    Some(all)
}

// The number of the digits of one text and then another, where it fits 64 bits.
fn read_both_short(whole: &[u8], fraction: &[u8]) -> Option<u64>
    ensures { result ≡ parts.read_on (2 ^ 64) 0 (whole.now ++ fraction.now) }
{
    let number = read_on_short(0, whole)?;
    read_on_short(number, fraction)
}

// The same in 128 bits.
fn read_both_wide(whole: &[u8], fraction: &[u8]) -> Option<u128>
    ensures { result ≡ parts.read_on (2 ^ 128) 0 (whole.now ++ fraction.now) }
{
    let number = read_on(0, whole)?;
    read_on(number, fraction)
}

// The same: most numbers fit 64 bits, where reading is faster.
fn read_both(whole: &[u8], fraction: &[u8]) -> Option<u128>
    ensures { result ≡ parts.read_on (2 ^ 128) 0 (whole.now ++ fraction.now) }
{
    match read_both_short(whole, fraction) {
        Some(number) => Some(u128::from(number)),
        None => read_both_wide(whole, fraction),
    }
}

// The powers of ten. A constant would be made again at each call.
static POWERS: [u128; 39] = [
    1,
    10,
    100,
    1_000,
    10_000,
    100_000,
    1_000_000,
    10_000_000,
    100_000_000,
    1_000_000_000,
    10_000_000_000,
    100_000_000_000,
    1_000_000_000_000,
    10_000_000_000_000,
    100_000_000_000_000,
    1_000_000_000_000_000,
    10_000_000_000_000_000,
    100_000_000_000_000_000,
    1_000_000_000_000_000_000,
    10_000_000_000_000_000_000,
    100_000_000_000_000_000_000,
    1_000_000_000_000_000_000_000,
    10_000_000_000_000_000_000_000,
    100_000_000_000_000_000_000_000,
    1_000_000_000_000_000_000_000_000,
    10_000_000_000_000_000_000_000_000,
    100_000_000_000_000_000_000_000_000,
    1_000_000_000_000_000_000_000_000_000,
    10_000_000_000_000_000_000_000_000_000,
    100_000_000_000_000_000_000_000_000_000,
    1_000_000_000_000_000_000_000_000_000_000,
    10_000_000_000_000_000_000_000_000_000_000,
    100_000_000_000_000_000_000_000_000_000_000,
    1_000_000_000_000_000_000_000_000_000_000_000,
    10_000_000_000_000_000_000_000_000_000_000_000,
    100_000_000_000_000_000_000_000_000_000_000_000,
    1_000_000_000_000_000_000_000_000_000_000_000_000,
    10_000_000_000_000_000_000_000_000_000_000_000_000,
    100_000_000_000_000_000_000_000_000_000_000_000_000,
];

// Ten to a power of at most 38.
#[inline]
fn power_of_ten(exponent: usize) -> u128
    requires { exponent ≤ 38 }
    ensures { result ≡ 10 ^ exponent }
{
    POWERS[exponent]
}

// The digits that the scale keeps, and those past it.
#[inline]
fn split_at_scale(fraction: &[u8], scale: usize) -> (&[u8], &[u8])
    ensures kept { result.0.now ≡ take scale fraction.now }
    ensures cut { result.1.now ≡ drop scale fraction.now }
{
    if scale < fraction.len() {
        fraction.split_at(scale)
    } else {
        (fraction, &[])
    }
}

// Whether one of two texts is not empty.
#[inline]
fn has_bytes(whole: &[u8], fraction: &[u8]) -> bool
    ensures { result ≡ nat_lt 0 (length whole.now + length fraction.now) }
{
    !whole.is_empty() || !fraction.is_empty()
}

// The number times ten to the scale, where it fits 128 bits.
fn scaled(whole: &[u8], fraction: &[u8], scale: usize) -> Option<u128>
    requires { scale ≤ 38 }
    ensures { result ≡ scaled_below (2 ^ 128) scale whole.now fraction.now }
{
    if !has_bytes(whole, fraction) {
        return None;
    }
    let (kept, cut) = split_at_scale(fraction, scale);
    if !are_zeros(cut) {
        return None;
    }
    let number = read_both(whole, kept)?;
    number.checked_mul(power_of_ten(scale - kept.len()))
}

/// The number with its sign, where its size is below a limit.
#[inline]
pub(crate) fn with_sign(negative: bool, number: u128, limit: u128) -> Option<i128>
    requires some { 1 ≤ limit }
    requires small { limit ≤ 10 ^ 38 }
    ensures value { result ≡ only_within (from_to (neg_ℤ (pos (limit - 1))) (pos (limit - 1))) (signed negative number) }
    ensures within { IfSome result (λ n. is_within (from_to (neg_ℤ (pos (limit - 1))) (pos (limit - 1))) n ≡ true) }
{
    if number < limit {
        let number = number as i128;
        Some(if negative { -number } else { number })
    } else {
        None
    }
}

/// Ten to the precision, or to 38 where that is not set.
#[inline]
pub(crate) fn limit_of(precision: Option<u32>, scale: u32) -> u128
    requires { is_readable_decimal precision (Some scale) ≡ true }
    ensures value { result ≡ 10 ^ unwrap_or precision 38 }
    ensures some { 1 ≤ result }
    ensures small { result ≤ 10 ^ 38 }
{
    power_of_ten(precision.unwrap_or(38) as usize)
}

// The number of the digits that follow those of a number, where so few stand before them that 64 bits hold all.
#[inline]
fn read_few(number: u64, digits: &[u8], before: usize) -> Option<u64>
    requires small { number < 10 ^ before }
    requires few { before + length digits.now ≤ 18 }
    ensures small { IfSome result (λ n. n < 10 ^ (before + length digits.now)) }
    ensures is { IfSome result (λ n. Some n ≡ parts.read_on (2 ^ 128) number digits.now) }
{
    let mut all = number;
    for byte in digits {
        if !byte.is_ascii_digit() {
            return None;
        }
        all = all * 10 + u64::from(*byte - b'0');
    }
    Some(all)
}

// The number of at most 18 digits, as many of which as the scale says stand behind the point. Other texts are left to
// `scaled`.
#[inline]
fn scaled_few(digits: &[u8], scale: usize) -> Option<u64>
    requires { scale ≤ 38 }
    ensures { IfSome result (λ n. Some n ≡ scaled_below (2 ^ 128) scale (before_point digits.now) (behind_point digits.now)) }
{
    if digits.len() > 19 || digits.len() < scale + 2 {
        return None;
    }
    let at = digits.len() - scale - 1;
    if digits[at] != b'.' {
        return None;
    }
    let number = read_few(0, &digits[..at], 0)?;
    read_few(number, &digits[at + 1..], at)
}

// The number of digits with at most one point among them, times ten to the scale, where it fits 128 bits.
#[inline]
fn scaled_of(digits: &[u8], scale: usize) -> Option<u128>
    requires { scale ≤ 38 }
    ensures { result ≡ scaled_below (2 ^ 128) scale (before_point digits.now) (behind_point digits.now) }
{
    if let Some(number) = scaled_few(digits, scale) {
        return Some(u128::from(number));
    }
    let (whole, fraction) = split_point(digits);
    scaled(whole, fraction, scale)
}

/// The number that a text writes times ten to the scale: an optional sign and digits with at most one point among them, at
/// least one digit in all. Digits past the scale must be zeros, and the result is below ten to the precision in size, or
/// below 10^38 where that is not set.
///
/// Decimals of this precision and scale must be readable.
pub fn parse_decimal(text: &[u8], precision: Option<u32>, scale: u32) -> Option<i128>
    requires { is_readable_decimal precision (Some scale) ≡ true }
    ensures value { result ≡ decimal_value precision scale text.now }
    ensures within { IfSome result (λ n. is_within (decimal_range precision) n ≡ true) }
{
    let (negative, digits) = split_sign(text);
    let number = scaled_of(digits, scale as usize)?;
    with_sign(negative, number, limit_of(precision, scale))
}
