//! Times of the day, and dates with times, from text. No call takes memory.
ghost use Rattle.std.specs.Prelude.{◌≡◌, ◌+◌, ◌*◌, ◌≤◌, ◌<◌, ◌^◌, length, pos, IfSome, Some, take, drop, ◌∷◌, true};
ghost use Rattle.std.specs.Option.{option_map};
ghost use Rattle.pl_frame.specs.Types.{datetime_range, units_in_second, is_within, day_range, time_range, signed_range};
ghost use Rattle.pl_cells.specs.Integers.{number_of, digits_value, number_below, only_within};
ghost use Rattle.pl_cells.specs.Dates.{date_value};
ghost use Rattle.pl_cells.specs.Times.{clock_value, second_of_day, filled, fraction_value, time_value, count_of_units, datetime_of, datetime_value};

use crate::dates::{parse_date, two_digits};
use crate::integers;
use pl_frame::data_type::TimeUnit;

const NANOSECONDS: u64 = 1_000_000_000;

/// The second of the day, where there is one.
#[inline(always)]
pub(crate) fn second_of(hour: u8, minute: u8, second: u8) -> Option<u64>
    ensures value { result ≡ second_of_day (Some hour) (Some minute) (Some second) }
    ensures small { IfSome result (λ n. n < 86400) }
{
    if hour < 24 && minute < 60 && second < 60 {
        Some(u64::from(hour) * 3600 + u64::from(minute) * 60 + u64::from(second))
    } else {
        None
    }
}

// The second of the day that a text writes as `HH:MM:SS`.
#[inline(always)]
fn parse_clock(text: &[u8]) -> Option<u64>
    ensures value { result ≡ clock_value text.now }
    ensures small { IfSome result (λ n. n < 86400) }
{
    if text.len() != 8 || text[2] != b':' || text[5] != b':' {
        return None;
    }
    let hour = two_digits(text, 0)?;
    let minute = two_digits(text, 3)?;
    let second = two_digits(text, 6)?;
    second_of(hour, minute, second)
}

// The powers of ten. A constant would be made again at each call.
static POWERS: [u64; 10] = [
    1,
    10,
    100,
    1_000,
    10_000,
    100_000,
    1_000_000,
    10_000_000,
    100_000_000,
    1_000_000_000,
];

// Ten to a power of at most 9.
#[inline]
fn power_of_ten(exponent: usize) -> u64
    requires { exponent ≤ 9 }
    ensures { result ≡ 10 ^ exponent }
{
    POWERS[exponent]
}

// The nanoseconds of one to nine digits behind the point.
#[inline]
fn nanoseconds_of(digits: &[u8]) -> Option<u64>
    requires { length digits.now ≤ 9 }
    ensures value { result ≡ fraction_value (46 ∷ digits.now) }
    ensures small { IfSome result (λ n. n < 10 ^ 9) }
{
    let number = integers::number_of(digits)?;
    Some(number * power_of_ten(9 - digits.len()))
}

// The nanoseconds of a second: of no text, or of a point and one to nine digits.
#[inline(always)]
fn parse_fraction(text: &[u8]) -> Option<u64>
    ensures value { result ≡ fraction_value text.now }
    ensures small { IfSome result (λ n. n < 10 ^ 9) }
{
    match text {
        [] => Some(0),
        [b'.', digits @ ..] if digits.len() <= 9 => nanoseconds_of(digits),
        _ => None,
    }
}

// The nanoseconds of the day.
#[inline(always)]
fn nanosecond_of_day(text: &[u8]) -> Option<u64>
    ensures value { result ≡ time_value text.now }
    ensures small { IfSome result (λ n. n < 86400 * 10 ^ 9) }
{
    if text.len() < 8 {
        return None;
    }
    let (clock, fraction) = text.split_at(8);
    let seconds = parse_clock(clock)?;
    let nanoseconds = parse_fraction(fraction)?;
    Some(seconds * NANOSECONDS + nanoseconds)
}

/// The nanoseconds of the day that a text writes as `HH:MM:SS`, and behind that nothing or a point and one to nine
/// digits.
#[inline]
pub fn parse_time(text: &[u8]) -> Option<i64>
    ensures value { result ≡ option_map pos (time_value text.now) }
    ensures within { IfSome result (λ n. is_within time_range n ≡ true) }
{
    match nanosecond_of_day(text) {
        Some(nanoseconds) => Some(nanoseconds as i64),
        None => None,
    }
}

/// The number, where it fits 64 bits.
#[inline(always)]
pub(crate) fn in_64_bits(number: i128) -> Option<i64>
    ensures { result ≡ only_within (signed_range 64) number }
{
    if number < i128::from(i64::MIN) || number > i128::from(i64::MAX) {
        None
    } else {
        Some(number as i64)
    }
}

// The count of units of a day and of the nanoseconds of that day. Each unit has an arm of its own, in which the divisor is known.
#[inline(always)]
fn count_in(unit: TimeUnit, day: i64, nanoseconds: u64) -> i128
    requires day_in { is_within day_range day ≡ true }
    requires time_in { nanoseconds < 86400 * 10 ^ 9 }
    ensures { result ≡ count_of_units (units_in_second unit) day nanoseconds }
{
    let day = i128::from(day);
    match unit {
        TimeUnit::Milliseconds => day * 86_400_000 + i128::from(nanoseconds / 1_000_000),
        TimeUnit::Microseconds => day * 86_400_000_000 + i128::from(nanoseconds / 1_000),
        TimeUnit::Nanoseconds => day * 86_400_000_000_000 + i128::from(nanoseconds),
    }
}

/// The count of units of a day and of the nanoseconds of that day, which lies in the range of the type.
#[inline(always)]
pub(crate) fn units_of(unit: TimeUnit, day: i64, nanoseconds: u64) -> i128
    requires day_in { is_within day_range day ≡ true }
    requires time_in { nanoseconds < 86400 * 10 ^ 9 }
    ensures value { result ≡ count_of_units (units_in_second unit) day nanoseconds }
    ensures within { is_within (datetime_range (units_in_second unit)) result ≡ true }
{
    count_in(unit, day, nanoseconds)
}

// The count of units of a date and a time of day.
#[inline(always)]
fn datetime_of_parts(date: &[u8], time: &[u8], unit: TimeUnit) -> Option<i64>
    ensures value { result ≡ datetime_of (units_in_second unit) (date_value date.now) (time_value time.now) }
    ensures within { IfSome result (λ n. is_within (datetime_range (units_in_second unit)) n ≡ true) }
{
    let day = parse_date(date)?;
    let nanoseconds = nanosecond_of_day(time)?;
    in_64_bits(units_of(unit, day, nanoseconds))
}

// The count of units that a text writes as a date, `T` or one space, and a time. It is put where it is called, so that a text
// of a known length is read without tests of its length.
#[inline(always)]
fn datetime_of_text(text: &[u8], unit: TimeUnit) -> Option<i64>
    ensures value { result ≡ datetime_value unit text.now }
    ensures within { IfSome result (λ n. is_within (datetime_range (units_in_second unit)) n ≡ true) }
{
    if text.len() < 11 {
        return None;
    }
    match text[10] {
        b'T' | b' ' => datetime_of_parts(&text[..10], &text[11..], unit),
        _ => None,
    }
}

/// The count of units from 1970-01-01T00:00:00 that a text writes as a date, `T` or one space, and a time, where it fits
/// 64 bits. Digits past the unit are cut.
pub fn parse_datetime(text: &[u8], unit: TimeUnit) -> Option<i64>
    ensures value { result ≡ datetime_value unit text.now }
    ensures within { IfSome result (λ n. is_within (datetime_range (units_in_second unit)) n ≡ true) }
{
    datetime_of_text(text, unit)
}
