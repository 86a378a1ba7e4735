//! Times of the day, and dates with times, put into a block from a place on.
ghost use Rattle.std.specs.Prelude.{◌≡◌, ◌++◌, ◌∷◌, [], ◌<◌, ◌+◌, ◌≤◌, ◌*◌, ◌^◌, true, pos, unsigned_abs, length, take};
ghost use Rattle.std.specs.Int.{int_div_euclid};
ghost use Rattle.pl_frame.specs.Types.{is_within, day_range, time_range, datetime_range, units_in_second};
ghost use Rattle.pl_text.specs.ValueText.{padded, clock_text, time_text, places_of, second_text, datetime_text};

use crate::digit_words::{bytes_from, eight_digits};
use crate::digits::{nine_digits, three_digits};
use crate::put_dates::{put_date, put_two};
use crate::puts::{put_byte, put_bytes, put_front};
use crate::times::{rest_of, second_of, second_of_day, wide_rest_of, wide_second_of};
use pl_frame::data_type::TimeUnit;

// Puts a second of the day as `HH:MM:SS`.
#[inline(always)]
fn put_clock(to: &mut [u8], at: usize, second: u32) -> usize
    requires room { at + 14 ≤ length to.old }
    requires second { second < 86400 }
    ensures text { take result to.new ≡ take at to.old ++ clock_text second }
    ensures end { result ≡ at + 8 }
{
    let hour_end = put_two(to, at, second / 3600);
    let minute_begin = put_byte(to, hour_end, b':');
    let minute_end = put_two(to, minute_begin, second / 60 % 60);
    let second_begin = put_byte(to, minute_end, b':');
    put_two(to, second_begin, second % 60)
}

// Puts a time of the day, given in nanoseconds.
#[inline]
fn put_nanoseconds(to: &mut [u8], at: usize, nanoseconds: u64) -> usize
    requires room { at + 18 ≤ length to.old }
    requires time { nanoseconds < 86400 * 10 ^ 9 }
    ensures text { take result to.new ≡ take at to.old ++ time_text nanoseconds }
    ensures end { result ≡ at + 18 }
{
    let behind = put_clock(to, at, (nanoseconds / 1_000_000_000) as u32);
    let point = put_byte(to, behind, b'.');
    put_bytes(
        to,
        point,
        &nine_digits((nanoseconds % 1_000_000_000) as u32),
    )
}

/// Puts a time of the day, given in nanoseconds, as `HH:MM:SS.` and nine digits.
#[inline]
pub(crate) fn put_time(to: &mut [u8], at: usize, nanoseconds: i64) -> usize
    requires room { at + 18 ≤ length to.old }
    requires time { is_within time_range nanoseconds ≡ true }
    ensures text { take result to.new ≡ take at to.old ++ time_text (unsigned_abs nanoseconds) }
    ensures end { result ≡ at + 18 }
{
    put_nanoseconds(to, at, nanoseconds.unsigned_abs())
}

// Puts the date and the time of the day at a count of seconds from 1970-01-01T00:00:00, with a point behind them.
#[inline]
fn put_second(to: &mut [u8], at: usize, second: i64) -> usize
    requires room { at + 25 ≤ length to.old }
    requires day { is_within day_range (int_div_euclid second (pos 86400)) ≡ true }
    ensures text { take result to.new ≡ take at to.old ++ (second_text second ++ 46 ∷ []) }
    ensures end { result ≡ at + 20 }
{
    let date_end = put_date(to, at, second.div_euclid(86_400));
    let clock_begin = put_byte(to, date_end, b'T');
    let clock_end = put_clock(to, clock_begin, second_of_day(second));
    put_byte(to, clock_end, b'.')
}

// Puts a number in six digits.
#[inline]
fn put_six(to: &mut [u8], at: usize, n: u32) -> usize
    requires room { at + 8 ≤ length to.old }
    requires small { n < 1000000 }
    ensures text { take result to.new ≡ take at to.old ++ padded 6 n }
    ensures end { result ≡ at + 6 }
{
    put_front(to, at, bytes_from(eight_digits(n), 2), 6)
}

// Puts what is less than a second.
#[inline]
fn put_places(to: &mut [u8], at: usize, unit: TimeUnit, rest: u32) -> usize
    requires room { at + 9 ≤ length to.old }
    requires rest { rest < units_in_second unit }
    ensures text { take result to.new ≡ take at to.old ++ padded (places_of unit) rest }
    ensures end { result ≤ at + 9 }
{
    match unit {
        TimeUnit::Milliseconds => put_bytes(to, at, &three_digits(rest)),
        TimeUnit::Microseconds => put_six(to, at, rest),
        TimeUnit::Nanoseconds => put_bytes(to, at, &nine_digits(rest)),
    }
}

/// Puts a datetime whose count fits 64 bits.
#[inline]
pub(crate) fn put_narrow_datetime(to: &mut [u8], at: usize, unit: TimeUnit, count: i64) -> usize
    requires room { at + 29 ≤ length to.old }
    requires count { is_within (datetime_range (units_in_second unit)) count ≡ true }
    ensures text { take result to.new ≡ take at to.old ++ datetime_text unit count }
    ensures end { result ≤ at + 29 }
{
    let behind = put_second(to, at, second_of(unit, count));
    put_places(to, behind, unit, rest_of(unit, count))
}

// Puts a datetime of any count.
#[cold]
fn put_wide_datetime(to: &mut [u8], at: usize, unit: TimeUnit, count: i128) -> usize
    requires room { at + 29 ≤ length to.old }
    requires count { is_within (datetime_range (units_in_second unit)) count ≡ true }
    ensures text { take result to.new ≡ take at to.old ++ datetime_text unit count }
    ensures end { result ≤ at + 29 }
{
    let behind = put_second(to, at, wide_second_of(unit, count));
    put_places(to, behind, unit, wide_rest_of(unit, count))
}

/// Puts a date and a time of the day, given in units from 1970-01-01T00:00:00, as `YYYY-MM-DDTHH:MM:SS.` and three, six or
/// nine digits.
#[inline]
pub(crate) fn put_datetime(to: &mut [u8], at: usize, unit: TimeUnit, count: i128) -> usize
    requires room { at + 29 ≤ length to.old }
    requires count { is_within (datetime_range (units_in_second unit)) count ≡ true }
    ensures text { take result to.new ≡ take at to.old ++ datetime_text unit count }
    ensures end { result ≤ at + 29 }
{
    match i64::try_from(count) {
        Ok(count) => put_narrow_datetime(to, at, unit, count),
        Err(_) => put_wide_datetime(to, at, unit, count),
    }
}
