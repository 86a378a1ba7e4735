//! Dates with times of whole seconds read in place: of the bytes from a place of a text to its end. No call takes memory.
ghost use Rattle.std.specs.Prelude.{◌≡◌, ◌<◌, ◌*◌, ◌^◌, length, take, drop, true, IfSome, Some};
ghost use Rattle.std.specs.Bool.{OnTrue};
ghost use Rattle.pl_frame.specs.Types.{is_within, datetime_range, units_in_second};
ghost use Rattle.pl_cells.specs.Columns.{begins_number};
ghost use Rattle.pl_cells.specs.Dates.{date_value};
ghost use Rattle.pl_cells.specs.Lanes.{HasDateDigits, HasClockDigits};
ghost use Rattle.pl_cells.specs.Quoting.{strip};
ghost use Rattle.pl_cells.specs.Times.{clock_value, datetime_of, datetime_value, time_value};

use crate::date_at::{day_of_text, end_in_date, pair};
use crate::times::{in_64_bits, second_of, units_of};
use pl_frame::data_type::TimeUnit;
use std::simd::prelude::*;

const NANOSECONDS: u64 = 1_000_000_000;

/// True only where the last eight of these bytes are digits and colons as a time of whole seconds has them.
#[inline(always)]
pub fn end_in_clock(bytes: u8x16) -> bool
    ensures { OnTrue result (HasClockDigits (drop 8 bytes)) }
{
    let zeros = [
        0, 0, 0, 0, 0, 0, 0, 0, b'0', b'0', b':', b'0', b'0', b':', b'0', b'0',
    ];
    let most = [
        255, 255, 255, 255, 255, 255, 255, 255, 9, 9, 0, 9, 9, 0, 9, 9,
    ];
    let above = bytes - u8x16::from_array(zeros);
    above.simd_gt(u8x16::from_array(most)).to_bitmask() == 0
}

// The second of the day, where there is one.
#[inline(always)]
fn second_of_text(text: &[u8]) -> Option<u64>
    requires eight { length text.now ≡ 8 }
    requires clock { HasClockDigits text.now }
    ensures value { result ≡ clock_value text.now }
    ensures small { IfSome result (λ n. n < 86400) }
{
    let hour = pair(text[0], text[1]);
    let minute = pair(text[3], text[4]);
    let second = pair(text[6], text[7]);
    second_of(hour, minute, second)
}

// The nanoseconds of the day, where there is such a time.
#[inline(always)]
fn nanosecond_of_text(text: &[u8]) -> Option<u64>
    requires eight { length text.now ≡ 8 }
    requires clock { HasClockDigits text.now }
    ensures value { result ≡ time_value text.now }
    ensures small { IfSome result (λ n. n < 86400 * 10 ^ 9) }
{
    let second = second_of_text(text)?;
    Some(second * NANOSECONDS)
}

// The count of units of a date and a time of day.
#[inline(always)]
fn count_of_parts(date: &[u8], clock: &[u8], unit: TimeUnit) -> Option<i64>
    requires ten { length date.now ≡ 10 }
    requires date { HasDateDigits date.now }
    requires eight { length clock.now ≡ 8 }
    requires clock { HasClockDigits clock.now }
    ensures value { result ≡ datetime_of (units_in_second unit) (date_value date.now) (time_value clock.now) }
    ensures within { IfSome result (λ n. is_within (datetime_range (units_in_second unit)) n ≡ true) }
{
    let day = day_of_text(date)?;
    let nanoseconds = nanosecond_of_text(clock)?;
    in_64_bits(units_of(unit, day, nanoseconds))
}

// The count of units of a date, `T` or one space, and a time.
#[inline(always)]
fn count_of_text(text: &[u8], unit: TimeUnit) -> Option<i64>
    requires long { length text.now ≡ 19 }
    requires date { HasDateDigits (take 10 text.now) }
    requires clock { HasClockDigits (drop 11 text.now) }
    ensures value { result ≡ datetime_value unit text.now }
    ensures within { IfSome result (λ n. is_within (datetime_range (units_in_second unit)) n ≡ true) }
{
    match text[10] {
        b'T' | b' ' => count_of_parts(&text[..10], &text[11..], unit),
        _ => None,
    }
}

/// The count of units from 1970-01-01T00:00:00 that the bytes write as `YYYY-MM-DD`, `T` or one space, and `HH:MM:SS`. Other
/// texts are not seen, nor is one that stands among the first bytes.
#[inline(always)]
pub(crate) fn seconds_at(upto: &[u8], start: usize, unit: TimeUnit) -> Option<i64>
    ensures value { IfSome result (λ n. datetime_value unit (drop start upto.now) ≡ Some n) }
    ensures within { IfSome result (λ n. is_within (datetime_range (units_in_second unit)) n ≡ true) }
    ensures front { IfSome result (λ _. begins_number (drop start upto.now) ≡ true) }
    ensures back { IfSome result (λ _. strip (drop start upto.now) ≡ drop start upto.now) }
{
    if start < 6 || start > upto.len() || upto.len() - start != 19 {
        return None;
    }
    if !end_in_date(u8x16::from_slice(&upto[start - 6..])) {
        return None;
    }
    if end_in_clock(u8x16::from_slice(&upto[start + 3..])) {
        count_of_text(&upto[start..], unit)
    } else {
        None
    }
}
