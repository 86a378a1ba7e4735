//! Dates that stand as they are printed.
ghost use Rattle.std.specs.Prelude.{◌≡◌, ◌+◌, ◌-◌, ◌*◌, ◌≤◌, ◌<◌, true, pos, length, drop, slice_range, IfSome};
ghost use Rattle.std.specs.Bool.{OnTrue};
ghost use Rattle.std.specs.Char.{is_ascii_digit};
ghost use Rattle.jiff_core.specs.Calendar.{IsCivilDate, is_leap_year, days_in_month};
ghost use Rattle.pl_cells.specs.Lanes.{HasDateDigits};
ghost use Rattle.pl_verbatim.specs.CellTexts.{IsDateText};

use pl_cells::date_at::{end_in_date, pair};
use std::simd::prelude::*;

// Whether digits and hyphens stand in ten bytes as in `YYYY-MM-DD`, byte by byte.
fn is_date_slowly(bytes: &[u8]) -> bool
    requires { 10 ≤ length bytes.now }
    ensures { OnTrue result (HasDateDigits bytes.now) }
{
    bytes[0].is_ascii_digit()
        && bytes[1].is_ascii_digit()
        && bytes[2].is_ascii_digit()
        && bytes[3].is_ascii_digit()
        && bytes[4] == b'-'
        && bytes[5].is_ascii_digit()
        && bytes[6].is_ascii_digit()
        && bytes[7] == b'-'
        && bytes[8].is_ascii_digit()
        && bytes[9].is_ascii_digit()
}

// Whether a year has a leap day.
#[inline(always)]
fn is_leap(year: u16) -> bool
    ensures { result ≡ is_leap_year (pos year) }
{
    year % 4 == 0 && (year % 100 != 0 || year % 400 == 0)
}

// How many days a month has.
#[inline(always)]
fn days_of(year: u16, month: u8) -> u8
    ensures { result ≡ days_in_month (pos year) month }
{
    match month {
        4 | 6 | 9 | 11 => 30,
        2 => if is_leap(year) { 29 } else { 28 },
        _ => 31,
    }
}

// Whether the calendar has a day.
#[inline(always)]
fn has_day(year: u16, month: u8, day: u8) -> bool
    requires { year < 10000 }
    ensures { OnTrue result (IsCivilDate (pos year) month day) }
{
    1 <= month && month <= 12 && 1 <= day && day <= days_of(year, month)
}

// Whether digits and hyphens stand at a place as in `YYYY-MM-DD`.
#[inline(always)]
fn is_date_at(text: &[u8], at: usize) -> bool
    requires { at + 10 ≤ length text.now }
    ensures { OnTrue result (HasDateDigits (slice_range text.now at (at + 10))) }
{
    if at >= 6 {
        end_in_date(u8x16::from_slice(&text[at - 6..at + 10]))
    } else {
        is_date_slowly(&text[at..at + 10])
    }
}

// Whether the calendar has the day of such a text.
#[inline(always)]
fn is_day(text: &[u8]) -> bool
    requires ten { length text.now ≡ 10 }
    requires digits { HasDateDigits text.now }
    ensures { OnTrue result (IsDateText text.now) }
{
    let century = pair(text[0], text[1]);
    let year = pair(text[2], text[3]);
    let month = pair(text[5], text[6]);
    let day = pair(text[8], text[9]);
    has_day(u16::from(century) * 100 + u16::from(year), month, day)
}

/// The place behind the date that stands at a place as it is printed.
#[inline(always)]
pub(crate) fn date_end(text: &[u8], at: usize) -> Option<usize>
    requires { at ≤ length text.now }
    ensures ten { IfSome result (λ end. end ≡ at + 10) }
    ensures within { IfSome result (λ end. end ≤ length text.now) }
    ensures date { IfSome result (λ end. IsDateText (slice_range text.now at end)) }
{
    if text.len() - at >= 10 && is_date_at(text, at) && is_day(&text[at..at + 10]) {
        Some(at + 10)
    } else {
        None
    }
}
