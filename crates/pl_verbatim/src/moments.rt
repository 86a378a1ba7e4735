//! Datetimes that stand as they are printed, or without a fraction.
ghost use Rattle.std.specs.Prelude.{◌≡◌, ℕ, ◌+◌, ◌≤◌, ◌<◌, length, drop, slice_range, IfSome};
ghost use Rattle.std.specs.Bool.{OnTrue};
ghost use Rattle.pl_cells.specs.Lanes.{HasClockDigits};
ghost use Rattle.pl_verbatim.specs.CellTexts.{IsClockText, IsSecondsText, IsMomentText};

use crate::dates::date_end;
use crate::digits::digits_end;
use pl_cells::date_at::pair;
use pl_cells::seconds_at::end_in_clock;
use std::simd::prelude::*;

// Whether digits and colons stand at a place as in `HH:MM:SS`. At least eight bytes stand before it.
#[inline(always)]
fn is_clock_at(text: &[u8], at: usize) -> bool
    requires before { 8 ≤ at }
    requires room { at + 8 ≤ length text.now }
    ensures { OnTrue result (HasClockDigits (slice_range text.now at (at + 8))) }
{
    end_in_clock(u8x16::from_slice(&text[at - 8..at + 8]))
}

// Whether a day has a second.
#[inline(always)]
fn has_second(hour: u8, minute: u8, second: u8) -> bool
    ensures { OnTrue result ((hour < 24) × (minute < 60) × (second < 60)) }
{
    hour < 24 && minute < 60 && second < 60
}

// Whether a day has the second of such a text.
#[inline(always)]
fn is_second(text: &[u8]) -> bool
    requires eight { length text.now ≡ 8 }
    requires digits { HasClockDigits text.now }
    ensures { OnTrue result (IsClockText text.now) }
{
    let hour = pair(text[0], text[1]);
    let minute = pair(text[3], text[4]);
    let second = pair(text[6], text[7]);
    has_second(hour, minute, second)
}

/// The place behind the day, `T` and the second of the day that stand at a place as they are printed.
#[inline(always)]
pub(crate) fn seconds_end(text: &[u8], at: usize) -> Option<usize>
    requires { at ≤ length text.now }
    ensures after { IfSome result (λ end. at < end) }
    ensures within { IfSome result (λ end. end ≤ length text.now) }
    ensures seconds { IfSome result (λ end. IsSecondsText (slice_range text.now at end)) }
{
    let day = date_end(text, at)?;
    if text.len() - day < 9 || text[day] != b'T' {
        return None;
    }
    if is_clock_at(text, day + 1) && is_second(&text[day + 1..day + 9]) {
        Some(day + 9)
    } else {
        None
    }
}

/// The place behind a point and exactly so many digits, where they stand at the place behind such a second.
#[inline(always)]
pub(crate) fn fraction_end(text: &[u8], point: usize, places: usize) -> Option<usize>
    requires inside { point ≤ length text.now }
    requires places { (0 < places) × (places ≤ 9) }
    ensures after { IfSome result (λ end. point < end) }
    ensures within { IfSome result (λ end. end ≤ length text.now) }
    ensures moment { IfSome result (λ end. (at : ℕ) → at < point → IsSecondsText (slice_range text.now at point) → IsMomentText places (slice_range text.now at end)) }
{
    if point >= text.len() || text[point] != b'.' {
        return None;
    }
    let end = digits_end(text, point + 1);
    if end - point - 1 == places {
        Some(end)
    } else {
        None
    }
}

/// The place behind such a second, a point and exactly so many digits that stand at a place.
#[inline(always)]
pub(crate) fn moment_end(text: &[u8], at: usize, places: usize) -> Option<usize>
    requires inside { at ≤ length text.now }
    requires places { (0 < places) × (places ≤ 9) }
    ensures after { IfSome result (λ end. at < end) }
    ensures within { IfSome result (λ end. end ≤ length text.now) }
    ensures moment { IfSome result (λ end. IsMomentText places (slice_range text.now at end)) }
{
    let point = seconds_end(text, at)?;
    fraction_end(text, point, places)
}
