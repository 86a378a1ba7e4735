//! Dates read in place: of the bytes from a place of a text to its end. No call takes memory.
ghost use Rattle.std.specs.Prelude.{◌≡◌, ◌-◌, ◌+◌, ◌*◌, ◌<◌, length, drop, true, IfSome, Some};
ghost use Rattle.std.specs.Bool.{OnTrue};
ghost use Rattle.std.specs.Char.{is_ascii_digit};
ghost use Rattle.pl_frame.specs.Types.{is_within, day_range};
ghost use Rattle.pl_cells.specs.Columns.{begins_number};
ghost use Rattle.pl_cells.specs.Dates.{date_value};
ghost use Rattle.pl_cells.specs.Lanes.{HasDateDigits};
ghost use Rattle.pl_cells.specs.Quoting.{strip};

use crate::dates::day_of;
use std::simd::prelude::*;

/// True only where the last ten of these bytes are digits and hyphens as a date has them.
#[inline(always)]
pub fn end_in_date(bytes: u8x16) -> bool
    ensures { OnTrue result (HasDateDigits (drop 6 bytes)) }
{
    let zeros = [
        0, 0, 0, 0, 0, 0, b'0', b'0', b'0', b'0', b'-', b'0', b'0', b'-', b'0', b'0',
    ];
    let most = [255, 255, 255, 255, 255, 255, 9, 9, 9, 9, 0, 9, 9, 0, 9, 9];
    let above = bytes - u8x16::from_array(zeros);
    above.simd_gt(u8x16::from_array(most)).to_bitmask() == 0
}

/// The number of two digits.
#[inline(always)]
pub fn pair(tens: u8, ones: u8) -> u8
    requires tens { is_ascii_digit tens ≡ true }
    requires ones { is_ascii_digit ones ≡ true }
    ensures value { result ≡ (tens - 48) * 10 + (ones - 48) }
    ensures small { result < 100 }
{
    (tens - b'0') * 10 + (ones - b'0')
}

/// The day of the text of a date, where the calendar has it.
#[inline(always)]
pub(crate) fn day_of_text(text: &[u8]) -> Option<i64>
    requires ten { length text.now ≡ 10 }
    requires date { HasDateDigits text.now }
    ensures value { result ≡ date_value text.now }
    ensures within { IfSome result (λ n. is_within day_range n ≡ true) }
{
    let century = pair(text[0], text[1]);
    let year = pair(text[2], text[3]);
    let month = pair(text[5], text[6]);
    let day = pair(text[8], text[9]);
    day_of(u16::from(century) * 100 + u16::from(year), month, day)
}

/// The days from 1970-01-01 to the date that the bytes write as `YYYY-MM-DD`. Other texts are not seen, nor is one where the
/// whole text is shorter than sixteen bytes.
#[inline(always)]
pub(crate) fn date_at(upto: &[u8], start: usize) -> Option<i64>
    ensures value { IfSome result (λ n. date_value (drop start upto.now) ≡ Some n) }
    ensures within { IfSome result (λ n. is_within day_range n ≡ true) }
    ensures front { IfSome result (λ _. begins_number (drop start upto.now) ≡ true) }
    ensures back { IfSome result (λ _. strip (drop start upto.now) ≡ drop start upto.now) }
{
    if upto.len() < 16 || start > upto.len() || upto.len() - start != 10 {
        return None;
    }
    if end_in_date(u8x16::from_slice(&upto[upto.len() - 16..])) {
        day_of_text(&upto[start..])
    } else {
        None
    }
}
