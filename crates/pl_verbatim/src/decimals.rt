//! Decimals that stand as they are printed.
ghost use Rattle.std.specs.Prelude.{◌≡◌, ◌≤◌, ◌<◌, ◌==◌, true, not, length, slice_range, IfSome};
ghost use Rattle.std.specs.Bool.{OnTrue};
ghost use Rattle.std.specs.List.{list_any};
ghost use Rattle.std.specs.Str.{all_ascii_digits};
ghost use Rattle.pl_verbatim.specs.CellTexts.{IsDecimalText};

use crate::digits::digits_end;

// Whether all bytes are digits.
fn are_digits(bytes: &[u8]) -> bool
    ensures { OnTrue result (all_ascii_digits bytes.now ≡ true) }
{
    for index in 0..bytes.len() {
        if !bytes[index].is_ascii_digit() {
            return false;
        }
    }
    true
}

// Whether a byte other than a zero stands between two places.
fn has_nonzero(text: &[u8], from: usize, to: usize) -> bool
    requires { (from ≤ to) × (to ≤ length text.now) }
    ensures { result ≡ list_any (λ x. not (x == 48)) (slice_range text.now from to) }
{
    text[from..to].iter().any(|x| *x != b'0')
}

/// The place behind the decimal of at most so many digits that stands at a place as it is printed, with so many of them behind the
/// point, at least one. The clause speaks of at most 64 digits, since no more are printed of a number.
#[inline(always)]
pub(crate) fn decimal_end(text: &[u8], at: usize, digits: usize, scale: usize) -> Option<usize>
    requires some { 0 < scale }
    requires inside { at < length text.now }
    ensures within { IfSome result (λ end. end ≤ length text.now) }
    ensures decimal { IfSome result (λ end. digits ≤ 64 → IsDecimalText digits scale (slice_range text.now at end)) }
{
    let from = if text[at] == b'-' { at + 1 } else { at };
    let point = digits_end(text, from);
    let count = point - from;
    if count == 0 || point >= text.len() || text[point] != b'.' {
        return None;
    }
    if count > digits || scale > digits - count || scale > text.len() - (point + 1) {
        return None;
    }
    let end = point + 1 + scale;
    if !are_digits(&text[point + 1..end]) {
        return None;
    }
    if text[from] == b'0' && count > 1 {
        return None;
    }
    if text[from] == b'0' && from > at && !has_nonzero(text, point + 1, end) {
        return None;
    }
    Some(end)
}
