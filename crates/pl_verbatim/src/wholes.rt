//! Whole numbers that stand as they are printed.
ghost use Rattle.std.specs.Prelude.{◌≤◌, ◌<◌, length, slice_range, IfSome};
ghost use Rattle.pl_verbatim.specs.CellTexts.{IsWholeText};

use crate::digits::digits_end;

/// The place behind the whole number of at most so many digits that stands at a place as it is printed; a minus may stand before it
/// only where it `is_signed`. The clause speaks of at most 64 digits, since no more are printed of a number.
#[inline(always)]
pub(crate) fn whole_end(text: &[u8], at: usize, digits: usize, is_signed: bool) -> Option<usize>
    requires { at < length text.now }
    ensures within { IfSome result (λ end. end ≤ length text.now) }
    ensures whole { IfSome result (λ end. digits ≤ 64 → IsWholeText digits is_signed (slice_range text.now at end)) }
{
    let from = if is_signed && text[at] == b'-' {
        at + 1
    } else {
        at
    };
    let end = digits_end(text, from);
    let count = end - from;
    if count == 0 || count > digits {
        return None;
    }
    if text[from] == b'0' && end - at > 1 {
        return None;
    }
    Some(end)
}
