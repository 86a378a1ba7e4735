//! Texts in place that are plain at sight: the bytes from a place of a text to its end. No call takes memory.
ghost use Rattle.std.specs.Prelude.{◌≡◌, ◌<◌, drop, length, true, None, IfSome};
ghost use Rattle.pl_cells.specs.Columns.{begins_number};
ghost use Rattle.pl_cells.specs.Quoting as spec;
ghost use Rattle.pl_cells.specs.Quoting.{strip};

use crate::quoting::quote_of;

/// The text, where it begins with a digit or a minus and ends with a digit.
#[inline(always)]
pub(crate) fn number_text(upto: &[u8], start: usize) -> Option<&[u8]>
    ensures text { IfSome result (λ text. text.now ≡ drop start upto.now) }
    ensures front { IfSome result (λ _. begins_number (drop start upto.now) ≡ true) }
    ensures back { IfSome result (λ _. strip (drop start upto.now) ≡ drop start upto.now) }
{
    if start >= upto.len() {
        return None;
    }
    let (first, last) = (upto[start], upto[upto.len() - 1]);
    if (first.is_ascii_digit() || first == b'-') && last.is_ascii_digit() {
        Some(&upto[start..])
    } else {
        None
    }
}

/// The text, where it is not empty, begins with no quote and ends with no carriage return.
#[inline(always)]
pub(crate) fn plain_bytes(upto: &[u8], start: usize, quote_char: Option<u8>) -> Option<&[u8]>
    ensures text { IfSome result (λ text. text.now ≡ drop start upto.now) }
    ensures some { IfSome result (λ _. 0 < length (drop start upto.now)) }
    ensures front { IfSome result (λ _. spec.quote_of quote_char (drop start upto.now) ≡ None) }
    ensures back { IfSome result (λ _. strip (drop start upto.now) ≡ drop start upto.now) }
{
    if start >= upto.len() || upto[upto.len() - 1] == b'\r' {
        return None;
    }
    let bytes = &upto[start..];
    match quote_of(bytes, quote_char) {
        Some(_) => None,
        None => Some(bytes),
    }
}
