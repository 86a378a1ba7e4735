//! Fields that mean null.
ghost use Rattle.std.specs.Prelude.{◌≡◌, ◌<◌, ◌≤◌, true, false, Some, length, slice_index, slice_range, IfSome};
ghost use Rattle.std.specs.List.{list_any};
ghost use Rattle.pl_text.specs.FrameText.{is_special};
ghost use Rattle.pl_cells.specs.NullValues.{is_null_text};
ghost use Rattle.pl_verbatim.specs.Nulls.{are_alike};
ghost use Rattle.pl_verbatim.specs.Changes.{IsNullField, IsOtherField};

use crate::texts::count_before_special;
use pl_cells::null_values::NullValuesCompiled;

/// Whether a field means null. None of one that ends with a carriage return, and of one that is empty or between quotes and means null.
#[inline]
pub(crate) fn means_null(nulls: &NullValuesCompiled, field: &[u8], quote: u8) -> Option<bool>
    requires { are_alike (Some nulls.now) ≡ true }
    ensures null { IfSome result (λ is_null. is_null ≡ true → IsNullField (is_null_text nulls.now 0) quote field.now) }
    ensures other { IfSome result (λ is_null. is_null ≡ false → IsOtherField (is_null_text nulls.now 0) quote field.now) }
{
    if field.ends_with(b"\r") {
        return None;
    }
    if !nulls.is_null(field, 0) {
        return Some(false);
    }
    if field.is_empty() || field[0] == quote {
        return None;
    }
    Some(true)
}

/// The end of the field at a place, with a mark behind it, where it means null and stands without quotes.
#[inline(never)]
pub(crate) fn null_end(
    text: &[u8],
    at: usize,
    mark: u8,
    separator: u8,
    quote: u8,
    nulls: &NullValuesCompiled,
) -> Option<usize>
    requires inside { at ≤ length text.now }
    requires alike { are_alike (Some nulls.now) ≡ true }
    ensures after { IfSome result (λ end. at ≤ end) }
    ensures within { IfSome result (λ end. end < length text.now) }
    ensures mark { IfSome result (λ end. slice_index text.now end ≡ mark) }
    ensures bare { IfSome result (λ end. list_any (is_special separator quote) (slice_range text.now at end) ≡ false) }
    ensures null { IfSome result (λ end. IsNullField (is_null_text nulls.now 0) quote (slice_range text.now at end)) }
{
    let end = at + count_before_special(&text[at..], separator, quote);
    if end >= text.len() || text[end] != mark {
        return None;
    }
    match means_null(nulls, &text[at..end], quote) {
        Some(true) => Some(end),
        Some(false) => None,
        None => None,
    }
}
