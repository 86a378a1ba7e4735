//! Cells that stand as they are written by a form that writes only nulls otherwise.
ghost use Rattle.std.specs.Prelude.{◌≡◌, ◌<◌, ◌≤◌, true, length, slice_index, slice_range, IfSome};
ghost use Rattle.pl_verbatim.specs.Changes.{null_test_of, IsAlike, IsChangeOfKind};
ghost use Rattle.pl_verbatim.specs.Kinds.{is_sound_kind};
ghost use Rattle.pl_verbatim.specs.Nulls.{are_alike, AreStartsOf};

use crate::cells::value_end;
use crate::form::Form;
use crate::kinds::Kind;
use crate::nulls::means_null;

// The place behind the value that stands at a place as it is written, with a mark behind it, and that may begin as a text that means null.
#[inline(never)]
fn other_end(
    text: &[u8],
    at: usize,
    kind: Kind,
    mark: u8,
    separator: u8,
    quote: u8,
    form: &Form,
) -> Option<usize>
    requires inside { at < length text.now }
    requires sound { is_sound_kind kind ≡ true }
    requires ascii { quote < 128 }
    requires nulls { are_alike form.now.nulls ≡ true }
    requires alike { IsAlike form.now separator }
    ensures after { IfSome result (λ end. at ≤ end) }
    ensures within { IfSome result (λ end. end < length text.now) }
    ensures mark { IfSome result (λ end. slice_index text.now end ≡ mark) }
    ensures cell { IfSome result (λ end. IsChangeOfKind separator quote form.now (null_test_of form.now) kind (slice_range text.now at end) (slice_range text.now at end)) }
{
    let end = value_end::<15>(text, at, kind, separator, quote)?;
    if end >= text.len() || text[end] != mark {
        return None;
    }
    let Some(nulls) = &form.nulls else {
        return None;
    };
    if means_null(nulls, &text[at..end], quote)? {
        return None;
    }
    Some(end)
}

/// The place behind the cell that stands at a place as it is written, with a mark behind it. `CALLER` is that of `cell_end`.
#[inline(always)]
pub(crate) fn same_cell_end<const CALLER: usize>(
    text: &[u8],
    at: usize,
    kind: Kind,
    mark: u8,
    separator: u8,
    quote: u8,
    form: &Form,
) -> Option<usize>
    requires inside { at ≤ length text.now }
    requires sound { is_sound_kind kind ≡ true }
    requires ascii { quote < 128 }
    requires nulls { are_alike form.now.nulls ≡ true }
    requires begin { AreStartsOf form.now.nulls form.now.starts }
    requires alike { IsAlike form.now separator }
    ensures after { IfSome result (λ end. at ≤ end) }
    ensures within { IfSome result (λ end. end < length text.now) }
    ensures mark { IfSome result (λ end. slice_index text.now end ≡ mark) }
    ensures cell { IfSome result (λ end. IsChangeOfKind separator quote form.now (null_test_of form.now) kind (slice_range text.now at end) (slice_range text.now at end)) }
{
    if at >= text.len() {
        return None;
    }
    if text[at] == mark {
        return if form.null.is_empty() { Some(at) } else { None };
    }
    if form.starts[text[at] as usize] {
        return other_end(text, at, kind, mark, separator, quote, form);
    }
    let end = value_end::<CALLER>(text, at, kind, separator, quote)?;
    if end < text.len() && text[end] == mark {
        Some(end)
    } else {
        None
    }
}
