//! A row that stands as it is written.
ghost use Rattle.std.specs.Prelude.{◌≡◌, ◌<◌, ◌≤◌, List, Some, true, false, length, map, slice_range, IfSome};
ghost use Rattle.std.specs.List.{All};
ghost use Rattle.pl_frame.specs.Schema.{Entry};
ghost use Rattle.pl_text.specs.FrameText.{WriteOptions};
ghost use Rattle.pl_verbatim.specs.CellTexts.{IsCellOptions};
ghost use Rattle.pl_verbatim.specs.Changes.{IsAlike, IsLineChangeOfKinds};
ghost use Rattle.pl_verbatim.specs.Kinds.{AreKindsOf, is_passed, is_sound_kind};
ghost use Rattle.pl_verbatim.specs.Nulls.{are_alike, AreStartsOf};
ghost use Rattle.pl_verbatim.specs.Verbatim.{IsLineOf, IsRowCopied};

use crate::cells::cell_end;
use crate::copies::copy_cell;
use crate::form::Form;
use crate::kinds::Kind;
use crate::marks::Marks;
use crate::same::same_cell_end;

/// The place behind the line that stands at a place as a row with cells of these kinds is written.
#[inline]
pub(crate) fn row_end(
    text: &[u8],
    start: usize,
    kinds: &[Kind],
    separator: u8,
    quote: u8,
    marks: &mut Marks,
) -> Option<usize>
    requires inside { start ≤ length text.now }
    requires sound { All (λ kind. is_sound_kind kind ≡ true) kinds.now }
    requires ascii { quote < 128 }
    ensures some { IfSome result (λ end. 0 < length kinds.now) }
    ensures after { IfSome result (λ end. start < end) }
    ensures within { IfSome result (λ end. end ≤ length text.now) }
    ensures line { IfSome result (λ end. (o : WriteOptions) (schema : List Entry) → IsCellOptions o separator quote → AreKindsOf (map Some schema) kinds.now → IsLineOf o schema (slice_range text.now start end)) }
{
    if kinds.is_empty() {
        return None;
    }
    let last = kinds.len() - 1;
    let mut at = start;
    for index in 0..last {
        let ahead = marks.next(text, separator);
        let end = cell_end::<1>(text, at, kinds[index], separator, separator, quote)?;
        at = marks.pass(ahead, text, end, separator);
    }
    let ahead = marks.next(text, separator);
    let end = cell_end::<2>(text, at, kinds[last], b'\n', separator, quote)?;
    Some(marks.pass(ahead, text, end, separator))
}

/// The place behind the line that stands at a place as the row is written by a form that is alike.
#[inline]
pub(crate) fn same_row_end(
    text: &[u8],
    start: usize,
    kinds: &[Kind],
    separator: u8,
    quote: u8,
    form: &Form,
    marks: &mut Marks,
) -> Option<usize>
    requires inside { start ≤ length text.now }
    requires sound { All (λ kind. is_sound_kind kind ≡ true) kinds.now }
    requires ascii { quote < 128 }
    requires nulls { are_alike form.now.nulls ≡ true }
    requires begin { AreStartsOf form.now.nulls form.now.starts }
    requires alike { IsAlike form.now separator }
    requires whole { All (λ kind. is_passed kind ≡ false) kinds.now }
    ensures some { IfSome result (λ end. 0 < length kinds.now) }
    ensures after { IfSome result (λ end. start < end) }
    ensures within { IfSome result (λ end. end ≤ length text.now) }
    ensures line { IfSome result (λ end. IsLineChangeOfKinds separator quote form.now kinds.now (slice_range text.now start end) (slice_range text.now start end)) }
{
    if kinds.is_empty() {
        return None;
    }
    let last = kinds.len() - 1;
    let mut at = start;
    for index in 0..last {
        let ahead = marks.next(text, separator);
        let end = same_cell_end::<7>(text, at, kinds[index], separator, separator, quote, form)?;
        at = marks.pass(ahead, text, end, separator);
    }
    let ahead = marks.next(text, separator);
    let end = same_cell_end::<8>(text, at, kinds[last], b'\n', separator, quote, form)?;
    Some(marks.pass(ahead, text, end, separator))
}

/// Appends what is written of the row at a place to lines, and answers the place behind its own line. Where no such row is found, or memory
/// is wanting, the lines may have a part of it.
#[inline]
pub(crate) fn copy_row(
    text: &[u8],
    start: usize,
    kinds: &[Kind],
    separator: u8,
    quote: u8,
    marks: &mut Marks,
    lines: &mut Vec<u8>,
) -> Option<usize>
    requires inside { start ≤ length text.now }
    requires sound { All (λ kind. is_sound_kind kind ≡ true) kinds.now }
    requires ascii { quote < 128 }
    ensures some { IfSome result (λ end. 0 < length kinds.now) }
    ensures after { IfSome result (λ end. start < end) }
    ensures within { IfSome result (λ end. end ≤ length text.now) }
    ensures copied { IsRowCopied text.now start kinds.now separator quote lines.old.items lines.new.items result }
{
    if kinds.is_empty() {
        return None;
    }
    let last = kinds.len() - 1;
    let mut from = start;
    let mut at = start;
    for index in 0..last {
        at = copy_cell::<3>(
            text,
            &mut from,
            at,
            kinds[index],
            separator,
            separator,
            quote,
            marks,
            lines,
        )?;
    }
    let end = copy_cell::<4>(
        text,
        &mut from,
        at,
        kinds[last],
        b'\n',
        separator,
        quote,
        marks,
        lines,
    )?;
    if lines.extend_from_slice(&text[from..end]).is_ok() {
        Some(end)
    } else {
        None
    }
}
