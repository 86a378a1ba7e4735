//! Fields of columns that are not read: it is enough to see where they end.
ghost use Rattle.std.specs.Prelude.{◌≡◌, ◌+◌, ◌<◌, ◌≤◌, true, length, slice_index, slice_range, IfSome};
ghost use Rattle.std.specs.List.{list_all};
ghost use Rattle.pl_scan.specs.Fields.{is_plain};
ghost use Rattle.pl_verbatim.specs.Changes.{IsAnyField, IsFieldPassed, field_marks};
ghost use Rattle.pl_verbatim.specs.CellTexts.{IsBetweenQuotes};

use crate::marks::Marks;
use crate::texts::{count_before_stop, short_quoted_end};
use memchr::{memchr, memchr2};

// The place of the next mark.
#[inline(always)]
fn plain_end(text: &[u8], at: usize, separator: u8, quote: u8) -> Option<usize>
    requires inside { at ≤ length text.now }
    ensures after { IfSome result (λ end. at ≤ end) }
    ensures within { IfSome result (λ end. end < length text.now) }
    ensures plain { IfSome result (λ end. list_all (is_plain (field_marks separator quote)) (slice_range text.now at end) ≡ true) }
{
    if text.len() - at >= 32 {
        let count = count_before_stop(&text[at..at + 32], separator, quote);
        if count < 32 && (text[at + count] == separator || text[at + count] == b'\n') {
            return Some(at + count);
        }
    }
    let count = memchr2(separator, b'\n', &text[at..])?;
    Some(at + count)
}

// The place behind what stands between quotes from a place on, whatever it is.
fn any_quoted_end(text: &[u8], at: usize, quote: u8) -> Option<usize>
    requires inside { at < length text.now }
    requires quote { slice_index text.now at ≡ quote }
    ensures after { IfSome result (λ end. at < end) }
    ensures text { IfSome result (λ end. IsBetweenQuotes quote (slice_range text.now at end)) }
{
    let mut from = at + 1;
    while from < text.len() {
        let count = memchr(quote, &text[from..])?;
        let end = from + count + 1;
        if end >= text.len() || text[end] != quote {
            return Some(end);
        }
        from = end + 1;
    }
    None
}

// The place behind the field at a place that is not empty.
#[inline(always)]
fn any_field_end(text: &[u8], at: usize, separator: u8, quote: u8) -> Option<usize>
    requires inside { at < length text.now }
    ensures after { IfSome result (λ end. at ≤ end) }
    ensures field { IfSome result (λ end. IsAnyField separator quote (slice_range text.now at end)) }
{
    if text[at] != quote {
        return plain_end(text, at, separator, quote);
    }
    if let Some(end) = short_quoted_end(text, at, quote) {
        return Some(end);
    }
    any_quoted_end(text, at, quote)
}

/// The place behind the mark that ends the field at a place, whatever the field holds.
#[inline(always)]
pub(crate) fn pass_field(
    text: &[u8],
    at: usize,
    mark: u8,
    separator: u8,
    quote: u8,
    marks: &mut Marks,
) -> Option<usize>
    requires inside { at ≤ length text.now }
    ensures { IfSome result (IsFieldPassed text.now at mark separator quote) }
{
    if at >= text.len() {
        return None;
    }
    let ahead = marks.next(text, separator);
    let end = any_field_end(text, at, separator, quote)?;
    if end >= text.len() || text[end] != mark {
        return None;
    }
    Some(marks.pass(ahead, text, end, separator))
}
