//! The texts of fields in place: a field, or what stands between its quotes. No call takes memory.
ghost use Rattle.std.specs.Prelude.{◌≡◌, ◌≤◌, drop, length, true, IfSome, Some};
ghost use Rattle.std.specs.Str.{is_utf8};
ghost use Rattle.pl_cells.specs.Columns.{StandsFor, StandsForText};
ghost use Rattle.pl_cells.specs.Quoting.{undouble};
ghost use Rattle.pl_table.specs.Tables.{placed_text};

use crate::lacks::is_seen_without;
use crate::plain_at::plain_bytes;
use crate::quoting::quote_of;
use crate::text_types::text_in_place;
use pl_table::table::Placed;

// The bytes from a place to the end.
#[inline(always)]
fn from_place(upto: &[u8], start: usize) -> &[u8]
    requires { start ≤ length upto.now }
    ensures { result.now ≡ drop start upto.now }
{
    &upto[start..]
}

// What stands between the quotes of a text that begins and ends with one, which is no carriage return.
#[inline(always)]
fn between_quotes_at(upto: &[u8], start: usize, quote: u8) -> Option<Placed<'_>>
    ensures value { IfSome result (λ text. StandsFor (Some quote) (drop start upto.now) (placed_text text)) }
    ensures text { IfSome result (λ text. undouble quote (placed_text text) ≡ placed_text text → StandsForText (Some quote) (drop start upto.now) (placed_text text)) }
    ensures inside { IfSome result (λ text. text.start ≤ length text.upto.now) }
{
    if quote == b'\r' || upto.len() < 2 || start > upto.len() - 2 {
        return None;
    }
    let last = upto.len() - 1;
    if upto[start] == quote && upto[last] == quote {
        Some(Placed {
            upto: &upto[..last],
            start: start + 1,
        })
    } else {
        None
    }
}

/// The text whose value a field has, where that is soon seen: what stands between its quotes, or all of it.
#[inline(always)]
pub(crate) fn value_at(field: Placed<'_>, quote_char: Option<u8>) -> Option<Placed<'_>>
    ensures { IfSome result (λ text. StandsFor quote_char (placed_text field.entry) (placed_text text)) }
{
    if field.start >= field.upto.len() {
        return None;
    }
    let bytes = from_place(field.upto, field.start);
    match quote_of(bytes, quote_char) {
        Some(quote) => {
            let text = between_quotes_at(field.upto, field.start, quote)?;
            Some(text)
        }
        None => Some(field),
    }
}

// What stands between the quotes of a text that begins with one, where it holds none.
#[inline(always)]
fn bare_at(upto: &[u8], start: usize, quote: u8) -> Option<&[u8]>
    ensures { IfSome result (λ text. StandsForText (Some quote) (drop start upto.now) text.now) }
{
    let text = between_quotes_at(upto, start, quote)?;
    let bytes = from_place(text.upto, text.start);
    if is_seen_without(bytes, quote) {
        Some(bytes)
    } else {
        None
    }
}

// The text of a field, where that is soon seen: what stands between its quotes and holds none, or all of it.
#[inline(always)]
fn bytes_at<'a>(field: Placed<'a>, quote_char: Option<u8>) -> Option<&'a [u8]>
    ensures { IfSome result (λ text. StandsForText quote_char (placed_text field.entry) text.now) }
{
    if field.start >= field.upto.len() {
        return None;
    }
    let bytes = from_place(field.upto, field.start);
    match quote_of(bytes, quote_char) {
        Some(quote) => {
            let text = bare_at(field.upto, field.start, quote)?;
            Some(text)
        }
        None => {
            let text = plain_bytes(field.upto, field.start, quote_char)?;
            Some(text)
        }
    }
}

/// The same, where it is UTF-8.
#[inline(always)]
pub(crate) fn text_at<'a>(field: Placed<'a>, quote_char: Option<u8>) -> Option<&'a str>
    ensures text { IfSome result (λ text. StandsForText quote_char (placed_text field.entry) text.now) }
    ensures utf8 { IfSome result (λ text. is_utf8 text.now ≡ true) }
{
    let bytes = bytes_at(field, quote_char)?;
    let text = text_in_place(bytes)?;
    Some(text)
}
