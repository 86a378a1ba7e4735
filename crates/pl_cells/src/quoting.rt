//! The text of a field: without its carriage return, between its quotes, and with doubled quotes undoubled.
ghost use Rattle.std.specs.Prelude.{◌≡◌, ◌<◌, ◌++◌, ◌∷◌, [], if◌then◌else◌, OnOk, OnErr, MatchOption, true, false, length, slice_get, Some};
ghost use Rattle.pl_cells.specs.Quoting.{strip, quote_of, is_well_quoted, inside, undouble};

use memchr::memchr;
use std::alloc::AllocError;

/// The field without one carriage return at its end.
#[inline]
pub fn without_return(field: &[u8]) -> &[u8]
    ensures { result.now ≡ strip field.now }
{
    match field {
        [front @ .., b'\r'] => front,
        _ => field,
    }
}

/// The quote, where the field begins with it.
#[inline]
pub fn quote_of(field: &[u8], quote_char: Option<u8>) -> Option<u8>
    ensures { result ≡ quote_of quote_char field.now }
{
    match (field, quote_char) {
        ([first, ..], Some(quote)) if *first == quote => Some(quote),
        _ => None,
    }
}

/// What stands between the quotes of a field that begins with one: none where it doesn't end with another.
#[inline]
pub fn between_quotes(field: &[u8], quote: u8) -> Option<&[u8]>
    ensures { MatchOption result (is_well_quoted quote field.now ≡ false) (λ between. (is_well_quoted quote field.now ≡ true) × (between.now ≡ inside field.now)) }
{
    match field {
        [_, between @ .., last] if *last == quote => Some(between),
        _ => None,
    }
}

// What a quote at the front leaves behind it, and whether it is one of two.
#[inline]
fn behind_quote(text: &[u8], quote: u8) -> (bool, &[u8])
    requires { slice_get text.now 0 ≡ Some quote }
    ensures pair { undouble quote text.now ≡ (if result.0 then quote ∷ [] else []) ++ undouble quote result.1.now }
    ensures shorter { length result.1.now < length text.now }
{
    match text {
        [_, second, behind @ ..] if *second == quote => (true, behind),
        [_, behind @ ..] => (false, behind),
        [] => unreachable!(),
    }
}

// Writes over `to` the text with each two adjacent quotes made one, from the left, and a lone quote dropped.
fn write_undoubled(to: &mut Vec<u8>, text: &[u8], quote: u8) -> Result<(), AllocError>
    ensures { OnOk result (to.new.items ≡ undouble quote text.now) }
{
    to.clear();
    let mut rest = text;
    while let Some(at) = memchr(quote, rest) {
        let (plain, quoted) = rest.split_at(at);
        to.extend_from_slice(plain)?;
        let (is_doubled, behind) = behind_quote(quoted, quote);
        if is_doubled {
            to.push(quote)?;
        }
        rest = behind;
    }
    to.extend_from_slice(rest)?;
    Ok(())
}

/// Writes over `to` the text with each two adjacent quotes made one, from the left, and a lone quote dropped. Refuses only
/// want of memory, and `to` is then empty.
pub fn undouble_into(to: &mut Vec<u8>, text: &[u8], quote: u8) -> Result<(), AllocError>
    ensures undoubled { OnOk result (to.new.items ≡ undouble quote text.now) }
    ensures refused { OnErr result (to.new.items ≡ []) }
{
    let written = write_undoubled(to, text, quote);
    if written.is_err() {
        to.clear();
    }
    written
}
