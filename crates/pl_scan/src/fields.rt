//! The fields of a record.
ghost use Rattle.std.specs.Prelude.{◌≡◌, ◌≤◌, ◌+◌, ℕ, Bool, List, length, Option, Some, None};
ghost use Rattle.std.specs.Iterator.{YieldsFirstBy, item_count};
ghost use Rattle.std.specs.Option.{option_copied};
ghost use Rattle.pl_frame.specs.Dialect.{marks, AreDistinct};
ghost use Rattle.pl_scan.specs.Fields.{is_quote, begins_quoted, cut_quoted, cut_plain, cut_field, cut_at, marked_fields, behind, fields_left, field_text};

use memchr::memchr2;
use std::marker::Model;

/// Whether the byte is the quote.
#[inline(always)]
pub fn is_the_quote(quote_char: Option<u8>, byte: u8) -> bool
    ensures { result ≡ is_quote quote_char byte }
{
    match quote_char {
        Some(quote) => byte == quote,
        None => false,
    }
}

// The length of the quoted field at the front.
fn quoted_len(slice: &[u8], separator: u8, quote: u8, eol_char: u8) -> usize
    ensures fits { result ≤ length slice.now }
    ensures cut { cut_quoted (marks separator (Some quote) eol_char) slice.now ≡ cut_at result slice.now }
{
    let mut even = true;
    for (i, &x) in slice.iter().enumerate() {
        if even && (x == separator || x == eol_char) {
            return i;
        }
        if x == quote {
            even = !even;
        }
    }
    slice.len()
}

// The length of the field at the front that is not quoted.
fn plain_len(slice: &[u8], separator: u8, eol_char: u8) -> usize
    ensures fits { result ≤ length slice.now }
    ensures cut { cut_plain (marks separator None eol_char) slice.now ≡ cut_at result slice.now }
{
    match memchr2(separator, eol_char, slice) {
        Some(at) => at,
        None => slice.len(),
    }
}

// Whether the first byte is the quote.
fn begins_with(slice: &[u8], quote_char: Option<u8>) -> bool
    ensures { result ≡ begins_quoted quote_char slice.now }
{
    match (slice, quote_char) {
        ([first, ..], Some(quote)) => *first == quote,
        _ => false,
    }
}

/// The length of the field at the front.
pub fn field_len(slice: &[u8], separator: u8, quote_char: Option<u8>, eol_char: u8) -> usize
    ensures fits { result ≤ length slice.now }
    ensures cut { cut_field (marks separator quote_char eol_char) slice.now ≡ cut_at result slice.now }
{
    match quote_char {
        Some(quote) if begins_with(slice, quote_char) => {
            quoted_len(slice, separator, quote, eol_char)
        }
        _ => plain_len(slice, separator, eol_char),
    }
}

// What stands behind a separator at the front.
fn behind_separator(rest: &[u8], separator: u8) -> Option<&[u8]>
    ensures { option_copied result ≡ behind separator rest.now }
{
    match rest {
        [first, others @ ..] if *first == separator => Some(others),
        _ => None,
    }
}

/// The fields of the first record of a slice, each with whether it begins with the quote.
#[derive(Drop)]
pub struct SplitFields<'a> {
    // What stands behind the last separator, if the record has more fields.
    rest: Option<&'a [u8]>,
    separator: u8,
    quote_char: Option<u8>,
    eol_char: u8,
}

impl<'a> Model for SplitFields<'a> {
    ghost Value = { List (List ℕ × Bool) };

    ghost view = { λ it. fields_left (marks it.separator it.quote_char it.eol_char) (option_copied it.rest) };

    ghost invariant = { λ it. AreDistinct (marks it.separator it.quote_char it.eol_char) };
}

impl<'a> SplitFields<'a> {
    /// The fields of the first record of `slice`.
    pub fn new(slice: &'a [u8], separator: u8, quote_char: Option<u8>, eol_char: u8) -> Self
        requires { AreDistinct (marks separator quote_char eol_char) }
        ensures value { result ≡ marked_fields (marks separator quote_char eol_char) slice.now }
        ensures len { length result ≤ length slice.now + 1 }
    {
        SplitFields {
            rest: Some(slice),
            separator,
            quote_char,
            eol_char,
        }
    }
}

impl<'a> Iterator for SplitFields<'a> {
    type Item = (&'a [u8], bool);

    ghost next_gives = { YieldsFirstBy field_text (λ rest. rest) };

    ghost remaining = { item_count (λ rest. rest) };

    fn next(&mut self) -> Option<(&'a [u8], bool)> {
        let slice = self.rest?;
        let quoted = begins_with(slice, self.quote_char);
        let len = field_len(slice, self.separator, self.quote_char, self.eol_char);
        self.rest = behind_separator(&slice[len..], self.separator);
        Some((&slice[..len], quoted))
    }
}
