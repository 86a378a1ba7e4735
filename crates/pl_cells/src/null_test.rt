//! The null test of a field.
ghost use Rattle.std.specs.Prelude.{◌≡◌, ◌&&◌, not, suc};
ghost use Rattle.std.specs.Option.{option_copied};
ghost use Rattle.pl_cells.specs.Cells.{is_missing};
ghost use Rattle.pl_cells.specs.Columns.{is_null_by};
ghost use Rattle.pl_cells.specs.NullTest.{null_test};
ghost use Rattle.pl_cells.specs.Quoting.{quote_of, strip};
ghost use Rattle.pl_cells.specs.NullValues.{HasColumns, HaveTexts, is_null_text, means_null};

use crate::null_values::NullValuesCompiled;
use crate::quoting::{between_quotes, quote_of, without_return};

/// Whether a field without its carriage return means null in a column, given the quote that it begins with. It is compared as it
/// stands, with its quotes; one that is not well quoted does not mean null.
pub fn is_null_in(
    null_values: &NullValuesCompiled,
    text: &[u8],
    column: usize,
    quote: Option<u8>,
) -> bool
    requires { HasColumns null_values.now (suc column) }
    ensures { result ≡ null_test (is_null_text null_values.now column) quote text.now }
{
    match quote {
        None => null_values.is_null(text, column),
        Some(quote) => {
            null_values.is_null(text, column) && between_quotes(text, quote).is_some()
        }
    }
}

/// The same, where there may be no texts that mean null.
#[inline]
pub fn is_null(
    null_values: Option<&NullValuesCompiled>,
    text: &[u8],
    column: usize,
    quote: Option<u8>,
) -> bool
    requires { HaveTexts null_values (suc column) }
    ensures { result ≡ null_test (means_null (option_copied null_values.entry) column) quote text.now }
{
    match null_values {
        Some(null_values) => is_null_in(null_values, text, column, quote),
        None => false,
    }
}

// Whether a field without its carriage return is plain and empty, given the quote that it begins with.
#[inline]
fn is_missing(text: &[u8], quote: Option<u8>) -> bool
    ensures { result ≡ is_missing quote text.now }
{
    quote.is_none() && text.is_empty()
}

/// Whether a field without its carriage return means null and is not missing, given the quote that it begins with.
#[inline]
pub(crate) fn is_null_cell(
    null_values: Option<&NullValuesCompiled>,
    text: &[u8],
    column: usize,
    quote: Option<u8>,
) -> bool
    requires { HaveTexts null_values (suc column) }
    ensures { result ≡ (null_test (means_null (option_copied null_values.entry) column) quote text.now && not (is_missing quote text.now)) }
{
    is_null(null_values, text, column, quote) && !is_missing(text, quote)
}

// The same of a whole field, given the quote of the input and texts that mean null.
#[inline(never)]
fn is_null_among(
    null_values: &NullValuesCompiled,
    field: &[u8],
    column: usize,
    quote_char: Option<u8>,
) -> bool
    requires { HasColumns null_values.now (suc column) }
    ensures { result ≡ is_null_by (is_null_text null_values.now column) (quote_of quote_char field.now) (strip field.now) }
{
    let quote = quote_of(field, quote_char);
    let text = without_return(field);
    is_null_in(null_values, text, column, quote) && !is_missing(text, quote)
}

/// The same, where there may be no such texts.
#[inline(always)]
pub(crate) fn is_null_field(
    null_values: Option<&NullValuesCompiled>,
    field: &[u8],
    column: usize,
    quote_char: Option<u8>,
) -> bool
    requires { HaveTexts null_values (suc column) }
    ensures { result ≡ is_null_by (means_null (option_copied null_values.entry) column) (quote_of quote_char field.now) (strip field.now) }
{
    match null_values {
        Some(null_values) => is_null_among(null_values, field, column, quote_char),
        None => false,
    }
}
