//! How many rows a text has.
ghost use Rattle.std.specs.Prelude.{◌≡◌, ◌↔◌, ℕ, None, Ok, Err, count_by};
ghost use Rattle.pl_frame.specs.Dialect.{marks, IsDialect};
ghost use Rattle.pl_frame.specs.declared.error.PolarsError.TheVariants as error;
ghost use Rattle.pl_frame.specs.declared.error.OpFault.TheVariants as op_fault;
ghost use Rattle.pl_scan.specs.Comment.{prefix_of};
ghost use Rattle.pl_scan.specs.Items.{items, item_text};
ghost use Rattle.pl_scan.specs.RowCount.{cut_line_ends, is_row, row_count};

use crate::comment::CommentPrefix;
use crate::dialect::dialect_ok;
use crate::items::{Item, Items};
use crate::row_counter::RowCounter;
use pl_frame::error::{OpFault, PolarsError, PolarsResult};

// What stands behind the line ends at the front.
fn behind_line_ends(input: &[u8], eol_char: u8) -> &[u8]
    ensures { result.now ≡ cut_line_ends eol_char input.now }
{
    let mut rest = input;
    while let [first, others @ ..] = rest {
        if *first != eol_char {
            return rest;
        }
        rest = others;
    }
    rest
}

// Whether the item is a record and, where there is a comment prefix, has bytes.
fn is_counted(item: Item<'_>, comment_prefix: Option<&CommentPrefix>) -> bool
    ensures { result ≡ is_row (prefix_of comment_prefix.entry) (item_text item.entry) }
{
    match item {
        Item::Record(text) => comment_prefix.is_none() || !text.is_empty(),
        Item::Comment(_) => false,
    }
}

// The number of rows, the header among them.
fn count_rows_of(
    bytes: &[u8],
    separator: u8,
    quote_char: Option<u8>,
    comment_prefix: Option<&CommentPrefix>,
    eol_char: u8,
) -> usize
    ensures { result ≡ count_by (is_row (prefix_of comment_prefix.entry)) (items (marks separator quote_char eol_char) (prefix_of comment_prefix.entry) bytes.now) }
{
    let mut number = 0;
    for item in Items::new(bytes, separator, quote_char, eol_char, comment_prefix) {
        if is_counted(item, comment_prefix) {
            number += 1;
        }
    }
    number
}

// The number of rows under a dialect without comments.
fn count_plain_rows(
    bytes: &[u8],
    separator: u8,
    quote_char: Option<u8>,
    eol_char: u8,
    has_header: bool,
) -> usize
    requires { IsDialect (marks separator quote_char eol_char) None }
    ensures { result ≡ row_count has_header (marks separator quote_char eol_char) None bytes.now }
{
    let mut counter = RowCounter::new(separator, quote_char, eol_char);
    counter.add(bytes);
    counter.rows(has_header)
}

// The number of rows, item by item.
fn count_rows_by_items(
    bytes: &[u8],
    separator: u8,
    quote_char: Option<u8>,
    comment_prefix: Option<&CommentPrefix>,
    eol_char: u8,
    has_header: bool,
) -> usize
    ensures { result ≡ row_count has_header (marks separator quote_char eol_char) (prefix_of comment_prefix.entry) bytes.now }
{
    let rest = behind_line_ends(bytes, eol_char);
    let rows = count_rows_of(rest, separator, quote_char, comment_prefix, eol_char);
    if has_header {
        rows.saturating_sub(1)
    } else {
        rows
    }
}

// The number of rows under a dialect, less one for a header.
fn count_rows_behind_header(
    bytes: &[u8],
    separator: u8,
    quote_char: Option<u8>,
    comment_prefix: Option<&CommentPrefix>,
    eol_char: u8,
    has_header: bool,
) -> usize
    requires { IsDialect (marks separator quote_char eol_char) (prefix_of comment_prefix) }
    ensures { result ≡ row_count has_header (marks separator quote_char eol_char) (prefix_of comment_prefix.entry) bytes.now }
{
    match comment_prefix {
        None => count_plain_rows(bytes, separator, quote_char, eol_char, has_header),
        Some(_) => count_rows_by_items(
            bytes,
            separator,
            quote_char,
            comment_prefix,
            eol_char,
            has_header,
        ),
    }
}

/// The number of rows of a text: its records behind leading line ends, where there is a comment prefix only those that
/// have bytes, less one for a header, never below zero. Refuses what is no dialect. Takes no memory.
pub fn count_rows_from_slice(
    bytes: &[u8],
    separator: u8,
    quote_char: Option<u8>,
    comment_prefix: Option<&CommentPrefix>,
    eol_char: u8,
    has_header: bool,
) -> PolarsResult<usize>
    ensures dialect { (result ≡ Err (error.InvalidOperation op_fault.Dialect))
        ↔ (¬ IsDialect (marks separator quote_char eol_char) (prefix_of comment_prefix.entry)) }
    ensures rows { (n : ℕ) → (result ≡ Ok n)
        ↔ (IsDialect (marks separator quote_char eol_char) (prefix_of comment_prefix.entry)
        × (row_count has_header (marks separator quote_char eol_char) (prefix_of comment_prefix.entry) bytes.now ≡ n)) }
{
    if !dialect_ok(separator, quote_char, eol_char, comment_prefix) {
        return Err(PolarsError::InvalidOperation(OpFault::Dialect));
    }
    Ok(count_rows_behind_header(
        bytes,
        separator,
        quote_char,
        comment_prefix,
        eol_char,
        has_header,
    ))
}
