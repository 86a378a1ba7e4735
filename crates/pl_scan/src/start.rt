//! Where the data of a text begins.
ghost use Rattle.std.specs.Prelude.{◌≡◌, ◌↔◌, MatchOption, ℕ, nat_le, Some, None, Ok, Err};
ghost use Rattle.std.specs.Option.{option_copied};
ghost use Rattle.pl_frame.specs.Dialect.{marks, IsDialect};
ghost use Rattle.pl_frame.specs.declared.error.PolarsError.TheVariants as error;
ghost use Rattle.pl_frame.specs.declared.error.OpFault.TheVariants as op_fault;
ghost use Rattle.pl_frame.specs.declared.error.NoDataFault.TheVariants as no_data;
ghost use Rattle.pl_scan.specs.Comment.{prefix_of};
ghost use Rattle.pl_scan.specs.Start.{cut_mark, skip_line, skip_lines, cut_ends, cut_head, pass_items, pass_comments, pass_header, skips, data_left, SkipsTwice, CanStart, start};

use crate::comment::{CommentPrefix, is_comment_line};
use crate::dialect::dialect_ok;
use crate::items::{behind_line_end, first_item};
use memchr::memchr;
use pl_frame::error::{NoDataFault, OpFault, PolarsError, PolarsResult};

/// Cuts a byte order mark.
pub fn skip_bom(input: &[u8]) -> &[u8]
    ensures { result.now ≡ cut_mark input.now }
{
    match input {
        [0xEF, 0xBB, 0xBF, rest @ ..] => rest,
        _ => input,
    }
}

// What stands behind the first line end, where a byte does.
fn behind_line(input: &[u8], eol_char: u8) -> Option<&[u8]>
    ensures { MatchOption result (skip_line eol_char input.now ≡ input.now) (λ rest. rest.now ≡ skip_line eol_char input.now) }
{
    match memchr(eol_char, input) {
        Some(at) if at + 1 < input.len() => Some(&input[at + 1..]),
        _ => None,
    }
}

/// Cuts up to `skip` times through the first line end, each time only where a byte follows it.
pub fn skip_lines_naive(input: &[u8], eol_char: u8, skip: usize) -> &[u8]
    ensures { result.now ≡ skip_lines eol_char skip input.now }
{
    let mut rest = input;
    for _turn in 0..skip {
        match behind_line(rest, eol_char) {
            Some(next) => rest = next,
            None => return rest,
        }
    }
    rest
}

/// What stands behind the line ends and carriage returns at the front.
pub fn without_ends(input: &[u8], eol_char: u8) -> &[u8]
    ensures { result.now ≡ cut_ends eol_char input.now }
{
    let mut rest = input;
    while let [first, others @ ..] = rest {
        if *first != eol_char && *first != b'\r' {
            return rest;
        }
        rest = others;
    }
    rest
}

/// What stands behind `count` items at the front, each with its line end. None where there are fewer.
pub fn behind_items<'a>(
    input: &'a [u8],
    separator: u8,
    quote_char: Option<u8>,
    eol_char: u8,
    comment_prefix: Option<&CommentPrefix>,
    count: usize,
) -> Option<&'a [u8]>
    ensures { option_copied result ≡ pass_items (marks separator quote_char eol_char) (prefix_of comment_prefix.entry) count input.now }
{
    let mut rest = input;
    for _turn in 0..count {
        if rest.is_empty() {
            return None;
        }
        let (_, len) = first_item(rest, separator, quote_char, eol_char, comment_prefix);
        rest = behind_line_end(rest, len);
    }
    Some(rest)
}

/// What stands behind the comments at the front, each with its line end.
pub fn behind_comments<'a>(
    input: &'a [u8],
    separator: u8,
    quote_char: Option<u8>,
    eol_char: u8,
    comment_prefix: Option<&CommentPrefix>,
) -> &'a [u8]
    ensures { result.now ≡ pass_comments (marks separator quote_char eol_char) (prefix_of comment_prefix.entry) input.now }
{
    let mut rest = input;
    while !rest.is_empty() && is_comment_line(rest, comment_prefix) {
        let (_, len) = first_item(rest, separator, quote_char, eol_char, comment_prefix);
        rest = behind_line_end(rest, len);
    }
    rest
}

// What is left behind the head: skipped lines, or else a byte order mark, and then, unless they are kept, line ends.
fn behind_head(input: &[u8], eol_char: u8, lines: usize, keep_ends: bool) -> &[u8]
    ensures { result.now ≡ cut_head lines keep_ends eol_char input.now }
{
    let text = if lines == 0 {
        skip_bom(input)
    } else {
        skip_lines_naive(input, eol_char, lines)
    };
    if keep_ends {
        text
    } else {
        without_ends(text, eol_char)
    }
}

/// What stands behind the header with its line end, where `has_header` says that the first item is one.
pub fn behind_header<'a>(
    input: &'a [u8],
    separator: u8,
    quote_char: Option<u8>,
    eol_char: u8,
    comment_prefix: Option<&CommentPrefix>,
    has_header: bool,
) -> &'a [u8]
    ensures { result.now ≡ pass_header has_header (marks separator quote_char eol_char) (prefix_of comment_prefix.entry) input.now }
{
    if has_header && !input.is_empty() {
        let (_, len) = first_item(input, separator, quote_char, eol_char, comment_prefix);
        behind_line_end(input, len)
    } else {
        input
    }
}

/// The data: what is left behind the head, the rows to skip, the comments, the header and the rows to skip behind it.
/// None where there are fewer items than are to be skipped. Takes no memory.
pub fn data_of<'a>(
    input: &'a [u8],
    separator: u8,
    quote_char: Option<u8>,
    eol_char: u8,
    keep_ends: bool,
    lines: usize,
    rows: usize,
    after_header: usize,
    comment_prefix: Option<&CommentPrefix>,
    has_header: bool,
) -> Option<&'a [u8]>
    ensures { option_copied result ≡ data_left (skips lines rows has_header after_header) keep_ends (marks separator quote_char eol_char) (prefix_of comment_prefix.entry) input.now }
{
    let text = behind_head(input, eol_char, lines, keep_ends);
    let rest = behind_items(text, separator, quote_char, eol_char, comment_prefix, rows)?;
    let body = behind_comments(rest, separator, quote_char, eol_char, comment_prefix);
    let data = behind_header(
        body,
        separator,
        quote_char,
        eol_char,
        comment_prefix,
        has_header,
    );
    behind_items(
        data,
        separator,
        quote_char,
        eol_char,
        comment_prefix,
        after_header,
    )
}

/// The place where the data begins: behind the head, with leading line ends kept exactly where `schema_len <= 1`, the
/// rows to skip, the comments, the header and the rows to skip behind it. Refuses what is no dialect, then lines and
/// rows to skip that are both set, then fewer items than are to be skipped. Takes no memory.
pub fn find_starting_point(
    bytes: &[u8],
    separator: u8,
    quote_char: Option<u8>,
    eol_char: u8,
    schema_len: usize,
    skip_lines: usize,
    skip_rows_before_header: usize,
    skip_rows_after_header: usize,
    comment_prefix: Option<&CommentPrefix>,
    has_header: bool,
) -> PolarsResult<usize>
    ensures dialect { (result ≡ Err (error.InvalidOperation op_fault.Dialect))
        ↔ (¬ IsDialect (marks separator quote_char eol_char) (prefix_of comment_prefix.entry)) }
    ensures option { (result ≡ Err (error.InvalidOperation op_fault.Option))
        ↔ (IsDialect (marks separator quote_char eol_char) (prefix_of comment_prefix.entry)
        × SkipsTwice (skips skip_lines skip_rows_before_header has_header skip_rows_after_header)) }
    ensures skip { (result ≡ Err (error.NoData no_data.Skip))
        ↔ (let m = marks separator quote_char eol_char in
        let o = skips skip_lines skip_rows_before_header has_header skip_rows_after_header in
        CanStart o m (prefix_of comment_prefix.entry)
        × (start o (nat_le schema_len 1) m (prefix_of comment_prefix.entry) bytes.now ≡ None)) }
    ensures place { (n : ℕ) → (result ≡ Ok n)
        ↔ (let m = marks separator quote_char eol_char in
        let o = skips skip_lines skip_rows_before_header has_header skip_rows_after_header in
        CanStart o m (prefix_of comment_prefix.entry)
        × (start o (nat_le schema_len 1) m (prefix_of comment_prefix.entry) bytes.now ≡ Some n)) }
{
    if !dialect_ok(separator, quote_char, eol_char, comment_prefix) {
        return Err(PolarsError::InvalidOperation(OpFault::Dialect));
    }
    if skip_lines > 0 && skip_rows_before_header > 0 {
        return Err(PolarsError::InvalidOperation(OpFault::Option));
    }
    let left = data_of(
        bytes,
        separator,
        quote_char,
        eol_char,
        schema_len <= 1,
        skip_lines,
        skip_rows_before_header,
        skip_rows_after_header,
        comment_prefix,
        has_header,
    );
    match left {
        Some(left) => Ok(bytes.len() - left.len()),
        None => Err(PolarsError::NoData(NoDataFault::Skip)),
    }
}
