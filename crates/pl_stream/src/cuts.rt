//! Where the items at the front of a text seem to end.
ghost use Rattle.std.specs.Prelude.{◌≤◌, length};
ghost use Rattle.pl_frame.specs.Dialect.{IsDialect};
ghost use Rattle.pl_scan.specs.Dialect.{marks_of, comment_of};

use memchr::memrchr;
use pl_intake::cuts::{find_row, state_behind};
use pl_scan::dialect::Dialect;
use pl_scan::summary::LineState;

// How far before the end of a text rows are looked for.
const NEAR: usize = 1 << 14;

// The place behind the last line end, where there is one.
fn behind_line(text: &[u8], eol_char: u8) -> usize
    ensures { result ≤ length text.now }
{
    match memrchr(eol_char, text) {
        Some(at) => at + 1,
        None => 0,
    }
}

// Whether a text that begins where an item does ends where one does.
fn ends_item(text: &[u8], dialect: &Dialect<'_>) -> bool
    requires { IsDialect (marks_of dialect.now) (comment_of dialect.now) }
{
    matches!(
        state_behind(text, LineState::Start, dialect),
        Some(LineState::Start)
    )
}

/// Where the last item ends whose line end came, of a text that begins where an item does: behind the last line end, or else behind the last in
/// front of the last quote, or else not told.
pub(crate) fn last_end(text: &[u8], dialect: &Dialect<'_>) -> usize
    requires { IsDialect (marks_of dialect.now) (comment_of dialect.now) }
    ensures { result ≤ length text.now }
{
    let all = behind_line(text, dialect.eol_char);
    if ends_item(&text[..all], dialect) {
        return all;
    }
    let quote = match dialect.quote_char {
        Some(quote) => memrchr(quote, &text[..all]).unwrap_or(0),
        None => 0,
    };
    let front = behind_line(&text[..quote], dialect.eol_char);
    if ends_item(&text[..front], dialect) {
        return front;
    }
    0
}

/// Where that seems to be: near the end rows are looked for, and the last end behind the first of them.
pub(crate) fn guess_end(text: &[u8], dialect: &Dialect<'_>, width: usize) -> usize
    requires { IsDialect (marks_of dialect.now) (comment_of dialect.now) }
    ensures { result ≤ length text.now }
{
    let near = NEAR.min(text.len() / 2);
    let from = text.len() - near;
    if from == text.len() {
        return 0;
    }
    let row = find_row(text, from, near, dialect, width).unwrap_or(0);
    row + last_end(&text[row..], dialect)
}
