//! Dialects: separator, quote or none, line end, comment prefix or none.
ghost use Rattle.std.specs.Prelude.{◌↔◌, IsTrue, IfSome};
ghost use Rattle.pl_frame.specs.Dialect.{marks, IsMark, AreDistinct, IsCommentPrefix, IsDialect};
ghost use Rattle.pl_scan.specs.Comment.{prefix_of};
ghost use Rattle.pl_scan.specs.Dialect.{marks_of, comment_of};

use crate::comment::CommentPrefix;

/// The bytes that cut a text into items and fields.
#[derive(Clone, Copy)]
pub struct Dialect<'a> {
    pub separator: u8,
    /// None where fields are not quoted.
    pub quote_char: Option<u8>,
    pub eol_char: u8,
    /// None where there are no comments.
    pub comment_prefix: Option<&'a CommentPrefix>,
}

impl<'a> Dialect<'a> {
    /// Whether these make a dialect, as `dialect_ok` tells.
    pub fn is_valid(&self) -> bool
        ensures { IsTrue result ↔ IsDialect (marks_of self.now) (comment_of self.now) }
    {
        dialect_ok(
            self.separator,
            self.quote_char,
            self.eol_char,
            self.comment_prefix,
        )
    }
}

// Whether the byte is ASCII and no carriage return.
fn is_mark(byte: u8) -> bool
    ensures { IsTrue result ↔ IsMark byte }
{
    byte.is_ascii() && byte != b'\r'
}

// Whether the quote, if there is one, is ASCII and no carriage return.
fn is_quote_ok(quote_char: Option<u8>) -> bool
    ensures { IsTrue result ↔ IfSome quote_char IsMark }
{
    match quote_char {
        Some(quote) => is_mark(quote),
        None => true,
    }
}

// Whether the marks differ from one another.
fn are_distinct(separator: u8, quote_char: Option<u8>, eol_char: u8) -> bool
    ensures { IsTrue result ↔ AreDistinct (marks separator quote_char eol_char) }
{
    match quote_char {
        Some(quote) => separator != eol_char && quote != separator && quote != eol_char,
        None => separator != eol_char,
    }
}

// Whether the comment prefix, if there is one, has bytes, but not the line end.
fn is_prefix_ok(eol_char: u8, comment_prefix: Option<&CommentPrefix>) -> bool
    ensures { IsTrue result ↔ IsCommentPrefix eol_char (prefix_of comment_prefix.entry) }
{
    match comment_prefix {
        Some(prefix) => prefix.is_valid_for(eol_char),
        None => true,
    }
}

/// Whether these make a dialect: the three bytes are ASCII and differ from one another, separator and quote are no
/// carriage returns, and a comment prefix has bytes, but not the line end.
pub fn dialect_ok(
    separator: u8,
    quote_char: Option<u8>,
    eol_char: u8,
    comment_prefix: Option<&CommentPrefix>,
) -> bool
    ensures { IsTrue result ↔ IsDialect (marks separator quote_char eol_char) (prefix_of comment_prefix.entry) }
{
    is_mark(separator)
        && eol_char.is_ascii()
        && is_quote_ok(quote_char)
        && are_distinct(separator, quote_char, eol_char)
        && is_prefix_ok(eol_char, comment_prefix)
}
