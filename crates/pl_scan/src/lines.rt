//! Lines, cut by quote parity alone.
ghost use Rattle.std.specs.Prelude.{◌≡◌, ◌≤◌, ℕ, List, length, take, None};
ghost use Rattle.std.specs.Iterator.{YieldsFirstBy, item_count};
ghost use Rattle.pl_scan.specs.Comment.{prefix_of};
ghost use Rattle.pl_scan.specs.Lines.{line, lines, line_text};

use crate::comment::{CommentPrefix, is_comment_line};
use crate::fields::is_the_quote;
use crate::items::behind_line_end;
use memchr::memchr;
use std::marker::Model;

// The length of the line at the front that is no comment.
fn even_len(slice: &[u8], quote_char: Option<u8>, eol_char: u8) -> usize
    ensures fits { result ≤ length slice.now }
    ensures line { take result slice.now ≡ line quote_char eol_char None slice.now }
{
    let mut even = true;
    for (i, &x) in slice.iter().enumerate() {
        if is_the_quote(quote_char, x) {
            even = !even;
        } else if even && x == eol_char {
            return i;
        }
    }
    slice.len()
}

// The length of the first line of a slice that is not empty.
fn line_len(
    slice: &[u8],
    quote_char: Option<u8>,
    eol_char: u8,
    comment_prefix: Option<&CommentPrefix>,
) -> usize
    ensures fits { result ≤ length slice.now }
    ensures line { take result slice.now ≡ line quote_char eol_char (prefix_of comment_prefix.entry) slice.now }
{
    if is_comment_line(slice, comment_prefix) {
        match memchr(eol_char, slice) {
            Some(at) => at,
            None => slice.len(),
        }
    } else {
        even_len(slice, quote_char, eol_char)
    }
}

/// The lines of a slice, without their line ends. Every quote toggles, and a line ends before the first line end behind
/// an even number of quotes; a line that begins with the comment prefix ends before the first line end.
#[derive(Drop)]
pub struct SplitLines<'a> {
    rest: &'a [u8],
    quote_char: Option<u8>,
    eol_char: u8,
    comment_prefix: Option<&'a CommentPrefix>,
}

impl<'a> Model for SplitLines<'a> {
    ghost Value = { List (List ℕ) };

    ghost view = { λ it. lines it.quote_char it.eol_char (prefix_of it.comment_prefix) it.rest.now };
}

impl<'a> SplitLines<'a> {
    /// The lines of `slice`.
    pub fn new(
        slice: &'a [u8],
        quote_char: Option<u8>,
        eol_char: u8,
        comment_prefix: Option<&'a CommentPrefix>,
    ) -> Self
        ensures value { result ≡ lines quote_char eol_char (prefix_of comment_prefix.entry) slice.now }
        ensures len { length result ≤ length slice.now }
    {
        SplitLines {
            rest: slice,
            quote_char,
            eol_char,
            comment_prefix,
        }
    }
}

impl<'a> Iterator for SplitLines<'a> {
    type Item = &'a [u8];

    ghost next_gives = { YieldsFirstBy line_text (λ rest. rest) };

    ghost remaining = { item_count (λ rest. rest) };

    fn next(&mut self) -> Option<&'a [u8]> {
        if self.rest.is_empty() {
            return None;
        }
        let len = line_len(
            self.rest,
            self.quote_char,
            self.eol_char,
            self.comment_prefix,
        );
        let line = &self.rest[..len];
        self.rest = behind_line_end(self.rest, len);
        Some(line)
    }
}
