//! The items of a text.
ghost use Rattle.std.specs.Prelude.{◌≡◌, ◌≤◌, ◌+◌, ◌<◌, List, length, drop, Option};
ghost use Rattle.pl_scan.specs.Items.{item, items, ItemText, text_of, item_text};
ghost use Rattle.std.specs.Iterator.{YieldsFirstBy, item_count};
ghost use Rattle.pl_frame.specs.Dialect.{marks};
ghost use Rattle.pl_scan.specs.Comment.{prefix_of};
ghost use Rattle.pl_scan.specs.Fields.{extent};

use crate::comment::{CommentPrefix, is_comment_line};
use crate::fields::field_len;
use memchr::memchr;
use std::marker::Model;

/// A comment or a record, without its line end.
#[derive(Clone, Copy, Debug, PartialEq, Eq)]
pub enum Item<'a> {
    Comment(&'a [u8]),
    Record(&'a [u8]),
}

/// The number of bytes of the record at the front.
pub fn record_len(slice: &[u8], separator: u8, quote_char: Option<u8>, eol_char: u8) -> usize
    ensures fits { result ≤ length slice.now }
    ensures value { result ≡ extent (marks separator quote_char eol_char) slice.now }
{
    let mut at = 0;
    loop {
        at += field_len(&slice[at..], separator, quote_char, eol_char);
        if at < slice.len() && slice[at] == separator {
            at += 1;
        } else {
            return at;
        }
    }
}

// The first item of a slice that is not empty, and how many bytes it has.
pub(crate) fn first_item<'a>(
    slice: &'a [u8],
    separator: u8,
    quote_char: Option<u8>,
    eol_char: u8,
    comment_prefix: Option<&CommentPrefix>,
) -> (Item<'a>, usize)
    ensures fits { result.1 ≤ length slice.now }
    ensures item { item_text result.0 ≡ item (marks separator quote_char eol_char) (prefix_of comment_prefix.entry) slice.now }
    ensures len { result.1 ≡ length (text_of (item_text result.0)) }
{
    if is_comment_line(slice, comment_prefix) {
        let len = match memchr(eol_char, slice) {
            Some(at) => at,
            None => slice.len(),
        };
        (Item::Comment(&slice[..len]), len)
    } else {
        let len = record_len(slice, separator, quote_char, eol_char);
        (Item::Record(&slice[..len]), len)
    }
}

// What stands behind the byte at a place.
pub(crate) fn behind_line_end(slice: &[u8], len: usize) -> &[u8]
    requires { len ≤ length slice.now }
    ensures { result.now ≡ drop (len + 1) slice.now }
{
    match &slice[len..] {
        [_, rest @ ..] => rest,
        [] => &[],
    }
}

/// The items of a slice, without their line ends.
#[derive(Drop)]
pub struct Items<'a> {
    rest: &'a [u8],
    separator: u8,
    quote_char: Option<u8>,
    eol_char: u8,
    comment_prefix: Option<&'a CommentPrefix>,
}

impl<'a> Model for Items<'a> {
    ghost Value = { List ItemText };

    ghost view = { λ it. items (marks it.separator it.quote_char it.eol_char) (prefix_of it.comment_prefix) it.rest.now };
}

impl<'a> Items<'a> {
    /// The items of `bytes`.
    pub fn new(
        bytes: &'a [u8],
        separator: u8,
        quote_char: Option<u8>,
        eol_char: u8,
        comment_prefix: Option<&'a CommentPrefix>,
    ) -> Self
        ensures value { result ≡ items (marks separator quote_char eol_char) (prefix_of comment_prefix.entry) bytes.now }
        ensures len { length result ≤ length bytes.now }
    {
        Items {
            rest: bytes,
            separator,
            quote_char,
            eol_char,
            comment_prefix,
        }
    }
}

impl<'a> Iterator for Items<'a> {
    type Item = Item<'a>;

    ghost next_gives = { YieldsFirstBy item_text (λ rest. rest) };

    ghost remaining = { item_count (λ rest. rest) };

    fn next(&mut self) -> Option<Item<'a>> {
        if self.rest.is_empty() {
            return None;
        }
        let (item, len) = first_item(
            self.rest,
            self.separator,
            self.quote_char,
            self.eol_char,
            self.comment_prefix,
        );
        self.rest = behind_line_end(self.rest, len);
        Some(item)
    }
}
