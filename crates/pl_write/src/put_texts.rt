//! Texts and nulls, put into a block from a place on.
ghost use Rattle.std.specs.Prelude.{◌≡◌, ◌++◌, ◌∷◌, [], ◌<◌, ◌≤◌, ◌+◌, ◌*◌, false, length, take, IfSome, IfNone, if◌then◌else◌};
ghost use Rattle.std.specs.List.{list_any};
ghost use Rattle.pl_text.specs.FrameText.{is_special, needs_quotes, doubled, quoted, quoted_null, written_null};
ghost use Rattle.pl_write.specs.Options.{cell_options};

use crate::options::{QuoteStyle, SerializeOptions};
use crate::puts::{put_byte, put_bytes};
use crate::special::{any_special, is_clear_4_to_8, is_clear_8_to_16, is_clear_long};
use crate::texts::is_quoting_needed;
use memchr::memchr;

// Puts the first and the last bytes of a text, so many each. They cover it.
#[inline(always)]
fn put_ends(to: &mut [u8], at: usize, text: &[u8], count: usize) -> usize
    requires room { at + length text.now ≤ length to.old }
    requires long { count ≤ length text.now }
    requires short { length text.now ≤ 2 * count }
    ensures text { take result to.new ≡ take at to.old ++ text.now }
    ensures end { result ≡ at + length text.now }
{
    let behind = text.len() - count;
    put_bytes(to, at, &text[..count]);
    put_bytes(to, at + behind, &text[behind..])
}

// Puts a text of 16 bytes or more.
#[inline(always)]
fn put_long(to: &mut [u8], at: usize, text: &[u8]) -> usize
    requires room { at + length text.now ≤ length to.old }
    requires long { 16 ≤ length text.now }
    ensures text { take result to.new ≡ take at to.old ++ text.now }
    ensures end { result ≡ at + length text.now }
{
    if text.len() <= 32 {
        put_ends(to, at, text, 16)
    } else {
        put_bytes(to, at, text)
    }
}

// Puts a text of fewer than four bytes.
#[inline(always)]
fn put_few(to: &mut [u8], at: usize, text: &[u8]) -> usize
    requires room { at + length text.now ≤ length to.old }
    requires some { 1 ≤ length text.now }
    requires few { length text.now < 4 }
    ensures text { take result to.new ≡ take at to.old ++ text.now }
    ensures end { result ≡ at + length text.now }
{
    if text.len() >= 2 {
        put_ends(to, at, text, 2)
    } else {
        put_ends(to, at, text, 1)
    }
}

/// Puts a text that needs no quotes. Of another text nothing is put.
#[inline(always)]
fn put_clear(to: &mut [u8], at: usize, text: &[u8], separator: u8, quote: u8) -> Option<usize>
    requires room { at + length text.now ≤ length to.old }
    ensures text { IfSome result (λ end. take end to.new ≡ take at to.old ++ text.now) }
    ensures clear { IfSome result (λ end. needs_quotes separator quote text.now ≡ false) }
    ensures within { IfSome result (λ end. end ≤ at + length text.now) }
    ensures unchanged { IfNone result (to.new ≡ to.old) }
{
    if text.len() >= 16 {
        if !is_clear_long(text, separator, quote) {
            return None;
        }
        Some(put_long(to, at, text))
    } else if text.len() >= 8 {
        if !is_clear_8_to_16(text, separator, quote) {
            return None;
        }
        Some(put_ends(to, at, text, 8))
    } else if text.len() >= 4 {
        if !is_clear_4_to_8(text, separator, quote) {
            return None;
        }
        Some(put_ends(to, at, text, 4))
    } else {
        if text.is_empty() || any_special(text, separator, quote) {
            return None;
        }
        Some(put_few(to, at, text))
    }
}

// Puts a text with each quote doubled.
fn put_doubled(to: &mut [u8], start: usize, text: &[u8], quote: u8) -> usize
    requires room { start + 2 * length text.now ≤ length to.old }
    ensures text { take result to.new ≡ take start to.old ++ doubled quote text.now }
    ensures end { result ≤ start + 2 * length text.now }
{
    let mut at = start;
    let mut rest = text;
    while let Some(place) = memchr(quote, rest) {
        let (front, behind) = rest.split_at(place);
        at = put_bytes(to, at, front);
        at = put_byte(to, at, quote);
        at = put_byte(to, at, quote);
        rest = &behind[1..];
    }
    put_bytes(to, at, rest)
}

/// Puts a text between quotes, with each quote in it doubled.
pub(crate) fn put_quoted(to: &mut [u8], at: usize, text: &[u8], quote: u8) -> usize
    requires room { at + (2 * length text.now + 2) ≤ length to.old }
    ensures text { take result to.new ≡ take at to.old ++ quoted quote text.now }
    ensures end { result ≤ at + (2 * length text.now + 2) }
{
    let opened = put_byte(to, at, quote);
    let behind = put_doubled(to, opened, text, quote);
    put_byte(to, behind, quote)
}

// The same as `put_as_needed`, for a text that probably needs quotes.
fn put_exactly(to: &mut [u8], at: usize, text: &[u8], separator: u8, quote: u8) -> usize
    requires room { at + (2 * length text.now + 2) ≤ length to.old }
    ensures text { take result to.new ≡ take at to.old ++ (if needs_quotes separator quote text.now then quoted quote text.now else text.now) }
    ensures end { result ≤ at + (2 * length text.now + 2) }
{
    if is_quoting_needed(text, separator, quote) {
        put_quoted(to, at, text, quote)
    } else {
        put_bytes(to, at, text)
    }
}

/// Puts a text, quoted where it is empty or holds the separator, a line feed, a carriage return or the quote.
#[inline(always)]
pub(crate) fn put_as_needed(
    to: &mut [u8],
    at: usize,
    text: &[u8],
    separator: u8,
    quote: u8,
) -> usize
    requires room { at + (2 * length text.now + 2) ≤ length to.old }
    ensures text { take result to.new ≡ take at to.old ++ (if needs_quotes separator quote text.now then quoted quote text.now else text.now) }
    ensures end { result ≤ at + (2 * length text.now + 2) }
{
    match put_clear(to, at, text, separator, quote) {
        Some(end) => end,
        None => put_exactly(to, at, text, separator, quote),
    }
}

// Puts the null text between quotes, which is never doubled.
fn put_quoted_null(to: &mut [u8], at: usize, null: &[u8], quote: u8) -> usize
    requires room { at + (length null.now + 2) ≤ length to.old }
    ensures text { take result to.new ≡ take at to.old ++ quoted_null quote null.now }
    ensures end { result ≡ at + (length null.now + 2) }
{
    let opened = put_byte(to, at, quote);
    let behind = put_bytes(to, opened, null);
    put_byte(to, behind, quote)
}

/// Puts what stands for a null. Nothing is put where there is no room.
#[inline]
pub(crate) fn put_null(to: &mut [u8], at: usize, options: &SerializeOptions) -> Option<usize>
    requires room { at + 2 ≤ length to.old }
    ensures text { IfSome result (λ end. take end to.new ≡ take at to.old ++ written_null (cell_options options.now)) }
    ensures within { IfSome result (λ end. end ≤ length to.new) }
    ensures unchanged { IfNone result (to.new ≡ to.old) }
{
    let null = options.null.as_str().as_bytes();
    if null.len() > to.len() - at - 2 {
        return None;
    }
    match options.quote_style {
        QuoteStyle::Always => Some(put_quoted_null(to, at, null, options.quote_char)),
        QuoteStyle::Necessary => Some(put_bytes(to, at, null)),
        QuoteStyle::NonNumeric => Some(put_bytes(to, at, null)),
        QuoteStyle::Never => Some(put_bytes(to, at, null)),
    }
}
