//! Texts that lie in a buffer with others, put into a block from a place on. A short one goes there with what stands
//! behind it, by one copy of fixed size, of which only the first bytes count.
ghost use Rattle.std.specs.Prelude.{◌≡◌, ◌++◌, ◌≤◌, ◌+◌, ◌*◌, length, take, slice_range, IfSome, IfNone, if◌then◌else◌};
ghost use Rattle.pl_text.specs.FrameText.{doubled, needs_quotes, quoted, written_text};
ghost use Rattle.pl_write.specs.Options.{cell_options};

use crate::cell_form::CellForm;
use crate::options::SerializeOptions;
use crate::put_cells::put_text_in;
use crate::puts::{put_byte, put_byte_if, put_bytes};
use crate::special::{count_before_quote, count_before_special};
use pl_frame::texts::TextPart;

// Puts a short text with each quote doubled, byte by byte without a branch.
fn put_doubled_bytes(to: &mut [u8], start: usize, text: &[u8], quote: u8) -> usize
    requires room { start + (2 * length text.now + 1) ≤ length to.old }
    ensures text { take result to.new ≡ take start to.old ++ doubled quote text.now }
    ensures end { result ≤ start + 2 * length text.now }
{
    let mut at = start;
    for byte in text {
        let once = put_byte(to, at, *byte);
        at = put_byte_if(to, once, *byte, *byte == quote);
    }
    at
}

// Puts the first of 32 bytes, with each quote doubled.
#[inline(always)]
fn put_first_doubled(to: &mut [u8], at: usize, bytes: &[u8], count: usize, quote: u8) -> usize
    requires room { at + 65 ≤ length to.old }
    requires bytes { length bytes.now ≡ 32 }
    requires few { count ≤ 32 }
    ensures text { take result to.new ≡ take at to.old ++ doubled quote (take count bytes.now) }
    ensures end { result ≤ at + 64 }
{
    if count_before_quote(bytes, quote) < count {
        return put_doubled_bytes(to, at, &bytes[..count], quote);
    }
    put_bytes(to, at, bytes);
    at + count
}

// Puts the first of 32 bytes as a text between quotes, with each quote in it doubled.
#[inline(never)]
fn put_first_quoted(to: &mut [u8], at: usize, bytes: &[u8], count: usize, quote: u8) -> usize
    requires room { at + 66 ≤ length to.old }
    requires bytes { length bytes.now ≡ 32 }
    requires few { count ≤ 32 }
    ensures text { take result to.new ≡ take at to.old ++ quoted quote (take count bytes.now) }
    ensures end { result ≤ at + 66 }
{
    let opened = put_byte(to, at, quote);
    let behind = put_first_doubled(to, opened, bytes, count, quote);
    put_byte(to, behind, quote)
}

// Puts the first of 32 bytes as a text, quoted where it must be.
#[inline(always)]
fn put_first(
    to: &mut [u8],
    at: usize,
    bytes: &[u8],
    count: usize,
    separator: u8,
    quote: u8,
) -> usize
    requires room { at + 66 ≤ length to.old }
    requires bytes { length bytes.now ≡ 32 }
    requires few { count ≤ 32 }
    ensures text { take result to.new ≡ take at to.old ++ (if needs_quotes separator quote (take count bytes.now) then quoted quote (take count bytes.now) else take count bytes.now) }
    ensures end { result ≤ at + 66 }
{
    if count == 0 || count_before_special(bytes, separator, quote) < count {
        return put_first_quoted(to, at, bytes, count, quote);
    }
    put_bytes(to, at, bytes);
    at + count
}

/// Puts a text, quoted where it must be and where quotes are written only then. Nothing is put where there is no room.
#[inline(always)]
pub(crate) fn put_part(
    to: &mut [u8],
    at: usize,
    part: TextPart<'_>,
    options: &SerializeOptions,
) -> Option<usize>
    requires room { at + 66 ≤ length to.old }
    requires ordered { part.begin ≤ part.end }
    requires within { part.end ≤ length part.buffer.now }
    requires style { (cell_options options.now).style ≡ 0 }
    ensures text { IfSome result (λ end. take end to.new ≡ take at to.old ++ written_text (cell_options options.now) (slice_range part.entry.buffer.now part.entry.begin part.entry.end)) }
    ensures within { IfSome result (λ end. end ≤ length to.new) }
    ensures unchanged { IfNone result (to.new ≡ to.old) }
{
    let TextPart { buffer, begin, end } = part;
    let count = end - begin;
    if count <= 32 && buffer.len() - begin >= 32 {
        let bytes = &buffer[begin..begin + 32];
        return Some(put_first(to, at, bytes, count, options.separator, options.quote_char));
    }
    put_text_in(to, at, &buffer[begin..end], CellForm::AsNeeded, options)
}
