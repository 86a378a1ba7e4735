//! Texts that stand as they are written.
ghost use Rattle.std.specs.Prelude.{◌≡◌, ◌+◌, ◌<◌, ◌≤◌, ◌||◌, not, nat_le, length, slice_range, slice_index, IfSome};
ghost use Rattle.std.specs.List.{prefix_len};
ghost use Rattle.pl_text.specs.FrameText.{is_special};
ghost use Rattle.pl_verbatim.specs.CellTexts.{IsWrittenText, IsQuotedText, IsBareText};

use memchr::memchr;
use pl_cells::utf8::validate_utf8;
use pl_write::texts::is_quoting_needed;
use std::simd::prelude::*;

/// How many of 32 bytes stand before the first that only a quoted text may hold, or that is not ASCII.
#[inline(always)]
pub(crate) fn count_before_stop(bytes: &[u8], separator: u8, quote: u8) -> usize
    requires { length bytes.now ≡ 32 }
    ensures { result ≡ prefix_len (λ x. not (is_special separator quote x || nat_le 128 x)) bytes.now }
{
    let v = u8x32::from_slice(bytes);
    let stops = (v.simd_eq(u8x32::splat(separator))
        | v.simd_eq(u8x32::splat(b'\n'))
        | v.simd_eq(u8x32::splat(b'\r'))
        | v.simd_eq(u8x32::splat(quote))
        | v.simd_ge(u8x32::splat(128))).to_bitmask();
    if stops == 0 {
        32
    } else {
        stops.trailing_zeros() as usize
    }
}

// Whether only a quoted text may hold a byte.
#[inline(always)]
fn is_special_byte(byte: u8, separator: u8, quote: u8) -> bool
    ensures { result ≡ is_special separator quote byte }
{
    byte == separator || byte == b'\n' || byte == b'\r' || byte == quote
}

/// How many bytes stand before the first that only a quoted text may hold.
pub(crate) fn count_before_special(bytes: &[u8], separator: u8, quote: u8) -> usize
    ensures value { result ≡ prefix_len (λ x. not (is_special separator quote x)) bytes.now }
    ensures within { result ≤ length bytes.now }
{
    for (count, byte) in bytes.iter().enumerate() {
        if is_special_byte(*byte, separator, quote) {
            return count;
        }
    }
    bytes.len()
}

// The place behind the text at a place that is not quoted: any text, found byte by byte.
fn bare_end(text: &[u8], at: usize, separator: u8, quote: u8) -> Option<usize>
    requires { at ≤ length text.now }
    ensures after { IfSome result (λ end. at ≤ end) }
    ensures within { IfSome result (λ end. end ≤ length text.now) }
    ensures bare { IfSome result (λ end. IsBareText separator quote (slice_range text.now at end)) }
    ensures written { IfSome result (λ end. IsWrittenText separator quote (slice_range text.now at end)) }
{
    let count = count_before_special(&text[at..], separator, quote);
    if count > 0 && validate_utf8(&text[at..at + count]) {
        Some(at + count)
    } else {
        None
    }
}

/// The place behind the text between quotes that begins at a place, where it is short, ASCII, and holds no quote and no line end.
#[inline(always)]
pub(crate) fn short_quoted_end(text: &[u8], at: usize, quote: u8) -> Option<usize>
    requires inside { at < length text.now }
    requires quote { slice_index text.now at ≡ quote }
    ensures after { IfSome result (λ end. at + 2 ≤ end) }
    ensures within { IfSome result (λ end. end ≤ length text.now) }
    ensures text { IfSome result (λ end. IsQuotedText quote (slice_range text.now at end)) }
{
    let inner = at + 1;
    if text.len() - inner < 34 {
        return None;
    }
    let count = count_before_stop(&text[inner..inner + 32], quote, quote);
    if 0 < count && count < 32 && text[inner + count] == quote && text[inner + count + 1] != quote {
        Some(inner + count + 1)
    } else {
        None
    }
}

// The same of any text, part by part between its quotes.
fn long_quoted_end(text: &[u8], at: usize, quote: u8) -> Option<usize>
    requires inside { at < length text.now }
    requires quote { slice_index text.now at ≡ quote }
    requires ascii { quote < 128 }
    ensures after { IfSome result (λ end. at + 2 ≤ end) }
    ensures within { IfSome result (λ end. end ≤ length text.now) }
    ensures text { IfSome result (λ end. IsQuotedText quote (slice_range text.now at end)) }
{
    let mut from = at + 1;
    while from < text.len() {
        let count = memchr(quote, &text[from..])?;
        if !validate_utf8(&text[from..from + count]) {
            return None;
        }
        let end = from + count + 1;
        if end >= text.len() || text[end] != quote {
            return Some(end);
        }
        from = end + 1;
    }
    None
}

/// The place behind the text between quotes that begins at a place.
#[inline]
pub(crate) fn quoted_text_end(text: &[u8], at: usize, quote: u8) -> Option<usize>
    requires inside { at < length text.now }
    requires quote { slice_index text.now at ≡ quote }
    requires ascii { quote < 128 }
    ensures after { IfSome result (λ end. at + 2 ≤ end) }
    ensures within { IfSome result (λ end. end ≤ length text.now) }
    ensures text { IfSome result (λ end. IsQuotedText quote (slice_range text.now at end)) }
{
    if let Some(end) = short_quoted_end(text, at, quote) {
        return Some(end);
    }
    long_quoted_end(text, at, quote)
}

// The place behind the text between quotes that begins at a place. None where it needs no quotes.
fn quoted_end(text: &[u8], at: usize, separator: u8, quote: u8) -> Option<usize>
    requires inside { at < length text.now }
    requires quote { slice_index text.now at ≡ quote }
    requires ascii { quote < 128 }
    ensures within { IfSome result (λ end. end ≤ length text.now) }
    ensures written { IfSome result (λ end. IsWrittenText separator quote (slice_range text.now at end)) }
{
    let end = quoted_text_end(text, at, quote)?;
    if is_quoting_needed(&text[at + 1..end - 1], separator, quote) {
        Some(end)
    } else {
        None
    }
}

/// The place behind the text that stands at a place without quotes.
#[inline(always)]
pub(crate) fn bare_text_end(text: &[u8], at: usize, separator: u8, quote: u8) -> Option<usize>
    requires { at < length text.now }
    ensures after { IfSome result (λ end. at ≤ end) }
    ensures within { IfSome result (λ end. end ≤ length text.now) }
    ensures bare { IfSome result (λ end. IsBareText separator quote (slice_range text.now at end)) }
{
    if text.len() - at >= 32 {
        let count = count_before_stop(&text[at..at + 32], separator, quote);
        if 0 < count && count < 32 && text[at + count] < 128 {
            return Some(at + count);
        }
    }
    bare_end(text, at, separator, quote)
}

/// The place behind the text that stands at a place as it is written.
#[inline(always)]
pub(crate) fn text_end(text: &[u8], at: usize, separator: u8, quote: u8) -> Option<usize>
    requires inside { at < length text.now }
    requires ascii { quote < 128 }
    ensures within { IfSome result (λ end. end ≤ length text.now) }
    ensures written { IfSome result (λ end. IsWrittenText separator quote (slice_range text.now at end)) }
{
    if text.len() - at >= 32 {
        let count = count_before_stop(&text[at..at + 32], separator, quote);
        if 0 < count && count < 32 && text[at + count] < 128 {
            return Some(at + count);
        }
    }
    if text[at] == quote {
        quoted_end(text, at, separator, quote)
    } else {
        bare_end(text, at, separator, quote)
    }
}
