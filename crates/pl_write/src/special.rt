//! Whether a text holds a special byte, which only a quoted text may hold. Two loads that overlap cover a short text.
ghost use Rattle.std.specs.Prelude.{◌≡◌, ◌==◌, ◌+◌, ◌≤◌, length, not};
ghost use Rattle.std.specs.Bool.{OnTrue};
ghost use Rattle.std.specs.List.{list_any, prefix_len};
ghost use Rattle.pl_text.specs.FrameText.{is_special};
ghost use Rattle.pl_write.specs.Special.{HasNoSpecial};

use std::simd::prelude::*;

#[inline(always)]
fn is_clear_4(text: &[u8], at: usize, separator: u8, quote: u8) -> bool
    requires { at + 4 ≤ length text.now }
    ensures { OnTrue result (HasNoSpecial separator quote text.now at (at + 4)) }
{
    let v = u8x4::from_slice(&text[at..]);
    (v.simd_eq(u8x4::splat(separator))
        | v.simd_eq(u8x4::splat(b'\n'))
        | v.simd_eq(u8x4::splat(b'\r'))
        | v.simd_eq(u8x4::splat(quote))).to_bitmask()
        == 0
}

#[inline(always)]
fn is_clear_8(text: &[u8], at: usize, separator: u8, quote: u8) -> bool
    requires { at + 8 ≤ length text.now }
    ensures { OnTrue result (HasNoSpecial separator quote text.now at (at + 8)) }
{
    let v = u8x8::from_slice(&text[at..]);
    (v.simd_eq(u8x8::splat(separator))
        | v.simd_eq(u8x8::splat(b'\n'))
        | v.simd_eq(u8x8::splat(b'\r'))
        | v.simd_eq(u8x8::splat(quote))).to_bitmask()
        == 0
}

#[inline(always)]
fn is_clear_16(text: &[u8], at: usize, separator: u8, quote: u8) -> bool
    requires { at + 16 ≤ length text.now }
    ensures { OnTrue result (HasNoSpecial separator quote text.now at (at + 16)) }
{
    let v = u8x16::from_slice(&text[at..]);
    (v.simd_eq(u8x16::splat(separator))
        | v.simd_eq(u8x16::splat(b'\n'))
        | v.simd_eq(u8x16::splat(b'\r'))
        | v.simd_eq(u8x16::splat(quote))).to_bitmask()
        == 0
}

#[inline(always)]
pub(crate) fn is_clear_long(text: &[u8], separator: u8, quote: u8) -> bool
    requires { 16 ≤ length text.now }
    ensures { OnTrue result (HasNoSpecial separator quote text.now 0 (length text.now)) }
{
    let mut at = 0;
    while text.len() - at > 16 {
        if !is_clear_16(text, at, separator, quote) {
            return false;
        }
        at += 16;
    }
    is_clear_16(text, text.len() - 16, separator, quote)
}

#[inline(always)]
pub(crate) fn is_clear_8_to_16(text: &[u8], separator: u8, quote: u8) -> bool
    requires { (8 ≤ length text.now) × (length text.now ≤ 16) }
    ensures { OnTrue result (HasNoSpecial separator quote text.now 0 (length text.now)) }
{
    is_clear_8(text, 0, separator, quote) && is_clear_8(text, text.len() - 8, separator, quote)
}

#[inline(always)]
pub(crate) fn is_clear_4_to_8(text: &[u8], separator: u8, quote: u8) -> bool
    requires { (4 ≤ length text.now) × (length text.now ≤ 8) }
    ensures { OnTrue result (HasNoSpecial separator quote text.now 0 (length text.now)) }
{
    is_clear_4(text, 0, separator, quote) && is_clear_4(text, text.len() - 4, separator, quote)
}

/// How many of 32 bytes stand before the first special one.
#[inline(always)]
pub(crate) fn count_before_special(bytes: &[u8], separator: u8, quote: u8) -> usize
    requires { length bytes.now ≡ 32 }
    ensures { result ≡ prefix_len (λ x. not (is_special separator quote x)) bytes.now }
{
    let v = u8x32::from_slice(bytes);
    let special = (v.simd_eq(u8x32::splat(separator))
        | v.simd_eq(u8x32::splat(b'\n'))
        | v.simd_eq(u8x32::splat(b'\r'))
        | v.simd_eq(u8x32::splat(quote))).to_bitmask();
    if special == 0 {
        32
    } else {
        special.trailing_zeros() as usize
    }
}

/// How many of 32 bytes stand before the first that is a quote.
#[inline(always)]
pub(crate) fn count_before_quote(bytes: &[u8], quote: u8) -> usize
    requires { length bytes.now ≡ 32 }
    ensures { result ≡ prefix_len (λ x. not (x == quote)) bytes.now }
{
    let v = u8x32::from_slice(bytes);
    let quotes = v.simd_eq(u8x32::splat(quote)).to_bitmask();
    if quotes == 0 {
        32
    } else {
        quotes.trailing_zeros() as usize
    }
}

// True only where no special byte is there.
#[inline(always)]
fn is_clear(text: &[u8], separator: u8, quote: u8) -> bool
    requires { 4 ≤ length text.now }
    ensures { OnTrue result (HasNoSpecial separator quote text.now 0 (length text.now)) }
{
    if text.len() >= 16 {
        is_clear_long(text, separator, quote)
    } else if text.len() >= 8 {
        is_clear_8_to_16(text, separator, quote)
    } else {
        is_clear_4_to_8(text, separator, quote)
    }
}

// The same, exactly, byte by byte.
#[inline]
pub(crate) fn any_special(text: &[u8], separator: u8, quote: u8) -> bool
    ensures { result ≡ list_any (is_special separator quote) text.now }
{
    text.iter().any(|x| *x == separator || *x == b'\n' || *x == b'\r' || *x == quote)
}

/// Whether a text holds the separator, a line feed, a carriage return or the quote.
#[inline]
pub(crate) fn holds_special(text: &[u8], separator: u8, quote: u8) -> bool
    ensures { result ≡ list_any (is_special separator quote) text.now }
{
    if text.len() >= 4 && is_clear(text, separator, quote) {
        false
    } else {
        any_special(text, separator, quote)
    }
}
