//! Whether every byte is ASCII. Two loads that overlap cover a short text.
ghost use Rattle.std.specs.Prelude.{◌≡◌, ◌+◌, ◌≤◌, length};
ghost use Rattle.std.specs.Bool.{OnTrue};
ghost use Rattle.std.specs.Str.{IsAscii};
ghost use Rattle.pl_cells.specs.Ascii.{IsAsciiBetween};

use std::simd::prelude::*;

#[inline(always)]
fn is_ascii_4(text: &[u8], at: usize) -> bool
    requires { at + 4 ≤ length text.now }
    ensures { OnTrue result (IsAsciiBetween text.now at (at + 4)) }
{
    let v = u8x4::from_slice(&text[at..]);
    v.simd_ge(u8x4::splat(128)).to_bitmask() == 0
}

#[inline(always)]
fn is_ascii_8(text: &[u8], at: usize) -> bool
    requires { at + 8 ≤ length text.now }
    ensures { OnTrue result (IsAsciiBetween text.now at (at + 8)) }
{
    let v = u8x8::from_slice(&text[at..]);
    v.simd_ge(u8x8::splat(128)).to_bitmask() == 0
}

#[inline(always)]
fn is_ascii_16(text: &[u8], at: usize) -> bool
    requires { at + 16 ≤ length text.now }
    ensures { OnTrue result (IsAsciiBetween text.now at (at + 16)) }
{
    let v = u8x16::from_slice(&text[at..]);
    v.simd_ge(u8x16::splat(128)).to_bitmask() == 0
}

#[inline(always)]
fn is_ascii_long(text: &[u8]) -> bool
    requires { 16 ≤ length text.now }
    ensures { OnTrue result (IsAsciiBetween text.now 0 (length text.now)) }
{
    let mut at = 0;
    while text.len() - at > 16 {
        if !is_ascii_16(text, at) {
            return false;
        }
        at += 16;
    }
    is_ascii_16(text, text.len() - 16)
}

#[inline(always)]
fn is_ascii_8_to_16(text: &[u8]) -> bool
    requires { (8 ≤ length text.now) × (length text.now ≤ 16) }
    ensures { OnTrue result (IsAsciiBetween text.now 0 (length text.now)) }
{
    is_ascii_8(text, 0) && is_ascii_8(text, text.len() - 8)
}

#[inline(always)]
fn is_ascii_4_to_8(text: &[u8]) -> bool
    requires { (4 ≤ length text.now) × (length text.now ≤ 8) }
    ensures { OnTrue result (IsAsciiBetween text.now 0 (length text.now)) }
{
    is_ascii_4(text, 0) && is_ascii_4(text, text.len() - 4)
}

#[inline(always)]
fn is_ascii_1_to_3(text: &[u8]) -> bool
    requires { (1 ≤ length text.now) × (length text.now ≤ 3) }
    ensures { OnTrue result (IsAsciiBetween text.now 0 (length text.now)) }
{
    text[0] < 128 && text[text.len() / 2] < 128 && text[text.len() - 1] < 128
}

/// True only where every byte is ASCII. The empty text is not looked at. Takes no memory.
#[inline]
pub(crate) fn is_seen_ascii(text: &[u8]) -> bool
    ensures { OnTrue result (IsAscii text.now) }
{
    if text.len() >= 16 {
        is_ascii_long(text)
    } else if text.len() >= 8 {
        is_ascii_8_to_16(text)
    } else if text.len() >= 4 {
        is_ascii_4_to_8(text)
    } else {
        !text.is_empty() && is_ascii_1_to_3(text)
    }
}
