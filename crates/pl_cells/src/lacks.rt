//! Whether a byte stands nowhere in a text. Two loads that overlap cover a short text.
ghost use Rattle.std.specs.Prelude.{◌≡◌, ◌+◌, ◌≤◌, length};
ghost use Rattle.std.specs.Bool.{OnTrue};
ghost use Rattle.pl_cells.specs.Lacks.{LacksBetween};

use std::simd::prelude::*;

#[inline(always)]
fn lacks_4(text: &[u8], at: usize, byte: u8) -> bool
    requires { at + 4 ≤ length text.now }
    ensures { OnTrue result (LacksBetween byte text.now at (at + 4)) }
{
    let v = u8x4::from_slice(&text[at..]);
    v.simd_eq(u8x4::splat(byte)).to_bitmask() == 0
}

#[inline(always)]
fn lacks_8(text: &[u8], at: usize, byte: u8) -> bool
    requires { at + 8 ≤ length text.now }
    ensures { OnTrue result (LacksBetween byte text.now at (at + 8)) }
{
    let v = u8x8::from_slice(&text[at..]);
    v.simd_eq(u8x8::splat(byte)).to_bitmask() == 0
}

#[inline(always)]
fn lacks_16(text: &[u8], at: usize, byte: u8) -> bool
    requires { at + 16 ≤ length text.now }
    ensures { OnTrue result (LacksBetween byte text.now at (at + 16)) }
{
    let v = u8x16::from_slice(&text[at..]);
    v.simd_eq(u8x16::splat(byte)).to_bitmask() == 0
}

#[inline(always)]
fn lacks_long(text: &[u8], byte: u8) -> bool
    requires { 16 ≤ length text.now }
    ensures { OnTrue result (LacksBetween byte text.now 0 (length text.now)) }
{
    let mut at = 0;
    while text.len() - at > 16 {
        if !lacks_16(text, at, byte) {
            return false;
        }
        at += 16;
    }
    lacks_16(text, text.len() - 16, byte)
}

#[inline(always)]
fn lacks_8_to_16(text: &[u8], byte: u8) -> bool
    requires { (8 ≤ length text.now) × (length text.now ≤ 16) }
    ensures { OnTrue result (LacksBetween byte text.now 0 (length text.now)) }
{
    lacks_8(text, 0, byte) && lacks_8(text, text.len() - 8, byte)
}

#[inline(always)]
fn lacks_4_to_8(text: &[u8], byte: u8) -> bool
    requires { (4 ≤ length text.now) × (length text.now ≤ 8) }
    ensures { OnTrue result (LacksBetween byte text.now 0 (length text.now)) }
{
    lacks_4(text, 0, byte) && lacks_4(text, text.len() - 4, byte)
}

#[inline(always)]
fn lacks_1_to_3(text: &[u8], byte: u8) -> bool
    requires { (1 ≤ length text.now) × (length text.now ≤ 3) }
    ensures { OnTrue result (LacksBetween byte text.now 0 (length text.now)) }
{
    text[0] != byte && text[text.len() / 2] != byte && text[text.len() - 1] != byte
}

/// True only where the byte stands nowhere. The empty text is not looked at. Takes no memory.
#[inline(always)]
pub(crate) fn is_seen_without(text: &[u8], byte: u8) -> bool
    ensures { OnTrue result (LacksBetween byte text.now 0 (length text.now)) }
{
    if text.len() >= 16 {
        lacks_long(text, byte)
    } else if text.len() >= 8 {
        lacks_8_to_16(text, byte)
    } else if text.len() >= 4 {
        lacks_4_to_8(text, byte)
    } else {
        !text.is_empty() && lacks_1_to_3(text, byte)
    }
}
