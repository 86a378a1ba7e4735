//! Where the marks stand that end cells, as far as bytes alone tell: a separator or a line feed may also stand within a cell. So these are places to
//! go on from before a cell is read to its end, and each is compared with where that cell ends.
ghost use Rattle.std.specs.Prelude.{◌≡◌, ◌+◌, ◌<◌, length};

use std::simd::prelude::*;

// So many bytes are looked at in one go.
const WIDTH: usize = 64;

/// The marks that were seen behind a place, and not passed yet: a bit for each of 64 bytes.
#[derive(Drop)]
pub(crate) struct Marks {
    base: usize,
    bits: u64,
}

// A bit for each of 64 bytes from a place on: whether it is a separator or a line feed. None where fewer bytes are left.
fn mark_bits(text: &[u8], at: usize, separator: u8) -> u64 {
    if at > text.len() || text.len() - at < WIDTH {
        return 0;
    }
    let v = u8x64::from_slice(&text[at..at + WIDTH]);
    (v.simd_eq(u8x64::splat(separator)) | v.simd_eq(u8x64::splat(b'\n'))).to_bitmask()
}

impl Marks {
    /// Those from a place on.
    pub(crate) fn at(text: &[u8], at: usize, separator: u8) -> Marks {
        Marks {
            base: at,
            bits: mark_bits(text, at, separator),
        }
    }

    /// Those from a place on, which are looked for when one is asked for.
    #[inline(always)]
    pub(crate) fn later(at: usize) -> Marks {
        Marks {
            base: at.wrapping_sub(WIDTH),
            bits: 0,
        }
    }

    /// The place of the next mark. Where none is seen in 64 bytes, it is any place.
    #[inline(always)]
    pub(crate) fn next(&mut self, text: &[u8], separator: u8) -> usize {
        if self.bits == 0 {
            self.base = self.base.wrapping_add(WIDTH);
            self.bits = mark_bits(text, self.base, separator);
        }
        let place = self.base.wrapping_add(self.bits.trailing_zeros() as usize);
        self.bits &= self.bits.wrapping_sub(1);
        place
    }

    /// The place behind the mark that ends a cell, where that of the next mark was `ahead`. Where it is the same, the processor goes on from there
    /// before it knows where the cell ends; else the marks behind the cell are looked for.
    #[inline(always)]
    pub(crate) fn pass(&mut self, ahead: usize, text: &[u8], end: usize, separator: u8) -> usize
        requires { end < length text.now }
        ensures { result ≡ end + 1 }
    {
        if ahead == end {
            ahead + 1
        } else {
            *self = Marks::at(text, end + 1, separator);
            end + 1
        }
    }
}
