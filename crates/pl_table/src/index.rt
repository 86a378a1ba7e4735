//! The index of a text: where its fields start, and how many fields come before each record.
ghost use Rattle.std.specs.Prelude.{◌≡◌, ◌≤◌, ◌<◌, ◌+◌, ◌-◌, ◌^◌, ◌++◌, ◌∷◌, ℕ, List, map, length, take, bit_and, OnOk, IfOk};
ghost use Rattle.pl_frame.specs.Dialect.{AreDistinct};
ghost use Rattle.pl_scan.specs.Dialect.{marks_of};
ghost use Rattle.pl_table.specs.declared.block.Spot.TheVariants.{Begin};
ghost use Rattle.pl_scan.specs.Bits.{set_bits};
ghost use Rattle.pl_table.specs.Entries.{entries, place_behind, row_ends, counts, Written};

use crate::block::{Spot, ends_of_block};
use pl_scan::dialect::Dialect;
use std::alloc::AllocError;

// Puts the places of the four lowest bits, and junk where there are fewer. Gives the bits that are left.
#[inline(always)]
fn put_four(out: &mut [u32], at: usize, base: u32, bits: u64) -> u64
    requires room { at + 4 ≤ length out.old }
    requires base { base + 64 < 2 ^ 32 }
    ensures written { (want : List ℕ) → Written want out.old at (set_bits 64 base bits) bits → Written want out.new (at + 4) (set_bits 64 base result) result }
    ensures len { length out.new ≡ length out.old }
{
    let mut rest = bits;
    out[at] = base + rest.trailing_zeros();
    rest &= rest.wrapping_sub(1);
    out[at + 1] = base + rest.trailing_zeros();
    rest &= rest.wrapping_sub(1);
    out[at + 2] = base + rest.trailing_zeros();
    rest &= rest.wrapping_sub(1);
    out[at + 3] = base + rest.trailing_zeros();
    rest & rest.wrapping_sub(1)
}

// The same of eight.
#[inline(always)]
fn put_eight(out: &mut [u32], at: usize, base: u32, bits: u64) -> u64
    requires room { at + 8 ≤ length out.old }
    requires base { base + 64 < 2 ^ 32 }
    ensures written { (want : List ℕ) → Written want out.old at (set_bits 64 base bits) bits → Written want out.new (at + 8) (set_bits 64 base result) result }
    ensures len { length out.new ≡ length out.old }
{
    let rest = put_four(out, at, base, bits);
    put_four(out, at + 4, base, rest)
}

// Puts the places of all bits, and junk behind them. Gives their number.
#[inline(always)]
fn put_places(out: &mut [u32], from: usize, base: u32, bits: u64) -> usize
    requires room { from + 64 ≤ length out.old }
    requires base { base + 64 < 2 ^ 32 }
    ensures written { take (from + result) out.new ≡ take from out.old ++ set_bits 64 base bits }
    ensures count { result ≡ length (set_bits 64 base bits) }
    ensures few { result ≤ 64 }
    ensures len { length out.new ≡ length out.old }
{
    let count = bits.count_ones() as usize;
    let mut rest = put_eight(out, from, base, bits);
    let mut k = 8;
    while k < count {
        rest = put_eight(out, from + k, base, rest);
        k += 8;
    }
    count
}

// How many ends come up to the lowest of some bits, where others came before.
#[inline(always)]
fn count_through(before: u32, ends: u64, bits: u64) -> u32
    requires { before + 64 < 2 ^ 32 }
    ensures { 0 < bits → counts 64 before ends bits ≡ result ∷ counts 64 before ends (bit_and bits (bits - 1)) }
{
    let through = ends & (bits ^ bits.wrapping_sub(1));
    before + through.count_ones()
}

// Puts how many ends come up to the lowest of some bits, and junk where there is none. Gives the bits that are left.
#[inline(always)]
fn put_count(out: &mut [u32], at: usize, before: u32, ends: u64, bits: u64) -> u64
    requires room { at < length out.old }
    requires before { before + 64 < 2 ^ 32 }
    ensures written { (want : List ℕ) → Written want out.old at (counts 64 before ends bits) bits → Written want out.new (at + 1) (counts 64 before ends result) result }
    ensures len { length out.new ≡ length out.old }
{
    out[at] = count_through(before, ends, bits);
    bits & bits.wrapping_sub(1)
}

// Puts how many ends come up to each of some bits, and junk behind them. Gives their number.
#[inline(always)]
fn put_counts(out: &mut [u32], from: usize, before: u32, ends: u64, bits: u64) -> usize
    requires room { from + 64 ≤ length out.old }
    requires before { before + 64 < 2 ^ 32 }
    ensures written { take (from + result) out.new ≡ take from out.old ++ counts 64 before ends bits }
    ensures count { result ≡ length (counts 64 before ends bits) }
    ensures few { result ≤ 64 }
    ensures len { length out.new ≡ length out.old }
{
    let count = bits.count_ones() as usize;
    let mut rest = put_count(out, from, before, ends, bits);
    let mut k = 1;
    while k < count {
        rest = put_count(out, from + k, before, ends, rest);
        k += 1;
    }
    count
}

// Makes a vector longer.
#[cold]
#[inline(never)]
fn grow(to: &mut Vec<u32>, len: usize) -> Result<(), AllocError>
    requires small { len < 2 ^ 40 }
    requires more { length to.old.items ≤ len + 64 }
    ensures room { OnOk result (len + 64 ≤ length to.new.items) }
    ensures same { OnOk result (take (length to.old.items) to.new.items ≡ to.old.items) }
{
    to.resize(2 * len + 1024, 0)
}

// Makes a vector have room for 64 more than so many.
#[inline(always)]
fn make_room(to: &mut Vec<u32>, len: usize) -> Result<(), AllocError>
    requires small { len < 2 ^ 40 }
    requires fits { len ≤ length to.old.items }
    ensures room { OnOk result (len + 64 ≤ length to.new.items) }
    ensures same { OnOk result (take len to.new.items ≡ take len to.old.items) }
{
    if to.len() < len + 64 {
        grow(to, len)?;
    }
    Ok(())
}

/// Fills vectors, up to some place, with where the fields of a text start, and with how many fields come before each of its
/// records, and gives the number of the records that a line end ends. Refuses only want of memory.
pub(crate) fn index_text(
    starts: &mut Vec<u32>,
    firsts: &mut Vec<u32>,
    text: &[u8],
    dialect: &Dialect,
) -> Result<usize, AllocError>
    requires apart { AreDistinct (marks_of dialect.now) }
    requires short { length text.now + 64 < 2 ^ 30 }
    ensures starts { OnOk result (take (length (entries (marks_of dialect.now) Begin 0 text.now) + 1) starts.new.items
        ≡ 0 ∷ map place_behind (entries (marks_of dialect.now) Begin 0 text.now)) }
    ensures rows { IfOk result (λ count. take (count + 1) firsts.new.items ≡ 0 ∷ row_ends 0 (entries (marks_of dialect.now) Begin 0 text.now)) }
    ensures starts_fit { OnOk result (length (entries (marks_of dialect.now) Begin 0 text.now) < length starts.new.items) }
    ensures rows_fit { IfOk result (λ count. count < length firsts.new.items) }
{
    make_room(starts, 0)?;
    make_room(firsts, 0)?;
    starts[0] = 0;
    firsts[0] = 0;
    let mut fields = 0usize;
    let mut count = 0usize;
    let mut rest = text;
    let mut place = 0u32;
    let mut at = Spot::Begin;
    while !rest.is_empty() {
        let (piece, others) = rest.split_at(rest.len().min(64));
        let block = ends_of_block(piece, dialect, at);
        make_room(firsts, count + 1)?;
        count += put_counts(
            firsts,
            count + 1,
            fields as u32,
            block.ends,
            block.ends & block.lines,
        );
        make_room(starts, fields + 1)?;
        fields += put_places(starts, fields + 1, place + 1, block.ends);
        place += piece.len() as u32;
        at = block.behind;
        rest = others;
    }
    Ok(count)
}
