//! Where the records of an input without comments end, 64 bytes at a time.
ghost use Rattle.std.specs.Prelude.{◌≡◌, ◌≤◌, ◌<◌, ◌+◌, ◌^◌, ℕ, List, length, None, unwrap_or, IfSome, IfOk, OnOk};
ghost use Rattle.std.specs.List.{last_or};
ghost use Rattle.pl_frame.specs.Dialect.{AreDistinct};
ghost use Rattle.pl_scan.specs.Bits.{set_bits};
ghost use Rattle.pl_scan.specs.Dialect.{marks_of};
ghost use Rattle.pl_seek.specs.RecordEnds.{Stand, AtField, AreFound, IsCarried, IsScanned, HasGone};

use crate::places::Groups;
use pl_scan::dialect::Dialect;
use pl_scan::masks::{equal_to, odd_through, quote_bits};
use std::alloc::AllocError;
use std::simd::prelude::*;

// How far a scan of a record has come: whether it stands in a quoted field behind an odd number of its quotes, and whether a quote that
// comes next is known to be counted, as it begins a field or stands behind another one that was counted.
#[derive(Clone, Copy)]
struct Carry {
    odd: bool,
    fresh: bool,
}

// What a block tells: a bit for each line end that ends a record, and how far the scan has come behind it.
#[derive(Clone, Copy)]
struct Found {
    ends: u64,
    behind: Carry,
}

// What words of separators and line ends, of line ends and of quotes tell, unless a quote may be one that is not counted.
#[inline(always)]
fn ends_in(stops: u64, line_ends: u64, quotes: u64, carry: Carry) -> Option<Found>
    ensures { IfSome result (AreFound stops line_ends quotes carry) }
{
    let through = odd_through(quotes, carry.odd);
    let fresh = (stops | quotes) & !through;
    let may_open = (fresh << 1) | carry.fresh as u64;
    if quotes & through & !may_open != 0 {
        return None;
    }
    Some(Found {
        ends: line_ends & !through,
        behind: Carry {
            odd: through >> 63 == 1,
            fresh: fresh >> 63 == 1,
        },
    })
}

// What the 64 bytes from this place on tell, unless a quote may be one that is not counted.
#[inline(always)]
fn scan_block(input: &[u8], at: usize, dialect: &Dialect<'_>, carry: Carry) -> Option<Found>
    requires at { at + 64 ≤ length input.now }
    requires apart { AreDistinct (marks_of dialect.now) }
    ensures { IfSome result (λ found. (s : Stand) → IsCarried s carry → IsScanned (marks_of dialect.now) input.now at s found) }
{
    let block = u8x64::from_slice(&input[at..at + 64]);
    let line_ends = equal_to(block, dialect.eol_char);
    let stops = line_ends | equal_to(block, dialect.separator);
    let quotes = quote_bits(block, dialect.quote_char);
    ends_in(stops, line_ends, quotes, carry)
}

// The place behind the last of the bits of a word whose lowest bit has this place, or `last` where there is none.
#[inline(always)]
fn behind_last(bits: u64, at: usize, last: usize) -> usize
    requires { at + 64 < 2 ^ 64 }
    ensures value { result ≡ unwrap_or (last_or None (set_bits 64 (at + 1) bits)) last }
    ensures between { last ≤ at → (last ≤ result) × (result ≤ at + 64) }
{
    if bits == 0 {
        last
    } else {
        at + (64 - bits.leading_zeros()) as usize
    }
}

/// Takes the places of the records behind the first one of an input from this place on, up to one with a quote that may not be counted or to
/// the last bytes, and answers where the last of them begins, or the first one. Refuses only want of memory.
pub(crate) fn add_records(
    groups: &mut Groups,
    input: &[u8],
    begin: usize,
    dialect: &Dialect<'_>,
) -> Result<usize, AllocError>
    requires within { begin < length input.now }
    requires apart { AreDistinct (marks_of dialect.now) }
    requires gone { (all : List ℕ) × HasGone (marks_of dialect.now) input.now groups.old all AtField begin }
    ensures gone { IfOk result (λ last. (all : List ℕ) → HasGone (marks_of dialect.now) input.now groups.old all AtField begin → HasGone (marks_of dialect.now) input.now groups.new all AtField last) }
    ensures within { IfOk result (λ last. (begin ≤ last) × (last < length input.now)) }
    ensures every { OnOk result (groups.new.every ≡ groups.old.every) }
{
    let mut last = begin;
    let mut carry = Carry {
        odd: false,
        fresh: true,
    };
    let mut at = begin;
    while at + 64 < input.len() {
        let Some(found) = scan_block(input, at, dialect, carry) else {
            return Ok(last);
        };
        groups.add_ends(found.ends, at)?;
        last = behind_last(found.ends, at, last);
        carry = found.behind;
        at += 64;
    }
    Ok(last)
}
