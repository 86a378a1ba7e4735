//! Where a text is cut into ranges: between pieces that a scan comes to at the start of an item.
ghost use Rattle.std.specs.Prelude.{◌≡◌, ◌<◌, ℕ, IfOk, IsOkUnless, length, drop};
ghost use Rattle.pl_frame.specs.Dialect.{IsDialect};
ghost use Rattle.pl_frame.specs.declared.error.PolarsError.TheVariants as error;
ghost use Rattle.pl_scan.specs.Dialect.{marks_of, comment_of};
ghost use Rattle.pl_scan.specs.LineCuts.{RiseTo};
ghost use Rattle.pl_board.specs.Ranges.{begins_item, range_ends, cut_ranges, AreRanges};

use crate::gate::OpenGate;
use crate::line_states::{line_states, push};
use pl_frame::error::PolarsResult;
use pl_scan::dialect::Dialect;
use pl_scan::laws::piece_ends_cut_the_text;
use pl_scan::line_cuts::line_cuts;
use pl_scan::summary::LineState;
use std::alloc::Global;
use std::sync::Wait;
use std::thread::Threads;

// Whether there is no piece of this number, or one that a scan comes to at the start of an item.
fn begins_item(states: &[LineState], number: usize) -> bool
    ensures { result ≡ begins_item (drop number states.now) }
{
    match states.get(number) {
        Some(state) => *state == LineState::Start,
        None => true,
    }
}

// Of the ends of pieces, those at which ranges end: the last one, and each in front of a piece that a scan comes to at the start of
// an item. Refuses only want of memory.
fn range_ends(alloc: Global, ends: &[usize], states: &[LineState]) -> PolarsResult<Vec<usize>>
    requires { length states.now ≡ length ends.now }
    ensures ends { IfOk result (λ kept. kept.items ≡ range_ends ends.now states.now) }
    ensures rise { (size : ℕ) → RiseTo size 0 ends.now → IfOk result (λ kept. RiseTo size 0 kept.items) }
    ensures refused { IsOkUnless result error.OutOfMemory }
{
    let mut kept = Vec::new(alloc);
    for number in 0..ends.len() {
        if begins_item(states, number + 1) {
            push(&mut kept, ends[number])?;
        }
    }
    Ok(kept)
}

/// Where the ranges of a text end that is cut into pieces of about this size: in front of each piece that begins at the start of an item, and
/// at the end of the text. They are found by this number of workers. Refuses only want of memory.
pub fn cut_into_ranges<W: Threads + Wait + Sync>(
    rt: &W,
    alloc: Global,
    bytes: &[u8],
    dialect: &Dialect<'_>,
    piece_size: usize,
    workers: usize,
) -> PolarsResult<Vec<usize>>
    requires dialect { IsDialect (marks_of dialect.now) (comment_of dialect.now) }
    requires size { 0 < piece_size }
    requires workers { 0 < workers }
    ensures ends { IfOk result (λ ends. ends.items ≡ cut_ranges (marks_of dialect.now) (comment_of dialect.now) piece_size bytes.now) }
    ensures rise { IfOk result (λ ends. RiseTo (length bytes.now) 0 ends.items) }
    ensures ranges { IfOk result (λ ends. AreRanges (marks_of dialect.now) (comment_of dialect.now) ends.items bytes.now) }
    ensures refused { IsOkUnless result error.OutOfMemory }
{
    let ends = line_cuts(alloc, bytes, piece_size, dialect.eol_char)?;
    piece_ends_cut_the_text();
    let states = line_states(
        rt,
        alloc,
        bytes,
        &ends,
        dialect.separator,
        dialect.quote_char,
        dialect.eol_char,
        dialect.comment_prefix,
        workers,
        &OpenGate,
    )?;
    range_ends(alloc, &ends, &states)
}
