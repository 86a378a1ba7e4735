//! Columns of pieces that were read apart, linked in order, and what is left of their range behind them.
ghost use Rattle.std.specs.Prelude.{◌≡◌, ◌++◌, ◌≤◌, ℕ, List, None, IfOk, OnOk, length, map};
ghost use Rattle.std.specs.List.{concat};
ghost use Rattle.pl_frame.specs.Dialect.{AreDistinct, IsDialect};
ghost use Rattle.pl_frame.specs.FrameParts.{empty_columns};
ghost use Rattle.pl_scan.specs.Dialect.{marks_of, comment_of};
ghost use Rattle.pl_cells.specs.InitBuffers.{entry_at, first_unreadable};
ghost use Rattle.pl_cells.specs.NullValues.{HaveTexts};
ghost use Rattle.pl_rows.specs.declared.whole_pieces.PieceFrame.{PieceFrame};
ghost use Rattle.pl_rows.specs.Plan.{AreRising};
ghost use Rattle.pl_rows.specs.Ranges.{IsRangeRead};
ghost use Rattle.pl_rows.specs.Texts.{AllLinked, AreReadAt, IsLeftRead};
ghost use Rattle.pl_rows.specs.WholePieces.{IsPieceFrame, IsFrontLinked};

use crate::apart::{PieceColumns, Reading};
use crate::columns::{RangeColumns, read_columns};
use crate::pieces::{end_behind, plan_behind};
use crate::plan::RangePlan;
use crate::range::is_below;
use crate::stack::{empty_stacks, into_columns, push_columns};
use crate::whole_pieces::PieceFrame;
use pl_board::piece::Posted;
use pl_frame::schema::Schema;
use pl_frame::stack::Stack;
use std::alloc::{AllocError, Global};

/// How many rows the pieces have that are linked, and where the last one ends.
#[derive(Clone, Copy)]
pub struct Front {
    pub rows: usize,
    pub end: usize,
}

// Puts the columns of the front of what was posted of a range behind the stacks: of pieces that have columns, each from where the one
// before it ended, as long as their rows are below the limit. Refuses only want of memory.
fn link_front<K: Reading>(
    stacks: &mut [Stack],
    results: Vec<Option<Posted<'_, PieceColumns<K>>>>,
    schema: &Schema,
    range: &[u8],
    plan: &RangePlan<'_>,
) -> Result<Front, AllocError>
    requires dialect { IsDialect (marks_of plan.now.dialect) (comment_of plan.now.dialect) }
    requires empty { stacks.old ≡ empty_columns (map (entry_at schema.now) plan.now.projection.places.now) }
    requires range { K.range ≡ range.now }
    requires meant { (text : List ℕ) (read : PieceFrame) → K.reads text read → IsPieceFrame plan.now schema.now text read }
    ensures { IfOk result (λ front. IsFrontLinked plan.now schema.now range.now stacks.new front.rows front.end) }
{
    let mut rows = 0;
    let mut end = 0;
    for posted in results {
        let Some(posted) = posted else {
            break;
        };
        let PieceColumns { from, to, read, .. } = posted.into_done();
        let Some(piece) = read else {
            break;
        };
        if from != end || to < end || to > range.len() {
            break;
        }
        let Some(more) = usize::checked_add(rows, piece.rows) else {
            break;
        };
        if !is_below(plan.limit, more) {
            break;
        }
        push_columns(stacks, piece.columns)?;
        rows = more;
        end = to;
    }
    Ok(Front { rows, end })
}

/// Puts the columns of texts that follow one another, and what is linked already, behind the stacks: of those at the front that were read, as
/// long as their rows are below the limit. Refuses only want of memory.
pub fn link_texts(
    stacks: &mut [Stack],
    linked: Front,
    texts: &[&[u8]],
    reads: Vec<Option<PieceFrame>>,
    schema: &Schema,
    plan: &RangePlan<'_>,
) -> Result<Front, AllocError>
    requires dialect { IsDialect (marks_of plan.now.dialect) (comment_of plan.now.dialect) }
    requires linked { (before : List ℕ) × AllLinked plan.now schema.now before stacks.old linked }
    requires read { AreReadAt plan.now schema.now (map (λ text. text.now) texts.now) reads.items }
    ensures after { IfOk result (λ front. linked.end ≤ front.end) }
    ensures linked { (before : List ℕ) → AllLinked plan.now schema.now before stacks.old linked → IfOk result (λ front. IsFrontLinked plan.now schema.now (before ++ concat (map (λ text. text.now) texts.now)) stacks.new front.rows front.end) }
{
    let mut front = linked;
    let mut place = 0;
    for read in reads {
        let Some(piece) = read else {
            break;
        };
        if place >= texts.len() {
            break;
        }
        let Some(rows) = usize::checked_add(front.rows, piece.rows) else {
            break;
        };
        let Some(end) = usize::checked_add(front.end, texts[place].len()) else {
            break;
        };
        if !is_below(plan.limit, rows) {
            break;
        }
        push_columns(stacks, piece.columns)?;
        front = Front { rows, end };
        place += 1;
    }
    Ok(front)
}

/// The columns of a range, of which a front is linked and what is left behind it was read as its last part. Refuses only want of memory.
pub fn link_left(
    alloc: Global,
    schema: &Schema,
    stacks: Vec<Stack>,
    plan: &RangePlan<'_>,
    front: Front,
    left: RangeColumns,
) -> Result<RangeColumns, AllocError>
    requires dialect { IsDialect (marks_of plan.now.dialect) (comment_of plan.now.dialect) }
    requires left { (range : List ℕ) × IsLeftRead plan.now schema.now range stacks.items front left }
    ensures { (range : List ℕ) → IsLeftRead plan.now schema.now range stacks.items front left → IfOk result (IsRangeRead plan.now schema.now range) }
{
    let mut stacks = stacks;
    let RangeColumns { columns, end } = left;
    let end = end_behind(front.rows, end);
    push_columns(&mut stacks, columns)?;
    let columns = into_columns(alloc, stacks)?;
    Ok(RangeColumns { columns, end })
}

// Reads what is left of a range, behind a front whose columns are linked, as its last part, and gives the columns of the whole range.
// Refuses only want of memory.
fn link_rest(
    alloc: Global,
    schema: &Schema,
    stacks: Vec<Stack>,
    range: &[u8],
    plan: &RangePlan<'_>,
    front: Front,
) -> Result<RangeColumns, AllocError>
    requires dialect { IsDialect (marks_of plan.now.dialect) (comment_of plan.now.dialect) }
    requires width { plan.now.projection.width ≡ length schema.now }
    requires rising { AreRising 0 (length schema.now) plan.now.projection.places.now }
    requires readable { first_unreadable schema.now plan.now.projection.places.now ≡ None }
    requires texts { HaveTexts plan.now.options.null_values (length schema.now) }
    requires front { IsFrontLinked plan.now schema.now range.now stacks.items front.rows front.end }
    ensures { IfOk result (IsRangeRead plan.now schema.now range.now) }
{
    let last = plan_behind(plan, front.rows, plan.last);
    let left = read_columns(alloc, schema, &range[front.end..], &last)?;
    link_left(alloc, schema, stacks, plan, front, left)
}

/// The columns of a range of which these results were posted, in order: those of its front are linked, and what is left behind them is
/// read as one range. Refuses only want of memory.
pub fn link_results<K: Reading>(
    alloc: Global,
    schema: &Schema,
    results: Vec<Option<Posted<'_, PieceColumns<K>>>>,
    range: &[u8],
    plan: &RangePlan<'_>,
) -> Result<RangeColumns, AllocError>
    requires dialect { IsDialect (marks_of plan.now.dialect) (comment_of plan.now.dialect) }
    requires width { plan.now.projection.width ≡ length schema.now }
    requires rising { AreRising 0 (length schema.now) plan.now.projection.places.now }
    requires readable { first_unreadable schema.now plan.now.projection.places.now ≡ None }
    requires texts { HaveTexts plan.now.options.null_values (length schema.now) }
    requires range { K.range ≡ range.now }
    requires meant { (text : List ℕ) (read : PieceFrame) → K.reads text read → IsPieceFrame plan.now schema.now text read }
    ensures { IfOk result (IsRangeRead plan.now schema.now range.now) }
{
    let mut stacks = empty_stacks(alloc, schema, plan.projection.places)?;
    let front = link_front(&mut stacks, results, schema, range, plan)?;
    link_rest(alloc, schema, stacks, range, plan, front)
}
