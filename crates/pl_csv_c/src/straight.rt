//! Data read straight into arrays, by the thread that calls: the cells of each piece are put behind those before it, and its columns go.
ghost use Rattle.std.specs.Prelude.{◌≡◌, ◌≤◌, ◌<◌, ℕ, true, None, IfOk, OnOk, length, map, slice_index};
ghost use Rattle.pl_cells.specs.InitBuffers.{entry_at, first_unreadable};
ghost use Rattle.pl_cells.specs.NullValues.{HaveTexts};
ghost use Rattle.pl_csv_c.specs.Growing.{AreGrown, ArePlainAt, IsFrontGrown, IsRangeGrown};
ghost use Rattle.pl_frame.specs.Dialect.{IsDialect};
ghost use Rattle.pl_frame.specs.FrameParts.{empty_columns};
ghost use Rattle.pl_rows.specs.Plan.{AreRising};
ghost use Rattle.pl_scan.specs.Dialect.{marks_of, comment_of};

use crate::growing::{Growing, all_empty, grow_all, grow_piece};
use crate::kinds::{Kind, kind_of};
use crate::pieces::{is_below, piece_end};
use pl_frame::schema::Schema;
use pl_rows::columns::{RangeColumns, read_columns};
use pl_rows::linking::Front;
use pl_rows::pieces::{end_behind, plan_behind};
use pl_rows::plan::RangePlan;
use pl_rows::range::RangeEnd;
use pl_rows::whole_pieces::read_piece_frame;
use std::alloc::{AllocError, Global};

// So many pieces there are at most; what stands behind them is read as a whole.
const PIECES: usize = 1 << 40;

/// What was read of data: columns whose cells stand in arrays, and where the data ended.
#[derive(Drop)]
pub struct Straight {
    pub columns: Vec<Growing>,
    pub end: RangeEnd,
}

/// Whether none of these columns of a schema has codes.
pub fn are_plain(schema: &Schema, places: &[usize]) -> bool
    requires { (k : ℕ) → k < length places.now → slice_index places.now k < length schema.now }
    ensures { result ≡ true → ArePlainAt schema.now places.now }
{
    for place in places {
        if let Kind::Codes = kind_of(schema.entry(*place).1) {
            return false;
        }
    }
    true
}

// How many times as many bytes as a first piece has a range has, and none behind it.
fn times_behind(rows: usize, to: usize, len: usize) -> usize {
    if rows == 0 && to > 0 { len / to } else { 0 }
}

// Reads the pieces at the front of a range into arrays that have no cells. A piece that does not end where an item does is read again
// with more behind it. Refuses only want of memory.
fn grow_pieces(
    alloc: Global,
    all: &mut [Growing],
    schema: &Schema,
    range: &[u8],
    plan: &RangePlan<'_>,
    size: usize,
) -> Result<Front, AllocError>
    requires dialect { IsDialect (marks_of plan.now.dialect) (comment_of plan.now.dialect) }
    requires width { plan.now.projection.width ≡ length schema.now }
    requires rising { AreRising 0 (length schema.now) plan.now.projection.places.now }
    requires readable { first_unreadable schema.now plan.now.projection.places.now ≡ None }
    requires texts { HaveTexts plan.now.options.null_values (length schema.now) }
    requires none { AreGrown (empty_columns (map (entry_at schema.now) plan.now.projection.places.now)) all.old }
    ensures { IfOk result (λ front. IsFrontGrown plan.now schema.now range.now all.new front.rows front.end) }
{
    let mut rows = 0;
    let mut end = 0;
    let mut wanted = size;
    'pieces: for _ in 0..PIECES {
        if end >= range.len() {
            break;
        }
        let to = piece_end(range, end, wanted, plan.dialect.eol_char);
        let Some(piece) = read_piece_frame(alloc, schema, &range[end..to], plan)? else {
            if to >= range.len() {
                break;
            }
            wanted = (to - end).saturating_mul(2);
            continue;
        };
        let Some(more) = usize::checked_add(rows, piece.rows) else {
            break;
        };
        if !is_below(plan.limit, more) {
            break;
        }
        grow_piece(all, piece.columns, times_behind(rows, to, range.len()))?;
        rows = more;
        end = to;
        wanted = size;
    }
    Ok(Front { rows, end })
}

// Reads what is left of a range, behind a front that stands in arrays, as its last part. Refuses only want of memory.
fn grow_rest(
    alloc: Global,
    all: &mut [Growing],
    schema: &Schema,
    range: &[u8],
    plan: &RangePlan<'_>,
    front: Front,
) -> Result<RangeEnd, AllocError>
    requires dialect { IsDialect (marks_of plan.now.dialect) (comment_of plan.now.dialect) }
    requires width { plan.now.projection.width ≡ length schema.now }
    requires rising { AreRising 0 (length schema.now) plan.now.projection.places.now }
    requires readable { first_unreadable schema.now plan.now.projection.places.now ≡ None }
    requires texts { HaveTexts plan.now.options.null_values (length schema.now) }
    requires front { IsFrontGrown plan.now schema.now range.now all.old front.rows front.end }
    ensures { IfOk result (λ end. IsRangeGrown plan.now schema.now range.now all.new end) }
{
    let last = plan_behind(plan, front.rows, plan.last);
    let left = read_columns(alloc, schema, &range[front.end..], &last)?;
    let RangeColumns { columns, end } = left;
    grow_all(all, columns)?;
    Ok(end_behind(front.rows, end))
}

/// Reads the records of a text into arrays, in pieces of about so many bytes: the cells that one pass over it gives, wherever it is
/// cut. Refuses only want of memory.
pub fn read_straight(
    alloc: Global,
    schema: &Schema,
    range: &[u8],
    plan: &RangePlan<'_>,
    size: usize,
) -> Result<Straight, AllocError>
    requires dialect { IsDialect (marks_of plan.now.dialect) (comment_of plan.now.dialect) }
    requires width { plan.now.projection.width ≡ length schema.now }
    requires rising { AreRising 0 (length schema.now) plan.now.projection.places.now }
    requires readable { first_unreadable schema.now plan.now.projection.places.now ≡ None }
    requires texts { HaveTexts plan.now.options.null_values (length schema.now) }
    ensures { IfOk result (λ read. IsRangeGrown plan.now schema.now range.now read.columns.items read.end) }
{
    let mut columns = all_empty(alloc, schema, plan.projection.places)?;
    let front = grow_pieces(alloc, &mut columns, schema, range, plan, size)?;
    let end = grow_rest(alloc, &mut columns, schema, range, plan, front)?;
    Ok(Straight { columns, end })
}
