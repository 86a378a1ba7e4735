//! Data read piece by piece, by the thread that calls: each piece into columns of its own, which are linked.
ghost use Rattle.std.specs.Prelude.{◌≡◌, ◌≤◌, ◌<◌, None, IfOk, length, map};
ghost use Rattle.pl_cells.specs.InitBuffers.{empty_buffers, entry_at, first_unreadable};
ghost use Rattle.pl_cells.specs.NullValues.{HaveTexts};
ghost use Rattle.pl_frame.specs.Dialect.{IsDialect};
ghost use Rattle.pl_frame.specs.FrameParts.{empty_columns};
ghost use Rattle.pl_rows.specs.Plan.{states, AreRising};
ghost use Rattle.pl_rows.specs.Ranges.{IsRangeRead};
ghost use Rattle.pl_rows.specs.Steps.{is_below};
ghost use Rattle.pl_rows.specs.WholePieces.{IsFrontLinked};
ghost use Rattle.pl_scan.specs.Dialect.{marks_of, comment_of};

use memchr::memchr;
use pl_cells::buffer::Buffer;
use pl_frame::schema::Schema;
use pl_frame::stack::Stack;
use pl_rows::columns::{RangeColumns, empty_buffers, read_columns};
use pl_rows::linking::{Front, link_left};
use pl_rows::pieces::plan_behind;
use pl_rows::plan::RangePlan;
use pl_rows::stack::{empty_stacks, push_columns};
use pl_rows::whole_pieces::read_packed;
use std::alloc::{AllocError, Global};

// So many pieces there are at most; what stands behind them is read as a whole.
const PIECES: usize = 1 << 40;

// Whether a number is below the limit, where there is one.
#[inline]
pub(crate) fn is_below(limit: Option<usize>, rows: usize) -> bool
    ensures { result ≡ is_below limit rows }
{
    match limit {
        Some(limit) => rows < limit,
        None => true,
    }
}

// Where a piece ends that begins at a place: behind the first line end that stands so far behind it, or where the range ends.
pub(crate) fn piece_end(range: &[u8], from: usize, size: usize, eol_char: u8) -> usize
    requires { from ≤ length range.now }
    ensures { (from ≤ result) × (result ≤ length range.now) }
{
    let len = range.len() - from;
    if size >= len {
        return range.len();
    }
    match memchr(eol_char, &range[from + size..]) {
        Some(at) => from + size + at + 1,
        None => range.len(),
    }
}

// Reads the pieces at the front of a range and links them, by buffers that have no cells. A piece that does not end where an item does
// is read again with more behind it. Refuses only want of memory.
fn link_pieces(
    alloc: Global,
    stacks: &mut [Stack],
    buffers: &mut [Buffer],
    schema: &Schema,
    range: &[u8],
    plan: &RangePlan<'_>,
    size: usize,
) -> Result<Front, AllocError>
    requires dialect { IsDialect (marks_of plan.now.dialect) (comment_of plan.now.dialect) }
    requires width { plan.now.projection.width ≡ length schema.now }
    requires rising { AreRising 0 (length schema.now) plan.now.projection.places.now }
    requires texts { HaveTexts plan.now.options.null_values (length schema.now) }
    requires empty { states buffers.old ≡ empty_buffers plan.now.dialect.quote_char plan.now.options.encoding schema.now plan.now.projection.places.now }
    requires none { stacks.old ≡ empty_columns (map (entry_at schema.now) plan.now.projection.places.now) }
    ensures { IfOk result (λ front. IsFrontLinked plan.now schema.now range.now stacks.new front.rows front.end) }
{
    let mut rows = 0;
    let mut end = 0;
    let mut wanted = size;
    'pieces: for _ in 0..PIECES {
        if end >= range.len() {
            break;
        }
        let to = piece_end(range, end, wanted, plan.dialect.eol_char);
        let Some(piece) = read_packed(alloc, buffers, schema, &range[end..to], plan)? else {
            if to >= range.len() {
                break;
            }
            wanted = (to - end).saturating_mul(2);
            continue;
        };
        let Some(more) = usize::checked_add(rows, piece.rows) else {
            break;
        };
        if !is_below(plan.limit, more) {
            break;
        }
        push_columns(stacks, piece.columns)?;
        rows = more;
        end = to;
        wanted = size;
    }
    Ok(Front { rows, end })
}

// Reads what is left of a range, behind a front whose columns are linked, as its last part, and gives the columns of the whole range.
// Refuses only want of memory.
fn link_rest(
    alloc: Global,
    schema: &Schema,
    stacks: Vec<Stack>,
    range: &[u8],
    plan: &RangePlan<'_>,
    front: Front,
) -> Result<RangeColumns, AllocError>
    requires dialect { IsDialect (marks_of plan.now.dialect) (comment_of plan.now.dialect) }
    requires width { plan.now.projection.width ≡ length schema.now }
    requires rising { AreRising 0 (length schema.now) plan.now.projection.places.now }
    requires readable { first_unreadable schema.now plan.now.projection.places.now ≡ None }
    requires texts { HaveTexts plan.now.options.null_values (length schema.now) }
    requires front { IsFrontLinked plan.now schema.now range.now stacks.items front.rows front.end }
    ensures { IfOk result (IsRangeRead plan.now schema.now range.now) }
{
    let last = plan_behind(plan, front.rows, plan.last);
    let left = read_columns(alloc, schema, &range[front.end..], &last)?;
    link_left(alloc, schema, stacks, plan, front, left)
}

/// Reads the records of a text into columns of a schema, in pieces of about so many bytes: what one pass over it gives, wherever it is
/// cut. Refuses only want of memory.
pub fn read_in_pieces(
    alloc: Global,
    schema: &Schema,
    range: &[u8],
    plan: &RangePlan<'_>,
    size: usize,
) -> Result<RangeColumns, AllocError>
    requires dialect { IsDialect (marks_of plan.now.dialect) (comment_of plan.now.dialect) }
    requires width { plan.now.projection.width ≡ length schema.now }
    requires rising { AreRising 0 (length schema.now) plan.now.projection.places.now }
    requires readable { first_unreadable schema.now plan.now.projection.places.now ≡ None }
    requires texts { HaveTexts plan.now.options.null_values (length schema.now) }
    ensures { IfOk result (IsRangeRead plan.now schema.now range.now) }
{
    let places = plan.projection.places;
    let quote_char = plan.dialect.quote_char;
    let mut buffers = empty_buffers(alloc, schema, places, quote_char, plan.options.encoding)?;
    let mut stacks = empty_stacks(alloc, schema, places)?;
    let front = link_pieces(alloc, &mut stacks, &mut buffers, schema, range, plan, size)?;
    drop(buffers);
    link_rest(alloc, schema, stacks, range, plan, front)
}
