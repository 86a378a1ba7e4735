//! Rows of a range, many at a time: a block is cut into a table, whose columns are read one after another.
ghost use Rattle.std.specs.Prelude.{◌≡◌, ◌≤◌, ◌<◌, ◌+◌, ◌^◌, IsTrue, false, suc, length, take};
ghost use Rattle.std.specs.List.{AllByRecursion};
ghost use Rattle.pl_cells.specs.InitBuffers.{state_of};
ghost use Rattle.pl_cells.specs.NullValues.{HaveTexts};
ghost use Rattle.pl_table.specs.Tables.{AreWithin};
ghost use Rattle.pl_rows.specs.Blocks.{within_limit, HasReadRows, HasAddedColumn, HaveAllColumns, HaveAllRows, IsBlockRead};
ghost use Rattle.pl_rows.specs.Plan.{states, rules_of, FollowsRules, CanRead};
ghost use Rattle.pl_table.specs.Rows.{table_rows};

use crate::cut_back::cut_back;
use crate::plan::RangePlan;
use crate::range::is_below;
use pl_cells::buffer::Buffer;
use pl_table::table::Table;
use std::alloc::Global;

// So many bytes are cut at a time.
const BLOCK: usize = 1 << 16;

// Twice as many are cut where a record has more, but no more than twice these.
const LONGEST: usize = 1 << 28;

/// How many rows of a range were read, and what is left behind them.
#[derive(Clone, Copy)]
pub(crate) struct Progress<'a> {
    pub(crate) row: usize,
    pub(crate) rest: &'a [u8],
}

/// What came of a block.
#[derive(Clone, Copy)]
pub enum BlockRead {
    /// So many rows were read, and the records that the block has take so many bytes.
    Rows { taken: usize, size: usize },
    /// No record ends in the block.
    NoRow,
    /// A row has a fault, or memory was wanting.
    Stopped,
}

// Adds the cells of a column of the first records of a table to its buffer. Where one has a fault or memory is wanting, the
// buffer is as it was.
#[inline]
fn add_column(
    buffer: &mut Buffer,
    column: usize,
    block: &[u8],
    table: &Table,
    rows: usize,
    plan: &RangePlan<'_>,
) -> bool
    requires rules { FollowsRules (rules_of plan.now) (state_of buffer.old) }
    requires texts { HaveTexts plan.now.options.null_values (suc column) }
    requires within { AreWithin (length block.now) table.now }
    requires rows { rows ≤ length table.now }
    ensures added { IsTrue result → HasAddedColumn plan.now column (take rows (table_rows block.now table.now)) (state_of buffer.old) (state_of buffer.new) }
    ensures kept { result ≡ false → state_of buffer.new ≡ state_of buffer.old }
{
    let len = buffer.len();
    let options = plan.options;
    let added = buffer.add_column(
        block,
        table,
        rows,
        plan.dialect.quote_char,
        options.null_values,
        column,
        options.ignore_errors,
        options.missing_is_null,
    );
    match added {
        Ok(()) => true,
        Err(_) => {
            buffer.truncate(len);
            false
        }
    }
}

// Adds the cells of the first records of a table to the buffers, a column at a time. Where one has a fault or memory is wanting,
// the buffers are as they were.
fn add_columns(
    buffers: &mut [Buffer],
    block: &[u8],
    table: &Table,
    rows: usize,
    plan: &RangePlan<'_>,
) -> bool
    requires can { CanRead plan.now (states buffers.old) }
    requires within { AreWithin (length block.now) table.now }
    requires rows { rows ≤ length table.now }
    ensures added { IsTrue result → HaveAllColumns plan.now (take rows (table_rows block.now table.now)) (states buffers.old) (states buffers.new) }
    ensures kept { result ≡ false → states buffers.new ≡ states buffers.old }
{
    let places = plan.projection.places;
    for index in 0..buffers.len() {
        if !add_column(&mut buffers[index], places[index], block, table, rows, plan) {
            cut_back(buffers, index, rows);
            return false;
        }
    }
    true
}

// Whether one of the first records of a table has more fields than so many.
fn has_excess(table: &Table, rows: usize, width: usize) -> bool
    requires { rows ≤ length table.now }
    ensures { result ≡ false → AllByRecursion (λ fields. length fields ≤ width) (take rows table.now) }
{
    for row in 0..rows {
        if table.width(row) > width {
            return true;
        }
    }
    false
}

// Adds the first records of a table to the buffers, as rows. Where one has a fault or memory is wanting, the buffers are as they
// were.
fn add_rows(
    buffers: &mut [Buffer],
    block: &[u8],
    table: &Table,
    rows: usize,
    plan: &RangePlan<'_>,
) -> bool
    requires can { CanRead plan.now (states buffers.old) }
    requires within { AreWithin (length block.now) table.now }
    requires rows { rows ≤ length table.now }
    ensures added { IsTrue result → HaveAllRows plan.now (take rows (table_rows block.now table.now)) (states buffers.old) (states buffers.new) }
    ensures kept { result ≡ false → states buffers.new ≡ states buffers.old }
{
    if plan.passes_more() {
        return add_columns(buffers, block, table, rows, plan);
    }
    if has_excess(table, rows, plan.projection.width) {
        return false;
    }
    add_columns(buffers, block, table, rows, plan)
}

// How many of so many rows more are below the limit, behind others.
#[inline]
fn within_limit(limit: Option<usize>, row: usize, count: usize) -> usize
    ensures is { result ≡ within_limit limit row count }
    ensures few { result ≤ count }
{
    match limit {
        Some(limit) if count >= limit.saturating_sub(row) => limit.saturating_sub(row),
        _ => count,
    }
}

// Reads the records that end in a block into the buffers, behind so many rows.
fn read_block(
    buffers: &mut [Buffer],
    table: &mut Table,
    block: &[u8],
    row: usize,
    plan: &RangePlan<'_>,
) -> BlockRead
    requires can { CanRead plan.now (states buffers.old) }
    requires short { length block.now + 64 < 2 ^ 30 }
    ensures { IsBlockRead plan.now row block.now (states buffers.old) (states buffers.new) result }
{
    let size = match table.cut(block, &plan.dialect) {
        Ok(size) => size,
        Err(_) => return BlockRead::Stopped,
    };
    if table.len() == 0 {
        return BlockRead::NoRow;
    }
    let taken = within_limit(plan.limit, row, table.len());
    if add_rows(buffers, block, table, taken, plan) {
        BlockRead::Rows { taken, size }
    } else {
        BlockRead::Stopped
    }
}

/// Reads rows of a range into the buffers, a block at a time, as long as none has a fault: those up to its last line end, where
/// nothing is in the way. A range with comments is left as it is.
pub(crate) fn read_blocks<'a>(
    alloc: Global,
    buffers: &mut [Buffer],
    range: &'a [u8],
    plan: &RangePlan<'_>,
) -> Progress<'a>
    requires { CanRead plan.now (states buffers.old) }
    ensures { HasReadRows plan.now range.now (states buffers.old) (states buffers.new) result.rest.now result.row }
{
    let mut at = Progress {
        row: 0,
        rest: range,
    };
    if plan.dialect.comment_prefix.is_some() {
        return at;
    }
    let mut table = Table::new(alloc);
    let mut longest = BLOCK;
    for _ in 0..usize::MAX {
        if !is_below(plan.limit, at.row) {
            break;
        }
        let block = &at.rest[..at.rest.len().min(longest)];
        match read_block(buffers, &mut table, block, at.row, plan) {
            BlockRead::Rows { taken, size } => {
                at = Progress {
                    row: at.row + taken,
                    rest: &at.rest[size..],
                };
                continue;
            }
            BlockRead::NoRow if longest <= LONGEST && longest < at.rest.len() => {}
            BlockRead::NoRow | BlockRead::Stopped => return at,
        }
        longest *= 2;
    }
    at
}
