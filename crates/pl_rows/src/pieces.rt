//! Pieces of a text into buffers, and how what is left behind them is read.
ghost use Rattle.std.specs.Prelude.{◌≡◌, ◌&&◌, false, Some, None, IfOk, OnErr};
ghost use Rattle.pl_rows.specs.Pieces.{is_ended, is_closed, IsRowFit, plan_behind, end_behind, IsPieceRead};
ghost use Rattle.pl_rows.specs.Plan.{states, CanRead};
ghost use Rattle.pl_rows.specs.Steps.{is_below};

use crate::cut_back::cut_back;
use crate::plan::RangePlan;
use crate::range::{RangeEnd, RangeRead, is_below, read_counted};
use pl_cells::buffer::Buffer;
use std::alloc::{AllocError, Global};

// Whether a text is empty, or this is its last byte.
fn ends_with(bytes: &[u8], byte: u8) -> bool
    ensures { result ≡ is_ended byte bytes.now }
{
    match bytes {
        [.., last] => *last == byte,
        [] => true,
    }
}

// Whether a piece was read behind all of its rows, and these are fewer than the limit.
fn is_whole(read: RangeRead, limit: Option<usize>) -> bool
    ensures { result ≡ (is_closed read.end && is_below limit read.rows) }
{
    match read.end {
        RangeEnd::Closed => is_below(limit, read.rows),
        RangeEnd::Open | RangeEnd::Fault { .. } => false,
    }
}

/// Reads a piece into the buffers, and counts its rows. None where it does not end where an item does, a row of it has a fault or its rows
/// are as many as the limit; the buffers are then as they were. A piece without a line end at its end is not looked at.
pub(crate) fn read_piece(
    alloc: Global,
    buffers: &mut [Buffer],
    piece: &[u8],
    plan: &RangePlan<'_>,
) -> Result<Option<usize>, AllocError>
    requires can { CanRead plan.now (states buffers.old) }
    requires before { plan.now.last ≡ false }
    ensures read { IfOk result (IsPieceRead plan.now piece.now (states buffers.old) (states buffers.new)) }
    ensures kept { OnErr result (states buffers.new ≡ states buffers.old) }
{
    if !ends_with(piece, plan.dialect.eol_char) {
        return Ok(None);
    }
    let read = match read_counted(alloc, buffers, piece, plan) {
        Ok(read) => read,
        Err(fault) => return Err(fault),
    };
    if is_whole(read, plan.limit) {
        return Ok(Some(read.rows));
    }
    cut_back(buffers, buffers.len(), read.rows);
    Ok(None)
}

/// How what is left is read behind so many rows, as the last of the input or not: the limit of rows is so many lower. Takes no memory.
pub fn plan_behind<'a>(plan: &RangePlan<'a>, rows: usize, last: bool) -> RangePlan<'a>
    ensures { result ≡ plan_behind plan.now rows last }
{
    let limit = match plan.limit {
        Some(limit) => Some(limit.saturating_sub(rows)),
        None => None,
    };
    RangePlan {
        dialect: plan.dialect,
        projection: plan.projection,
        options: plan.options,
        limit,
        last,
    }
}

/// Where a range ended whose rows stand behind so many others. Takes no memory.
pub fn end_behind(rows: usize, end: RangeEnd) -> RangeEnd
    requires { IsRowFit rows end }
    ensures { result ≡ end_behind rows end }
{
    match end {
        RangeEnd::Fault { row, column, kind } => RangeEnd::Fault {
            row: rows + row,
            column,
            kind,
        },
        RangeEnd::Closed => RangeEnd::Closed,
        RangeEnd::Open => RangeEnd::Open,
    }
}
