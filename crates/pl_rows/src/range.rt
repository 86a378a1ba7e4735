//! A range of records into buffers.
ghost use Rattle.std.specs.Prelude.{◌≡◌, ◌+◌, drop, OnOk, IfOk, OnErr, not, ◌==◌};
ghost use Rattle.std.specs.List.{prefix_len};
ghost use Rattle.pl_rows.specs.Plan.{states, plan_columns, CanRead};
ghost use Rattle.pl_rows.specs.Blocks.{HasReadRange};
ghost use Rattle.pl_rows.specs.Ranges.{range_end, with_range};
ghost use Rattle.pl_rows.specs.Steps.{is_below};

use crate::blocks::read_blocks;
use crate::cut_back::cut_back;
use crate::plan::RangePlan;
use crate::row::{RowRead, read_row};
use memchr::memchr;
use pl_cells::buffer::Buffer;
use pl_frame::error::FaultKind;
use pl_scan::comment::is_comment_line;
use std::alloc::{AllocError, Global};

/// Where the reading of a range ended.
#[derive(Clone, Copy, Debug, PartialEq, Eq)]
pub enum RangeEnd {
    /// Behind all of its rows.
    Closed,
    /// Before its last row, which ends within a quoted field and is not judged.
    Open,
    /// Before the least row that has a fault, by its number from 0, with its first fault.
    Fault {
        row: usize,
        column: usize,
        kind: FaultKind,
    },
}

// Whether a number is below the limit, where there is one.
#[inline]
pub(crate) fn is_below(limit: Option<usize>, row: usize) -> bool
    ensures { result ≡ is_below limit row }
{
    match limit {
        Some(limit) => row < limit,
        None => true,
    }
}

// What stands behind a line end at the front.
#[inline]
fn behind_line_end(behind: &[u8]) -> &[u8]
    ensures { result.now ≡ drop 1 behind.now }
{
    match behind {
        [_, next @ ..] => next,
        [] => behind,
    }
}

// What stands behind the line at the front and its line end.
fn behind_comment(bytes: &[u8], eol_char: u8) -> &[u8]
    ensures { result.now ≡ drop (prefix_len (λ x. not (x == eol_char)) bytes.now + 1) bytes.now }
{
    match memchr(eol_char, bytes) {
        Some(at) => &bytes[at + 1..],
        None => &[],
    }
}

/// What reading a range gave: where it ended, and how many rows the buffers gained.
#[derive(Clone, Copy)]
pub(crate) struct RangeRead {
    pub(crate) end: RangeEnd,
    pub(crate) rows: usize,
}

/// Reads the records of a range into the buffers, as `read_range` does, and counts the rows that they gain.
pub(crate) fn read_counted(
    alloc: Global,
    buffers: &mut [Buffer],
    range: &[u8],
    plan: &RangePlan<'_>,
) -> Result<RangeRead, AllocError>
    requires { CanRead plan.now (states buffers.old) }
    ensures read { IfOk result (λ read. HasReadRange plan.now range.now (states buffers.old) (states buffers.new) read.end read.rows) }
    ensures kept { OnErr result (states buffers.new ≡ states buffers.old) }
{
    let front = read_blocks(alloc, buffers, range, plan);
    let mut rest = front.rest;
    let mut row = front.row;
    while !rest.is_empty() && is_below(plan.limit, row) {
        if is_comment_line(rest, plan.dialect.comment_prefix) {
            rest = behind_comment(rest, plan.dialect.eol_char);
            continue;
        }
        match read_row(buffers, rest, plan) {
            RowRead::Read(behind) => rest = behind_line_end(behind),
            RowRead::Open => {
                return Ok(RangeRead {
                    end: RangeEnd::Open,
                    rows: row,
                });
            }
            RowRead::Fault { column, kind } => {
                return Ok(RangeRead {
                    end: RangeEnd::Fault { row, column, kind },
                    rows: row,
                });
            }
            RowRead::OutOfMemory => {
                cut_back(buffers, buffers.len(), row);
                return Err(AllocError);
            }
        }
        row += 1;
    }
    Ok(RangeRead {
        end: RangeEnd::Closed,
        rows: row,
    })
}

/// Reads the records of a range into the buffers, one for each projected column, a row each; comments give no row. Its first
/// byte is where an item starts, and its last byte counts as the last of the input.
///
/// The buffers gain the cells of the judged rows before the first that has a fault. Refuses only want of memory; the buffers
/// are then as they were.
pub fn read_range(
    alloc: Global,
    buffers: &mut [Buffer],
    range: &[u8],
    plan: &RangePlan<'_>,
) -> Result<RangeEnd, AllocError>
    requires { CanRead plan.now (states buffers.old) }
    ensures end { IfOk result (λ end. end ≡ range_end plan.now (plan_columns plan.now (states buffers.old)) range.now) }
    ensures added { OnOk result (states buffers.new ≡ with_range plan.now range.now (states buffers.old)) }
    ensures kept { OnErr result (states buffers.new ≡ states buffers.old) }
{
    match read_counted(alloc, buffers, range, plan) {
        Ok(read) => Ok(read.end),
        Err(fault) => Err(fault),
    }
}
