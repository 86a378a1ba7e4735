//! The row index of rows that stand behind others.
ghost use Rattle.std.specs.Prelude.{◌≡◌, ℕ, ◌<◌, ◌+◌, ◌^◌, nat_lt, if◌then◌else◌, None, IfOk, OnOk, IfErr};
ghost use Rattle.std.specs.Option.{option_copied};
ghost use Rattle.pl_frame.specs.Frame.{IsFrame, height_of};
ghost use Rattle.pl_read.specs.Batches.{index_behind};
ghost use Rattle.pl_read.specs.Rows.{with_index};
ghost use Rattle.pl_seek.specs.Parts.{IsReadFault};
ghost use Rattle.pl_seek.specs.Checking.{fault_of};
ghost use Rattle.pl_seek.specs.SliceSteps.{up_to, past_behind};
ghost use Rattle.pl_seek.specs.declared.fault.SeekFault.TheVariants as fault;

use crate::checking::fault_of;
use crate::fault::SeekFault;
use pl_frame::column::Column;
use pl_frame::error::PolarsError;
use pl_frame::frame::DataFrame;
use pl_options::row_index::RowIndex;
use pl_read::indexing::{rows_of, with_index_behind};
use std::alloc::Global;

// How many rows stand in front, or none where there are no rows.
fn before_rows(before: usize, rows: usize) -> usize
    ensures { result + rows ≡ up_to before rows }
{
    if rows == 0 { 0 } else { before }
}

// The refusal for a cause against rows. Where there are none, no number and no code is past its bound: only memory can be wanting.
fn fault_against(rows: usize, cause: PolarsError) -> SeekFault
    ensures { result ≡ (if nat_lt 0 rows then fault_of cause else fault.OutOfMemory) }
{
    if rows > 0 {
        fault_of(cause)
    } else {
        drop(cause);
        SeekFault::OutOfMemory
    }
}

/// The frame of columns behind their row index, where one is asked, whose numbers begin so many later. Refuses the last number that
/// does not fit 64 bits, or else the last code of the first column that does not fit 32, and want of memory.
pub(crate) fn numbered(
    alloc: Global,
    index: Option<&RowIndex>,
    before: usize,
    columns: Vec<Column>,
) -> Result<DataFrame, SeekFault>
    requires fits { before + height_of columns.items < 2 ^ 64 }
    requires frame { (before : ℕ) → IsFrame (with_index (index_behind before (option_copied index)) (height_of columns.items) columns.items) }
    ensures frame { IfOk result (λ frame. frame ≡ with_index (index_behind before (option_copied index.entry)) (height_of columns.items) columns.items) }
    ensures sound { OnOk result (past_behind (option_copied index.entry) before columns.items ≡ None) }
    ensures refused { IfErr result (IsReadFault (past_behind (option_copied index.entry) before columns.items)) }
{
    let rows = rows_of(&columns);
    let front = before_rows(before, rows);
    match with_index_behind(alloc, index, front, columns) {
        Ok(frame) => Ok(frame),
        Err(cause) => Err(fault_against(rows, cause)),
    }
}
