//! Rows of a stream, read into a frame.
ghost use Rattle.std.specs.Prelude.{◌≡◌, ◌<◌, ◌+◌, ◌^◌, List, length, None, IfOk, OnOk, IfErr};
ghost use Rattle.pl_frame.specs.Schema.{HaveDistinctNames};
ghost use Rattle.pl_cells.specs.NullValues.{HaveTexts};
ghost use Rattle.pl_options.specs.declared.read_options.CsvReadOptions.{CsvReadOptions};
ghost use Rattle.pl_read.specs.Batches.{frame_behind};
ghost use Rattle.pl_read.specs.Projection.{projected};
ghost use Rattle.pl_read.specs.Refusals.{numbers_past};
ghost use Rattle.pl_read.specs.SettleGiven.{given_schema, IsSettled};
ghost use Rattle.pl_seek.specs.Parts.{fault_in_rows};
ghost use Rattle.pl_seek.specs.PartSteps.{AreRead, AreColumns};
ghost use Rattle.pl_table.specs.Rows.{Row};
ghost use Rattle.pl_stream.specs.Options.{first_categorical};
ghost use Rattle.pl_stream.specs.Printing.{CanStream, IsStreamPlan, IsRowsFault, first_rows, rows_cause};

use crate::checking::fault_of;
use crate::fault::StreamFault;
use pl_frame::column::Column;
use pl_frame::error::{ComputeFault, PolarsError};
use pl_frame::frame::DataFrame;
use pl_options::read_options::CsvReadOptions;
use pl_read::indexing::with_index_behind;
use pl_read::settle_given::Settled;
use pl_rows::columns::{RangeColumns, read_columns};
use pl_rows::plan::{Projection, RangePlan, RowOptions};
use pl_rows::range::RangeEnd;
use std::alloc::{AllocError, Global};

/// How records are read, up to a limit.
pub(crate) fn plan_in<'a>(
    read: &'a CsvReadOptions,
    settled: &'a Settled,
    limit: Option<usize>,
) -> RangePlan<'a>
    requires { IsSettled read.now (given_schema read.now) settled.now }
    ensures plan { IsStreamPlan result read.now limit }
    ensures texts { HaveTexts result.options.null_values (length (given_schema read.now)) }
    ensures distinct { HaveDistinctNames (given_schema read.now) }
{
    let parse_options = &read.parse_options;
    RangePlan {
        dialect: parse_options.dialect(),
        projection: Projection {
            places: &settled.projection,
            width: settled.schema.len(),
        },
        options: RowOptions {
            null_values: settled.null_values.as_ref(),
            encoding: parse_options.encoding,
            missing_is_null: parse_options.missing_is_null,
            ignore_errors: read.ignore_errors,
            truncate_ragged_lines: parse_options.truncate_ragged_lines,
        },
        limit,
        last: true,
    }
}

// Reads the first records of a text, so many at most, into columns. Refuses only want of memory.
fn read_records(
    alloc: Global,
    text: &[u8],
    read: &CsvReadOptions,
    settled: &Settled,
    count: usize,
) -> Result<RangeColumns, AllocError>
    requires { CanStream read.now settled.now }
    ensures { IfOk result (AreRead read.now (first_rows read.now count text.now)) }
{
    let plan = plan_in(read, settled, Some(count));
    read_columns(alloc, &settled.schema, text, &plan)
}

// The columns of rows that were read, or the first fault of one of them, where so many records stand in front of them.
fn columns_of(read: RangeColumns, before: usize) -> Result<Vec<Column>, StreamFault>
    requires read { (o : CsvReadOptions) × (given : List Row) × AreRead o given read × (before + length given < 2 ^ 64) }
    ensures columns { (o : CsvReadOptions) (given : List Row) → AreRead o given read → IfOk result (λ columns. AreColumns o given columns.items) }
    ensures sound { (o : CsvReadOptions) (given : List Row) → AreRead o given read → OnOk result (fault_in_rows o before given ≡ None) }
    ensures refused { (o : CsvReadOptions) (given : List Row) → AreRead o given read → IfErr result (IsRowsFault (fault_in_rows o before given)) }
{
    let RangeColumns { columns, end } = read;
    match end {
        RangeEnd::Fault { row, column, kind } => {
            drop(columns);
            let row = before + row;
            let record = ComputeFault::Record { row, column, kind };
            Err(StreamFault::Polars(PolarsError::ComputeError(record)))
        }
        RangeEnd::Closed | RangeEnd::Open => Ok(columns),
    }
}

// Columns of rows behind so many others, with their numbers. Refuses the last number that does not fit 64 bits, and want of memory.
fn with_numbers(
    alloc: Global,
    read: &CsvReadOptions,
    before: usize,
    columns: Vec<Column>,
) -> Result<DataFrame, StreamFault>
    requires columns { (given : List Row) × AreColumns read.now given columns.items × (before + length given < 2 ^ 64) }
    requires uncoded { first_categorical read.now ≡ None }
    requires some { 0 < length (projected read.now (given_schema read.now)) }
    ensures frame { (given : List Row) → AreColumns read.now given columns.items → IfOk result (λ frame. frame ≡ frame_behind read.now (given_schema read.now) before given) }
    ensures sound { (given : List Row) → AreColumns read.now given columns.items → OnOk result (numbers_past read.now.row_index (before + length given) ≡ None) }
    ensures refused { (given : List Row) → AreColumns read.now given columns.items → IfErr result (IsRowsFault (numbers_past read.now.row_index (before + length given))) }
{
    match with_index_behind(alloc, read.row_index.as_ref(), before, columns) {
        Ok(frame) => Ok(frame),
        Err(fault) => Err(fault_of(fault)),
    }
}

/// The frame of the first records of a text, so many at most, behind so many others, with their numbers. Refuses the first fault of the least
/// of them that has one, else the last number that does not fit 64 bits, and want of memory.
pub(crate) fn frame_behind(
    alloc: Global,
    text: &[u8],
    read: &CsvReadOptions,
    settled: &Settled,
    before: usize,
    count: usize,
) -> Result<DataFrame, StreamFault>
    requires can { CanStream read.now settled.now }
    requires fits { before + length (first_rows read.now count text.now) < 2 ^ 64 }
    ensures frame { IfOk result (λ frame. frame ≡ frame_behind read.now (given_schema read.now) before (first_rows read.now count text.now)) }
    ensures sound { OnOk result (rows_cause read.now before (first_rows read.now count text.now) ≡ None) }
    ensures refused { IfErr result (IsRowsFault (rows_cause read.now before (first_rows read.now count text.now))) }
{
    let Ok(found) = read_records(alloc, text, read, settled, count) else {
        return Err(StreamFault::OutOfMemory);
    };
    match columns_of(found, before) {
        Ok(columns) => with_numbers(alloc, read, before, columns),
        Err(fault) => Err(fault),
    }
}
