//! Records of a part of an input, read alone.
ghost use Rattle.std.specs.Prelude.{◌≡◌, ◌<◌, ◌+◌, ◌^◌, List, length, drop, None, IfOk, OnOk, IfErr, IsOkUnless, IsSome};
ghost use Rattle.pl_frame.specs.Dialect.{AreDistinct};
ghost use Rattle.pl_frame.specs.Schema.{HaveDistinctNames};
ghost use Rattle.pl_cells.specs.NullValues.{HaveTexts};
ghost use Rattle.pl_rows.specs.declared.columns.RangeColumns.{RangeColumns};
ghost use Rattle.pl_scan.specs.Dialect.{marks_of, comment_of};
ghost use Rattle.pl_table.specs.Rows.{Row, rows};
ghost use Rattle.pl_options.specs.declared.read_options.CsvReadOptions.{CsvReadOptions};
ghost use Rattle.pl_options.specs.FirstCause.{IsFirstCause};
ghost use Rattle.pl_read.specs.SettleGiven.{given_schema, given_causes, IsSettled};
ghost use Rattle.pl_seek.specs.Parts.{CanReadPart, rows_from, columns_of_rows, fault_in_rows, IsReadFault};
ghost use Rattle.pl_seek.specs.PartSteps.{one_unless, IsPartPlan, AreRead, AreColumns};
ghost use Rattle.pl_seek.specs.declared.fault.SeekFault.TheVariants as fault;

use crate::fault::SeekFault;
use crate::places::{behind_item, front_item};
use pl_frame::column::Column;
use pl_frame::error::{ComputeFault, PolarsError};
use pl_frame::frame::DataFrame;
use pl_options::read_options::CsvReadOptions;
use pl_read::settle_given::{Settled, settle_given};
use pl_rows::columns::{RangeColumns, read_columns};
use pl_rows::plan::{Projection, RangePlan, RowOptions};
use pl_rows::range::RangeEnd;
use pl_scan::dialect::Dialect;
use std::alloc::{AllocError, Global};

// How many records an item is.
#[inline]
fn one_unless(is_comment: bool) -> usize
    ensures { result ≡ one_unless is_comment }
{
    if is_comment { 0 } else { 1 }
}

// What stands behind so many records, or nothing where there are fewer.
fn behind_records<'a>(part: &'a [u8], dialect: &Dialect<'_>, count: usize) -> &'a [u8]
    requires { AreDistinct (marks_of dialect.now) }
    ensures { rows (marks_of dialect.now) (comment_of dialect.now) result.now ≡ drop count (rows (marks_of dialect.now) (comment_of dialect.now) part.now) }
{
    let mut left = count;
    let mut rest = part;
    while left > 0 && !rest.is_empty() {
        let (is_comment, len) = front_item(rest, dialect);
        left -= one_unless(is_comment);
        rest = behind_item(rest, len);
    }
    rest
}

// How at most so many records of a part are read, by what a read under a given schema goes by.
fn plan_of<'a>(read: &'a CsvReadOptions, settled: &'a Settled, count: usize) -> RangePlan<'a>
    requires { IsSettled read.now (given_schema read.now) settled.now }
    ensures plan { IsPartPlan result read.now count }
    ensures texts { HaveTexts result.options.null_values (length (given_schema read.now)) }
    ensures distinct { HaveDistinctNames (given_schema read.now) }
{
    let parse_options = &read.parse_options;
    RangePlan {
        dialect: parse_options.dialect(),
        projection: Projection {
            places: &settled.projection,
            width: settled.schema.len(),
        },
        options: RowOptions {
            null_values: settled.null_values.as_ref(),
            encoding: parse_options.encoding,
            missing_is_null: parse_options.missing_is_null,
            ignore_errors: read.ignore_errors,
            truncate_ragged_lines: parse_options.truncate_ragged_lines,
        },
        limit: Some(count),
        last: true,
    }
}

// Reads the records of a part from one on, at most so many, into columns. Refuses only want of memory.
fn read_records(
    alloc: Global,
    part: &[u8],
    read: &CsvReadOptions,
    settled: &Settled,
    skip: usize,
    length: usize,
) -> Result<RangeColumns, AllocError>
    requires settled { IsSettled read.now (given_schema read.now) settled.now }
    requires sound { IsFirstCause (given_causes read.now) read.now.parse_options None }
    ensures { IfOk result (AreRead read.now (rows_from read.now skip length part.now)) }
{
    let plan = plan_of(read, settled, length);
    let rest = behind_records(part, &plan.dialect, skip);
    read_columns(alloc, &settled.schema, rest, &plan)
}

// The columns of rows that were read, or the first fault of one of them, where so many records stand in front of them.
fn columns_of(read: RangeColumns, before: usize) -> Result<Vec<Column>, SeekFault>
    requires read { (o : CsvReadOptions) × (given : List Row) × AreRead o given read × (before + length given < 2 ^ 64) }
    ensures columns { (o : CsvReadOptions) (given : List Row) → AreRead o given read → IfOk result (λ columns. AreColumns o given columns.items) }
    ensures sound { (o : CsvReadOptions) (given : List Row) → AreRead o given read → OnOk result (fault_in_rows o before given ≡ None) }
    ensures refused { (o : CsvReadOptions) (given : List Row) → AreRead o given read → IfErr result (IsReadFault (fault_in_rows o before given)) }
{
    let RangeColumns { columns, end } = read;
    match end {
        RangeEnd::Fault { row, column, kind } => {
            drop(columns);
            let row = before + row;
            let record = ComputeFault::Record { row, column, kind };
            Err(SeekFault::Polars(PolarsError::ComputeError(record)))
        }
        RangeEnd::Closed | RangeEnd::Open => Ok(columns),
    }
}

/// The columns of the records of a part from number `skip` on, at most so many, each cell from its field; `before` is the number of the
/// first of them where a fault is told. Refuses the first fault of the least of them that has one, and want of memory.
pub(crate) fn part_columns(
    alloc: Global,
    part: &[u8],
    read: &CsvReadOptions,
    skip: usize,
    count: usize,
    before: usize,
) -> Result<Vec<Column>, SeekFault>
    requires given { IsSome read.now.schema }
    requires fits { before + length (rows_from read.now skip count part.now) < 2 ^ 64 }
    ensures columns { IfOk result (λ columns. AreColumns read.now (rows_from read.now skip count part.now) columns.items) }
    ensures sound { OnOk result (fault_in_rows read.now before (rows_from read.now skip count part.now) ≡ None) }
    ensures refused { IfErr result (IsReadFault (fault_in_rows read.now before (rows_from read.now skip count part.now))) }
{
    let settled = match settle_given(alloc, read) {
        Ok(settled) => settled,
        Err(_) => return Err(SeekFault::OutOfMemory),
    };
    let found = read_records(alloc, part, read, &settled, skip, count);
    drop(settled);
    match found {
        Ok(found) => columns_of(found, before),
        Err(_) => Err(SeekFault::OutOfMemory),
    }
}

/// The records of a part of an input from number `skip` on, at most `length`, read alone into a frame, without a row index. The part is
/// read as a text of its own: its first byte is where an item begins, and only its bytes are looked at. Only those records are judged.
/// It takes no runtime and waits for nothing, so that threads, processes and machines of a host can call it on bytes alone.
///
/// Refuses the first fault of the least of those records that has one, which it counts from the first record of the part, and want of
/// memory.
pub fn read_part(
    alloc: Global,
    part: &[u8],
    read: &CsvReadOptions,
    skip: usize,
    length: usize,
    last: bool,
) -> Result<DataFrame, SeekFault>
    requires { CanReadPart read.now part.now last }
    ensures frame { IfOk result (λ frame. frame ≡ columns_of_rows read.now (rows_from read.now skip length part.now)) }
    ensures sound { OnOk result (fault_in_rows read.now skip (rows_from read.now skip length part.now) ≡ None) }
    ensures refused { IfErr result (IsReadFault (fault_in_rows read.now skip (rows_from read.now skip length part.now))) }
{
    let columns = part_columns(alloc, part, read, skip, length, skip)?;
    Ok(DataFrame::of_distinct(columns))
}
