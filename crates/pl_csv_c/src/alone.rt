//! From the bytes of an input to the frame that they mean, kept in arrays, without a runtime: by the thread that calls.
ghost use Rattle.std.specs.Prelude.{◌≡◌, ℕ, List, drop, true, IfOk, OnOk, IfErr, IsOkUnless, None};
ghost use Rattle.pl_csv_c.specs.Growing.{AreGrown, ArePlain, ArePlainAt};
ghost use Rattle.pl_csv_c.specs.Reading.{IsReadKept};
ghost use Rattle.pl_csv_c.specs.Views.{IsFrameKept};
ghost use Rattle.pl_frame.specs.declared.error.PolarsError.TheVariants as error;
ghost use Rattle.pl_frame.specs.Frame.{ColumnValue};
ghost use Rattle.pl_frame.specs.Schema.{Entry};
ghost use Rattle.pl_options.specs.FirstCause.{IsFault};
ghost use Rattle.pl_read.specs.Options.{settled_schema};
ghost use Rattle.pl_read.specs.Preparing.{IsPrepared};
ghost use Rattle.pl_read.specs.Reading.{frame_of, IsReadFault};
ghost use Rattle.pl_read.specs.Rows.{data_frame};
ghost use Rattle.pl_read.specs.Steps.{MayRead, late_cause, data_cause, CanReadData, IsDataRead, IsPlanOf};
ghost use Rattle.pl_rows.specs.declared.plan.RangePlan.{RangePlan};

use crate::growing::{Growing, keep_all};
use crate::kept::{KeptFrame, keep};
use crate::pieces::read_in_pieces;
use crate::straight::{Straight, are_plain, read_straight};
use pl_frame::error::{ComputeFault, PolarsError, PolarsResult};
use pl_frame::frame::DataFrame;
use pl_frame::schema::Schema;
use pl_options::read_options::CsvReadOptions;
use pl_read::checks::check_options;
use pl_read::indexing::with_index;
use pl_read::preparing::{Prepared, prepare};
use pl_read::reading::plan_of;
use pl_read::workers::piece_size_for;
use pl_rows::columns::RangeColumns;
use pl_rows::plan::RangePlan;
use pl_rows::range::RangeEnd;
use std::alloc::Global;

/// The frame that an input means under its settled schema, read by the thread that calls, and kept. Refuses the first cause against it
/// (docs/refusals.md), and want of memory. Where no row index and no column of categories is read, the cells go straight into arrays;
/// else a frame is made first.
pub fn read_kept(alloc: Global, input: &[u8], options: &CsvReadOptions) -> PolarsResult<KeptFrame>
    ensures read { IfOk result (IsReadKept options.now (settled_schema options.now input.now) input.now) }
    ensures refused { IfErr result (IsReadFault options.now (settled_schema options.now input.now) input.now) }
{
    match check_options(options) {
        Ok(()) => read_checked(alloc, input, options),
        Err(fault) => Err(fault),
    }
}

// The same, where the options may stand.
fn read_checked(alloc: Global, input: &[u8], options: &CsvReadOptions) -> PolarsResult<KeptFrame>
    requires { MayRead options.now }
    ensures kept { IfOk result (IsFrameKept (frame_of options.now (settled_schema options.now input.now) input.now)) }
    ensures sound { OnOk result (late_cause options.now (settled_schema options.now input.now) input.now ≡ None) }
    ensures refused { IfErr result (IsFault (late_cause options.now (settled_schema options.now input.now) input.now)) }
{
    match prepare(alloc, input, options) {
        Ok(prepared) => read_prepared(alloc, input, options, &prepared),
        Err(fault) => Err(fault),
    }
}

// The frame of an input, of which it is known what its rows are read by, kept.
fn read_prepared(
    alloc: Global,
    input: &[u8],
    options: &CsvReadOptions,
    prepared: &Prepared,
) -> PolarsResult<KeptFrame>
    requires allowed { MayRead options.now }
    requires prepared { IsPrepared options.now prepared.now.schema input.now prepared.now }
    ensures kept { IfOk result (IsFrameKept (data_frame options.now prepared.now.schema (drop prepared.now.start input.now))) }
    ensures sound { OnOk result (data_cause options.now prepared.now.schema (drop prepared.now.start input.now) ≡ None) }
    ensures refused { IfErr result (IsFault (data_cause options.now prepared.now.schema (drop prepared.now.start input.now))) }
{
    let plan = plan_of(options, prepared);
    let records = &input[prepared.start..];
    read_data(alloc, records, options, &prepared.schema, &plan)
}

// Whether cells can go straight into arrays: no row index is asked, and no column that is read has categories.
fn goes_straight(options: &CsvReadOptions, schema: &Schema, plan: &RangePlan<'_>) -> bool
    requires { IsPlanOf plan.now options.now schema.now }
    ensures index { result ≡ true → options.now.row_index ≡ None }
    ensures plain { result ≡ true → ArePlainAt schema.now plan.now.projection.places.now }
{
    match &options.row_index {
        Some(_) => false,
        None => are_plain(schema, plan.projection.places),
    }
}

// The frame of the data, kept.
fn read_data(
    alloc: Global,
    records: &[u8],
    options: &CsvReadOptions,
    schema: &Schema,
    plan: &RangePlan<'_>,
) -> PolarsResult<KeptFrame>
    requires { CanReadData plan.now options.now schema.now records.now }
    ensures kept { IfOk result (IsFrameKept (data_frame options.now schema.now records.now)) }
    ensures sound { OnOk result (data_cause options.now schema.now records.now ≡ None) }
    ensures refused { IfErr result (IsFault (data_cause options.now schema.now records.now)) }
{
    if goes_straight(options, schema, plan) {
        return read_arrays(alloc, records, options, schema, plan);
    }
    match read_frame(alloc, records, options, schema, plan) {
        Ok(frame) => kept_frame(alloc, frame),
        Err(fault) => Err(fault),
    }
}

// A frame that is kept. Refuses only want of memory.
fn kept_frame(alloc: Global, frame: DataFrame) -> PolarsResult<KeptFrame>
    ensures kept { IfOk result (IsFrameKept frame) }
    ensures refused { IsOkUnless result error.OutOfMemory }
{
    match keep(alloc, frame) {
        Ok(kept) => Ok(kept),
        Err(_) => Err(PolarsError::OutOfMemory),
    }
}

// The frame of columns whose cells stand in arrays, kept. Refuses only want of memory.
fn kept_arrays(alloc: Global, columns: Vec<Growing>) -> PolarsResult<KeptFrame>
    ensures kept { (frame : List ColumnValue) → AreGrown frame columns.items → ArePlain frame → IfOk result (IsFrameKept frame) }
    ensures refused { IsOkUnless result error.OutOfMemory }
{
    match keep_all(alloc, columns) {
        Ok(kept) => Ok(kept),
        Err(_) => Err(PolarsError::OutOfMemory),
    }
}

// The frame of the data, whose cells go straight into arrays.
fn read_arrays(
    alloc: Global,
    records: &[u8],
    options: &CsvReadOptions,
    schema: &Schema,
    plan: &RangePlan<'_>,
) -> PolarsResult<KeptFrame>
    requires can { CanReadData plan.now options.now schema.now records.now }
    requires index { options.now.row_index ≡ None }
    requires plain { ArePlainAt schema.now plan.now.projection.places.now }
    ensures kept { IfOk result (IsFrameKept (data_frame options.now schema.now records.now)) }
    ensures sound { OnOk result (data_cause options.now schema.now records.now ≡ None) }
    ensures refused { IfErr result (IsFault (data_cause options.now schema.now records.now)) }
{
    let size = piece_size_for(options.chunk_size, plan.projection.places.len());
    let Ok(read) = read_straight(alloc, schema, records, plan, size) else {
        return Err(PolarsError::OutOfMemory);
    };
    let Straight { columns, end } = read;
    match end {
        RangeEnd::Fault { row, column, kind } => {
            drop(columns);
            Err(PolarsError::ComputeError(ComputeFault::Record { row, column, kind }))
        }
        RangeEnd::Closed | RangeEnd::Open => kept_arrays(alloc, columns),
    }
}

// The frame of the data, as columns.
fn read_frame(
    alloc: Global,
    records: &[u8],
    options: &CsvReadOptions,
    schema: &Schema,
    plan: &RangePlan<'_>,
) -> PolarsResult<DataFrame>
    requires { CanReadData plan.now options.now schema.now records.now }
    ensures frame { IfOk result (λ frame. frame ≡ data_frame options.now schema.now records.now) }
    ensures sound { OnOk result (data_cause options.now schema.now records.now ≡ None) }
    ensures refused { IfErr result (IsFault (data_cause options.now schema.now records.now)) }
{
    let size = piece_size_for(options.chunk_size, plan.projection.places.len());
    let Ok(read) = read_in_pieces(alloc, schema, records, plan, size) else {
        return Err(PolarsError::OutOfMemory);
    };
    frame_of_range(alloc, options, read)
}

// The frame of data whose records were read.
fn frame_of_range(
    alloc: Global,
    options: &CsvReadOptions,
    read: RangeColumns,
) -> PolarsResult<DataFrame>
    requires { (plan : RangePlan) × (schema : List Entry) × (records : List ℕ) × IsDataRead plan options.now schema records read }
    ensures frame { (plan : RangePlan) (schema : List Entry) (records : List ℕ) → IsDataRead plan options.now schema records read → IfOk result (λ frame. frame ≡ data_frame options.now schema records) }
    ensures sound { (plan : RangePlan) (schema : List Entry) (records : List ℕ) → IsDataRead plan options.now schema records read → OnOk result (data_cause options.now schema records ≡ None) }
    ensures refused { (plan : RangePlan) (schema : List Entry) (records : List ℕ) → IsDataRead plan options.now schema records read → IfErr result (IsFault (data_cause options.now schema records)) }
{
    let RangeColumns { columns, end } = read;
    match end {
        RangeEnd::Fault { row, column, kind } => {
            drop(columns);
            Err(PolarsError::ComputeError(ComputeFault::Record { row, column, kind }))
        }
        RangeEnd::Closed | RangeEnd::Open => {
            with_index(alloc, options.row_index.as_ref(), columns)
        }
    }
}
