//! From the bytes of an input to the frame that they mean.
ghost use Rattle.std.specs.Prelude.{◌≡◌, ℕ, List, drop, IfOk, OnOk, IfErr, IsOkUnless, MatchResult, None};
ghost use Rattle.std.specs.Option.{option_copied, option_map};
ghost use Rattle.pl_frame.specs.declared.error.PolarsError.TheVariants as error;
ghost use Rattle.pl_frame.specs.Schema.{Entry, HaveDistinctNames};
ghost use Rattle.pl_rows.specs.declared.plan.RangePlan.{RangePlan};
ghost use Rattle.pl_cells.specs.NullValues.{compiled_for};
ghost use Rattle.pl_options.specs.FirstCause.{IsFault};
ghost use Rattle.pl_read.specs.Options.{settled_schema};
ghost use Rattle.pl_read.specs.Preparing.{IsPrepared};
ghost use Rattle.pl_read.specs.Projection.{projected};
ghost use Rattle.pl_read.specs.Reading.{frame_of, IsRead, IsReadFault};
ghost use Rattle.pl_read.specs.Rows.{data_frame};
ghost use Rattle.pl_read.specs.Steps.{MayRead, late_cause, data_cause, IsPlanOf, CanReadData, IsDataRead};

use crate::checks::check_options;
use crate::indexing::with_index;
use crate::preparing::{Prepared, prepare};
use crate::workers::{read_by_workers, worker_count};
use pl_board::gate::Gate;
use pl_frame::error::{ComputeFault, PolarsError, PolarsResult};
use pl_frame::frame::DataFrame;
use pl_frame::schema::Schema;
use pl_options::read_options::CsvReadOptions;
use pl_rows::columns::RangeColumns;
use pl_rows::plan::{Projection, RangePlan, RowOptions};
use pl_rows::range::RangeEnd;
use std::alloc::Global;
use std::sync::Wait;
use std::thread::Threads;

/// The frame that an input means under its settled schema. Refuses the first cause against it (docs/refusals.md), and want of
/// memory.
pub fn read_frame<W: Threads + Wait + Sync, G: Gate + Sync>(
    rt: &W,
    alloc: Global,
    gate: &G,
    input: &[u8],
    options: &CsvReadOptions,
) -> PolarsResult<DataFrame>
    ensures { MatchResult result (IsRead options.now (settled_schema options.now input.now) input.now) (IsReadFault options.now (settled_schema options.now input.now) input.now) }
{
    match check_options(options) {
        Ok(()) => read_checked(rt, alloc, gate, input, options),
        Err(fault) => Err(fault),
    }
}

/// The frame that an input means under its settled schema, where the options may stand: `check_options` tells. Refuses the
/// first cause against it, and want of memory.
pub fn read_checked<W: Threads + Wait + Sync, G: Gate + Sync>(
    rt: &W,
    alloc: Global,
    gate: &G,
    input: &[u8],
    options: &CsvReadOptions,
) -> PolarsResult<DataFrame>
    requires { MayRead options.now }
    ensures frame { IfOk result (λ frame. frame ≡ frame_of options.now (settled_schema options.now input.now) input.now) }
    ensures sound { OnOk result (late_cause options.now (settled_schema options.now input.now) input.now ≡ None) }
    ensures refused { IfErr result (IsFault (late_cause options.now (settled_schema options.now input.now) input.now)) }
{
    match prepare(alloc, input, options) {
        Ok(prepared) => read_prepared(rt, alloc, gate, input, options, &prepared),
        Err(fault) => Err(fault),
    }
}

/// The frame of an input, of which it is known what its rows are read by: `prepare` tells. Refuses the first cause against its rows
/// (docs/refusals.md), and want of memory.
pub fn read_prepared<W: Threads + Wait + Sync, G: Gate + Sync>(
    rt: &W,
    alloc: Global,
    gate: &G,
    input: &[u8],
    options: &CsvReadOptions,
    prepared: &Prepared,
) -> PolarsResult<DataFrame>
    requires allowed { MayRead options.now }
    requires prepared { IsPrepared options.now prepared.now.schema input.now prepared.now }
    ensures frame { IfOk result (λ frame. frame ≡ data_frame options.now prepared.now.schema (drop prepared.now.start input.now)) }
    ensures sound { OnOk result (data_cause options.now prepared.now.schema (drop prepared.now.start input.now) ≡ None) }
    ensures refused { IfErr result (IsFault (data_cause options.now prepared.now.schema (drop prepared.now.start input.now))) }
{
    let plan = plan_of(options, prepared);
    let records = &input[prepared.start..];
    let n_threads = prepared.n_threads;
    let schema = &prepared.schema;
    match read_data(rt, alloc, gate, n_threads, records, options, schema, &plan) {
        Ok(frame) => rechunked(alloc, options, frame),
        Err(fault) => Err(fault),
    }
}

/// The same frame, each column in one piece where the options ask for it. Refuses only want of memory.
pub(crate) fn rechunked(
    alloc: Global,
    options: &CsvReadOptions,
    frame: DataFrame,
) -> PolarsResult<DataFrame>
    ensures same { IfOk result (λ given. given ≡ frame) }
    ensures refused { IsOkUnless result error.OutOfMemory }
{
    if options.rechunk {
        frame.rechunk(alloc)
    } else {
        Ok(frame)
    }
}

/// How the columns that are read are read, with the null values of the schema's columns.
pub fn plan_of<'a>(options: &'a CsvReadOptions, prepared: &'a Prepared) -> RangePlan<'a>
    requires places { prepared.now.places.items ≡ projected options.now prepared.now.schema }
    requires nulls { prepared.now.null_values ≡ option_map (λ values. compiled_for values prepared.now.schema) options.now.parse_options.null_values }
    ensures plan { IsPlanOf result options.now prepared.now.schema }
    ensures nulls { option_copied result.options.null_values ≡ prepared.now.null_values }
    ensures distinct { HaveDistinctNames prepared.now.schema }
{
    let parse_options = &options.parse_options;
    RangePlan {
        dialect: parse_options.dialect(),
        projection: Projection {
            places: &prepared.places,
            width: prepared.schema.len(),
        },
        options: RowOptions {
            null_values: prepared.null_values.as_ref(),
            encoding: parse_options.encoding,
            missing_is_null: parse_options.missing_is_null,
            ignore_errors: options.ignore_errors,
            truncate_ragged_lines: parse_options.truncate_ragged_lines,
        },
        limit: options.n_rows,
        last: true,
    }
}

// The frame of the data.
fn read_data<W: Threads + Wait + Sync, G: Gate + Sync>(
    rt: &W,
    alloc: Global,
    gate: &G,
    n_threads: Option<usize>,
    records: &[u8],
    options: &CsvReadOptions,
    schema: &Schema,
    plan: &RangePlan<'_>,
) -> PolarsResult<DataFrame>
    requires { CanReadData plan.now options.now schema.now records.now }
    ensures frame { IfOk result (λ frame. frame ≡ data_frame options.now schema.now records.now) }
    ensures sound { OnOk result (data_cause options.now schema.now records.now ≡ None) }
    ensures refused { IfErr result (IsFault (data_cause options.now schema.now records.now)) }
{
    let workers = worker_count(n_threads);
    let size = options.chunk_size;
    let Ok(read) = read_by_workers(rt, alloc, gate, workers, schema, records, plan, size) else {
        return Err(PolarsError::OutOfMemory);
    };
    frame_of_range(alloc, options, read)
}

/// The frame of data whose records were read.
pub(crate) fn frame_of_range(
    alloc: Global,
    options: &CsvReadOptions,
    read: RangeColumns,
) -> PolarsResult<DataFrame>
    requires { (plan : RangePlan) × (schema : List Entry) × (records : List ℕ) × IsDataRead plan options.now schema records read }
    ensures frame { (plan : RangePlan) (schema : List Entry) (records : List ℕ) → IsDataRead plan options.now schema records read → IfOk result (λ frame. frame ≡ data_frame options.now schema records) }
    ensures sound { (plan : RangePlan) (schema : List Entry) (records : List ℕ) → IsDataRead plan options.now schema records read → OnOk result (data_cause options.now schema records ≡ None) }
    ensures refused { (plan : RangePlan) (schema : List Entry) (records : List ℕ) → IsDataRead plan options.now schema records read → IfErr result (IsFault (data_cause options.now schema records)) }
{
    let RangeColumns { columns, end } = read;
    match end {
        RangeEnd::Fault { row, column, kind } => {
            drop(columns);
            Err(PolarsError::ComputeError(ComputeFault::Record { row, column, kind }))
        }
        RangeEnd::Closed | RangeEnd::Open => {
            with_index(alloc, options.row_index.as_ref(), columns)
        }
    }
}
