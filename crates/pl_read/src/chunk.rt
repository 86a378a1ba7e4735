//! A range of an input, read on its own.
ghost use Rattle.std.specs.Prelude.{◌≡◌, ◌≤◌, None, length, slice_range, IfOk, IsOkUnless};
ghost use Rattle.std.specs.Option.{option_copied};
ghost use Rattle.pl_frame.specs.Dialect.{IsDialect};
ghost use Rattle.pl_frame.specs.Schema.{HaveDistinctNames};
ghost use Rattle.pl_frame.specs.declared.error.PolarsError.TheVariants as error;
ghost use Rattle.pl_cells.specs.InitBuffers.{first_unreadable};
ghost use Rattle.pl_cells.specs.NullValues.{HaveTexts};
ghost use Rattle.pl_options.specs.Text.{marks_of, comment_of};
ghost use Rattle.pl_read.specs.Chunk.{IsChunkPlan, IsChunkRead};
ghost use Rattle.pl_rows.specs.Plan.{AreRising};

use pl_cells::null_values::NullValuesCompiled;
use pl_frame::error::{PolarsError, PolarsResult};
use pl_frame::frame::DataFrame;
use pl_frame::schema::Schema;
use pl_options::parse_options::CsvParseOptions;
use pl_rows::columns::read_columns;
use pl_rows::plan::{Projection, RangePlan, RowOptions};
use std::alloc::Global;

/// Where the reading of a range ended: behind all of its records, before its last one, which ends within a quoted field and is not
/// judged, or before the first that has a fault.
pub use pl_rows::range::RangeEnd as ChunkEnd;

/// What was read of a range: the records before the fault or the open record, and where the reading ended.
#[derive(Debug, Drop)]
pub struct ChunkDone {
    pub frame: DataFrame,
    pub end: ChunkEnd,
}

// How a range is read, by these options.
fn chunk_plan<'a>(
    parse_options: &'a CsvParseOptions,
    schema: &Schema,
    ignore_errors: bool,
    projection: &'a [usize],
    null_values: Option<&'a NullValuesCompiled>,
    last: bool,
) -> RangePlan<'a>
    ensures plan { IsChunkPlan result parse_options.now schema.now ignore_errors projection.now (option_copied null_values.entry) last }
    ensures nulls { result.options.null_values ≡ null_values.entry }
    ensures distinct { HaveDistinctNames schema.now }
{
    RangePlan {
        dialect: parse_options.dialect(),
        projection: Projection {
            places: projection,
            width: schema.len(),
        },
        options: RowOptions {
            null_values,
            encoding: parse_options.encoding,
            missing_is_null: parse_options.missing_is_null,
            ignore_errors,
            truncate_ragged_lines: parse_options.truncate_ragged_lines,
        },
        limit: None,
        last,
    }
}

/// Reads a range of the bytes, from `bytes_offset_thread` to `stop_at_nbytes`, into a frame of the columns of the schema at
/// these places. Its first byte is where an item starts, nothing is skipped, and its last byte counts as the last of the input.
/// Where it is not the last range, a record that ends within a quoted field is not judged. Refuses only want of memory.
pub fn read_chunk(
    alloc: Global,
    bytes: &[u8],
    parse_options: &CsvParseOptions,
    schema: &Schema,
    ignore_errors: bool,
    projection: &[usize],
    bytes_offset_thread: usize,
    null_values: Option<&NullValuesCompiled>,
    stop_at_nbytes: usize,
    last: bool,
) -> PolarsResult<ChunkDone>
    requires dialect { IsDialect (marks_of parse_options.now) (comment_of parse_options.now) }
    requires begin { bytes_offset_thread ≤ stop_at_nbytes }
    requires end { stop_at_nbytes ≤ length bytes.now }
    requires rising { AreRising 0 (length schema.now) projection.now }
    requires readable { first_unreadable schema.now projection.now ≡ None }
    requires texts { HaveTexts null_values (length schema.now) }
    ensures done { IfOk result (IsChunkRead parse_options.now schema.now ignore_errors projection.now (option_copied null_values.entry) last (slice_range bytes.now bytes_offset_thread stop_at_nbytes)) }
    ensures refused { IsOkUnless result error.OutOfMemory }
{
    let plan = chunk_plan(
        parse_options,
        schema,
        ignore_errors,
        projection,
        null_values,
        last,
    );
    let range = &bytes[bytes_offset_thread..stop_at_nbytes];
    match read_columns(alloc, schema, range, &plan) {
        Ok(read) => Ok(ChunkDone {
            frame: DataFrame::of_distinct(read.columns),
            end: read.end,
        }),
        Err(_) => Err(PolarsError::OutOfMemory),
    }
}
