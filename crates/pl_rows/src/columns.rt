//! From a schema to buffers, from buffers to columns, and a range of records into columns.
ghost use Rattle.std.specs.Prelude.{◌≡◌, ◌<◌, [], ℕ, None, OnOk, length, slice_index, IfOk};
ghost use Rattle.std.specs.List.{range_with_len};
ghost use Rattle.pl_cells.specs.InitBuffers.{empty_buffers, first_unreadable, IsTypeFault};
ghost use Rattle.pl_cells.specs.NullValues.{HaveTexts};
ghost use Rattle.pl_frame.specs.Dialect.{AreDistinct};
ghost use Rattle.pl_scan.specs.Dialect.{marks_of};
ghost use Rattle.pl_rows.specs.Plan.{states, AreRising};
ghost use Rattle.pl_rows.specs.Columns.{columns_of};
ghost use Rattle.pl_rows.specs.Ranges.{IsRangeRead};

use crate::plan::RangePlan;
use crate::push::push;
use crate::range::{RangeEnd, read_range};
use pl_cells::buffer::Buffer;
use pl_cells::init_buffers::init_buffers;
use pl_cells::utf8::CsvEncoding;
use pl_frame::column::Column;
use pl_frame::error::PolarsError;
use pl_frame::schema::Schema;
use std::alloc::{AllocError, Global};

/// The numbers below a number, in order: the places of that many columns. Refuses only want of memory.
pub fn all_places(alloc: Global, count: usize) -> Result<Vec<usize>, AllocError>
    ensures { IfOk result (λ places. places.items ≡ range_with_len 0 count) }
{
    let mut places = Vec::new(alloc);
    for place in 0..count {
        places.push(place)?;
    }
    Ok(places)
}

/// An empty buffer for each of these columns of a schema, whose types can be read. Refuses only want of memory.
pub fn empty_buffers(
    alloc: Global,
    schema: &Schema,
    places: &[usize],
    quote_char: Option<u8>,
    encoding: CsvEncoding,
) -> Result<Vec<Buffer>, AllocError>
    requires places { (k : ℕ) → k < length places.now → slice_index places.now k < length schema.now }
    requires readable { first_unreadable schema.now places.now ≡ None }
    ensures { IfOk result (λ buffers. states buffers.items ≡ empty_buffers quote_char encoding schema.now places.now) }
{
    match init_buffers(alloc, places, 0, schema, quote_char, encoding) {
        Ok(buffers) => Ok(buffers),
        Err(fault) => Err(wanting(fault)),
    }
}

// The want of memory that a fault is where all types can be read.
fn wanting(fault: PolarsError) -> AllocError
    requires { IsTypeFault None fault }
{
    match fault {
        PolarsError::OutOfMemory => AllocError,
        _ => unreachable!(),
    }
}

// Puts the columns that buffers are into a list that is empty. Refuses only want of memory.
fn put_columns(
    alloc: Global,
    columns: &mut Vec<Column>,
    buffers: Vec<Buffer>,
) -> Result<(), AllocError>
    requires none { columns.old.items ≡ [] }
    ensures { OnOk result (columns.new.items ≡ columns_of (states buffers.items)) }
{
    for buffer in buffers {
        match buffer.into_series() {
            Ok(column) => push(columns, column)?,
            Err(fault) => {
                drop(fault);
                return Err(AllocError);
            }
        }
    }
    Ok(())
}

/// The columns that buffers are. Refuses only want of memory.
pub fn into_columns(alloc: Global, buffers: Vec<Buffer>) -> Result<Vec<Column>, AllocError>
    ensures { IfOk result (λ columns. columns.items ≡ columns_of (states buffers.items)) }
{
    let mut columns = Vec::new(alloc);
    match put_columns(alloc, &mut columns, buffers) {
        Ok(()) => Ok(columns),
        Err(fault) => {
            drop(columns);
            Err(fault)
        }
    }
}

/// The columns that buffers are, in no more memory than they need; the buffers stay. Refuses only want of memory.
pub(crate) fn packed_columns(alloc: Global, buffers: &[Buffer]) -> Result<Vec<Column>, AllocError>
    ensures { IfOk result (λ columns. columns.items ≡ columns_of (states buffers.now)) }
{
    let mut columns = Vec::new(alloc);
    for buffer in buffers {
        push(&mut columns, buffer.packed(alloc)?)?;
    }
    Ok(columns)
}

/// The columns that were read of a range, and where it ended.
#[derive(Debug, Drop)]
pub struct RangeColumns {
    /// One for each projected column.
    pub columns: Vec<Column>,
    pub end: RangeEnd,
}

/// Reads the records of a range, as `read_range` does, into columns of a schema. Refuses only want of memory.
pub fn read_columns(
    alloc: Global,
    schema: &Schema,
    range: &[u8],
    plan: &RangePlan<'_>,
) -> Result<RangeColumns, AllocError>
    requires apart { AreDistinct (marks_of plan.now.dialect) }
    requires width { plan.now.projection.width ≡ length schema.now }
    requires rising { AreRising 0 (length schema.now) plan.now.projection.places.now }
    requires readable { first_unreadable schema.now plan.now.projection.places.now ≡ None }
    requires texts { HaveTexts plan.now.options.null_values (length schema.now) }
    ensures { IfOk result (IsRangeRead plan.now schema.now range.now) }
{
    let places = plan.projection.places;
    let quote_char = plan.dialect.quote_char;
    let mut buffers = empty_buffers(alloc, schema, places, quote_char, plan.options.encoding)?;
    match read_range(alloc, &mut buffers, range, plan) {
        Ok(end) => {
            let columns = into_columns(alloc, buffers)?;
            Ok(RangeColumns { columns, end })
        }
        Err(fault) => {
            drop(buffers);
            Err(fault)
        }
    }
}
