//! The buffers that a reader begins with.
ghost use Rattle.std.specs.Prelude.{◌≡◌, ◌<◌, ◌++◌, ◌∷◌, [], true, None, Some, ℕ, length, map, slice_get, slice_index, IfOk, IfErr, IsOk, OnOk, IsOkUnless};
ghost use Rattle.pl_frame.specs.declared.error.PolarsError.TheVariants as error;
ghost use Rattle.pl_frame.specs.Types.{is_readable};
ghost use Rattle.pl_cells.specs.InitBuffers.{state_of, entry_at, empty_buffer, empty_buffers, first_unreadable, IsTypeFault};

use crate::buffer::Buffer;
use crate::column_settings::ColumnSettings;
use crate::utf8::CsvEncoding;
use pl_frame::data_type::DataType;
use pl_frame::error::{ComputeFault, PolarsError, PolarsResult};
use pl_frame::schema::Schema;
use std::alloc::Global;

/// An empty buffer for each of these columns of a schema, with room for `capacity` cells where there is memory for them.
///
/// Refuses the first column whose type can't be read (`ComputeError` with `Dtype` and the place in the schema), and want
/// of memory.
pub fn init_buffers(
    alloc: Global,
    projection: &[usize],
    capacity: usize,
    schema: &Schema,
    quote_char: Option<u8>,
    encoding: CsvEncoding,
) -> PolarsResult<Vec<Buffer>>
    requires { (k : ℕ) → k < length projection.now → slice_index projection.now k < length schema.now }
    ensures made { IfOk result (λ buffers. map state_of buffers.items ≡ empty_buffers quote_char encoding schema.now projection.now) }
    ensures readable { OnOk result (first_unreadable schema.now projection.now ≡ None) }
    ensures refused { IfErr result (IsTypeFault (first_unreadable schema.now projection.now)) }
{
    if let Some(column) = first_unreadable(projection, schema) {
        return Err(PolarsError::ComputeError(ComputeFault::Dtype { column }));
    }
    make_buffers(alloc, projection, capacity, schema, quote_char, encoding)
}

// Whether the type at a place of a schema can be read.
fn is_readable_at(schema: &Schema, place: usize) -> bool
    requires { place < length schema.now }
    ensures { result ≡ is_readable (entry_at schema.now place).1 }
{
    let (_, dtype) = schema.entry(place);
    dtype.readable()
}

/// The first of these places whose type can't be read. Takes no memory.
pub fn first_unreadable(projection: &[usize], schema: &Schema) -> Option<usize>
    requires { (k : ℕ) → k < length projection.now → slice_index projection.now k < length schema.now }
    ensures { result ≡ first_unreadable schema.now projection.now }
{
    for place in projection {
        if !is_readable_at(schema, *place) {
            return Some(*place);
        }
    }
    None
}

// An empty buffer for the column at a place of a schema.
fn buffer_at(
    alloc: Global,
    place: usize,
    capacity: usize,
    schema: &Schema,
    quote_char: Option<u8>,
    encoding: CsvEncoding,
) -> PolarsResult<Buffer>
    requires place { place < length schema.now }
    requires readable { is_readable (entry_at schema.now place).1 ≡ true }
    ensures empty { IfOk result (λ buffer. state_of buffer ≡ empty_buffer quote_char encoding (entry_at schema.now place)) }
    ensures refused { IsOkUnless result error.OutOfMemory }
{
    let (name, dtype) = schema.entry(place);
    let settings = ColumnSettings {
        name: name.shared(alloc)?,
        quote_char,
        encoding,
    };
    let mut buffer = Buffer::new(alloc, settings, dtype)?;
    // Where there is no memory for so many now, they are made as they come.
    let _ = buffer.reserve(capacity);
    Ok(buffer)
}

// Puts what was made at the end, where it was. Refuses what its making did, and want of memory.
fn push_made<T: Drop>(items: &mut Vec<T>, made: PolarsResult<T>) -> PolarsResult<()>
    ensures made { OnOk result (IsOk made) }
    ensures pushed { OnOk result (IfOk made (λ item. items.new.items ≡ items.old.items ++ item ∷ [])) }
    ensures refused { IsOkUnless made error.OutOfMemory → IsOkUnless result error.OutOfMemory }
{
    match made {
        Ok(item) => match items.push(item) {
            Ok(()) => Ok(()),
            Err(_) => Err(PolarsError::OutOfMemory),
        },
        Err(fault) => Err(fault),
    }
}

// Puts the empty buffer for the column at a place of a schema at the end. Refuses only want of memory.
fn put_buffer(
    alloc: Global,
    buffers: &mut Vec<Buffer>,
    place: usize,
    capacity: usize,
    schema: &Schema,
    quote_char: Option<u8>,
    encoding: CsvEncoding,
) -> PolarsResult<()>
    requires place { place < length schema.now }
    requires readable { is_readable (entry_at schema.now place).1 ≡ true }
    ensures put { OnOk result (map state_of buffers.new.items ≡ map state_of buffers.old.items ++ empty_buffer quote_char encoding (entry_at schema.now place) ∷ []) }
    ensures refused { IsOkUnless result error.OutOfMemory }
{
    let made = buffer_at(alloc, place, capacity, schema, quote_char, encoding);
    push_made(buffers, made)
}

// Puts the empty buffer for each of these columns into a list that is empty. Refuses only want of memory.
fn put_buffers(
    alloc: Global,
    buffers: &mut Vec<Buffer>,
    projection: &[usize],
    capacity: usize,
    schema: &Schema,
    quote_char: Option<u8>,
    encoding: CsvEncoding,
) -> PolarsResult<()>
    requires none { buffers.old.items ≡ [] }
    requires places { (k : ℕ) → k < length projection.now → slice_index projection.now k < length schema.now }
    requires readable { first_unreadable schema.now projection.now ≡ None }
    ensures made { OnOk result (map state_of buffers.new.items ≡ empty_buffers quote_char encoding schema.now projection.now) }
    ensures refused { IsOkUnless result error.OutOfMemory }
{
    for place in projection {
        put_buffer(
            alloc, buffers, *place, capacity, schema, quote_char, encoding,
        )?;
    }
    Ok(())
}

fn make_buffers(
    alloc: Global,
    projection: &[usize],
    capacity: usize,
    schema: &Schema,
    quote_char: Option<u8>,
    encoding: CsvEncoding,
) -> PolarsResult<Vec<Buffer>>
    requires places { (k : ℕ) → k < length projection.now → slice_index projection.now k < length schema.now }
    requires readable { first_unreadable schema.now projection.now ≡ None }
    ensures made { IfOk result (λ buffers. map state_of buffers.items ≡ empty_buffers quote_char encoding schema.now projection.now) }
    ensures refused { IsOkUnless result error.OutOfMemory }
{
    let mut buffers = Vec::new(alloc);
    match put_buffers(
        alloc,
        &mut buffers,
        projection,
        capacity,
        schema,
        quote_char,
        encoding,
    ) {
        Ok(()) => Ok(buffers),
        Err(fault) => {
            drop(buffers);
            Err(fault)
        }
    }
}
