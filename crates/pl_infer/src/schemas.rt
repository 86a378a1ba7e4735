//! Schemas whose types are replaced, and what stands against a schema.
ghost use Rattle.std.specs.Prelude.{◌≡◌, ◌<◌, length, slice_get, Some, None, IfOk, IfErr, OnOk, OnErr, IsOkUnless};
ghost use Rattle.std.specs.List.{list_any};
ghost use Rattle.std.specs.Option.{option_map};
ghost use Rattle.pl_frame.specs.declared.error.PolarsError.TheVariants as error;
ghost use Rattle.pl_frame.specs.Schema.{type_of};
ghost use Rattle.pl_frame.specs.Types.{is_readable};
ghost use Rattle.pl_cells.specs.InitBuffers.{entry_at};
ghost use Rattle.pl_cells.specs.NullValues.{IsNameFault};
ghost use Rattle.pl_infer.specs.Schemas.{retyped, overwritten_schema, unknown_name, types_of, unreadable, is_categorical, first_unreadable_column};

use pl_frame::data_type::DataType;
use pl_frame::error::{ComputeFault, PolarsError, PolarsResult};
use pl_frame::schema::Schema;
use pl_options::column_lists::Fields;
use pl_options::put::put;

/// Gives each name of the overwriting schema its type there. Refuses the first name that the schema does not have
/// (`ColumnNotFound`), and want of memory; the schema is then unchanged.
pub fn overwrite_schema(schema: &mut Schema, overwriting_schema: &Schema) -> PolarsResult<()>
    ensures overwritten { OnOk result (schema.new ≡ overwritten_schema overwriting_schema.now schema.old) }
    ensures known { OnOk result (unknown_name overwriting_schema.now schema.old ≡ None) }
    ensures refused { IfErr result (IsNameFault (unknown_name overwriting_schema.now schema.old)) }
    ensures unchanged { OnErr result (schema.new ≡ schema.old) }
{
    check_names(overwriting_schema, schema)?;
    let changed = overwritten(schema, overwriting_schema)?;
    put(schema, changed);
    Ok(())
}

/// Whether a column is `Categorical`. Refuses the first column whose type can't be read (`ComputeError` with `Dtype`). Takes
/// no memory, and changes neither the schema nor the fields to cast: columns of every readable type are read as they are.
pub fn prepare_csv_schema(schema: &mut Schema, _fields_to_cast: &mut Fields) -> PolarsResult<bool>
    ensures told { IfOk result (λ categorical. categorical ≡ list_any is_categorical (types_of schema.old)) }
    ensures readable { OnOk result (unreadable schema.old ≡ None) }
    ensures refused { IfErr result (λ fault. unreadable schema.old ≡ Some fault) }
    ensures schema_kept { schema.new ≡ schema.old }
    ensures fields_kept { _fields_to_cast.new ≡ _fields_to_cast.old }
{
    match find_unreadable(schema) {
        Some(column) => Err(PolarsError::ComputeError(ComputeFault::Dtype { column })),
        None => Ok(has_categorical(schema)),
    }
}

// Refuses the first name of the other schema that the schema does not have.
fn check_names(other: &Schema, schema: &Schema) -> PolarsResult<()>
    ensures known { OnOk result (unknown_name other.now schema.now ≡ None) }
    ensures refused { IfErr result (IsNameFault (unknown_name other.now schema.now)) }
{
    for place in 0..other.len() {
        let (name, _) = other.entry(place);
        if let Err(fault) = schema.try_index_of(name.as_str()) {
            return Err(fault);
        }
    }
    Ok(())
}

// The schema with the types that its names have in the other one.
fn overwritten(schema: &Schema, other: &Schema) -> PolarsResult<Schema>
    ensures overwritten { IfOk result (λ changed. changed ≡ overwritten_schema other.now schema.now) }
    ensures refused { IsOkUnless result error.OutOfMemory }
{
    let mut changed = schema.try_clone()?;
    for place in 0..schema.len() {
        let dtype = type_for(schema, place, other)?;
        changed.set_dtype_at_index(place, dtype);
    }
    Ok(changed)
}

// The type that the name at a place has in the other schema, or else the one that is there.
fn type_for(schema: &Schema, place: usize, other: &Schema) -> PolarsResult<DataType>
    requires { place < length schema.now }
    ensures retyped { IfOk result (λ dtype. dtype ≡ (retyped other.now (entry_at schema.now place)).1) }
    ensures refused { IsOkUnless result error.OutOfMemory }
{
    let (name, dtype) = schema.entry(place);
    match find_type(other, name.as_str()) {
        Some(other_dtype) => other_dtype.try_clone(),
        None => dtype.try_clone(),
    }
}

/// The type under a name.
pub(crate) fn find_type<'a>(schema: &'a Schema, name: &str) -> Option<&'a DataType>
    ensures { option_map (λ found. found.now) result ≡ type_of name.now schema.now }
{
    let place = schema.index_of(name)?;
    let (_, dtype) = schema.get_at_index(place)?;
    Some(dtype)
}

/// The least column whose type can't be read, without taking memory.
pub fn find_unreadable(schema: &Schema) -> Option<usize>
    ensures { result ≡ first_unreadable_column schema.now }
{
    for place in 0..schema.len() {
        if !is_readable_at(schema, place) {
            return Some(place);
        }
    }
    None
}

// Whether the type at a place can be read.
fn is_readable_at(schema: &Schema, place: usize) -> bool
    requires { place < length schema.now }
    ensures { result ≡ is_readable (entry_at schema.now place).1 }
{
    let (_, dtype) = schema.entry(place);
    dtype.readable()
}

// Whether a column is categorical.
fn has_categorical(schema: &Schema) -> bool
    ensures { result ≡ list_any is_categorical (types_of schema.now) }
{
    for place in 0..schema.len() {
        if is_categorical_at(schema, place) {
            return true;
        }
    }
    false
}

// Whether the column at a place is categorical.
fn is_categorical_at(schema: &Schema, place: usize) -> bool
    requires { place < length schema.now }
    ensures { result ≡ is_categorical (entry_at schema.now place).1 }
{
    let (_, dtype) = schema.entry(place);
    matches!(dtype, DataType::Categorical)
}
