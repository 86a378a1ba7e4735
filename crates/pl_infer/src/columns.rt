//! The columns of an input, from their names and the types that a sample shows to a schema.
ghost use Rattle.std.specs.Prelude.{◌≡◌, ◌<◌, ◌++◌, ◌∷◌, [], length, unwrap_or, None, IfOk, IfErr, OnOk, IsOkUnless};
ghost use Rattle.std.specs.Option.{option_copied};
ghost use Rattle.pl_frame.specs.declared.error.PolarsError.TheVariants as error;
ghost use Rattle.pl_frame.specs.Schema.{place_of};
ghost use Rattle.pl_options.specs.FirstCause.{IsFault};
ghost use Rattle.pl_infer.specs.Inference.{overwritten, overwritten_columns, repeated};

use crate::schemas::find_type;
use pl_frame::data_type::DataType;
use pl_frame::error::{NamePlace, PolarsError, PolarsResult};
use pl_frame::name::PlSmallStr;
use pl_frame::schema::Schema;
use std::alloc::Global;
use std::marker::Model;

/// A column that is inferred. Contracts see its name and its type.
#[derive(Drop)]
pub(crate) struct InferredColumn {
    name: PlSmallStr,
    dtype: DataType,
}

impl Model for InferredColumn {
    ghost use Rattle.pl_frame.specs.Schema.{Entry};

    ghost Value = { Entry };

    ghost view = { λ column. (column.name, column.dtype) };
}

// A column of a name and a type. Refuses only want of memory.
fn column_of(name: &PlSmallStr, dtype: &DataType) -> PolarsResult<InferredColumn>
    ensures made { IfOk result (λ column. column ≡ (name.now, dtype.now)) }
    ensures refused { IsOkUnless result error.OutOfMemory }
{
    Ok(InferredColumn {
        name: name.try_clone()?,
        dtype: dtype.try_clone()?,
    })
}

// A column of so many, which another schema overwrites. Refuses only want of memory.
fn overwritten(
    name: &PlSmallStr,
    dtype: &DataType,
    column: usize,
    width: usize,
    other: &Schema,
) -> PolarsResult<InferredColumn>
    requires { column < width }
    ensures overwritten { IfOk result (λ made. made ≡ overwritten other.now width column (name.now, dtype.now)) }
    ensures refused { IsOkUnless result error.OutOfMemory }
{
    if let Some(other_dtype) = find_type(other, name.as_str()) {
        return column_of(name, other_dtype);
    }
    if other.len() != width {
        return column_of(name, dtype);
    }
    let (other_name, other_dtype) = other.entry(column);
    column_of(other_name, other_dtype)
}

// A column of so many, which another schema overwrites, if there is one. Refuses only want of memory.
fn column_at(
    name: &PlSmallStr,
    dtype: &DataType,
    column: usize,
    width: usize,
    other: Option<&Schema>,
) -> PolarsResult<InferredColumn>
    requires { column < width }
    ensures overwritten { IfOk result (λ made. made ≡ overwritten (unwrap_or (option_copied other.entry) []) width column (name.now, dtype.now)) }
    ensures refused { IsOkUnless result error.OutOfMemory }
{
    match other {
        Some(other) => overwritten(name, dtype, column, width, other),
        None => column_of(name, dtype),
    }
}

// Puts a column at the end. Refuses only want of memory.
fn push(columns: &mut Vec<InferredColumn>, column: InferredColumn) -> PolarsResult<()>
    ensures pushed { OnOk result (columns.new.items ≡ columns.old.items ++ column ∷ []) }
    ensures refused { IsOkUnless result error.OutOfMemory }
{
    match columns.push(column) {
        Ok(()) => Ok(()),
        Err(_) => Err(PolarsError::OutOfMemory),
    }
}

/// Columns of these names and types, which another schema overwrites. Refuses only want of memory.
pub(crate) fn overwritten_columns(
    alloc: Global,
    names: &[PlSmallStr],
    types: &[DataType],
    other: Option<&Schema>,
) -> PolarsResult<Vec<InferredColumn>>
    requires { length types.now ≡ length names.now }
    ensures columns { IfOk result (λ columns. columns.items ≡ overwritten_columns (unwrap_or (option_copied other.entry) []) names.now types.now) }
    ensures refused { IsOkUnless result error.OutOfMemory }
{
    let mut columns = Vec::new(alloc);
    for place in 0..names.len() {
        let column = column_at(&names[place], &types[place], place, names.len(), other)?;
        push(&mut columns, column)?;
    }
    Ok(columns)
}

/// The schema of columns. Refuses the first name that an earlier column has (`Duplicate`), and want of memory.
pub(crate) fn schema_of(alloc: Global, columns: &[InferredColumn]) -> PolarsResult<Schema>
    ensures schema { IfOk result (λ schema. schema ≡ columns.now) }
    ensures distinct { OnOk result (repeated columns.now ≡ None) }
    ensures refused { IfErr result (IsFault (repeated columns.now)) }
{
    let mut schema = Schema::new(alloc);
    for place in 0..columns.len() {
        let column = &columns[place];
        if schema.index_of(column.name.as_str()).is_some() {
            return Err(PolarsError::Duplicate {
                name: column.name.try_clone()?,
                at: NamePlace::Schema,
            });
        }
        add_column(&mut schema, column)?;
    }
    Ok(schema)
}

// Puts a column at the end of a schema that does not have its name. Refuses only want of memory.
fn add_column(schema: &mut Schema, column: &InferredColumn) -> PolarsResult<()>
    requires { place_of column.now.0 schema.old ≡ None }
    ensures added { OnOk result (schema.new ≡ schema.old ++ column.now ∷ []) }
    ensures refused { IsOkUnless result error.OutOfMemory }
{
    let name = column.name.try_clone()?;
    let dtype = column.dtype.try_clone()?;
    schema.with_column(name, dtype)?;
    Ok(())
}
