//! Casts of the columns of a frame, those from text among them.
ghost use Rattle.std.specs.Prelude.{◌≡◌, ◌++◌, ◌∷◌, [], true, None, IfOk, IfErr, IfSome, OnOk, OnErr, IsOkUnless, is_some, is_none, ◌&&◌, length, map, position, ◌<◌};
ghost use Rattle.std.specs.List.{AllByRecursion};
ghost use Rattle.std.specs.Option.{option_map};
ghost use Rattle.std.specs.Str.{bytes_eq};
ghost use Rattle.pl_frame.specs.declared.error.PolarsError.TheVariants as error;
ghost use Rattle.pl_frame.specs.Columns.{HoldsType, is_value_of, scalar_of};
ghost use Rattle.pl_frame.specs.Frame.{cell_at, height_of, names_of};
ghost use Rattle.pl_frame.specs.Types.{is_readable};
ghost use Rattle.pl_cells.specs.Casts.{is_read, is_carried, is_text_cast, read_cell, carried_cell, carried_cast, is_lost, first_lost, cast_fault, field_fault, first_fault, IsCastFault, with_casts};
ghost use Rattle.pl_cells.specs.CastPlaces.{placed_cast, with_placed, with_all_placed, FitsAt};

use crate::cast_workers::casts_by_workers;
use crate::decimal_type::Decimal;
use crate::moment_types::{Date, Datetime, Time};
use crate::value_types::{Boolean, ValueType};
use crate::whole_types::{Int8, Int16, Int32, Int64, Int128, UInt8, UInt16, UInt32, UInt64};
use pl_frame::column::{Column, Value};
use pl_frame::data_type::DataType;
use pl_frame::error::{ComputeFault, FaultKind, PolarsError, PolarsResult};
use pl_frame::frame::DataFrame;
use pl_frame::name::PlSmallStr;
use pl_frame::numbers::Numbers;
use pl_frame::schema::Field;
use std::alloc::{AllocError, Global};
use std::thread::Threads;

/// Casts the columns that a list names to the types that it gives them; a name that the frame lacks is passed over, and
/// of two fields of one name the first counts. Each value stays where it is one of the new type, and a text has the value
/// that it writes; where there is none the cell becomes null. Where `parallel` is set, up to four workers cast columns side by
/// side, and the caller in the place of one that can't be started; the answer is the same.
///
/// In the list's order, refuses a column whose type can't be cast so (`ComputeError` with `Dtype` and its place), and,
/// where errors are not ignored, one with a cell that becomes null and was not (`Record` with the first such row and
/// `Value`), and want of memory. The frame is then as it was.
pub fn cast_columns<W: Threads + Sync>(
    rt: &W,
    alloc: Global,
    df: &mut DataFrame,
    to_cast: &[Field],
    parallel: bool,
    ignore_errors: bool,
) -> PolarsResult<()>
    ensures cast { OnOk result (df.new ≡ with_casts to_cast.now df.old) }
    ensures faultless { OnOk result (first_fault ignore_errors df.old to_cast.now ≡ None) }
    ensures refused { IfErr result (IsCastFault (first_fault ignore_errors df.old to_cast.now)) }
    ensures unchanged { OnErr result (df.new ≡ df.old) }
{
    let casts = casts_of(rt, alloc, df.columns(), to_cast, parallel, ignore_errors)?;
    place_all(df, casts);
    Ok(())
}

// The cast column of each field with its place, where there is one of its name, made by workers where that is asked.
fn casts_of<W: Threads + Sync>(
    rt: &W,
    alloc: Global,
    columns: &[Column],
    to_cast: &[Field],
    parallel: bool,
    ignore_errors: bool,
) -> PolarsResult<Vec<Option<(usize, Column)>>>
    ensures made { IfOk result (λ casts. casts.items ≡ map (placed_cast columns.now) to_cast.now) }
    ensures faultless { OnOk result (first_fault ignore_errors columns.now to_cast.now ≡ None) }
    ensures refused { IfErr result (IsCastFault (first_fault ignore_errors columns.now to_cast.now)) }
{
    if parallel {
        casts_by_workers(rt, alloc, columns, to_cast, ignore_errors)
    } else {
        make_casts(alloc, columns, to_cast, ignore_errors)
    }
}

// The cast column of each field with its place, where there is one of its name.
fn make_casts(
    alloc: Global,
    columns: &[Column],
    to_cast: &[Field],
    ignore_errors: bool,
) -> PolarsResult<Vec<Option<(usize, Column)>>>
    ensures made { IfOk result (λ casts. casts.items ≡ map (placed_cast columns.now) to_cast.now) }
    ensures faultless { OnOk result (first_fault ignore_errors columns.now to_cast.now ≡ None) }
    ensures refused { IfErr result (IsCastFault (first_fault ignore_errors columns.now to_cast.now)) }
{
    let mut casts = Vec::new(alloc);
    match put_casts(alloc, &mut casts, columns, to_cast, ignore_errors) {
        Ok(()) => Ok(casts),
        Err(fault) => {
            drop(casts);
            Err(fault)
        }
    }
}

// The same, into a list that is empty.
fn put_casts(
    alloc: Global,
    casts: &mut Vec<Option<(usize, Column)>>,
    columns: &[Column],
    to_cast: &[Field],
    ignore_errors: bool,
) -> PolarsResult<()>
    requires none { casts.old.items ≡ [] }
    ensures made { OnOk result (casts.new.items ≡ map (placed_cast columns.now) to_cast.now) }
    ensures faultless { OnOk result (first_fault ignore_errors columns.now to_cast.now ≡ None) }
    ensures refused { IfErr result (IsCastFault (first_fault ignore_errors columns.now to_cast.now)) }
{
    for field in to_cast {
        let cast = cast_field(alloc, columns, field, ignore_errors)?;
        push_cast(casts, cast)?;
    }
    Ok(())
}

// Puts a column with its place at the end.
pub(crate) fn push_cast(
    casts: &mut Vec<Option<(usize, Column)>>,
    cast: Option<(usize, Column)>,
) -> PolarsResult<()>
    ensures pushed { OnOk result (casts.new.items ≡ casts.old.items ++ cast ∷ []) }
    ensures refused { IsOkUnless result error.OutOfMemory }
{
    if casts.push(cast).is_err() {
        return Err(PolarsError::OutOfMemory);
    }
    Ok(())
}

// Puts each column at its place, from the last to the first.
fn place_all(df: &mut DataFrame, casts: Vec<Option<(usize, Column)>>)
    requires { AllByRecursion (FitsAt (names_of df.old) (height_of df.old)) casts.items }
    ensures { df.new ≡ with_all_placed casts.items df.old }
{
    let mut rest = casts;
    while let Some(cast) = rest.pop() {
        place(df, cast);
    }
}

// Puts a column at its place.
fn place(df: &mut DataFrame, cast: Option<(usize, Column)>)
    requires { FitsAt (names_of df.old) (height_of df.old) cast }
    ensures placed { df.new ≡ with_placed cast df.old }
    ensures names { names_of df.new ≡ names_of df.old }
    ensures rows { height_of df.new ≡ height_of df.old }
{
    if let Some((place, column)) = cast {
        df.set_column(place, column);
    }
}

// The cast column of a field with its place, where there is one of its name.
pub(crate) fn cast_field(
    alloc: Global,
    columns: &[Column],
    field: &Field,
    ignore_errors: bool,
) -> PolarsResult<Option<(usize, Column)>>
    ensures made { IfOk result (λ cast. cast ≡ placed_cast columns.now field.now) }
    ensures faultless { OnOk result (field_fault ignore_errors columns.now field.now ≡ None) }
    ensures refused { IfErr result (IsCastFault (field_fault ignore_errors columns.now field.now)) }
{
    match place_named(columns, field.name.as_str()) {
        Some(place) => {
            let column = &columns[place];
            let cast = checked_cast(alloc, place, column, &field.dtype, ignore_errors)?;
            Ok(Some((place, cast)))
        }
        None => Ok(None),
    }
}

// The place of the column of a name.
fn place_named(columns: &[Column], name: &str) -> Option<usize>
    ensures place { result ≡ position (λ column. bytes_eq name.now column.name) columns.now }
    ensures within { IfSome result (λ place. place < length columns.now) }
{
    columns.iter().position(|column| name == column.name())
}

// The column at a place under another type.
fn checked_cast(
    alloc: Global,
    place: usize,
    column: &Column,
    to: &DataType,
    ignore_errors: bool,
) -> PolarsResult<Column>
    ensures cast { IfOk result (λ cast. cast ≡ carried_cast column.now to.now) }
    ensures faultless { OnOk result (cast_fault ignore_errors place column.now to.now ≡ None) }
    ensures refused { IfErr result (IsCastFault (cast_fault ignore_errors place column.now to.now)) }
{
    if !is_carried(column.dtype(), to) {
        return Err(PolarsError::ComputeError(ComputeFault::Dtype { column: place }));
    }
    let cast = carried_cast(alloc, column, to)?;
    if ignore_errors {
        return Ok(cast);
    }
    match first_lost(column, &cast) {
        Some(row) => Err(PolarsError::ComputeError(ComputeFault::Record {
            row,
            column: place,
            kind: FaultKind::Value,
        })),
        None => Ok(cast),
    }
}

// Whether a column of one type can be cast to another.
fn is_carried(from: &DataType, to: &DataType) -> bool
    ensures { result ≡ is_carried from.now to.now }
{
    from.casts_to(to) || to.readable() && is_text_cast(from, to)
}

fn is_text_cast(from: &DataType, to: &DataType) -> bool
    ensures { result ≡ is_text_cast from.now to.now }
{
    matches!(from, DataType::String) && is_read(to)
}

fn is_read(dtype: &DataType) -> bool
    ensures { result ≡ is_read dtype.now }
{
    !matches!(
        dtype,
        DataType::String | DataType::Categorical | DataType::Enum(_) | DataType::Null
    )
}

// The column under another type.
fn carried_cast(alloc: Global, column: &Column, to: &DataType) -> PolarsResult<Column>
    requires { is_carried column.now.dtype to.now ≡ true }
    ensures cast { IfOk result (λ cast. cast ≡ carried_cast column.now to.now) }
    ensures refused { IsOkUnless result error.OutOfMemory }
{
    if is_text_cast(column.dtype(), to) {
        parsed_column(alloc, column, to)
    } else {
        column.cast(alloc, to)
    }
}

// The first row that is null in the cast column, and was not.
fn first_lost(column: &Column, cast: &Column) -> Option<usize>
    requires { cast.now ≡ carried_cast column.now cast.now.dtype }
    ensures { result ≡ first_lost column.now cast.now.dtype }
{
    for row in 0..column.len() {
        if is_lost_at(column, cast, row) {
            return Some(row);
        }
    }
    None
}

// Whether a row is null in the cast column, and was not.
#[inline]
fn is_lost_at(column: &Column, cast: &Column, row: usize) -> bool
    requires row { row < length column.now.values }
    requires cast { cast.now ≡ carried_cast column.now cast.now.dtype }
    ensures { result ≡ is_lost column.now.dtype cast.now.dtype (cell_at column.now row) }
{
    is_lost(column.get(row), cast.get(row))
}

#[inline]
fn is_lost(before: Value<'_>, after: Value<'_>) -> bool
    ensures { result ≡ (is_some (scalar_of before.entry) && is_none (scalar_of after.entry)) }
{
    !matches!(before, Value::Null) && matches!(after, Value::Null)
}

// The column of the values that texts write.
fn parsed_column(alloc: Global, column: &Column, to: &DataType) -> PolarsResult<Column>
    requires readable { is_readable to.now ≡ true }
    requires read { is_read to.now ≡ true }
    ensures cast { IfOk result (λ cast. cast ≡ record { name = column.now.name; dtype = to.now; values = map (read_cell to.now) column.now.values }) }
    ensures refused { IsOkUnless result error.OutOfMemory }
{
    match to {
        DataType::Boolean => parsed_as(alloc, column, Boolean),
        DataType::Int8 => parsed_as(alloc, column, Int8),
        DataType::Int16 => parsed_as(alloc, column, Int16),
        DataType::Int32 => parsed_as(alloc, column, Int32),
        DataType::Int64 => parsed_as(alloc, column, Int64),
        DataType::Int128 => parsed_as(alloc, column, Int128),
        DataType::UInt8 => parsed_as(alloc, column, UInt8),
        DataType::UInt16 => parsed_as(alloc, column, UInt16),
        DataType::UInt32 => parsed_as(alloc, column, UInt32),
        DataType::UInt64 => parsed_as(alloc, column, UInt64),
        DataType::Date => parsed_as(alloc, column, Date),
        DataType::Time => parsed_as(alloc, column, Time),
        DataType::Datetime(unit) => parsed_as(alloc, column, Datetime { unit: *unit }),
        DataType::Decimal(precision, Some(scale)) => {
            let kind = Decimal {
                precision: *precision,
                scale: *scale,
            };
            parsed_as(alloc, column, kind)
        }
        DataType::String
        | DataType::Categorical
        | DataType::Enum(_)
        | DataType::Decimal(_, None)
        | DataType::Null => unreachable!(),
    }
}

// The same under one type.
fn parsed_as<K: ValueType + Drop>(alloc: Global, column: &Column, kind: K) -> PolarsResult<Column>
    ensures cast { IfOk result (λ cast. cast ≡ record { name = column.now.name; dtype = K.dtype kind; values = map (read_cell (K.dtype kind)) column.now.values }) }
    ensures refused { IsOkUnless result error.OutOfMemory }
{
    let name = PlSmallStr::from_str(alloc, column.name())?;
    match parsed_values(alloc, column, &kind) {
        Ok(values) => Ok(kind.column(name, values)),
        Err(_) => Err(PolarsError::OutOfMemory),
    }
}

// The values that the texts of a column write.
fn parsed_values<K: ValueType>(
    alloc: Global,
    column: &Column,
    kind: &K,
) -> Result<Numbers<K::Kept>, AllocError>
    ensures values { IfOk result (λ values. map (option_map K.scalar) values ≡ map (read_cell (K.dtype kind.now)) column.now.values) }
    ensures held { IfOk result (λ values. HoldsType (K.dtype kind.now) (map (option_map K.scalar) values)) }
{
    let mut values = Numbers::new(alloc);
    values.reserve(column.len())?;
    for row in 0..column.len() {
        push_option(&mut values, parsed_value(kind, column.get(row)))?;
    }
    Ok(values)
}

// The value that the text in a cell writes.
#[inline]
fn parsed_value<K: ValueType>(kind: &K, value: Value<'_>) -> Option<K::Kept>
    ensures value { option_map K.scalar result ≡ read_cell (K.dtype kind.now) (scalar_of value.entry) }
    ensures held { IfSome result (λ v. is_value_of (K.dtype kind.now) (K.scalar v) ≡ true) }
{
    match value {
        Value::Text(text) => kind.parse(text.as_bytes()),
        _ => None,
    }
}

// Puts a value or a null at the end.
#[inline]
fn push_option<T: Copy + Default>(
    values: &mut Numbers<T>,
    value: Option<T>,
) -> Result<(), AllocError>
    ensures { OnOk result (values.new ≡ values.old ++ value ∷ []) }
{
    match value {
        Some(value) => values.push(value),
        None => values.push_null(),
    }
}
