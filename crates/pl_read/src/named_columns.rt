//! The places in a file of columns that are asked for by name.
ghost use Rattle.std.specs.Prelude.{◌≡◌, ◌↔◌, ◌||◌, IsTrue, is_some, Some, IsSome, IfOk, IfSome, IsOkUnless};
ghost use Rattle.std.specs.Option.{ForSome};
ghost use Rattle.pl_frame.specs.declared.error.PolarsError.TheVariants as error;
ghost use Rattle.pl_read.specs.NamedColumns.{ArePlaces, have_places, is_partition, partitions_in, place_in_file};

use pl_frame::column::{Column, Series};
use pl_frame::error::{PolarsError, PolarsResult};
use pl_frame::name::PlSmallStr;
use pl_frame::schema::Schema;
use std::alloc::Global;

/// Whether each of the names is that of a partition or of a column of the file: of the schema, and not of its first column
/// where that is a row index. Takes no memory.
pub fn have_places(
    names: &[PlSmallStr],
    schema: &Schema,
    hive_partitions: Option<&[Series]>,
    has_row_index: bool,
) -> bool
    ensures { result ≡ have_places schema.now (partitions_in hive_partitions.entry) has_row_index names.now }
{
    let partitions = partitions_in(hive_partitions);
    names.iter().all(|name| has_place(partitions, schema, has_row_index, name.as_str()))
}

/// The places in a file of the columns that are asked for, in the order of their names; `None` where none are named.
///
/// A name of a partition is passed over, since its column stands in no file. Each other name must be one of the schema, and
/// where a row index stands first, its place is counted without that; the row index itself must not be asked for.
/// `have_places` tells whether it is so. Refuses only want of memory.
pub fn materialize_projection(
    alloc: Global,
    with_columns: Option<&[PlSmallStr]>,
    schema: &Schema,
    hive_partitions: Option<&[Series]>,
    has_row_index: bool,
) -> PolarsResult<Option<Vec<usize>>>
    requires { ForSome with_columns (λ names. IsTrue (have_places schema.now (partitions_in hive_partitions) has_row_index names.now)) }
    ensures named { IfOk result (λ found. IsSome found ↔ IsSome with_columns.entry) }
    ensures places { IfOk result (λ found. IfSome found (λ places. IfSome with_columns.entry (λ names. ArePlaces schema.now (partitions_in hive_partitions.entry) has_row_index names.now places.items))) }
    ensures refused { IsOkUnless result error.OutOfMemory }
{
    let Some(names) = with_columns else {
        return Ok(None);
    };
    let partitions = partitions_in(hive_partitions);
    let places = places_of(alloc, names, schema, partitions, has_row_index)?;
    Ok(Some(places))
}

// The places of the names that are none of a partition. Refuses only want of memory.
fn places_of(
    alloc: Global,
    names: &[PlSmallStr],
    schema: &Schema,
    partitions: &[Column],
    has_row_index: bool,
) -> PolarsResult<Vec<usize>>
    requires { IsTrue (have_places schema.now partitions.now has_row_index names.now) }
    ensures places { IfOk result (λ places. ArePlaces schema.now partitions.now has_row_index names.now places.items) }
    ensures refused { IsOkUnless result error.OutOfMemory }
{
    let mut places = Vec::new(alloc);
    for name in names {
        if is_partition(partitions, name.as_str()) {
            continue;
        }
        let place = place_of_name(schema, has_row_index, name.as_str());
        if places.push(place).is_err() {
            return Err(PolarsError::OutOfMemory);
        }
    }
    Ok(places)
}

// The partitions, where there are any.
fn partitions_in(hive_partitions: Option<&[Series]>) -> &[Series]
    ensures { result.now ≡ partitions_in hive_partitions.entry }
{
    hive_partitions.unwrap_or(&[])
}

// Whether a partition has this name.
fn is_partition(partitions: &[Column], name: &str) -> bool
    ensures { result ≡ is_partition partitions.now name.now }
{
    partitions.iter().any(|column| name == column.name())
}

// Whether a name is that of a partition or of a column of the file.
fn has_place(partitions: &[Column], schema: &Schema, has_row_index: bool, name: &str) -> bool
    ensures { result ≡ (is_partition partitions.now name.now || is_some (place_in_file schema.now has_row_index name.now)) }
{
    if is_partition(partitions, name) {
        return true;
    }
    match schema.index_of(name) {
        Some(0) => !has_row_index,
        Some(_) => true,
        None => false,
    }
}

// The place of a name that the file has.
fn place_of_name(schema: &Schema, has_row_index: bool, name: &str) -> usize
    requires { IsTrue (is_some (place_in_file schema.now has_row_index name.now)) }
    ensures { Some result ≡ place_in_file schema.now has_row_index name.now }
{
    let Some(place) = schema.index_of(name) else {
        unreachable!();
    };
    if has_row_index { place - 1 } else { place }
}
