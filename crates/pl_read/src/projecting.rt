//! Which columns of a schema are read.
ghost use Rattle.std.specs.Prelude.{◌≡◌, ◌<◌, ◌++◌, ◌∷◌, ℕ, [], nat_le, filter, find, length, slice_index, slice_index_or, IfOk, OnOk, IfErr, IsOkUnless, None, Some};
ghost use Rattle.std.specs.List.{filter_map, list_any, range_with_len};
ghost use Rattle.std.specs.Option.{option_map};
ghost use Rattle.std.specs.Str.{bytes_eq};
ghost use Rattle.pl_frame.specs.declared.error.PolarsError.TheVariants as error;
ghost use Rattle.pl_frame.specs.Schema.{place_of, lacks};
ghost use Rattle.pl_cells.specs.InitBuffers.{entry_at};
ghost use Rattle.pl_read.specs.Projection.{greater, asked, projected, unknown_column, greatest, taken_name};
ghost use Rattle.pl_options.specs.FirstCause.{IsFault};
ghost use Rattle.pl_read.specs.Steps.{once_more, is_asked, is_more, all_times, projection_cause};

use pl_frame::error::{NamePlace, PolarsError, PolarsResult};
use pl_frame::name::PlSmallStr;
use pl_frame::schema::Schema;
use pl_options::read_options::CsvReadOptions;
use pl_rows::columns::all_places;
use std::alloc::Global;

// Puts a number at the end. Refuses only want of memory.
fn push(numbers: &mut Vec<usize>, number: usize) -> PolarsResult<()>
    ensures pushed { OnOk result (numbers.new.items ≡ numbers.old.items ++ number ∷ []) }
    ensures refused { IsOkUnless result error.OutOfMemory }
{
    match numbers.push(number) {
        Ok(()) => Ok(()),
        Err(_) => Err(PolarsError::OutOfMemory),
    }
}

// The places of names in a schema. Refuses the first name that it doesn't have (`ColumnNotFound`), and want of memory.
fn places_of(alloc: Global, names: &[PlSmallStr], schema: &Schema) -> PolarsResult<Vec<usize>>
    ensures places { IfOk result (λ places. places.items ≡ filter_map (λ name. place_of name schema.now) names.now) }
    ensures known { OnOk result (find (lacks schema.now) names.now ≡ None) }
    ensures refused { IfErr result (IsFault (option_map error.ColumnNotFound (find (lacks schema.now) names.now))) }
{
    let mut places = Vec::new(alloc);
    for name in names {
        match schema.index_of(name.as_str()) {
            Some(place) => push(&mut places, place)?,
            None => return Err(PolarsError::ColumnNotFound(name.try_clone()?)),
        }
    }
    Ok(places)
}

// The same numbers. Refuses only want of memory.
fn copied(alloc: Global, numbers: &[usize]) -> PolarsResult<Vec<usize>>
    ensures copied { IfOk result (λ copy. copy.items ≡ numbers.now) }
    ensures refused { IsOkUnless result error.OutOfMemory }
{
    match numbers.to_vec(alloc) {
        Ok(copy) => Ok(copy),
        Err(_) => Err(PolarsError::OutOfMemory),
    }
}

// The numbers below another, in order. Refuses only want of memory.
fn numbers_below(alloc: Global, count: usize) -> PolarsResult<Vec<usize>>
    ensures numbers { IfOk result (λ numbers. numbers.items ≡ range_with_len 0 count) }
    ensures refused { IsOkUnless result error.OutOfMemory }
{
    match all_places(alloc, count) {
        Ok(numbers) => Ok(numbers),
        Err(_) => Err(PolarsError::OutOfMemory),
    }
}

/// The places of the columns that are asked, in the order in which they are asked. Refuses the first name that the schema
/// doesn't have (`ColumnNotFound`), and want of memory.
pub fn asked_places(
    alloc: Global,
    options: &CsvReadOptions,
    schema: &Schema,
) -> PolarsResult<Vec<usize>>
    ensures places { IfOk result (λ places. places.items ≡ asked options.now schema.now) }
    ensures known { OnOk result (unknown_column options.now schema.now ≡ None) }
    ensures refused { IfErr result (IsFault (option_map error.ColumnNotFound (unknown_column options.now schema.now))) }
{
    match (&options.columns, &options.projection) {
        (Some(names), _) => places_of(alloc, names.names(), schema),
        (None, Some(places)) => copied(alloc, places.places()),
        (None, None) => numbers_below(alloc, schema.len()),
    }
}

// The greatest of the numbers that are not below another.
fn greatest_outside(places: &[usize], width: usize) -> Option<usize>
    ensures { result ≡ greatest (filter (nat_le width) places.now) }
{
    let mut greatest = None;
    for place in places {
        if *place >= width {
            greatest = Some(greater(greatest, *place));
        }
    }
    greatest
}

// The greater of two numbers, where both are there.
fn greater(one: Option<usize>, other: usize) -> usize
    ensures { Some result ≡ greater one other }
{
    match one {
        Some(one) => one.max(other),
        None => other,
    }
}

/// How often a place is asked.
#[derive(Clone, Copy)]
enum Times {
    Never,
    Once,
    More,
}

impl Times {
    // Once more.
    fn more(self) -> Times
        ensures { result ≡ once_more self }
    {
        match self {
            Times::Never => Times::Once,
            Times::Once | Times::More => Times::More,
        }
    }

    // At least once.
    fn is_asked(self) -> bool
        ensures { result ≡ is_asked self }
    {
        !matches!(self, Times::Never)
    }

    // More than once.
    fn is_more(self) -> bool
        ensures { result ≡ is_more self }
    {
        matches!(self, Times::More)
    }
}

// How often each place of a schema is asked. Refuses only want of memory.
fn times_asked(alloc: Global, places: &[usize], width: usize) -> PolarsResult<Vec<Times>>
    requires { filter (nat_le width) places.now ≡ [] }
    ensures times { IfOk result (λ times. times.items ≡ all_times places.now width) }
    ensures refused { IsOkUnless result error.OutOfMemory }
{
    let Ok(mut times) = vec![in alloc; Times::Never; width] else {
        return Err(PolarsError::OutOfMemory);
    };
    for place in places {
        times[*place] = times[*place].more();
    }
    Ok(times)
}

// The least place that is asked more than once.
fn find_doubled(times: &[Times]) -> Option<usize>
    ensures { result ≡ find (λ place. is_more (slice_index_or times.now place Times.Never)) (range_with_len 0 (length times.now)) }
{
    for place in 0..times.len() {
        if times[place].is_more() {
            return Some(place);
        }
    }
    None
}

// The places that are asked, in the order of the schema. Refuses only want of memory.
fn places_asked(alloc: Global, times: &[Times]) -> PolarsResult<Vec<usize>>
    ensures places { IfOk result (λ places. places.items ≡ filter (λ place. is_asked (slice_index_or times.now place Times.Never)) (range_with_len 0 (length times.now))) }
    ensures refused { IsOkUnless result error.OutOfMemory }
{
    let mut places = Vec::new(alloc);
    for place in 0..times.len() {
        if times[place].is_asked() {
            push(&mut places, place)?;
        }
    }
    Ok(places)
}

// The name at a place of a schema.
fn name_at(schema: &Schema, place: usize) -> &PlSmallStr
    requires { place < length schema.now }
    ensures { result.now ≡ (entry_at schema.now place).0 }
{
    match schema.get_at_index(place) {
        Some((name, _)) => name,
        None => unreachable!(),
    }
}

// The refusal of a name that stands twice.
fn duplicate(name: &PlSmallStr) -> PolarsError
    ensures { IsFault (Some (error.Duplicate name.now NamePlace.Projection)) result }
{
    match name.try_clone() {
        Ok(name) => PolarsError::Duplicate {
            name,
            at: NamePlace::Projection,
        },
        Err(fault) => fault,
    }
}

// Whether one of the columns at these places has this name.
fn has_name(schema: &Schema, places: &[usize], name: &PlSmallStr) -> bool
    requires { (k : ℕ) → k < length places.now → slice_index places.now k < length schema.now }
    ensures { result ≡ list_any (λ place. bytes_eq name.now (entry_at schema.now place).0) places.now }
{
    for place in places {
        if name == name_at(schema, *place) {
            return true;
        }
    }
    false
}

/// The places of the columns that are read, in the order of the schema, of those that are asked. Refuses the greatest place
/// that is none of the schema's (`OutOfBounds`), then the least that is asked twice, or the name of the row index where a
/// column that is read has it (`Duplicate` at the projection), and want of memory.
pub fn projected_places(
    alloc: Global,
    options: &CsvReadOptions,
    schema: &Schema,
    places: &[usize],
) -> PolarsResult<Vec<usize>>
    requires { places.now ≡ asked options.now schema.now }
    ensures places { IfOk result (λ places. places.items ≡ projected options.now schema.now) }
    ensures sound { OnOk result (projection_cause options.now schema.now ≡ None) }
    ensures free { OnOk result (taken_name options.now schema.now ≡ None) }
    ensures refused { IfErr result (IsFault (projection_cause options.now schema.now)) }
{
    let width = schema.len();
    if let Some(index) = greatest_outside(places, width) {
        return Err(PolarsError::OutOfBounds {
            index,
            length: width,
        });
    }
    let times = times_asked(alloc, places, width)?;
    if let Some(place) = find_doubled(&times) {
        return Err(duplicate(name_at(schema, place)));
    }
    let read = places_asked(alloc, &times)?;
    match check_index_name(options, schema, &read) {
        Ok(()) => Ok(read),
        Err(fault) => Err(fault),
    }
}

// Refuses the name of the row index, where one of the columns at these places has it, and want of memory.
fn check_index_name(options: &CsvReadOptions, schema: &Schema, places: &[usize]) -> PolarsResult<()>
    requires { places.now ≡ projected options.now schema.now }
    ensures sound { OnOk result (taken_name options.now schema.now ≡ None) }
    ensures refused { IfErr result (IsFault (option_map (λ name. error.Duplicate name NamePlace.Projection) (taken_name options.now schema.now))) }
{
    match &options.row_index {
        Some(index) => {
            if has_name(schema, places, &index.name) {
                return Err(duplicate(&index.name));
            }
            Ok(())
        }
        None => Ok(()),
    }
}
