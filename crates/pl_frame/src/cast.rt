//! Columns under another type.
ghost use Rattle.std.specs.Prelude.{◌≡◌, ◌++◌, ◌∷◌, [], true, false, map, IfOk, OnOk, IsOkUnless, None, Some};
ghost use Rattle.std.specs.Option.{option_map};
ghost use Rattle.pl_frame.specs.Casts.{is_string, is_cast, is_other_cast, number_in, cast_column};
ghost use Rattle.pl_frame.specs.Categories.{code_of};
ghost use Rattle.pl_frame.specs.Columns.{number_cells, scalar_of, text_in, is_coded, HoldsType};
ghost use Rattle.pl_frame.specs.declared.error.PolarsError.TheVariants as error;
ghost use Rattle.pl_frame.specs.Equal.{types_equal};
ghost use Rattle.pl_frame.specs.Frame.{Number};
ghost use Rattle.pl_frame.specs.Names.{first_repeat};
ghost use Rattle.pl_frame.specs.Types.{from_to, is_narrow, is_whole_number};

use crate::codes::{Codes, CodesBuilder};
use crate::column::{Column, Value};
use crate::constructors::push_narrow;
use crate::data_type::{Categories, DataType};
use crate::error::{PolarsError, PolarsResult};
use crate::name::PlSmallStr;
use crate::numbers::Numbers;
use crate::places::Places;
use crate::range::NumberRange;
use crate::texts::Texts;
use std::alloc::{AllocError, Global};

impl DataType {
    /// Whether a column of the type can be cast to another, without taking memory: to a readable type which is the same,
    /// from a whole number to a whole number, or between `String` and a type that is kept as codes.
    pub fn casts_to(&self, to: &DataType) -> bool
        ensures { result ≡ is_cast self.now to.now }
    {
        to.readable() && (self == to || is_other_cast(self, to))
    }
}

// A cast from one type to another.
fn is_other_cast(from: &DataType, to: &DataType) -> bool
    ensures { result ≡ is_other_cast from.now to.now }
{
    if is_whole_number(from) {
        is_whole_number(to)
    } else if is_string(from) {
        to.is_coded()
    } else {
        from.is_coded() && is_string(to)
    }
}

fn is_whole_number(dtype: &DataType) -> bool
    ensures { result ≡ is_whole_number dtype.now }
{
    matches!(
        dtype,
        DataType::Int8
            | DataType::Int16
            | DataType::Int32
            | DataType::Int64
            | DataType::Int128
            | DataType::UInt8
            | DataType::UInt16
            | DataType::UInt32
            | DataType::UInt64
    )
}

fn is_string(dtype: &DataType) -> bool
    ensures { result ≡ is_string dtype.now }
{
    matches!(dtype, DataType::String)
}

impl Column {
    /// The column under another type: each value stays where it is one of that type, and is null where it is none. Refuses
    /// only want of memory.
    pub fn cast(&self, alloc: Global, to: &DataType) -> PolarsResult<Column>
        requires carried { is_cast self.now.dtype to.now ≡ true }
        ensures column { IfOk result (λ column. column ≡ cast_column self.now to.now) }
        ensures refused { IsOkUnless result error.OutOfMemory }
    {
        if self.dtype() == to {
            return self.try_clone();
        }
        if self.is_plain() {
            return cast_plain(alloc, self, to);
        }
        let plain = self.all_plain(alloc)?;
        cast_plain(alloc, &plain, to)
    }
}

// The column under another type.
fn cast_plain(alloc: Global, column: &Column, to: &DataType) -> PolarsResult<Column>
    requires held { HoldsType column.now.dtype column.now.values }
    requires carried { is_cast column.now.dtype to.now ≡ true }
    requires other { types_equal column.now.dtype to.now ≡ false }
    ensures column { IfOk result (λ cast. cast ≡ cast_column column.now to.now) }
    ensures refused { IsOkUnless result error.OutOfMemory }
{
    match to {
        DataType::String => cast_to_string(alloc, column),
        DataType::Categorical => cast_to_categories(alloc, column),
        DataType::Enum(Some(categories)) => cast_to_enum(alloc, column, categories),
        _ => cast_to_whole(alloc, column, to),
    }
}

fn cast_to_string(alloc: Global, column: &Column) -> PolarsResult<Column>
    requires held { HoldsType column.now.dtype column.now.values }
    ensures column { IfOk result (λ cast. cast ≡ cast_column column.now DataType.String) }
    ensures refused { IsOkUnless result error.OutOfMemory }
{
    let name = PlSmallStr::from_str(alloc, column.name())?;
    match texts_of(alloc, column) {
        Ok(texts) => Ok(Column::from_string(name, texts)),
        Err(_) => Err(PolarsError::OutOfMemory),
    }
}

fn cast_to_categories(alloc: Global, column: &Column) -> PolarsResult<Column>
    requires held { HoldsType column.now.dtype column.now.values }
    ensures column { IfOk result (λ cast. cast ≡ cast_column column.now DataType.Categorical) }
    ensures refused { IsOkUnless result error.OutOfMemory }
{
    let name = PlSmallStr::from_str(alloc, column.name())?;
    match codes_of(alloc, column) {
        Ok(texts) => Ok(Column::from_categories(name, texts)),
        Err(_) => Err(PolarsError::OutOfMemory),
    }
}

fn cast_to_enum(alloc: Global, column: &Column, categories: &Categories) -> PolarsResult<Column>
    requires held { HoldsType column.now.dtype column.now.values }
    requires distinct { first_repeat categories.now ≡ None }
    ensures column { IfOk result (λ cast. cast ≡ cast_column column.now (DataType.Enum (Some categories.now))) }
    ensures refused { IsOkUnless result error.OutOfMemory }
{
    let name = PlSmallStr::from_str(alloc, column.name())?;
    let dtype = DataType::Enum(Some(categories.try_clone()?));
    match places_of(alloc, column, categories) {
        Ok(places) => Ok(Column::from_enum(name, dtype, places)),
        Err(_) => Err(PolarsError::OutOfMemory),
    }
}

fn cast_to_whole(alloc: Global, column: &Column, to: &DataType) -> PolarsResult<Column>
    requires { is_whole_number to.now ≡ true }
    ensures column { IfOk result (λ cast. cast ≡ cast_column column.now to.now) }
    ensures refused { IsOkUnless result error.OutOfMemory }
{
    let name = PlSmallStr::from_str(alloc, column.name())?;
    let dtype = to.try_clone()?;
    let range = to.number_range();
    if range.is_narrow() {
        let Ok(numbers) = narrow_within(alloc, column, &range) else {
            return Err(PolarsError::OutOfMemory);
        };
        return Ok(Column::from_narrow(name, dtype, numbers));
    }
    match numbers_within(alloc, column, &range) {
        Ok(numbers) => Ok(Column::from_wide(name, dtype, numbers)),
        Err(_) => Err(PolarsError::OutOfMemory),
    }
}

// The numbers in a range that fits 64 bits, and a null elsewhere.
fn narrow_within(
    alloc: Global,
    column: &Column,
    range: &NumberRange,
) -> Result<Numbers<i64>, AllocError>
    requires { is_narrow (from_to range.now.low range.now.high) ≡ true }
    ensures { IfOk result (λ numbers. numbers ≡ map (number_in (from_to range.now.low range.now.high)) column.now.values) }
{
    match column.narrow_numbers() {
        Some(numbers) => narrow_of_narrow(alloc, numbers, range),
        None => narrow_of_rows(alloc, column, range),
    }
}

// The same of numbers that are kept in 64 bits.
fn narrow_of_narrow(
    alloc: Global,
    numbers: &Numbers<i64>,
    range: &NumberRange,
) -> Result<Numbers<i64>, AllocError>
    ensures { IfOk result (λ cast. cast ≡ map (number_in (from_to range.now.low range.now.high)) (number_cells numbers.now)) }
{
    let mut cast = Numbers::new(alloc);
    cast.reserve(numbers.len())?;
    for row in 0..numbers.len() {
        push_option(&mut cast, narrow_in(numbers.get(row), range))?;
    }
    Ok(cast)
}

// The same row by row, however the numbers are kept.
fn narrow_of_rows(
    alloc: Global,
    column: &Column,
    range: &NumberRange,
) -> Result<Numbers<i64>, AllocError>
    requires { is_narrow (from_to range.now.low range.now.high) ≡ true }
    ensures { IfOk result (λ numbers. numbers ≡ map (number_in (from_to range.now.low range.now.high)) column.now.values) }
{
    let mut numbers = Numbers::new(alloc);
    numbers.reserve(column.len())?;
    for row in 0..column.len() {
        push_narrow(&mut numbers, number_in(column.get(row), range))?;
    }
    Ok(numbers)
}

// The numbers in a range, and a null elsewhere.
fn numbers_within(
    alloc: Global,
    column: &Column,
    range: &NumberRange,
) -> Result<Numbers<i128>, AllocError>
    ensures { IfOk result (λ numbers. numbers ≡ map (number_in (from_to range.now.low range.now.high)) column.now.values) }
{
    let mut numbers = Numbers::new(alloc);
    numbers.reserve(column.len())?;
    for row in 0..column.len() {
        push_option(&mut numbers, number_in(column.get(row), range))?;
    }
    Ok(numbers)
}

// The texts.
fn texts_of(alloc: Global, column: &Column) -> Result<Texts, AllocError>
    ensures { IfOk result (λ texts. texts ≡ map text_in column.now.values) }
{
    let mut texts = Texts::new(alloc);
    texts.reserve(column.len(), 0)?;
    for row in 0..column.len() {
        push_text(&mut texts, column.get(row))?;
    }
    Ok(texts)
}

// The texts as codes.
fn codes_of(alloc: Global, column: &Column) -> Result<Codes, AllocError>
    ensures { IfOk result (λ texts. texts ≡ map text_in column.now.values) }
{
    let mut texts = CodesBuilder::new(alloc);
    for row in 0..column.len() {
        push_code(&mut texts, column.get(row))?;
    }
    Ok(texts.into_codes())
}

// The places of the texts among categories of which none stands twice.
fn places_of(
    alloc: Global,
    column: &Column,
    categories: &Categories,
) -> Result<Numbers<u64>, AllocError>
    requires { first_repeat categories.now ≡ None }
    ensures { IfOk result (λ places. places ≡ map (λ cell. code_of categories.now (text_in cell)) column.now.values) }
{
    let categories = Places::new(alloc, categories.texts())?;
    let mut places = Numbers::new(alloc);
    places.reserve(column.len())?;
    for row in 0..column.len() {
        push_option(&mut places, place_in(&categories, column.get(row)))?;
    }
    Ok(places)
}

// Puts the text in a cell at the end.
#[inline]
pub(crate) fn push_text(texts: &mut Texts, value: Value<'_>) -> Result<(), AllocError>
    ensures { OnOk result (texts.new ≡ texts.old ++ text_in (scalar_of value.entry) ∷ []) }
{
    match value {
        Value::Text(text) => texts.push(text),
        _ => texts.push_null(),
    }
}

// The same as a code.
#[inline]
pub(crate) fn push_code(texts: &mut CodesBuilder, value: Value<'_>) -> Result<(), AllocError>
    ensures { OnOk result (texts.new ≡ texts.old ++ text_in (scalar_of value.entry) ∷ []) }
{
    match value {
        Value::Text(text) => texts.push(text),
        _ => texts.push_null(),
    }
}

// Puts a number or a null at the end.
#[inline]
pub(crate) fn push_option<T: Copy + Default>(
    numbers: &mut Numbers<T>,
    value: Option<T>,
) -> Result<(), AllocError>
    ensures { OnOk result (numbers.new ≡ numbers.old ++ value ∷ []) }
{
    match value {
        Some(number) => numbers.push(number),
        None => numbers.push_null(),
    }
}

// The number in a cell, where it lies in the range.
#[inline]
fn number_in(value: Value<'_>, range: &NumberRange) -> Option<i128>
    ensures { result ≡ number_in (from_to range.now.low range.now.high) (scalar_of value.entry) }
{
    match value {
        Value::Whole(number) => number_within(number, range),
        _ => None,
    }
}

#[inline]
fn number_within(number: i128, range: &NumberRange) -> Option<i128>
    ensures { result ≡ number_in (from_to range.now.low range.now.high) (Some (Number number)) }
{
    if range.contains(number) {
        Some(number)
    } else {
        None
    }
}

// The number, where it lies in the range.
#[inline]
fn narrow_in(number: Option<i64>, range: &NumberRange) -> Option<i64>
    ensures { result ≡ number_in (from_to range.now.low range.now.high) (option_map Number number) }
{
    match number {
        Some(number) if range.contains(i128::from(number)) => Some(number),
        _ => None,
    }
}

// The place of the text in a cell.
#[inline]
fn place_in(categories: &Places, value: Value<'_>) -> Option<u64>
    ensures { result ≡ code_of categories.now (text_in (scalar_of value.entry)) }
{
    match value {
        Value::Text(text) => place_of(categories, text),
        _ => None,
    }
}

#[inline]
fn place_of(categories: &Places, text: &str) -> Option<u64>
    ensures { result ≡ code_of categories.now (Some text.now) }
{
    match categories.find(text) {
        Some(place) => Some(place as u64),
        None => None,
    }
}
