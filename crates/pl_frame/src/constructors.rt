//! Columns that are made of given values.
ghost use Rattle.std.specs.Prelude.{◌≡◌, ◌<◌, [], ◌∷◌, ◌++◌, true, false, not, length, IfOk, OnOk, IfErr, position, None, Some, IsOkUnless};
ghost use Rattle.std.specs.Option.{option_map};
ghost use Rattle.pl_frame.specs.Categories.{AreCodes, decoded};
ghost use Rattle.pl_frame.specs.Columns.{truth_cells, number_cells, text_cells, is_number, is_enum, is_coded, categories_of, misfits, first_misfit, IsFirstFault};
ghost use Rattle.pl_frame.specs.Frame.{Letters};
ghost use Rattle.pl_frame.specs.Names.{first_repeat};
ghost use Rattle.pl_frame.specs.Types.{is_readable, is_text, is_outside, signed_range};

use crate::codes::{Codes, CodesBuilder};
use crate::column::{Column, ColumnFault};
use crate::data_type::{Categories, DataType};
use crate::name::PlSmallStr;
use crate::numbers::Numbers;
use crate::places::Places;
use crate::texts::Texts;
use std::alloc::{AllocError, Global};

impl Column {
    /// A column of type `Boolean`. Refuses only want of memory.
    pub fn boolean(
        alloc: Global,
        name: PlSmallStr,
        values: Vec<Option<bool>>,
    ) -> Result<Column, ColumnFault>
        ensures column { IfOk result (λ c. c ≡ record { name = name; dtype = DataType.Boolean; values = truth_cells values.items }) }
        ensures refused { IsOkUnless result ColumnFault.OutOfMemory }
    {
        let truths = collect(alloc, &values)?;
        Ok(Column::from_booleans(name, truths))
    }

    /// A column of whole numbers, dates, times, datetimes or decimals, as `is_number` and `readable` of the type tell.
    /// Refuses a number outside the range of the type, with its row, and want of memory.
    pub fn whole(
        alloc: Global,
        name: PlSmallStr,
        dtype: DataType,
        values: Vec<Option<i128>>,
    ) -> Result<Column, ColumnFault>
        requires kind { is_number dtype ≡ true }
        requires readable { is_readable dtype ≡ true }
        ensures column { IfOk result (λ c. c ≡ record { name = name; dtype = dtype; values = number_cells values.items }) }
        ensures in_range { OnOk result (first_misfit dtype (number_cells values.items) ≡ None) }
        ensures refused { IfErr result (IsFirstFault (first_misfit dtype (number_cells values.items))) }
    {
        let range = dtype.number_range();
        if let Some(row) = range.first_outside(&values) {
            return Err(ColumnFault::OutOfRange { row });
        }
        if range.is_narrow() {
            let numbers = collect_narrow(alloc, &values)?;
            return Ok(Column::from_narrow(name, dtype, numbers));
        }
        let numbers = collect(alloc, &values)?;
        Ok(Column::from_wide(name, dtype, numbers))
    }

    /// A column of texts. Refuses a text that is none of the categories of an enum, with its row, and want of memory.
    pub fn text(
        alloc: Global,
        name: PlSmallStr,
        dtype: DataType,
        values: Vec<Option<PlSmallStr>>,
    ) -> Result<Column, ColumnFault>
        requires kind { is_text dtype ≡ true }
        requires readable { is_readable dtype ≡ true }
        ensures column { IfOk result (λ c. c ≡ record { name = name; dtype = dtype; values = text_cells values.items }) }
        ensures in_range { OnOk result (first_misfit dtype (text_cells values.items) ≡ None) }
        ensures refused { IfErr result (IsFirstFault (first_misfit dtype (text_cells values.items))) }
    {
        match &dtype {
            DataType::Enum(Some(categories)) => {
                match places_of(alloc, categories, &values) {
                    Ok(places) => Ok(Column::from_enum(name, dtype, places)),
                    Err(fault) => Err(fault),
                }
            }
            DataType::Categorical => {
                let texts = collect_codes(alloc, &values)?;
                Ok(Column::from_categories(name, texts))
            }
            _ => {
                let texts = collect_texts(alloc, &values)?;
                Ok(Column::from_string(name, texts))
            }
        }
    }
}

// Values and nulls in a vector with flags.
fn collect<T: Copy + Default>(alloc: Global, values: &[Option<T>]) -> Result<Numbers<T>, AllocError>
    ensures { IfOk result (λ numbers. numbers ≡ values.now) }
{
    let mut numbers = Numbers::new(alloc);
    numbers.reserve(values.len())?;
    for value in values {
        match value {
            None => numbers.push_null()?,
            Some(value) => numbers.push(*value)?,
        }
    }
    Ok(numbers)
}

// The same of numbers that fit 64 bits.
fn collect_narrow(alloc: Global, values: &[Option<i128>]) -> Result<Numbers<i64>, AllocError>
    requires { position (is_outside (signed_range 64)) values.now ≡ None }
    ensures { IfOk result (λ numbers. numbers ≡ values.now) }
{
    let mut numbers = Numbers::new(alloc);
    numbers.reserve(values.len())?;
    for value in values {
        push_narrow(&mut numbers, *value)?;
    }
    Ok(numbers)
}

// Puts a number that fits 64 bits at the end.
#[inline]
pub(crate) fn push_narrow(numbers: &mut Numbers<i64>, value: Option<i128>) -> Result<(), AllocError>
    requires { is_outside (signed_range 64) value ≡ false }
    ensures { OnOk result (numbers.new ≡ numbers.old ++ value ∷ []) }
{
    match value {
        None => numbers.push_null(),
        Some(number) => numbers.push(narrowed(number)),
    }
}

#[inline]
fn narrowed(number: i128) -> i64
    requires { is_outside (signed_range 64) (Some number) ≡ false }
    ensures { result ≡ number }
{
    number as i64
}

// Texts and nulls in one buffer.
fn collect_texts(alloc: Global, values: &[Option<PlSmallStr>]) -> Result<Texts, AllocError>
    ensures { IfOk result (λ texts. texts ≡ values.now) }
{
    let mut texts = Texts::new(alloc);
    texts.reserve(values.len(), 0)?;
    for value in values {
        match value {
            None => texts.push_null()?,
            Some(text) => texts.push(text.as_str())?,
        }
    }
    Ok(texts)
}

// Texts and nulls as codes.
fn collect_codes(alloc: Global, values: &[Option<PlSmallStr>]) -> Result<Codes, AllocError>
    ensures { IfOk result (λ texts. texts ≡ values.now) }
{
    let mut texts = CodesBuilder::new(alloc);
    for value in values {
        match value {
            None => texts.push_null()?,
            Some(text) => texts.push(text.as_str())?,
        }
    }
    Ok(texts.into_codes())
}

// The places of texts among categories of which none stands twice, up to the first text that is none of them.
fn places_of(
    alloc: Global,
    categories: &Categories,
    values: &[Option<PlSmallStr>],
) -> Result<Numbers<u64>, ColumnFault>
    requires { first_repeat categories.now ≡ None }
    ensures decoded { IfOk result (λ places. decoded categories.now places ≡ values.now) }
    ensures places { IfOk result (λ places. AreCodes categories.now places) }
    ensures in_range { OnOk result (first_misfit (DataType.Enum (Some categories.now)) (text_cells values.now) ≡ None) }
    ensures refused { IfErr result (IsFirstFault (first_misfit (DataType.Enum (Some categories.now)) (text_cells values.now))) }
{
    let categories = Places::new(alloc, categories.texts())?;
    collect_places(alloc, &categories, values)
}

// The same, where the places of the categories are known.
fn collect_places(
    alloc: Global,
    categories: &Places,
    values: &[Option<PlSmallStr>],
) -> Result<Numbers<u64>, ColumnFault>
    ensures decoded { IfOk result (λ places. decoded categories.now places ≡ values.now) }
    ensures places { IfOk result (λ places. AreCodes categories.now places) }
    ensures in_range { OnOk result (first_misfit (DataType.Enum (Some categories.now)) (text_cells values.now) ≡ None) }
    ensures refused { IfErr result (IsFirstFault (first_misfit (DataType.Enum (Some categories.now)) (text_cells values.now))) }
{
    let mut places = Numbers::new(alloc);
    places.reserve(values.len())?;
    for (row, value) in values.iter().enumerate() {
        if !push_place(&mut places, categories, value)? {
            return Err(ColumnFault::OutOfRange { row });
        }
    }
    Ok(places)
}

// Puts the place of a text at the end, and says whether it has one.
fn push_place(
    places: &mut Numbers<u64>,
    categories: &Places,
    value: &Option<PlSmallStr>,
) -> Result<bool, AllocError>
    requires { AreCodes categories.now places.old }
    ensures tested { IfOk result (λ fits. fits ≡ not (misfits (DataType.Enum (Some categories.now)) (option_map Letters value.now))) }
    ensures pushed { IfOk result (λ fits. fits ≡ true → decoded categories.now places.new ≡ decoded categories.now places.old ++ value.now ∷ []) }
    ensures places { IfOk result (λ fits. fits ≡ true → AreCodes categories.now places.new) }
{
    match value {
        None => places.push_null()?,
        Some(text) => match categories.find(text.as_str()) {
            Some(place) => places.push(place as u64)?,
            None => return Ok(false),
        },
    }
    Ok(true)
}
