//! Columns: a name, a type and values of that type.
ghost use Rattle.std.specs.Prelude.{◌≡◌, ◌<◌, ◌++◌, true, false, length, IfOk, IfSome, OnOk, IsOk, IsOkUnless, count_by, is_none, replicate, slice_get, slice_index_or, unwrap_or, [], None};
ghost use Rattle.std.specs.Option.{option_map};
ghost use Rattle.pl_frame.specs.Categories.{AreCodes, decoded};
ghost use Rattle.pl_frame.specs.Columns.{scalar_of, truth_cells, number_cells, text_cells, is_number, is_coded, is_enum, categories_of, HoldsType, dictionary, code_at};
ghost use Rattle.pl_frame.specs.Frame.{Truth, Number, Letters, cell_at};
ghost use Rattle.pl_frame.specs.Parts.{part_cells};
ghost use Rattle.pl_frame.specs.declared.error.PolarsError.TheVariants as error;

use crate::codes::Codes;
use crate::data_type::DataType;
use crate::error::{ComputeFault, FaultKind, PolarsError, PolarsResult};
use crate::name::PlSmallStr;
use crate::numbers::Numbers;
use crate::part::{Part, text_value};
use crate::parts::Parts;
use crate::texts::Texts;
use std::alloc::AllocError;
use std::marker::Model;
use thiserror::Error;

/// What a cell holds.
#[derive(Clone, Copy, Debug, PartialEq, Eq)]
pub enum Value<'a> {
    Null,
    Boolean(bool),
    Whole(i128),
    Text(&'a str),
}

/// Why no column could be made.
#[derive(Clone, Copy, Debug, PartialEq, Eq, Error)]
pub enum ColumnFault {
    /// The value in this row, and in no earlier one, is outside the range of the type.
    #[error("the value in row {row} is outside the range of the type")]
    OutOfRange { row: usize },
    #[error("out of memory")]
    OutOfMemory,
}

impl From<AllocError> for ColumnFault {
    ghost use Rattle.std.specs.Prelude.{◌≡◌};
    ghost use Rattle.pl_frame.specs.declared.column.ColumnFault.TheVariants.{OutOfMemory};

    ghost from_gives = { λ _ fault. fault ≡ OutOfMemory };

    fn from(_e: AllocError) -> ColumnFault {
        ColumnFault::OutOfMemory
    }
}

// A column that is not in a table yet has no place there, so its fault is at column 0.
impl From<ColumnFault> for PolarsError {
    ghost use Rattle.std.specs.Prelude.{◌≡◌};
    ghost use Rattle.pl_frame.specs.Converted.{error_of_column};

    ghost from_gives = { λ fault error. error ≡ error_of_column fault };

    fn from(fault: ColumnFault) -> PolarsError {
        match fault {
            ColumnFault::OutOfRange { row } => PolarsError::ComputeError(ComputeFault::Record {
                row,
                column: 0,
                kind: FaultKind::Value,
            }),
            ColumnFault::OutOfMemory => PolarsError::OutOfMemory,
        }
    }
}

// The kinds in which values are kept.
#[derive(Debug, Drop)]
pub(crate) enum Data {
    /// All in one part.
    Single(Part),
    Parts(Parts),
    Categories(Codes),
    /// Places among the categories of the type.
    Enum(Numbers<u64>),
}

/// A name, a type and values of that type, some of which may be null.
#[derive(Debug, Drop)]
pub struct Column {
    name: PlSmallStr,
    dtype: DataType,
    kept: Data,
}

/// Another name for a column.
pub type Series = Column;

impl Model for Column {
    ghost use Rattle.pl_frame.specs.Frame.{ColumnValue};

    ghost Value = { ColumnValue };

    ghost use Rattle.pl_frame.specs.ColumnData.{cells, FitsType};

    ghost view = { λ c. record { name = c.name; dtype = c.dtype; values = cells c.dtype c.kept } };

    ghost invariant = { λ c. FitsType c.dtype c.kept };
}

impl Column {
    /// A column of type `Boolean` that takes these values over, without taking memory.
    pub fn from_booleans(name: PlSmallStr, truths: Numbers<bool>) -> Column
        ensures { result ≡ record { name = name; dtype = DataType.Boolean; values = truth_cells truths } }
    {
        Column {
            name,
            dtype: DataType::Boolean,
            kept: Data::Single(Part::Boolean(truths)),
        }
    }

    /// A column of a type of numbers that takes these over, without taking memory. They are in the range of the type.
    pub fn from_narrow(name: PlSmallStr, dtype: DataType, numbers: Numbers<i64>) -> Column
        requires kind { is_number dtype ≡ true }
        requires held { HoldsType dtype (number_cells numbers) }
        ensures { result ≡ record { name = name; dtype = dtype; values = number_cells numbers } }
    {
        Column {
            name,
            dtype,
            kept: Data::Single(Part::Narrow(numbers)),
        }
    }

    /// A column of a type of numbers that takes these over, without taking memory. They are in the range of the type.
    pub fn from_wide(name: PlSmallStr, dtype: DataType, numbers: Numbers<i128>) -> Column
        requires kind { is_number dtype ≡ true }
        requires held { HoldsType dtype (number_cells numbers) }
        ensures { result ≡ record { name = name; dtype = dtype; values = number_cells numbers } }
    {
        Column {
            name,
            dtype,
            kept: Data::Single(Part::Wide(numbers)),
        }
    }

    /// A column of type `Int64` that takes these numbers over, without taking memory.
    pub fn from_int64(name: PlSmallStr, numbers: Numbers<i64>) -> Column
        ensures { result ≡ record { name = name; dtype = DataType.Int64; values = number_cells numbers } }
    {
        read_all(&numbers);
        Column::from_narrow(name, DataType::Int64, numbers)
    }

    /// A column of type `String` that takes these texts over, without taking memory.
    pub fn from_string(name: PlSmallStr, texts: Texts) -> Column
        ensures column { result ≡ record { name = name; dtype = DataType.String; values = text_cells texts } }
        ensures held { HoldsType DataType.String (text_cells texts) }
    {
        // `len` is called for its clause that the texts are UTF-8.
        let _len = texts.len();
        Column {
            name,
            dtype: DataType::String,
            kept: Data::Single(Part::Texts(texts)),
        }
    }

    /// A column of type `Categorical` that takes these texts over, without taking memory.
    pub fn from_categories(name: PlSmallStr, texts: Codes) -> Column
        ensures column { result ≡ record { name = name; dtype = DataType.Categorical; values = text_cells texts } }
        ensures held { HoldsType DataType.Categorical (text_cells texts) }
    {
        // `len` is called for its clause that the texts are UTF-8.
        let _len = texts.len();
        Column {
            name,
            dtype: DataType::Categorical,
            kept: Data::Categories(texts),
        }
    }

    /// A column of an enum that takes over the places of the texts among its categories, without taking memory. Each is
    /// the first place of its text.
    pub fn from_enum(name: PlSmallStr, dtype: DataType, places: Numbers<u64>) -> Column
        requires kind { is_enum dtype ≡ true }
        requires places { AreCodes (categories_of dtype) places }
        requires held { HoldsType dtype (text_cells (decoded (categories_of dtype) places)) }
        ensures { result ≡ record { name = name; dtype = dtype; values = text_cells (decoded (categories_of dtype) places) } }
    {
        Column {
            name,
            dtype,
            kept: Data::Enum(places),
        }
    }

    /// A column of type `Null` with so many rows, without taking memory.
    pub fn nulls(name: PlSmallStr, len: usize) -> Result<Column, ColumnFault>
        ensures { IfOk result (λ c. c ≡ record { name = name; dtype = DataType.Null; values = replicate len None }) × IsOk result }
    {
        Ok(Column {
            name,
            dtype: DataType::Null,
            kept: Data::Single(Part::Null(len)),
        })
    }

    // A column of a type that is not kept as codes, whose values are these. They are values of the type.
    pub(crate) fn of_part(name: PlSmallStr, dtype: DataType, part: Part) -> Column
        requires coded { is_coded dtype ≡ false }
        requires held { HoldsType dtype (part_cells part) }
        ensures { result ≡ record { name = name; dtype = dtype; values = part_cells part } }
    {
        Column {
            name,
            dtype,
            kept: Data::Single(part),
        }
    }

    // The same of values in parts.
    pub(crate) fn of_parts(name: PlSmallStr, dtype: DataType, parts: Parts) -> Column
        requires coded { is_coded dtype ≡ false }
        requires held { HoldsType dtype parts }
        ensures { result ≡ record { name = name; dtype = dtype; values = parts } }
    {
        Column {
            name,
            dtype,
            kept: Data::Parts(parts),
        }
    }

    // The values, where all are kept in one part, without taking memory.
    #[inline]
    pub(crate) fn single(&self) -> Option<&Part>
        ensures cells { IfSome result (λ part. part_cells part.now ≡ self.now.values) }
        ensures coded { IfSome result (λ part. is_coded self.now.dtype ≡ false) }
    {
        match &self.kept {
            Data::Single(part) => Some(part),
            _ => None,
        }
    }

    // The values, where they are kept in parts, without taking memory.
    #[inline]
    pub(crate) fn parts(&self) -> Option<&Parts>
        ensures cells { IfSome result (λ parts. parts.now ≡ self.now.values) }
        ensures coded { IfSome result (λ parts. is_coded self.now.dtype ≡ false) }
    {
        match &self.kept {
            Data::Parts(parts) => Some(parts),
            _ => None,
        }
    }

    // Puts the values of a type that is not kept as codes behind others. Refuses only want of memory.
    pub(crate) fn put_into(self, dtype: &DataType, parts: &mut Parts) -> Result<(), AllocError>
        requires same { self.dtype ≡ dtype.now }
        requires coded { is_coded dtype.now ≡ false }
        requires held { HoldsType dtype.now parts.old }
        ensures values { OnOk result (parts.new ≡ parts.old ++ self.values) }
        ensures held { OnOk result (HoldsType dtype.now parts.new) }
    {
        let Column {
            name: _,
            dtype: _,
            kept,
        } = self;
        match kept {
            Data::Single(part) => parts.push(part),
            Data::Parts(more) => parts.append(more),
            Data::Categories(_) | Data::Enum(_) => unreachable!(),
        }
    }

    /// An equal column. Refuses only want of memory.
    pub fn try_clone(&self) -> PolarsResult<Column>
        ensures equal { IfOk result (λ column. column ≡ self.now) }
        ensures refused { IsOkUnless result error.OutOfMemory }
    {
        let name = self.name.try_clone()?;
        let dtype = self.dtype.try_clone()?;
        match copy_kept(&self.kept) {
            Ok(kept) => Ok(Column { name, dtype, kept }),
            Err(_) => Err(PolarsError::OutOfMemory),
        }
    }

    /// The name, without taking memory.
    pub fn name(&self) -> &str
        ensures { result.now ≡ self.now.name }
    {
        self.name.as_str()
    }

    /// The type, without taking memory. Each value is one of it, or a null.
    pub fn dtype(&self) -> &DataType
        ensures dtype { result.now ≡ self.now.dtype }
        ensures held { HoldsType self.now.dtype self.now.values }
    {
        &self.dtype
    }

    /// The number of rows, without taking memory.
    pub fn len(&self) -> usize
        ensures { result ≡ length self.now.values }
    {
        match &self.kept {
            Data::Single(part) => part.len(),
            Data::Parts(parts) => parts.len(),
            Data::Categories(texts) => texts.len(),
            Data::Enum(places) => places.len(),
        }
    }

    /// How many values are null, without taking memory.
    pub fn null_count(&self) -> usize
        ensures { result ≡ count_by is_none self.now.values }
    {
        match &self.kept {
            Data::Single(part) => part.null_count(),
            Data::Parts(parts) => parts.null_count(),
            Data::Categories(texts) => texts.null_count(),
            Data::Enum(places) => places.null_count(),
        }
    }

    /// What a row holds, without taking memory.
    #[inline]
    pub fn get(&self, row: usize) -> Value<'_>
        requires { row < length self.now.values }
        ensures { scalar_of result ≡ cell_at self.now row }
    {
        match &self.kept {
            Data::Single(part) => part.get(row),
            Data::Parts(parts) => parts.get(row),
            Data::Categories(texts) => text_value(texts.get(row)),
            Data::Enum(places) => text_value(category_at(&self.dtype, places, row)),
        }
    }

    /// The numbers, where they are kept in 64 bits, without taking memory.
    #[inline]
    pub fn narrow_numbers(&self) -> Option<&Numbers<i64>>
        ensures { IfSome result (λ numbers. number_cells numbers.now ≡ self.now.values) }
    {
        match &self.kept {
            Data::Single(part) => part.narrow_numbers(),
            _ => None,
        }
    }

    /// The numbers, where they are kept in 128 bits, without taking memory.
    #[inline]
    pub fn wide_numbers(&self) -> Option<&Numbers<i128>>
        ensures { IfSome result (λ numbers. number_cells numbers.now ≡ self.now.values) }
    {
        match &self.kept {
            Data::Single(part) => part.wide_numbers(),
            _ => None,
        }
    }

    /// The texts, where they are kept one by one, without taking memory.
    #[inline]
    pub fn kept_texts(&self) -> Option<&Texts>
        ensures { IfSome result (λ texts. text_cells texts.now ≡ self.now.values) }
    {
        match &self.kept {
            Data::Single(part) => part.kept_texts(),
            _ => None,
        }
    }

    // The texts, where they are kept as codes beside a dictionary, without taking memory.
    pub(crate) fn kept_codes(&self) -> Option<&Codes>
        ensures { IfSome result (λ texts. text_cells texts.now ≡ self.now.values) }
    {
        match &self.kept {
            Data::Categories(texts) => Some(texts),
            _ => None,
        }
    }

    /// The dictionary, without taking memory: of an enum its categories, and of a `Categorical` column its texts, each
    /// once, in order of first appearance.
    pub fn categories(&self) -> &[PlSmallStr]
        requires { is_coded self.now.dtype ≡ true }
        ensures { result.now ≡ dictionary self.now.dtype self.now.values }
    {
        match &self.kept {
            Data::Categories(texts) => texts.dictionary(),
            _ => enum_texts(&self.dtype),
        }
    }

    /// The place of a row's text in the dictionary, and none exactly at a null. Takes no memory.
    #[inline]
    pub fn code(&self, row: usize) -> Option<u64>
        requires kind { is_coded self.now.dtype ≡ true }
        requires row { row < length self.now.values }
        ensures code { result ≡ code_at self.now row }
        ensures null { is_none result ≡ is_none (cell_at self.now row) }
    {
        match &self.kept {
            Data::Categories(texts) => texts.code(row),
            Data::Enum(places) => places.get(row),
            _ => None,
        }
    }
}

// Equal values, kept in the same way.
fn copy_kept(kept: &Data) -> Result<Data, AllocError>
    ensures { IfOk result (λ copy. copy ≡ kept.now) }
{
    Ok(match kept {
        Data::Single(part) => Data::Single(part.try_clone()?),
        Data::Parts(parts) => Data::Parts(parts.try_clone()?),
        Data::Categories(texts) => Data::Categories(texts.try_clone()?),
        Data::Enum(places) => Data::Enum(places.try_clone()?),
    })
}

// The text of a row of an enum.
#[inline]
fn category_at<'a>(dtype: &'a DataType, places: &Numbers<u64>, row: usize) -> Option<&'a str>
    requires row { row < length places.now }
    requires places { AreCodes (categories_of dtype.now) places.now }
    ensures { option_map (λ text. text.now) result ≡ unwrap_or (slice_get (decoded (categories_of dtype.now) places.now) row) None }
{
    match places.get(row) {
        Some(place) => Some(text_at(enum_texts(dtype), place)),
        None => None,
    }
}

#[inline]
fn text_at(texts: &[PlSmallStr], place: u64) -> &str
    requires { place < length texts.now }
    ensures { result.now ≡ slice_index_or texts.now place [] }
{
    texts[place as usize].as_str()
}

// The categories of an enum, and none of any other type.
#[inline]
fn enum_texts(dtype: &DataType) -> &[PlSmallStr]
    ensures { result.now ≡ categories_of dtype.now }
{
    match dtype {
        DataType::Enum(Some(categories)) => categories.texts(),
        _ => &[],
    }
}

// Reads each number, from which the proof learns that it is one of 64 bits. The compiled loop is empty.
fn read_all(numbers: &Numbers<i64>)
    ensures { HoldsType DataType.Int64 (number_cells numbers.now) }
{
    for row in 0..numbers.len() {
        let _number = numbers.get(row);
    }
}
