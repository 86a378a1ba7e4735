//! The types of columns.
ghost use Rattle.std.specs.Prelude.{◌≡◌, IfOk, IsOkUnless};
ghost use Rattle.pl_frame.specs.declared.error.PolarsError.TheVariants as error;
ghost use Rattle.std.specs.Cmp.{partial_equiv_from_equiv};
ghost use Rattle.std.specs.Cmp.Lexicographic.{lists_equiv, lists_per, nat_list_eq_equiv, pointwise};
ghost use Rattle.std.specs.Str.{bytes_eq};
ghost use Rattle.pl_frame.specs.Columns.{is_coded, is_number};
ghost use Rattle.pl_frame.specs.Types.{is_readable, is_readable_decimal, is_readable_enum, is_text};

use crate::error::{PolarsError, PolarsResult};
use crate::name::{PlSmallStr, find_repeat};
use std::alloc::Global;
use std::marker::Model;

/// The unit in which a datetime counts from 1970-01-01T00:00:00.
#[derive(Clone, Copy, Debug, PartialEq, Eq)]
pub enum TimeUnit {
    Milliseconds,
    Microseconds,
    Nanoseconds,
}

/// The type of a column.
#[derive(Debug, Drop, PartialEq, Eq)]
pub enum DataType {
    Boolean,
    Int8,
    Int16,
    Int32,
    Int64,
    Int128,
    UInt8,
    UInt16,
    UInt32,
    UInt64,
    String,
    Categorical,
    /// One of these texts, where they are set.
    Enum(Option<Categories>),
    Date,
    Time,
    Datetime(TimeUnit),
    /// Precision and scale, where they are set.
    Decimal(Option<u32>, Option<u32>),
    Null,
}

/// The texts of an enum, in order, perhaps with repeats.
#[derive(Debug, Drop)]
pub struct Categories {
    texts: Vec<PlSmallStr>,
}

impl Model for Categories {
    ghost use Rattle.std.specs.Prelude.{ℕ, List};

    ghost Value = { List (List ℕ) };

    ghost view = { λ categories. categories.texts.items };
}

impl Categories {
    /// These texts, without taking memory.
    pub fn new(texts: Vec<PlSmallStr>) -> Self
        ensures { result ≡ texts.items }
    {
        Categories { texts }
    }

    /// Equal categories. Refuses only want of memory.
    pub fn try_clone(&self) -> PolarsResult<Categories>
        ensures equal { IfOk result (λ categories. categories ≡ self.now) }
        ensures refused { IsOkUnless result error.OutOfMemory }
    {
        let texts = copy_texts(*self.texts.allocator(), &self.texts)?;
        Ok(Categories { texts })
    }

    /// The texts in order, which it gives back without taking memory.
    pub fn into_texts(self) -> Vec<PlSmallStr>
        ensures { result.items ≡ self }
    {
        self.texts
    }

    /// The texts in order, without taking memory.
    pub fn texts(&self) -> &[PlSmallStr]
        ensures { result.now ≡ self.now }
    {
        &self.texts
    }
}

/// Equal texts. Refuses only want of memory.
pub(crate) fn copy_texts(alloc: Global, texts: &[PlSmallStr]) -> PolarsResult<Vec<PlSmallStr>>
    ensures equal { IfOk result (λ copies. copies.items ≡ texts.now) }
    ensures refused { IsOkUnless result error.OutOfMemory }
{
    let mut copies = Vec::new(alloc);
    for text in texts {
        let copy = text.try_clone()?;
        if copies.push(copy).is_err() {
            return Err(PolarsError::OutOfMemory);
        }
    }
    Ok(copies)
}

// By its texts in order.
impl PartialEq for Categories {
    ghost eq = { pointwise bytes_eq };

    ghost laws = { lists_per (partial_equiv_from_equiv nat_list_eq_equiv) };

    fn eq(&self, other: &Categories) -> bool {
        self.texts == other.texts
    }
}

impl Eq for Categories {
    ghost laws = { lists_equiv nat_list_eq_equiv };
}

impl DataType {
    /// An equal type. Refuses only want of memory.
    pub fn try_clone(&self) -> PolarsResult<DataType>
        ensures equal { IfOk result (λ dtype. dtype ≡ self.now) }
        ensures refused { IsOkUnless result error.OutOfMemory }
    {
        Ok(match self {
            DataType::Boolean => DataType::Boolean,
            DataType::Int8 => DataType::Int8,
            DataType::Int16 => DataType::Int16,
            DataType::Int32 => DataType::Int32,
            DataType::Int64 => DataType::Int64,
            DataType::Int128 => DataType::Int128,
            DataType::UInt8 => DataType::UInt8,
            DataType::UInt16 => DataType::UInt16,
            DataType::UInt32 => DataType::UInt32,
            DataType::UInt64 => DataType::UInt64,
            DataType::String => DataType::String,
            DataType::Categorical => DataType::Categorical,
            DataType::Enum(None) => DataType::Enum(None),
            DataType::Enum(Some(categories)) => DataType::Enum(Some(categories.try_clone()?)),
            DataType::Date => DataType::Date,
            DataType::Time => DataType::Time,
            DataType::Datetime(unit) => DataType::Datetime(*unit),
            DataType::Decimal(precision, scale) => DataType::Decimal(*precision, *scale),
            DataType::Null => DataType::Null,
        })
    }

    /// Whether cells of the type can be read from text, without taking memory: not for `Null`, a decimal whose scale is
    /// not set or does not go with its precision, and an enum whose texts are not set or repeat one.
    pub fn readable(&self) -> bool
        ensures { result ≡ is_readable self.now }
    {
        match self {
            DataType::Null => false,
            DataType::Decimal(precision, scale) => is_readable_decimal(*precision, *scale),
            DataType::Enum(categories) => is_readable_enum(categories),
            _ => true,
        }
    }

    /// Whether its values are numbers, without taking memory: whole numbers, dates, times, datetimes or decimals.
    pub fn is_number(&self) -> bool
        ensures { result ≡ is_number self.now }
    {
        match self {
            DataType::Boolean | DataType::Null => false,
            _ => !self.is_text(),
        }
    }

    /// Whether its values are texts, without taking memory.
    pub fn is_text(&self) -> bool
        ensures { result ≡ is_text self.now }
    {
        matches!(
            self,
            DataType::String | DataType::Categorical | DataType::Enum(_)
        )
    }

    /// Whether its values are texts that are kept as codes, without taking memory.
    pub fn is_coded(&self) -> bool
        ensures { result ≡ is_coded self.now }
    {
        matches!(self, DataType::Categorical | DataType::Enum(_))
    }
}

// A scale and a precision that go together.
fn is_readable_decimal(precision: Option<u32>, scale: Option<u32>) -> bool
    ensures { result ≡ is_readable_decimal precision scale }
{
    match (precision, scale) {
        (_, None) => false,
        (None, Some(scale)) => scale <= 38,
        (Some(digits), Some(scale)) => scale <= 38
            && 1 <= digits
            && digits <= 38
            && scale <= digits,
    }
}

// Categories that are set, and of which none stands twice.
fn is_readable_enum(categories: &Option<Categories>) -> bool
    ensures { result ≡ is_readable_enum categories.now }
{
    match categories {
        None => false,
        Some(categories) => find_repeat(&categories.texts).is_none(),
    }
}
