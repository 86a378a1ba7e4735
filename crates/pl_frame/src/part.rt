//! Parts of columns, each kept in one way.
ghost use Rattle.std.specs.Prelude.{◌≡◌, ◌<◌, length, IfOk, IfSome, count_by, is_none, slice_get, unwrap_or, None};
ghost use Rattle.std.specs.Option.{option_map};
ghost use Rattle.pl_frame.specs.Columns.{scalar_of, number_cells, text_cells};
ghost use Rattle.pl_frame.specs.Frame.{Truth, Letters};
ghost use Rattle.pl_frame.specs.Parts.{part_cells};

use crate::column::Value;
use crate::numbers::Numbers;
use crate::packed_texts::PackedTexts;
use crate::texts::Texts;
use crate::whole::Whole;
use std::alloc::AllocError;

// Values that are not kept as codes: truth values, whole numbers in as many bits as they need, texts, or nulls alone.
#[derive(Debug, Drop)]
pub(crate) enum Part {
    Boolean(Numbers<bool>),
    Byte(Numbers<i8>),
    Short(Numbers<i16>),
    Medium(Numbers<i32>),
    Narrow(Numbers<i64>),
    Wide(Numbers<i128>),
    Texts(Texts),
    Packed(PackedTexts),
    Null(usize),
}

impl Part {
    // The number of rows, without taking memory.
    pub(crate) fn len(&self) -> usize
        ensures { result ≡ length (part_cells self.now) }
    {
        match self {
            Part::Boolean(truths) => truths.len(),
            Part::Byte(numbers) => numbers.len(),
            Part::Short(numbers) => numbers.len(),
            Part::Medium(numbers) => numbers.len(),
            Part::Narrow(numbers) => numbers.len(),
            Part::Wide(numbers) => numbers.len(),
            Part::Texts(texts) => texts.len(),
            Part::Packed(texts) => texts.len(),
            Part::Null(len) => *len,
        }
    }

    // How many values are null, without taking memory.
    pub(crate) fn null_count(&self) -> usize
        ensures { result ≡ count_by is_none (part_cells self.now) }
    {
        match self {
            Part::Boolean(truths) => truths.null_count(),
            Part::Byte(numbers) => numbers.null_count(),
            Part::Short(numbers) => numbers.null_count(),
            Part::Medium(numbers) => numbers.null_count(),
            Part::Narrow(numbers) => numbers.null_count(),
            Part::Wide(numbers) => numbers.null_count(),
            Part::Texts(texts) => texts.null_count(),
            Part::Packed(texts) => texts.null_count(),
            Part::Null(len) => *len,
        }
    }

    // What a row holds, without taking memory.
    #[inline]
    pub(crate) fn get(&self, row: usize) -> Value<'_>
        requires { row < length (part_cells self.now) }
        ensures { scalar_of result ≡ unwrap_or (slice_get (part_cells self.now) row) None }
    {
        match self {
            Part::Boolean(truths) => truth_value(truths, row),
            Part::Byte(numbers) => number_value(numbers, row),
            Part::Short(numbers) => number_value(numbers, row),
            Part::Medium(numbers) => number_value(numbers, row),
            Part::Narrow(numbers) => number_value(numbers, row),
            Part::Wide(numbers) => number_value(numbers, row),
            Part::Texts(texts) => text_value(texts.get(row)),
            Part::Packed(texts) => text_value(texts.get(row)),
            Part::Null(_) => Value::Null,
        }
    }

    // Equal values, kept in the same way. Refuses only want of memory.
    pub(crate) fn try_clone(&self) -> Result<Part, AllocError>
        ensures { IfOk result (λ part. part ≡ self.now) }
    {
        Ok(match self {
            Part::Boolean(truths) => Part::Boolean(truths.try_clone()?),
            Part::Byte(numbers) => Part::Byte(numbers.try_clone()?),
            Part::Short(numbers) => Part::Short(numbers.try_clone()?),
            Part::Medium(numbers) => Part::Medium(numbers.try_clone()?),
            Part::Narrow(numbers) => Part::Narrow(numbers.try_clone()?),
            Part::Wide(numbers) => Part::Wide(numbers.try_clone()?),
            Part::Texts(texts) => Part::Texts(texts.try_clone()?),
            Part::Packed(texts) => Part::Packed(texts.try_clone()?),
            Part::Null(len) => Part::Null(*len),
        })
    }

    // The numbers, where they are kept in 64 bits.
    #[inline]
    pub(crate) fn narrow_numbers(&self) -> Option<&Numbers<i64>>
        ensures { IfSome result (λ numbers. number_cells numbers.now ≡ part_cells self.now) }
    {
        match self {
            Part::Narrow(numbers) => Some(numbers),
            _ => None,
        }
    }

    // The numbers, where they are kept in 128 bits.
    #[inline]
    pub(crate) fn wide_numbers(&self) -> Option<&Numbers<i128>>
        ensures { IfSome result (λ numbers. number_cells numbers.now ≡ part_cells self.now) }
    {
        match self {
            Part::Wide(numbers) => Some(numbers),
            _ => None,
        }
    }

    // The texts, where they are kept with wide ends.
    #[inline]
    pub(crate) fn kept_texts(&self) -> Option<&Texts>
        ensures { IfSome result (λ texts. text_cells texts.now ≡ part_cells self.now) }
    {
        match self {
            Part::Texts(texts) => Some(texts),
            _ => None,
        }
    }

    // Whether the values are kept as wide as they may become, so that rows are found at once and given as they are kept.
    #[inline]
    pub(crate) fn is_plain(&self) -> bool {
        matches!(
            self,
            Part::Boolean(_) | Part::Narrow(_) | Part::Wide(_) | Part::Texts(_) | Part::Null(_)
        )
    }
}

#[inline]
fn truth_value(truths: &Numbers<bool>, row: usize) -> Value<'_>
    requires { row < length truths.now }
    ensures { scalar_of result ≡ option_map Truth (unwrap_or (slice_get truths.now row) None) }
{
    match truths.get(row) {
        Some(truth) => Value::Boolean(truth),
        None => Value::Null,
    }
}

#[inline]
fn number_value<N: Whole>(numbers: &Numbers<N>, row: usize) -> Value<'_>
    requires { row < length numbers.now }
    ensures { scalar_of result ≡ option_map N.scalar (unwrap_or (slice_get numbers.now row) None) }
{
    match numbers.get(row) {
        Some(number) => Value::Whole(number.wide()),
        None => Value::Null,
    }
}

#[inline]
pub(crate) fn text_value(text: Option<&str>) -> Value<'_>
    ensures { scalar_of result ≡ option_map (λ t. Letters t.now) text.entry }
{
    match text {
        Some(text) => Value::Text(text),
        None => Value::Null,
    }
}
