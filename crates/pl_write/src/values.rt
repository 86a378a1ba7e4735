//! Values that are no texts, as they are written.
ghost use Rattle.std.specs.Prelude.{◌≡◌, ◌++◌, true, not, unwrap_or, unsigned_abs, OnOk, if◌then◌else◌};
ghost use Rattle.pl_frame.specs.Columns.{is_number_of};
ghost use Rattle.pl_frame.specs.Frame.{Truth};
ghost use Rattle.pl_frame.specs.Types.{is_numeric, is_within, datetime_range, range_of, units_in_second};
ghost use Rattle.pl_text.specs.ValueText.{datetime_text, number_text, printed};
ghost use Rattle.pl_text.specs.FrameText.{is_bare, quoted, written_value};
ghost use Rattle.pl_write.specs.Options.{cell_options, style_number};
ghost use Rattle.pl_write.specs.Writing.{StaysInFront};

use crate::dates::push_date;
use crate::decimals::push_decimal;
use crate::options::{QuoteStyle, SerializeOptions};
use crate::texts::close_quoted;
use crate::times::{push_datetime, push_time};
use crate::wholes::push_whole;
use pl_frame::data_type::DataType;
use std::alloc::AllocError;

// Appends a number, as its type is printed.
#[tactic(auto, using(crate::proofs::KeptLaws::keeping))]
#[inline]
fn push_number(block: &mut Vec<u8>, dtype: &DataType, number: i128) -> Result<(), AllocError>
    requires { is_number_of dtype.now number ≡ true }
    ensures text { OnOk result (block.new.items ≡ block.old.items ++ number_text dtype.now number) }
    ensures kept { StaysInFront block.old.items block.new.items }
{
    match dtype {
        DataType::Date => push_date(block, number as i64),
        DataType::Time => push_time(block, number as i64),
        DataType::Datetime(unit) => push_datetime(block, *unit, number),
        DataType::Decimal(_, scale) => push_decimal(block, number, scale.unwrap_or(0)),
        _ => push_whole(block, number),
    }
}

// Appends a truth value.
#[tactic(auto, using(crate::proofs::KeptLaws::keeping))]
#[inline]
fn push_truth(block: &mut Vec<u8>, dtype: &DataType, truth: bool) -> Result<(), AllocError>
    ensures text { OnOk result (block.new.items ≡ block.old.items ++ printed dtype.now (Truth truth)) }
    ensures kept { StaysInFront block.old.items block.new.items }
{
    if truth {
        block.extend_from_slice(b"true")
    } else {
        block.extend_from_slice(b"false")
    }
}

// Appends a number between quotes, with each quote in it doubled.
#[tactic(auto, using(crate::proofs::KeptLaws::keeping))]
#[inline]
fn push_quoted_number(
    block: &mut Vec<u8>,
    scratch: &mut Vec<u8>,
    dtype: &DataType,
    number: i128,
    quote: u8,
) -> Result<(), AllocError>
    requires { is_number_of dtype.now number ≡ true }
    ensures text { OnOk result (block.new.items ≡ block.old.items ++ quoted quote (number_text dtype.now number)) }
    ensures kept { StaysInFront block.old.items block.new.items }
{
    block.push(quote)?;
    let start = block.len();
    push_number(block, dtype, number)?;
    close_quoted(block, scratch, start, quote)
}

// Appends a truth value between quotes, with each quote in it doubled.
#[tactic(auto, using(crate::proofs::KeptLaws::keeping))]
#[inline]
fn push_quoted_truth(
    block: &mut Vec<u8>,
    scratch: &mut Vec<u8>,
    dtype: &DataType,
    truth: bool,
    quote: u8,
) -> Result<(), AllocError>
    ensures text { OnOk result (block.new.items ≡ block.old.items ++ quoted quote (printed dtype.now (Truth truth))) }
    ensures kept { StaysInFront block.old.items block.new.items }
{
    block.push(quote)?;
    let start = block.len();
    push_truth(block, dtype, truth)?;
    close_quoted(block, scratch, start, quote)
}

// Whether values of a type are numbers, dates and times not among them.
#[inline]
fn is_numeric(dtype: &DataType) -> bool
    ensures { result ≡ is_numeric dtype.now }
{
    match dtype {
        DataType::Boolean | DataType::String | DataType::Categorical | DataType::Enum(_) => false,
        DataType::Date | DataType::Time | DataType::Datetime(_) | DataType::Null => false,
        _ => true,
    }
}

// Whether a value that is no text is quoted.
#[inline]
pub(crate) fn is_quoted(dtype: &DataType, style: QuoteStyle) -> bool
    ensures { result ≡ not (is_bare (style_number style) (is_numeric dtype.now)) }
{
    match style {
        QuoteStyle::Always => true,
        QuoteStyle::NonNumeric => !is_numeric(dtype),
        QuoteStyle::Necessary | QuoteStyle::Never => false,
    }
}

/// Appends the cell of a number of the type, quoted as the style asks. `scratch` is a buffer for its own use, of which
/// nothing is expected.
#[tactic(auto, using(crate::proofs::KeptLaws::keeping))]
#[inline]
pub(crate) fn push_number_cell(
    block: &mut Vec<u8>,
    scratch: &mut Vec<u8>,
    dtype: &DataType,
    number: i128,
    options: &SerializeOptions,
) -> Result<(), AllocError>
    requires { is_number_of dtype.now number ≡ true }
    ensures text { OnOk result (block.new.items ≡ block.old.items ++ written_value (cell_options options.now) (is_numeric dtype.now) (number_text dtype.now number)) }
    ensures kept { StaysInFront block.old.items block.new.items }
{
    if is_quoted(dtype, options.quote_style) {
        push_quoted_number(block, scratch, dtype, number, options.quote_char)
    } else {
        push_number(block, dtype, number)
    }
}

/// Appends the cell of a truth value, quoted as the style asks. `scratch` is a buffer for its own use, of which nothing is
/// expected.
#[tactic(auto, using(crate::proofs::KeptLaws::keeping))]
#[inline]
pub(crate) fn push_truth_cell(
    block: &mut Vec<u8>,
    scratch: &mut Vec<u8>,
    dtype: &DataType,
    truth: bool,
    options: &SerializeOptions,
) -> Result<(), AllocError>
    ensures text { OnOk result (block.new.items ≡ block.old.items ++ written_value (cell_options options.now) (is_numeric dtype.now) (printed dtype.now (Truth truth))) }
    ensures kept { StaysInFront block.old.items block.new.items }
{
    if is_quoted(dtype, options.quote_style) {
        push_quoted_truth(block, scratch, dtype, truth, options.quote_char)
    } else {
        push_truth(block, dtype, truth)
    }
}
