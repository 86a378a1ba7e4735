//! How the cells of a column are written: settled once for the column, by its type and the style.
ghost use Rattle.std.specs.Prelude.{◌≡◌, true};
ghost use Rattle.pl_text.specs.FrameText.{is_bare};
ghost use Rattle.pl_frame.specs.Types.{is_whole_number};
ghost use Rattle.pl_write.specs.Options.{cell_options, style_number};
ghost use Rattle.pl_write.specs.declared.cell_form.CellForm.TheVariants as CellForm;
ghost use Rattle.pl_write.specs.CellForms.{FitsForm};

use crate::options::{QuoteStyle, SerializeOptions};
use pl_frame::data_type::DataType;

/// How the values of a column are written.
#[derive(Clone, Copy, Debug, PartialEq, Eq)]
pub(crate) enum CellForm {
    /// Each number as its decimal digits, without quotes.
    Digits,
    /// Each text quoted only where it must be.
    AsNeeded,
    /// Each value by its type and the style.
    ByCell,
}

// Whether a type is one of whole numbers.
fn is_whole_number(dtype: &DataType) -> bool
    ensures { result ≡ is_whole_number dtype.now }
{
    match dtype {
        DataType::Int8 | DataType::Int16 | DataType::Int32 | DataType::Int64 => true,
        DataType::UInt8 | DataType::UInt16 | DataType::UInt32 | DataType::UInt64 => true,
        DataType::Int128 => true,
        _ => false,
    }
}

// Whether numbers stand without quotes.
fn are_numbers_bare(style: QuoteStyle) -> bool
    ensures { result ≡ is_bare (style_number style) true }
{
    match style {
        QuoteStyle::Always => false,
        QuoteStyle::Necessary | QuoteStyle::NonNumeric | QuoteStyle::Never => true,
    }
}

// The form of a column that holds no whole numbers.
fn form_of_others(dtype: &DataType, options: &SerializeOptions) -> CellForm
    ensures { FitsForm result (cell_options options.now) dtype.now }
{
    match options.quote_style {
        QuoteStyle::Necessary => CellForm::AsNeeded,
        QuoteStyle::Always | QuoteStyle::NonNumeric | QuoteStyle::Never => CellForm::ByCell,
    }
}

/// The form of a column of a type: by digits where it holds whole numbers that stand without quotes.
#[tactic(auto, using(crate::proofs::FormLaws::digits_fit))]
pub(crate) fn form_of(dtype: &DataType, options: &SerializeOptions) -> CellForm
    ensures fits { FitsForm result (cell_options options.now) dtype.now }
    ensures digits { is_whole_number dtype.now ≡ true → is_bare (style_number options.now.quote_style) true ≡ true → result ≡ CellForm.Digits }
{
    if is_whole_number(dtype) && are_numbers_bare(options.quote_style) {
        CellForm::Digits
    } else {
        form_of_others(dtype, options)
    }
}
