//! Where the cells of a column come from when rows are written: settled once for the column.
ghost use Rattle.std.specs.Prelude.{◌≡◌};
ghost use Rattle.pl_frame.specs.Columns.{number_cells};
ghost use Rattle.pl_write.specs.Options.{cell_options};
ghost use Rattle.pl_write.specs.CellForms.{FitsForm};
ghost use Rattle.pl_write.specs.CellSources.{IsSourceOf};

use crate::cell_form::{CellForm, form_of};
use crate::options::SerializeOptions;
use pl_frame::column::Column;
use pl_frame::data_type::{DataType, TimeUnit};
use pl_frame::numbers::Numbers;
use pl_frame::texts::Texts;

/// Where the cells of a column come from.
#[derive(Clone, Copy, Debug)]
pub(crate) enum CellSource<'a> {
    /// Numbers of 64 bits, each written as its digits.
    Digits(&'a Numbers<i64>),
    /// Numbers of days, each written as its date.
    Dates(&'a Numbers<i64>),
    /// Counts of a unit, each written as its datetime.
    Datetimes(TimeUnit, &'a Numbers<i64>),
    /// Numbers of 64 bits, each written with a point before so many of its digits, one to seven.
    Decimals(usize, &'a Numbers<i64>),
    /// The same, of 128 bits.
    WideDecimals(usize, &'a Numbers<i128>),
    /// Texts, each quoted only where it must be.
    Texts(&'a Texts),
    /// The column, in this form.
    Cells(CellForm),
}

// Where the cells of a column of numbers come from, where quotes are written only if necessary.
fn source_of_bare<'a>(
    column: &Column,
    numbers: &'a Numbers<i64>,
    options: &SerializeOptions,
) -> CellSource<'a>
    requires cells { number_cells numbers.now ≡ column.now.values }
    requires style { (cell_options options.now).style ≡ 0 }
    ensures { IsSourceOf result (cell_options options.now) column.now }
{
    match column.dtype() {
        DataType::Date => CellSource::Dates(numbers),
        DataType::Datetime(unit) => CellSource::Datetimes(*unit, numbers),
        DataType::Decimal(_, Some(scale)) if *scale >= 1 && *scale <= 7 => {
            CellSource::Decimals(*scale as usize, numbers)
        }
        _ => CellSource::Cells(CellForm::AsNeeded),
    }
}

// Where the cells of a column of numbers come from.
fn source_of_numbers<'a>(
    column: &Column,
    form: CellForm,
    numbers: &'a Numbers<i64>,
    options: &SerializeOptions,
) -> CellSource<'a>
    requires cells { number_cells numbers.now ≡ column.now.values }
    requires form { FitsForm form (cell_options options.now) column.now.dtype }
    ensures { IsSourceOf result (cell_options options.now) column.now }
{
    match form {
        CellForm::Digits => CellSource::Digits(numbers),
        CellForm::AsNeeded => source_of_bare(column, numbers, options),
        CellForm::ByCell => CellSource::Cells(form),
    }
}

// Where the cells of a column of wide numbers come from, where quotes are written only if necessary.
fn source_of_wide<'a>(
    column: &Column,
    numbers: &'a Numbers<i128>,
    options: &SerializeOptions,
) -> CellSource<'a>
    requires cells { number_cells numbers.now ≡ column.now.values }
    requires style { (cell_options options.now).style ≡ 0 }
    ensures { IsSourceOf result (cell_options options.now) column.now }
{
    match column.dtype() {
        DataType::Decimal(_, Some(scale)) if *scale >= 1 && *scale <= 7 => {
            CellSource::WideDecimals(*scale as usize, numbers)
        }
        _ => CellSource::Cells(CellForm::AsNeeded),
    }
}

// Where the cells of a column come from that holds no numbers of 64 bits.
fn source_of_others<'a>(
    column: &'a Column,
    form: CellForm,
    options: &SerializeOptions,
) -> CellSource<'a>
    requires { FitsForm form (cell_options options.now) column.now.dtype }
    ensures { IsSourceOf result (cell_options options.now) column.now }
{
    match (form, column.wide_numbers(), column.kept_texts()) {
        (CellForm::AsNeeded, Some(numbers), _) => source_of_wide(column, numbers, options),
        (CellForm::AsNeeded, _, Some(texts)) => CellSource::Texts(texts),
        _ => CellSource::Cells(form),
    }
}

/// Where the cells of a column come from.
pub(crate) fn source_of<'a>(column: &'a Column, options: &SerializeOptions) -> CellSource<'a>
    ensures { IsSourceOf result (cell_options options.now) column.now }
{
    let form = form_of(column.dtype(), options);
    match column.narrow_numbers() {
        Some(numbers) => source_of_numbers(column, form, numbers, options),
        None => source_of_others(column, form, options),
    }
}
