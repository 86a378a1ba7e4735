//! The sources of columns, which put their cells into a block from a place on. A cell for which there is no room is not put.
ghost use Rattle.std.specs.Prelude.{◌≡◌, ℤ, true, ◌<◌, ◌++◌, ◌+◌, ◌≤◌, length, take, None, Some, unwrap_or, slice_get, IfSome, IfNone};
ghost use Rattle.std.specs.Fmt.{signed_decimal};
ghost use Rattle.pl_text.specs.ValueText.{date_text, datetime_text, decimal_text};
ghost use Rattle.pl_frame.specs.Types.{is_within, day_range, datetime_range, units_in_second};
ghost use Rattle.pl_write.specs.CellForms.{number_or_null, text_or_null};
ghost use Rattle.pl_write.specs.Options.{cell_options};

use crate::cell_form::CellForm;
use crate::options::SerializeOptions;
use crate::put_cell::PutCell;
use crate::put_cells::put_value;
use crate::put_dates::put_date;
use crate::put_decimals::{put_narrow_decimal, put_wide_decimal};
use crate::put_parts::put_part;
use crate::put_texts::put_null;
use crate::put_times::put_narrow_datetime;
use crate::put_wholes::put_narrow;
use crate::spare::Spare;
use pl_frame::column::Column;
use pl_frame::data_type::TimeUnit;
use pl_frame::numbers::Numbers;
use pl_frame::texts::Texts;

// Puts the digits of a number, or what stands for a null.
#[inline(always)]
fn put_digits_cell(
    to: &mut [u8],
    at: usize,
    numbers: &Numbers<i64>,
    row: usize,
    options: &SerializeOptions,
) -> Option<usize>
    requires room { at + 66 ≤ length to.old }
    requires row { row < length numbers.now }
    ensures text { IfSome result (λ end. take end to.new ≡ take at to.old ++ number_or_null signed_decimal (cell_options options.now) (unwrap_or (slice_get numbers.now row) None)) }
    ensures within { IfSome result (λ end. end ≤ length to.new) }
    ensures unchanged { IfNone result (to.new ≡ to.old) }
{
    match numbers.get(row) {
        Some(number) => Some(put_narrow(to, at, number)),
        None => put_null(to, at, options),
    }
}

// Puts the date of a day number, or what stands for a null.
#[inline(always)]
fn put_date_cell(
    to: &mut [u8],
    at: usize,
    days: &Numbers<i64>,
    row: usize,
    options: &SerializeOptions,
) -> Option<usize>
    requires room { at + 66 ≤ length to.old }
    requires row { row < length days.now }
    requires range { (n : ℤ) → slice_get days.now row ≡ Some (Some n) → is_within day_range n ≡ true }
    ensures text { IfSome result (λ end. take end to.new ≡ take at to.old ++ number_or_null date_text (cell_options options.now) (unwrap_or (slice_get days.now row) None)) }
    ensures within { IfSome result (λ end. end ≤ length to.new) }
    ensures unchanged { IfNone result (to.new ≡ to.old) }
{
    match days.get(row) {
        Some(day) => Some(put_date(to, at, day)),
        None => put_null(to, at, options),
    }
}

// Puts the datetime of a count, or what stands for a null.
#[inline(always)]
fn put_datetime_cell(
    to: &mut [u8],
    at: usize,
    unit: TimeUnit,
    counts: &Numbers<i64>,
    row: usize,
    options: &SerializeOptions,
) -> Option<usize>
    requires room { at + 66 ≤ length to.old }
    requires row { row < length counts.now }
    requires range { (n : ℤ) → slice_get counts.now row ≡ Some (Some n) → is_within (datetime_range (units_in_second unit)) n ≡ true }
    ensures text { IfSome result (λ end. take end to.new ≡ take at to.old ++ number_or_null (datetime_text unit) (cell_options options.now) (unwrap_or (slice_get counts.now row) None)) }
    ensures within { IfSome result (λ end. end ≤ length to.new) }
    ensures unchanged { IfNone result (to.new ≡ to.old) }
{
    match counts.get(row) {
        Some(count) => Some(put_narrow_datetime(to, at, unit, count)),
        None => put_null(to, at, options),
    }
}

// Puts the decimal of a number, or what stands for a null. A number of many digits is not put.
#[inline(always)]
fn put_decimal_cell(
    to: &mut [u8],
    at: usize,
    scale: usize,
    numbers: &Numbers<i64>,
    row: usize,
    options: &SerializeOptions,
) -> Option<usize>
    requires room { at + 66 ≤ length to.old }
    requires some { 1 ≤ scale }
    requires few { scale ≤ 7 }
    requires row { row < length numbers.now }
    ensures text { IfSome result (λ end. take end to.new ≡ take at to.old ++ number_or_null (decimal_text scale) (cell_options options.now) (unwrap_or (slice_get numbers.now row) None)) }
    ensures within { IfSome result (λ end. end ≤ length to.new) }
    ensures unchanged { IfNone result (to.new ≡ to.old) }
{
    match numbers.get(row) {
        Some(number) => put_narrow_decimal(to, at, number, scale),
        None => put_null(to, at, options),
    }
}

// The same for numbers of 128 bits.
#[inline(always)]
fn put_wide_decimal_cell(
    to: &mut [u8],
    at: usize,
    scale: usize,
    numbers: &Numbers<i128>,
    row: usize,
    options: &SerializeOptions,
) -> Option<usize>
    requires room { at + 66 ≤ length to.old }
    requires some { 1 ≤ scale }
    requires few { scale ≤ 7 }
    requires row { row < length numbers.now }
    ensures text { IfSome result (λ end. take end to.new ≡ take at to.old ++ number_or_null (decimal_text scale) (cell_options options.now) (unwrap_or (slice_get numbers.now row) None)) }
    ensures within { IfSome result (λ end. end ≤ length to.new) }
    ensures unchanged { IfNone result (to.new ≡ to.old) }
{
    match numbers.get(row) {
        Some(number) => put_wide_decimal(to, at, number, scale),
        None => put_null(to, at, options),
    }
}

// Puts a text, quoted where it must be, or what stands for a null.
#[inline(always)]
fn put_text_cell(
    to: &mut [u8],
    at: usize,
    texts: &Texts,
    row: usize,
    options: &SerializeOptions,
) -> Option<usize>
    requires room { at + 66 ≤ length to.old }
    requires row { row < length texts.now }
    requires style { (cell_options options.now).style ≡ 0 }
    ensures text { IfSome result (λ end. take end to.new ≡ take at to.old ++ text_or_null (cell_options options.now) (unwrap_or (slice_get texts.now row) None)) }
    ensures within { IfSome result (λ end. end ≤ length to.new) }
    ensures unchanged { IfNone result (to.new ≡ to.old) }
{
    match texts.part(row) {
        Some(part) => put_part(to, at, part, options),
        None => put_null(to, at, options),
    }
}

/// Numbers of 64 bits, each written as its digits.
#[derive(Clone, Copy, Debug)]
pub(crate) struct DigitSource<'a>(pub(crate) &'a Numbers<i64>);

impl PutCell for DigitSource<'_> {
    ghost use Rattle.std.specs.Fmt.{signed_decimal};
    ghost use Rattle.pl_write.specs.CellSources.{WritesNumbers};

    ghost fits = { λ source o column. WritesNumbers signed_decimal source.0.now o column };

    #[inline(always)]
    fn put(
        &self,
        to: &mut [u8],
        at: usize,
        spare: &mut Spare,
        column: &Column,
        row: usize,
        options: &SerializeOptions,
    ) -> Option<usize> {
        put_digits_cell(to, at, self.0, row, options)
    }
}

/// Numbers of days, each written as its date.
#[derive(Clone, Copy, Debug)]
pub(crate) struct DateSource<'a>(pub(crate) &'a Numbers<i64>);

impl PutCell for DateSource<'_> {
    ghost use Rattle.pl_text.specs.ValueText.{date_text};
    ghost use Rattle.pl_frame.specs.Types.{day_range};
    ghost use Rattle.pl_write.specs.CellSources.{WritesNumbers, LieWithin};

    ghost fits = { λ source o column. WritesNumbers date_text source.0.now o column × LieWithin day_range column };

    #[inline(always)]
    fn put(
        &self,
        to: &mut [u8],
        at: usize,
        spare: &mut Spare,
        column: &Column,
        row: usize,
        options: &SerializeOptions,
    ) -> Option<usize> {
        put_date_cell(to, at, self.0, row, options)
    }
}

/// Counts of a unit, each written as its datetime.
#[derive(Clone, Copy, Debug)]
pub(crate) struct DatetimeSource<'a>(pub(crate) TimeUnit, pub(crate) &'a Numbers<i64>);

impl PutCell for DatetimeSource<'_> {
    ghost use Rattle.pl_text.specs.ValueText.{datetime_text};
    ghost use Rattle.pl_frame.specs.Types.{datetime_range, units_in_second};
    ghost use Rattle.pl_write.specs.CellSources.{WritesNumbers, LieWithin};

    ghost fits = { λ source o column. WritesNumbers (datetime_text source.0) source.1.now o column × LieWithin (datetime_range (units_in_second source.0)) column };

    #[inline(always)]
    fn put(
        &self,
        to: &mut [u8],
        at: usize,
        spare: &mut Spare,
        column: &Column,
        row: usize,
        options: &SerializeOptions,
    ) -> Option<usize> {
        put_datetime_cell(to, at, self.0, self.1, row, options)
    }
}

/// Numbers of 64 bits, each written with a point before so many of its digits, one to seven.
#[derive(Clone, Copy, Debug)]
pub(crate) struct DecimalSource<'a>(pub(crate) usize, pub(crate) &'a Numbers<i64>);

impl PutCell for DecimalSource<'_> {
    ghost use Rattle.std.specs.Prelude.{◌≤◌};
    ghost use Rattle.pl_text.specs.ValueText.{decimal_text};
    ghost use Rattle.pl_write.specs.CellSources.{WritesNumbers};

    ghost fits = { λ source o column. WritesNumbers (decimal_text source.0) source.1.now o column × (1 ≤ source.0) × (source.0 ≤ 7) };

    #[inline(always)]
    fn put(
        &self,
        to: &mut [u8],
        at: usize,
        spare: &mut Spare,
        column: &Column,
        row: usize,
        options: &SerializeOptions,
    ) -> Option<usize> {
        match put_decimal_cell(to, at, self.0, self.1, row, options) {
            Some(end) => Some(end),
            None => put_value(to, at, spare, column, CellForm::ByCell, row, options),
        }
    }
}

/// The same, of 128 bits.
#[derive(Clone, Copy, Debug)]
pub(crate) struct WideDecimalSource<'a>(pub(crate) usize, pub(crate) &'a Numbers<i128>);

impl PutCell for WideDecimalSource<'_> {
    ghost use Rattle.std.specs.Prelude.{◌≤◌};
    ghost use Rattle.pl_text.specs.ValueText.{decimal_text};
    ghost use Rattle.pl_write.specs.CellSources.{WritesNumbers};

    ghost fits = { λ source o column. WritesNumbers (decimal_text source.0) source.1.now o column × (1 ≤ source.0) × (source.0 ≤ 7) };

    #[inline(always)]
    fn put(
        &self,
        to: &mut [u8],
        at: usize,
        spare: &mut Spare,
        column: &Column,
        row: usize,
        options: &SerializeOptions,
    ) -> Option<usize> {
        match put_wide_decimal_cell(to, at, self.0, self.1, row, options) {
            Some(end) => Some(end),
            None => put_value(to, at, spare, column, CellForm::ByCell, row, options),
        }
    }
}

/// Texts, each quoted only where it must be.
#[derive(Clone, Copy, Debug)]
pub(crate) struct TextSource<'a>(pub(crate) &'a Texts);

impl PutCell for TextSource<'_> {
    ghost use Rattle.std.specs.Prelude.{◌≡◌};
    ghost use Rattle.pl_frame.specs.Columns.{text_cells};

    ghost fits = { λ source o column. (o.style ≡ 0) × (text_cells source.0.now ≡ column.values) };

    #[inline(always)]
    fn put(
        &self,
        to: &mut [u8],
        at: usize,
        spare: &mut Spare,
        column: &Column,
        row: usize,
        options: &SerializeOptions,
    ) -> Option<usize> {
        put_text_cell(to, at, self.0, row, options)
    }
}

/// The column, in a form.
#[derive(Clone, Copy, Debug)]
pub(crate) struct ColumnSource(pub(crate) CellForm);

impl PutCell for ColumnSource {
    ghost use Rattle.pl_write.specs.CellForms.{FitsForm};

    ghost fits = { λ source o column. FitsForm source.0 o column.dtype };

    #[inline(always)]
    fn put(
        &self,
        to: &mut [u8],
        at: usize,
        spare: &mut Spare,
        column: &Column,
        row: usize,
        options: &SerializeOptions,
    ) -> Option<usize> {
        put_value(to, at, spare, column, self.0, row, options)
    }
}
