//! Cells that are taken from a column of the host, one behind the other.
ghost use Rattle.std.specs.Prelude.{◌≡◌, ℕ, true, false, ◌++◌, ◌∷◌, [], List, Option, None, Some, length, IfOk, OnOk, IfErr};
ghost use Rattle.std.specs.Option.{option_and_then};
ghost use Rattle.pl_csv_c.specs.HostCells.{IsPushed, IsTaken, IsRowFault};
ghost use Rattle.pl_csv_c.specs.HostColumns.{host_value, host_cells, AreWhole, is_in_words, number_within};
ghost use Rattle.pl_frame.specs.declared.data_type.DataType.{DataType};
ghost use Rattle.pl_frame.specs.declared.data_type.DataType.TheVariants as dtype;
ghost use Rattle.pl_frame.specs.Columns.{truth_cells, number_cells, text_cells};
ghost use Rattle.pl_frame.specs.Frame.{Scalar};
ghost use Rattle.pl_frame.specs.Types.{from_to, range_of};

use crate::host_column::{HostColumn, category_at, is_set, number_at, text_at, wide_at};
use pl_frame::codes::CodesBuilder;
use pl_frame::name::PlSmallStr;
use pl_frame::numbers::Numbers;
use pl_frame::range::NumberRange;
use pl_frame::texts::Texts;
use pl_rows::push::push;
use std::alloc::{AllocError, Global};

/// Why cells were not taken.
#[derive(Clone, Copy, Debug, PartialEq, Eq)]
pub enum Untaken {
    /// The row has no value, though its flag is set.
    Row { row: usize },
    OutOfMemory,
}

/// Cells of a type that are taken one behind the other.
pub(crate) trait HostCells {
    /// The cells so far.
    ghost cells: { Self → List (Option Scalar) };

    /// They are cells of this type.
    ghost takes: { Self → DataType → Type 0 };

    /// Puts a null at the end. Refuses only want of memory.
    fn push_null(&mut self) -> Result<(), AllocError>
        ensures pushed { OnOk result (cells self.new ≡ cells self.old ++ None ∷ []) }
        ensures takes { (type : DataType) → takes self.old type → takes self.new type };

    /// Puts the value of a row at the end, and answers whether it has one. Refuses only want of memory.
    fn push_value(&mut self, column: &HostColumn<'_>, row: usize) -> Result<bool, AllocError>
        ensures pushed { (type : DataType) → takes self.old type → IfOk result (λ fits. IsPushed fits (host_value type column.now row) (cells self.old) (cells self.new)) }
        ensures takes { (type : DataType) → takes self.old type → takes self.new type };
}

// Puts the cell of a row at the end, and answers whether it has one. Refuses only want of memory.
fn take_row<C: HostCells>(
    cells: &mut C,
    column: &HostColumn<'_>,
    row: usize,
) -> Result<bool, AllocError>
    ensures taken { (type : DataType) → C.takes cells.old type → IfOk result (λ fits. IsTaken fits type column.now row (C.cells cells.old) (C.cells cells.new)) }
    ensures takes { (type : DataType) → C.takes cells.old type → C.takes cells.new type }
{
    if is_set(column, row) {
        return cells.push_value(column, row);
    }
    cells.push_null()?;
    Ok(true)
}

/// Puts the cells of all rows behind none. Refuses the first row that has no value though its flag is set, and want of memory.
pub(crate) fn take_rows<C: HostCells>(cells: &mut C, column: &HostColumn<'_>) -> Result<(), Untaken>
    requires { C.cells cells.old ≡ [] }
    ensures cells { (type : DataType) → C.takes cells.old type → OnOk result (C.cells cells.new ≡ host_cells type column.now) }
    ensures whole { (type : DataType) → C.takes cells.old type → OnOk result (AreWhole type column.now (length column.now.present.now)) }
    ensures refused { (type : DataType) → C.takes cells.old type → IfErr result (IsRowFault type column.now) }
{
    for row in 0..column.present.len() {
        match take_row(cells, column, row) {
            Ok(true) => {}
            Ok(false) => return Err(Untaken::Row { row }),
            Err(_) => return Err(Untaken::OutOfMemory),
        }
    }
    Ok(())
}

// Truth values.
impl HostCells for Numbers<bool> {
    ghost cells = { truth_cells };

    ghost takes = { λ _ type. type ≡ dtype.Boolean };

    fn push_null(&mut self) -> Result<(), AllocError> {
        Numbers::push_null(self)
    }

    fn push_value(&mut self, column: &HostColumn<'_>, row: usize) -> Result<bool, AllocError> {
        match number_at(column, row) {
            Some(number) => {
                self.push(number != 0)?;
                Ok(true)
            }
            None => Ok(false),
        }
    }
}

// Puts a number at the end, where there is one that lies in a range, and answers whether there is. Refuses only want of memory.
#[inline]
fn push_within(
    numbers: &mut Numbers<i64>,
    range: &NumberRange,
    number: Option<i64>,
) -> Result<bool, AllocError>
    ensures { IfOk result (λ fits. IsPushed fits (option_and_then (number_within (from_to range.now.low range.now.high)) number) (number_cells numbers.old) (number_cells numbers.new)) }
{
    match number {
        Some(number) if range.contains(i128::from(number)) => {
            numbers.push(number)?;
            Ok(true)
        }
        _ => Ok(false),
    }
}

/// Numbers of a range that stand in 64 bits.
#[derive(Drop)]
pub(crate) struct NarrowCells {
    pub(crate) numbers: Numbers<i64>,
    pub(crate) range: NumberRange,
}

impl HostCells for NarrowCells {
    ghost cells = { λ c. number_cells c.numbers };

    ghost takes = { λ c type. (range_of type ≡ Some (from_to c.range.low c.range.high)) × (is_in_words type ≡ false) };

    fn push_null(&mut self) -> Result<(), AllocError> {
        self.numbers.push_null()
    }

    fn push_value(&mut self, column: &HostColumn<'_>, row: usize) -> Result<bool, AllocError> {
        push_within(&mut self.numbers, &self.range, number_at(column, row))
    }
}

/// Numbers of a range that stand in two words.
#[derive(Drop)]
pub(crate) struct WideCells {
    pub(crate) numbers: Numbers<i128>,
    pub(crate) range: NumberRange,
}

impl HostCells for WideCells {
    ghost cells = { λ c. number_cells c.numbers };

    ghost takes = { λ c type. (range_of type ≡ Some (from_to c.range.low c.range.high)) × (is_in_words type ≡ true) };

    fn push_null(&mut self) -> Result<(), AllocError> {
        self.numbers.push_null()
    }

    fn push_value(&mut self, column: &HostColumn<'_>, row: usize) -> Result<bool, AllocError> {
        match wide_at(column, row) {
            Some(number) if self.range.contains(number) => {
                self.numbers.push(number)?;
                Ok(true)
            }
            _ => Ok(false),
        }
    }
}

// Texts.
impl HostCells for Texts {
    ghost cells = { text_cells };

    ghost takes = { λ _ type. type ≡ dtype.String };

    fn push_null(&mut self) -> Result<(), AllocError> {
        Texts::push_null(self)
    }

    fn push_value(&mut self, column: &HostColumn<'_>, row: usize) -> Result<bool, AllocError> {
        match text_at(column, row) {
            Some(text) => {
                self.push(text)?;
                Ok(true)
            }
            None => Ok(false),
        }
    }
}

// Categories by first appearance.
impl HostCells for CodesBuilder {
    ghost cells = { text_cells };

    ghost takes = { λ _ type. type ≡ dtype.Categorical };

    fn push_null(&mut self) -> Result<(), AllocError> {
        CodesBuilder::push_null(self)
    }

    fn push_value(&mut self, column: &HostColumn<'_>, row: usize) -> Result<bool, AllocError> {
        match category_at(column, row) {
            Some(text) => {
                self.push(text)?;
                Ok(true)
            }
            None => Ok(false),
        }
    }
}

/// Categories of an enum.
#[derive(Drop)]
pub(crate) struct EnumCells {
    pub(crate) alloc: Global,
    pub(crate) texts: Vec<Option<PlSmallStr>>,
}

impl HostCells for EnumCells {
    ghost cells = { λ c. text_cells c.texts.items };

    ghost takes = { λ _ type. (categories : Option (List (List ℕ))) × (type ≡ dtype.Enum categories) };

    fn push_null(&mut self) -> Result<(), AllocError> {
        push(&mut self.texts, None)
    }

    fn push_value(&mut self, column: &HostColumn<'_>, row: usize) -> Result<bool, AllocError> {
        match category_at(column, row) {
            Some(text) => {
                let Ok(copy) = PlSmallStr::from_str(self.alloc, text) else {
                    return Err(AllocError);
                };
                push(&mut self.texts, Some(copy))?;
                Ok(true)
            }
            None => Ok(false),
        }
    }
}
