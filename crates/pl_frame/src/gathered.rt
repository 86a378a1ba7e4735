//! Cells that are gathered for a column, one behind the other.
ghost use Rattle.std.specs.Prelude.{◌≡◌, ◌<◌, ◌≤◌, ◌+◌, ◌-◌, [], ◌∷◌, ◌++◌, length, take, drop, if◌then◌else◌, OnOk};
ghost use Rattle.pl_frame.specs.Columns.{scalar_of};
ghost use Rattle.pl_frame.specs.FrameParts.{kept_of};
ghost use Rattle.pl_frame.specs.Frame.{cell_at};
ghost use Rattle.pl_frame.specs.GatheredCells.{cells_so_far, SuitsType, truth_in, whole_in};

use crate::cast::{push_code, push_option, push_text};
use crate::codes::CodesBuilder;
use crate::column::{Column, Value};
use crate::constructors::push_narrow;
use crate::data_type::{DataType, TimeUnit};
use crate::name::PlSmallStr;
use crate::numbers::Numbers;
use crate::texts::Texts;
use std::alloc::{AllocError, Global};

// Cells of a type, kept in a way for it.
#[derive(Drop)]
pub(crate) enum Gathered {
    Boolean(Numbers<bool>),
    Narrow(Numbers<i64>),
    Wide(Numbers<i128>),
    String(Texts),
    Categories(CodesBuilder),
    Enum(Numbers<u64>),
    Null(usize),
}

impl Gathered {
    // No cells, without taking memory.
    pub(crate) fn new(alloc: Global, dtype: &DataType) -> Gathered
        ensures suits { SuitsType dtype.now result }
        ensures empty { cells_so_far dtype.now result ≡ [] }
    {
        match dtype {
            DataType::Boolean => Gathered::Boolean(Numbers::new(alloc)),
            DataType::Int8
            | DataType::Int16
            | DataType::Int32
            | DataType::Int64
            | DataType::UInt8
            | DataType::UInt16
            | DataType::UInt32
            | DataType::Date
            | DataType::Time
            | DataType::Datetime(TimeUnit::Milliseconds | TimeUnit::Microseconds) => {
                Gathered::Narrow(Numbers::new(alloc))
            }
            DataType::UInt64
            | DataType::Int128
            | DataType::Datetime(TimeUnit::Nanoseconds)
            | DataType::Decimal(_, _) => Gathered::Wide(Numbers::new(alloc)),
            DataType::String => Gathered::String(Texts::new(alloc)),
            DataType::Categorical => Gathered::Categories(CodesBuilder::new(alloc)),
            DataType::Enum(_) => Gathered::Enum(Numbers::new(alloc)),
            DataType::Null => Gathered::Null(0),
        }
    }

    // Puts the cell of a row at the end. Refuses only want of memory.
    pub(crate) fn push(&mut self, column: &Column, row: usize) -> Result<(), AllocError>
        requires suits { SuitsType column.now.dtype self.old }
        requires row { row < length column.now.values }
        ensures suits { OnOk result (SuitsType column.now.dtype self.new) }
        ensures cells { OnOk result (cells_so_far column.now.dtype self.new ≡ cells_so_far column.now.dtype self.old ++ cell_at column.now row ∷ []) }
    {
        // `dtype` is called for its clause that the values are of the type.
        let _dtype = column.dtype();
        match self {
            Gathered::Boolean(truths) => push_option(truths, truth_in(column.get(row))),
            Gathered::Narrow(numbers) => push_narrow(numbers, whole_in(column.get(row))),
            Gathered::Wide(numbers) => push_option(numbers, whole_in(column.get(row))),
            Gathered::String(texts) => push_text(texts, column.get(row)),
            Gathered::Categories(texts) => push_code(texts, column.get(row)),
            Gathered::Enum(places) => push_option(places, column.code(row)),
            Gathered::Null(len) => push_null(len),
        }
    }

    // Puts the cells of the rows from one up to another at the end. Refuses only want of memory.
    pub(crate) fn push_rows(
        &mut self,
        column: &Column,
        from: usize,
        to: usize,
    ) -> Result<(), AllocError>
        requires suits { SuitsType column.now.dtype self.old }
        requires rows { (from ≤ to) × (to ≤ length column.now.values) }
        ensures suits { OnOk result (SuitsType column.now.dtype self.new) }
        ensures cells { OnOk result (cells_so_far column.now.dtype self.new ≡ cells_so_far column.now.dtype self.old ++ take (to - from) (drop from column.now.values)) }
    {
        if let Some(part) = column.single() {
            return self.push_run(column.dtype(), part, from, to);
        }
        if let Some(parts) = column.parts() {
            return parts.put_rows(self, column.dtype(), from, to);
        }
        self.push_each(column, from, to)
    }

    // The same row by row, however the values are kept.
    fn push_each(&mut self, column: &Column, from: usize, to: usize) -> Result<(), AllocError>
        requires suits { SuitsType column.now.dtype self.old }
        requires rows { (from ≤ to) × (to ≤ length column.now.values) }
        ensures suits { OnOk result (SuitsType column.now.dtype self.new) }
        ensures cells { OnOk result (cells_so_far column.now.dtype self.new ≡ cells_so_far column.now.dtype self.old ++ take (to - from) (drop from column.now.values)) }
    {
        for row in from..to {
            self.push(column, row)?;
        }
        Ok(())
    }

    // Puts the cells of the rows whose flag is set at the end. Refuses only want of memory.
    pub(crate) fn push_kept(&mut self, column: &Column, keep: &[bool]) -> Result<(), AllocError>
        requires suits { SuitsType column.now.dtype self.old }
        requires flags { length keep.now ≡ length column.now.values }
        ensures suits { OnOk result (SuitsType column.now.dtype self.new) }
        ensures cells { OnOk result (cells_so_far column.now.dtype self.new ≡ cells_so_far column.now.dtype self.old ++ kept_of keep.now column.now.values) }
    {
        for (row, flag) in keep.iter().enumerate() {
            self.push_if(*flag, column, row)?;
        }
        Ok(())
    }

    // Puts the cell of a row at the end where the flag is set. Refuses only want of memory.
    #[inline]
    fn push_if(&mut self, flag: bool, column: &Column, row: usize) -> Result<(), AllocError>
        requires suits { SuitsType column.now.dtype self.old }
        requires row { row < length column.now.values }
        ensures suits { OnOk result (SuitsType column.now.dtype self.new) }
        ensures cells { OnOk result (cells_so_far column.now.dtype self.new ≡ cells_so_far column.now.dtype self.old ++ (if flag then cell_at column.now row ∷ [] else [])) }
    {
        if flag {
            return self.push(column, row);
        }
        Ok(())
    }

    // The column of these cells, without taking memory.
    pub(crate) fn into_column(self, name: PlSmallStr, dtype: DataType) -> Column
        requires { SuitsType dtype self }
        ensures { result ≡ record { name = name; dtype = dtype; values = cells_so_far dtype self } }
    {
        match self {
            Gathered::Boolean(truths) => Column::from_booleans(name, truths),
            Gathered::Narrow(numbers) => Column::from_narrow(name, dtype, numbers),
            Gathered::Wide(numbers) => Column::from_wide(name, dtype, numbers),
            Gathered::String(texts) => Column::from_string(name, texts),
            Gathered::Categories(texts) => Column::from_categories(name, texts.into_codes()),
            Gathered::Enum(places) => Column::from_enum(name, dtype, places),
            Gathered::Null(len) => match Column::nulls(name, len) {
                Ok(column) => column,
                Err(_) => unreachable!(),
            },
        }
    }
}

// The truth value in a cell.
#[inline]
pub(crate) fn truth_in(value: Value<'_>) -> Option<bool>
    ensures { result ≡ truth_in (scalar_of value.entry) }
{
    match value {
        Value::Boolean(truth) => Some(truth),
        _ => None,
    }
}

// The number in a cell.
#[inline]
pub(crate) fn whole_in(value: Value<'_>) -> Option<i128>
    ensures { result ≡ whole_in (scalar_of value.entry) }
{
    match value {
        Value::Whole(number) => Some(number),
        _ => None,
    }
}

// One more null.
#[inline]
fn push_null(len: &mut usize) -> Result<(), AllocError>
    ensures { OnOk result (len.new ≡ len.old + 1) }
{
    match len.checked_add(1) {
        Some(more) => {
            *len = more;
            Ok(())
        }
        None => Err(AllocError),
    }
}
