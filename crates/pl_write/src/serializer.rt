//! The cells of a column, written one by one.
ghost use Rattle.std.specs.Prelude.{◌≡◌, ◌++◌, ◌<◌, length, IsOkUnless, OnErr, OnOk};
ghost use Rattle.pl_text.specs.FrameText.{written_cell};
ghost use Rattle.pl_frame.specs.declared.error.PolarsError.TheVariants as error;
ghost use Rattle.pl_write.specs.CellsLeft.{next_cell, without_next};
ghost use Rattle.pl_write.specs.Options.{cell_options};
ghost use Rattle.pl_write.specs.Serializing.{left_of, after_one, IsArmOf};
ghost use Rattle.pl_write.specs.Writing.{StaysInFront};

use crate::cells::Cells;
use crate::options::SerializeOptions;
use pl_frame::column::Column;
use pl_frame::data_type::DataType;
use pl_frame::error::{PolarsError, PolarsResult};
use std::alloc::AllocError;

/// The cells of a column that are left to write, in an arm for the type of the column.
#[derive(Debug, Drop)]
pub enum Serializer<'a> {
    Boolean(Cells<'a>),
    Int8(Cells<'a>),
    Int16(Cells<'a>),
    Int32(Cells<'a>),
    Int64(Cells<'a>),
    Int128(Cells<'a>),
    UInt8(Cells<'a>),
    UInt16(Cells<'a>),
    UInt32(Cells<'a>),
    UInt64(Cells<'a>),
    String(Cells<'a>),
    Categorical(Cells<'a>),
    Enum(Cells<'a>),
    Date(Cells<'a>),
    Time(Cells<'a>),
    Datetime(Cells<'a>),
    Decimal(Cells<'a>),
    Null(Cells<'a>),
}

impl<'a> Serializer<'a> {
    /// Stands before row 0 of the column, and takes no memory.
    pub fn new(column: &'a Column) -> Serializer<'a>
        ensures cells { left_of result ≡ record { dtype = column.now.dtype; cells = column.now.values } }
        ensures arm { IsArmOf column.now.dtype result }
    {
        let cells = Cells::new(column);
        match column.dtype() {
            DataType::Boolean => Serializer::Boolean(cells),
            DataType::Int8 => Serializer::Int8(cells),
            DataType::Int16 => Serializer::Int16(cells),
            DataType::Int32 => Serializer::Int32(cells),
            DataType::Int64 => Serializer::Int64(cells),
            DataType::Int128 => Serializer::Int128(cells),
            DataType::UInt8 => Serializer::UInt8(cells),
            DataType::UInt16 => Serializer::UInt16(cells),
            DataType::UInt32 => Serializer::UInt32(cells),
            DataType::UInt64 => Serializer::UInt64(cells),
            DataType::String => Serializer::String(cells),
            DataType::Categorical => Serializer::Categorical(cells),
            DataType::Enum(_) => Serializer::Enum(cells),
            DataType::Date => Serializer::Date(cells),
            DataType::Time => Serializer::Time(cells),
            DataType::Datetime(_) => Serializer::Datetime(cells),
            DataType::Decimal(_, _) => Serializer::Decimal(cells),
            DataType::Null => Serializer::Null(cells),
        }
    }

    /// How many cells are left, without taking memory.
    pub fn len(&self) -> usize
        ensures { result ≡ length (left_of self.now).cells }
    {
        match self {
            Serializer::Boolean(cells) => cells.len(),
            Serializer::Int8(cells) => cells.len(),
            Serializer::Int16(cells) => cells.len(),
            Serializer::Int32(cells) => cells.len(),
            Serializer::Int64(cells) => cells.len(),
            Serializer::Int128(cells) => cells.len(),
            Serializer::UInt8(cells) => cells.len(),
            Serializer::UInt16(cells) => cells.len(),
            Serializer::UInt32(cells) => cells.len(),
            Serializer::UInt64(cells) => cells.len(),
            Serializer::String(cells) => cells.len(),
            Serializer::Categorical(cells) => cells.len(),
            Serializer::Enum(cells) => cells.len(),
            Serializer::Date(cells) => cells.len(),
            Serializer::Time(cells) => cells.len(),
            Serializer::Datetime(cells) => cells.len(),
            Serializer::Decimal(cells) => cells.len(),
            Serializer::Null(cells) => cells.len(),
        }
    }

    // Appends the next cell, and takes it off.
    #[inline]
    fn push_next(&mut self, buf: &mut Vec<u8>, options: &SerializeOptions) -> Result<(), AllocError>
        requires { 0 < length (left_of self.old).cells }
        ensures cell { OnOk result (buf.new.items ≡ buf.old.items ++ written_cell (cell_options options.now) (left_of self.old).dtype (next_cell (left_of self.old))) }
        ensures next { OnOk result (self.new ≡ after_one self.old) }
        ensures unchanged { OnErr result (self.new ≡ self.old) }
        ensures kept { StaysInFront buf.old.items buf.new.items }
    {
        match self {
            Serializer::Boolean(cells) => cells.push_next(buf, options),
            Serializer::Int8(cells) => cells.push_next(buf, options),
            Serializer::Int16(cells) => cells.push_next(buf, options),
            Serializer::Int32(cells) => cells.push_next(buf, options),
            Serializer::Int64(cells) => cells.push_next(buf, options),
            Serializer::Int128(cells) => cells.push_next(buf, options),
            Serializer::UInt8(cells) => cells.push_next(buf, options),
            Serializer::UInt16(cells) => cells.push_next(buf, options),
            Serializer::UInt32(cells) => cells.push_next(buf, options),
            Serializer::UInt64(cells) => cells.push_next(buf, options),
            Serializer::String(cells) => cells.push_next(buf, options),
            Serializer::Categorical(cells) => cells.push_next(buf, options),
            Serializer::Enum(cells) => cells.push_next(buf, options),
            Serializer::Date(cells) => cells.push_next(buf, options),
            Serializer::Time(cells) => cells.push_next(buf, options),
            Serializer::Datetime(cells) => cells.push_next(buf, options),
            Serializer::Decimal(cells) => cells.push_next(buf, options),
            Serializer::Null(cells) => cells.push_next(buf, options),
        }
    }

    /// Appends the next cell, as a frame has it under these options, and takes it off. Cells are left, as `len` tells.
    ///
    /// Refuses only want of memory; buffer and serializer are then as they were.
    pub fn serialize(&mut self, buf: &mut Vec<u8>, options: &SerializeOptions) -> PolarsResult<()>
        requires left { 0 < length (left_of self.old).cells }
        ensures cell { OnOk result (buf.new.items ≡ buf.old.items ++ written_cell (cell_options options.now) (left_of self.old).dtype (next_cell (left_of self.old))) }
        ensures next { OnOk result (self.new ≡ after_one self.old) }
        ensures refused { IsOkUnless result error.OutOfMemory }
        ensures unchanged { OnErr result (self.new ≡ self.old) }
        ensures restored { OnErr result (buf.new.items ≡ buf.old.items) }
    {
        let len = buf.len();
        match self.push_next(buf, options) {
            Ok(()) => Ok(()),
            Err(_) => {
                buf.truncate(len);
                Err(PolarsError::OutOfMemory)
            }
        }
    }
}
