//! What was read of one piece of a column, put behind what was read of those before.
ghost use Rattle.std.specs.Prelude.{◌≡◌, ◌≤◌, map, OnOk, OnErr};
ghost use Rattle.pl_frame.specs.ByteCount.{byte_count};
ghost use Rattle.pl_frame.specs.Columns.{text_in};
ghost use Rattle.pl_cells.specs.BufferValue.{with_more};
ghost use Rattle.pl_frame.specs.declared.data_type.DataType.TheVariants as dtype;
ghost use Rattle.pl_cells.specs.InitBuffers.{state_of};
ghost use Rattle.pl_cells.specs.Variants.{buffer_for};

use crate::buffer::Buffer;
use crate::each_type::for_each_type;
use std::alloc::AllocError;

impl Buffer {
    // The variant is the one for the type.
    #[inline]
    fn know_variant(&self)
        ensures { buffer_for (state_of self.now).dtype (state_of self.now) ≡ self.now }
    {
        for_each_type!(self, buffer => buffer.know_type())
    }

    /// Makes room for so many more cells, and, where their texts are kept one behind the other, for so many bytes in them.
    /// Refuses only want of memory; the cells stay as they are.
    pub fn reserve_for(&mut self, cells: usize, bytes: usize) -> Result<(), AllocError>
        ensures { state_of self.new ≡ state_of self.old }
    {
        match self {
            Buffer::String(buffer) => buffer.reserve_for(cells, bytes),
            _ => self.reserve(cells),
        }
    }

    /// At least as many bytes as the texts have, where the type is `String`, which is room enough for them, without taking
    /// memory.
    pub fn text_bytes(&self) -> usize
        ensures { (state_of self.now).dtype ≡ dtype.String → byte_count (map text_in (state_of self.now).values) ≤ result }
    {
        self.know_variant();
        match self {
            Buffer::String(buffer) => buffer.text_bytes(),
            _ => 0,
        }
    }

    /// Puts the cells of another buffer of the type at the end. Refuses only want of memory, and is then as it was.
    pub fn append(&mut self, other: &Buffer) -> Result<(), AllocError>
        requires { (state_of self.old).dtype ≡ (state_of other.now).dtype }
        ensures ok { OnOk result (state_of self.new ≡ with_more (state_of self.old) (state_of other.now).values) }
        ensures err { OnErr result (state_of self.new ≡ state_of self.old) }
    {
        self.know_variant();
        other.know_variant();
        match (self, other) {
            (Buffer::Boolean(buffer), Buffer::Boolean(other)) => buffer.append(other),
            (Buffer::Int8(buffer), Buffer::Int8(other)) => buffer.append(other),
            (Buffer::Int16(buffer), Buffer::Int16(other)) => buffer.append(other),
            (Buffer::Int32(buffer), Buffer::Int32(other)) => buffer.append(other),
            (Buffer::Int64(buffer), Buffer::Int64(other)) => buffer.append(other),
            (Buffer::Int128(buffer), Buffer::Int128(other)) => buffer.append(other),
            (Buffer::UInt8(buffer), Buffer::UInt8(other)) => buffer.append(other),
            (Buffer::UInt16(buffer), Buffer::UInt16(other)) => buffer.append(other),
            (Buffer::UInt32(buffer), Buffer::UInt32(other)) => buffer.append(other),
            (Buffer::UInt64(buffer), Buffer::UInt64(other)) => buffer.append(other),
            (Buffer::String(buffer), Buffer::String(other)) => buffer.append(other),
            (Buffer::Categorical(buffer), Buffer::Categorical(other)) => buffer.append(other),
            (Buffer::Enum(buffer), Buffer::Enum(other)) => buffer.append(other),
            (Buffer::Date(buffer), Buffer::Date(other)) => buffer.append(other),
            (Buffer::Time(buffer), Buffer::Time(other)) => buffer.append(other),
            (Buffer::Datetime(buffer), Buffer::Datetime(other)) => buffer.append(other),
            (Buffer::Decimal(buffer), Buffer::Decimal(other)) => buffer.append(other),
            _ => unreachable!(),
        }
    }
}
