//! Buffers into which cells are read, one variant for each type that can be read.
ghost use Rattle.std.specs.Prelude.{◌≡◌, Bool, [], true, not, if◌then◌else◌, length, None, suc, IfOk, IsOk, OnOk, OnErr, IsOkUnless};
ghost use Rattle.std.specs.Option.{option_copied};
ghost use Rattle.pl_frame.specs.declared.error.PolarsError.TheVariants as error;
ghost use Rattle.pl_frame.specs.Types.{is_readable, is_readable_decimal};
ghost use Rattle.pl_cells.specs.BufferValue.{Answers, with_value, cut_to, reading_of, column_of};
ghost use Rattle.pl_cells.specs.InitBuffers.{state_of, empty_buffer};
ghost use Rattle.pl_cells.specs.Cells.{missing_value, cell, stripped_cell, plain_cell, quoted_cell, softened};
ghost use Rattle.pl_cells.specs.NullTest.{nothing_is_null};
ghost use Rattle.pl_cells.specs.NullValues.{HaveTexts, means_null};

use crate::cell_fault::CellFault;
use crate::column_settings::ColumnSettings;
use crate::decimal_type::Decimal;
use crate::each_type::for_each_type;
use crate::enum_texts::EnumTexts;
use crate::moment_types::{Date, Datetime, Time};
use crate::null_test::is_null_cell;
use crate::null_values::NullValuesCompiled;
use crate::quoting::{between_quotes, quote_of, without_return};
use crate::text_buffer::TextBuffer;
use crate::value_buffer::ValueBuffer;
use crate::value_types::Boolean;
use crate::whole_types::{Int8, Int16, Int32, Int64, Int128, UInt8, UInt16, UInt32, UInt64};
use pl_frame::codes::CodesBuilder;
use pl_frame::column::Series;
use pl_frame::data_type::DataType;
use pl_frame::error::{PolarsError, PolarsResult};
use pl_frame::texts::Texts;
use std::alloc::{AllocError, Global};

/// The cells of a column that is being read.
#[derive(Drop)]
pub enum Buffer {
    Boolean(ValueBuffer<Boolean>),
    Int8(ValueBuffer<Int8>),
    Int16(ValueBuffer<Int16>),
    Int32(ValueBuffer<Int32>),
    Int64(ValueBuffer<Int64>),
    Int128(ValueBuffer<Int128>),
    UInt8(ValueBuffer<UInt8>),
    UInt16(ValueBuffer<UInt16>),
    UInt32(ValueBuffer<UInt32>),
    UInt64(ValueBuffer<UInt64>),
    String(TextBuffer<Texts>),
    Categorical(TextBuffer<CodesBuilder>),
    Enum(TextBuffer<EnumTexts>),
    Date(ValueBuffer<Date>),
    Time(ValueBuffer<Time>),
    Datetime(ValueBuffer<Datetime>),
    Decimal(ValueBuffer<Decimal>),
}

impl Buffer {
    // An empty buffer for a type that can be read.
    pub(crate) fn new(
        alloc: Global,
        settings: ColumnSettings,
        dtype: &DataType,
    ) -> PolarsResult<Buffer>
        requires { is_readable dtype.now ≡ true }
        ensures empty { IfOk result (λ buffer. state_of buffer ≡ empty_buffer settings.quote_char settings.encoding (settings.name, dtype.now)) }
        ensures refused { IsOkUnless result error.OutOfMemory }
    {
        Ok(match dtype {
            DataType::Boolean => Buffer::Boolean(ValueBuffer::new(alloc, settings, Boolean)),
            DataType::Int8 => Buffer::Int8(ValueBuffer::new(alloc, settings, Int8)),
            DataType::Int16 => Buffer::Int16(ValueBuffer::new(alloc, settings, Int16)),
            DataType::Int32 => Buffer::Int32(ValueBuffer::new(alloc, settings, Int32)),
            DataType::Int64 => Buffer::Int64(ValueBuffer::new(alloc, settings, Int64)),
            DataType::Int128 => Buffer::Int128(ValueBuffer::new(alloc, settings, Int128)),
            DataType::UInt8 => Buffer::UInt8(ValueBuffer::new(alloc, settings, UInt8)),
            DataType::UInt16 => Buffer::UInt16(ValueBuffer::new(alloc, settings, UInt16)),
            DataType::UInt32 => Buffer::UInt32(ValueBuffer::new(alloc, settings, UInt32)),
            DataType::UInt64 => Buffer::UInt64(ValueBuffer::new(alloc, settings, UInt64)),
            DataType::String => Buffer::String(TextBuffer::new(alloc, settings, Texts::new(alloc))),
            DataType::Categorical => Buffer::Categorical(TextBuffer::new(
                alloc,
                settings,
                CodesBuilder::new(alloc),
            )),
            DataType::Enum(Some(categories)) => {
                let texts = EnumTexts::new(alloc, categories.try_clone()?)?;
                Buffer::Enum(TextBuffer::new(alloc, settings, texts))
            }
            DataType::Date => Buffer::Date(ValueBuffer::new(alloc, settings, Date)),
            DataType::Time => Buffer::Time(ValueBuffer::new(alloc, settings, Time)),
            DataType::Datetime(unit) => {
                Buffer::Datetime(ValueBuffer::new(alloc, settings, Datetime { unit: *unit }))
            }
            DataType::Decimal(precision, Some(scale)) => {
                let kind = Decimal {
                    precision: *precision,
                    scale: *scale,
                };
                Buffer::Decimal(ValueBuffer::new(alloc, settings, kind))
            }
            DataType::Enum(None) | DataType::Decimal(_, None) | DataType::Null => unreachable!(),
        })
    }

    // The quote, if there is one.
    #[inline]
    fn quote_char(&self) -> Option<u8>
        ensures { result ≡ (state_of self.now).quote_char }
    {
        for_each_type!(self, buffer => buffer.quote_char())
    }

    // Puts the cell of a plain field at the end.
    #[inline]
    fn add_plain(
        &mut self,
        text: &[u8],
        ignore_errors: bool,
        missing_is_null: bool,
    ) -> Result<(), CellFault>
        ensures { Answers (state_of self.old) (state_of self.new) (softened ignore_errors (plain_cell (reading_of (state_of self.old) missing_is_null ignore_errors) (state_of self.old).dtype text.now)) result }
    {
        for_each_type!(self, buffer => buffer.add_plain(text, ignore_errors, missing_is_null))
    }

    // Puts the cell of what stands between quotes at the end.
    fn add_quoted(&mut self, text: &[u8], quote: u8, ignore_errors: bool) -> Result<(), CellFault>
        ensures { Answers (state_of self.old) (state_of self.new) (softened ignore_errors (quoted_cell (reading_of (state_of self.old) true ignore_errors) quote (state_of self.old).dtype text.now)) result }
    {
        for_each_type!(self, buffer => buffer.add_quoted(text, quote, ignore_errors))
    }

    // Puts the cell of a field at the end that begins with the quote, and is none of the null texts.
    fn add_quoted_field(
        &mut self,
        field: &[u8],
        quote: u8,
        ignore_errors: bool,
    ) -> Result<(), CellFault>
        ensures { Answers (state_of self.old) (state_of self.new) (stripped_cell (reading_of (state_of self.old) true ignore_errors) nothing_is_null (Some quote) (state_of self.old).dtype field.now) result }
    {
        match between_quotes(field, quote) {
            Some(text) => self.add_quoted(text, quote, ignore_errors),
            None => Err(CellFault::Escape),
        }
    }

    // Puts the cell of a field at the end that has lost its carriage return and is none of the null texts, given the quote
    // that it begins with.
    #[inline]
    fn add_stripped(
        &mut self,
        text: &[u8],
        quote: Option<u8>,
        ignore_errors: bool,
        missing_is_null: bool,
    ) -> Result<(), CellFault>
        ensures { Answers (state_of self.old) (state_of self.new) (stripped_cell (reading_of (state_of self.old) missing_is_null ignore_errors) nothing_is_null quote (state_of self.old).dtype text.now) result }
    {
        match quote {
            Some(quote) => self.add_quoted_field(text, quote, ignore_errors),
            None => self.add_plain(text, ignore_errors, missing_is_null),
        }
    }

    /// Puts the cell of a field at the end. The field has lost its carriage return and is none of the null texts.
    /// `needs_escaping` says whether it begins with the quote; where there is no quote it is taken for plain.
    ///
    /// Refuses a field that begins with the quote and does not end with another (`Escape`), and, where errors are not
    /// ignored, a text that is not UTF-8 (`Utf8`) and one without a value of the type (`Value`), and want of memory. The
    /// buffer is then as it was.
    #[inline]
    pub fn add(
        &mut self,
        bytes: &[u8],
        ignore_errors: bool,
        needs_escaping: bool,
        missing_is_null: bool,
    ) -> Result<(), CellFault>
        ensures { Answers (state_of self.old) (state_of self.new) (stripped_cell (reading_of (state_of self.old) missing_is_null ignore_errors) nothing_is_null (if needs_escaping then (state_of self.old).quote_char else None) (state_of self.old).dtype bytes.now) result }
    {
        let quote = if needs_escaping {
            self.quote_char()
        } else {
            None
        };
        self.add_stripped(bytes, quote, ignore_errors, missing_is_null)
    }

    /// Puts the cell of a field at the end, in a column in which some texts mean null. `quote_char` is the buffer's, and
    /// under `Columns` there must be texts for so many columns.
    ///
    /// Refuses as `add` does, and is then as it was.
    #[inline]
    pub fn add_field(
        &mut self,
        field: &[u8],
        quote_char: Option<u8>,
        null_values: Option<&NullValuesCompiled>,
        column: usize,
        ignore_errors: bool,
        missing_is_null: bool,
    ) -> Result<(), CellFault>
        requires quote { quote_char ≡ (state_of self.old).quote_char }
        requires texts { HaveTexts null_values (suc column) }
        ensures { Answers (state_of self.old) (state_of self.new) (cell (reading_of (state_of self.old) missing_is_null ignore_errors) (means_null (option_copied null_values.entry) column) quote_char (state_of self.old).dtype field.now) result }
    {
        let quote = quote_of(field, quote_char);
        let text = without_return(field);
        if is_null_cell(null_values, text, column, quote) {
            self.add_missing(true)?;
            return Ok(());
        }
        self.add_stripped(text, quote, ignore_errors, missing_is_null)
    }

    /// Puts a null at the end, or, where it is `valid` and the column holds strings, the empty text. Refuses only want of
    /// memory, and is then as it was.
    #[inline]
    pub fn add_null(&mut self, valid: bool) -> PolarsResult<()>
        ensures ok { OnOk result (state_of self.new ≡ with_value (state_of self.old) (missing_value (not valid) (state_of self.old).dtype)) }
        ensures unchanged { OnErr result (state_of self.new ≡ state_of self.old) }
        ensures refused { IsOkUnless result error.OutOfMemory }
    {
        match self.add_missing(!valid) {
            Ok(()) => Ok(()),
            Err(_) => Err(PolarsError::OutOfMemory),
        }
    }

    // Puts the value of a missing text at the end.
    #[inline]
    fn add_missing(&mut self, is_null: bool) -> Result<(), AllocError>
        ensures ok { OnOk result (state_of self.new ≡ with_value (state_of self.old) (missing_value is_null (state_of self.old).dtype)) }
        ensures err { OnErr result (state_of self.new ≡ state_of self.old) }
    {
        for_each_type!(self, buffer => buffer.add_missing(is_null))
    }

    /// Makes room for so many more cells. Refuses only want of memory; the cells stay as they are.
    pub fn reserve(&mut self, additional: usize) -> Result<(), AllocError>
        ensures { state_of self.new ≡ state_of self.old }
    {
        for_each_type!(self, buffer => buffer.reserve(additional))
    }

    /// Keeps so many cells, or all if there are fewer, without taking memory.
    pub fn truncate(&mut self, len: usize)
        ensures { state_of self.new ≡ cut_to len (state_of self.old) }
    {
        for_each_type!(self, buffer => buffer.truncate(len))
    }

    /// The type of the column. Refuses only want of memory.
    pub fn dtype(&self) -> PolarsResult<DataType>
        ensures is { IfOk result (λ dtype. dtype ≡ (state_of self.now).dtype) }
        ensures refused { IsOkUnless result error.OutOfMemory }
    {
        match self {
            Buffer::Boolean(buffer) => Ok(buffer.dtype()),
            Buffer::Int8(buffer) => Ok(buffer.dtype()),
            Buffer::Int16(buffer) => Ok(buffer.dtype()),
            Buffer::Int32(buffer) => Ok(buffer.dtype()),
            Buffer::Int64(buffer) => Ok(buffer.dtype()),
            Buffer::Int128(buffer) => Ok(buffer.dtype()),
            Buffer::UInt8(buffer) => Ok(buffer.dtype()),
            Buffer::UInt16(buffer) => Ok(buffer.dtype()),
            Buffer::UInt32(buffer) => Ok(buffer.dtype()),
            Buffer::UInt64(buffer) => Ok(buffer.dtype()),
            Buffer::String(buffer) => buffer.dtype(),
            Buffer::Categorical(buffer) => buffer.dtype(),
            Buffer::Enum(buffer) => buffer.dtype(),
            Buffer::Date(buffer) => Ok(buffer.dtype()),
            Buffer::Time(buffer) => Ok(buffer.dtype()),
            Buffer::Datetime(buffer) => Ok(buffer.dtype()),
            Buffer::Decimal(buffer) => Ok(buffer.dtype()),
        }
    }

    /// How many cells there are, without taking memory.
    #[inline]
    pub fn len(&self) -> usize
        ensures { result ≡ length (state_of self.now).values }
    {
        for_each_type!(self, buffer => buffer.len())
    }

    /// The column, without taking memory.
    pub fn into_series(self) -> PolarsResult<Series>
        ensures { IfOk result (λ column. column ≡ column_of (state_of self)) × IsOk result }
    {
        Ok(for_each_type!(self, buffer => buffer.into_series()))
    }
    /// The column, in no more memory than its cells need; the buffer stays as it is. Refuses only want of memory.
    pub fn packed(&self, alloc: Global) -> Result<Series, AllocError>
        ensures { IfOk result (λ column. column ≡ column_of (state_of self.now)) }
    {
        for_each_type!(self, buffer => buffer.packed(alloc))
    }
}
