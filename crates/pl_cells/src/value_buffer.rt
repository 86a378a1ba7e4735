//! Buffers of truth values and of numbers.
ghost use Rattle.std.specs.Prelude.{◌≡◌, true, [], length, IfOk, OnOk, OnErr, None};
ghost use Rattle.pl_frame.specs.Types.{is_text};
ghost use Rattle.pl_cells.specs.BufferValue.{Answers, with_value, with_more, cut_to, reading_of, column_of};
ghost use Rattle.pl_cells.specs.Cells.{missing_value, plain_cell, quoted_cell, softened, value_or_null, value_text};
ghost use Rattle.pl_cells.specs.Columns.{IsSeen, is_apart_from_numbers};
ghost use Rattle.pl_cells.specs.Integers.{without_blanks};
ghost use Rattle.pl_table.specs.Tables.{placed_text};

use crate::cell_fault::CellFault;
use crate::column_settings::ColumnSettings;
use crate::quoted_at::value_at;
use crate::value_types::ValueType;
use pl_frame::column::Series;
use pl_frame::data_type::DataType;
use pl_frame::numbers::Numbers;
use pl_table::table::Placed;
use std::alloc::{AllocError, Global};
use std::marker::Model;

/// The cells of a column of truth values or numbers.
#[derive(Drop)]
pub struct ValueBuffer<K: ValueType> {
    settings: ColumnSettings,
    kind: K,
    values: Numbers<K::Kept>,
}

impl<K: ValueType> Model for ValueBuffer<K> {
    ghost use Rattle.std.specs.Prelude.{map};
    ghost use Rattle.std.specs.Option.{option_map};
    ghost use Rattle.pl_frame.specs.Columns.{HoldsType};
    ghost use Rattle.pl_cells.specs.BufferValue.{BufferValue};

    ghost Value = { BufferValue };

    ghost view = { λ b. record { name = b.settings.name; dtype = K.dtype b.kind; quote_char = b.settings.quote_char; encoding = b.settings.encoding; values = map (option_map K.scalar) b.values } };

    // Each value is one of the type.
    ghost invariant = { λ b. HoldsType (K.dtype b.kind) (map (option_map K.scalar) b.values) };
}

// Without the spaces and tabs in front.
#[inline]
fn skip_blanks(text: &[u8]) -> &[u8]
    ensures { result.now ≡ without_blanks text.now }
{
    let mut rest = text;
    while let [first, behind @ ..] = rest {
        if *first != b' ' && *first != b'\t' {
            return rest;
        }
        rest = behind;
    }
    rest
}

// The text whose value is taken, of a type.
#[inline]
fn value_text<'a, K: ValueType>(kind: &K, text: &'a [u8]) -> &'a [u8]
    ensures { result.now ≡ value_text (K.dtype kind.now) text.now }
{
    if kind.skips_blanks() {
        skip_blanks(text)
    } else {
        text
    }
}

impl<K: ValueType> ValueBuffer<K> {
    /// No cells, without taking memory.
    pub(crate) fn new(alloc: Global, settings: ColumnSettings, kind: K) -> Self
        ensures { result ≡ record { name = settings.name; dtype = K.dtype kind; quote_char = settings.quote_char; encoding = settings.encoding; values = [] } }
    {
        ValueBuffer {
            settings,
            kind,
            values: Numbers::new(alloc),
        }
    }

    /// The quote, if there is one.
    #[inline]
    pub(crate) fn quote_char(&self) -> Option<u8>
        ensures { result ≡ self.now.quote_char }
    {
        self.settings.quote_char
    }

    /// The type of the column, without taking memory.
    pub(crate) fn dtype(&self) -> DataType
        ensures { result ≡ self.now.dtype }
    {
        self.kind.data_type()
    }

    /// How many cells there are, without taking memory.
    #[inline]
    pub(crate) fn len(&self) -> usize
        ensures { result ≡ length self.now.values }
    {
        self.values.len()
    }

    /// Makes room for so many more cells. Refuses only want of memory; the cells stay as they are.
    pub(crate) fn reserve(&mut self, additional: usize) -> Result<(), AllocError>
        ensures { self.new ≡ self.old }
    {
        self.values.reserve(additional)
    }

    /// Keeps so many cells, or all if there are fewer, without taking memory.
    pub(crate) fn truncate(&mut self, len: usize)
        ensures { self.new ≡ cut_to len self.old }
    {
        self.values.truncate(len)
    }

    /// The type is one of the kind.
    #[inline]
    pub(crate) fn know_type(&self)
        ensures { (kind : K) × (K.dtype kind ≡ self.now.dtype) }
    {
        let _ = &self.kind;
    }

    /// Puts the cells of another buffer of the type at the end. Refuses only want of memory, and is then as it was.
    pub(crate) fn append(&mut self, other: &ValueBuffer<K>) -> Result<(), AllocError>
        requires { self.old.dtype ≡ other.now.dtype }
        ensures ok { OnOk result (self.new ≡ with_more self.old other.now.values) }
        ensures err { OnErr result (self.new ≡ self.old) }
    {
        self.values.append(&other.values)
    }

    /// Puts the cell of a missing text at the end, which is a null. Refuses only want of memory, and is then as it was.
    #[inline]
    pub(crate) fn add_missing(&mut self, _is_null: bool) -> Result<(), AllocError>
        ensures ok { OnOk result (self.new ≡ with_value self.old (missing_value _is_null self.old.dtype)) }
        ensures err { OnErr result (self.new ≡ self.old) }
    {
        self.values.push_null()
    }

    // Puts the value of a text at the end, which is not empty.
    #[inline]
    fn add_value(&mut self, text: &[u8], ignore_errors: bool) -> Result<(), CellFault>
        ensures { Answers self.old self.new (softened ignore_errors (value_or_null self.old.dtype text.now)) result }
    {
        if text.is_empty() {
            self.values.push_null()?;
            return Ok(());
        }
        match self.kind.parse(text) {
            Some(value) => self.values.push(value)?,
            None if ignore_errors => self.values.push_null()?,
            None => return Err(CellFault::Value),
        }
        Ok(())
    }

    /// Puts the value of a plain field at the end where it is soon seen which it is, and else leaves all as it was. A number
    /// begins with no quote, which is not looked for. No text means null. Refuses only want of memory, and is then as it was.
    #[inline(always)]
    pub(crate) fn add_seen(
        &mut self,
        field: Placed<'_>,
        _quote_char: Option<u8>,
    ) -> Result<bool, AllocError>
        requires apart { is_apart_from_numbers _quote_char ≡ true }
        ensures seen { IfOk result (λ seen. IsSeen _quote_char (placed_text field.entry) self.old self.new seen) }
        ensures err { OnErr result (self.new ≡ self.old) }
    {
        match self.kind.parse_at(field.upto, field.start) {
            Some(value) => {
                self.values.push(value)?;
                Ok(true)
            }
            None => Ok(false),
        }
    }

    /// Puts the value of a field, or of what stands between its quotes, at the end where it is soon seen which it is, and else
    /// leaves all as it was. No text means null. Refuses only want of memory, and is then as it was.
    #[inline(always)]
    pub(crate) fn add_between(
        &mut self,
        field: Placed<'_>,
        quote_char: Option<u8>,
    ) -> Result<bool, AllocError>
        ensures seen { IfOk result (λ seen. IsSeen quote_char (placed_text field.entry) self.old self.new seen) }
        ensures err { OnErr result (self.new ≡ self.old) }
    {
        let Some(text) = value_at(field, quote_char) else {
            return Ok(false);
        };
        match self.kind.parse_at(text.upto, text.start) {
            Some(value) => {
                self.values.push(value)?;
                Ok(true)
            }
            None => Ok(false),
        }
    }

    /// Puts the cell of a plain text at the end. Refuses a text without a value (`Value`), where errors are not ignored,
    /// and want of memory; the buffer is then as it was.
    #[inline]
    pub(crate) fn add_plain(
        &mut self,
        text: &[u8],
        ignore_errors: bool,
        missing_is_null: bool,
    ) -> Result<(), CellFault>
        ensures { Answers self.old self.new (softened ignore_errors (plain_cell (reading_of self.old missing_is_null ignore_errors) self.old.dtype text.now)) result }
    {
        let text = value_text(&self.kind, text);
        self.add_value(text, ignore_errors)
    }

    /// Puts the cell of what stands between quotes at the end, which is that of a plain text. Refuses as `add_plain` does.
    #[inline]
    pub(crate) fn add_quoted(
        &mut self,
        text: &[u8],
        quote: u8,
        ignore_errors: bool,
    ) -> Result<(), CellFault>
        ensures { Answers self.old self.new (softened ignore_errors (quoted_cell (reading_of self.old true ignore_errors) quote self.old.dtype text.now)) result }
    {
        let text = value_text(&self.kind, text);
        self.add_value(text, ignore_errors)
    }

    /// The column, without taking memory.
    pub(crate) fn into_series(self) -> Series
        ensures { result ≡ column_of self }
    {
        let ValueBuffer {
            settings,
            kind,
            values,
        } = self;
        kind.column(settings.name, values)
    }
    /// The column, in no more memory than its cells need; the buffer stays as it is. Refuses only want of memory.
    pub(crate) fn packed(&self, alloc: Global) -> Result<Series, AllocError>
        ensures { IfOk result (λ column. column ≡ column_of self.now) }
    {
        match self.settings.name.try_clone() {
            Ok(name) => self.kind.packed(alloc, name, &self.values),
            Err(_) => Err(AllocError),
        }
    }
}
