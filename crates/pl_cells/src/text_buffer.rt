//! Buffers of texts.
ghost use Rattle.std.specs.Prelude.{◌≡◌, ◌≤◌, ℕ, Bool, true, IsTrue, [], length, map, OnOk, OnErr, IfOk, IsOkUnless};
ghost use Rattle.pl_frame.specs.declared.error.PolarsError.TheVariants as error;
ghost use Rattle.pl_frame.specs.ByteCount.{byte_count};
ghost use Rattle.pl_frame.specs.Columns.{text_in};
ghost use Rattle.pl_frame.specs.declared.data_type.DataType.TheVariants as dtype;
ghost use Rattle.pl_frame.specs.Types.{is_text};
ghost use Rattle.pl_cells.specs.BufferValue.{Answers, ListAnswers, with_value, with_more, cut_to, reading_of, reading_with, column_of};
ghost use Rattle.pl_cells.specs.Cells.{missing_value, plain_cell, quoted_cell, softened, text_cell};
ghost use Rattle.pl_cells.specs.Columns.{IsSeen};
ghost use Rattle.pl_cells.specs.Quoting.{undouble};
ghost use Rattle.pl_table.specs.Tables.{placed_text};

use crate::cell_fault::CellFault;
use crate::column_settings::ColumnSettings;
use crate::quoted_at::text_at;
use crate::quoting::undouble_into;
use crate::text_types::TextType;
use crate::utf8::CsvEncoding;
use memchr::memchr;
use pl_frame::column::Series;
use pl_frame::data_type::DataType;
use pl_frame::error::PolarsResult;
use pl_table::table::Placed;
use std::alloc::{AllocError, Global};
use std::marker::Model;

/// The cells of a column of texts.
#[derive(Drop)]
pub struct TextBuffer<L: TextType> {
    settings: ColumnSettings,
    texts: L,
    /// Where texts are undoubled.
    scratch: Vec<u8>,
}

impl<L: TextType> Model for TextBuffer<L> {
    ghost use Rattle.pl_cells.specs.BufferValue.{BufferValue};

    ghost Value = { BufferValue };

    ghost view = { λ b. record { name = b.settings.name; dtype = L.dtype b.texts; quote_char = b.settings.quote_char; encoding = b.settings.encoding; values = L.values b.texts } };
}

// Whether a text has no quote, so that it stays as it is.
#[inline]
fn holds_no_quote(text: &[u8], quote: u8) -> bool
    ensures { IsTrue result → undouble quote text.now ≡ text.now }
{
    match memchr(quote, text) {
        Some(_) => false,
        None => true,
    }
}

// Puts the cell of a text at the end, which is null where it has a fault and errors are ignored.
#[inline]
fn add_text<L: TextType>(
    texts: &mut L,
    alloc: Global,
    text: &[u8],
    encoding: CsvEncoding,
    ignore_errors: bool,
) -> Result<(), CellFault>
    ensures answers { (missing : Bool) → ListAnswers (L.values texts.old) (L.values texts.new) (softened ignore_errors (text_cell (reading_with encoding missing ignore_errors) (L.dtype texts.old) text.now)) result }
    ensures dtype { L.dtype texts.new ≡ L.dtype texts.old }
    ensures is_text { is_text (L.dtype texts.old) ≡ true }
{
    match texts.add_text(alloc, text, encoding) {
        Ok(()) => Ok(()),
        Err(fault) if fault.is_ignored(ignore_errors) => {
            texts.add_missing(true)?;
            Ok(())
        }
        Err(fault) => Err(fault),
    }
}

impl<L: TextType> TextBuffer<L> {
    /// The texts of a list, without taking memory.
    pub(crate) fn new(alloc: Global, settings: ColumnSettings, texts: L) -> Self
        ensures { result ≡ record { name = settings.name; dtype = L.dtype texts; quote_char = settings.quote_char; encoding = settings.encoding; values = L.values texts } }
    {
        TextBuffer {
            settings,
            texts,
            scratch: Vec::new(alloc),
        }
    }

    /// The quote, if there is one.
    #[inline]
    pub(crate) fn quote_char(&self) -> Option<u8>
        ensures { result ≡ self.now.quote_char }
    {
        self.settings.quote_char
    }

    /// The type of the column. Refuses only want of memory.
    pub(crate) fn dtype(&self) -> PolarsResult<DataType>
        ensures is { IfOk result (λ dtype. dtype ≡ self.now.dtype) }
        ensures refused { IsOkUnless result error.OutOfMemory }
    {
        self.texts.data_type()
    }

    /// How many cells there are, without taking memory.
    #[inline]
    pub(crate) fn len(&self) -> usize
        ensures { result ≡ length self.now.values }
    {
        self.texts.count()
    }

    /// Makes room for so many more cells. Refuses only want of memory; the cells stay as they are.
    pub(crate) fn reserve(&mut self, additional: usize) -> Result<(), AllocError>
        ensures { self.new ≡ self.old }
    {
        self.texts.make_room(additional, 0)
    }

    /// Makes room for so many more cells, with so many bytes in their texts. Refuses only want of memory; the cells stay as
    /// they are.
    pub(crate) fn reserve_for(&mut self, cells: usize, bytes: usize) -> Result<(), AllocError>
        ensures { self.new ≡ self.old }
    {
        self.texts.make_room(cells, bytes)
    }

    /// At least as many bytes as the texts have, where the type is `String`, which is room enough for them, without taking
    /// memory.
    #[inline]
    pub(crate) fn text_bytes(&self) -> usize
        ensures { self.now.dtype ≡ dtype.String → byte_count (map text_in self.now.values) ≤ result }
    {
        self.texts.text_bytes()
    }

    /// The type is one of the kind.
    #[inline]
    pub(crate) fn know_type(&self)
        ensures { (texts : L) × (L.dtype texts ≡ self.now.dtype) }
    {
        let _ = &self.texts;
    }

    /// Puts the cells of another buffer of the type at the end. Refuses only want of memory, and is then as it was.
    pub(crate) fn append(&mut self, other: &TextBuffer<L>) -> Result<(), AllocError>
        requires { self.old.dtype ≡ other.now.dtype }
        ensures ok { OnOk result (self.new ≡ with_more self.old other.now.values) }
        ensures err { OnErr result (self.new ≡ self.old) }
    {
        self.texts.add_all(&other.texts)
    }

    /// Keeps so many cells, or all if there are fewer, without taking memory.
    pub(crate) fn truncate(&mut self, len: usize)
        ensures { self.new ≡ cut_to len self.old }
    {
        self.texts.cut_back(len)
    }

    /// Puts the cell of a missing text at the end: a null, or, where it is not to be one and the column holds strings,
    /// the empty text. Refuses only want of memory, and is then as it was.
    #[inline]
    pub(crate) fn add_missing(&mut self, is_null: bool) -> Result<(), AllocError>
        ensures ok { OnOk result (self.new ≡ with_value self.old (missing_value is_null self.old.dtype)) }
        ensures err { OnErr result (self.new ≡ self.old) }
    {
        self.texts.add_missing(is_null)
    }

    /// Puts the text of a field at the end where it is seen soon, and else leaves all as it was. No text means null.
    /// Refuses only want of memory, and is then as it was.
    #[inline(always)]
    pub(crate) fn add_seen(
        &mut self,
        field: Placed<'_>,
        quote_char: Option<u8>,
    ) -> Result<bool, AllocError>
        ensures seen { IfOk result (λ seen. IsSeen quote_char (placed_text field.entry) self.old self.new seen) }
        ensures err { OnErr result (self.new ≡ self.old) }
    {
        match text_at(field, quote_char) {
            Some(text) => {
                let seen = self.texts.add_known(text)?;
                Ok(seen)
            }
            None => Ok(false),
        }
    }

    /// Puts the cell of a plain text at the end. Refuses a text that is not UTF-8 (`Utf8`) and one that is none of the
    /// type (`Value`), where errors are not ignored, and want of memory; the buffer is then as it was.
    #[inline]
    pub(crate) fn add_plain(
        &mut self,
        text: &[u8],
        ignore_errors: bool,
        missing_is_null: bool,
    ) -> Result<(), CellFault>
        ensures { Answers self.old self.new (softened ignore_errors (plain_cell (reading_of self.old missing_is_null ignore_errors) self.old.dtype text.now)) result }
    {
        if text.is_empty() {
            self.add_missing(missing_is_null)?;
            return Ok(());
        }
        let alloc = *self.scratch.allocator();
        add_text(
            &mut self.texts,
            alloc,
            text,
            self.settings.encoding,
            ignore_errors,
        )
    }

    /// Puts the cell of what stands between quotes at the end, undoubled. Refuses as `add_plain` does.
    #[inline]
    pub(crate) fn add_quoted(
        &mut self,
        text: &[u8],
        quote: u8,
        ignore_errors: bool,
    ) -> Result<(), CellFault>
        ensures { Answers self.old self.new (softened ignore_errors (quoted_cell (reading_of self.old true ignore_errors) quote self.old.dtype text.now)) result }
    {
        let alloc = *self.scratch.allocator();
        let encoding = self.settings.encoding;
        if holds_no_quote(text, quote) {
            return add_text(&mut self.texts, alloc, text, encoding, ignore_errors);
        }
        undouble_into(&mut self.scratch, text, quote)?;
        add_text(
            &mut self.texts,
            alloc,
            &self.scratch,
            encoding,
            ignore_errors,
        )
    }

    /// The column, without taking memory.
    pub(crate) fn into_series(self) -> Series
        ensures { result ≡ column_of self }
    {
        let TextBuffer {
            settings,
            texts,
            scratch: _,
        } = self;
        texts.column(settings.name)
    }
    /// The column, in no more memory than its cells need; the buffer stays as it is. Refuses only want of memory.
    pub(crate) fn packed(&self, alloc: Global) -> Result<Series, AllocError>
        ensures { IfOk result (λ column. column ≡ column_of self.now) }
    {
        match self.settings.name.try_clone() {
            Ok(name) => self.texts.packed(alloc, name),
            Err(_) => Err(AllocError),
        }
    }
}
