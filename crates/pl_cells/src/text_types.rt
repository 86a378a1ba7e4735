//! Lists of texts, one for each type whose cells are texts.
ghost use Rattle.std.specs.Prelude.{◌≡◌, ◌≤◌, refl, ◌++◌, ◌∷◌, [], Bool, List, Option, true, false, length, map, take, IsUtf8, OnOk, OnErr, IfOk, IfSome, IsOkUnless, MatchOption};
ghost use Rattle.std.specs.Str.{is_utf8};
ghost use Rattle.std.specs.Str.Lossy.{utf8_lossy};
ghost use Rattle.std.specs.Option.{option_map};
ghost use Rattle.pl_frame.specs.declared.data_type.DataType.{DataType};
ghost use Rattle.pl_frame.specs.declared.data_type.DataType.TheVariants as column_type;
ghost use Rattle.pl_frame.specs.declared.error.PolarsError.TheVariants as error;
ghost use Rattle.pl_frame.specs.ByteCount.{byte_count};
ghost use Rattle.pl_frame.specs.Columns.{text_cells, text_in};
ghost use Rattle.pl_frame.specs.Frame.{Scalar, Letters};
ghost use Rattle.pl_frame.specs.Types.{is_text};
ghost use Rattle.pl_cells.specs.BufferValue.{ListAnswers, reading_with};
ghost use Rattle.pl_cells.specs.Cells.{missing_value, text_cell};
ghost use Rattle.pl_cells.specs.Columns.{IsKnown};

use crate::ascii::is_seen_ascii;
use crate::cell_fault::CellFault;
use crate::utf8::CsvEncoding;
use pl_frame::codes::CodesBuilder;
use pl_frame::column::Column;
use pl_frame::data_type::DataType;
use pl_frame::error::PolarsResult;
use pl_frame::name::PlSmallStr;
use pl_frame::texts::Texts;
use std::alloc::{AllocError, Global};

/// A list of texts of a type, with nulls.
pub trait TextType {
    ghost dtype: { Self → DataType };

    ghost values: { Self → List (Option Scalar) };

    // Its values are texts.
    ghost all_text: { (texts : Self) → is_text (dtype texts) ≡ true };

    /// The type as a column has it. Refuses only want of memory.
    fn data_type(&self) -> PolarsResult<DataType>
        ensures is { IfOk result (λ type. type ≡ dtype self.now) }
        ensures refused { IsOkUnless result error.OutOfMemory };

    /// How many values there are, nulls among them, without taking memory.
    fn count(&self) -> usize
        ensures { result ≡ length (values self.now) };

    /// Makes room for so many more, with so many bytes in them. Refuses only want of memory; the values stay as they are.
    fn make_room(&mut self, additional: usize, bytes: usize) -> Result<(), AllocError>
        ensures same { values self.new ≡ values self.old }
        ensures dtype { dtype self.new ≡ dtype self.old };

    /// At least as many bytes as the texts have, where the type is `String`, which is room enough for them, without taking
    /// memory.
    fn text_bytes(&self) -> usize
        ensures { dtype self.now ≡ column_type.String → byte_count (map text_in (values self.now)) ≤ result };

    /// Puts the values of another list of the type at the end. Refuses only want of memory, and is then as it was.
    fn add_all(&mut self, other: &Self) -> Result<(), AllocError>
        requires { dtype self.old ≡ dtype other.now }
        ensures ok { OnOk result (values self.new ≡ values self.old ++ values other.now) }
        ensures err { OnErr result (values self.new ≡ values self.old) }
        ensures dtype { dtype self.new ≡ dtype self.old };

    /// Keeps so many values, or all if there are fewer, without taking memory.
    fn cut_back(&mut self, len: usize)
        ensures kept { values self.new ≡ take len (values self.old) }
        ensures dtype { dtype self.new ≡ dtype self.old };

    /// Puts the value of a missing text at the end. Refuses only want of memory, and is then as it was.
    fn add_missing(&mut self, is_null: bool) -> Result<(), AllocError>
        ensures ok { OnOk result (values self.new ≡ values self.old ++ missing_value is_null (dtype self.old) ∷ []) }
        ensures err { OnErr result (values self.new ≡ values self.old) }
        ensures dtype { dtype self.new ≡ dtype self.old };

    /// Puts the cell of a text at the end. Refuses a text that is not UTF-8 (`Utf8`) or not one of the type (`Value`),
    /// and want of memory, and is then as it was.
    fn add_text(
        &mut self,
        alloc: Global,
        text: &[u8],
        encoding: CsvEncoding,
    ) -> Result<(), CellFault>
        ensures answers { (missing : Bool) → (ignore : Bool) → ListAnswers (values self.old) (values self.new) (text_cell (reading_with encoding missing ignore) (dtype self.old) text.now) result }
        ensures dtype { dtype self.new ≡ dtype self.old }
        ensures is_text { is_text (dtype self.old) ≡ true };

    /// Puts a text that is not empty at the end, where each text is one of the type, and else leaves all as it was. Refuses only
    /// want of memory, and is then as it was.
    #[inline(always)]
    fn add_known(&mut self, _text: &str) -> Result<bool, AllocError>
        requires { is_utf8 _text.now ≡ true }
        ensures seen { IfOk result (λ seen. IsKnown (dtype self.old) _text.now (values self.old) (values self.new) seen) }
        ensures err { OnErr result (values self.new ≡ values self.old) }
        ensures dtype { dtype self.new ≡ dtype self.old }
    {
        Ok(false)
    }

    /// The column of a name, without taking memory.
    fn column(self, name: PlSmallStr) -> Column
        ensures { result ≡ record { name = name; dtype = dtype self; values = values self } };

    /// The column of a name, in no more memory than the values need. Refuses only want of memory.
    fn packed(&self, alloc: Global, name: PlSmallStr) -> Result<Column, AllocError>
        ensures { IfOk result (λ column. column ≡ record { name = name; dtype = dtype self.now; values = values self.now }) };
}

// Bytes that are known to be a text: no test is run.
#[inline]
fn known_text(bytes: &[u8]) -> &str
    requires { IsUtf8 bytes.now }
    ensures { result.now ≡ bytes.now }
{
    unsafe { str::from_utf8_unchecked(bytes) }
}

// The bytes as text, where they are ASCII at sight.
#[inline(always)]
fn seen_text(bytes: &[u8]) -> Option<&str>
    ensures utf8 { IfSome result (λ _. is_utf8 bytes.now ≡ true) }
    ensures text { IfSome result (λ text. text.now ≡ bytes.now) }
{
    if is_seen_ascii(bytes) {
        Some(known_text(bytes))
    } else {
        None
    }
}

// The bytes as text, where they are UTF-8, of any bytes.
#[inline(never)]
fn valid_text(bytes: &[u8]) -> Option<&str>
    ensures utf8 { IfSome result (λ _. is_utf8 bytes.now ≡ true) }
    ensures text { IfSome result (λ text. text.now ≡ bytes.now) }
{
    match simdutf8::basic::from_utf8(bytes) {
        Ok(text) => Some(text),
        Err(_) => None,
    }
}

// The same where most are ASCII, which is seen here.
#[inline(always)]
pub(crate) fn text_in_place(bytes: &[u8]) -> Option<&str>
    ensures utf8 { IfSome result (λ _. is_utf8 bytes.now ≡ true) }
    ensures text { IfSome result (λ text. text.now ≡ bytes.now) }
{
    match seen_text(bytes) {
        Some(text) => Some(text),
        None => valid_text(bytes),
    }
}

// The bytes as text, where they are UTF-8: most are ASCII, which is seen faster.
#[inline]
pub(crate) fn as_text(bytes: &[u8]) -> Option<&str>
    ensures { MatchOption result (is_utf8 bytes.now ≡ false) (λ text. (is_utf8 bytes.now ≡ true) × (text.now ≡ bytes.now)) }
{
    if is_seen_ascii(bytes) {
        return Some(known_text(bytes));
    }
    match simdutf8::basic::from_utf8(bytes) {
        Ok(text) => Some(text),
        Err(_) => None,
    }
}

// Puts the lossy reading of bytes at the end.
fn push_lossy(texts: &mut Texts, alloc: Global, bytes: &[u8]) -> Result<(), AllocError>
    ensures ok { OnOk result (texts.new ≡ texts.old ++ Some (utf8_lossy bytes.now) ∷ []) }
    ensures err { OnErr result (texts.new ≡ texts.old) }
{
    let text = String::from_utf8_lossy(alloc, bytes)?;
    texts.push(text.as_str())
}

// Strings.
impl TextType for Texts {
    ghost dtype = { λ _. column_type.String };

    ghost values = { text_cells };

    ghost all_text = { λ _. refl };

    fn data_type(&self) -> PolarsResult<DataType> {
        Ok(DataType::String)
    }

    #[inline]
    fn count(&self) -> usize {
        self.len()
    }

    fn make_room(&mut self, additional: usize, bytes: usize) -> Result<(), AllocError> {
        self.reserve(additional, bytes)
    }

    #[inline]
    fn text_bytes(&self) -> usize {
        self.byte_len()
    }

    fn add_all(&mut self, other: &Self) -> Result<(), AllocError> {
        self.append(other)
    }

    fn cut_back(&mut self, len: usize) {
        self.truncate(len)
    }

    #[inline]
    fn add_missing(&mut self, is_null: bool) -> Result<(), AllocError> {
        if is_null {
            self.push_null()
        } else {
            self.push("")
        }
    }

    #[inline]
    fn add_text(
        &mut self,
        alloc: Global,
        text: &[u8],
        encoding: CsvEncoding,
    ) -> Result<(), CellFault> {
        match as_text(text) {
            Some(text) => self.push(text)?,
            None if encoding == CsvEncoding::Utf8 => return Err(CellFault::Utf8),
            None => push_lossy(self, alloc, text)?,
        }
        Ok(())
    }

    #[inline(always)]
    fn add_known(&mut self, text: &str) -> Result<bool, AllocError> {
        self.push(text)?;
        Ok(true)
    }

    fn column(self, name: PlSmallStr) -> Column {
        Column::from_string(name, self)
    }

    fn packed(&self, alloc: Global, name: PlSmallStr) -> Result<Column, AllocError> {
        Column::packed_string(alloc, name, self)
    }
}

// Categories.
impl TextType for CodesBuilder {
    ghost dtype = { λ _. column_type.Categorical };

    ghost values = { text_cells };

    ghost all_text = { λ _. refl };

    fn data_type(&self) -> PolarsResult<DataType> {
        Ok(DataType::Categorical)
    }

    #[inline]
    fn count(&self) -> usize {
        self.len()
    }

    fn make_room(&mut self, additional: usize, _bytes: usize) -> Result<(), AllocError> {
        self.reserve(additional)
    }

    #[inline]
    fn text_bytes(&self) -> usize {
        0
    }

    fn add_all(&mut self, other: &Self) -> Result<(), AllocError> {
        self.append(other)
    }

    fn cut_back(&mut self, len: usize) {
        self.truncate(len)
    }

    #[inline]
    fn add_missing(&mut self, _is_null: bool) -> Result<(), AllocError> {
        self.push_null()
    }

    #[inline]
    fn add_text(
        &mut self,
        _alloc: Global,
        text: &[u8],
        _encoding: CsvEncoding,
    ) -> Result<(), CellFault> {
        match as_text(text) {
            Some(text) => self.push(text)?,
            None => return Err(CellFault::Utf8),
        }
        Ok(())
    }

    #[inline(always)]
    fn add_known(&mut self, text: &str) -> Result<bool, AllocError> {
        self.push(text)?;
        Ok(true)
    }

    fn column(self, name: PlSmallStr) -> Column {
        Column::from_categories(name, self.into_codes())
    }

    fn packed(&self, alloc: Global, name: PlSmallStr) -> Result<Column, AllocError> {
        let mut texts = CodesBuilder::new(alloc);
        texts.append(self)?;
        Ok(Column::from_categories(name, texts.into_codes()))
    }
}
