//! How a frame is written.
ghost use Rattle.std.specs.Prelude.{◌≡◌, IfOk, IsOkUnless};
ghost use Rattle.pl_frame.specs.declared.error.PolarsError.TheVariants as error;
ghost use Rattle.pl_write.specs.Options.{default_cells, default_options};

use pl_frame::error::PolarsResult;
use pl_frame::name::PlSmallStr;
use std::alloc::Global;

/// When a cell is quoted (docs/quoting.md).
#[derive(Clone, Copy, Debug, Default, PartialEq, Eq)]
pub enum QuoteStyle {
    /// A text that is empty or holds the separator, a line feed, a carriage return or the quote.
    #[default]
    Necessary,
    /// Every cell, a null too.
    Always,
    /// Every value but whole numbers and decimals.
    NonNumeric,
    /// Nothing.
    Never,
}

/// How a cell is written.
#[derive(Debug, Drop, PartialEq, Eq)]
pub struct SerializeOptions {
    /// What stands between two cells.
    pub separator: u8,
    /// The quote, which must be ASCII where a frame is written.
    pub quote_char: u8,
    /// The text of a null.
    pub null: PlSmallStr,
    /// What ends a line.
    pub line_terminator: PlSmallStr,
    pub quote_style: QuoteStyle,
}

impl SerializeOptions {
    /// A comma, `"`, an empty null text, a line feed, and quotes where necessary. Refuses only want of memory.
    pub fn new(alloc: Global) -> PolarsResult<SerializeOptions>
        ensures made { IfOk result (λ o. o ≡ default_cells) }
        ensures refused { IsOkUnless result error.OutOfMemory }
    {
        Ok(SerializeOptions {
            separator: b',',
            quote_char: b'"',
            null: PlSmallStr::from_str(alloc, "")?,
            line_terminator: PlSmallStr::from_str(alloc, "\n")?,
            quote_style: QuoteStyle::Necessary,
        })
    }

    /// Equal options. Refuses only want of memory.
    pub fn try_clone(&self) -> PolarsResult<SerializeOptions>
        ensures equal { IfOk result (λ o. o ≡ self.now) }
        ensures refused { IsOkUnless result error.OutOfMemory }
    {
        Ok(SerializeOptions {
            separator: self.separator,
            quote_char: self.quote_char,
            null: self.null.try_clone()?,
            line_terminator: self.line_terminator.try_clone()?,
            quote_style: self.quote_style,
        })
    }
}

/// How a frame is written.
#[derive(Debug, Drop, PartialEq, Eq)]
pub struct CsvWriterOptions {
    /// Whether the text begins with a byte order mark.
    pub include_bom: bool,
    /// Whether the line of the names stands before the rows.
    pub include_header: bool,
    /// How many rows are a batch, 0 counting as 1: printing is shared out by batches, and the text does not depend on them.
    pub batch_size: usize,
    /// Has no effect.
    pub maintain_order: bool,
    pub serialize_options: SerializeOptions,
}

impl CsvWriterOptions {
    /// No byte order mark, a header, 1024 rows at a time, and the default options of cells. Refuses only want of memory.
    pub fn new(alloc: Global) -> PolarsResult<CsvWriterOptions>
        ensures made { IfOk result (λ o. o ≡ default_options) }
        ensures refused { IsOkUnless result error.OutOfMemory }
    {
        Ok(CsvWriterOptions {
            include_bom: false,
            include_header: true,
            batch_size: 1024,
            maintain_order: false,
            serialize_options: SerializeOptions::new(alloc)?,
        })
    }

    /// Equal options. Refuses only want of memory.
    pub fn try_clone(&self) -> PolarsResult<CsvWriterOptions>
        ensures equal { IfOk result (λ o. o ≡ self.now) }
        ensures refused { IsOkUnless result error.OutOfMemory }
    {
        Ok(CsvWriterOptions {
            include_bom: self.include_bom,
            include_header: self.include_header,
            batch_size: self.batch_size,
            maintain_order: self.maintain_order,
            serialize_options: self.serialize_options.try_clone()?,
        })
    }
}
