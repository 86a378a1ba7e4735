//! How bytes are cut into fields, and what their texts mean.
ghost use Rattle.std.specs.Prelude.{◌≡◌, IfOk, IsOkUnless};
ghost use Rattle.pl_frame.specs.declared.error.PolarsError.TheVariants as error;
ghost use Rattle.pl_frame.specs.Dialect.{IsDialect};
ghost use Rattle.pl_scan.specs.Dialect as scan;
ghost use Rattle.pl_options.specs.FirstCause.{Tells};
ghost use Rattle.pl_options.specs.Options.{default_parse_options};
ghost use Rattle.pl_options.specs.Text.{marks_of, comment_of};

use crate::put::put;
use crate::try_clone::copy_optional;
use pl_cells::null_values::NullValues;
use pl_cells::utf8::CsvEncoding;
use pl_frame::error::PolarsResult;
use pl_scan::comment::CommentPrefix;
use pl_scan::dialect::Dialect;

/// How bytes are cut into fields, and what their texts mean (docs/options.md). Each `with_` call sets the option that it
/// names, keeps the others and takes no memory.
#[derive(Debug, Drop, PartialEq, Eq)]
pub struct CsvParseOptions {
    /// What stands between two fields. Default `,` (docs/grammar.md, "Dialect").
    pub separator: u8,
    /// What a quoted field begins and ends with; `None` where fields are not quoted. Default `"` (docs/grammar.md, "Dialect").
    pub quote_char: Option<u8>,
    /// What ends a record. Default: the line feed (docs/grammar.md, "Dialect").
    pub eol_char: u8,
    /// What is done with strings that are not UTF-8. Default: they are a fault (docs/types.md, "Every type").
    pub encoding: CsvEncoding,
    /// The texts that mean null, beside missing ones. Default: none (docs/types.md, "Null values").
    pub null_values: Option<NullValues>,
    /// Whether a missing text of a column of strings is null; else it is the empty text. Default: it is (docs/types.md, "Every
    /// type").
    pub missing_is_null: bool,
    /// Whether more fields than columns are passed over; else they are a fault. Default: a fault (docs/types.md, "Records and
    /// columns").
    pub truncate_ragged_lines: bool,
    /// What a comment begins with; `None` where there are no comments, which is the default (docs/grammar.md, "Comments").
    pub comment_prefix: Option<CommentPrefix>,
    /// Whether texts are tried as dates, times and datetimes where types are inferred. Default: they are not (docs/options.md).
    pub try_parse_dates: bool,
}

impl CsvParseOptions {
    /// The default of each option. Takes no memory.
    pub fn new() -> Self
        ensures { result ≡ default_parse_options }
    {
        CsvParseOptions {
            separator: b',',
            quote_char: Some(b'"'),
            eol_char: b'\n',
            encoding: CsvEncoding::Utf8,
            null_values: None,
            missing_is_null: true,
            truncate_ragged_lines: false,
            comment_prefix: None,
            try_parse_dates: false,
        }
    }

    /// Equal options. Refuses only want of memory.
    pub fn try_clone(&self) -> PolarsResult<CsvParseOptions>
        ensures equal { IfOk result (λ options. options ≡ self.now) }
        ensures refused { IsOkUnless result error.OutOfMemory }
    {
        let null_values = copy_optional(&self.null_values)?;
        match copy_optional(&self.comment_prefix) {
            Ok(comment_prefix) => Ok(CsvParseOptions {
                separator: self.separator,
                quote_char: self.quote_char,
                eol_char: self.eol_char,
                encoding: self.encoding,
                null_values,
                missing_is_null: self.missing_is_null,
                truncate_ragged_lines: self.truncate_ragged_lines,
                comment_prefix,
                try_parse_dates: self.try_parse_dates,
            }),
            Err(fault) => {
                drop(null_values);
                Err(fault)
            }
        }
    }

    /// The bytes that cut a text, without taking memory.
    pub fn dialect(&self) -> Dialect<'_>
        ensures marks { scan.marks_of result ≡ marks_of self.now }
        ensures comment { scan.comment_of result ≡ comment_of self.now }
    {
        Dialect {
            separator: self.separator,
            quote_char: self.quote_char,
            eol_char: self.eol_char,
            comment_prefix: self.comment_prefix.as_ref(),
        }
    }

    /// Whether the bytes that cut a text make a dialect (docs/grammar.md, "Dialect"). Takes no memory.
    pub fn has_dialect(&self) -> bool
        ensures { Tells result (IsDialect (marks_of self.now) (comment_of self.now)) }
    {
        self.dialect().is_valid()
    }

    /// Sets what stands between two fields.
    pub fn with_separator(mut self, separator: u8) -> Self
        ensures { result ≡ record self { separator = separator } }
    {
        self.separator = separator;
        self
    }

    /// Sets what a quoted field begins and ends with; `None` where fields are not quoted.
    pub fn with_quote_char(mut self, quote_char: Option<u8>) -> Self
        ensures { result ≡ record self { quote_char = quote_char } }
    {
        self.quote_char = quote_char;
        self
    }

    /// Sets what ends a record.
    pub fn with_eol_char(mut self, eol_char: u8) -> Self
        ensures { result ≡ record self { eol_char = eol_char } }
    {
        self.eol_char = eol_char;
        self
    }

    /// Sets what is done with strings that are not UTF-8.
    pub fn with_encoding(mut self, encoding: CsvEncoding) -> Self
        ensures { result ≡ record self { encoding = encoding } }
    {
        self.encoding = encoding;
        self
    }

    /// Sets the texts that mean null, beside missing ones.
    pub fn with_null_values(mut self, null_values: Option<NullValues>) -> Self
        ensures { result ≡ record self { null_values = null_values } }
    {
        put(&mut self.null_values, null_values);
        self
    }

    /// Sets whether a missing text of a column of strings is null; else it is the empty text.
    pub fn with_missing_is_null(mut self, missing_is_null: bool) -> Self
        ensures { result ≡ record self { missing_is_null = missing_is_null } }
    {
        self.missing_is_null = missing_is_null;
        self
    }

    /// Sets whether more fields than columns are passed over; else they are a fault.
    pub fn with_truncate_ragged_lines(mut self, truncate_ragged_lines: bool) -> Self
        ensures { result ≡ record self { truncate_ragged_lines = truncate_ragged_lines } }
    {
        self.truncate_ragged_lines = truncate_ragged_lines;
        self
    }

    /// Sets what a comment begins with; `None` where there are no comments.
    pub fn with_comment_prefix(mut self, comment_prefix: Option<CommentPrefix>) -> Self
        ensures { result ≡ record self { comment_prefix = comment_prefix } }
    {
        put(&mut self.comment_prefix, comment_prefix);
        self
    }

    /// Sets whether texts are tried as dates, times and datetimes where types are inferred.
    pub fn with_try_parse_dates(mut self, try_parse_dates: bool) -> Self
        ensures { result ≡ record self { try_parse_dates = try_parse_dates } }
    {
        self.try_parse_dates = try_parse_dates;
        self
    }
}
