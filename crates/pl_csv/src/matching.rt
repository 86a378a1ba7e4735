//! The options under which a frame that is written is read again.
ghost use Rattle.std.specs.Prelude.{◌≡◌, ◌⊎◌, ◌<◌, IfOk, IfErr, OnOk, IsOkUnless, Some};
ghost use Rattle.pl_frame.specs.Frame.{IsFrame};
ghost use Rattle.pl_frame.specs.FrameParts.{schema_of};
ghost use Rattle.pl_frame.specs.declared.error.PolarsError.TheVariants as error;
ghost use Rattle.pl_text.specs.FrameText.{written_null};
ghost use Rattle.pl_csv.specs.Transcoding.{quote_cause, HasAsciiQuote};
ghost use Rattle.pl_read.specs.RoundTrip.{null_values_of, Matches};
ghost use Rattle.pl_write.specs.Options.{cell_options, frame_options};

use pl_cells::null_values::NullValues;
use pl_frame::column::Column;
use pl_frame::error::{ComputeFault, PolarsError, PolarsResult};
use pl_frame::frame::DataFrame;
use pl_frame::name::PlSmallStr;
use pl_frame::schema::Schema;
use pl_options::parse_options::CsvParseOptions;
use pl_options::read_options::CsvReadOptions;
use pl_write::options::{CsvWriterOptions, QuoteStyle, SerializeOptions};
use std::alloc::Global;

// The names and types of columns. Refuses only want of memory.
fn schema_of(alloc: Global, columns: &[Column]) -> PolarsResult<Schema>
    requires { IsFrame columns.now }
    ensures schema { IfOk result (λ schema. schema ≡ schema_of columns.now) }
    ensures refused { IsOkUnless result error.OutOfMemory }
{
    let mut schema = Schema::new(alloc);
    for column in columns {
        let name = PlSmallStr::from_str(alloc, column.name())?;
        let dtype = column.dtype().try_clone()?;
        schema.with_column(name, dtype)?;
    }
    Ok(schema)
}

// What is written of a null, as a text. Refuses only want of memory.
fn null_text(alloc: Global, cells: &SerializeOptions) -> PolarsResult<PlSmallStr>
    requires { cells.now.quote_char < 128 }
    ensures text { IfOk result (λ text. text ≡ written_null (cell_options cells.now)) }
    ensures refused { IsOkUnless result error.OutOfMemory }
{
    if cells.quote_style != QuoteStyle::Always {
        return cells.null.try_clone();
    }
    let quote = char::from(cells.quote_char);
    let mut text = String::new(alloc);
    text.push(quote)?;
    text.push_str(cells.null.as_str())?;
    text.push(quote)?;
    PlSmallStr::from_str(alloc, text.as_str())
}

// This text alone means null; no text does where it is empty.
fn null_values_of(null: PlSmallStr) -> Option<NullValues>
    ensures { result ≡ null_values_of null }
{
    if null.as_str().is_empty() {
        None
    } else {
        Some(NullValues::AllColumnsSingle(null))
    }
}

/// Options under which the text of a frame is read as that frame, where it fits the way in which it is written, as `fits` of
/// `pl_round_trip` tells (docs/quoting.md, "What comes back"). What they do not have to set is as by default.
///
/// Refuses a quote that is not ASCII (`Quote`), and want of memory.
pub fn matching_options(
    alloc: Global,
    frame: &DataFrame,
    write: &CsvWriterOptions,
) -> PolarsResult<CsvReadOptions>
    ensures matches { IfOk result (λ read. Matches read (frame_options write.now) frame.now) }
    ensures ascii { OnOk result (HasAsciiQuote write.now) }
    ensures refused { IfErr result (λ fault. (quote_cause write.now ≡ Some fault) ⊎ (fault ≡ error.OutOfMemory)) }
{
    let cells = &write.serialize_options;
    if !cells.quote_char.is_ascii() {
        return Err(PolarsError::ComputeError(ComputeFault::Quote));
    }
    let null_values = null_values_of(null_text(alloc, cells)?);
    let schema = schema_of(alloc, frame.columns())?;
    let parse_options = CsvParseOptions::new()
        .with_separator(cells.separator)
        .with_quote_char(Some(cells.quote_char))
        .with_null_values(null_values);
    Ok(
        CsvReadOptions::new(alloc)
            .with_schema(Some(schema))
            .with_has_header(write.include_header)
            .with_parse_options(parse_options),
    )
}
