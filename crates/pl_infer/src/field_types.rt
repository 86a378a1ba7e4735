//! The type that a text gives, and the one that several texts agree on. No call takes memory.
ghost use Rattle.std.specs.Prelude.{◌≡◌, true, if◌then◌else◌, is_some, unwrap_or};
ghost use Rattle.std.specs.List.{list_all};
ghost use Rattle.pl_frame.specs.declared.data_type.DataType.TheVariants as dtype;
ghost use Rattle.pl_frame.specs.declared.data_type.TimeUnit.TheVariants as unit;
ghost use Rattle.pl_cells.specs.Dates.{date_value};
ghost use Rattle.pl_cells.specs.Times.{time_value, datetime_value};
ghost use Rattle.pl_infer.specs.FieldTypes.{moment_type, begins_with_quote, inferred_type, agreed_type, finished_type, is_inferable, HaveNoRepeats};

use pl_cells::booleans::is_boolean_text;
use pl_cells::dates::parse_date;
use pl_cells::integers::is_integer_text;
use pl_cells::quoting::between_quotes;
use pl_cells::times::{parse_datetime, parse_time};
use pl_frame::data_type::{DataType, TimeUnit};

/// The type of a text: `Boolean` or `Int64`; with dates `Date`, `Time` or `Datetime` in microseconds; else `String`. A text
/// that begins with a double quote is a `String`, but for a date, a time or a datetime between two of them, with dates
/// (docs/types.md, "Inference").
pub fn infer_field_schema(string: &str, try_parse_dates: bool) -> DataType
    ensures inferred { result ≡ inferred_type try_parse_dates string.now }
    ensures inferable { is_inferable result ≡ true }
{
    field_type(string.as_bytes(), try_parse_dates)
}

/// The type of a column of which these types were seen, each once: the one, where there is exactly one, or else `String`
/// (docs/types.md, "Inference").
pub fn finish_infer_field_schema(possibilities: &[DataType]) -> DataType
    requires inferable { list_all is_inferable possibilities.now ≡ true }
    requires distinct { HaveNoRepeats possibilities.now }
    ensures finished { result ≡ finished_type possibilities.now }
    ensures agreed { result ≡ agreed_type possibilities.now }
{
    if possibilities.len() != 1 {
        return DataType::String;
    }
    copy_inferable(&possibilities[0])
}

// An equal type, of those that a text may give.
fn copy_inferable(dtype: &DataType) -> DataType
    requires { is_inferable dtype.now ≡ true }
    ensures { result ≡ dtype.now }
{
    match dtype {
        DataType::Boolean => DataType::Boolean,
        DataType::Int64 => DataType::Int64,
        DataType::Date => DataType::Date,
        DataType::Time => DataType::Time,
        DataType::Datetime(unit) => DataType::Datetime(*unit),
        _ => DataType::String,
    }
}

/// The type of a text, as bytes.
pub(crate) fn field_type(text: &[u8], dates: bool) -> DataType
    ensures inferred { result ≡ inferred_type dates text.now }
    ensures inferable { is_inferable result ≡ true }
{
    if begins_with_quote(text) {
        quoted_type(text, dates)
    } else if is_boolean_text(text) {
        DataType::Boolean
    } else if is_integer_text(text) {
        DataType::Int64
    } else {
        moment_or_string(text, dates)
    }
}

// Whether the first byte is a double quote.
fn begins_with_quote(text: &[u8]) -> bool
    ensures { result ≡ begins_with_quote text.now }
{
    match text {
        [first, ..] => *first == b'"',
        [] => false,
    }
}

// The type of a text that begins with a double quote.
fn quoted_type(text: &[u8], dates: bool) -> DataType
    requires { begins_with_quote text.now ≡ true }
    ensures inferred { result ≡ inferred_type dates text.now }
    ensures inferable { is_inferable result ≡ true }
{
    match between_quotes(text, b'"') {
        Some(between) => moment_or_string(between, dates),
        None => DataType::String,
    }
}

// The moment that a text is, with dates, or else a string.
fn moment_or_string(text: &[u8], dates: bool) -> DataType
    ensures shown { result ≡ (if dates then unwrap_or (moment_type text.now) dtype.String else dtype.String) }
    ensures inferable { is_inferable result ≡ true }
{
    if !dates {
        DataType::String
    } else if is_date_text(text) {
        DataType::Date
    } else if is_time_text(text) {
        DataType::Time
    } else if is_datetime_text(text) {
        DataType::Datetime(TimeUnit::Microseconds)
    } else {
        DataType::String
    }
}

fn is_date_text(text: &[u8]) -> bool
    ensures { result ≡ is_some (date_value text.now) }
{
    parse_date(text).is_some()
}

fn is_time_text(text: &[u8]) -> bool
    ensures { result ≡ is_some (time_value text.now) }
{
    parse_time(text).is_some()
}

fn is_datetime_text(text: &[u8]) -> bool
    ensures { result ≡ is_some (datetime_value unit.Microseconds text.now) }
{
    parse_datetime(text, TimeUnit::Microseconds).is_some()
}
