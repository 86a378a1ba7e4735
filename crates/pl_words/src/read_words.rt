//! How an input is read, as words give it.
ghost use Rattle.std.specs.Prelude.{◌≡◌, true, None, Some, IfOk, IsErrOf};
ghost use Rattle.pl_words.specs.Arguments.{is_option};
ghost use Rattle.pl_words.specs.Defaults.{option_or};
ghost use Rattle.pl_words.specs.OptionValues.{quote_of, sample_of};
ghost use Rattle.pl_words.specs.ReadWords.{encoding_of, comment_of, parse_options_of, read_options_of};

use crate::arguments::Arguments;
use crate::column_words::row_index_of;
use crate::from_text::{FromText, meant, set_or, set_under};
use crate::null_words::null_values_of;
use crate::option_values::{parse_quote, parse_sample};
use crate::words::WordsFault;
use pl_cells::utf8::CsvEncoding;
use pl_options::parse_options::CsvParseOptions;
use pl_options::read_options::CsvReadOptions;
use pl_scan::comment::CommentPrefix;
use std::alloc::Global;

// A comment prefix.
impl FromText for CommentPrefix {
    ghost meaning = { comment_of };

    fn from_text(alloc: Global, text: &str) -> Result<Self, WordsFault> {
        match CommentPrefix::new_from_str(alloc, text) {
            Ok(prefix) => Ok(prefix),
            Err(_) => Err(WordsFault::OutOfMemory),
        }
    }
}

// The quote under a name, or else the default.
fn quote_or(
    arguments: &Arguments<'_>,
    name: &str,
    default: Option<u8>,
) -> Result<Option<u8>, WordsFault>
    requires { is_option name.now ≡ true }
    ensures known { IfOk result (λ quote. option_or default quote_of name.now arguments.now ≡ Some quote) }
    ensures refused { IsErrOf result WordsFault.Words → option_or default quote_of name.now arguments.now ≡ None }
{
    match arguments.value_under(name) {
        Some(value) => meant(parse_quote(value)),
        None => Ok(default),
    }
}

// From how many items types are inferred, as the value under a name says it, or else the default.
fn sample_or(
    arguments: &Arguments<'_>,
    name: &str,
    default: Option<usize>,
) -> Result<Option<usize>, WordsFault>
    requires { is_option name.now ≡ true }
    ensures known { IfOk result (λ sample. option_or default sample_of name.now arguments.now ≡ Some sample) }
    ensures refused { IsErrOf result WordsFault.Words → option_or default sample_of name.now arguments.now ≡ None }
{
    match arguments.value_under(name) {
        Some(value) => meant(parse_sample(value)),
        None => Ok(default),
    }
}

// What is done with texts that are not UTF-8.
fn encoding_of(lossy: bool) -> CsvEncoding
    ensures { result ≡ encoding_of lossy }
{
    if lossy {
        CsvEncoding::LossyUtf8
    } else {
        CsvEncoding::Utf8
    }
}

// How records are cut and cells are read. Refuses values without a meaning, and want of memory.
#[tactic(auto, unfolding(crate::specs::Arguments::is_option, crate::specs::Arguments::is_flag))]
fn parse_options_of(alloc: Global, arguments: &Arguments<'_>) -> Result<CsvParseOptions, WordsFault>
    ensures options { IfOk result (λ options. parse_options_of arguments.now ≡ Some options) }
    ensures refused { IsErrOf result WordsFault.Words → parse_options_of arguments.now ≡ None }
{
    let defaults = CsvParseOptions::new();
    let separator = set_or(alloc, arguments, "--sep", defaults.separator)?;
    let quote_char = quote_or(arguments, "--quote", defaults.quote_char)?;
    let eol_char = set_or(alloc, arguments, "--eol", defaults.eol_char)?;
    let comment_prefix = set_under(alloc, arguments, "--comment")?;
    let null_values = null_values_of(alloc, arguments)?;
    let options = defaults
        .with_separator(separator)
        .with_quote_char(quote_char)
        .with_eol_char(eol_char)
        .with_comment_prefix(comment_prefix)
        .with_null_values(null_values)
        .with_encoding(encoding_of(arguments.has_flag("--lossy")))
        .with_missing_is_null(!arguments.has_flag("--keep-missing"))
        .with_truncate_ragged_lines(arguments.has_flag("--truncate"))
        .with_try_parse_dates(arguments.has_flag("--dates"));
    Ok(options)
}

/// How an input is read. Refuses values without a meaning, and want of memory.
#[tactic(auto, unfolding(crate::specs::Arguments::is_option, crate::specs::Arguments::is_flag))]
pub(crate) fn read_options_of(
    alloc: Global,
    arguments: &Arguments<'_>,
) -> Result<CsvReadOptions, WordsFault>
    ensures options { IfOk result (λ options. read_options_of arguments.now ≡ Some options) }
    ensures refused { IsErrOf result WordsFault.Words → read_options_of arguments.now ≡ None }
{
    let defaults = CsvReadOptions::new(alloc);
    let schema = set_under(alloc, arguments, "--schema")?;
    let schema_overwrite = set_under(alloc, arguments, "--overwrite")?;
    let dtype_overwrite = set_under(alloc, arguments, "--dtypes")?;
    let parse_options = parse_options_of(alloc, arguments)?;
    let skip_lines = set_or(alloc, arguments, "--skip-lines", defaults.skip_lines)?;
    let skip_rows = set_or(alloc, arguments, "--skip-rows", defaults.skip_rows)?;
    let after_header = defaults.skip_rows_after_header;
    let after_header = set_or(alloc, arguments, "--skip-after", after_header)?;
    let n_rows = set_under(alloc, arguments, "--limit")?;
    let columns = set_under(alloc, arguments, "--columns")?;
    let projection = set_under(alloc, arguments, "--projection")?;
    let row_index = row_index_of(alloc, arguments)?;
    let n_threads = set_under(alloc, arguments, "--workers")?;
    let chunk_size = set_or(alloc, arguments, "--piece", defaults.chunk_size)?;
    let infer_schema_length = sample_or(arguments, "--infer", defaults.infer_schema_length)?;
    let options = defaults
        .with_schema(schema)
        .with_schema_overwrite(schema_overwrite)
        .with_dtype_overwrite(dtype_overwrite)
        .with_parse_options(parse_options)
        .with_has_header(!arguments.has_flag("--no-header"))
        .with_skip_lines(skip_lines)
        .with_skip_rows(skip_rows)
        .with_skip_rows_after_header(after_header)
        .with_n_rows(n_rows)
        .with_columns(columns)
        .with_projection(projection)
        .with_row_index(row_index)
        .with_n_threads(n_threads)
        .with_chunk_size(chunk_size)
        .with_infer_schema_length(infer_schema_length)
        .with_raise_if_empty(!arguments.has_flag("--allow-empty"))
        .with_ignore_errors(arguments.has_flag("--ignore-errors"));
    Ok(options)
}
