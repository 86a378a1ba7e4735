//! What stands against an index of an input.
ghost use Rattle.std.specs.Prelude.{◌≡◌, ◌≤◌, length, drop, Some, IfOk, OnOk, IfErr};
ghost use Rattle.pl_read.specs.Options.{keeps_ends, data_of};
ghost use Rattle.pl_seek.specs.Building.{settings_of, prefix_of, asks_nothing, is_wrong, MayIndex, IsBuildFault};
ghost use Rattle.pl_seek.specs.Checking.{fault_of};

use crate::fault::SeekFault;
use crate::settings::Settings;
use pl_frame::error::PolarsError;
use pl_options::read_options::CsvReadOptions;
use pl_read::checks::check_options;
use pl_read::preparing::prepare;
use pl_scan::comment::CommentPrefix;
use std::alloc::{AllocError, Global};

// Whether no column is asked for.
fn asks_nothing(read: &CsvReadOptions) -> bool
    ensures { result ≡ asks_nothing read.now }
{
    if let Some(names) = &read.columns {
        return names.names().is_empty();
    }
    if let Some(places) = &read.projection {
        return places.places().is_empty();
    }
    match &read.schema {
        Some(schema) => schema.len() == 0,
        None => true,
    }
}

/// Whether no schema is given, or a limit of rows is, or no column is asked for.
pub(crate) fn is_wrong(read: &CsvReadOptions) -> bool
    ensures { result ≡ is_wrong read.now }
{
    read.schema.is_none() || read.n_rows.is_some() || asks_nothing(read)
}

// The refusal for a cause against an input, or want of memory.
pub(crate) fn fault_of(cause: PolarsError) -> SeekFault
    ensures { result ≡ fault_of cause }
{
    match cause {
        PolarsError::OutOfMemory => SeekFault::OutOfMemory,
        cause => SeekFault::Polars(cause),
    }
}

/// Where the data of an input begins that may have an index. Refuses what stands against it, and want of memory.
pub(crate) fn check_input(
    alloc: Global,
    input: &[u8],
    read: &CsvReadOptions,
) -> Result<usize, SeekFault>
    ensures data { IfOk result (λ start. data_of read.now input.now ≡ Some (drop start input.now)) }
    ensures within { IfOk result (λ start. start ≤ length input.now) }
    ensures sound { OnOk result (MayIndex read.now input.now) }
    ensures refused { IfErr result (IsBuildFault read.now input.now) }
{
    if is_wrong(read) {
        return Err(SeekFault::Options);
    }
    if let Err(cause) = check_options(read) {
        return Err(fault_of(cause));
    }
    match prepare(alloc, input, read) {
        Ok(prepared) => {
            let start = prepared.start;
            drop(prepared);
            Ok(start)
        }
        Err(cause) => Err(fault_of(cause)),
    }
}

// Whether leading line ends are kept.
fn keeps_ends(read: &CsvReadOptions) -> bool
    ensures { result ≡ keeps_ends read.now }
{
    match &read.schema {
        Some(schema) => schema.len() <= 1,
        None => false,
    }
}

/// The settings that options state.
pub(crate) fn settings_of(read: &CsvReadOptions) -> Settings
    ensures { result ≡ settings_of read.now }
{
    Settings {
        separator: read.parse_options.separator,
        quote_char: read.parse_options.quote_char,
        eol_char: read.parse_options.eol_char,
        has_header: read.has_header,
        keep_ends: keeps_ends(read),
        skip_rows: read.skip_rows,
        skip_lines: read.skip_lines,
        skip_rows_after_header: read.skip_rows_after_header,
    }
}

/// The bytes that a comment begins with. Refuses only want of memory.
pub(crate) fn prefix_of(alloc: Global, read: &CsvReadOptions) -> Result<Vec<u8>, AllocError>
    ensures { IfOk result (λ prefix. prefix.items ≡ prefix_of read.now) }
{
    match &read.parse_options.comment_prefix {
        Some(CommentPrefix::Single(byte)) => Vec::from_slice(alloc, &[*byte]),
        Some(CommentPrefix::Multi(text)) => Vec::from_slice(alloc, text.as_str().as_bytes()),
        None => Ok(Vec::new(alloc)),
    }
}
