//! What stands against a stream whatever its bytes.
ghost use Rattle.std.specs.Prelude.{◌≡◌, ◌<◌, ℕ, IfOk, OnOk, IfErr, IsSome, None, find, length, slice_index};
ghost use Rattle.pl_cells.specs.InitBuffers.{entry_at};
ghost use Rattle.pl_infer.specs.Schemas.{is_categorical};
ghost use Rattle.pl_options.specs.FirstCause.{IsFirstCause};
ghost use Rattle.pl_read.specs.SettleGiven.{given_schema, IsSettled};
ghost use Rattle.pl_read.specs.Steps.{MayRead};
ghost use Rattle.pl_stream.specs.Options.{option_causes, IsOptionFault, IsAccepted, IsRefused, fault_of};

use crate::fault::StreamFault;
use pl_frame::data_type::DataType;
use pl_frame::error::{ComputeFault, PolarsError, PolarsResult};
use pl_frame::schema::Schema;
use pl_options::read_options::CsvReadOptions;
use pl_read::checks::check_options;
use pl_read::settle_given::{Settled, settle_given};
use pl_write::options::CsvWriterOptions;
use std::alloc::Global;

/// The refusal of a stream for a cause, or want of memory.
pub(crate) fn fault_of(fault: PolarsError) -> StreamFault
    ensures { result ≡ fault_of fault }
{
    match fault {
        PolarsError::OutOfMemory => StreamFault::OutOfMemory,
        fault => StreamFault::Polars(fault),
    }
}

// Whether a column of a schema has categories.
fn has_categories(schema: &Schema, place: usize) -> bool
    requires { place < length schema.now }
    ensures { result ≡ is_categorical (entry_at schema.now place).1 }
{
    let (_, dtype) = schema.entry(place);
    matches!(dtype, DataType::Categorical)
}

// The first of the columns that are read which has categories.
fn find_categories(schema: &Schema, places: &[usize]) -> Option<usize>
    requires { (k : ℕ) → k < length places.now → slice_index places.now k < length schema.now }
    ensures { result ≡ find (λ place. is_categorical (entry_at schema.now place).1) places.now }
{
    for place in places {
        if has_categories(schema, *place) {
            return Some(*place);
        }
    }
    None
}

// What a stream goes by, where a schema is given and the options may stand. Refuses the first cause behind, and want of memory.
#[tactic(auto, using(crate::proofs::OptionLaws::quote_refused, crate::proofs::OptionLaws::first_quoted, crate::proofs::OptionLaws::given_refused))]
fn settle_quoted(
    alloc: Global,
    read: &CsvReadOptions,
    write: &CsvWriterOptions,
) -> PolarsResult<Settled>
    requires given { IsSome read.now.schema }
    requires allowed { MayRead read.now }
    ensures settled { IfOk result (IsSettled read.now (given_schema read.now)) }
    ensures sound { OnOk result (IsFirstCause (option_causes read.now write.now) read.now.parse_options None) }
    ensures refused { IfErr result (IsOptionFault read.now write.now) }
{
    if !write.serialize_options.quote_char.is_ascii() {
        return Err(PolarsError::ComputeError(ComputeFault::Quote));
    }
    settle_given(alloc, read)
}

// What a stream goes by, where a schema is given. Refuses the first cause against the options, and want of memory.
#[tactic(auto, using(crate::proofs::OptionLaws::early_refused))]
fn settle_options(
    alloc: Global,
    read: &CsvReadOptions,
    write: &CsvWriterOptions,
) -> PolarsResult<Settled>
    requires given { IsSome read.now.schema }
    ensures settled { IfOk result (IsSettled read.now (given_schema read.now)) }
    ensures sound { OnOk result (IsFirstCause (option_causes read.now write.now) read.now.parse_options None) }
    ensures refused { IfErr result (IsOptionFault read.now write.now) }
{
    match check_options(read) {
        Ok(()) => settle_quoted(alloc, read, write),
        Err(fault) => Err(fault),
    }
}

/// What a stream goes by under these options. Refuses the first that stands against it, whatever its bytes, and want of memory.
pub(crate) fn settle_stream(
    alloc: Global,
    read: &CsvReadOptions,
    write: &CsvWriterOptions,
) -> Result<Settled, StreamFault>
    ensures settled { IfOk result (IsSettled read.now (given_schema read.now)) }
    ensures accepted { OnOk result (IsAccepted read.now write.now) }
    ensures refused { IfErr result (IsRefused read.now write.now) }
{
    if read.schema.is_none() {
        return Err(StreamFault::NoSchema);
    }
    let settled = match settle_options(alloc, read, write) {
        Ok(settled) => settled,
        Err(fault) => return Err(fault_of(fault)),
    };
    if let Some(column) = find_categories(&settled.schema, &settled.projection) {
        drop(settled);
        return Err(StreamFault::Category { column });
    }
    if settled.projection.is_empty() {
        drop(settled);
        return Err(StreamFault::NoColumn);
    }
    Ok(settled)
}
