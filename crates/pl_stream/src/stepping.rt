//! What a state does with the bytes that it keeps and those that come.
ghost use Rattle.std.specs.Prelude.{◌≡◌, ◌⊎◌, ◌<◌, ◌+◌, ◌^◌, true, length, None, IfOk, IfErr, OnErr};
ghost use Rattle.pl_read.specs.Refusals.{numbers_past};
ghost use Rattle.pl_rows.specs.Pieces.{left_limit};
ghost use Rattle.pl_stream.specs.Printing.{CanStream, IsPrintFault};
ghost use Rattle.pl_stream.specs.Stepping.{is_in_head, is_full, waits, is_marked, kept_of, IsSettledStep, IsFirstStep, IsStepped, IsFirstFault, IsStepFault};
ghost use Rattle.pl_stream.specs.declared.fault.StreamFault.TheVariants as fault;

use crate::fault::StreamFault;
use crate::head::advance;
use crate::place::Place;
use crate::settling::push_settled;
use crate::state::KeptFault;
use crate::whole::is_below;
use pl_frame::compression::is_compressed;
use pl_frame::error::{ComputeFault, PolarsError};
use pl_options::read_options::CsvReadOptions;
use pl_read::settle_given::Settled;
use pl_write::options::CsvWriterOptions;
use pl_write::row_printer::RowPrinter;
use std::alloc::Global;

/// What bytes make of a state: how many are let go, where the others are read on, and how many records were settled.
#[derive(Clone, Copy, Debug, PartialEq, Eq)]
pub(crate) struct Step {
    pub(crate) at: usize,
    pub(crate) place: Place,
    pub(crate) rows: usize,
}

// Whether a place is within the head.
fn is_in_head(place: Place) -> bool
    ensures { result ≡ is_in_head place }
{
    match place {
        Place::Records => false,
        Place::Full => false,
        _ => true,
    }
}

// Whether a place is behind all records.
fn is_full(place: Place) -> bool
    ensures { result ≡ is_full place }
{
    match place {
        Place::Full => true,
        _ => false,
    }
}

// Whether too few bytes came to tell whether an input is compressed.
fn waits(bytes: &[u8], place: Place) -> bool
    ensures { result ≡ waits place bytes.now }
{
    match place {
        Place::Start => bytes.len() < 4,
        _ => false,
    }
}

// Whether an input is compressed, at its first byte.
fn is_marked(bytes: &[u8], place: Place) -> bool
    ensures { result ≡ is_marked place bytes.now }
{
    match place {
        Place::Start => is_compressed(bytes),
        _ => false,
    }
}

/// The fault of the input that a state keeps for a refusal.
pub(crate) fn kept_of(fault: &StreamFault) -> Option<KeptFault>
    ensures { result ≡ kept_of fault.now }
{
    match fault {
        StreamFault::Polars(PolarsError::ComputeError(fault)) => Some(KeptFault::Compute(*fault)),
        StreamFault::Polars(PolarsError::NoData(fault)) => Some(KeptFault::NoData(*fault)),
        _ => None,
    }
}

// Settles the whole records at the front of others, which stand behind so many bytes.
fn settle_records(
    alloc: Global,
    records: &[u8],
    at: usize,
    printer: &mut RowPrinter,
    read: &CsvReadOptions,
    settled: &Settled,
    write: &CsvWriterOptions,
    rows: usize,
    text: &mut Vec<u8>,
) -> Result<Step, StreamFault>
    requires can { CanStream read.now settled.now }
    requires pieces { 0 < read.now.chunk_size }
    requires numbered { numbers_past read.now.row_index rows ≡ None }
    requires fits { at + length records.now < 2 ^ 64 }
    ensures settled { IfOk result (IsSettledStep read.now write.now rows records.now at text.old.items text.new.items) }
    ensures refused { IfErr result (IsPrintFault read.now rows (left_limit read.now.n_rows rows) records.now) }
{
    if records.len() > usize::MAX - rows {
        return Err(StreamFault::OutOfMemory);
    }
    let whole = match push_settled(alloc, records, printer, read, settled, write, rows, text) {
        Ok(whole) => whole,
        Err(fault) => return Err(fault),
    };
    let rows = rows + whole.rows;
    if is_below(read.n_rows, rows) {
        return Ok(Step {
            at: at + whole.end,
            place: Place::Records,
            rows,
        });
    }
    Ok(Step {
        at: at + records.len(),
        place: Place::Full,
        rows,
    })
}

// Takes bytes within the head.
fn settle_head(
    alloc: Global,
    bytes: &[u8],
    place: Place,
    printer: &mut RowPrinter,
    read: &CsvReadOptions,
    settled: &Settled,
    write: &CsvWriterOptions,
    rows: usize,
    text: &mut Vec<u8>,
) -> Result<Step, StreamFault>
    requires can { CanStream read.now settled.now }
    requires pieces { 0 < read.now.chunk_size }
    requires numbered { numbers_past read.now.row_index rows ≡ None }
    requires within { is_in_head place ≡ true }
    ensures stepped { IfOk result (IsFirstStep read.now write.now place rows bytes.now text.old.items text.new.items) }
    ensures refused { IfErr result (λ given. (given ≡ fault.OutOfMemory) ⊎ IsFirstFault read.now place rows bytes.now given) }
{
    if waits(bytes, place) {
        return Ok(Step { at: 0, place, rows });
    }
    if is_marked(bytes, place) {
        return Err(StreamFault::Polars(PolarsError::ComputeError(ComputeFault::Compressed)));
    }
    let reached = advance(bytes, read, place);
    if is_in_head(reached.place) {
        return Ok(Step {
            at: reached.at,
            place: reached.place,
            rows,
        });
    }
    let records = &bytes[reached.at..];
    match settle_records(
        alloc, records, reached.at, printer, read, settled, write, rows, text,
    ) {
        Ok(step) => Ok(step),
        Err(fault) => Err(fault),
    }
}

// Takes bytes from a place on, behind so many records, and appends what the settled text gains by them.
fn settle_bytes(
    alloc: Global,
    bytes: &[u8],
    place: Place,
    printer: &mut RowPrinter,
    read: &CsvReadOptions,
    settled: &Settled,
    write: &CsvWriterOptions,
    rows: usize,
    text: &mut Vec<u8>,
) -> Result<Step, StreamFault>
    requires can { CanStream read.now settled.now }
    requires pieces { 0 < read.now.chunk_size }
    requires numbered { numbers_past read.now.row_index rows ≡ None }
    ensures stepped { IfOk result (IsStepped read.now write.now place rows bytes.now text.old.items text.new.items) }
    ensures refused { IfErr result (IsStepFault read.now place rows bytes.now) }
{
    if is_in_head(place) {
        return match settle_head(
            alloc, bytes, place, printer, read, settled, write, rows, text,
        ) {
            Ok(step) => Ok(step),
            Err(fault) => Err(fault),
        };
    }
    if is_full(place) {
        return Ok(Step {
            at: bytes.len(),
            place,
            rows,
        });
    }
    match settle_records(alloc, bytes, 0, printer, read, settled, write, rows, text) {
        Ok(step) => Ok(step),
        Err(fault) => Err(fault),
    }
}

/// Takes bytes from a place on, behind so many records, and appends what the settled text gains by them; on a refusal the text is as it was.
pub(crate) fn settle(
    alloc: Global,
    bytes: &[u8],
    place: Place,
    printer: &mut RowPrinter,
    read: &CsvReadOptions,
    settled: &Settled,
    write: &CsvWriterOptions,
    rows: usize,
    text: &mut Vec<u8>,
) -> Result<Step, StreamFault>
    requires can { CanStream read.now settled.now }
    requires pieces { 0 < read.now.chunk_size }
    requires numbered { numbers_past read.now.row_index rows ≡ None }
    ensures stepped { IfOk result (IsStepped read.now write.now place rows bytes.now text.old.items text.new.items) }
    ensures refused { IfErr result (IsStepFault read.now place rows bytes.now) }
    ensures silent { OnErr result (text.new.items ≡ text.old.items) }
{
    if text.is_empty() {
        return match settle_bytes(
            alloc, bytes, place, printer, read, settled, write, rows, text,
        ) {
            Ok(step) => Ok(step),
            Err(fault) => {
                text.clear();
                Err(fault)
            }
        };
    }
    let mut gained = Vec::new(alloc);
    let step = match settle_bytes(
        alloc,
        bytes,
        place,
        printer,
        read,
        settled,
        write,
        rows,
        &mut gained,
    ) {
        Ok(step) => step,
        Err(fault) => return Err(fault),
    };
    if text.extend_from_slice(&gained).is_err() {
        return Err(StreamFault::OutOfMemory);
    }
    Ok(step)
}
