//! From the bytes of a source to the text of the frame that they mean: where workers may begin before all bytes came, they do.
ghost use Rattle.std.specs.Prelude.{◌≡◌, ℕ, ◌^◌, ◌≤◌, ◌++◌, List, Option, length, take, true, IfOk, OnOk, IfErr, IfSome};
ghost use Rattle.std.specs.Bool.{OnTrue};
ghost use Rattle.std.specs.Io.KnownBytes.{IsAtEnd};
ghost use Rattle.pl_csv.specs.Converting.{IsPrintedRead};
ghost use Rattle.pl_csv.specs.Sources.{HasCome, IsSourceConverted, IsUnconverted, MayReadAhead, IsReadAhead, IsKept, IsUnprinted, unread_of};
ghost use Rattle.pl_csv.specs.Transcoding.{IsConverted};
ghost use Rattle.pl_csv.specs.Views.{SourceView, source_view, views};

use crate::convert::{Printed, convert, is_row_by_row, read_printed, write_printed};
use crate::read_all::{LIMIT, ReadAllFault};
use crate::worker_space::count_with_space;
use pl_frame::error::PolarsError;
use pl_frame::sink::Sink;
use pl_frame::source::Source;
use pl_intake::intake::Intake;
use pl_intake::texts::{CELLS, make_cells};
use pl_options::read_options::CsvReadOptions;
use pl_read::checks::check_options;
use pl_read::preparing::{Prepared, prepare};
use pl_read::reading::plan_of;
use pl_read::workers::{piece_size_for, worker_count};
use pl_regions::arriving::print_arriving;
use pl_write::options::CsvWriterOptions;
use std::alloc::Global;
use std::sync::{OnceLock, Wait};
use std::thread::Threads;
use thiserror::Error;

// So many bytes are read before it is told what the rows are read by, or a piece, where that is shorter. An input of no more is read first.
const FIRST: usize = 1 << 16;

/// Why what a source gives was not converted.
#[derive(Debug, Drop, Error)]
pub enum Unconverted {
    /// The source failed.
    #[error("the source failed")]
    Source,
    /// The source gave more than the largest input.
    #[error("the source gave more than the largest input")]
    TooLong,
    /// The input was not transcoded: for a cause against its frame, for a fault of the sink (`IO`), or for want of memory,
    /// which may come before the input was read as well.
    #[error("{0}")]
    Polars(PolarsError),
}

impl From<Unconverted> for PolarsError {
    ghost use Rattle.std.specs.Prelude.{◌≡◌};
    ghost use Rattle.pl_csv.specs.Sources.{error_of_unconverted};

    ghost from_gives = { λ fault error. error ≡ error_of_unconverted fault };

    fn from(fault: Unconverted) -> PolarsError {
        match fault {
            Unconverted::Source => PolarsError::IO,
            Unconverted::TooLong => PolarsError::OutOfMemory,
            Unconverted::Polars(fault) => fault,
        }
    }
}

// Why a source was not read to its end.
fn unread(fault: ReadAllFault) -> Unconverted
    ensures { result ≡ unread_of fault }
{
    match fault {
        ReadAllFault::Source => Unconverted::Source,
        ReadAllFault::TooLong => Unconverted::TooLong,
        ReadAllFault::OutOfMemory => Unconverted::Polars(PolarsError::OutOfMemory),
    }
}

// Whether a front of the input can tell what the rows are read by.
fn reads_ahead(read: &CsvReadOptions, write: &CsvWriterOptions) -> bool
    ensures { OnTrue result (MayReadAhead read.now write.now) }
{
    read.schema.is_some()
        && read.skip_lines == 0
        && write.serialize_options.quote_char.is_ascii()
        && check_options(read).is_ok()
}

// What the rows of an input are read by that begins with these bytes, where they tell it: they are not all of it, they end with a line end,
// and the rows begin within them.
fn prepare_ahead(
    alloc: Global,
    first: &[u8],
    is_all: bool,
    read: &CsvReadOptions,
    write: &CsvWriterOptions,
) -> Option<Prepared>
    requires { MayReadAhead read.now write.now }
    ensures { IfSome result (IsReadAhead read.now write.now first.now) }
{
    if is_all || first.len() < 4 || first[first.len() - 1] != read.parse_options.eol_char {
        return None;
    }
    match prepare(alloc, first, read) {
        Ok(prepared) => {
            if prepared.start < first.len() && is_row_by_row(read, write, &prepared, LIMIT) {
                return Some(prepared);
            }
            drop(prepared);
            None
        }
        Err(fault) => {
            drop(fault);
            None
        }
    }
}

// Reads what is left of a source, and converts the input: what was kept of it before, and what comes.
fn convert_whole<W: Threads + Wait + Sync, So: Source, S: Sink>(
    rt: &W,
    alloc: Global,
    intake: Intake,
    source: &mut So,
    read: &CsvReadOptions,
    write: &CsvWriterOptions,
    sink: &mut S,
) -> Result<(), Unconverted>
    requires size { intake.size ≡ length intake.rest.items }
    requires within { intake.size ≤ 2 ^ 36 }
    requires ended { intake.is_ended ≡ true → IsAtEnd (So.left source.old) }
    ensures converted { (before : SourceView) → IsKept before (source_view (So.left source.old) (So.faults source.old)) intake.rest.items
        → OnOk result (IsSourceConverted read.now write.now before.left (So.left source.new) (S.received sink.old) (S.received sink.new)) }
    ensures refused { (before : SourceView) → IsKept before (source_view (So.left source.old) (So.faults source.old)) intake.rest.items
        → IfErr result (IsUnconverted read.now write.now
        (views before.left before.faults (S.received sink.old) (S.faults sink.old) (S.wants sink.old))
        (views (So.left source.new) (So.faults source.new) (S.received sink.new) (S.faults sink.new) (S.wants sink.new))) }
    ensures source_later { So.faults source.old ≤ So.faults source.new }
    ensures later { S.faults sink.old ≤ S.faults sink.new }
    ensures later_wants { S.wants sink.old ≤ S.wants sink.new }
{
    let mut intake = intake;
    if let Err(fault) = intake.read_on(source, LIMIT) {
        return Err(unread(fault));
    }
    let input = intake.into_rest();
    let converted = convert(rt, alloc, &input, read, write, sink);
    drop(input);
    match converted {
        Ok(()) => Ok(()),
        Err(fault) => Err(Unconverted::Polars(fault)),
    }
}

// What an input is that begins with what was kept, which tells what its rows are read by: they are printed as they come.
fn print_ahead<'a, W: Threads + Wait + Sync, So: Source>(
    rt: &W,
    alloc: Global,
    cells: &'a [OnceLock<Vec<u8>>],
    last: &'a OnceLock<Vec<u8>>,
    intake: &mut Intake,
    prepared: &Prepared,
    source: &mut So,
    read: &CsvReadOptions,
    write: &CsvWriterOptions,
) -> Result<Printed<'a>, Unconverted>
    requires allowed { MayReadAhead read.now write.now }
    requires ahead { IsReadAhead read.now write.now intake.old.rest.items prepared.now }
    requires size { intake.old.size ≡ length intake.old.rest.items }
    requires within { intake.old.size ≤ 2 ^ 36 }
    requires ended { intake.old.is_ended ≡ true → IsAtEnd (So.left source.old) }
    ensures printed { (before : SourceView) → IsKept before (source_view (So.left source.old) (So.faults source.old)) intake.old.rest.items
        → IfOk result (λ printed. (input : List ℕ) × HasCome before.left (So.left source.new) input × IsPrintedRead read.now write.now input printed) }
    ensures refused { (before : SourceView) → IsKept before (source_view (So.left source.old) (So.faults source.old)) intake.old.rest.items
        → IfErr result (IsUnprinted read.now write.now before (source_view (So.left source.new) (So.faults source.new))) }
    ensures later { So.faults source.old ≤ So.faults source.new }
{
    if intake.skip(prepared.start).is_err() {
        return Err(Unconverted::Polars(PolarsError::OutOfMemory));
    }
    let plan = plan_of(read, prepared);
    let schema = &prepared.schema;
    let options = &write.serialize_options;
    let workers = count_with_space(alloc, worker_count(prepared.n_threads), FIRST);
    let size = piece_size_for(read.chunk_size, plan.projection.places.len());
    let rows = match print_arriving(
        rt, alloc, workers, cells, last, intake, source, LIMIT, schema, &plan, options, size,
    ) {
        Ok(rows) => rows,
        Err(fault) => return Err(unread(fault)),
    };
    match read_printed(alloc, rows, read, schema, &plan, write) {
        Ok(printed) => Ok(printed),
        Err(fault) => Err(Unconverted::Polars(fault)),
    }
}

// Converts an input that begins with what was kept, which tells what its rows are read by: they are printed as they come.
fn convert_ahead<W: Threads + Wait + Sync, So: Source, S: Sink>(
    rt: &W,
    alloc: Global,
    intake: &mut Intake,
    prepared: &Prepared,
    source: &mut So,
    read: &CsvReadOptions,
    write: &CsvWriterOptions,
    sink: &mut S,
) -> Result<(), Unconverted>
    requires allowed { MayReadAhead read.now write.now }
    requires ahead { IsReadAhead read.now write.now intake.old.rest.items prepared.now }
    requires size { intake.old.size ≡ length intake.old.rest.items }
    requires within { intake.old.size ≤ 2 ^ 36 }
    requires ended { intake.old.is_ended ≡ true → IsAtEnd (So.left source.old) }
    ensures converted { (before : SourceView) → IsKept before (source_view (So.left source.old) (So.faults source.old)) intake.old.rest.items
        → OnOk result (IsSourceConverted read.now write.now before.left (So.left source.new) (S.received sink.old) (S.received sink.new)) }
    ensures refused { (before : SourceView) → IsKept before (source_view (So.left source.old) (So.faults source.old)) intake.old.rest.items
        → IfErr result (IsUnconverted read.now write.now
        (views before.left before.faults (S.received sink.old) (S.faults sink.old) (S.wants sink.old))
        (views (So.left source.new) (So.faults source.new) (S.received sink.new) (S.faults sink.new) (S.wants sink.new))) }
    ensures source_later { So.faults source.old ≤ So.faults source.new }
    ensures later { S.faults sink.old ≤ S.faults sink.new }
    ensures later_wants { S.wants sink.old ≤ S.wants sink.new }
{
    let Ok(cells) = make_cells(alloc, CELLS) else {
        return Err(Unconverted::Polars(PolarsError::OutOfMemory));
    };
    let last = OnceLock::new();
    let printed = print_ahead(
        rt, alloc, &cells, &last, intake, prepared, source, read, write,
    )?;
    match write_printed(rt, alloc, &printed, read, write, sink) {
        Ok(()) => Ok(()),
        Err(fault) => Err(Unconverted::Polars(fault)),
    }
}

/// Reads the input that a source gives, and converts it: what `convert` does of the input as a whole. Where a front of the input tells what its
/// rows are read by, they are printed as they come, by the workers beside the one that reads, or by that one where there is no other: where a
/// schema is given, no lines are skipped, the rows begin within the first 64 KiB, or within a piece where that is shorter, and don't end there, and
/// they may be printed without those before them: a row index is put in front of their lines afterwards, where these can be told apart. Where a column
/// that is read has categories, more than 2^32 rows are refused then, as want of memory: how many categories they have is not known.
///
/// Refuses a source that fails, and one that gives more than 2^36 bytes, whatever the input means; then as `convert` does. Before the last
/// byte came, nothing is written.
pub fn convert_source<W: Threads + Wait + Sync, So: Source, S: Sink>(
    rt: &W,
    alloc: Global,
    source: &mut So,
    read: &CsvReadOptions,
    write: &CsvWriterOptions,
    sink: &mut S,
) -> Result<(), Unconverted>
    ensures converted { OnOk result (IsSourceConverted read.now write.now (So.left source.old) (So.left source.new) (S.received sink.old) (S.received sink.new)) }
    ensures refused { IfErr result (IsUnconverted read.now write.now
        (views (So.left source.old) (So.faults source.old) (S.received sink.old) (S.faults sink.old) (S.wants sink.old))
        (views (So.left source.new) (So.faults source.new) (S.received sink.new) (S.faults sink.new) (S.wants sink.new))) }
    ensures source_later { So.faults source.old ≤ So.faults source.new }
    ensures later { S.faults sink.old ≤ S.faults sink.new }
    ensures later_wants { S.wants sink.old ≤ S.wants sink.new }
{
    let mut intake = Intake::new(alloc);
    if !reads_ahead(read, write) {
        return convert_whole(rt, alloc, intake, source, read, write, sink);
    }
    let width = match &read.schema {
        Some(schema) => schema.len(),
        None => 0,
    };
    let size = read.chunk_size.min(FIRST);
    let dialect = read.parse_options.dialect();
    let first = match intake.next_text(source, Vec::new(alloc), size, LIMIT, &dialect, width) {
        Ok(first) => first,
        Err(fault) => return Err(unread(fault)),
    };
    let prepared = prepare_ahead(alloc, &first, intake.is_ended(), read, write);
    if intake.put_back(first).is_err() {
        return Err(Unconverted::Polars(PolarsError::OutOfMemory));
    }
    if let Some(prepared) = prepared {
        return convert_ahead(rt, alloc, &mut intake, &prepared, source, read, write, sink);
    }
    convert_whole(rt, alloc, intake, source, read, write, sink)
}
