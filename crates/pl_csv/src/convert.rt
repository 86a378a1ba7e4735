//! From the bytes of an input to the text of its frame, each piece printed as soon as it is read.
ghost use Rattle.std.specs.Prelude.{◌≡◌, ◌<◌, ◌≤◌, ℕ, List, [], None, drop, length, slice_index, IfOk, IfSome, OnOk, IfErr, IsErrOf, MatchResult};
ghost use Rattle.std.specs.Bool.{OnTrue};
ghost use Rattle.std.specs.Io.KnownBytes.{Appends};
ghost use Rattle.std.specs.List.{list_any};
ghost use Rattle.std.specs.Option.{option_map};
ghost use Rattle.pl_cells.specs.InitBuffers.{entry_at};
ghost use Rattle.pl_frame.specs.Causes.{Rose};
ghost use Rattle.pl_frame.specs.Frame.{ColumnValue, IsFrame, height_of};
ghost use Rattle.pl_text.specs.FrameText.{text_of_frame};
ghost use Rattle.pl_options.specs.FirstCause.{IsFault};
ghost use Rattle.pl_infer.specs.Schemas.{is_categorical};
ghost use Rattle.pl_read.specs.Options.{settled_schema};
ghost use Rattle.pl_read.specs.Reading.{frame_of};
ghost use Rattle.pl_read.specs.Preparing.{IsPrepared};
ghost use Rattle.pl_read.specs.Projection.{projected};
ghost use Rattle.pl_read.specs.Rows.{data_frame, with_index};
ghost use Rattle.pl_read.specs.Steps.{MayRead, late_cause, data_cause, CanReadData};
ghost use Rattle.pl_regions.specs.Limits.{without_limit};
ghost use Rattle.pl_rows.specs.Ranges.{range_frame};
ghost use Rattle.pl_verbatim.specs.PrintedTexts.{CanPrint};
ghost use Rattle.pl_write.specs.Options.{frame_options};
ghost use Rattle.pl_write.specs.Writing.{AppendsPrefix};
ghost use Rattle.pl_csv.specs.Converting.{AreNumberable, AreUnnumbered, HasTextOf, HaveCodes, IsPrintedRead, IsRowByRow};
ghost use Rattle.pl_csv.specs.Sources.{ArePrintedOf};
ghost use Rattle.pl_csv.specs.Transcoding.{IsUnread, IsConverted, IsTranscodeFault};
ghost use Rattle.pl_csv.specs.Views.{sink_view};

use crate::worker_space::count_with_space;
use pl_board::gate::OpenGate;
use pl_frame::data_type::DataType;
use pl_frame::error::{ComputeFault, PolarsError, PolarsResult};
use pl_frame::frame::DataFrame;
use pl_frame::schema::Schema;
use pl_frame::sink::{Sink, SinkFault};
use pl_options::read_options::CsvReadOptions;
use pl_options::row_index::RowIndex;
use pl_read::checks::check_options;
use pl_read::indexing::with_index;
use pl_read::preparing::{Prepared, prepare};
use pl_read::reading::{plan_of, read_prepared};
use pl_read::workers::{piece_size_for, worker_count};
use pl_regions::first_rows::print_rows;
use pl_regions::printing::PrintedRows;
use pl_row_numbers::{can_number, write_numbered};
use pl_rows::columns::read_columns;
use pl_rows::plan::RangePlan;
use pl_rows::range::RangeEnd;
use pl_write::options::CsvWriterOptions;
use pl_write::printed::write_behind;
use std::alloc::Global;
use std::borrow::CowSlice;
use std::sync::Wait;
use std::thread::Threads;

// So many categories have codes of 32 bits.
const CODES: usize = 1 << 32;

/// What was read of an input: the lines of its first rows, the number of the first one where their numbers are still to be put in front, and the
/// frame of the others.
#[derive(Drop)]
pub(crate) struct Printed<'a> {
    pub(crate) lines: Vec<CowSlice<'a, u8, Global>>,
    pub(crate) numbers: Option<u64>,
    pub(crate) rest: DataFrame,
}

// Whether a column of a schema has categories.
fn has_categories(schema: &Schema, place: usize) -> bool
    requires { place < length schema.now }
    ensures { result ≡ is_categorical (entry_at schema.now place).1 }
{
    let (_, dtype) = schema.entry(place);
    matches!(dtype, DataType::Categorical)
}

// Whether one of the columns that are read has categories.
fn have_categories(schema: &Schema, places: &[usize]) -> bool
    requires { (k : ℕ) → k < length places.now → slice_index places.now k < length schema.now }
    ensures { result ≡ list_any (λ place. is_categorical (entry_at schema.now place).1) places.now }
{
    for place in places {
        if has_categories(schema, *place) {
            return true;
        }
    }
    false
}

// Whether the numbers of a row index may be put in front of the lines of rows that were printed without them: the lines have cells and can be told
// apart, and the numbers of so many rows fit 64 bits.
fn is_numberable(index: &RowIndex, write: &CsvWriterOptions, width: usize, amount: usize) -> bool
    ensures { OnTrue result (AreNumberable write.now width index.now.offset amount) }
{
    width > 0 && can_number(&write.serialize_options) && index.offset <= u64::MAX - amount as u64
}

// Whether rows may be printed as they are read: the same where a row index is asked.
fn are_numberable(
    read: &CsvReadOptions,
    write: &CsvWriterOptions,
    width: usize,
    amount: usize,
) -> bool
    ensures { OnTrue result (IfSome read.now.row_index (λ index. AreNumberable write.now width index.offset amount)) }
{
    match &read.row_index {
        Some(index) => is_numberable(index, write, width, amount),
        None => true,
    }
}

// Whether there are codes for all categories that are read of so many rows, of which there are no more than rows.
fn have_codes(schema: &Schema, places: &[usize], rows: usize) -> bool
    requires { (k : ℕ) → k < length places.now → slice_index places.now k < length schema.now }
    ensures { OnTrue result (HaveCodes schema.now places.now rows) }
{
    rows <= CODES || !have_categories(schema, places)
}

/// Whether rows may be printed as they are read, of whatever data of no more than so many bytes.
pub(crate) fn is_row_by_row(
    read: &CsvReadOptions,
    write: &CsvWriterOptions,
    prepared: &Prepared,
    amount: usize,
) -> bool
    requires { prepared.now.places.items ≡ projected read.now prepared.now.schema }
    ensures { OnTrue result ((records : List ℕ) → length records ≤ amount → IsRowByRow read.now write.now prepared.now.schema records) }
{
    are_numberable(read, write, prepared.places.len(), amount)
}

// The same where all of the data is there, and can be read to a frame instead: there must be codes for the categories of as many rows as bytes.
fn is_short_enough(
    read: &CsvReadOptions,
    write: &CsvWriterOptions,
    prepared: &Prepared,
    amount: usize,
) -> bool
    requires { prepared.now.places.items ≡ projected read.now prepared.now.schema }
    ensures { OnTrue result ((records : List ℕ) → length records ≤ amount → IsRowByRow read.now write.now prepared.now.schema records) }
{
    have_codes(&prepared.schema, &prepared.places, amount)
        && is_row_by_row(read, write, prepared, amount)
}

// The number of the first row, where a row index is asked.
fn first_number(read: &CsvReadOptions) -> Option<u64>
    ensures { result ≡ option_map (λ index. index.offset) read.now.row_index }
{
    match &read.row_index {
        Some(index) => Some(index.offset),
        None => None,
    }
}

// A frame of no rows, with the columns that are read behind their row index, where one is asked. Refuses only want of memory.
fn frame_of_none(
    alloc: Global,
    read: &CsvReadOptions,
    schema: &Schema,
    plan: &RangePlan<'_>,
) -> PolarsResult<DataFrame>
    requires can { CanPrint (without_limit plan.now) schema.now }
    requires frame { IsFrame (with_index read.now.row_index (height_of (range_frame plan.now schema.now [])) (range_frame plan.now schema.now [])) }
    ensures { IfOk result (λ frame. frame ≡ with_index read.now.row_index (height_of (range_frame plan.now schema.now [])) (range_frame plan.now schema.now [])) }
{
    match read_columns(alloc, schema, &[], plan) {
        Ok(columns) => with_index(alloc, read.row_index.as_ref(), columns.columns),
        Err(_) => Err(PolarsError::OutOfMemory),
    }
}

/// What data is whose rows were printed. Refuses the first cause against it, and want of memory; and so more rows than there are codes, where a column
/// of categories is read: how many categories they have is not known of what was printed.
pub(crate) fn read_printed<'a>(
    alloc: Global,
    rows: PrintedRows<'a>,
    read: &CsvReadOptions,
    schema: &Schema,
    plan: &RangePlan<'_>,
    write: &CsvWriterOptions,
) -> PolarsResult<Printed<'a>>
    requires printed { (records : List ℕ) × ArePrintedOf plan.now read.now schema.now write.now records rows }
    ensures text { (records : List ℕ) → ArePrintedOf plan.now read.now schema.now write.now records rows.entry
        → IfOk result (λ printed. HasTextOf write.now printed (data_frame read.now schema.now records)) }
    ensures sound { (records : List ℕ) → ArePrintedOf plan.now read.now schema.now write.now records rows.entry → OnOk result (data_cause read.now schema.now records ≡ None) }
    ensures refused { (records : List ℕ) → ArePrintedOf plan.now read.now schema.now write.now records rows.entry → IfErr result (IsFault (data_cause read.now schema.now records)) }
{
    let PrintedRows {
        lines,
        rows: count,
        end,
    } = rows;
    match end {
        RangeEnd::Fault { row, column, kind } => {
            Err(PolarsError::ComputeError(ComputeFault::Record { row, column, kind }))
        }
        RangeEnd::Closed | RangeEnd::Open => {
            if !have_codes(schema, plan.projection.places, count) {
                return Err(PolarsError::OutOfMemory);
            }
            let Ok(rest) = frame_of_none(alloc, read, schema, plan) else {
                return Err(PolarsError::OutOfMemory);
            };
            Ok(Printed {
                lines,
                numbers: first_number(read),
                rest,
            })
        }
    }
}

// What data is, read and printed by workers, each of which prints the rows of the regions that it takes. Refuses the first cause against it, and
// want of memory.
fn print_data<'a, W: Threads + Wait + Sync>(
    rt: &W,
    alloc: Global,
    records: &'a [u8],
    read: &CsvReadOptions,
    schema: &Schema,
    plan: &RangePlan<'_>,
    n_threads: Option<usize>,
    write: &CsvWriterOptions,
) -> PolarsResult<Printed<'a>>
    requires can { CanReadData plan.now read.now schema.now records.now }
    requires plain { IsRowByRow read.now write.now schema.now records.now }
    ensures text { IfOk result (λ printed. HasTextOf write.now printed (data_frame read.now schema.now records.now)) }
    ensures sound { OnOk result (data_cause read.now schema.now records.now ≡ None) }
    ensures refused { IfErr result (IsFault (data_cause read.now schema.now records.now)) }
{
    let options = &write.serialize_options;
    let size = piece_size_for(read.chunk_size, plan.projection.places.len());
    let workers = worker_count(n_threads).min((records.len() / size).saturating_add(1));
    match print_rows(rt, alloc, workers, records, schema, plan, options, size) {
        Ok(rows) => read_printed(alloc, rows, read, schema, plan, write),
        Err(_) => Err(PolarsError::OutOfMemory),
    }
}

// What an input is, of which it is known what its rows are read by, and how many workers read them.
fn print_by<'a, W: Threads + Wait + Sync>(
    rt: &W,
    alloc: Global,
    input: &'a [u8],
    read: &CsvReadOptions,
    prepared: &Prepared,
    write: &CsvWriterOptions,
) -> PolarsResult<Printed<'a>>
    requires allowed { MayRead read.now }
    requires prepared { IsPrepared read.now prepared.now.schema input.now prepared.now }
    ensures text { IfOk result (λ printed. HasTextOf write.now printed (data_frame read.now prepared.now.schema (drop prepared.now.start input.now))) }
    ensures sound { OnOk result (data_cause read.now prepared.now.schema (drop prepared.now.start input.now) ≡ None) }
    ensures refused { IfErr result (IsFault (data_cause read.now prepared.now.schema (drop prepared.now.start input.now))) }
{
    let records = &input[prepared.start..];
    if is_short_enough(read, write, prepared, records.len()) {
        let plan = plan_of(read, prepared);
        let schema = &prepared.schema;
        return print_data(
            rt,
            alloc,
            records,
            read,
            schema,
            &plan,
            prepared.n_threads,
            write,
        );
    }
    match read_prepared(rt, alloc, &OpenGate, input, read, prepared) {
        Ok(rest) => Ok(Printed {
            lines: Vec::new(alloc),
            numbers: None,
            rest,
        }),
        Err(fault) => Err(fault),
    }
}

// What an input is, of which it is known what its rows are read by: by no more workers than there is address space for, and where memory is
// wanting then, by the caller alone.
fn print_prepared<'a, W: Threads + Wait + Sync>(
    rt: &W,
    alloc: Global,
    input: &'a [u8],
    read: &CsvReadOptions,
    prepared: &mut Prepared,
    write: &CsvWriterOptions,
) -> PolarsResult<Printed<'a>>
    requires allowed { MayRead read.now }
    requires prepared { IsPrepared read.now prepared.old.schema input.now prepared.old }
    ensures text { IfOk result (λ printed. HasTextOf write.now printed (data_frame read.now prepared.old.schema (drop prepared.old.start input.now))) }
    ensures sound { OnOk result (data_cause read.now prepared.old.schema (drop prepared.old.start input.now) ≡ None) }
    ensures refused { IfErr result (IsFault (data_cause read.now prepared.old.schema (drop prepared.old.start input.now))) }
{
    let workers = count_with_space(alloc, worker_count(prepared.n_threads), input.len());
    prepared.n_threads = Some(workers);
    match print_by(rt, alloc, input, read, prepared, write) {
        Err(PolarsError::OutOfMemory) if workers > 1 => {
            prepared.n_threads = Some(1);
            print_by(rt, alloc, input, read, prepared, write)
        }
        printed => printed,
    }
}

// What an input is, where the options may stand and the quote of the output is ASCII.
fn print_checked<'a, W: Threads + Wait + Sync>(
    rt: &W,
    alloc: Global,
    input: &'a [u8],
    read: &CsvReadOptions,
    write: &CsvWriterOptions,
) -> PolarsResult<Printed<'a>>
    requires allowed { MayRead read.now }
    ensures text { IfOk result (λ printed. HasTextOf write.now printed (frame_of read.now (settled_schema read.now input.now) input.now)) }
    ensures sound { OnOk result (late_cause read.now (settled_schema read.now input.now) input.now ≡ None) }
    ensures refused { IfErr result (IsFault (late_cause read.now (settled_schema read.now input.now) input.now)) }
{
    match prepare(alloc, input, read) {
        Ok(prepared) => {
            let mut prepared = prepared;
            let printed = print_prepared(rt, alloc, input, read, &mut prepared, write);
            drop(prepared);
            printed
        }
        Err(fault) => Err(fault),
    }
}

// What an input is that means a frame which can be written. Refuses the first cause against it, and want of memory.
fn print_valid<'a, W: Threads + Wait + Sync>(
    rt: &W,
    alloc: Global,
    input: &'a [u8],
    read: &CsvReadOptions,
    write: &CsvWriterOptions,
) -> PolarsResult<Printed<'a>>
    ensures { MatchResult result (IsPrintedRead read.now write.now input.now) (IsUnread read.now (settled_schema read.now input.now) input.now write.now) }
{
    match check_options(read) {
        Ok(()) => {
            if !write.serialize_options.quote_char.is_ascii() {
                return Err(PolarsError::ComputeError(ComputeFault::Quote));
            }
            print_checked(rt, alloc, input, read, write)
        }
        Err(fault) => Err(fault),
    }
}

/// Reads an input under the schema of the options, or else under the one that is inferred from it, and writes the text of its frame to
/// a sink: what `transcode` does, without making the frame. The rows of each piece are printed as soon as it is read.
///
/// Refuses as `transcode` does: before any byte is written the first cause against the frame, and want of memory with a prefix of the
/// text or nothing received; and a fault of the sink (`IO`), which then received a prefix of the text.
#[tactic(auto, using(crate::proofs::TranscodeLaws::fault_unread))]
pub fn convert<W: Threads + Wait + Sync, S: Sink>(
    rt: &W,
    alloc: Global,
    input: &[u8],
    read: &CsvReadOptions,
    write: &CsvWriterOptions,
    sink: &mut S,
) -> PolarsResult<()>
    ensures converted { OnOk result (IsConverted read.now write.now input.now (S.received sink.old) (S.received sink.new)) }
    ensures refused { IfErr result (IsTranscodeFault read.now write.now input.now
        (sink_view (S.received sink.old) (S.faults sink.old) (S.wants sink.old))
        (sink_view (S.received sink.new) (S.faults sink.new) (S.wants sink.new))) }
    ensures later { S.faults sink.old ≤ S.faults sink.new }
    ensures later_wants { S.wants sink.old ≤ S.wants sink.new }
{
    let printed = print_valid(rt, alloc, input, read, write)?;
    let written = write_printed(rt, alloc, &printed, read, write, sink);
    drop(printed);
    written
}

// Appends the text of what was printed without its row index to a sink, whose first number this is. Refuses a fault of the device, and want of memory.
// A prefix of the text was then appended.
fn write_unnumbered<W: Threads + Sync, S: Sink>(
    rt: &W,
    alloc: Global,
    workers: usize,
    printed: &Printed<'_>,
    offset: u64,
    write: &CsvWriterOptions,
    sink: &mut S,
) -> Result<(), SinkFault>
    requires { 0 < workers }
    ensures text { (frame : List ColumnValue) → AreUnnumbered write.now offset printed.now frame → OnOk result (Appends (S.received sink.old) (S.received sink.new) (text_of_frame (frame_options write.now) frame)) }
    ensures prefix { (frame : List ColumnValue) → AreUnnumbered write.now offset printed.now frame → AppendsPrefix (S.received sink.old) (S.received sink.new) (text_of_frame (frame_options write.now) frame) }
    ensures later { S.faults sink.old ≤ S.faults sink.new }
    ensures later_wants { S.wants sink.old ≤ S.wants sink.new }
    ensures device { IsErrOf result SinkFault.Device → Rose (S.faults sink.old) (S.faults sink.new) }
{
    let columns = printed.rest.columns();
    match write_behind(rt, alloc, workers, &[], columns, write, sink) {
        Ok(()) => {
            let options = &write.serialize_options;
            write_numbered(alloc, &printed.lines, offset, options, sink)
        }
        Err(fault) => Err(fault),
    }
}

// Appends the text of what was read and printed to a sink. Refuses a fault of the device, and want of memory. A prefix of the text was then appended.
fn write_text<W: Threads + Sync, S: Sink>(
    rt: &W,
    alloc: Global,
    workers: usize,
    printed: &Printed<'_>,
    write: &CsvWriterOptions,
    sink: &mut S,
) -> Result<(), SinkFault>
    requires { 0 < workers }
    ensures text { (frame : List ColumnValue) → HasTextOf write.now printed.now frame → OnOk result (Appends (S.received sink.old) (S.received sink.new) (text_of_frame (frame_options write.now) frame)) }
    ensures prefix { (frame : List ColumnValue) → HasTextOf write.now printed.now frame → AppendsPrefix (S.received sink.old) (S.received sink.new) (text_of_frame (frame_options write.now) frame) }
    ensures later { S.faults sink.old ≤ S.faults sink.new }
    ensures later_wants { S.wants sink.old ≤ S.wants sink.new }
    ensures device { IsErrOf result SinkFault.Device → Rose (S.faults sink.old) (S.faults sink.new) }
{
    match printed.numbers {
        Some(offset) => write_unnumbered(rt, alloc, workers, printed, offset, write, sink),
        None => {
            let columns = printed.rest.columns();
            write_behind(rt, alloc, workers, &printed.lines, columns, write, sink)
        }
    }
}

/// Writes the text of what was read and printed to a sink. Refuses a fault of the sink (`IO`), and want of memory; the sink then received
/// a prefix of the text.
pub(crate) fn write_printed<W: Threads + Wait + Sync, S: Sink>(
    rt: &W,
    alloc: Global,
    printed: &Printed<'_>,
    read: &CsvReadOptions,
    write: &CsvWriterOptions,
    sink: &mut S,
) -> PolarsResult<()>
    ensures converted { (input : List ℕ) → IsPrintedRead read.now write.now input printed.now → OnOk result (IsConverted read.now write.now input (S.received sink.old) (S.received sink.new)) }
    ensures refused { (input : List ℕ) → IsPrintedRead read.now write.now input printed.now → IfErr result (IsTranscodeFault read.now write.now input
        (sink_view (S.received sink.old) (S.faults sink.old) (S.wants sink.old))
        (sink_view (S.received sink.new) (S.faults sink.new) (S.wants sink.new))) }
    ensures later { S.faults sink.old ≤ S.faults sink.new }
    ensures later_wants { S.wants sink.old ≤ S.wants sink.new }
{
    let workers = count_with_space(alloc, worker_count(read.n_threads), printed.rest.height());
    match write_text(rt, alloc, workers, printed, write, sink) {
        Ok(()) => Ok(()),
        Err(SinkFault::Device) => Err(PolarsError::IO),
        Err(SinkFault::OutOfMemory) => Err(PolarsError::OutOfMemory),
    }
}
