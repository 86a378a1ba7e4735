//! From what a source gives to the frame that it means: where rows can be read before all bytes came, they are.
ghost use Rattle.std.specs.Prelude.{◌≡◌, ◌-◌, ◌^◌, ◌≤◌, ℕ, List, true, length, IfSome, MatchResult};
ghost use Rattle.std.specs.Bool.{OnTrue};
ghost use Rattle.std.specs.Io.KnownBytes.{IsAtEnd};
ghost use Rattle.pl_frame.specs.Came.{IsReadOn};
ghost use Rattle.pl_read.specs.Ahead.{AreRowsRead, IsReadAhead, IsReadBehind, IsSourceRead, MayReadAhead, unread_of};
ghost use Rattle.pl_read.specs.Options.{settled_schema};
ghost use Rattle.pl_read.specs.Reading.{IsRead, IsReadFault};
ghost use Rattle.pl_read.specs.Steps.{MayRead};

use crate::checks::check_options;
use crate::preparing::{Prepared, prepare};
use crate::reading::{frame_of_range, plan_of, read_frame, rechunked};
use crate::rounds::read_arriving;
use crate::workers::worker_count;
use pl_board::gate::OpenGate;
use pl_frame::error::{PolarsError, PolarsResult};
use pl_frame::frame::DataFrame;
use pl_frame::read_all::ReadAllFault;
use pl_frame::source::Source;
use pl_intake::intake::Intake;
use pl_options::read_options::CsvReadOptions;
use pl_rows::columns::RangeColumns;
use std::alloc::Global;
use std::sync::Wait;
use std::thread::Threads;

// So many bytes are read before it is told what the rows are read by, or a piece, where that is shorter. An input of no more is read as a whole.
const FIRST: usize = 1 << 16;

// Why a source was not read to its end.
fn unread(fault: ReadAllFault) -> PolarsError
    ensures { result ≡ unread_of fault }
{
    match fault {
        ReadAllFault::Source => PolarsError::IO,
        ReadAllFault::TooLong | ReadAllFault::OutOfMemory => PolarsError::OutOfMemory,
    }
}

/// Whether a front of the input can tell what the rows are read by, so that they can be read as they come.
pub fn reads_ahead(options: &CsvReadOptions) -> bool
    ensures { OnTrue result (MayReadAhead options.now) }
{
    options.schema.is_some()
        && options.skip_lines == 0
        && options.n_rows.is_none()
        && check_options(options).is_ok()
}

// What the rows of an input are read by that begins with these bytes, where they tell it: they are not all of it, they end with a line end,
// and the rows begin within them.
fn prepare_ahead(
    alloc: Global,
    first: &[u8],
    is_all: bool,
    options: &CsvReadOptions,
) -> Option<Prepared>
    requires { MayReadAhead options.now }
    ensures { IfSome result (IsReadAhead options.now first.now) }
{
    if is_all || first.len() < 4 || first[first.len() - 1] != options.parse_options.eol_char {
        return None;
    }
    let Ok(prepared) = prepare(alloc, first, options) else {
        return None;
    };
    if prepared.start < first.len() {
        return Some(prepared);
    }
    None
}

// Reads what is left of a source, and then the input: what was kept of it before, and what came.
fn read_whole<W: Threads + Wait + Sync, So: Source>(
    rt: &W,
    alloc: Global,
    intake: Intake,
    source: &mut So,
    options: &CsvReadOptions,
) -> PolarsResult<DataFrame>
    requires within { intake.size ≤ 2 ^ 64 - 1 }
    requires ended { intake.is_ended ≡ true → IsAtEnd (So.left source.old) }
    ensures answer { IsReadBehind options.now intake.rest.items (So.left source.old) (So.left source.new) (So.faults source.old) (So.faults source.new) result }
    ensures read_on { IsReadOn (So.left source.old) (So.left source.new) }
    ensures later { So.faults source.old ≤ So.faults source.new }
{
    let mut intake = intake;
    if let Err(fault) = intake.read_on(source, usize::MAX) {
        return Err(unread(fault));
    }
    let input = intake.into_rest();
    read_frame(rt, alloc, &OpenGate, &input, options)
}

// The frame of an input whose rows were read.
fn frame_of_input(
    alloc: Global,
    options: &CsvReadOptions,
    read: RangeColumns,
) -> PolarsResult<DataFrame>
    requires allowed { MayRead options.now }
    requires read { (input : List ℕ) × AreRowsRead options.now input read }
    ensures { (input : List ℕ) → AreRowsRead options.now input read → MatchResult result (IsRead options.now (settled_schema options.now input) input) (IsReadFault options.now (settled_schema options.now input) input) }
{
    match frame_of_range(alloc, options, read) {
        Ok(frame) => rechunked(alloc, options, frame),
        Err(fault) => Err(fault),
    }
}

// The frame of an input that begins with what was kept, which tells what its rows are read by: they are read as they come.
fn read_ahead<W: Threads + Wait + Sync, So: Source>(
    rt: &W,
    alloc: Global,
    intake: &mut Intake,
    prepared: &Prepared,
    source: &mut So,
    options: &CsvReadOptions,
) -> PolarsResult<DataFrame>
    requires allowed { MayReadAhead options.now }
    requires ahead { IsReadAhead options.now intake.old.rest.items prepared.now }
    requires size { intake.old.size ≡ length intake.old.rest.items }
    requires within { intake.old.size ≤ 2 ^ 64 - 1 }
    requires ended { intake.old.is_ended ≡ true → IsAtEnd (So.left source.old) }
    ensures answer { IsReadBehind options.now intake.old.rest.items (So.left source.old) (So.left source.new) (So.faults source.old) (So.faults source.new) result }
    ensures read_on { IsReadOn (So.left source.old) (So.left source.new) }
    ensures later { So.faults source.old ≤ So.faults source.new }
{
    if intake.skip(prepared.start).is_err() {
        return Err(PolarsError::OutOfMemory);
    }
    let plan = plan_of(options, prepared);
    let schema = &prepared.schema;
    let workers = worker_count(prepared.n_threads);
    let size = options.chunk_size;
    match read_arriving(rt, alloc, workers, intake, source, schema, &plan, size) {
        Ok(read) => frame_of_input(alloc, options, read),
        Err(fault) => Err(unread(fault)),
    }
}

/// The frame of the input that a source gives, as `read_frame` gives it of the input as a whole. Where a front of the input tells what its rows
/// are read by, they are read as they come.
pub fn read_from<W: Threads + Wait + Sync, So: Source>(
    rt: &W,
    alloc: Global,
    source: &mut So,
    options: &CsvReadOptions,
) -> PolarsResult<DataFrame>
    requires { MayReadAhead options.now }
    ensures answer { IsSourceRead options.now (So.left source.old) (So.left source.new) (So.faults source.old) (So.faults source.new) result }
    ensures read_on { IsReadOn (So.left source.old) (So.left source.new) }
    ensures later { So.faults source.old ≤ So.faults source.new }
{
    let mut intake = Intake::new(alloc);
    let width = match &options.schema {
        Some(schema) => schema.len(),
        None => 0,
    };
    let size = options.chunk_size.min(FIRST);
    let dialect = options.parse_options.dialect();
    let first = match intake.next_text(source, Vec::new(alloc), size, usize::MAX, &dialect, width) {
        Ok(first) => first,
        Err(fault) => return Err(unread(fault)),
    };
    let prepared = prepare_ahead(alloc, &first, intake.is_ended(), options);
    if intake.put_back(first).is_err() {
        return Err(PolarsError::OutOfMemory);
    }
    if let Some(prepared) = prepared {
        return read_ahead(rt, alloc, &mut intake, &prepared, source, options);
    }
    read_whole(rt, alloc, intake, source, options)
}
