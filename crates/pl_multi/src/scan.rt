//! Many files read as one frame.
ghost use Rattle.std.specs.Prelude.{◌≡◌, ◌≤◌, ◌<◌, ◌⊎◌, [], ℕ, List, length, slice_index_or, None, Some, Result, IfOk, IfErr, OnOk, IsOkUnless};
ghost use Rattle.std.specs.Option.{option_copied, option_map};
ghost use Rattle.pl_frame.specs.Frame.{ColumnValue, IsFrame, height_of};
ghost use Rattle.pl_frame.specs.Names.{repeated_name};
ghost use Rattle.pl_read.specs.Projection.{projected};
ghost use Rattle.pl_read.specs.SettleGiven.{given_schema, IsSettled};
ghost use Rattle.pl_multi.specs.Parts.{column_names, start_of, end_of};
ghost use Rattle.pl_multi.specs.Scan.{PartBytes, IsJoined, IsScanFault, IsScanMeaning, AreTold, ScansUnlessFailed, no_rows, numbered, late_fault, rows_from};
ghost use Rattle.pl_multi.specs.Joining.{IsSound, IsEarlyFault, IsLateFault, HasFreeName, read_fault};
ghost use Rattle.pl_multi.specs.declared.scan.MultiFault.{MultiFault};
ghost use Rattle.pl_multi.specs.declared.scan.MultiFault.TheVariants as fault;

use crate::checking::{column_names, find_other, is_wrong, push_partition_names};
use crate::joining::join_parts;
use crate::part::Part;
use pl_frame::column::Column;
use pl_frame::data_type::DataType;
use pl_frame::error::{ComputeFault, PolarsError};
use pl_frame::frame::DataFrame;
use pl_frame::name::{PlSmallStr, find_repeat};
use pl_frame::opener::Opener;
use pl_frame::stack::Stack;
use pl_options::read_options::CsvReadOptions;
use pl_options::row_index::RowIndex;
use pl_read::checks::check_options;
use pl_read::indexing::{rows_of, with_index_behind};
use pl_read::settle_given::{Settled, settle_given};
use pl_rows::stack::{empty_stacks, into_columns};
use std::alloc::{AllocError, Global};
use std::sync::Wait;
use std::thread::Threads;
use thiserror::Error;

/// Why there is no joined read (docs/files.md, "Many files").
#[derive(Debug, Drop, Error)]
pub enum MultiFault {
    /// No schema is given, or a path or a limit of rows is, or the slice ends before it starts.
    #[error("options that a joined read can't have")]
    Options,
    /// The first cause against the options of the read.
    #[error("{0}")]
    Read(PolarsError),
    /// The values of this part have other names than those of the first; the least such part.
    #[error("part {part} has other values than the first")]
    Partitions { part: usize },
    /// The name of a value that an earlier column has.
    #[error("the column {name} stands twice")]
    Duplicate { name: PlSmallStr },
    /// The first cause against the bytes of a part; the least such part.
    #[error("part {part}: {fault}")]
    Part { part: usize, fault: PolarsError },
    /// This part was not opened, or not read to its end.
    #[error("part {part} was not read")]
    Io { part: usize },
    /// The last number of the row index does not fit 64 bits, or a code of a category does not fit 32.
    #[error("the row index of {rows} rows from {offset} on does not fit")]
    Index { offset: u64, rows: u64 },
    #[error("out of memory")]
    OutOfMemory,
}

impl From<AllocError> for MultiFault {
    ghost use Rattle.std.specs.Prelude.{◌≡◌};
    ghost use Rattle.pl_multi.specs.declared.scan.MultiFault.TheVariants.{OutOfMemory};

    ghost from_gives = { λ _ fault. fault ≡ OutOfMemory };

    fn from(_e: AllocError) -> MultiFault {
        MultiFault::OutOfMemory
    }
}

// The columns of the answer without its row index, and without rows. Refuses only want of memory.
fn empty_rows(
    alloc: Global,
    read: &CsvReadOptions,
    settled: &Settled,
    parts: &[Part],
) -> Result<Vec<Stack>, AllocError>
    requires settled { settled.now.schema ≡ given_schema read.now }
    requires places { settled.now.projection.items ≡ projected read.now (given_schema read.now) }
    ensures { IfOk result (λ stacks. stacks.items ≡ no_rows read.now parts.now) }
{
    let mut stacks = empty_stacks(alloc, &settled.schema, &settled.projection)?;
    let mut names = Vec::new(alloc);
    push_partition_names(&mut names, parts)?;
    for name in names {
        stacks.push(Stack::new(alloc, name, DataType::String))?;
    }
    Ok(stacks)
}

// The refusal of a read for a cause against its options, or want of memory.
fn read_fault(fault: PolarsError) -> MultiFault
    ensures { result ≡ read_fault fault }
{
    match fault {
        PolarsError::OutOfMemory => MultiFault::OutOfMemory,
        fault => MultiFault::Read(fault),
    }
}

// The refusal of the name at this place, or want of memory.
fn duplicate(names: &[PlSmallStr], place: usize) -> MultiFault
    requires { place < length names.now }
    ensures { (result ≡ fault.Duplicate (slice_index_or names.now place [])) ⊎ (result ≡ fault.OutOfMemory) }
{
    match names[place].try_clone() {
        Ok(name) => MultiFault::Duplicate { name },
        Err(_) => MultiFault::OutOfMemory,
    }
}

// The columns of the answer without its row index, and without rows, where nothing stands against the settled options and the parts.
// Refuses the first name that an earlier column has, and want of memory.
fn check_names(
    alloc: Global,
    read: &CsvReadOptions,
    settled: &Settled,
    parts: &[Part],
) -> Result<Vec<Stack>, MultiFault>
    requires settled { IsSettled read.now (given_schema read.now) settled.now }
    ensures empty { IfOk result (λ stacks. stacks.items ≡ no_rows read.now parts.now) }
    ensures distinct { OnOk result (repeated_name (column_names read.now (given_schema read.now) parts.now) ≡ None) }
    ensures free { IfOk result (λ stacks. HasFreeName read.now.row_index stacks.items) }
    ensures refused { IfErr result (λ given. (option_map fault.Duplicate (repeated_name (column_names read.now (given_schema read.now) parts.now)) ≡ Some given) ⊎ (given ≡ fault.OutOfMemory)) }
{
    let index = read.row_index.as_ref();
    let names = column_names(alloc, index, &settled.schema, &settled.projection, parts)?;
    if let Some(place) = find_repeat(&names) {
        return Err(duplicate(&names, place));
    }
    Ok(empty_rows(alloc, read, settled, parts)?)
}

/// The columns of the answer without its row index, and without rows, where nothing stands against the options and the parts, whatever
/// their bytes. Refuses the first such cause, and want of memory.
pub(crate) fn check_scan(
    alloc: Global,
    parts: &[Part],
    read: &CsvReadOptions,
    slice: Option<(usize, usize)>,
) -> Result<Vec<Stack>, MultiFault>
    ensures sound { OnOk result (IsSound read.now slice parts.now) }
    ensures free { IfOk result (λ stacks. HasFreeName read.now.row_index stacks.items) }
    ensures empty { IfOk result (λ stacks. stacks.items ≡ no_rows read.now parts.now) }
    ensures refused { IfErr result (IsEarlyFault read.now slice parts.now) }
{
    let checked = check_options(read);
    if is_wrong(read, slice) {
        return Err(MultiFault::Options);
    }
    if let Err(fault) = checked {
        return Err(read_fault(fault));
    }
    let settled = match settle_given(alloc, read) {
        Ok(settled) => settled,
        Err(fault) => return Err(read_fault(fault)),
    };
    if let Some(part) = find_other(parts) {
        return Err(MultiFault::Partitions { part });
    }
    check_names(alloc, read, &settled, parts)
}

// The rows of columns from one on, given how many there are. Refuses only want of memory.
fn rows_from(
    alloc: Global,
    columns: Vec<Column>,
    start: usize,
    all: usize,
) -> Result<Vec<Column>, MultiFault>
    requires frame { IsFrame columns.items }
    requires all { all ≡ height_of columns.items }
    ensures rows { IfOk result (λ rows. rows.items ≡ rows_from start columns.items) }
    ensures frame { IfOk result (λ rows. IsFrame rows.items) }
    ensures refused { IsOkUnless result fault.OutOfMemory }
{
    if start == 0 {
        return Ok(columns);
    }
    match DataFrame::of_distinct(columns).slice(start, all) {
        Ok(frame) => Ok(frame.into_columns()),
        Err(_) => Err(MultiFault::OutOfMemory),
    }
}

// The rows of columns from one on, behind their row index, where one is asked. Refuses the last number that does not fit 64 bits, or
// else the last code that does not fit 32 (`Index`), and want of memory.
fn number(
    alloc: Global,
    index: Option<&RowIndex>,
    columns: Vec<Column>,
    start: usize,
) -> Result<DataFrame, MultiFault>
    requires columns { IsFrame columns.items }
    requires free { HasFreeName (option_copied index) columns.items }
    ensures frame { IfOk result (λ frame. frame ≡ numbered (option_copied index.entry) start columns.items) }
    ensures sound { OnOk result (late_fault (option_copied index.entry) start columns.items ≡ None) }
    ensures refused { IfErr result (IsLateFault (option_copied index.entry) start columns.items) }
{
    let all = rows_of(&columns);
    let rows = rows_from(alloc, columns, start, all)?;
    let before = if rows_of(&rows) == 0 { 0 } else { start };
    match with_index_behind(alloc, index, before, rows) {
        Ok(frame) => Ok(frame),
        Err(PolarsError::ComputeError(ComputeFault::Index { offset, rows })) => {
            Err(MultiFault::Index { offset, rows })
        }
        Err(_) => Err(MultiFault::OutOfMemory),
    }
}

// The joined read, or why there is none: each answer only by its cause.
fn scan_parts<W: Threads + Wait + Sync, O: Opener>(
    rt: &W,
    alloc: Global,
    opener: &mut O,
    parts: &[Part],
    read: &CsvReadOptions,
    slice: Option<(usize, usize)>,
) -> Result<DataFrame, MultiFault>
    ensures frame { IfOk result (IsJoined (O.holds opener.old) read.now slice parts.now) }
    ensures refused { IfErr result (IsScanFault (O.holds opener.old) (O.faults opener.old) (O.faults opener.new) read.now slice parts.now) }
    ensures later { O.faults opener.old ≤ O.faults opener.new }
    ensures stays { (other : List ℕ) → O.holds opener.new other ≡ O.holds opener.old other }
{
    let mut stacks = match check_scan(alloc, parts, read, slice) {
        Ok(stacks) => stacks,
        Err(fault) => return Err(fault),
    };
    if let Err(fault) = join_parts(rt, alloc, opener, parts, read, end_of(slice), &mut stacks) {
        return Err(fault);
    }
    match into_columns(alloc, stacks) {
        Ok(columns) => number(alloc, read.row_index.as_ref(), columns, start_of(slice)),
        Err(_) => Err(MultiFault::OutOfMemory),
    }
}

/// Reads parts under one schema into one frame: their rows in the order of the list, each with the values of its part as columns of
/// type `String` behind its own, numbered over all where the options ask for a row index, and cut to the rows of the slice, from its
/// start up to its end (docs/files.md, "Many files"). Parts are opened one after the other, and none behind the end of the slice. The
/// bytes of a part are what the opener gives at its path.
///
/// Refuses the first cause in the order of `MultiFault`: `Options`, `Read`, `Partitions` and `Duplicate` before any part is opened;
/// then `Io` and `Part`, whichever comes first in the list of parts, `Io` only where the opener's count of faults rose; then `Index`;
/// and want of memory, in which a part without end ends.
pub fn scan_multi<W: Threads + Wait + Sync, O: Opener>(
    rt: &W,
    alloc: Global,
    opener: &mut O,
    parts: &[Part],
    read: &CsvReadOptions,
    slice: Option<(usize, usize)>,
) -> Result<DataFrame, MultiFault>
    // Each answer comes only by its cause.
    ensures frame { IfOk result (IsJoined (O.holds opener.old) read.now slice parts.now) }
    ensures refused { IfErr result (IsScanFault (O.holds opener.old) (O.faults opener.old) (O.faults opener.new) read.now slice parts.now) }

    // And it comes where the opener tells the bytes of each part, up to want of memory and a count that rose.
    ensures complete { (given : List PartBytes) (meaning : Result (List ColumnValue) MultiFault)
        → AreTold (O.holds opener.old) parts.now given → IsScanMeaning read.now slice given meaning
        → ScansUnlessFailed result meaning (O.faults opener.old) (O.faults opener.new) }
    ensures later { O.faults opener.old ≤ O.faults opener.new }
    ensures stays { (other : List ℕ) → O.holds opener.new other ≡ O.holds opener.old other }
{
    scan_parts(rt, alloc, opener, parts, read, slice)
}

// The first row of the answer.
fn start_of(slice: Option<(usize, usize)>) -> usize
    ensures { result ≡ start_of slice }
{
    match slice {
        Some((start, _)) => start,
        None => 0,
    }
}

// The row before which the answer ends, where one is given.
fn end_of(slice: Option<(usize, usize)>) -> Option<usize>
    ensures { result ≡ end_of slice }
{
    match slice {
        Some((_, end)) => Some(end),
        None => None,
    }
}
