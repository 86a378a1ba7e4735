//! The rows of parts, one part behind the other.
ghost use Rattle.std.specs.Prelude.{◌≡◌, ◌≤◌, ℕ, List, None, Ok, IfOk, IfErr, OnOk, IsSome};
ghost use Rattle.pl_frame.specs.Frame.{IsFrame, HaveHeight, height_of};
ghost use Rattle.pl_frame.specs.FrameParts.{HaveSameColumns};
ghost use Rattle.pl_options.specs.FirstCause.{IsFault};
ghost use Rattle.pl_read.specs.Refusals.{is_zero};
ghost use Rattle.pl_read.specs.SettleGiven.{given_schema};
ghost use Rattle.pl_read.specs.Steps.{MayRead, late_cause};
ghost use Rattle.pl_multi.specs.Joining.{IsPartJoined, IsPartFault, Join, IsJoinFault, part_fault};
ghost use Rattle.pl_multi.specs.Parts.{first_other};
ghost use Rattle.pl_multi.specs.Scan.{part_options, part_rows, no_rows, wanted_behind};

use crate::part::Part;
use crate::paths::{Unread, read_path};
use crate::scan::MultiFault;
use crate::values::push_values;
use pl_board::gate::OpenGate;
use pl_frame::column::Column;
use pl_frame::error::{PolarsError, PolarsResult};
use pl_frame::opener::Opener;
use pl_frame::stack::Stack;
use pl_options::read_options::CsvReadOptions;
use pl_read::indexing::rows_of;
use pl_read::reading::read_checked;
use pl_rows::stack::push_columns;
use std::alloc::Global;
use std::sync::Wait;
use std::thread::Threads;

// The rows of a part, by the options of a part, with its values behind each. Refuses the first cause against its bytes, and want of
// memory.
fn read_rows<W: Threads + Wait + Sync>(
    rt: &W,
    alloc: Global,
    part: &Part,
    bytes: &[u8],
    options: &CsvReadOptions,
) -> PolarsResult<Vec<Column>>
    requires given { IsSome options.now.schema }
    requires allowed { MayRead options.now }
    ensures rows { IfOk result (λ columns. columns.items ≡ part_rows options.now (given_schema options.now) (part.now, bytes.now)) }
    ensures height { IfOk result (λ columns. HaveHeight (height_of columns.items) columns.items) }
    ensures sound { OnOk result (late_cause options.now (given_schema options.now) bytes.now ≡ None) }
    ensures refused { IfErr result (IsFault (late_cause options.now (given_schema options.now) bytes.now)) }
{
    let frame = match read_checked(rt, alloc, &OpenGate, bytes, options) {
        Ok(frame) => frame,
        Err(fault) => return Err(fault),
    };
    let rows = frame.height();
    let mut columns = frame.into_columns();
    match push_values(alloc, &mut columns, part, rows) {
        Ok(()) => Ok(columns),
        Err(_) => Err(PolarsError::OutOfMemory),
    }
}

/// The refusal of a part for a cause against its bytes, or want of memory.
pub(crate) fn part_fault(part: usize, fault: PolarsError) -> MultiFault
    ensures { result ≡ part_fault part fault }
{
    match fault {
        PolarsError::OutOfMemory => MultiFault::OutOfMemory,
        fault => MultiFault::Part { part, fault },
    }
}

// Puts the rows of the part at a place, by the options of a part, behind those of the parts before it, and answers how many they are.
fn join_part<W: Threads + Wait + Sync, O: Opener>(
    rt: &W,
    alloc: Global,
    opener: &mut O,
    part: &Part,
    place: usize,
    options: &CsvReadOptions,
    stacks: &mut [Stack],
) -> Result<usize, MultiFault>
    requires given { IsSome options.now.schema }
    requires allowed { MayRead options.now }
    requires frame { IsFrame stacks.old }
    requires same { (bytes : List ℕ) → HaveSameColumns stacks.old (part_rows options.now (given_schema options.now) (part.now, bytes)) }
    ensures joined { IfOk result (IsPartJoined (O.holds opener.old) options.now part.now stacks.old stacks.new) }
    ensures frame { OnOk result (IsFrame stacks.new) }
    ensures same { OnOk result (HaveSameColumns stacks.old stacks.new) }
    ensures refused { IfErr result (IsPartFault (O.holds opener.old) (O.faults opener.old) (O.faults opener.new) options.now part.now place) }
    ensures later { O.faults opener.old ≤ O.faults opener.new }
    ensures stays { (other : List ℕ) → O.holds opener.new other ≡ O.holds opener.old other }
{
    let bytes = match read_path(opener, part.path.as_str(), Vec::new(alloc)) {
        Ok(bytes) => bytes,
        Err(Unread::Failed) => return Err(MultiFault::Io { part: place }),
        Err(Unread::OutOfMemory) => return Err(MultiFault::OutOfMemory),
    };
    let columns = match read_rows(rt, alloc, part, &bytes, options) {
        Ok(columns) => columns,
        Err(fault) => return Err(part_fault(place, fault)),
    };
    let rows = rows_of(&columns);
    match push_columns(stacks, columns) {
        Ok(()) => Ok(rows),
        Err(_) => Err(MultiFault::OutOfMemory),
    }
}

// How many rows are still wanted behind so many.
fn wanted_behind(end: Option<usize>, rows: usize) -> Option<usize>
    ensures { result ≡ wanted_behind end rows }
{
    match end {
        Some(end) => Some(end.saturating_sub(rows)),
        None => None,
    }
}

// Whether no row is wanted any more.
fn has_enough(wanted: Option<usize>) -> bool
    ensures { result ≡ is_zero wanted }
{
    match wanted {
        Some(rows) => rows == 0,
        None => false,
    }
}

// The same as `join_parts`, given the options of a part, whose limit of rows is set for each.
fn join_each<W: Threads + Wait + Sync, O: Opener>(
    rt: &W,
    alloc: Global,
    opener: &mut O,
    parts: &[Part],
    read: &CsvReadOptions,
    options: &mut CsvReadOptions,
    end: Option<usize>,
    stacks: &mut [Stack],
) -> Result<(), MultiFault>
    requires given { IsSome read.now.schema }
    requires allowed { MayRead read.now }
    requires others { first_other parts.now ≡ None }
    requires options { options.old ≡ part_options read.now options.old.n_rows }
    requires empty { stacks.old ≡ no_rows read.now parts.now }
    requires frame { IsFrame stacks.old }
    ensures joined { OnOk result (Join (O.holds opener.old) read.now end parts.now (Ok stacks.new)) }
    ensures frame { OnOk result (IsFrame stacks.new) }
    ensures same { OnOk result (HaveSameColumns stacks.old stacks.new) }
    ensures refused { IfErr result (IsJoinFault (O.holds opener.old) (O.faults opener.old) (O.faults opener.new) read.now end parts.now) }
    ensures later { O.faults opener.old ≤ O.faults opener.new }
    ensures stays { (other : List ℕ) → O.holds opener.new other ≡ O.holds opener.old other }
{
    let mut rows: usize = 0;
    let mut place = 0;
    while place < parts.len() {
        let wanted = wanted_behind(end, rows);
        if has_enough(wanted) {
            return Ok(());
        }
        options.n_rows = wanted;
        let more = match join_part(rt, alloc, opener, &parts[place], place, options, stacks) {
            Ok(more) => more,
            Err(fault) => return Err(fault),
        };
        let Some(sum) = rows.checked_add(more) else {
            return Err(MultiFault::OutOfMemory);
        };
        rows = sum;
        place += 1;
    }
    Ok(())
}

/// Puts the rows of parts behind columns without rows, part by part, as long as rows are wanted. The options have no row index.
///
/// Refuses the first cause against the bytes of a part (`Part`), a part that was not opened or not read to its end (`Io`), where the
/// opener's count of faults rose, and want of memory.
pub(crate) fn join_parts<W: Threads + Wait + Sync, O: Opener>(
    rt: &W,
    alloc: Global,
    opener: &mut O,
    parts: &[Part],
    read: &CsvReadOptions,
    end: Option<usize>,
    stacks: &mut [Stack],
) -> Result<(), MultiFault>
    requires given { IsSome read.now.schema }
    requires allowed { MayRead read.now }
    requires others { first_other parts.now ≡ None }
    requires empty { stacks.old ≡ no_rows read.now parts.now }
    requires frame { IsFrame stacks.old }
    ensures joined { OnOk result (Join (O.holds opener.old) read.now end parts.now (Ok stacks.new)) }
    ensures frame { OnOk result (IsFrame stacks.new) }
    ensures same { OnOk result (HaveSameColumns stacks.old stacks.new) }
    ensures refused { IfErr result (IsJoinFault (O.holds opener.old) (O.faults opener.old) (O.faults opener.new) read.now end parts.now) }
    ensures later { O.faults opener.old ≤ O.faults opener.new }
    ensures stays { (other : List ℕ) → O.holds opener.new other ≡ O.holds opener.old other }
{
    let Ok(mut options) = read.try_clone() else {
        return Err(MultiFault::OutOfMemory);
    };
    options.row_index = None;
    join_each(rt, alloc, opener, parts, read, &mut options, end, stacks)
}
