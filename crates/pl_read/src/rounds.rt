//! The records of a source, read into columns as they come: by one worker text by text, by several side by side.
ghost use Rattle.std.specs.Prelude.{◌≡◌, ◌-◌, ◌<◌, ◌≤◌, ◌^◌, ℕ, List, [], Option, true, IfOk, IsErrOf, length};
ghost use Rattle.std.specs.Io.KnownBytes.{IsAtEnd};
ghost use Rattle.pl_frame.specs.Came.{IsReadOn};
ghost use Rattle.pl_frame.specs.Causes.{Rose};
ghost use Rattle.pl_intake.specs.declared.intake.Intake.{Intake};
ghost use Rattle.pl_read.specs.Arriving.{CanTake, IsLinked, HasLinked, HasArrived};

use crate::arriving::read_and_link;
use crate::in_turn::read_in_turn;
use crate::linked::{Linked, none_linked};
use crate::workers::{piece_size_for, read_by_workers};
use pl_board::gate::OpenGate;
use pl_frame::read_all::ReadAllFault;
use pl_frame::schema::Schema;
use pl_frame::source::Source;
use pl_intake::handed::make_shown;
use pl_intake::intake::Intake;
use pl_rows::columns::RangeColumns;
use pl_rows::linking::link_left;
use pl_rows::pieces::plan_behind;
use pl_rows::plan::RangePlan;
use std::alloc::Global;
use std::marker::Brand;
use std::sync::Wait;
use std::thread::Threads;

// So many texts a round has at most: their cells are made at a time.
const TEXTS: usize = 1 << 10;

// So many rounds there are at most; what comes behind them is read as a whole.
const ROUNDS: usize = 1 << 20;

// A text is as long as this part of what was read before it, at least: where pieces are short there are not many rounds.
const PART: usize = 1 << 14;

// Reads texts of a source by workers, and links them behind what is linked. What can't be linked is taken back. Tells whether there is none.
//
// Refuses a source that fails, and want of memory.
fn read_round<W: Threads + Wait + Sync, So: Source>(
    rt: &W,
    alloc: Global,
    workers: usize,
    linked: Linked,
    intake: &mut Intake,
    source: &mut So,
    schema: &Schema,
    plan: &RangePlan<'_>,
    piece_size: usize,
) -> Result<(Linked, bool), ReadAllFault>
    requires can { CanTake plan.now schema.now }
    requires within { intake.old.size ≤ 2 ^ 64 - 1 }
    requires linked { (before : List ℕ) × IsLinked plan.now schema.now before linked }
    ensures linked { (before : Option (List ℕ)) (first : Intake) → HasLinked plan.now schema.now before (So.left source.old) first intake.old linked
        → IfOk result (λ r. HasLinked plan.now schema.now before (So.left source.new) first intake.new r.0) }
    ensures cause { IsErrOf result ReadAllFault.Source → Rose (So.faults source.old) (So.faults source.new) }
    ensures read_on { IsReadOn (So.left source.old) (So.left source.new) }
    ensures later { So.faults source.old ≤ So.faults source.new }
{
    let Ok(cells) = make_shown(alloc, TEXTS) else {
        return Err(ReadAllFault::OutOfMemory);
    };
    read_and_link::<Brand, W, So>(
        rt, alloc, workers, &cells, linked, intake, source, schema, plan, piece_size,
    )
}

// Reads texts of a source and links them, round by round, until it has no more or one can't be linked: that is kept, and what is left of the
// source is not read.
//
// Refuses a source that fails, and want of memory.
fn read_rounds<W: Threads + Wait + Sync, So: Source>(
    rt: &W,
    alloc: Global,
    workers: usize,
    none: Linked,
    intake: &mut Intake,
    source: &mut So,
    schema: &Schema,
    plan: &RangePlan<'_>,
    piece_size: usize,
) -> Result<Linked, ReadAllFault>
    requires can { CanTake plan.now schema.now }
    requires within { intake.old.size ≤ 2 ^ 64 - 1 }
    requires ended { intake.old.is_ended ≡ true → IsAtEnd (So.left source.old) }
    requires none { IsLinked plan.now schema.now [] none }
    ensures linked { IfOk result (HasLinked plan.now schema.now (So.left source.old) (So.left source.new) intake.old intake.new) }
    ensures cause { IsErrOf result ReadAllFault.Source → Rose (So.faults source.old) (So.faults source.new) }
    ensures read_on { IsReadOn (So.left source.old) (So.left source.new) }
    ensures later { So.faults source.old ≤ So.faults source.new }
{
    let mut linked = none;
    for _ in 0..ROUNDS {
        if intake.is_ended() {
            return Ok(linked);
        }
        let size = piece_size.max(linked.front.end / PART);
        let (after, is_all) = read_round(
            rt, alloc, workers, linked, intake, source, schema, plan, size,
        )?;
        linked = after;
        if !is_all {
            return Ok(linked);
        }
    }
    Ok(linked)
}

// Reads texts of a source and links them: one worker text by text, several side by side. What can't be linked is kept, and what is left of
// the source is not read.
//
// Refuses a source that fails, and want of memory.
fn link_source<W: Threads + Wait + Sync, So: Source>(
    rt: &W,
    alloc: Global,
    workers: usize,
    intake: &mut Intake,
    source: &mut So,
    schema: &Schema,
    plan: &RangePlan<'_>,
    piece_size: usize,
) -> Result<Linked, ReadAllFault>
    requires can { CanTake plan.now schema.now }
    requires within { intake.old.size ≤ 2 ^ 64 - 1 }
    requires ended { intake.old.is_ended ≡ true → IsAtEnd (So.left source.old) }
    ensures linked { IfOk result (HasLinked plan.now schema.now (So.left source.old) (So.left source.new) intake.old intake.new) }
    ensures cause { IsErrOf result ReadAllFault.Source → Rose (So.faults source.old) (So.faults source.new) }
    ensures read_on { IsReadOn (So.left source.old) (So.left source.new) }
    ensures later { So.faults source.old ≤ So.faults source.new }
{
    let Ok(none) = none_linked(alloc, schema, plan) else {
        return Err(ReadAllFault::OutOfMemory);
    };
    if workers == 1 {
        return read_in_turn(alloc, none, intake, source, schema, plan, piece_size);
    }
    read_rounds(
        rt, alloc, workers, none, intake, source, schema, plan, piece_size,
    )
}

/// Reads all that is left of a source, and its records into columns meanwhile. One worker reads text by text, each up to where rows seem to
/// begin. Where there are several, the caller reads the texts, and the others read the records of each as soon as it came, as the caller does
/// where a text waits for each worker and once all came. What was kept of the source before stands in front of them. What is not read so without
/// a gap is put together and read as by `read_by_workers`. The answer is that of `read_by_workers` for the records.
///
/// Refuses a source that fails, and want of memory, in which a source without end ends.
pub fn read_arriving<W: Threads + Wait + Sync, So: Source>(
    rt: &W,
    alloc: Global,
    workers: usize,
    intake: &mut Intake,
    source: &mut So,
    schema: &Schema,
    plan: &RangePlan<'_>,
    piece_size: usize,
) -> Result<RangeColumns, ReadAllFault>
    requires workers { 0 < workers }
    requires size { 0 < piece_size }
    requires can { CanTake plan.now schema.now }
    requires within { intake.old.size ≤ 2 ^ 64 - 1 }
    requires held { length intake.old.rest.items ≤ intake.old.size }
    requires ended { intake.old.is_ended ≡ true → IsAtEnd (So.left source.old) }
    ensures arrived { IfOk result (HasArrived plan.now schema.now (So.left source.old) (So.left source.new) intake.old.rest.items) }
    ensures cause { IsErrOf result ReadAllFault.Source → Rose (So.faults source.old) (So.faults source.new) }
    ensures read_on { IsReadOn (So.left source.old) (So.left source.new) }
    ensures later { So.faults source.old ≤ So.faults source.new }
{
    let size = piece_size_for(piece_size, plan.projection.places.len());
    let linked = link_source(rt, alloc, workers, intake, source, schema, plan, size)?;
    intake.read_on(source, usize::MAX)?;
    let last = plan_behind(plan, linked.front.rows, plan.last);
    let rest = intake.rest();
    let Ok(left) = read_by_workers(
        rt, alloc, &OpenGate, workers, schema, rest, &last, piece_size,
    ) else {
        return Err(ReadAllFault::OutOfMemory);
    };
    let Linked { stacks, front } = linked;
    match link_left(alloc, schema, stacks, plan, front, left) {
        Ok(read) => Ok(read),
        Err(_) => Err(ReadAllFault::OutOfMemory),
    }
}
