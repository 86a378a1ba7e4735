//! The texts of a source, read into columns one after another, each in the memory of the one before it.
ghost use Rattle.std.specs.Prelude.{◌≡◌, ◌++◌, ◌-◌, ◌≤◌, ◌^◌, ℕ, List, [], Option, true, IfOk, OnOk, IsErrOf};
ghost use Rattle.std.specs.Io.KnownBytes.{IsAtEnd};
ghost use Rattle.pl_cells.specs.InitBuffers.{empty_buffers};
ghost use Rattle.pl_frame.specs.Came.{IsReadOn};
ghost use Rattle.pl_frame.specs.Causes.{Rose};
ghost use Rattle.pl_intake.specs.declared.intake.Intake.{Intake};
ghost use Rattle.pl_read.specs.Arriving.{CanTake, IsLinked, IsLinkedOn, HasLinked};
ghost use Rattle.pl_rows.specs.Plan.{states};

use crate::linked::{Linked, link_on};
use pl_cells::buffer::Buffer;
use pl_frame::read_all::ReadAllFault;
use pl_frame::schema::Schema;
use pl_frame::source::Source;
use pl_intake::intake::Intake;
use pl_rows::columns::empty_buffers;
use pl_rows::plan::RangePlan;
use pl_rows::whole_pieces::read_packed;
use std::alloc::{AllocError, Global};

// So many texts there are at most; what comes behind them is read as a whole.
const TEXTS: usize = 1 << 20;

// Reads a text and links it, by buffers that have no cells and are left so. What can't be linked is taken back. Tells whether all was linked.
// Refuses only want of memory.
fn link_text(
    alloc: Global,
    linked: &mut Linked,
    buffers: &mut [Buffer],
    text: &[u8],
    intake: &mut Intake,
    schema: &Schema,
    plan: &RangePlan<'_>,
) -> Result<bool, AllocError>
    requires can { CanTake plan.now schema.now }
    requires empty { states buffers.old ≡ empty_buffers plan.now.dialect.quote_char plan.now.options.encoding schema.now plan.now.projection.places.now }
    requires linked { (before : List ℕ) × IsLinked plan.now schema.now before linked.old }
    ensures empty { OnOk result (states buffers.new ≡ states buffers.old) }
    ensures linked { (before : List ℕ) → IsLinked plan.now schema.now before linked.old
        → OnOk result (IsLinkedOn plan.now schema.now (before ++ text.now) intake.old intake.new linked.new) }
{
    let read = read_packed(alloc, buffers, schema, text, plan)?;
    let mut reads = Vec::new(alloc);
    reads.push(read)?;
    link_on(alloc, linked, &[text], reads, intake, schema, plan)
}

// Reads the next text of a source into memory, which it gives back, and links it. Gives none where something was taken back: then there is
// nothing to be linked any more.
fn read_next<So: Source>(
    alloc: Global,
    linked: &mut Linked,
    buffers: &mut [Buffer],
    room: Vec<u8>,
    intake: &mut Intake,
    source: &mut So,
    schema: &Schema,
    plan: &RangePlan<'_>,
    piece_size: usize,
) -> Result<Option<Vec<u8>>, ReadAllFault>
    requires can { CanTake plan.now schema.now }
    requires within { intake.old.size ≤ 2 ^ 64 - 1 }
    requires empty { states buffers.old ≡ empty_buffers plan.now.dialect.quote_char plan.now.options.encoding schema.now plan.now.projection.places.now }
    requires linked { (before : List ℕ) × IsLinked plan.now schema.now before linked.old }
    ensures empty { OnOk result (states buffers.new ≡ states buffers.old) }
    ensures linked { (before : Option (List ℕ)) (first : Intake) → HasLinked plan.now schema.now before (So.left source.old) first intake.old linked.old
        → OnOk result (HasLinked plan.now schema.now before (So.left source.new) first intake.new linked.new) }
    ensures cause { IsErrOf result ReadAllFault.Source → Rose (So.faults source.old) (So.faults source.new) }
    ensures read_on { IsReadOn (So.left source.old) (So.left source.new) }
    ensures later { So.faults source.old ≤ So.faults source.new }
{
    let text = intake.next_text(
        source,
        room,
        piece_size,
        usize::MAX,
        &plan.dialect,
        plan.projection.width,
    )?;
    match link_text(alloc, linked, buffers, &text, intake, schema, plan) {
        Ok(true) => Ok(Some(text)),
        Ok(false) => Ok(None),
        Err(_) => Err(ReadAllFault::OutOfMemory),
    }
}

/// Reads texts of a source and links them, one after another, until it has no more or one can't be linked: that is kept, and what is left of
/// the source is not read.
///
/// Refuses a source that fails, and want of memory.
pub(crate) fn read_in_turn<So: Source>(
    alloc: Global,
    none: Linked,
    intake: &mut Intake,
    source: &mut So,
    schema: &Schema,
    plan: &RangePlan<'_>,
    piece_size: usize,
) -> Result<Linked, ReadAllFault>
    requires can { CanTake plan.now schema.now }
    requires within { intake.old.size ≤ 2 ^ 64 - 1 }
    requires ended { intake.old.is_ended ≡ true → IsAtEnd (So.left source.old) }
    requires none { IsLinked plan.now schema.now [] none }
    ensures linked { IfOk result (HasLinked plan.now schema.now (So.left source.old) (So.left source.new) intake.old intake.new) }
    ensures cause { IsErrOf result ReadAllFault.Source → Rose (So.faults source.old) (So.faults source.new) }
    ensures read_on { IsReadOn (So.left source.old) (So.left source.new) }
    ensures later { So.faults source.old ≤ So.faults source.new }
{
    let places = plan.projection.places;
    let quote_char = plan.dialect.quote_char;
    let Ok(mut buffers) = empty_buffers(alloc, schema, places, quote_char, plan.options.encoding)
    else {
        return Err(ReadAllFault::OutOfMemory);
    };
    let mut linked = none;
    let mut room = Vec::new(alloc);
    for _ in 0..TEXTS {
        if intake.is_ended() {
            return Ok(linked);
        }
        match read_next(
            alloc,
            &mut linked,
            &mut buffers,
            room,
            intake,
            source,
            schema,
            plan,
            piece_size,
        )? {
            Some(text) => room = text,
            None => return Ok(linked),
        }
    }
    Ok(linked)
}
