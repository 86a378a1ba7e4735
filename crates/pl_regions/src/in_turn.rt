//! The texts of a source, printed one after another, each in the memory of the one before it.
ghost use Rattle.std.specs.Prelude.{◌≡◌, ◌<◌, ◌≤◌, ℕ, List, Option, true, IfOk, IfSome, OnOk, IsErrOf};
ghost use Rattle.std.specs.Io.KnownBytes.{IsAtEnd};
ghost use Rattle.pl_frame.specs.Causes.{Rose};
ghost use Rattle.pl_intake.specs.declared.intake.Intake.{Intake};
ghost use Rattle.pl_intake.specs.Intake.{HasStopped, IsPastLimit};
ghost use Rattle.pl_write.specs.Options.{cell_options};
ghost use Rattle.pl_verbatim.specs.PrintedTexts.{CanPrint};
ghost use Rattle.pl_verbatim.specs.Verbatim.{IsVerbatimOf};
ghost use Rattle.pl_regions.specs.Arriving.{HasPrinted};

use crate::kept::{Kept, keep_front, print_apart};
use pl_frame::read_all::ReadAllFault;
use pl_frame::schema::Schema;
use pl_frame::source::Source;
use pl_intake::intake::Intake;
use pl_rows::plan::RangePlan;
use pl_verbatim::verbatim::Verbatim;
use pl_write::options::SerializeOptions;
use pl_write::row_printer::RowPrinter;
use std::alloc::Global;

// So many texts there are at most; what comes behind them is read as a whole.
const TEXTS: usize = 1 << 20;

/// A text is as long as this part of what was read before it, at least: where pieces are short there are not many texts.
pub(crate) const PART: usize = 1 << 14;

// Reads the next text of a source into memory, which it gives back, and prints it. Gives none where something was taken back: then there is
// nothing to be printed so any more.
fn print_next<So: Source>(
    alloc: Global,
    kept: &mut Kept,
    printer: &mut RowPrinter,
    room: Vec<u8>,
    intake: &mut Intake,
    source: &mut So,
    limit: usize,
    schema: &Schema,
    plan: &RangePlan<'_>,
    options: &SerializeOptions,
    verbatim: &Verbatim,
    piece_size: usize,
    most: Option<usize>,
) -> Result<Option<Vec<u8>>, ReadAllFault>
    requires can { CanPrint plan.now schema.now }
    requires verbatim { IsVerbatimOf plan.now schema.now (cell_options options.now) verbatim.now }
    requires size { 0 < piece_size }
    requires within { intake.old.size ≤ limit }
    requires few { IfSome most (λ most. kept.old.rows ≤ most) }
    ensures few { OnOk result (IfSome most (λ most. kept.new.rows ≤ most)) }
    ensures printed { (before : Option (List ℕ)) (first : Intake) → HasPrinted plan.now schema.now (cell_options options.now) before (So.left source.old) limit first intake.old kept.old
        → OnOk result (HasPrinted plan.now schema.now (cell_options options.now) before (So.left source.new) limit first intake.new kept.new) }
    ensures too_long { IsErrOf result ReadAllFault.TooLong → IsPastLimit (So.left source.old) (So.left source.new) limit intake.old.size }
    ensures failed { IsErrOf result ReadAllFault.Source → HasStopped (So.left source.old) (So.left source.new) limit intake.old.size }
    ensures cause { IsErrOf result ReadAllFault.Source → Rose (So.faults source.old) (So.faults source.new) }
    ensures later { So.faults source.old ≤ So.faults source.new }
{
    let width = plan.projection.width;
    let text = intake.next_text(source, room, piece_size, limit, &plan.dialect, width)?;
    let Ok(front) = print_apart(
        alloc, &text, printer, schema, plan, options, verbatim, piece_size,
    ) else {
        return Err(ReadAllFault::OutOfMemory);
    };
    let Ok(left) = keep_front(alloc, kept, &text, front, most) else {
        return Err(ReadAllFault::OutOfMemory);
    };
    let is_all = left.is_empty();
    if intake.put_back(left).is_err() {
        return Err(ReadAllFault::OutOfMemory);
    }
    let room = if is_all { Some(text) } else { None };
    Ok(room)
}

/// Reads texts of a source and prints them, one after another, until it has no more, or one is not printed to its end or has too many rows: what is
/// left of that is kept, and what is left of the source is not read.
///
/// Refuses as `read_all` does, with those bytes that came before counted in.
pub(crate) fn print_in_turn<So: Source>(
    alloc: Global,
    intake: &mut Intake,
    source: &mut So,
    limit: usize,
    schema: &Schema,
    plan: &RangePlan<'_>,
    options: &SerializeOptions,
    verbatim: &Verbatim,
    piece_size: usize,
    most: Option<usize>,
) -> Result<Kept, ReadAllFault>
    requires can { CanPrint plan.now schema.now }
    requires verbatim { IsVerbatimOf plan.now schema.now (cell_options options.now) verbatim.now }
    requires size { 0 < piece_size }
    requires within { intake.old.size ≤ limit }
    requires ended { intake.old.is_ended ≡ true → IsAtEnd (So.left source.old) }
    ensures few { IfOk result (λ kept. IfSome most (λ most. kept.rows ≤ most)) }
    ensures printed { IfOk result (HasPrinted plan.now schema.now (cell_options options.now) (So.left source.old) (So.left source.new) limit intake.old intake.new) }
    ensures too_long { IsErrOf result ReadAllFault.TooLong → IsPastLimit (So.left source.old) (So.left source.new) limit intake.old.size }
    ensures failed { IsErrOf result ReadAllFault.Source → HasStopped (So.left source.old) (So.left source.new) limit intake.old.size }
    ensures cause { IsErrOf result ReadAllFault.Source → Rose (So.faults source.old) (So.faults source.new) }
    ensures later { So.faults source.old ≤ So.faults source.new }
{
    let Ok(mut printer) = RowPrinter::new(alloc) else {
        return Err(ReadAllFault::OutOfMemory);
    };
    let mut kept = Kept::none(alloc);
    let mut room = Vec::new(alloc);
    for _ in 0..TEXTS {
        if intake.is_ended() {
            return Ok(kept);
        }
        let size = piece_size.max(kept.end / PART);
        match print_next(
            alloc,
            &mut kept,
            &mut printer,
            room,
            intake,
            source,
            limit,
            schema,
            plan,
            options,
            verbatim,
            size,
            most,
        )? {
            Some(text) => room = text,
            None => return Ok(kept),
        }
    }
    Ok(kept)
}
