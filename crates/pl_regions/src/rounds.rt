//! The texts of a source, printed as they come: by one worker text by text, by several side by side.
ghost use Rattle.std.specs.Prelude.{◌≡◌, ◌<◌, ◌≤◌, ℕ, List, Option, true, IfOk, IfSome, IsErrOf};
ghost use Rattle.std.specs.Io.KnownBytes.{IsAtEnd};
ghost use Rattle.pl_frame.specs.Causes.{Rose};
ghost use Rattle.pl_intake.specs.declared.intake.Intake.{Intake};
ghost use Rattle.pl_intake.specs.Intake.{HasStopped, IsPastLimit};
ghost use Rattle.pl_write.specs.Options.{cell_options};
ghost use Rattle.pl_verbatim.specs.PrintedTexts.{CanPrint};
ghost use Rattle.pl_verbatim.specs.Verbatim.{IsVerbatimOf};
ghost use Rattle.pl_regions.specs.Arriving.{HasPrinted};

use crate::in_line::print_and_keep;
use crate::in_turn::{PART, print_in_turn};
use crate::kept::Kept;
use pl_frame::read_all::ReadAllFault;
use pl_frame::schema::Schema;
use pl_frame::source::Source;
use pl_intake::handed::make_shown;
use pl_intake::intake::Intake;
use pl_rows::plan::RangePlan;
use pl_verbatim::verbatim::Verbatim;
use pl_write::options::SerializeOptions;
use std::alloc::Global;
use std::marker::Brand;
use std::sync::Wait;
use std::thread::Threads;

// So many texts a round has at most: their cells are made at a time.
const TEXTS: usize = 1 << 10;

// So many rounds there are at most; what comes behind them is read as a whole.
const ROUNDS: usize = 1 << 20;

// How many bytes a text has at most, as long as that is no small part of what was read before: the last texts keep each worker busy for as long as one
// takes. It is twice as long where not all columns are read, since the lines then take less memory.
fn longest_text(plan: &RangePlan<'_>) -> usize
    ensures { 0 < result }
{
    if plan.projection.places.len() < plan.projection.width {
        1 << 18
    } else {
        1 << 17
    }
}

// Prints texts of a source by workers and keeps their lines behind those that are kept. What is not kept is taken back. Tells whether there is none.
fn print_round<W: Threads + Wait + Sync, So: Source>(
    rt: &W,
    alloc: Global,
    workers: usize,
    kept: Kept,
    intake: &mut Intake,
    source: &mut So,
    limit: usize,
    schema: &Schema,
    plan: &RangePlan<'_>,
    options: &SerializeOptions,
    verbatim: &Verbatim,
    piece_size: usize,
    most: Option<usize>,
) -> Result<(Kept, bool), ReadAllFault>
    requires can { CanPrint plan.now schema.now }
    requires verbatim { IsVerbatimOf plan.now schema.now (cell_options options.now) verbatim.now }
    requires size { 0 < piece_size }
    requires within { intake.old.size ≤ limit }
    requires few { IfSome most (λ most. kept.rows ≤ most) }
    ensures printed { (before : Option (List ℕ)) (first : Intake) → HasPrinted plan.now schema.now (cell_options options.now) before (So.left source.old) limit first intake.old kept
        → IfOk result (λ r. HasPrinted plan.now schema.now (cell_options options.now) before (So.left source.new) limit first intake.new r.0) }
    ensures few { IfOk result (λ r. IfSome most (λ most. r.0.rows ≤ most)) }
    ensures too_long { IsErrOf result ReadAllFault.TooLong → IsPastLimit (So.left source.old) (So.left source.new) limit intake.old.size }
    ensures failed { IsErrOf result ReadAllFault.Source → HasStopped (So.left source.old) (So.left source.new) limit intake.old.size }
    ensures cause { IsErrOf result ReadAllFault.Source → Rose (So.faults source.old) (So.faults source.new) }
    ensures later { So.faults source.old ≤ So.faults source.new }
{
    let Ok(cells) = make_shown(alloc, TEXTS) else {
        return Err(ReadAllFault::OutOfMemory);
    };
    print_and_keep::<Brand, W, So>(
        rt, alloc, workers, &cells, kept, intake, source, limit, schema, plan, options, verbatim,
        piece_size, most,
    )
}

// Prints texts of a source by workers, round by round, until it has no more, or one is not printed to its end or has too many rows:
// what is left of that is kept, and what is left of the source is not read.
//
// Refuses as `read_all` does, with those bytes that came before counted in.
fn print_rounds<W: Threads + Wait + Sync, So: Source>(
    rt: &W,
    alloc: Global,
    workers: usize,
    intake: &mut Intake,
    source: &mut So,
    limit: usize,
    schema: &Schema,
    plan: &RangePlan<'_>,
    options: &SerializeOptions,
    verbatim: &Verbatim,
    piece_size: usize,
    most: Option<usize>,
) -> Result<Kept, ReadAllFault>
    requires can { CanPrint plan.now schema.now }
    requires verbatim { IsVerbatimOf plan.now schema.now (cell_options options.now) verbatim.now }
    requires size { 0 < piece_size }
    requires within { intake.old.size ≤ limit }
    requires ended { intake.old.is_ended ≡ true → IsAtEnd (So.left source.old) }
    ensures few { IfOk result (λ kept. IfSome most (λ most. kept.rows ≤ most)) }
    ensures printed { IfOk result (HasPrinted plan.now schema.now (cell_options options.now) (So.left source.old) (So.left source.new) limit intake.old intake.new) }
    ensures too_long { IsErrOf result ReadAllFault.TooLong → IsPastLimit (So.left source.old) (So.left source.new) limit intake.old.size }
    ensures failed { IsErrOf result ReadAllFault.Source → HasStopped (So.left source.old) (So.left source.new) limit intake.old.size }
    ensures cause { IsErrOf result ReadAllFault.Source → Rose (So.faults source.old) (So.faults source.new) }
    ensures later { So.faults source.old ≤ So.faults source.new }
{
    let longest = longest_text(plan);
    let mut kept = Kept::none(alloc);
    for _ in 0..ROUNDS {
        if intake.is_ended() {
            return Ok(kept);
        }
        let size = piece_size.min(longest).max(kept.end / PART);
        let (after, is_all) = print_round(
            rt, alloc, workers, kept, intake, source, limit, schema, plan, options, verbatim, size,
            most,
        )?;
        kept = after;
        if !is_all {
            return Ok(kept);
        }
    }
    Ok(kept)
}

/// Reads texts of a source and prints them, by one worker text by text, by several side by side, until it has no more, or one is not printed to
/// its end or has too many rows: what is left of that is kept, and what is left of the source is not read.
///
/// Refuses as `read_all` does, with those bytes that came before counted in.
pub(crate) fn print_again<W: Threads + Wait + Sync, So: Source>(
    rt: &W,
    alloc: Global,
    workers: usize,
    intake: &mut Intake,
    source: &mut So,
    limit: usize,
    schema: &Schema,
    plan: &RangePlan<'_>,
    options: &SerializeOptions,
    verbatim: &Verbatim,
    piece_size: usize,
    most: Option<usize>,
) -> Result<Kept, ReadAllFault>
    requires can { CanPrint plan.now schema.now }
    requires verbatim { IsVerbatimOf plan.now schema.now (cell_options options.now) verbatim.now }
    requires size { 0 < piece_size }
    requires within { intake.old.size ≤ limit }
    requires ended { intake.old.is_ended ≡ true → IsAtEnd (So.left source.old) }
    ensures few { IfOk result (λ kept. IfSome most (λ most. kept.rows ≤ most)) }
    ensures printed { IfOk result (HasPrinted plan.now schema.now (cell_options options.now) (So.left source.old) (So.left source.new) limit intake.old intake.new) }
    ensures too_long { IsErrOf result ReadAllFault.TooLong → IsPastLimit (So.left source.old) (So.left source.new) limit intake.old.size }
    ensures failed { IsErrOf result ReadAllFault.Source → HasStopped (So.left source.old) (So.left source.new) limit intake.old.size }
    ensures cause { IsErrOf result ReadAllFault.Source → Rose (So.faults source.old) (So.faults source.new) }
    ensures later { So.faults source.old ≤ So.faults source.new }
{
    if workers == 1 {
        return print_in_turn(
            alloc, intake, source, limit, schema, plan, options, verbatim, piece_size, most,
        );
    }
    print_rounds(
        rt, alloc, workers, intake, source, limit, schema, plan, options, verbatim, piece_size,
        most,
    )
}
