//! Texts of a source, printed by workers while those behind them come, whose lines are kept as soon as all before them are.
ghost use Rattle.std.specs.Prelude.{◌≡◌, ◌<◌, ◌≤◌, ℕ, List, Option, true, IfOk, IfSome, OnOk, IsErrOf, length, map};
ghost use Rattle.std.specs.Io.KnownBytes.{IsAtEnd};
ghost use Rattle.std.specs.Thread.{IsSync};
ghost use Rattle.pl_frame.specs.Causes.{Rose};
ghost use Rattle.pl_intake.specs.declared.intake.Intake.{Intake};
ghost use Rattle.pl_intake.specs.Intake.{HasStopped, IsPastLimit};
ghost use Rattle.pl_write.specs.Options.{cell_options};
ghost use Rattle.pl_verbatim.specs.PrintedTexts.{CanPrint};
ghost use Rattle.pl_verbatim.specs.Verbatim.{IsVerbatimOf};
ghost use Rattle.pl_regions.specs.Arriving.{HasInLine, HasPrinted, IsFrontKept};
ghost use Rattle.pl_regions.specs.declared.kept.Kept.{Kept};

use crate::kept::{Kept, print_apart};
use crate::line::Line;
use pl_frame::read_all::ReadAllFault;
use pl_frame::schema::Schema;
use pl_frame::source::Source;
use pl_intake::handed::{Cell, HandedText, Handing};
use pl_intake::intake::Intake;
use pl_intake::pending::hand_next;
use pl_intake::queue::Queue;
use pl_rows::plan::RangePlan;
use pl_verbatim::verbatim::Verbatim;
use pl_write::options::SerializeOptions;
use pl_write::row_printer::RowPrinter;
use std::alloc::Global;
use std::sync::Wait;
use std::thread;
use std::thread::Threads;

// Prints a text and gives its lines back. False where it was not printed to its end or memory is wanting: then nobody takes more texts.
fn print_handed<'a, K: Handing<Kept>, W: Wait>(
    rt: &W,
    alloc: Global,
    queue: &Queue<'a, Kept, K>,
    text: HandedText<'a, Kept, K>,
    printer: &mut RowPrinter,
    schema: &Schema,
    plan: &RangePlan<'_>,
    options: &SerializeOptions,
    verbatim: &Verbatim,
    piece_size: usize,
) -> bool
    requires can { CanPrint plan.now schema.now }
    requires verbatim { IsVerbatimOf plan.now schema.now (cell_options options.now) verbatim.now }
    requires size { 0 < piece_size }
    requires meant { (text : List ℕ) (front : Kept) → IsFrontKept plan.now schema.now (cell_options options.now) text front → K.reads text front }
{
    let bytes = text.as_slice();
    let Ok(front) = print_apart(
        alloc, bytes, printer, schema, plan, options, verbatim, piece_size,
    ) else {
        queue.stop(rt);
        return false;
    };
    let is_whole = front.end == bytes.len();
    if queue.give_back(rt, text.read_as(front)) && is_whole {
        return true;
    }
    queue.stop(rt);
    false
}

// Prints texts that wait, one after another, until no more come, one is not printed to its end or memory is wanting.
fn print_waiting<'a, K: Handing<Kept>, W: Wait>(
    rt: &W,
    alloc: Global,
    queue: &Queue<'a, Kept, K>,
    schema: &Schema,
    plan: &RangePlan<'_>,
    options: &SerializeOptions,
    verbatim: &Verbatim,
    piece_size: usize,
)
    requires can { CanPrint plan.now schema.now }
    requires verbatim { IsVerbatimOf plan.now schema.now (cell_options options.now) verbatim.now }
    requires size { 0 < piece_size }
    requires meant { (text : List ℕ) (front : Kept) → IsFrontKept plan.now schema.now (cell_options options.now) text front → K.reads text front }
{
    let Ok(mut printer) = RowPrinter::new(alloc) else {
        return;
    };
    for _ in rt.forever() {
        let Some(text) = queue.take(rt) else {
            return;
        };
        if !print_handed(
            rt,
            alloc,
            queue,
            text,
            &mut printer,
            schema,
            plan,
            options,
            verbatim,
            piece_size,
        ) {
            return;
        }
    }
}

// Reads the texts of a source behind the first one and hands them out, prints texts as others do where one waits for each worker or no more come,
// and keeps the lines of those that were printed.
fn hand_and_print<'a, K: Handing<Kept>, W: Wait, So: Source>(
    rt: &W,
    alloc: Global,
    workers: usize,
    cells: &'a [Cell],
    queue: &Queue<'a, Kept, K>,
    line: &mut Line<'a, K>,
    intake: &mut Intake,
    source: &mut So,
    limit: usize,
    schema: &Schema,
    plan: &RangePlan<'_>,
    options: &SerializeOptions,
    verbatim: &Verbatim,
    piece_size: usize,
    most: Option<usize>,
) -> Result<(), ReadAllFault>
    requires can { CanPrint plan.now schema.now }
    requires verbatim { IsVerbatimOf plan.now schema.now (cell_options options.now) verbatim.now }
    requires size { 0 < piece_size }
    requires names { map (λ cell. cell.id) cells.now ≡ K.names }
    requires meant { (text : List ℕ) (front : Kept) → IsFrontKept plan.now schema.now (cell_options options.now) text front → K.reads text front }
    requires means { (text : List ℕ) (front : Kept) → K.reads text front → IsFrontKept plan.now schema.now (cell_options options.now) text front }
    requires within { intake.old.size ≤ limit }
    requires ended { intake.old.is_ended ≡ true → IsAtEnd (So.left source.old) }
    requires few { IfSome most (λ most. line.old.kept.rows ≤ most) }
    ensures line { (before : Option (List ℕ)) (first : Intake) → HasInLine plan.now schema.now (cell_options options.now) before (So.left source.old) limit first intake.old line.old.kept line.old.left.items line.old.pending
        → OnOk result (HasInLine plan.now schema.now (cell_options options.now) before (So.left source.new) limit first intake.new line.new.kept line.new.left.items line.new.pending) }
    ensures few { OnOk result (IfSome most (λ most. line.new.kept.rows ≤ most)) }
    ensures too_long { IsErrOf result ReadAllFault.TooLong → IsPastLimit (So.left source.old) (So.left source.new) limit intake.old.size }
    ensures failed { IsErrOf result ReadAllFault.Source → HasStopped (So.left source.old) (So.left source.new) limit intake.old.size }
    ensures cause { IsErrOf result ReadAllFault.Source → Rose (So.faults source.old) (So.faults source.new) }
    ensures later { So.faults source.old ≤ So.faults source.new }
{
    let Ok(mut printer) = RowPrinter::new(alloc) else {
        return Err(ReadAllFault::OutOfMemory);
    };
    let mut place = 1;
    let mut is_open = true;
    for _ in rt.forever() {
        let Ok(()) = line.keep(alloc, queue.collect(rt, alloc), most) else {
            return Err(ReadAllFault::OutOfMemory);
        };
        if !line.left.is_empty() {
            queue.stop(rt);
            return Ok(());
        }
        if is_open && (intake.is_ended() || place >= cells.len() || queue.is_closed(rt)) {
            queue.close(rt);
            is_open = false;
        }
        if is_open && place < cells.len() && queue.len(rt) < workers {
            hand_next(
                rt,
                alloc,
                cells,
                place,
                queue,
                &mut line.pending,
                intake,
                source,
                limit,
                &plan.dialect,
                plan.projection.width,
                piece_size,
            )?;
            place += 1;
        } else if let Some(text) = queue.take_now(rt) {
            if !print_handed(
                rt,
                alloc,
                queue,
                text,
                &mut printer,
                schema,
                plan,
                options,
                verbatim,
                piece_size,
            ) {
                return Ok(());
            }
        } else if !is_open {
            return Ok(());
        }
    }
    unreachable!()
}

// Cells, texts that wait, and texts in their order.
#[derive(Drop)]
struct Printing<'q, 'a, K: Handing<Kept>> {
    cells: &'a [Cell],
    queue: &'q Queue<'a, Kept, K>,
    line: Line<'a, K>,
}

// Starts `to_start` workers, one after another, that do some work, and then hands texts out and prints texts as they do. Who hands them out starts
// all: where a worker starts others, they often share its processor. Where it refuses, nobody takes more texts.
#[cycle(start)]
fn start_and_print<
    'q,
    'a,
    K: Handing<Kept> + Send + Sync,
    W: Threads + Wait + Sync,
    So: Source,
    F: Fn() + Sync,
>(
    rt: &W,
    alloc: Global,
    to_start: usize,
    workers: usize,
    work: &F,
    printing: &mut Printing<'q, 'a, K>,
    intake: &mut Intake,
    source: &mut So,
    limit: usize,
    schema: &Schema,
    plan: &RangePlan<'_>,
    options: &SerializeOptions,
    verbatim: &Verbatim,
    piece_size: usize,
    most: Option<usize>,
) -> Result<(), ReadAllFault>
    requires work { F.IsAlwaysCallable work.now }
    requires can { CanPrint plan.now schema.now }
    requires verbatim { IsVerbatimOf plan.now schema.now (cell_options options.now) verbatim.now }
    requires size { 0 < piece_size }
    requires names { map (λ cell. cell.id) printing.old.cells.now ≡ K.names }
    requires meant { (text : List ℕ) (front : Kept) → IsFrontKept plan.now schema.now (cell_options options.now) text front → K.reads text front }
    requires means { (text : List ℕ) (front : Kept) → K.reads text front → IsFrontKept plan.now schema.now (cell_options options.now) text front }
    requires within { intake.old.size ≤ limit }
    requires ended { intake.old.is_ended ≡ true → IsAtEnd (So.left source.old) }
    requires few { IfSome most (λ most. printing.old.line.kept.rows ≤ most) }
    ensures line { (before : Option (List ℕ)) (first : Intake) → HasInLine plan.now schema.now (cell_options options.now) before (So.left source.old) limit first intake.old printing.old.line.kept printing.old.line.left.items printing.old.line.pending
        → OnOk result (HasInLine plan.now schema.now (cell_options options.now) before (So.left source.new) limit first intake.new printing.new.line.kept printing.new.line.left.items printing.new.line.pending) }
    ensures few { OnOk result (IfSome most (λ most. printing.new.line.kept.rows ≤ most)) }
    ensures too_long { IsErrOf result ReadAllFault.TooLong → IsPastLimit (So.left source.old) (So.left source.new) limit intake.old.size }
    ensures failed { IsErrOf result ReadAllFault.Source → HasStopped (So.left source.old) (So.left source.new) limit intake.old.size }
    ensures cause { IsErrOf result ReadAllFault.Source → Rose (So.faults source.old) (So.faults source.new) }
    ensures later { So.faults source.old ≤ So.faults source.new }
{
    if to_start == 0 {
        let queue = printing.queue;
        let handed = hand_and_print(
            rt,
            alloc,
            workers,
            printing.cells,
            queue,
            &mut printing.line,
            intake,
            source,
            limit,
            schema,
            plan,
            options,
            verbatim,
            piece_size,
            most,
        );
        if handed.is_err() {
            queue.stop(rt);
        }
        return handed;
    }
    let mut take = || -> ()
        requires work { F.IsAlwaysCallable work.now }
    { work() };
    let mut print = || -> Result<(), ReadAllFault>
        requires sync { IsSync W.row }
        requires work { F.IsAlwaysCallable work.now }
        requires can { CanPrint plan.now schema.now }
        requires verbatim { IsVerbatimOf plan.now schema.now (cell_options options.now) verbatim.now }
        requires size { 0 < piece_size }
        requires names { map (λ cell. cell.id) printing.now.cells.now ≡ K.names }
        requires meant { (text : List ℕ) (front : Kept) → IsFrontKept plan.now schema.now (cell_options options.now) text front → K.reads text front }
        requires means { (text : List ℕ) (front : Kept) → K.reads text front → IsFrontKept plan.now schema.now (cell_options options.now) text front }
        requires within { intake.now.size ≤ limit }
        requires ended { intake.now.is_ended ≡ true → IsAtEnd (So.left source.now) }
        requires few { IfSome most (λ most. printing.now.line.kept.rows ≤ most) }
        requires more { 0 < to_start }
        ensures line { (before : Option (List ℕ)) (first : Intake) → HasInLine plan.entry.now schema.entry.now (cell_options options.entry.now) before (So.left source.entry.now) limit first intake.entry.now printing.entry.now.line.kept printing.entry.now.line.left.items printing.entry.now.line.pending
            → OnOk result (HasInLine plan.entry.now schema.entry.now (cell_options options.entry.now) before (So.left source.exit.now) limit first intake.exit.now printing.exit.now.line.kept printing.exit.now.line.left.items printing.exit.now.line.pending) }
        ensures few { OnOk result (IfSome most (λ most. printing.exit.now.line.kept.rows ≤ most)) }
        ensures too_long { IsErrOf result ReadAllFault.TooLong → IsPastLimit (So.left source.entry.now) (So.left source.exit.now) limit intake.entry.now.size }
        ensures failed { IsErrOf result ReadAllFault.Source → HasStopped (So.left source.entry.now) (So.left source.exit.now) limit intake.entry.now.size }
        ensures cause { IsErrOf result ReadAllFault.Source → Rose (So.faults source.entry.now) (So.faults source.exit.now) }
        ensures later { So.faults source.entry.now ≤ So.faults source.exit.now }
    {
        start_and_print(
            rt,
            alloc,
            to_start - 1,
            workers,
            work,
            printing,
            intake,
            source,
            limit,
            schema,
            plan,
            options,
            verbatim,
            piece_size,
            most,
        )
    };
    let (_, printed) = thread::join_mut(rt, &mut take, &mut print);
    printed
}

// Prints texts of a source by workers and keeps their lines. The other workers start after the first text, where that is not all.
fn print_in_line<'q, 'a, K: Handing<Kept> + Send + Sync, W: Threads + Wait + Sync, So: Source>(
    rt: &W,
    alloc: Global,
    workers: usize,
    cells: &'a [Cell],
    queue: &'q Queue<'a, Kept, K>,
    line: Line<'a, K>,
    intake: &mut Intake,
    source: &mut So,
    limit: usize,
    schema: &Schema,
    plan: &RangePlan<'_>,
    options: &SerializeOptions,
    verbatim: &Verbatim,
    piece_size: usize,
    most: Option<usize>,
) -> Result<Line<'a, K>, ReadAllFault>
    requires can { CanPrint plan.now schema.now }
    requires verbatim { IsVerbatimOf plan.now schema.now (cell_options options.now) verbatim.now }
    requires size { 0 < piece_size }
    requires names { map (λ cell. cell.id) cells.now ≡ K.names }
    requires some { 0 < length cells.now }
    requires meant { (text : List ℕ) (front : Kept) → IsFrontKept plan.now schema.now (cell_options options.now) text front → K.reads text front }
    requires means { (text : List ℕ) (front : Kept) → K.reads text front → IsFrontKept plan.now schema.now (cell_options options.now) text front }
    requires within { intake.old.size ≤ limit }
    requires few { IfSome most (λ most. line.kept.rows ≤ most) }
    ensures line { (before : Option (List ℕ)) (first : Intake) → HasInLine plan.now schema.now (cell_options options.now) before (So.left source.old) limit first intake.old line.entry.kept line.entry.left.items line.entry.pending
        → IfOk result (λ line. HasInLine plan.now schema.now (cell_options options.now) before (So.left source.new) limit first intake.new line.kept line.left.items line.pending) }
    ensures few { IfOk result (λ line. IfSome most (λ most. line.kept.rows ≤ most)) }
    ensures too_long { IsErrOf result ReadAllFault.TooLong → IsPastLimit (So.left source.old) (So.left source.new) limit intake.old.size }
    ensures failed { IsErrOf result ReadAllFault.Source → HasStopped (So.left source.old) (So.left source.new) limit intake.old.size }
    ensures cause { IsErrOf result ReadAllFault.Source → Rose (So.faults source.old) (So.faults source.new) }
    ensures later { So.faults source.old ≤ So.faults source.new }
{
    let mut line = line;
    hand_next(
        rt,
        alloc,
        cells,
        0,
        queue,
        &mut line.pending,
        intake,
        source,
        limit,
        &plan.dialect,
        plan.projection.width,
        piece_size,
    )?;
    let others = if intake.is_ended() {
        0
    } else {
        workers.saturating_sub(1)
    };
    let work = || -> ()
        requires can { CanPrint plan.now schema.now }
        requires verbatim { IsVerbatimOf plan.now schema.now (cell_options options.now) verbatim.now }
        requires size { 0 < piece_size }
        requires meant { (text : List ℕ) (front : Kept) → IsFrontKept plan.now schema.now (cell_options options.now) text front → K.reads text front }
    {
        print_waiting(
            rt, alloc, queue, schema, plan, options, verbatim, piece_size,
        )
    };
    let mut printing = Printing { cells, queue, line };
    start_and_print(
        rt,
        alloc,
        others,
        workers,
        &work,
        &mut printing,
        intake,
        source,
        limit,
        schema,
        plan,
        options,
        verbatim,
        piece_size,
        most,
    )?;
    let Printing {
        cells: _,
        queue: _,
        mut line,
    } = printing;
    match line.keep(alloc, queue.collect(rt, alloc), most) {
        Ok(()) => Ok(line),
        Err(_) => Err(ReadAllFault::OutOfMemory),
    }
}

/// Prints texts of a source by workers and keeps their lines behind those that are kept, but no more rows than a number, if there is one. Who calls it
/// reads the source; the other workers start after the first text, where that is not all. What is not kept is taken back. Tells whether there is none.
///
/// Refuses as `read_all` does, with those bytes that came before counted in.
pub(crate) fn print_and_keep<K: Handing<Kept> + Send + Sync, W: Threads + Wait + Sync, So: Source>(
    rt: &W,
    alloc: Global,
    workers: usize,
    cells: &[Cell],
    kept: Kept,
    intake: &mut Intake,
    source: &mut So,
    limit: usize,
    schema: &Schema,
    plan: &RangePlan<'_>,
    options: &SerializeOptions,
    verbatim: &Verbatim,
    piece_size: usize,
    most: Option<usize>,
) -> Result<(Kept, bool), ReadAllFault>
    requires can { CanPrint plan.now schema.now }
    requires verbatim { IsVerbatimOf plan.now schema.now (cell_options options.now) verbatim.now }
    requires size { 0 < piece_size }
    requires names { map (λ cell. cell.id) cells.now ≡ K.names }
    requires some { 0 < length cells.now }
    requires meant { (text : List ℕ) (front : Kept) → IsFrontKept plan.now schema.now (cell_options options.now) text front → K.reads text front }
    requires means { (text : List ℕ) (front : Kept) → K.reads text front → IsFrontKept plan.now schema.now (cell_options options.now) text front }
    requires within { intake.old.size ≤ limit }
    requires few { IfSome most (λ most. kept.rows ≤ most) }
    ensures printed { (before : Option (List ℕ)) (first : Intake) → HasPrinted plan.now schema.now (cell_options options.now) before (So.left source.old) limit first intake.old kept
        → IfOk result (λ r. HasPrinted plan.now schema.now (cell_options options.now) before (So.left source.new) limit first intake.new r.0) }
    ensures few { IfOk result (λ r. IfSome most (λ most. r.0.rows ≤ most)) }
    ensures too_long { IsErrOf result ReadAllFault.TooLong → IsPastLimit (So.left source.old) (So.left source.new) limit intake.old.size }
    ensures failed { IsErrOf result ReadAllFault.Source → HasStopped (So.left source.old) (So.left source.new) limit intake.old.size }
    ensures cause { IsErrOf result ReadAllFault.Source → Rose (So.faults source.old) (So.faults source.new) }
    ensures later { So.faults source.old ≤ So.faults source.new }
{
    let queue = Queue::new(alloc);
    let line = Line::<K>::new(alloc, kept);
    let line = print_in_line(
        rt, alloc, workers, cells, &queue, line, intake, source, limit, schema, plan, options,
        verbatim, piece_size, most,
    )?;
    drop(queue);
    match line.put_back(alloc, intake) {
        Ok(answer) => Ok(answer),
        Err(_) => Err(ReadAllFault::OutOfMemory),
    }
}
