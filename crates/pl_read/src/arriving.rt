//! Texts of a source, read into columns by workers while those behind them come, and linked as soon as all before them are.
ghost use Rattle.std.specs.Prelude.{◌≡◌, ◌++◌, ◌-◌, ◌<◌, ◌≤◌, ◌^◌, ℕ, List, Option, OnOk, IfOk, IfSome, IsErrOf, length, map};
ghost use Rattle.std.specs.List.{concat};
ghost use Rattle.std.specs.Thread.{IsSync};
ghost use Rattle.pl_frame.specs.Came.{IsReadOn};
ghost use Rattle.pl_frame.specs.Causes.{Rose};
ghost use Rattle.pl_cells.specs.InitBuffers.{empty_buffers};
ghost use Rattle.pl_intake.specs.declared.intake.Intake.{Intake};
ghost use Rattle.pl_read.specs.Arriving.{CanTake, IsLinked, IsLinkedUpTo, HasInLine, HasLinked};
ghost use Rattle.pl_rows.specs.declared.whole_pieces.PieceFrame.{PieceFrame};
ghost use Rattle.pl_rows.specs.Plan.{states};
ghost use Rattle.pl_rows.specs.WholePieces.{IsPieceFrame};

use crate::line::Line;
use crate::linked::Linked;
use pl_cells::buffer::Buffer;
use pl_frame::read_all::ReadAllFault;
use pl_frame::schema::Schema;
use pl_frame::source::Source;
use pl_intake::handed::{Cell, HandedText, Handing, ReadText};
use pl_intake::intake::Intake;
use pl_intake::pending::hand_next;
use pl_intake::queue::Queue;
use pl_rows::columns::empty_buffers;
use pl_rows::plan::RangePlan;
use pl_rows::whole_pieces::{PieceFrame, read_packed};
use std::alloc::Global;
use std::sync::Wait;
use std::thread;
use std::thread::Threads;

// Reads a text by buffers that have no cells, and are left so. None where it can't be read apart, or memory is wanting.
fn read_text<'a, K: Handing<PieceFrame>>(
    alloc: Global,
    text: HandedText<'a, PieceFrame, K>,
    buffers: &mut [Buffer],
    schema: &Schema,
    plan: &RangePlan<'_>,
) -> Option<ReadText<'a, PieceFrame, K>>
    requires can { CanTake plan.now schema.now }
    requires empty { states buffers.old ≡ empty_buffers plan.now.dialect.quote_char plan.now.options.encoding schema.now plan.now.projection.places.now }
    requires meant { (text : List ℕ) (read : PieceFrame) → IsPieceFrame plan.now schema.now text read → K.reads text read }
    ensures { IfSome result (λ _. states buffers.new ≡ states buffers.old) }
{
    match read_packed(alloc, buffers, schema, text.as_slice(), plan) {
        Ok(Some(read)) => Some(text.read_as(read)),
        _ => None,
    }
}

// Reads texts that wait, one after another, until no more come, one can't be read apart or memory is wanting. After one that can't be read apart
// nobody takes more.
fn read_waiting<'a, K: Handing<PieceFrame>, W: Wait>(
    rt: &W,
    alloc: Global,
    queue: &Queue<'a, PieceFrame, K>,
    schema: &Schema,
    plan: &RangePlan<'_>,
)
    requires can { CanTake plan.now schema.now }
    requires meant { (text : List ℕ) (read : PieceFrame) → IsPieceFrame plan.now schema.now text read → K.reads text read }
{
    let places = plan.projection.places;
    let quote_char = plan.dialect.quote_char;
    let Ok(mut buffers) = empty_buffers(alloc, schema, places, quote_char, plan.options.encoding)
    else {
        return;
    };
    for _ in rt.forever() {
        let Some(text) = queue.take(rt) else {
            return;
        };
        let Some(read) = read_text(alloc, text, &mut buffers, schema, plan) else {
            queue.stop(rt);
            return;
        };
        if !queue.give_back(rt, read) {
            queue.stop(rt);
            return;
        }
    }
}

// Reads the texts of a source behind the first one and hands them out, reads texts as others do where one waits for each worker or no more come,
// and links what was read.
fn hand_and_read<'a, K: Handing<PieceFrame>, W: Wait, So: Source>(
    rt: &W,
    alloc: Global,
    workers: usize,
    cells: &'a [Cell],
    queue: &Queue<'a, PieceFrame, K>,
    line: &mut Line<'a, K>,
    intake: &mut Intake,
    source: &mut So,
    schema: &Schema,
    plan: &RangePlan<'_>,
    piece_size: usize,
) -> Result<(), ReadAllFault>
    requires can { CanTake plan.now schema.now }
    requires names { map (λ cell. cell.id) cells.now ≡ K.names }
    requires meant { (text : List ℕ) (read : PieceFrame) → IsPieceFrame plan.now schema.now text read → K.reads text read }
    requires means { (text : List ℕ) (read : PieceFrame) → K.reads text read → IsPieceFrame plan.now schema.now text read }
    requires within { intake.old.size ≤ 2 ^ 64 - 1 }
    requires line { (text : List ℕ) × IsLinkedUpTo plan.now schema.now text (line.old.left.items ++ concat line.old.pending) line.old.linked }
    ensures line { (before : Option (List ℕ)) (first : Intake) → HasInLine plan.now schema.now before (So.left source.old) first intake.old line.old.linked line.old.left.items line.old.pending
        → OnOk result (HasInLine plan.now schema.now before (So.left source.new) first intake.new line.new.linked line.new.left.items line.new.pending) }
    ensures some { OnOk result ((text : List ℕ) × IsLinkedUpTo plan.now schema.now text (line.new.left.items ++ concat line.new.pending) line.new.linked) }
    ensures cause { IsErrOf result ReadAllFault.Source → Rose (So.faults source.old) (So.faults source.new) }
    ensures read_on { IsReadOn (So.left source.old) (So.left source.new) }
    ensures later { So.faults source.old ≤ So.faults source.new }
{
    let places = plan.projection.places;
    let quote_char = plan.dialect.quote_char;
    let Ok(mut buffers) = empty_buffers(alloc, schema, places, quote_char, plan.options.encoding)
    else {
        return Err(ReadAllFault::OutOfMemory);
    };
    let mut place = 1;
    let mut is_open = true;
    for _ in rt.forever() {
        line.pending.keep(queue.collect(rt, alloc));
        if line.link(alloc, schema, plan).is_err() {
            return Err(ReadAllFault::OutOfMemory);
        }
        if is_open && (intake.is_ended() || place >= cells.len() || queue.is_closed(rt)) {
            queue.close(rt);
            is_open = false;
        }
        if is_open && place < cells.len() && queue.len(rt) < workers {
            hand_next(
                rt,
                alloc,
                cells,
                place,
                queue,
                &mut line.pending,
                intake,
                source,
                usize::MAX,
                &plan.dialect,
                plan.projection.width,
                piece_size,
            )?;
            place += 1;
        } else if let Some(text) = queue.take_now(rt) {
            let Some(read) = read_text(alloc, text, &mut buffers, schema, plan) else {
                queue.stop(rt);
                return Ok(());
            };
            if !queue.give_back(rt, read) {
                return Err(ReadAllFault::OutOfMemory);
            }
        } else if !is_open {
            return Ok(());
        }
    }
    unreachable!()
}

// Cells, texts that wait, and texts in their order.
#[derive(Drop)]
struct Reading<'q, 'a, K: Handing<PieceFrame>> {
    cells: &'a [Cell],
    queue: &'q Queue<'a, PieceFrame, K>,
    line: Line<'a, K>,
}

// Starts `to_start` workers, one after another, that do some work, and then hands texts out and reads texts as they do. Who hands them out starts
// all: where a worker starts others, they often share its processor. Where it refuses, nobody takes more texts.
#[cycle(start)]
fn start_and_read<
    'q,
    'a,
    K: Handing<PieceFrame> + Send + Sync,
    W: Threads + Wait + Sync,
    So: Source,
    F: Fn() + Sync,
>(
    rt: &W,
    alloc: Global,
    to_start: usize,
    workers: usize,
    work: &F,
    reading: &mut Reading<'q, 'a, K>,
    intake: &mut Intake,
    source: &mut So,
    schema: &Schema,
    plan: &RangePlan<'_>,
    piece_size: usize,
) -> Result<(), ReadAllFault>
    requires work { F.IsAlwaysCallable work.now }
    requires can { CanTake plan.now schema.now }
    requires names { map (λ cell. cell.id) reading.old.cells.now ≡ K.names }
    requires meant { (text : List ℕ) (read : PieceFrame) → IsPieceFrame plan.now schema.now text read → K.reads text read }
    requires means { (text : List ℕ) (read : PieceFrame) → K.reads text read → IsPieceFrame plan.now schema.now text read }
    requires within { intake.old.size ≤ 2 ^ 64 - 1 }
    requires line { (text : List ℕ) × IsLinkedUpTo plan.now schema.now text (reading.old.line.left.items ++ concat reading.old.line.pending) reading.old.line.linked }
    ensures line { (before : Option (List ℕ)) (first : Intake) → HasInLine plan.now schema.now before (So.left source.old) first intake.old reading.old.line.linked reading.old.line.left.items reading.old.line.pending
        → OnOk result (HasInLine plan.now schema.now before (So.left source.new) first intake.new reading.new.line.linked reading.new.line.left.items reading.new.line.pending) }
    ensures some { OnOk result ((text : List ℕ) × IsLinkedUpTo plan.now schema.now text (reading.new.line.left.items ++ concat reading.new.line.pending) reading.new.line.linked) }
    ensures cause { IsErrOf result ReadAllFault.Source → Rose (So.faults source.old) (So.faults source.new) }
    ensures read_on { IsReadOn (So.left source.old) (So.left source.new) }
    ensures later { So.faults source.old ≤ So.faults source.new }
{
    if to_start == 0 {
        let queue = reading.queue;
        let handed = hand_and_read(
            rt,
            alloc,
            workers,
            reading.cells,
            queue,
            &mut reading.line,
            intake,
            source,
            schema,
            plan,
            piece_size,
        );
        if handed.is_err() {
            queue.stop(rt);
        }
        return handed;
    }
    let mut take = || -> ()
        requires work { F.IsAlwaysCallable work.now }
    { work() };
    let mut read = || -> Result<(), ReadAllFault>
        requires sync { IsSync W.row }
        requires work { F.IsAlwaysCallable work.now }
        requires can { CanTake plan.now schema.now }
        requires names { map (λ cell. cell.id) reading.now.cells.now ≡ K.names }
        requires meant { (text : List ℕ) (read : PieceFrame) → IsPieceFrame plan.now schema.now text read → K.reads text read }
        requires means { (text : List ℕ) (read : PieceFrame) → K.reads text read → IsPieceFrame plan.now schema.now text read }
        requires within { intake.now.size ≤ 2 ^ 64 - 1 }
        requires line { (text : List ℕ) × IsLinkedUpTo plan.now schema.now text (reading.now.line.left.items ++ concat reading.now.line.pending) reading.now.line.linked }
        requires more { 0 < to_start }
        ensures line { (before : Option (List ℕ)) (first : Intake) → HasInLine plan.entry.now schema.entry.now before (So.left source.entry.now) first intake.entry.now reading.entry.now.line.linked reading.entry.now.line.left.items reading.entry.now.line.pending
            → OnOk result (HasInLine plan.entry.now schema.entry.now before (So.left source.exit.now) first intake.exit.now reading.exit.now.line.linked reading.exit.now.line.left.items reading.exit.now.line.pending) }
        ensures some { OnOk result ((text : List ℕ) × IsLinkedUpTo plan.entry.now schema.entry.now text (reading.exit.now.line.left.items ++ concat reading.exit.now.line.pending) reading.exit.now.line.linked) }
        ensures cause { IsErrOf result ReadAllFault.Source → Rose (So.faults source.entry.now) (So.faults source.exit.now) }
        ensures read_on { IsReadOn (So.left source.entry.now) (So.left source.exit.now) }
        ensures later { So.faults source.entry.now ≤ So.faults source.exit.now }
    {
        start_and_read(
            rt,
            alloc,
            to_start - 1,
            workers,
            work,
            reading,
            intake,
            source,
            schema,
            plan,
            piece_size,
        )
    };
    let (_, read) = thread::join_mut(rt, &mut take, &mut read);
    read
}

// Reads texts of a source by workers and links them. The other workers start after the first text, where that is not all.
fn read_in_line<'q, 'a, K: Handing<PieceFrame> + Send + Sync, W: Threads + Wait + Sync, So: Source>(
    rt: &W,
    alloc: Global,
    workers: usize,
    cells: &'a [Cell],
    queue: &'q Queue<'a, PieceFrame, K>,
    line: Line<'a, K>,
    intake: &mut Intake,
    source: &mut So,
    schema: &Schema,
    plan: &RangePlan<'_>,
    piece_size: usize,
) -> Result<Line<'a, K>, ReadAllFault>
    requires can { CanTake plan.now schema.now }
    requires names { map (λ cell. cell.id) cells.now ≡ K.names }
    requires some { 0 < length cells.now }
    requires meant { (text : List ℕ) (read : PieceFrame) → IsPieceFrame plan.now schema.now text read → K.reads text read }
    requires means { (text : List ℕ) (read : PieceFrame) → K.reads text read → IsPieceFrame plan.now schema.now text read }
    requires within { intake.old.size ≤ 2 ^ 64 - 1 }
    requires line { (text : List ℕ) × IsLinkedUpTo plan.now schema.now text (line.left.items ++ concat line.pending) line.linked }
    ensures line { (before : Option (List ℕ)) (first : Intake) → HasInLine plan.now schema.now before (So.left source.old) first intake.old line.entry.linked line.entry.left.items line.entry.pending
        → IfOk result (λ line. HasInLine plan.now schema.now before (So.left source.new) first intake.new line.linked line.left.items line.pending) }
    ensures cause { IsErrOf result ReadAllFault.Source → Rose (So.faults source.old) (So.faults source.new) }
    ensures read_on { IsReadOn (So.left source.old) (So.left source.new) }
    ensures later { So.faults source.old ≤ So.faults source.new }
{
    let mut line = line;
    hand_next(
        rt,
        alloc,
        cells,
        0,
        queue,
        &mut line.pending,
        intake,
        source,
        usize::MAX,
        &plan.dialect,
        plan.projection.width,
        piece_size,
    )?;
    let others = if intake.is_ended() {
        0
    } else {
        workers.saturating_sub(1)
    };
    let work = || -> ()
        requires can { CanTake plan.now schema.now }
        requires meant { (text : List ℕ) (read : PieceFrame) → IsPieceFrame plan.now schema.now text read → K.reads text read }
    { read_waiting(rt, alloc, queue, schema, plan) };
    let mut reading = Reading { cells, queue, line };
    start_and_read(
        rt,
        alloc,
        others,
        workers,
        &work,
        &mut reading,
        intake,
        source,
        schema,
        plan,
        piece_size,
    )?;
    let Reading {
        cells: _,
        queue: _,
        mut line,
    } = reading;
    line.pending.keep(queue.collect(rt, alloc));
    match line.link(alloc, schema, plan) {
        Ok(()) => Ok(line),
        Err(_) => Err(ReadAllFault::OutOfMemory),
    }
}

/// Reads texts of a source by workers and links them, behind what is linked. Who calls it reads the source; the other workers start after the first
/// text, where that is not all. What can't be linked is taken back. Tells whether there is none.
///
/// Refuses a source that fails, and want of memory.
pub(crate) fn read_and_link<
    K: Handing<PieceFrame> + Send + Sync,
    W: Threads + Wait + Sync,
    So: Source,
>(
    rt: &W,
    alloc: Global,
    workers: usize,
    cells: &[Cell],
    linked: Linked,
    intake: &mut Intake,
    source: &mut So,
    schema: &Schema,
    plan: &RangePlan<'_>,
    piece_size: usize,
) -> Result<(Linked, bool), ReadAllFault>
    requires can { CanTake plan.now schema.now }
    requires names { map (λ cell. cell.id) cells.now ≡ K.names }
    requires some { 0 < length cells.now }
    requires meant { (text : List ℕ) (read : PieceFrame) → IsPieceFrame plan.now schema.now text read → K.reads text read }
    requires means { (text : List ℕ) (read : PieceFrame) → K.reads text read → IsPieceFrame plan.now schema.now text read }
    requires within { intake.old.size ≤ 2 ^ 64 - 1 }
    requires linked { (before : List ℕ) × IsLinked plan.now schema.now before linked }
    ensures linked { (before : Option (List ℕ)) (first : Intake) → HasLinked plan.now schema.now before (So.left source.old) first intake.old linked
        → IfOk result (λ r. HasLinked plan.now schema.now before (So.left source.new) first intake.new r.0) }
    ensures cause { IsErrOf result ReadAllFault.Source → Rose (So.faults source.old) (So.faults source.new) }
    ensures read_on { IsReadOn (So.left source.old) (So.left source.new) }
    ensures later { So.faults source.old ≤ So.faults source.new }
{
    let queue = Queue::new(alloc);
    let line = Line::<K>::new(alloc, linked);
    let line = read_in_line(
        rt, alloc, workers, cells, &queue, line, intake, source, schema, plan, piece_size,
    )?;
    drop(queue);
    match line.put_back(alloc, intake) {
        Ok(answer) => Ok(answer),
        Err(_) => Err(ReadAllFault::OutOfMemory),
    }
}
