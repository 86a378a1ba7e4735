//! The records of a source, read and printed by workers while the source is read.
ghost use Rattle.std.specs.Prelude.{◌≡◌, ◌<◌, ◌≤◌, ◌^◌, ℕ, List, true, false, IfOk, IfSome, IsErrOf, length};
ghost use Rattle.pl_intake.specs.declared.intake.Intake.{Intake};
ghost use Rattle.std.specs.Io.KnownBytes.{IsAtEnd};
ghost use Rattle.pl_frame.specs.Causes.{Rose};
ghost use Rattle.pl_write.specs.Options.{cell_options};
ghost use Rattle.pl_verbatim.specs.PrintedTexts.{CanPrint};
ghost use Rattle.pl_verbatim.specs.Verbatim.{IsVerbatimOf};
ghost use Rattle.pl_intake.specs.Intake.{HasStopped, IsPastLimit};
ghost use Rattle.pl_regions.specs.Arriving.{HasAllCome, HasArrived, IsFrontArrived};
ghost use Rattle.pl_regions.specs.Limits.{without_limit};
ghost use Rattle.pl_regions.specs.Printing.{IsPrinted};

use crate::beside::{front_decided, read_and_print};
use crate::first_rows::{print_rows, print_rows_left};
use crate::front::{look_at, make_room};
use crate::kept::{Arrived, front_of_kept};
use crate::limits::without_limit;
use crate::printing::PrintedRows;
use crate::rounds::print_again;
use pl_frame::read_all::ReadAllFault;
use pl_frame::schema::Schema;
use pl_frame::source::Source;
use pl_intake::intake::Intake;
use pl_intake::rooms::Rooms;
use pl_rows::plan::RangePlan;
use pl_verbatim::verbatim::Verbatim;
use pl_write::options::SerializeOptions;
use std::alloc::{AllocError, Global};
use std::sync::{Mutex, OnceLock, Wait};
use std::thread::Threads;

// A limit of rows is near, where records of this many times the first bytes seem to reach it.
const NEAR: usize = 16;

// Prints what is left of what came, which is put into a cell of its own. Refuses want of memory, and so where the cell holds something.
fn print_left<'a, W: Threads + Wait + Sync>(
    rt: &W,
    alloc: Global,
    workers: usize,
    last: &'a OnceLock<Vec<u8>>,
    arrived: Arrived<'a>,
    schema: &Schema,
    plan: &RangePlan<'_>,
    options: &SerializeOptions,
    piece_size: usize,
) -> Result<PrintedRows<'a>, AllocError>
    requires workers { 0 < workers }
    requires can { CanPrint (without_limit plan.now) schema.now }
    requires last { plan.now.last ≡ true }
    requires size { 0 < piece_size }
    requires few { IfSome plan.now.limit (λ limit. arrived.front.rows ≤ limit) }
    requires left { (records : List ℕ) × (length records < 2 ^ 64) × IsFrontArrived plan.now schema.now (cell_options options.now) records arrived }
    ensures { (records : List ℕ) → length records < 2 ^ 64 → IsFrontArrived plan.now schema.now (cell_options options.now) records arrived.entry
        → IfOk result (IsPrinted plan.now schema.now (cell_options options.now) records) }
{
    let Arrived { front, left } = arrived;
    let Ok(token) = last.set(rt, left) else {
        return Err(AllocError);
    };
    let left = last.value(&token).as_slice();
    print_rows_left(
        rt, alloc, workers, front, left, schema, plan, options, piece_size,
    )
}

// Reads the texts of a source into cells, and prints them meanwhile. Answers what came, and what shows that of a front of the cells.
//
// Refuses as `read_all` does, with those bytes that came before counted in.
fn print_lent<'a, W: Threads + Wait + Sync, So: Source>(
    rt: &W,
    alloc: Global,
    workers: usize,
    cells: &'a [OnceLock<Vec<u8>>],
    intake: &mut Intake,
    source: &mut So,
    limit: usize,
    schema: &Schema,
    plan: &RangePlan<'_>,
    options: &SerializeOptions,
    verbatim: &Verbatim,
    piece_size: usize,
) -> Result<Arrived<'a>, ReadAllFault>
    requires can { CanPrint (without_limit plan.now) schema.now }
    requires verbatim { IsVerbatimOf (without_limit plan.now) schema.now (cell_options options.now) verbatim.now }
    requires size { 0 < piece_size }
    requires within { intake.old.size ≤ limit }
    requires ended { intake.old.is_ended ≡ true → IsAtEnd (So.left source.old) }
    ensures few { IfOk result (λ arrived. IfSome plan.now.limit (λ limit. arrived.front.rows ≤ limit)) }
    ensures arrived { IfOk result (HasAllCome plan.now schema.now (cell_options options.now) (So.left source.old) (So.left source.new) limit intake.old) }
    ensures too_long { IsErrOf result ReadAllFault.TooLong → IsPastLimit (So.left source.old) (So.left source.new) limit intake.old.size }
    ensures failed { IsErrOf result ReadAllFault.Source → HasStopped (So.left source.old) (So.left source.new) limit intake.old.size }
    ensures cause { IsErrOf result ReadAllFault.Source → Rose (So.faults source.old) (So.faults source.new) }
    ensures later { So.faults source.old ≤ So.faults source.new }
{
    let rooms = Mutex::new(Rooms::new(alloc));
    let unlimited = without_limit(plan);
    let (tokens, all) = read_and_print(
        rt, alloc, workers, cells, &rooms, plan.limit, intake, source, limit, schema, &unlimited,
        options, verbatim, piece_size,
    )?;
    intake.read_on(source, limit)?;
    let rest = intake.rest();
    match front_decided(alloc, cells, &tokens, all, rest, schema, plan, options) {
        Ok(arrived) => Ok(arrived),
        Err(_) => Err(ReadAllFault::OutOfMemory),
    }
}

// Reads the texts of a source and prints them, by one worker text by text, by several side by side, each in the memory of one before it.
//
// Refuses as `read_all` does, with those bytes that came before counted in.
fn print_kept<'a, W: Threads + Wait + Sync, So: Source>(
    rt: &W,
    alloc: Global,
    workers: usize,
    intake: &mut Intake,
    source: &mut So,
    limit: usize,
    schema: &Schema,
    plan: &RangePlan<'_>,
    options: &SerializeOptions,
    verbatim: &Verbatim,
    piece_size: usize,
) -> Result<Arrived<'a>, ReadAllFault>
    requires can { CanPrint (without_limit plan.now) schema.now }
    requires verbatim { IsVerbatimOf (without_limit plan.now) schema.now (cell_options options.now) verbatim.now }
    requires size { 0 < piece_size }
    requires within { intake.old.size ≤ limit }
    requires held { length intake.old.rest.items ≤ intake.old.size }
    requires ended { intake.old.is_ended ≡ true → IsAtEnd (So.left source.old) }
    ensures few { IfOk result (λ arrived. IfSome plan.now.limit (λ limit. arrived.front.rows ≤ limit)) }
    ensures arrived { IfOk result (HasAllCome plan.now schema.now (cell_options options.now) (So.left source.old) (So.left source.new) limit intake.old) }
    ensures too_long { IsErrOf result ReadAllFault.TooLong → IsPastLimit (So.left source.old) (So.left source.new) limit intake.old.size }
    ensures failed { IsErrOf result ReadAllFault.Source → HasStopped (So.left source.old) (So.left source.new) limit intake.old.size }
    ensures cause { IsErrOf result ReadAllFault.Source → Rose (So.faults source.old) (So.faults source.new) }
    ensures later { So.faults source.old ≤ So.faults source.new }
{
    let unlimited = without_limit(plan);
    let kept = print_again(
        rt, alloc, workers, intake, source, limit, schema, &unlimited, options, verbatim,
        piece_size, plan.limit,
    )?;
    intake.read_on(source, limit)?;
    let left = std::mem::replace(intake, Intake::new(alloc)).into_rest();
    match front_of_kept(alloc, kept) {
        Ok(front) => Ok(Arrived { front, left }),
        Err(_) => Err(ReadAllFault::OutOfMemory),
    }
}

// Reads what is left of a source, and prints the records meanwhile: texts are kept where lines are lent from there.
//
// Refuses as `read_all` does, with those bytes that came before counted in.
fn print_texts<'a, W: Threads + Wait + Sync, So: Source>(
    rt: &W,
    alloc: Global,
    workers: usize,
    is_lent: bool,
    cells: &'a [OnceLock<Vec<u8>>],
    intake: &mut Intake,
    source: &mut So,
    limit: usize,
    schema: &Schema,
    plan: &RangePlan<'_>,
    options: &SerializeOptions,
    verbatim: &Verbatim,
    piece_size: usize,
) -> Result<Arrived<'a>, ReadAllFault>
    requires can { CanPrint (without_limit plan.now) schema.now }
    requires verbatim { IsVerbatimOf (without_limit plan.now) schema.now (cell_options options.now) verbatim.now }
    requires size { 0 < piece_size }
    requires within { intake.old.size ≤ limit }
    requires held { length intake.old.rest.items ≤ intake.old.size }
    requires ended { intake.old.is_ended ≡ true → IsAtEnd (So.left source.old) }
    ensures few { IfOk result (λ arrived. IfSome plan.now.limit (λ limit. arrived.front.rows ≤ limit)) }
    ensures arrived { IfOk result (HasAllCome plan.now schema.now (cell_options options.now) (So.left source.old) (So.left source.new) limit intake.old) }
    ensures too_long { IsErrOf result ReadAllFault.TooLong → IsPastLimit (So.left source.old) (So.left source.new) limit intake.old.size }
    ensures failed { IsErrOf result ReadAllFault.Source → HasStopped (So.left source.old) (So.left source.new) limit intake.old.size }
    ensures cause { IsErrOf result ReadAllFault.Source → Rose (So.faults source.old) (So.faults source.new) }
    ensures later { So.faults source.old ≤ So.faults source.new }
{
    if is_lent {
        return print_lent(
            rt, alloc, workers, cells, intake, source, limit, schema, plan, options, verbatim,
            piece_size,
        );
    }
    print_kept(
        rt, alloc, workers, intake, source, limit, schema, plan, options, verbatim, piece_size,
    )
}

// Reads what is left of a source, which is put into a cell of its own, and then prints the records.
//
// Refuses as `read_all` does, with those bytes that came before counted in. A cell that holds something already counts as out of memory.
fn print_whole<'a, W: Threads + Wait + Sync, So: Source>(
    rt: &W,
    alloc: Global,
    workers: usize,
    last: &'a OnceLock<Vec<u8>>,
    intake: &mut Intake,
    source: &mut So,
    limit: usize,
    schema: &Schema,
    plan: &RangePlan<'_>,
    options: &SerializeOptions,
    piece_size: usize,
) -> Result<PrintedRows<'a>, ReadAllFault>
    requires workers { 0 < workers }
    requires can { CanPrint (without_limit plan.now) schema.now }
    requires last { plan.now.last ≡ true }
    requires size { 0 < piece_size }
    requires within { intake.old.size ≤ limit }
    requires ended { intake.old.is_ended ≡ true → IsAtEnd (So.left source.old) }
    ensures arrived { IfOk result (HasArrived plan.now schema.now (cell_options options.now) (So.left source.old) (So.left source.new) limit intake.old) }
    ensures too_long { IsErrOf result ReadAllFault.TooLong → IsPastLimit (So.left source.old) (So.left source.new) limit intake.old.size }
    ensures failed { IsErrOf result ReadAllFault.Source → HasStopped (So.left source.old) (So.left source.new) limit intake.old.size }
    ensures cause { IsErrOf result ReadAllFault.Source → Rose (So.faults source.old) (So.faults source.new) }
    ensures later { So.faults source.old ≤ So.faults source.new }
{
    intake.read_on(source, limit)?;
    let records = std::mem::replace(intake, Intake::new(alloc)).into_rest();
    let Ok(token) = last.set(rt, records) else {
        return Err(ReadAllFault::OutOfMemory);
    };
    let records = last.value(&token).as_slice();
    match print_rows(
        rt, alloc, workers, records, schema, plan, options, piece_size,
    ) {
        Ok(printed) => Ok(printed),
        Err(_) => Err(ReadAllFault::OutOfMemory),
    }
}

// Whether a limit of rows is near, where so many rows stand in the first bytes of the records.
fn is_near(limit: Option<usize>, rows: usize) -> bool {
    match limit {
        Some(limit) => limit / NEAR <= rows,
        None => false,
    }
}

/// Reads all that is left of a source, and prints the records meanwhile, or where the plan has a limit, the first so many of them: the caller reads
/// text by text, each up to where rows seem to begin, and the other workers print each as soon as it is read, as the caller does once all are
/// read. What was kept of the source before stands in front of them. What is not printed so without a gap is copied into one cell more, the last
/// one, and printed as by `print_rest`. The answer is that of `print_rows` for the records.
///
/// What was kept tells whether most lines are written as they were read: then all texts are kept, and such lines are lent from there; a worker that
/// is alone reads all that is left first. Otherwise the memory of a text is used again for those behind it, and one worker reads and prints text by
/// text. Where the limit is near, all that is left is read first, and behind rows that reach it no text is printed.
///
/// The first text is read before the other workers start. Where a source has no more, there are none.
///
/// Refuses as `read_all` does, with those bytes that came before counted in. A last cell that holds something already counts as out of memory.
pub fn print_arriving<'a, W: Threads + Wait + Sync, So: Source>(
    rt: &W,
    alloc: Global,
    workers: usize,
    cells: &'a [OnceLock<Vec<u8>>],
    last: &'a OnceLock<Vec<u8>>,
    intake: &mut Intake,
    source: &mut So,
    limit: usize,
    schema: &Schema,
    plan: &RangePlan<'_>,
    options: &SerializeOptions,
    piece_size: usize,
) -> Result<PrintedRows<'a>, ReadAllFault>
    requires workers { 0 < workers }
    requires can { CanPrint (without_limit plan.now) schema.now }
    requires last { plan.now.last ≡ true }
    requires size { 0 < piece_size }
    requires within { intake.old.size ≤ limit }
    requires held { length intake.old.rest.items ≤ intake.old.size }
    requires ended { intake.old.is_ended ≡ true → IsAtEnd (So.left source.old) }
    ensures arrived { IfOk result (HasArrived plan.now schema.now (cell_options options.now) (So.left source.old) (So.left source.new) limit intake.old) }
    ensures too_long { IsErrOf result ReadAllFault.TooLong → IsPastLimit (So.left source.old) (So.left source.new) limit intake.old.size }
    ensures failed { IsErrOf result ReadAllFault.Source → HasStopped (So.left source.old) (So.left source.new) limit intake.old.size }
    ensures cause { IsErrOf result ReadAllFault.Source → Rose (So.faults source.old) (So.faults source.new) }
    ensures later { So.faults source.old ≤ So.faults source.new }
{
    let unlimited = without_limit(plan);
    let Ok(verbatim) = Verbatim::of(alloc, schema, &unlimited, options) else {
        return Err(ReadAllFault::OutOfMemory);
    };
    let rest = intake.rest();
    let look = look_at(
        alloc, rest, schema, &unlimited, options, &verbatim, piece_size,
    );
    if is_near(plan.limit, look.rows) || look.are_lent && workers == 1 {
        return print_whole(
            rt, alloc, workers, last, intake, source, limit, schema, plan, options, piece_size,
        );
    }
    make_room(alloc);
    let arrived = print_texts(
        rt,
        alloc,
        workers,
        look.are_lent,
        cells,
        intake,
        source,
        limit,
        schema,
        plan,
        options,
        &verbatim,
        piece_size,
    )?;
    match print_left(
        rt, alloc, workers, last, arrived, schema, plan, options, piece_size,
    ) {
        Ok(printed) => Ok(printed),
        Err(_) => Err(ReadAllFault::OutOfMemory),
    }
}
