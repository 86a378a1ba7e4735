//! Texts of a source, read and printed by workers: each text is printed while those behind it are read.
ghost use Rattle.std.specs.Prelude.{◌≡◌, ◌++◌, ◌<◌, ◌≤◌, ℕ, List, Option, true, false, All, IfOk, IfSome, OnOk, IsErrOf, length, map};
ghost use Rattle.pl_intake.specs.declared.intake.Intake.{Intake};
ghost use Rattle.std.specs.Io.KnownBytes.{IsAtEnd};
ghost use Rattle.std.specs.List.{concat};
ghost use Rattle.std.specs.Thread.{IsSync};
ghost use Rattle.pl_frame.specs.Causes.{Rose};
ghost use Rattle.pl_write.specs.Options.{cell_options};
ghost use Rattle.pl_verbatim.specs.PrintedTexts.{CanPrint};
ghost use Rattle.pl_verbatim.specs.Verbatim.{IsVerbatimOf};
ghost use Rattle.pl_intake.specs.Intake.{HasGiven, HasStopped, IsPastLimit};
ghost use Rattle.pl_intake.specs.Texts.{AreSetIn};
ghost use Rattle.pl_regions.specs.Arriving.{IsFrontArrived, IsTaken};
ghost use Rattle.pl_regions.specs.Limits.{without_limit};
ghost use Rattle.pl_regions.specs.Regions.{ArePlaced, IsRegionOf};

use crate::front::{CutFront, Front, front_of};
use crate::kept::Arrived;
use crate::limits::without_limit;
use crate::region::Region;
use crate::taken::Taken;
use crate::taking::{empty_places, put_regions};
use crate::texts::take_texts;
use pl_frame::read_all::ReadAllFault;
use pl_frame::schema::Schema;
use pl_frame::source::Source;
use pl_intake::intake::Intake;
use pl_intake::rooms::Rooms;
use pl_intake::texts::{FIRST, close_cells, left_behind, read_texts, texts_of};
use pl_rows::plan::RangePlan;
use pl_rows::push::push;
use pl_verbatim::verbatim::Verbatim;
use pl_write::options::SerializeOptions;
use std::alloc::{AllocError, Global};
use std::sync::atomic::AtomicUsize;
use std::sync::{Mutex, OnceLock, OnceToken, Wait};
use std::thread;
use std::thread::Threads;

// Regions that were taken, as regions of the texts that these tokens show.
fn settle<'a>(
    alloc: Global,
    cells: &'a [OnceLock<Vec<u8>>],
    tokens: &Vec<OnceToken<'a, Vec<u8>>>,
    all: Vec<Taken<'a>>,
    schema: &Schema,
    plan: &RangePlan<'_>,
    options: &SerializeOptions,
) -> Result<Vec<Region<'a>>, AllocError>
    requires set { AreSetIn cells.now tokens.now.items }
    requires taken { All (IsTaken plan.now schema.now (cell_options options.now) cells.now) all.items }
    ensures { IfOk result (λ regions. All (IsRegionOf plan.now schema.now (cell_options options.now) (map (λ token. token.value.items) tokens.now.items)) regions.items) }
{
    let mut regions = Vec::new(alloc);
    for taken in all {
        let Taken { region, token } = taken;
        if region.place < tokens.len() {
            tokens[region.place].agrees(&token);
            push(&mut regions, region)?;
        }
    }
    Ok(regions)
}

// The regions that were taken, by the places of these texts. Refuses only want of memory.
fn places_of<'a>(
    alloc: Global,
    cells: &'a [OnceLock<Vec<u8>>],
    tokens: &Vec<OnceToken<'a, Vec<u8>>>,
    all: Vec<Vec<Taken<'a>>>,
    schema: &Schema,
    plan: &RangePlan<'_>,
    options: &SerializeOptions,
) -> Result<Vec<Option<Region<'a>>>, AllocError>
    requires set { AreSetIn cells.now tokens.now.items }
    requires taken { All (λ taken. All (IsTaken plan.now schema.now (cell_options options.now) cells.now) taken.items) all.items }
    ensures { IfOk result (λ places. ArePlaced plan.now schema.now (cell_options options.now) (map (λ token. token.value.items) tokens.now.items) places.items) }
{
    let mut places = empty_places(alloc, tokens.len())?;
    for taken in all {
        let regions = settle(alloc, cells, tokens, taken, schema, plan, options)?;
        put_regions(&mut places, regions);
    }
    Ok(places)
}

/// The front of the texts that these tokens show, whose regions were taken, with no more rows than the limit, and what is left of them and of what
/// stands behind them, as far as it matters: where the texts reach the limit, what stands behind those that do is left out. Refuses only want of
/// memory.
pub(crate) fn front_decided<'a>(
    alloc: Global,
    cells: &'a [OnceLock<Vec<u8>>],
    tokens: &Vec<OnceToken<'a, Vec<u8>>>,
    all: Vec<Vec<Taken<'a>>>,
    rest: &[u8],
    schema: &Schema,
    plan: &RangePlan<'_>,
    options: &SerializeOptions,
) -> Result<Arrived<'a>, AllocError>
    requires can { CanPrint (without_limit plan.now) schema.now }
    requires set { AreSetIn cells.now tokens.now.items }
    requires taken { All (λ taken. All (IsTaken (without_limit plan.now) schema.now (cell_options options.now) cells.now) taken.items) all.items }
    ensures arrived { IfOk result (IsFrontArrived plan.now schema.now (cell_options options.now) (concat (map (λ token. token.value.items) tokens.now.items) ++ rest.now)) }
    ensures few { IfOk result (λ arrived. IfSome plan.now.limit (λ limit. arrived.front.rows ≤ limit)) }
{
    let unlimited = without_limit(plan);
    let own = texts_of(alloc, cells, tokens)?;
    let texts = own.as_slice();
    let places = places_of(alloc, cells, tokens, all, schema, &unlimited, options)?;
    let CutFront { front, full } = front_of(
        alloc, texts, places, schema, &unlimited, options, plan.limit,
    )?;
    let Front { end, rows, lines } = front;
    if let Some(count) = full {
        let first = left_behind(alloc, &texts[..count], &[], end)?;
        return Ok(Arrived {
            front: Front { end, rows, lines },
            left: first,
        });
    }
    let left = left_behind(alloc, texts, rest, end)?;
    Ok(Arrived {
        front: Front { end, rows, lines },
        left,
    })
}

// Cells, what shows the texts of the first of them, the regions that were taken by who reads, and those that each of the others took.
#[derive(Drop)]
struct Reading<'a> {
    cells: &'a [OnceLock<Vec<u8>>],
    tokens: Vec<OnceToken<'a, Vec<u8>>>,
    taken: Vec<Taken<'a>>,
    others: Vec<Vec<Taken<'a>>>,
}

// Reads the texts of a source, tells so many other workers that there are no more, and takes regions as they do.
fn read_and_take<'a, W: Wait, So: Source>(
    rt: &W,
    alloc: Global,
    others: usize,
    reading: &mut Reading<'a>,
    rooms: &Mutex<Rooms>,
    next: &AtomicUsize,
    so_far: &AtomicUsize,
    most: Option<usize>,
    intake: &mut Intake,
    source: &mut So,
    limit: usize,
    schema: &Schema,
    plan: &RangePlan<'_>,
    options: &SerializeOptions,
    verbatim: &Verbatim,
    piece_size: usize,
) -> Result<(), ReadAllFault>
    requires can { CanPrint plan.now schema.now }
    requires verbatim { IsVerbatimOf plan.now schema.now (cell_options options.now) verbatim.now }
    requires size { 0 < piece_size }
    requires within { intake.old.size ≤ limit }
    requires ended { intake.old.is_ended ≡ true → IsAtEnd (So.left source.old) }
    requires set { AreSetIn reading.old.cells.now reading.old.tokens.items }
    ensures set { OnOk result (AreSetIn reading.old.cells.now reading.new.tokens.items) }
    ensures given { (before : Option (List ℕ)) (first : Intake) → HasGiven before (So.left source.old) limit first intake.old (concat (map (λ token. token.value.items) reading.old.tokens.items))
        → OnOk result (HasGiven before (So.left source.new) limit first intake.new (concat (map (λ token. token.value.items) reading.new.tokens.items))) }
    ensures taken { OnOk result (All (IsTaken plan.now schema.now (cell_options options.now) reading.old.cells.now) reading.new.taken.items) }
    ensures too_long { IsErrOf result ReadAllFault.TooLong → IsPastLimit (So.left source.old) (So.left source.new) limit intake.old.size }
    ensures failed { IsErrOf result ReadAllFault.Source → HasStopped (So.left source.old) (So.left source.new) limit intake.old.size }
    ensures cause { IsErrOf result ReadAllFault.Source → Rose (So.faults source.old) (So.faults source.new) }
    ensures later { So.faults source.old ≤ So.faults source.new }
{
    let cells = reading.cells;
    let tokens = &mut reading.tokens;
    let count = cells.len();
    match read_texts(
        rt,
        alloc,
        cells,
        rooms,
        tokens,
        count,
        intake,
        source,
        limit,
        &plan.dialect,
        plan.projection.width,
        piece_size,
    ) {
        Ok(()) => {
            close_cells(rt, alloc, cells, tokens.len(), others.saturating_add(1));
            reading.taken = take_texts(
                rt, alloc, cells, rooms, next, so_far, most, schema, plan, options, verbatim,
                piece_size,
            );
            Ok(())
        }
        Err(fault) => {
            close_cells(rt, alloc, cells, 0, count);
            Err(fault)
        }
    }
}

// Starts `to_start` workers, one after another, that take regions, and then reads the texts of a source and takes regions as they do. Who reads starts
// them all: where a worker starts others, they often share its processor.
#[cycle(start)]
fn start_and_read<'a, W: Threads + Wait + Sync, So: Source>(
    rt: &W,
    alloc: Global,
    to_start: usize,
    others: usize,
    reading: &mut Reading<'a>,
    rooms: &Mutex<Rooms>,
    next: &AtomicUsize,
    so_far: &AtomicUsize,
    most: Option<usize>,
    intake: &mut Intake,
    source: &mut So,
    limit: usize,
    schema: &Schema,
    plan: &RangePlan<'_>,
    options: &SerializeOptions,
    verbatim: &Verbatim,
    piece_size: usize,
) -> Result<(), ReadAllFault>
    requires can { CanPrint plan.now schema.now }
    requires verbatim { IsVerbatimOf plan.now schema.now (cell_options options.now) verbatim.now }
    requires size { 0 < piece_size }
    requires within { intake.old.size ≤ limit }
    requires ended { intake.old.is_ended ≡ true → IsAtEnd (So.left source.old) }
    requires set { AreSetIn reading.old.cells.now reading.old.tokens.items }
    ensures set { OnOk result (AreSetIn reading.old.cells.now reading.new.tokens.items) }
    ensures given { (before : Option (List ℕ)) (first : Intake) → HasGiven before (So.left source.old) limit first intake.old (concat (map (λ token. token.value.items) reading.old.tokens.items))
        → OnOk result (HasGiven before (So.left source.new) limit first intake.new (concat (map (λ token. token.value.items) reading.new.tokens.items))) }
    ensures own { OnOk result (All (IsTaken plan.now schema.now (cell_options options.now) reading.old.cells.now) reading.new.taken.items) }
    ensures others { OnOk result (All (λ taken. All (IsTaken plan.now schema.now (cell_options options.now) reading.old.cells.now) taken.items) reading.new.others.items) }
    ensures too_long { IsErrOf result ReadAllFault.TooLong → IsPastLimit (So.left source.old) (So.left source.new) limit intake.old.size }
    ensures failed { IsErrOf result ReadAllFault.Source → HasStopped (So.left source.old) (So.left source.new) limit intake.old.size }
    ensures cause { IsErrOf result ReadAllFault.Source → Rose (So.faults source.old) (So.faults source.new) }
    ensures later { So.faults source.old ≤ So.faults source.new }
{
    if to_start == 0 {
        read_and_take(
            rt, alloc, others, reading, rooms, next, so_far, most, intake, source, limit, schema,
            plan, options, verbatim, piece_size,
        )?;
        reading.others = Vec::new(alloc);
        return Ok(());
    }
    let cells = reading.cells;
    let mut take = || -> Vec<Taken<'_>>
        requires can { CanPrint plan.now schema.now }
        requires verbatim { IsVerbatimOf plan.now schema.now (cell_options options.now) verbatim.now }
        requires size { 0 < piece_size }
        ensures { All (IsTaken plan.entry.now schema.entry.now (cell_options options.entry.now) cells.entry.now) result.items }
    {
        take_texts(
            rt, alloc, cells, rooms, next, so_far, most, schema, plan, options, verbatim,
            piece_size,
        )
    };
    let mut read = || -> Result<(), ReadAllFault>
        requires sync { IsSync W.row }
        requires can { CanPrint plan.now schema.now }
        requires verbatim { IsVerbatimOf plan.now schema.now (cell_options options.now) verbatim.now }
        requires size { 0 < piece_size }
        requires within { intake.now.size ≤ limit }
        requires ended { intake.now.is_ended ≡ true → IsAtEnd (So.left source.now) }
        requires set { AreSetIn reading.now.cells.now reading.now.tokens.items }
        requires more { 0 < to_start }
        ensures set { OnOk result (AreSetIn reading.entry.now.cells.now reading.exit.now.tokens.items) }
        ensures given { (before : Option (List ℕ)) (first : Intake) → HasGiven before (So.left source.entry.now) limit first intake.entry.now (concat (map (λ token. token.value.items) reading.entry.now.tokens.items))
            → OnOk result (HasGiven before (So.left source.exit.now) limit first intake.exit.now (concat (map (λ token. token.value.items) reading.exit.now.tokens.items))) }
        ensures own { OnOk result (All (IsTaken plan.entry.now schema.entry.now (cell_options options.entry.now) reading.entry.now.cells.now) reading.exit.now.taken.items) }
        ensures others { OnOk result (All (λ taken. All (IsTaken plan.entry.now schema.entry.now (cell_options options.entry.now) reading.entry.now.cells.now) taken.items) reading.exit.now.others.items) }
        ensures too_long { IsErrOf result ReadAllFault.TooLong → IsPastLimit (So.left source.entry.now) (So.left source.exit.now) limit intake.entry.now.size }
        ensures failed { IsErrOf result ReadAllFault.Source → HasStopped (So.left source.entry.now) (So.left source.exit.now) limit intake.entry.now.size }
        ensures cause { IsErrOf result ReadAllFault.Source → Rose (So.faults source.entry.now) (So.faults source.exit.now) }
        ensures later { So.faults source.entry.now ≤ So.faults source.exit.now }
    {
        start_and_read(
            rt,
            alloc,
            to_start - 1,
            others,
            reading,
            rooms,
            next,
            so_far,
            most,
            intake,
            source,
            limit,
            schema,
            plan,
            options,
            verbatim,
            piece_size,
        )
    };
    let (taken, read) = thread::join_mut(rt, &mut take, &mut read);
    read?;
    if push(&mut reading.others, taken).is_err() {
        return Err(ReadAllFault::OutOfMemory);
    }
    Ok(())
}

/// Reads the first text of a source, and then those of the other cells while workers take regions. Where the first text is all, there are no other
/// workers. Answers what shows the texts, and the regions that each took.
///
/// Refuses as `read_all` does, with those bytes that came before counted in.
pub(crate) fn read_and_print<'a, W: Threads + Wait + Sync, So: Source>(
    rt: &W,
    alloc: Global,
    workers: usize,
    cells: &'a [OnceLock<Vec<u8>>],
    rooms: &Mutex<Rooms>,
    most: Option<usize>,
    intake: &mut Intake,
    source: &mut So,
    limit: usize,
    schema: &Schema,
    plan: &RangePlan<'_>,
    options: &SerializeOptions,
    verbatim: &Verbatim,
    piece_size: usize,
) -> Result<(Vec<OnceToken<'a, Vec<u8>>>, Vec<Vec<Taken<'a>>>), ReadAllFault>
    requires can { CanPrint plan.now schema.now }
    requires verbatim { IsVerbatimOf plan.now schema.now (cell_options options.now) verbatim.now }
    requires size { 0 < piece_size }
    requires within { intake.old.size ≤ limit }
    requires ended { intake.old.is_ended ≡ true → IsAtEnd (So.left source.old) }
    ensures set { IfOk result (λ read. AreSetIn cells.now read.0.items) }
    ensures given { IfOk result (λ read. HasGiven (So.left source.old) (So.left source.new) limit intake.old intake.new (concat (map (λ token. token.value.items) read.0.items))) }
    ensures taken { IfOk result (λ read. All (λ taken. All (IsTaken plan.now schema.now (cell_options options.now) cells.now) taken.items) read.1.items) }
    ensures too_long { IsErrOf result ReadAllFault.TooLong → IsPastLimit (So.left source.old) (So.left source.new) limit intake.old.size }
    ensures failed { IsErrOf result ReadAllFault.Source → HasStopped (So.left source.old) (So.left source.new) limit intake.old.size }
    ensures cause { IsErrOf result ReadAllFault.Source → Rose (So.faults source.old) (So.faults source.new) }
    ensures later { So.faults source.old ≤ So.faults source.new }
{
    let mut reading = Reading {
        cells,
        tokens: Vec::new(alloc),
        taken: Vec::new(alloc),
        others: Vec::new(alloc),
    };
    read_texts(
        rt,
        alloc,
        cells,
        rooms,
        &mut reading.tokens,
        FIRST,
        intake,
        source,
        limit,
        &plan.dialect,
        plan.projection.width,
        piece_size,
    )?;
    let others = if intake.is_ended() {
        0
    } else {
        workers.saturating_sub(1)
    };
    start_and_read(
        rt,
        alloc,
        others,
        others,
        &mut reading,
        rooms,
        &AtomicUsize::new(0),
        &AtomicUsize::new(0),
        most,
        intake,
        source,
        limit,
        schema,
        plan,
        options,
        verbatim,
        piece_size,
    )?;
    let Reading {
        cells: _,
        tokens,
        taken,
        others: mut all,
    } = reading;
    if push(&mut all, taken).is_err() {
        return Err(ReadAllFault::OutOfMemory);
    }
    Ok((tokens, all))
}
