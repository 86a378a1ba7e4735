//! Parts of a group that workers print, each as soon as it is read.
ghost use Rattle.std.specs.Prelude.{◌≡◌, ◌≤◌, ◌<◌, ◌+◌, [], ℕ, List, All, None, map, length, IfOk, IfErr, OnOk, IsSome};
ghost use Rattle.std.specs.Thread.{IsSync};
ghost use Rattle.pl_read.specs.Steps.{MayRead};
ghost use Rattle.pl_multi.specs.Cells.{AreSetIn, IsTakenCell, held_bytes, token_bytes};
ghost use Rattle.pl_multi.specs.Groups.{AreRead, IsUnread, IsTakenOf, ArePrintedOf, for_one};
ghost use Rattle.pl_multi.specs.Printing.{HasNoHead};

use crate::cells::{SeenCell, ShownParts, close_cells, make_cells, take_cell};
use crate::groups::{PartLines, print_part, read_part};
use crate::part::Part;
use crate::rooms::{Rooms, make_rooms};
use crate::scan::MultiFault;
use crate::settling::{TakenCell, TakenPart, own_parts, put_each, settle_each, with_own};
use pl_frame::opener::Opener;
use pl_options::read_options::CsvReadOptions;
use pl_rows::push::push;
use pl_write::options::CsvWriterOptions;
use std::alloc::{AllocError, Global};
use std::sync::atomic::AtomicUsize;
use std::sync::{Arc, Mutex, OnceLock, Wait};
use std::thread;
use std::thread::Threads;

// So many parts are a group, at most.
const PARTS: usize = 1 << 10;

// So many bytes are a group, at most: the part in which they are reached is its last, unless it has too few.
const BYTES: usize = 1 << 26;

// So many parts are a group, at least, so that one is read while another is printed.
const FEW: usize = 4;

// Cells, the parts that were read into them, and what came of those that were taken by who reads.
#[derive(Drop)]
struct Reading<'a> {
    cells: &'a [OnceLock<Option<Arc<Vec<u8>, Global>>>],
    shown: ShownParts<'a>,
    taken: Vec<TakenCell<'a>>,
}

// What came of cells: the parts that were read into them, what came of those that each worker took, and the fault of the part behind them.
#[derive(Drop)]
struct ReadCells<'a> {
    shown: ShownParts<'a>,
    all: Result<Vec<Vec<TakenCell<'a>>>, AllocError>,
    read: Result<(), MultiFault>,
}

/// What came of the cells of a group: the bytes of its parts, what came of those that workers took, and the fault of the part behind them.
#[derive(Drop)]
struct PrintedCells {
    held: Vec<Arc<Vec<u8>, Global>>,
    settled: Result<Vec<Vec<TakenPart>>, AllocError>,
    read: Result<(), MultiFault>,
}

// The parts that one worker takes and prints, each as soon as it is read, until there are no more or memory is wanting. Then it makes memory
// ready for those of the next group.
fn take_parts<'a, W: Threads + Wait + Sync>(
    rt: &W,
    alloc: Global,
    cells: &'a [OnceLock<Option<Arc<Vec<u8>, Global>>>],
    next: &AtomicUsize,
    rooms: &Mutex<Rooms>,
    read: &CsvReadOptions,
    single: &CsvReadOptions,
    write: &CsvWriterOptions,
) -> Vec<TakenCell<'a>>
    requires single { single.now ≡ for_one read.now }
    requires given { IsSome read.now.schema }
    requires allowed { MayRead read.now }
    requires plain { read.now.row_index ≡ None }
    requires head { HasNoHead write.now }
    ensures { All (IsTakenCell read.now write.now cells.now) result.items }
{
    let mut taken = Vec::new(alloc);
    for _ in 0..cells.len() {
        let Some(SeenCell { place, token }) = take_cell(rt, alloc, cells, rooms, next) else {
            return taken;
        };
        let Some(held) = cells[place].value(&token) else {
            make_rooms(rt, alloc, rooms);
            return taken;
        };
        let printed = print_part(rt, alloc, held.as_ref(), read, single, write);
        if push(
            &mut taken,
            TakenCell {
                place,
                token,
                printed,
            },
        )
        .is_err()
        {
            return taken;
        }
    }
    taken
}

// The parts that so many workers take and print, each until there are no more.
fn take_each<'a, W: Threads + Wait + Sync>(
    rt: &W,
    alloc: Global,
    workers: usize,
    cells: &'a [OnceLock<Option<Arc<Vec<u8>, Global>>>],
    next: &AtomicUsize,
    rooms: &Mutex<Rooms>,
    read: &CsvReadOptions,
    single: &CsvReadOptions,
    write: &CsvWriterOptions,
) -> Result<Vec<Vec<TakenCell<'a>>>, AllocError>
    requires single { single.now ≡ for_one read.now }
    requires given { IsSome read.now.schema }
    requires allowed { MayRead read.now }
    requires plain { read.now.row_index ≡ None }
    requires head { HasNoHead write.now }
    ensures { IfOk result (λ all. All (λ taken. All (IsTakenCell read.now write.now cells.now) taken.items) all.items) }
{
    let take = |_worker: usize| -> Vec<TakenCell<'_>>
        requires sync { IsSync W.row }
        requires single { single.now ≡ for_one read.now }
        requires given { IsSome read.now.schema }
        requires allowed { MayRead read.now }
        requires plain { read.now.row_index ≡ None }
        requires head { HasNoHead write.now }
        ensures { All (IsTakenCell read.entry.now write.entry.now cells.entry.now) result.items }
    { take_parts(rt, alloc, cells, next, rooms, read, single, write) };
    thread::map_indices(rt, alloc, workers, &take)
}

// Reads the parts from a place on into cells, one after another, until there are no more or they are a group. Refuses the part behind them
// where it is not read, and want of memory.
fn read_cells<'a, W: Wait, O: Opener>(
    rt: &W,
    alloc: Global,
    opener: &mut O,
    parts: &[Part],
    first: usize,
    cells: &'a [OnceLock<Option<Arc<Vec<u8>, Global>>>],
    rooms: &Mutex<Rooms>,
    shown: &mut ShownParts<'a>,
) -> Result<(), MultiFault>
    requires tokens { shown.old.tokens.items ≡ [] }
    requires held { shown.old.held.items ≡ [] }
    requires some { 0 < length cells.now }
    requires within { first + length cells.now ≤ length parts.now }
    ensures set { AreSetIn cells.now shown.new.tokens.items }
    ensures same { token_bytes shown.new.tokens.items ≡ held_bytes shown.new.held.items }
    ensures read { AreRead (O.holds opener.old) parts.now first (held_bytes shown.new.held.items) }
    ensures some { OnOk result (0 < length shown.new.held.items) }
    ensures within { first + length shown.new.held.items ≤ length parts.now }
    ensures refused { IfErr result (IsUnread (O.faults opener.old) (O.faults opener.new) (first + length shown.new.held.items)) }
    ensures behind { IfErr result (λ _. first + length shown.new.held.items < length parts.now) }
    ensures later { O.faults opener.old ≤ O.faults opener.new }
    ensures stays { (other : List ℕ) → O.holds opener.new other ≡ O.holds opener.old other }
{
    let mut size: usize = 0;
    let mut count = 0;
    while count < cells.len() && (count < FEW || size < BYTES) {
        let place = first + count;
        let left = parts.len() - place - 1;
        let bytes = match read_part(rt, alloc, opener, &parts[place], place, left, rooms) {
            Ok(bytes) => bytes,
            Err(fault) => return Err(fault),
        };
        size = size.saturating_add(bytes.len());
        if shown.show(rt, alloc, cells, count, bytes).is_err() {
            return Err(MultiFault::OutOfMemory);
        }
        count += 1;
    }
    Ok(())
}

// Reads the parts from a place on into cells, tells so many workers that there are no more, and takes and prints parts as they do.
fn read_and_take<'a, W: Threads + Wait + Sync, O: Opener>(
    rt: &W,
    alloc: Global,
    workers: usize,
    opener: &mut O,
    parts: &[Part],
    first: usize,
    reading: &mut Reading<'a>,
    next: &AtomicUsize,
    rooms: &Mutex<Rooms>,
    read: &CsvReadOptions,
    single: &CsvReadOptions,
    write: &CsvWriterOptions,
) -> Result<(), MultiFault>
    requires tokens { reading.old.shown.tokens.items ≡ [] }
    requires held { reading.old.shown.held.items ≡ [] }
    requires some { 0 < length reading.old.cells.now }
    requires within { first + length reading.old.cells.now ≤ length parts.now }
    requires single { single.now ≡ for_one read.now }
    requires given { IsSome read.now.schema }
    requires allowed { MayRead read.now }
    requires plain { read.now.row_index ≡ None }
    requires head { HasNoHead write.now }
    ensures taken { All (IsTakenCell read.now write.now reading.old.cells.now) reading.new.taken.items }
    ensures set { AreSetIn reading.old.cells.now reading.new.shown.tokens.items }
    ensures same { token_bytes reading.new.shown.tokens.items ≡ held_bytes reading.new.shown.held.items }
    ensures read { AreRead (O.holds opener.old) parts.now first (held_bytes reading.new.shown.held.items) }
    ensures some { OnOk result (0 < length reading.new.shown.held.items) }
    ensures within { first + length reading.new.shown.held.items ≤ length parts.now }
    ensures refused { IfErr result (IsUnread (O.faults opener.old) (O.faults opener.new) (first + length reading.new.shown.held.items)) }
    ensures behind { IfErr result (λ _. first + length reading.new.shown.held.items < length parts.now) }
    ensures later { O.faults opener.old ≤ O.faults opener.new }
    ensures stays { (other : List ℕ) → O.holds opener.new other ≡ O.holds opener.old other }
{
    let cells = reading.cells;
    let shown = &mut reading.shown;
    let done = read_cells(rt, alloc, opener, parts, first, cells, rooms, shown);
    close_cells(rt, cells, reading.shown.held.len(), workers);
    reading.taken = take_parts(rt, alloc, cells, next, rooms, read, single, write);
    done
}

// Reads the parts from a place on into cells, while other workers take and print them.
fn read_beside<'a, W: Threads + Wait + Sync, O: Opener>(
    rt: &W,
    alloc: Global,
    workers: usize,
    opener: &mut O,
    parts: &[Part],
    first: usize,
    cells: &'a [OnceLock<Option<Arc<Vec<u8>, Global>>>],
    rooms: &Mutex<Rooms>,
    read: &CsvReadOptions,
    single: &CsvReadOptions,
    write: &CsvWriterOptions,
) -> ReadCells<'a>
    requires some { 0 < length cells.now }
    requires within { first + length cells.now ≤ length parts.now }
    requires single { single.now ≡ for_one read.now }
    requires given { IsSome read.now.schema }
    requires allowed { MayRead read.now }
    requires plain { read.now.row_index ≡ None }
    requires head { HasNoHead write.now }
    ensures taken { IfOk result.all (λ all. All (λ taken. All (IsTakenCell read.now write.now cells.now) taken.items) all.items) }
    ensures set { AreSetIn cells.now result.shown.tokens.items }
    ensures same { token_bytes result.shown.tokens.items ≡ held_bytes result.shown.held.items }
    ensures read { AreRead (O.holds opener.old) parts.now first (held_bytes result.shown.held.items) }
    ensures some { OnOk result.read (0 < length result.shown.held.items) }
    ensures within { first + length result.shown.held.items ≤ length parts.now }
    ensures refused { IfErr result.read (IsUnread (O.faults opener.old) (O.faults opener.new) (first + length result.shown.held.items)) }
    ensures behind { IfErr result.read (λ _. first + length result.shown.held.items < length parts.now) }
    ensures later { O.faults opener.old ≤ O.faults opener.new }
    ensures stays { (other : List ℕ) → O.holds opener.new other ≡ O.holds opener.old other }
{
    let next = AtomicUsize::new(0);
    let others = workers.saturating_sub(1);
    let mut reading = Reading {
        cells,
        shown: ShownParts::new(alloc),
        taken: Vec::new(alloc),
    };
    let mut print = ||
        requires sync { IsSync W.row }
        requires single { single.now ≡ for_one read.now }
        requires given { IsSome read.now.schema }
        requires allowed { MayRead read.now }
        requires plain { read.now.row_index ≡ None }
        requires head { HasNoHead write.now }
    { take_each(rt, alloc, others, cells, &next, rooms, read, single, write) };
    let mut ahead = ||
        requires tokens { reading.shown.tokens.items ≡ [] }
        requires held { reading.shown.held.items ≡ [] }
        requires some { 0 < length reading.cells.now }
        requires within { first + length reading.cells.now ≤ length parts.now }
        requires single { single.now ≡ for_one read.now }
        requires given { IsSome read.now.schema }
        requires allowed { MayRead read.now }
        requires plain { read.now.row_index ≡ None }
        requires head { HasNoHead write.now }
    {
        read_and_take(
            rt,
            alloc,
            workers,
            opener,
            parts,
            first,
            &mut reading,
            &next,
            rooms,
            read,
            single,
            write,
        )
    };
    let (all, done) = thread::join_mut(rt, &mut print, &mut ahead);
    let Reading {
        cells: _,
        shown,
        taken,
    } = reading;
    ReadCells {
        shown,
        all: with_own(all, taken),
        read: done,
    }
}

// Reads the parts from a place on into cells, and prints the rows of each by so many workers.
fn print_cells<W: Threads + Wait + Sync, O: Opener>(
    rt: &W,
    alloc: Global,
    workers: usize,
    opener: &mut O,
    parts: &[Part],
    first: usize,
    cells: &[OnceLock<Option<Arc<Vec<u8>, Global>>>],
    rooms: &Mutex<Rooms>,
    read: &CsvReadOptions,
    single: &CsvReadOptions,
    write: &CsvWriterOptions,
) -> PrintedCells
    requires some { 0 < length cells.now }
    requires within { first + length cells.now ≤ length parts.now }
    requires single { single.now ≡ for_one read.now }
    requires given { IsSome read.now.schema }
    requires allowed { MayRead read.now }
    requires plain { read.now.row_index ≡ None }
    requires head { HasNoHead write.now }
    ensures settled { IfOk result.settled (λ all. All (λ taken. All (IsTakenOf read.now write.now (held_bytes result.held.items)) taken.items) all.items) }
    ensures read { AreRead (O.holds opener.old) parts.now first (held_bytes result.held.items) }
    ensures some { OnOk result.read (0 < length result.held.items) }
    ensures within { first + length result.held.items ≤ length parts.now }
    ensures refused { IfErr result.read (IsUnread (O.faults opener.old) (O.faults opener.new) (first + length result.held.items)) }
    ensures behind { IfErr result.read (λ _. first + length result.held.items < length parts.now) }
    ensures later { O.faults opener.old ≤ O.faults opener.new }
    ensures stays { (other : List ℕ) → O.holds opener.new other ≡ O.holds opener.old other }
{
    let ReadCells {
        shown,
        all,
        read: all_read,
    } = read_beside(
        rt, alloc, workers, opener, parts, first, cells, rooms, read, single, write,
    );
    let ShownParts { tokens, held } = shown;
    let settled = settle_each(alloc, cells, &tokens, all, read, write);
    PrintedCells {
        held,
        settled,
        read: all_read,
    }
}

/// Reads the parts from a place on, until they are a group, and prints the rows of each by so many workers: one reads them and then prints too, and each
/// takes the next one as soon as it is read. Refuses the part behind the group where it is not read, and want of memory.
pub(crate) fn print_beside<W: Threads + Wait + Sync, O: Opener>(
    rt: &W,
    alloc: Global,
    workers: usize,
    opener: &mut O,
    parts: &[Part],
    first: usize,
    rooms: &Mutex<Rooms>,
    group: &mut Vec<PartLines>,
    read: &CsvReadOptions,
    single: &CsvReadOptions,
    write: &CsvWriterOptions,
) -> Result<(), MultiFault>
    requires none { length group.old.items ≡ 0 }
    requires first { first < length parts.now }
    requires single { single.now ≡ for_one read.now }
    requires given { IsSome read.now.schema }
    requires allowed { MayRead read.now }
    requires plain { read.now.row_index ≡ None }
    requires head { HasNoHead write.now }
    ensures read { AreRead (O.holds opener.old) parts.now first (map (λ one. one.bytes.items) group.new.items) }
    ensures printed { ArePrintedOf read.now write.now group.new.items }
    ensures some { OnOk result (0 < length group.new.items) }
    ensures within { first + length group.new.items ≤ length parts.now }
    ensures refused { IfErr result (IsUnread (O.faults opener.old) (O.faults opener.new) (first + length group.new.items)) }
    ensures behind { IfErr result (λ _. first + length group.new.items < length parts.now) }
    ensures later { O.faults opener.old ≤ O.faults opener.new }
    ensures stays { (other : List ℕ) → O.holds opener.new other ≡ O.holds opener.old other }
{
    let Ok(cells) = make_cells(alloc, PARTS.min(parts.len() - first)) else {
        return Err(MultiFault::OutOfMemory);
    };
    let printed = print_cells(
        rt, alloc, workers, opener, parts, first, &cells, rooms, read, single, write,
    );
    drop(cells);
    let PrintedCells {
        held,
        settled,
        read: all_read,
    } = printed;
    let Ok(mut owned) = own_parts(alloc, held) else {
        drop(settled);
        drop(all_read);
        return Err(MultiFault::OutOfMemory);
    };
    put_each(&mut owned, settled);
    *group = owned;
    all_read
}
