//! Parts of a group: their bytes, and the lines of their rows.
ghost use Rattle.std.specs.Prelude.{◌≡◌, ◌≤◌, ◌<◌, ◌+◌, ◌^◌, ◌++◌, ℕ, List, None, map, length, IfOk, IfErr, OnOk, IsSome};
ghost use Rattle.pl_options.specs.FirstCause.{IsFault};
ghost use Rattle.pl_read.specs.SettleGiven.{given_schema};
ghost use Rattle.pl_read.specs.Steps.{MayRead, late_cause};
ghost use Rattle.pl_multi.specs.Groups.{IsUnread, IsPrintedOf, texts_of, first_refusal, IsFirstRefusal, for_one};
ghost use Rattle.pl_multi.specs.Lines.{found_text};
ghost use Rattle.pl_multi.specs.Printing.{HasNoHead, AreLinesOf};
ghost use Rattle.pl_multi.specs.Scan.{IsHeld};

use crate::joining::part_fault;
use crate::lines::{FoundLines, KeptLines, LineSink};
use crate::part::Part;
use crate::paths::{Unread, read_path};
use crate::rooms::{LARGE, Rooms};
use crate::scan::MultiFault;
use memchr::memchr;
use pl_csv::convert::convert;
use pl_frame::error::{PolarsError, PolarsResult};
use pl_frame::opener::Opener;
use pl_options::put::put;
use pl_options::read_options::CsvReadOptions;
use pl_rows::push::push;
use pl_write::options::CsvWriterOptions;
use std::alloc::{AllocError, Global};
use std::sync::{Mutex, Wait};
use std::thread::Threads;

/// The bytes of a part, and the lines of its rows. Until these are printed, want of memory stands for them.
#[derive(Drop)]
pub(crate) struct PartLines {
    bytes: Vec<u8>,
    printed: PolarsResult<FoundLines>,
}

// Where the lines of a part may stand among its bytes: behind its first line end where it has a header, else at the front. A guess, which
// tells nothing.
fn guess_lines(bytes: &[u8], read: &CsvReadOptions) -> usize
    ensures { result ≤ length bytes.now }
{
    if !read.has_header {
        return 0;
    }
    match memchr(read.parse_options.eol_char, bytes) {
        Some(at) => at + 1,
        None => 0,
    }
}

// The lines of the rows of a part with these bytes. Refuses the first cause against them, and want of memory.
fn print_bytes<W: Threads + Wait + Sync>(
    rt: &W,
    alloc: Global,
    bytes: &[u8],
    read: &CsvReadOptions,
    write: &CsvWriterOptions,
) -> PolarsResult<FoundLines>
    requires given { IsSome read.now.schema }
    requires allowed { MayRead read.now }
    requires plain { read.now.row_index ≡ None }
    requires head { HasNoHead write.now }
    ensures lines { IfOk result (λ found. AreLinesOf read.now write.now bytes.now (found_text bytes.now found)) }
    ensures refused { IfErr result (IsFault (late_cause read.now (given_schema read.now) bytes.now)) }
{
    let from = guess_lines(bytes, read);
    let text = &bytes[from..];
    let mut sink = LineSink::new(alloc, text);
    match convert(rt, alloc, bytes, read, write, &mut sink) {
        Ok(()) => match sink.found(text, from) {
            Ok(found) => Ok(found),
            Err(_) => Err(PolarsError::OutOfMemory),
        },
        Err(fault) => Err(fault),
    }
}

/// The options for one worker alone. Refuses only want of memory.
pub(crate) fn for_one(read: &CsvReadOptions) -> Result<CsvReadOptions, AllocError>
    ensures { IfOk result (λ single. single ≡ for_one read.now) }
{
    let Ok(mut single) = read.try_clone() else {
        return Err(AllocError);
    };
    single.n_threads = Some(1);
    Ok(single)
}

/// The same as `print_bytes`, by one worker alone where the bytes are few: others of its group are then printed beside it.
pub(crate) fn print_part<W: Threads + Wait + Sync>(
    rt: &W,
    alloc: Global,
    bytes: &[u8],
    read: &CsvReadOptions,
    single: &CsvReadOptions,
    write: &CsvWriterOptions,
) -> PolarsResult<FoundLines>
    requires single { single.now ≡ for_one read.now }
    requires given { IsSome read.now.schema }
    requires allowed { MayRead read.now }
    requires plain { read.now.row_index ≡ None }
    requires head { HasNoHead write.now }
    ensures { IsPrintedOf read.now write.now bytes.now result }
{
    if bytes.len() < LARGE {
        return print_bytes(rt, alloc, bytes, single, write);
    }
    print_bytes(rt, alloc, bytes, read, write)
}

impl PartLines {
    /// A part with these bytes, and what came of it.
    pub(crate) fn new(bytes: Vec<u8>, printed: PolarsResult<FoundLines>) -> PartLines
        ensures bytes { result.bytes ≡ bytes }
        ensures printed { result.printed ≡ printed }
    {
        PartLines { bytes, printed }
    }

    /// Puts the lines of its rows.
    pub(crate) fn put(&mut self, printed: PolarsResult<FoundLines>)
        ensures bytes { self.new.bytes ≡ self.old.bytes }
        ensures printed { self.new.printed ≡ printed }
    {
        put(&mut self.printed, printed);
    }

    // What came of it, and its bytes.
    fn into_parts(self) -> (PolarsResult<FoundLines>, Vec<u8>)
        ensures printed { result.0 ≡ self.printed }
        ensures bytes { result.1 ≡ self.bytes }
    {
        (self.printed, self.bytes)
    }
}

/// The bytes of the part at a place, in memory that is ready where that suffices; so many parts are to come behind it.
pub(crate) fn read_part<W: Wait, O: Opener>(
    rt: &W,
    alloc: Global,
    opener: &mut O,
    part: &Part,
    place: usize,
    left: usize,
    rooms: &Mutex<Rooms>,
) -> Result<Vec<u8>, MultiFault>
    ensures held { IfOk result (λ bytes. IsHeld (O.holds opener.old) (part.now, bytes.items)) }
    ensures refused { IfErr result (IsUnread (O.faults opener.old) (O.faults opener.new) place) }
    ensures later { O.faults opener.old ≤ O.faults opener.new }
    ensures stays { (other : List ℕ) → O.holds opener.new other ≡ O.holds opener.old other }
{
    let room = rooms.lock(rt).take(alloc);
    match read_path(opener, part.path.as_str(), room) {
        Ok(bytes) => {
            rooms.lock(rt).keep_len(bytes.len(), left);
            Ok(bytes)
        }
        Err(Unread::Failed) => Err(MultiFault::Io { part: place }),
        Err(Unread::OutOfMemory) => Err(MultiFault::OutOfMemory),
    }
}

// Bytes whose memory is not much longer than they are.
fn without_spare(bytes: Vec<u8>) -> Vec<u8>
    ensures { result.items ≡ bytes.items }
{
    let mut bytes = bytes;
    if bytes.capacity() / 2 > bytes.len() {
        let _ = bytes.shrink_to_fit();
    }
    bytes
}

// Keeps the lines of a part, with its bytes where they stand among these. Else their memory is kept to read another part into.
fn keep<W: Wait>(
    rt: &W,
    alloc: Global,
    rooms: &Mutex<Rooms>,
    bytes: Vec<u8>,
    found: FoundLines,
) -> KeptLines
    ensures { result ≡ found_text bytes.items found }
{
    if found.are_lent() {
        return KeptLines::new(without_spare(bytes), found);
    }
    rooms.lock(rt).give(bytes);
    KeptLines::new(Vec::new(alloc), found)
}

/// Puts the lines of the parts of a group, the first of which is at this place, behind those of the parts before, and keeps their memory. Refuses the first cause
/// against a part, and want of memory.
pub(crate) fn put_lines<W: Wait>(
    rt: &W,
    alloc: Global,
    lines: &mut Vec<KeptLines>,
    rooms: &Mutex<Rooms>,
    group: Vec<PartLines>,
    first: usize,
) -> Result<(), MultiFault>
    requires { first + length group.items < 2 ^ 64 }
    ensures lines { OnOk result (lines.new.items ≡ lines.old.items ++ texts_of (map (λ one. (one.bytes.items, one.printed)) group.items)) }
    ensures sound { OnOk result (first_refusal first (map (λ one. (one.bytes.items, one.printed)) group.items) ≡ None) }
    ensures refused { IfErr result (IsFirstRefusal first (map (λ one. (one.bytes.items, one.printed)) group.items)) }
{
    let mut group = group;
    group.reverse();
    let mut place = first;
    while let Some(one) = group.pop() {
        let (printed, bytes) = one.into_parts();
        let found = match printed {
            Ok(found) => found,
            Err(fault) => {
                drop(bytes);
                drop(group);
                return Err(part_fault(place, fault));
            }
        };
        let kept = keep(rt, alloc, rooms, bytes, found);
        if push(lines, kept).is_err() {
            drop(group);
            return Err(MultiFault::OutOfMemory);
        }
        place += 1;
    }
    Ok(())
}
