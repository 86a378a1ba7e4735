//! The rows of parts, printed as they are read: what `scan_multi` answers, without making the frame where that is not needed.
ghost use Rattle.std.specs.Prelude.{◌≡◌, ◌≤◌, ◌<◌, ◌+◌, ℕ, false, List, None, map, length, IfOk, IfErr, OnOk, IsErrOf, IsSome, Option};
ghost use Rattle.std.specs.Bool.{OnTrue};
ghost use Rattle.std.specs.Cow.{cow_slice_items};
ghost use Rattle.std.specs.Io.KnownBytes.{Appends};
ghost use Rattle.std.specs.List.{concat};
ghost use Rattle.pl_frame.specs.Causes.{Rose};
ghost use Rattle.pl_frame.specs.Frame.{IsFrame, names_of};
ghost use Rattle.pl_read.specs.Steps.{MayRead};
ghost use Rattle.pl_write.specs.Options.{frame_options};
ghost use Rattle.pl_write.specs.Printed.{printed_text};
ghost use Rattle.pl_write.specs.Writing.{AppendsPrefix};
ghost use Rattle.pl_csv.specs.Transcoding.{HasAsciiQuote};
ghost use Rattle.pl_multi.specs.Groups.{AreRead, ArePrintedOf, IsUnread, for_one};
ghost use Rattle.pl_multi.specs.Joining.{IsJoinFault, IsSound};
ghost use Rattle.pl_multi.specs.Printing.{IsPlain, have_codes, HasNoHead, ArePrinted, IsJoinedBy, joined_text};
ghost use Rattle.pl_multi.specs.Scan.{IsScanFault, no_rows};
ghost use Rattle.pl_multi.specs.Words.{asked};

use crate::beside::print_beside;
use crate::groups::{PartLines, for_one, print_part, put_lines, read_part};
use crate::lines::KeptLines;
use crate::multi_words::MultiJob;
use crate::part::Part;
use crate::rooms::Rooms;
use crate::scan::{MultiFault, check_scan, scan_multi};
use pl_frame::column::Column;
use pl_frame::data_type::DataType;
use pl_frame::frame::DataFrame;
use pl_frame::opener::Opener;
use pl_frame::sink::{Sink, SinkFault};
use pl_options::read_options::CsvReadOptions;
use pl_read::workers::worker_count;
use pl_rows::push::push;
use pl_rows::stack::into_columns;
use pl_write::options::CsvWriterOptions;
use pl_write::printed::write_behind;
use pl_write::writer::write_frame;
use std::alloc::{AllocError, Global};
use std::borrow::CowSlice;
use std::sync::{Mutex, Wait};
use std::thread::Threads;

/// What was read of all parts, to be written.
#[derive(Drop)]
pub(crate) enum Joined {
    /// Their frame.
    Frame(DataFrame),
    /// The lines of its rows, part by part, and its columns without rows.
    Lines {
        lines: Vec<KeptLines>,
        empty: DataFrame,
    },
}

// Whether all rows are wanted, and they are neither numbered nor followed by values.
fn is_plain(job: &MultiJob) -> bool
    ensures { OnTrue result (IsPlain job.now.read job.now.slice job.now.parts.items) }
{
    if job.slice.is_some() || job.read.row_index.is_some() {
        return false;
    }
    match job.parts.first() {
        Some(first) => first.values.values().is_empty(),
        None => true,
    }
}

// Whether one of the columns has categories.
fn have_codes(columns: &[Column]) -> bool
    ensures { result ≡ have_codes columns.now }
{
    for column in columns {
        if matches!(column.dtype(), DataType::Categorical) {
            return true;
        }
    }
    false
}

// Equal options, but for what stands before the rows: neither byte order mark nor header. Refuses only want of memory.
fn without_head(write: &CsvWriterOptions) -> Result<CsvWriterOptions, AllocError>
    requires { HasAsciiQuote write.now }
    ensures head { IfOk result (λ lines. HasNoHead lines) }
    ensures cells { IfOk result (λ lines. lines.serialize_options ≡ write.now.serialize_options) }
{
    let Ok(mut lines) = write.try_clone() else {
        return Err(AllocError);
    };
    lines.include_bom = false;
    lines.include_header = false;
    Ok(lines)
}

// Reads the part at a place, and prints its rows. Refuses it where it is not read, and want of memory.
fn print_one<W: Threads + Wait + Sync, O: Opener>(
    rt: &W,
    alloc: Global,
    opener: &mut O,
    parts: &[Part],
    place: usize,
    rooms: &Mutex<Rooms>,
    group: &mut Vec<PartLines>,
    read: &CsvReadOptions,
    single: &CsvReadOptions,
    write: &CsvWriterOptions,
) -> Result<(), MultiFault>
    requires none { length group.old.items ≡ 0 }
    requires place { place < length parts.now }
    requires single { single.now ≡ for_one read.now }
    requires given { IsSome read.now.schema }
    requires allowed { MayRead read.now }
    requires plain { read.now.row_index ≡ None }
    requires head { HasNoHead write.now }
    ensures read { AreRead (O.holds opener.old) parts.now place (map (λ one. one.bytes.items) group.new.items) }
    ensures printed { ArePrintedOf read.now write.now group.new.items }
    ensures some { OnOk result (0 < length group.new.items) }
    ensures within { place + length group.new.items ≤ length parts.now }
    ensures refused { IfErr result (IsUnread (O.faults opener.old) (O.faults opener.new) (place + length group.new.items)) }
    ensures behind { IfErr result (λ _. place + length group.new.items < length parts.now) }
    ensures later { O.faults opener.old ≤ O.faults opener.new }
    ensures stays { (other : List ℕ) → O.holds opener.new other ≡ O.holds opener.old other }
{
    let left = parts.len() - place - 1;
    let bytes = match read_part(rt, alloc, opener, &parts[place], place, left, rooms) {
        Ok(bytes) => bytes,
        Err(fault) => return Err(fault),
    };
    let printed = print_part(rt, alloc, &bytes, read, single, write);
    if push(group, PartLines::new(bytes, printed)).is_err() {
        return Err(MultiFault::OutOfMemory);
    }
    Ok(())
}

// Reads parts from a place on, and prints their rows: by one worker one part, by several a group of them. Refuses the part behind them where it is
// not read, and want of memory.
fn print_next<W: Threads + Wait + Sync, O: Opener>(
    rt: &W,
    alloc: Global,
    workers: usize,
    opener: &mut O,
    parts: &[Part],
    place: usize,
    rooms: &Mutex<Rooms>,
    group: &mut Vec<PartLines>,
    read: &CsvReadOptions,
    single: &CsvReadOptions,
    write: &CsvWriterOptions,
) -> Result<(), MultiFault>
    requires none { length group.old.items ≡ 0 }
    requires place { place < length parts.now }
    requires single { single.now ≡ for_one read.now }
    requires given { IsSome read.now.schema }
    requires allowed { MayRead read.now }
    requires plain { read.now.row_index ≡ None }
    requires head { HasNoHead write.now }
    ensures read { AreRead (O.holds opener.old) parts.now place (map (λ one. one.bytes.items) group.new.items) }
    ensures printed { ArePrintedOf read.now write.now group.new.items }
    ensures some { OnOk result (0 < length group.new.items) }
    ensures within { place + length group.new.items ≤ length parts.now }
    ensures refused { IfErr result (IsUnread (O.faults opener.old) (O.faults opener.new) (place + length group.new.items)) }
    ensures behind { IfErr result (λ _. place + length group.new.items < length parts.now) }
    ensures later { O.faults opener.old ≤ O.faults opener.new }
    ensures stays { (other : List ℕ) → O.holds opener.new other ≡ O.holds opener.old other }
{
    if workers == 1 {
        return print_one(
            rt, alloc, opener, parts, place, rooms, group, read, single, write,
        );
    }
    print_beside(
        rt, alloc, workers, opener, parts, place, rooms, group, read, single, write,
    )
}

// The lines of the rows of all parts, part by part, by as many workers as the options say, given the options for one worker alone too. Refuses as
// `join_parts` does.
fn print_each<W: Threads + Wait + Sync, O: Opener>(
    rt: &W,
    alloc: Global,
    opener: &mut O,
    parts: &[Part],
    read: &CsvReadOptions,
    single: &CsvReadOptions,
    write: &CsvWriterOptions,
) -> Result<Vec<KeptLines>, MultiFault>
    requires single { single.now ≡ for_one read.now }
    requires sound { IsSound read.now None parts.now }
    requires plain { IsPlain read.now None parts.now }
    requires head { HasNoHead write.now }
    requires empty { IsFrame (no_rows read.now parts.now) }
    ensures lines { IfOk result (λ lines. ArePrinted (O.holds opener.old) read.now write.now parts.now (length parts.now) lines.items) }
    ensures refused { IfErr result (IsJoinFault (O.holds opener.old) (O.faults opener.old) (O.faults opener.new) read.now None parts.now) }
    ensures later { O.faults opener.old ≤ O.faults opener.new }
    ensures stays { (other : List ℕ) → O.holds opener.new other ≡ O.holds opener.old other }
{
    let workers = worker_count(read.n_threads);
    let mut lines = Vec::new(alloc);
    let rooms = Mutex::new(Rooms::new(alloc));
    let mut place = 0;
    while place < parts.len() {
        let mut group = Vec::new(alloc);
        let all_read = print_next(
            rt, alloc, workers, opener, parts, place, &rooms, &mut group, read, single, write,
        );
        let count = group.len();
        match put_lines(rt, alloc, &mut lines, &rooms, group, place) {
            Ok(()) => {}
            Err(fault) => {
                drop(all_read);
                return Err(fault);
            }
        }
        match all_read {
            Ok(()) => place += count,
            Err(fault) => return Err(fault),
        }
    }
    Ok(lines)
}

// What was read of all parts, whose columns these are, printed part by part. Refuses the first cause against them, and want of memory.
fn print_parts<W: Threads + Wait + Sync, O: Opener>(
    rt: &W,
    alloc: Global,
    opener: &mut O,
    job: &MultiJob,
    empty: DataFrame,
) -> Result<Joined, MultiFault>
    requires ascii { HasAsciiQuote job.now.write }
    requires sound { IsSound job.now.read job.now.slice job.now.parts.items }
    requires plain { IsPlain job.now.read job.now.slice job.now.parts.items }
    requires empty { empty ≡ no_rows job.now.read job.now.parts.items }
    requires uncoded { have_codes empty ≡ false }
    ensures joined { IfOk result (IsJoinedBy (O.holds opener.old) (asked job.now)) }
    ensures refused { IfErr result (IsScanFault (O.holds opener.old) (O.faults opener.old) (O.faults opener.new) job.now.read job.now.slice job.now.parts.items) }
    ensures later { O.faults opener.old ≤ O.faults opener.new }
    ensures stays { (other : List ℕ) → O.holds opener.new other ≡ O.holds opener.old other }
{
    let write = without_head(&job.write)?;
    let single = for_one(&job.read)?;
    let printed = print_each(rt, alloc, opener, &job.parts, &job.read, &single, &write);
    drop(single);
    match printed {
        Ok(lines) => Ok(Joined::Lines { lines, empty }),
        Err(fault) => Err(fault),
    }
}

// What was read of all parts, of which a frame is made.
fn scan_parts<W: Threads + Wait + Sync, O: Opener>(
    rt: &W,
    alloc: Global,
    opener: &mut O,
    job: &MultiJob,
) -> Result<Joined, MultiFault>
    ensures joined { IfOk result (IsJoinedBy (O.holds opener.old) (asked job.now)) }
    ensures refused { IfErr result (IsScanFault (O.holds opener.old) (O.faults opener.old) (O.faults opener.new) job.now.read job.now.slice job.now.parts.items) }
    ensures later { O.faults opener.old ≤ O.faults opener.new }
    ensures stays { (other : List ℕ) → O.holds opener.new other ≡ O.holds opener.old other }
{
    match scan_multi(rt, alloc, opener, &job.parts, &job.read, job.slice) {
        Ok(frame) => Ok(Joined::Frame(frame)),
        Err(fault) => Err(fault),
    }
}

// The columns of the answer without rows, where nothing stands against the options and the parts, whatever their bytes. Refuses the first
// such cause, and want of memory.
fn empty_frame(alloc: Global, job: &MultiJob) -> Result<DataFrame, MultiFault>
    requires { IsPlain job.now.read job.now.slice job.now.parts.items }
    ensures sound { OnOk result (IsSound job.now.read job.now.slice job.now.parts.items) }
    ensures empty { IfOk result (λ empty. empty ≡ no_rows job.now.read job.now.parts.items) }
    ensures refused { IfErr result (λ fault. (holds : List ℕ → Option (List ℕ)) (before now : ℕ) → IsScanFault holds before now job.now.read job.now.slice job.now.parts.items fault) }
{
    let stacks = match check_scan(alloc, &job.parts, &job.read, job.slice) {
        Ok(stacks) => stacks,
        Err(fault) => return Err(fault),
    };
    let columns = into_columns(alloc, stacks)?;
    Ok(DataFrame::of_distinct(columns))
}

/// Reads all parts, as a job asks for: each row is printed as it is read, where all are wanted and they have neither numbers nor values nor
/// categories, and else their frame is made. Refuses as `scan_multi` does.
pub(crate) fn read_parts<W: Threads + Wait + Sync, O: Opener>(
    rt: &W,
    alloc: Global,
    opener: &mut O,
    job: &MultiJob,
) -> Result<Joined, MultiFault>
    requires { HasAsciiQuote job.now.write }
    ensures joined { IfOk result (IsJoinedBy (O.holds opener.old) (asked job.now)) }
    ensures refused { IfErr result (IsScanFault (O.holds opener.old) (O.faults opener.old) (O.faults opener.new) job.now.read job.now.slice job.now.parts.items) }
    ensures later { O.faults opener.old ≤ O.faults opener.new }
    ensures stays { (other : List ℕ) → O.holds opener.new other ≡ O.holds opener.old other }
{
    if !is_plain(job) {
        return scan_parts(rt, alloc, opener, job);
    }
    let empty = match empty_frame(alloc, job) {
        Ok(empty) => empty,
        Err(fault) => return Err(fault),
    };
    if have_codes(empty.columns()) {
        drop(empty);
        return scan_parts(rt, alloc, opener, job);
    }
    print_parts(rt, alloc, opener, job, empty)
}

// The texts of lines. Refuses only want of memory.
fn texts_of<'a>(
    alloc: Global,
    lines: &'a [KeptLines],
) -> Result<Vec<CowSlice<'a, u8, Global>>, AllocError>
    ensures { IfOk result (λ texts. concat (map cow_slice_items texts.items) ≡ concat lines.now) }
{
    let mut texts = Vec::new(alloc);
    for kept in lines {
        let (lent, copied) = kept.texts();
        texts.push(CowSlice::Borrowed(lent))?;
        texts.push(CowSlice::Borrowed(copied))?;
    }
    Ok(texts)
}

// Writes lines behind the head of their columns to a sink.
fn write_lines<W: Threads + Sync, Si: Sink>(
    rt: &W,
    alloc: Global,
    lines: &[KeptLines],
    empty: &DataFrame,
    write: &CsvWriterOptions,
    out: &mut Si,
) -> Result<(), SinkFault>
    ensures text { OnOk result (Appends (Si.received out.old) (Si.received out.new) (printed_text (frame_options write.now) (names_of empty.now) lines.now empty.now)) }
    ensures prefix { AppendsPrefix (Si.received out.old) (Si.received out.new) (printed_text (frame_options write.now) (names_of empty.now) lines.now empty.now) }
    ensures later { Si.faults out.old ≤ Si.faults out.new }
    ensures later_wants { Si.wants out.old ≤ Si.wants out.new }
    ensures device { IsErrOf result SinkFault.Device → Rose (Si.faults out.old) (Si.faults out.new) }
{
    let Ok(texts) = texts_of(alloc, lines) else {
        return Err(SinkFault::OutOfMemory);
    };
    write_behind(rt, alloc, 1, &texts, empty.columns(), write, out)
}

/// Writes the text of what was read of all parts to a sink. Refuses a fault of the device, and want of memory. A prefix of the text was
/// then appended.
pub(crate) fn write_joined<W: Threads + Wait + Sync, Si: Sink>(
    rt: &W,
    alloc: Global,
    joined: &Joined,
    job: &MultiJob,
    out: &mut Si,
) -> Result<(), SinkFault>
    ensures text { OnOk result (Appends (Si.received out.old) (Si.received out.new) (joined_text job.now.write joined.now)) }
    ensures prefix { AppendsPrefix (Si.received out.old) (Si.received out.new) (joined_text job.now.write joined.now) }
    ensures later { Si.faults out.old ≤ Si.faults out.new }
    ensures later_wants { Si.wants out.old ≤ Si.wants out.new }
    ensures device { IsErrOf result SinkFault.Device → Rose (Si.faults out.old) (Si.faults out.new) }
{
    match joined {
        Joined::Frame(frame) => {
            let workers = worker_count(job.read.n_threads);
            write_frame(rt, alloc, workers, frame.columns(), &job.write, out)
        }
        Joined::Lines { lines, empty } => write_lines(rt, alloc, lines, empty, &job.write, out),
    }
}
