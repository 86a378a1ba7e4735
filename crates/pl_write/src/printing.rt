//! The rows of a frame, printed by several workers side by side and written in order.
ghost use Rattle.std.specs.Prelude.{◌≡◌, ◌⊎◌, ℕ, ◌-◌, ◌<◌, ◌≤◌, false, [], All, length, slice_index_or, IfOk, OnOk, IsErrOf};
ghost use Rattle.std.specs.Bool.{OnTrue};
ghost use Rattle.std.specs.Thread.{IsSync};
ghost use Rattle.std.specs.Io.KnownBytes.{Appends};
ghost use Rattle.pl_frame.specs.Causes.{Rose};
ghost use Rattle.pl_frame.specs.Frame.{HaveHeight};
ghost use Rattle.pl_text.specs.FrameText.{row_lines};
ghost use Rattle.pl_write.specs.Lines.{HaveRows};
ghost use Rattle.pl_write.specs.Options.{cell_options};
ghost use Rattle.pl_write.specs.Printing.{ShareValue, FollowOn, texts_of};
ghost use Rattle.pl_write.specs.Writing.{AppendsPrefix};

use crate::options::{CsvWriterOptions, SerializeOptions};
use crate::share::Share;
use pl_frame::column::Column;
use pl_frame::sink::{Sink, SinkFault, write_all};
use std::alloc::{AllocError, Global};
use std::thread::Threads;
use std::{mem, thread};

// So many batches are a share, or fewer.
const BATCHES: usize = 8;

// So many cells are a share, or fewer, where a row has no more.
const CELLS: usize = 1 << 17;

// So many shares of no rows. Refuses only want of memory.
fn new_shares(alloc: Global, workers: usize) -> Result<Vec<Share>, AllocError>
    requires { 0 < workers }
    ensures some { IfOk result (λ shares. 0 < length shares.items) }
    ensures empty { IfOk result (λ shares. texts_of shares.items ≡ []) }
{
    let mut shares = Vec::new(alloc);
    shares.push(Share::new(alloc)?)?;
    for _ in 1..workers {
        shares.push(Share::new(alloc)?)?;
    }
    Ok(shares)
}

// How many rows are a share, where so many are left.
fn share_size(batch_size: usize, width: usize, left: usize, workers: usize) -> usize
    requires { 0 < workers }
    ensures { 0 < result }
{
    let most = batch_size.max(1).saturating_mul(BATCHES);
    let narrow = CELLS / width.max(1);
    most.min(narrow).min(left.div_ceil(workers)).max(1)
}

// The row behind a share that begins at a row: so many rows behind, or behind the last.
fn end_of(row: usize, height: usize, count: usize) -> usize
    requires row { row ≤ height }
    requires count { 0 < count }
    ensures further { (row < result) ⊎ (height ≡ row) }
    ensures up { row ≤ result }
    ensures inside { result ≤ height }
{
    if count < height - row {
        row + count
    } else {
        height
    }
}

// Gives the shares the rows from one on, so many each while there are as many, and answers the row behind the last.
fn set_rows(shares: &mut [Share], first: usize, height: usize, count: usize) -> usize
    requires first { first < height }
    requires count { 0 < count }
    requires shares { 0 < length shares.old }
    ensures rows { FollowOn first result shares.new }
    ensures further { first < result }
    ensures inside { result ≤ height }
{
    let mut row = first;
    for share in shares.iter_mut() {
        let end = end_of(row, height, count);
        share.set_rows(row, end);
        row = end;
    }
    row
}

// Prints the rows of each share, the shares side by side.
fn print_each<W: Threads + Sync>(
    rt: &W,
    workers: usize,
    shares: &mut [Share],
    columns: &[Column],
    options: &SerializeOptions,
)
    requires workers { 0 < workers }
    requires rows { All (λ share. HaveRows share.end columns.now) shares.old }
    ensures { (i : ℕ) (d : ShareValue) → i < length shares.old
        → (slice_index_or shares.new i d).wanting ≡ false
        → (slice_index_or shares.new i d).text ≡ row_lines (cell_options options.now) columns.now (slice_index_or shares.old i d).first ((slice_index_or shares.old i d).end - (slice_index_or shares.old i d).first) }
{
    let print = |_: usize, share: &mut Share|
        requires { HaveRows share.old.end columns.now }
        ensures { share.new.wanting ≡ false → share.new.text ≡ row_lines (cell_options options.entry.now) columns.entry.now share.old.first (share.old.end - share.old.first) }
    { share.print(columns, options) };
    thread::for_each_mut(rt, shares, workers, &print);
}

// Whether memory sufficed for all shares.
fn are_printed(shares: &[Share]) -> bool
    ensures { OnTrue result (All (λ share. share.wanting ≡ false) shares.now) }
{
    for share in shares {
        if share.is_wanting() {
            return false;
        }
    }
    true
}

// Appends the texts of the shares to a sink, one behind the other. Refuses a fault of the device, and want of memory in the
// sink. A prefix of the texts was then appended.
fn write_each<Si: Sink>(shares: &[Share], sink: &mut Si) -> Result<(), SinkFault>
    ensures text { OnOk result (Appends (Si.received sink.old) (Si.received sink.new) (texts_of shares.now)) }
    ensures prefix { AppendsPrefix (Si.received sink.old) (Si.received sink.new) (texts_of shares.now) }
    ensures later { Si.faults sink.old ≤ Si.faults sink.new }
    ensures later_wants { Si.wants sink.old ≤ Si.wants sink.new }
    ensures device { IsErrOf result SinkFault.Device → Rose (Si.faults sink.old) (Si.faults sink.new) }
{
    for share in shares {
        match write_all(sink, share.as_slice()) {
            Ok(()) => {}
            Err(fault) => return Err(fault),
        }
    }
    Ok(())
}

// Gives the shares the rows from one on, so many each or fewer, and prints them side by side. Answers the row behind the last.
// Refuses only want of memory, of a worker too.
fn print_round<W: Threads + Sync>(
    rt: &W,
    workers: usize,
    shares: &mut [Share],
    columns: &[Column],
    options: &SerializeOptions,
    first: usize,
    height: usize,
    count: usize,
) -> Result<usize, AllocError>
    requires workers { 0 < workers }
    requires shares { 0 < length shares.old }
    requires columns { HaveHeight height columns.now }
    requires first { first < height }
    requires count { 0 < count }
    ensures further { IfOk result (λ end. first < end) }
    ensures inside { IfOk result (λ end. end ≤ height) }
    ensures text { IfOk result (λ end. texts_of shares.new ≡ row_lines (cell_options options.now) columns.now first (end - first)) }
{
    let end = set_rows(shares, first, height, count);
    print_each(rt, workers, shares, columns, options);
    if are_printed(shares) {
        Ok(end)
    } else {
        Err(AllocError)
    }
}

// Prints a share of the rows from one on with each worker, so many rows each or fewer, while the texts of other shares are
// appended to a sink. Answers the row behind the last.
//
// Refuses a fault of the device, and want of memory, of a worker or in the sink. A prefix of those texts was then appended.
fn print_beside<W: Threads + Sync, Si: Sink>(
    rt: &W,
    workers: usize,
    ready: &[Share],
    shares: &mut [Share],
    columns: &[Column],
    options: &SerializeOptions,
    first: usize,
    height: usize,
    count: usize,
    sink: &mut Si,
) -> Result<usize, SinkFault>
    requires workers { 0 < workers }
    requires shares { 0 < length shares.old }
    requires columns { HaveHeight height columns.now }
    requires first { first < height }
    requires count { 0 < count }
    ensures further { IfOk result (λ end. first < end) }
    ensures inside { IfOk result (λ end. end ≤ height) }
    ensures next { IfOk result (λ end. texts_of shares.new ≡ row_lines (cell_options options.now) columns.now first (end - first)) }
    ensures text { OnOk result (Appends (Si.received sink.old) (Si.received sink.new) (texts_of ready.now)) }
    ensures prefix { AppendsPrefix (Si.received sink.old) (Si.received sink.new) (texts_of ready.now) }
    ensures later { Si.faults sink.old ≤ Si.faults sink.new }
    ensures later_wants { Si.wants sink.old ≤ Si.wants sink.new }
    ensures device { IsErrOf result SinkFault.Device → Rose (Si.faults sink.old) (Si.faults sink.new) }
{
    let mut print = ||
        requires sync { IsSync W.row }
        requires workers { 0 < workers }
        requires shares { 0 < length shares.now }
        requires columns { HaveHeight height columns.now }
        requires first { first < height }
        requires count { 0 < count }
        ensures further { IfOk result (λ end. first < end) }
        ensures inside { IfOk result (λ end. end ≤ height) }
        ensures text { IfOk result (λ end. texts_of shares.exit.now ≡ row_lines (cell_options options.entry.now) columns.entry.now first (end - first)) }
    { print_round(rt, workers, shares, columns, options, first, height, count) };
    let mut write = || write_each(ready, sink);
    let (printed, written) = thread::join_mut(rt, &mut print, &mut write);
    match (written, printed) {
        (Ok(()), Ok(end)) => Ok(end),
        (Ok(()), Err(_)) => Err(SinkFault::OutOfMemory),
        (Err(fault), _) => Err(fault),
    }
}

/// Appends the lines of the rows to a sink, printed by so many workers: while they print some rows, the lines of those before are
/// appended.
///
/// Refuses a fault of the device, and want of memory, here, of a worker or in the sink. A prefix of the lines was then
/// appended.
pub(crate) fn write_by_workers<W: Threads + Sync, Si: Sink>(
    rt: &W,
    alloc: Global,
    workers: usize,
    columns: &[Column],
    height: usize,
    options: &CsvWriterOptions,
    sink: &mut Si,
) -> Result<(), SinkFault>
    requires workers { 0 < workers }
    requires columns { HaveHeight height columns.now }
    ensures text { OnOk result (Appends (Si.received sink.old) (Si.received sink.new) (row_lines (cell_options options.now.serialize_options) columns.now 0 height)) }
    ensures prefix { AppendsPrefix (Si.received sink.old) (Si.received sink.new) (row_lines (cell_options options.now.serialize_options) columns.now 0 height) }
    ensures later { Si.faults sink.old ≤ Si.faults sink.new }
    ensures later_wants { Si.wants sink.old ≤ Si.wants sink.new }
    ensures device { IsErrOf result SinkFault.Device → Rose (Si.faults sink.old) (Si.faults sink.new) }
{
    let Ok(mut ready) = new_shares(alloc, workers) else {
        return Err(SinkFault::OutOfMemory);
    };
    let Ok(mut next) = new_shares(alloc, workers) else {
        return Err(SinkFault::OutOfMemory);
    };
    let mut row = 0;
    while row < height {
        let count = share_size(options.batch_size, columns.len(), height - row, workers);
        let options = &options.serialize_options;
        match print_beside(
            rt, workers, &ready, &mut next, columns, options, row, height, count, sink,
        ) {
            Ok(end) => row = end,
            Err(fault) => return Err(fault),
        }
        mem::swap(&mut ready, &mut next);
    }
    write_each(&ready, sink)
}
