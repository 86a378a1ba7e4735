//! The text of a frame, written in blocks.
ghost use Rattle.std.specs.Prelude.{◌≡◌, ◌<◌, ◌++◌, ◌≤◌, ◌-◌, [], All, length, OnOk, IsErrOf};
ghost use Rattle.std.specs.Io.KnownBytes.{Appends};
ghost use Rattle.pl_frame.specs.Causes.{Rose};
ghost use Rattle.pl_frame.specs.Frame.{HaveHeight, height_of};
ghost use Rattle.pl_text.specs.FrameText.{row_lines, text_of_frame};
ghost use Rattle.pl_write.specs.Options.{cell_options, frame_options};
ghost use Rattle.pl_write.specs.Lines.{HaveRows};
ghost use Rattle.pl_write.specs.Strips.{HasRows, strip_lines};
ghost use Rattle.pl_write.specs.Writing.{AppendsPrefix, IsWriting};

use crate::block::Block;
use crate::copies::{are_plain, copies_of};
use crate::head::{ColumnNames, head_block};
use crate::lines::{append_rows, line_count, new_lines, rows_at_once};
use crate::options::{CsvWriterOptions, SerializeOptions};
use crate::printing::write_by_workers;
use crate::spare::Spare;
use crate::strips::{Strip, strips_of};
use pl_frame::column::Column;
use pl_frame::sink::{Sink, SinkFault, write_all};
use std::alloc::Global;
use std::thread::Threads;

// So many bytes are written at a time, or some rows more.
const BLOCK: usize = 1 << 17;

// So many workers print at most.
const WORKERS: usize = 64;

/// The number of rows.
pub(crate) fn row_count(columns: &[Column]) -> usize
    ensures { result ≡ height_of columns.now }
{
    match columns {
        [first, ..] => first.len(),
        [] => 0,
    }
}

// Puts the lines of the rows of strips from one on up to another at the end of a block, whose bytes are appended to a sink as
// soon as they are many.
//
// Refuses a fault of the device, and want of memory, here or in the sink. A prefix of these was then appended.
fn write_strips<Si: Sink>(
    block: &mut Block,
    lines: &mut [Block],
    spare: &mut Spare,
    strips: &[Strip<'_>],
    first: usize,
    end: usize,
    options: &SerializeOptions,
    sink: &mut Si,
) -> Result<(), SinkFault>
    requires lines { 0 < length lines.old }
    requires rows { All (HasRows (cell_options options.now) first end) strips.now }
    ensures text { OnOk result (IsWriting (Si.received sink.old) (Si.received sink.new) block.new [] (block.old ++ strip_lines (cell_options options.now) strips.now first (end - first))) }
    ensures prefix { AppendsPrefix (Si.received sink.old) (Si.received sink.new) (block.old ++ strip_lines (cell_options options.now) strips.now first (end - first)) }
    ensures later { Si.faults sink.old ≤ Si.faults sink.new }
    ensures later_wants { Si.wants sink.old ≤ Si.wants sink.new }
    ensures device { IsErrOf result SinkFault.Device → Rose (Si.faults sink.old) (Si.faults sink.new) }
{
    let mut row = first;
    while row < end {
        let count = line_count(lines, end - row);
        match append_rows(block, &mut lines[..count], spare, strips, row, options) {
            Ok(()) => row += count,
            Err(_) => return Err(SinkFault::OutOfMemory),
        }
        if block.len() >= BLOCK {
            match write_all(sink, block.as_slice()) {
                Ok(()) => block.clear(),
                Err(fault) => return Err(fault),
            }
        }
    }
    Ok(())
}

// The same of the rows of columns, by one copy.
fn write_copied<Si: Sink>(
    alloc: Global,
    block: &mut Block,
    lines: &mut [Block],
    spare: &mut Spare,
    columns: &[Column],
    first: usize,
    end: usize,
    options: &SerializeOptions,
    sink: &mut Si,
) -> Result<(), SinkFault>
    requires lines { 0 < length lines.old }
    requires rows { first ≤ end }
    requires columns { HaveRows end columns.now }
    ensures text { OnOk result (IsWriting (Si.received sink.old) (Si.received sink.new) block.new [] (block.old ++ row_lines (cell_options options.now) columns.now first (end - first))) }
    ensures prefix { AppendsPrefix (Si.received sink.old) (Si.received sink.new) (block.old ++ row_lines (cell_options options.now) columns.now first (end - first)) }
    ensures later { Si.faults sink.old ≤ Si.faults sink.new }
    ensures later_wants { Si.wants sink.old ≤ Si.wants sink.new }
    ensures device { IsErrOf result SinkFault.Device → Rose (Si.faults sink.old) (Si.faults sink.new) }
{
    let Ok(copies) = copies_of(alloc, columns, first, end) else {
        return Err(SinkFault::OutOfMemory);
    };
    let Ok(strips) = strips_of(alloc, columns, &copies, options) else {
        return Err(SinkFault::OutOfMemory);
    };
    write_strips(
        block,
        lines,
        spare,
        &strips,
        copies.first,
        copies.end,
        options,
        sink,
    )
}

// Appends what stands before the rows to a sink, which is in a block, and then the lines of the rows, a block at a time.
//
// Refuses a fault of the device, and want of memory, here or in the sink. A prefix of these was then appended.
fn write_in_blocks<Si: Sink>(
    alloc: Global,
    mut block: Block,
    columns: &[Column],
    height: usize,
    options: &SerializeOptions,
    sink: &mut Si,
) -> Result<(), SinkFault>
    requires { HaveHeight height columns.now }
    ensures text { OnOk result (Appends (Si.received sink.old) (Si.received sink.new) (block ++ row_lines (cell_options options.now) columns.now 0 height)) }
    ensures prefix { AppendsPrefix (Si.received sink.old) (Si.received sink.new) (block ++ row_lines (cell_options options.now) columns.now 0 height) }
    ensures later { Si.faults sink.old ≤ Si.faults sink.new }
    ensures later_wants { Si.wants sink.old ≤ Si.wants sink.new }
    ensures device { IsErrOf result SinkFault.Device → Rose (Si.faults sink.old) (Si.faults sink.new) }
{
    let Ok(mut lines) = new_lines(alloc) else {
        return Err(SinkFault::OutOfMemory);
    };
    let lines = lines.as_mut_slice();
    let mut spare = Spare::new(alloc);
    let plain = are_plain(columns);
    let mut row = 0;
    while row < height {
        let count = rows_at_once(plain, lines, height - row);
        let end = row + count;
        match write_copied(
            alloc, &mut block, lines, &mut spare, columns, row, end, options, sink,
        ) {
            Ok(()) => row = end,
            Err(fault) => return Err(fault),
        }
    }
    write_all(sink, block.as_slice())
}

// Appends what stands before the rows to a sink, and then the lines of the rows, printed by so many workers.
//
// Refuses a fault of the device, and want of memory, here, of a worker or in the sink. A prefix of these was then appended.
fn write_side_by_side<W: Threads + Sync, Si: Sink>(
    rt: &W,
    alloc: Global,
    workers: usize,
    head: &[u8],
    columns: &[Column],
    height: usize,
    options: &CsvWriterOptions,
    sink: &mut Si,
) -> Result<(), SinkFault>
    requires workers { 0 < workers }
    requires columns { HaveHeight height columns.now }
    ensures text { OnOk result (Appends (Si.received sink.old) (Si.received sink.new) (head.now ++ row_lines (cell_options options.now.serialize_options) columns.now 0 height)) }
    ensures prefix { AppendsPrefix (Si.received sink.old) (Si.received sink.new) (head.now ++ row_lines (cell_options options.now.serialize_options) columns.now 0 height) }
    ensures later { Si.faults sink.old ≤ Si.faults sink.new }
    ensures later_wants { Si.wants sink.old ≤ Si.wants sink.new }
    ensures device { IsErrOf result SinkFault.Device → Rose (Si.faults sink.old) (Si.faults sink.new) }
{
    match write_all(sink, head) {
        Ok(()) => { write_by_workers(rt, alloc, workers, columns, height, options, sink) }
        Err(fault) => Err(fault),
    }
}

/// Appends what is in a block to a sink, and behind it the lines of the rows, printed by so many workers, by 64 at most and by no
/// more than there are batches.
///
/// Refuses a fault of the device, and want of memory, here, of a worker or in the sink. A prefix of these was then appended.
pub(crate) fn write_rows_behind<W: Threads + Sync, Si: Sink>(
    rt: &W,
    alloc: Global,
    workers: usize,
    head: Block,
    columns: &[Column],
    options: &CsvWriterOptions,
    sink: &mut Si,
) -> Result<(), SinkFault>
    requires workers { 0 < workers }
    requires columns { HaveHeight (height_of columns.now) columns.now }
    ensures text { OnOk result (Appends (Si.received sink.old) (Si.received sink.new) (head ++ row_lines (cell_options options.now.serialize_options) columns.now 0 (height_of columns.now))) }
    ensures prefix { AppendsPrefix (Si.received sink.old) (Si.received sink.new) (head ++ row_lines (cell_options options.now.serialize_options) columns.now 0 (height_of columns.now)) }
    ensures later { Si.faults sink.old ≤ Si.faults sink.new }
    ensures later_wants { Si.wants sink.old ≤ Si.wants sink.new }
    ensures device { IsErrOf result SinkFault.Device → Rose (Si.faults sink.old) (Si.faults sink.new) }
{
    let cells = &options.serialize_options;
    let height = row_count(columns);
    let batch_size = options.batch_size.max(1);
    if workers == 1 || height <= batch_size {
        return write_in_blocks(alloc, head, columns, height, cells, sink);
    }
    let batches = (height / batch_size).saturating_add(1);
    write_side_by_side(
        rt,
        alloc,
        workers.min(WORKERS).min(batches),
        head.as_slice(),
        columns,
        height,
        options,
        sink,
    )
}

/// Appends the text of a frame to a sink, printed by so many workers, by 64 at most and by no more than there are batches.
///
/// The rows are printed in batches of the options' size, of which 0 counts as 1. A frame of no more than one batch, and each
/// frame where one worker is asked for, is printed by the caller, a block at a time. Else each worker prints up to eight batches
/// at a time, and fewer of wide rows, which the caller then writes in order. Where a thread can't be started, the caller prints
/// in its place.
///
/// Refuses a fault of the device, and want of memory, here, of a worker or in the sink. A prefix of the text was then appended.
pub fn write_frame<W: Threads + Sync, Si: Sink>(
    rt: &W,
    alloc: Global,
    workers: usize,
    columns: &[Column],
    options: &CsvWriterOptions,
    sink: &mut Si,
) -> Result<(), SinkFault>
    requires workers { 0 < workers }
    requires columns { HaveHeight (height_of columns.now) columns.now }
    ensures text { OnOk result (Appends (Si.received sink.old) (Si.received sink.new) (text_of_frame (frame_options options.now) columns.now)) }
    ensures prefix { AppendsPrefix (Si.received sink.old) (Si.received sink.new) (text_of_frame (frame_options options.now) columns.now) }
    ensures later { Si.faults sink.old ≤ Si.faults sink.new }
    ensures later_wants { Si.wants sink.old ≤ Si.wants sink.new }
    ensures device { IsErrOf result SinkFault.Device → Rose (Si.faults sink.old) (Si.faults sink.new) }
{
    let Ok(head) = head_block(alloc, &ColumnNames(columns), options) else {
        return Err(SinkFault::OutOfMemory);
    };
    write_rows_behind(rt, alloc, workers, head, columns, options, sink)
}
