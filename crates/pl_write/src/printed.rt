//! The text of a frame whose first rows were printed before.
ghost use Rattle.std.specs.Prelude.{◌≤◌, ◌<◌, ◌++◌, map, OnOk, IsErrOf};
ghost use Rattle.std.specs.Cow.{cow_slice_items};
ghost use Rattle.std.specs.Io.KnownBytes.{Appends};
ghost use Rattle.std.specs.List.{concat};
ghost use Rattle.pl_frame.specs.Causes.{Rose};
ghost use Rattle.pl_frame.specs.Frame.{HaveHeight, height_of, names_of};
ghost use Rattle.pl_write.specs.Batches.{all_lines};
ghost use Rattle.pl_write.specs.Options.{cell_options, frame_options};
ghost use Rattle.pl_write.specs.Printed.{printed_text};
ghost use Rattle.pl_write.specs.Writing.{AppendsPrefix};

use crate::block::Block;
use crate::head::{ColumnNames, head_block};
use crate::options::CsvWriterOptions;
use crate::writer::write_rows_behind;
use pl_frame::column::Column;
use pl_frame::sink::{Sink, SinkFault, write_all};
use std::alloc::Global;
use std::borrow::CowSlice;
use std::thread::Threads;

// Appends texts to a sink, one behind the other. Refuses a fault of the device, and want of memory in the sink. A prefix of the
// texts was then appended.
fn write_texts<Si: Sink>(texts: &[CowSlice<'_, u8, Global>], sink: &mut Si) -> Result<(), SinkFault>
    ensures text { OnOk result (Appends (Si.received sink.old) (Si.received sink.new) (concat (map cow_slice_items texts.now))) }
    ensures prefix { AppendsPrefix (Si.received sink.old) (Si.received sink.new) (concat (map cow_slice_items texts.now)) }
    ensures later { Si.faults sink.old ≤ Si.faults sink.new }
    ensures later_wants { Si.wants sink.old ≤ Si.wants sink.new }
    ensures device { IsErrOf result SinkFault.Device → Rose (Si.faults sink.old) (Si.faults sink.new) }
{
    for text in texts {
        match write_all(sink, text.as_slice()) {
            Ok(()) => {}
            Err(fault) => return Err(fault),
        }
    }
    Ok(())
}

// Appends lines that were printed before to a sink, and then the lines of the rows, printed by so many workers.
//
// Refuses a fault of the device, and want of memory, here, of a worker or in the sink. A prefix of these was then appended.
fn write_printed<W: Threads + Sync, Si: Sink>(
    rt: &W,
    alloc: Global,
    workers: usize,
    printed: &[CowSlice<'_, u8, Global>],
    columns: &[Column],
    options: &CsvWriterOptions,
    sink: &mut Si,
) -> Result<(), SinkFault>
    requires workers { 0 < workers }
    requires columns { HaveHeight (height_of columns.now) columns.now }
    ensures text { OnOk result (Appends (Si.received sink.old) (Si.received sink.new) (concat (map cow_slice_items printed.now) ++ all_lines (cell_options options.now.serialize_options) columns.now)) }
    ensures prefix { AppendsPrefix (Si.received sink.old) (Si.received sink.new) (concat (map cow_slice_items printed.now) ++ all_lines (cell_options options.now.serialize_options) columns.now) }
    ensures later { Si.faults sink.old ≤ Si.faults sink.new }
    ensures later_wants { Si.wants sink.old ≤ Si.wants sink.new }
    ensures device { IsErrOf result SinkFault.Device → Rose (Si.faults sink.old) (Si.faults sink.new) }
{
    match write_texts(printed, sink) {
        Ok(()) => {
            write_rows_behind(
                rt,
                alloc,
                workers,
                Block::new(alloc),
                columns,
                options,
                sink,
            )
        }
        Err(fault) => Err(fault),
    }
}

/// Appends the text of a frame to a sink whose first rows were printed before: what stands before the rows of these columns,
/// the lines that were printed, one text behind the other, and then the lines of the columns' rows, printed by so many workers
/// as by `write_frame`. A `RowPrinter` prints such lines.
///
/// Refuses a fault of the device, and want of memory, here, of a worker or in the sink. A prefix of the text was then appended.
pub fn write_behind<W: Threads + Sync, Si: Sink>(
    rt: &W,
    alloc: Global,
    workers: usize,
    printed: &[CowSlice<'_, u8, Global>],
    columns: &[Column],
    options: &CsvWriterOptions,
    sink: &mut Si,
) -> Result<(), SinkFault>
    requires workers { 0 < workers }
    requires columns { HaveHeight (height_of columns.now) columns.now }
    ensures text { OnOk result (Appends (Si.received sink.old) (Si.received sink.new) (printed_text (frame_options options.now) (names_of columns.now) (map cow_slice_items printed.now) columns.now)) }
    ensures prefix { AppendsPrefix (Si.received sink.old) (Si.received sink.new) (printed_text (frame_options options.now) (names_of columns.now) (map cow_slice_items printed.now) columns.now) }
    ensures later { Si.faults sink.old ≤ Si.faults sink.new }
    ensures later_wants { Si.wants sink.old ≤ Si.wants sink.new }
    ensures device { IsErrOf result SinkFault.Device → Rose (Si.faults sink.old) (Si.faults sink.new) }
{
    let Ok(head) = head_block(alloc, &ColumnNames(columns), options) else {
        return Err(SinkFault::OutOfMemory);
    };
    match write_all(sink, head.as_slice()) {
        Ok(()) => write_printed(rt, alloc, workers, printed, columns, options, sink),
        Err(fault) => Err(fault),
    }
}
