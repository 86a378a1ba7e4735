//! Lines that were printed before, written with their numbers.
ghost use Rattle.std.specs.Prelude.{◌≡◌, ◌≤◌, ◌+◌, ◌*◌, ◌∷◌, ◌++◌, ℕ, List, length, map, IfOk, OnOk, IsErrOf};
ghost use Rattle.std.specs.Cow.{cow_slice_items};
ghost use Rattle.std.specs.Io.KnownBytes.{Appends};
ghost use Rattle.std.specs.List.{concat};
ghost use Rattle.pl_frame.specs.Causes.{Rose};
ghost use Rattle.pl_frame.specs.Frame.{ColumnValue, height_of};
ghost use Rattle.pl_frame.specs.RowIndex.{row_index_column};
ghost use Rattle.pl_row_numbers.specs.Numbered.{numbered, stand_behind};
ghost use Rattle.pl_row_numbers.specs.Numbers.{AreLinesOf};
ghost use Rattle.pl_write.specs.Batches.{all_lines};
ghost use Rattle.pl_write.specs.Options.{cell_options};
ghost use Rattle.pl_write.specs.Writing.{AppendsPrefix};

use crate::fronts::{FrontForm, form_of};
use crate::numbering::{Stand, put_numbered};
use pl_frame::sink::{Sink, SinkFault, write_all};
use pl_write::options::SerializeOptions;
use std::alloc::Global;
use std::borrow::CowSlice;

// So many bytes are numbered at a time.
const PIECE: usize = 1 << 15;

// They need no more room with their numbers: a byte and the number in front of it, 20 digits between quotes and a separator, and the bytes that
// are copied with few.
const ROOM: usize = 24 * PIECE + 96;

// Appends a text to a sink, with a number in front of each line that begins in it, and answers where it stands then. Refuses what the sink
// refuses; a prefix was then appended.
fn write_text<Si: Sink>(
    block: &mut [u8],
    text: &[u8],
    stand: Stand,
    form: FrontForm,
    sink: &mut Si,
) -> Result<Stand, SinkFault>
    requires { length block.old ≡ ROOM }
    ensures text { OnOk result (Appends (Si.received sink.old) (Si.received sink.new) (numbered form stand text.now)) }
    ensures stand { IfOk result (λ behind. behind ≡ stand_behind stand text.now) }
    ensures prefix { AppendsPrefix (Si.received sink.old) (Si.received sink.new) (numbered form stand text.now) }
    ensures later { Si.faults sink.old ≤ Si.faults sink.new }
    ensures later_wants { Si.wants sink.old ≤ Si.wants sink.new }
    ensures device { IsErrOf result SinkFault.Device → Rose (Si.faults sink.old) (Si.faults sink.new) }
{
    let mut now = stand;
    let mut from = 0;
    while from < text.len() {
        let end = from + PIECE.min(text.len() - from);
        let (len, behind) = put_numbered(block, &text[from..end], now, form);
        match write_all(sink, &block[..len]) {
            Ok(()) => {
                now = behind;
                from = end;
            }
            Err(fault) => return Err(fault),
        }
    }
    Ok(now)
}

// Appends texts to a sink, one behind the other, with a number in front of each line that begins in them. Refuses what the sink refuses; a
// prefix was then appended.
fn write_texts<Si: Sink>(
    block: &mut [u8],
    texts: &[CowSlice<'_, u8, Global>],
    stand: Stand,
    form: FrontForm,
    sink: &mut Si,
) -> Result<(), SinkFault>
    requires { length block.old ≡ ROOM }
    ensures text { OnOk result (Appends (Si.received sink.old) (Si.received sink.new) (numbered form stand (concat (map cow_slice_items texts.now)))) }
    ensures prefix { AppendsPrefix (Si.received sink.old) (Si.received sink.new) (numbered form stand (concat (map cow_slice_items texts.now))) }
    ensures later { Si.faults sink.old ≤ Si.faults sink.new }
    ensures later_wants { Si.wants sink.old ≤ Si.wants sink.new }
    ensures device { IsErrOf result SinkFault.Device → Rose (Si.faults sink.old) (Si.faults sink.new) }
{
    let mut now = stand;
    for text in texts {
        match write_text(block, text.as_slice(), now, form, sink) {
            Ok(behind) => now = behind,
            Err(fault) => return Err(fault),
        }
    }
    Ok(())
}

/// Appends the lines of rows to a sink that were printed without a row index, one text behind the other, each behind its number, from one number
/// on: what is written of the same rows behind a row index. Lines may be cut between two texts.
///
/// Refuses a fault of the device, and want of memory, here or in the sink. A prefix of the lines was then appended.
pub fn write_numbered<Si: Sink>(
    alloc: Global,
    lines: &[CowSlice<'_, u8, Global>],
    offset: u64,
    options: &SerializeOptions,
    sink: &mut Si,
) -> Result<(), SinkFault>
    ensures text { (name : List ℕ) (columns : List ColumnValue) → AreLinesOf (cell_options options.now) offset columns (map cow_slice_items lines.now)
        → OnOk result (Appends (Si.received sink.old) (Si.received sink.new) (all_lines (cell_options options.now) (row_index_column name offset (height_of columns) ∷ columns))) }
    ensures prefix { (name : List ℕ) (columns : List ColumnValue) → AreLinesOf (cell_options options.now) offset columns (map cow_slice_items lines.now)
        → AppendsPrefix (Si.received sink.old) (Si.received sink.new) (all_lines (cell_options options.now) (row_index_column name offset (height_of columns) ∷ columns)) }
    ensures later { Si.faults sink.old ≤ Si.faults sink.new }
    ensures later_wants { Si.wants sink.old ≤ Si.wants sink.new }
    ensures device { IsErrOf result SinkFault.Device → Rose (Si.faults sink.old) (Si.faults sink.new) }
{
    let mut block = Vec::new(alloc);
    if block.resize(ROOM, 0).is_err() {
        return Err(SinkFault::OutOfMemory);
    }
    let stand = Stand {
        number: offset,
        begun: false,
        odd: false,
    };
    write_texts(&mut block, lines, stand, form_of(options), sink)
}
