//! What the settled text gains by whole records.
ghost use Rattle.std.specs.Prelude.{◌≡◌, ◌≤◌, ◌<◌, ◌+◌, ◌^◌, ◌++◌, length, IfOk, OnOk, IfErr, IfSome, IsOkUnless};
ghost use Rattle.pl_read.specs.Refusals.{numbers_past};
ghost use Rattle.pl_rows.specs.Pieces.{left_limit};
ghost use Rattle.pl_stream.specs.declared.fault.StreamFault.TheVariants as fault;
ghost use Rattle.pl_stream.specs.Printing.{CanStream, AreSettled, IsPrintFault, head_once};
ghost use Rattle.pl_stream.specs.Whole.{IsWholeEnd};

use crate::fault::StreamFault;
use crate::heading::push_head;
use crate::printing::print_records;
use crate::whole::Whole;
use pl_options::read_options::CsvReadOptions;
use pl_read::settle_given::Settled;
use pl_write::options::CsvWriterOptions;
use pl_write::row_printer::RowPrinter;
use std::alloc::Global;

/// Appends what stands before the rows, unless rows were settled before. Refuses only want of memory.
pub(crate) fn push_head_once(
    alloc: Global,
    printer: &mut RowPrinter,
    read: &CsvReadOptions,
    settled: &Settled,
    write: &CsvWriterOptions,
    rows: usize,
    text: &mut Vec<u8>,
) -> Result<(), StreamFault>
    requires { CanStream read.now settled.now }
    ensures head { OnOk result (text.new.items ≡ text.old.items ++ head_once read.now write.now rows) }
    ensures refused { IsOkUnless result fault.OutOfMemory }
{
    if rows == 0 {
        push_head(alloc, printer, read, settled, write, text)
    } else {
        Ok(())
    }
}

/// Appends what the settled text gains by the whole records at the front of others, behind so many, up to the limit. Refuses the first cause
/// against all of them, and want of memory.
pub(crate) fn push_settled(
    alloc: Global,
    records: &[u8],
    printer: &mut RowPrinter,
    read: &CsvReadOptions,
    settled: &Settled,
    write: &CsvWriterOptions,
    rows: usize,
    text: &mut Vec<u8>,
) -> Result<Whole, StreamFault>
    requires can { CanStream read.now settled.now }
    requires pieces { 0 < read.now.chunk_size }
    requires fits { rows + length records.now < 2 ^ 64 }
    requires numbered { numbers_past read.now.row_index rows ≡ None }
    ensures settled { IfOk result (AreSettled read.now write.now rows records.now text.old.items text.new.items) }
    ensures end { IfOk result (IsWholeEnd read.now.parse_options records.now (left_limit read.now.n_rows rows)) }
    ensures few { IfOk result (λ whole. IfSome (left_limit read.now.n_rows rows) (λ most. whole.rows ≤ most)) }
    ensures refused { IfErr result (IsPrintFault read.now rows (left_limit read.now.n_rows rows) records.now) }
{
    let before = text.len();
    let Ok(()) = push_head_once(alloc, printer, read, settled, write, rows, text) else {
        return Err(StreamFault::OutOfMemory);
    };
    match print_records(alloc, records, printer, read, settled, write, rows, text) {
        Ok(whole) => {
            if rows > 0 {
                return Ok(whole);
            }
            if whole.rows > 0 {
                return Ok(whole);
            }
            text.truncate(before);
            Ok(whole)
        }
        Err(fault) => Err(fault),
    }
}
