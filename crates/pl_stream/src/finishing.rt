//! The text of what an input has behind its settled records.
ghost use Rattle.std.specs.Prelude.{◌≡◌, ◌<◌, ◌+◌, ◌^◌, ◌++◌, length, None, OnOk, IfErr};
ghost use Rattle.pl_stream.specs.Ending.{end_rows, end_text};
ghost use Rattle.pl_stream.specs.Printing.{CanStream, rows_cause, IsRowsFault};

use crate::fault::StreamFault;
use crate::printing::{left_limit, push_lines};
use crate::settling::push_head_once;
use pl_options::read_options::CsvReadOptions;
use pl_read::settle_given::Settled;
use pl_write::options::CsvWriterOptions;
use pl_write::row_printer::RowPrinter;
use std::alloc::Global;

/// Appends the text of the records behind so many settled ones, up to the limit, with what stands before the rows where none were settled. Refuses
/// the first cause against them, and want of memory.
pub(crate) fn push_end(
    alloc: Global,
    records: &[u8],
    printer: &mut RowPrinter,
    read: &CsvReadOptions,
    settled: &Settled,
    write: &CsvWriterOptions,
    rows: usize,
    text: &mut Vec<u8>,
) -> Result<(), StreamFault>
    requires can { CanStream read.now settled.now }
    requires fits { rows + length records.now < 2 ^ 64 }
    ensures text { OnOk result (text.new.items ≡ text.old.items ++ end_text read.now write.now rows (end_rows read.now rows records.now)) }
    ensures sound { OnOk result (rows_cause read.now rows (end_rows read.now rows records.now) ≡ None) }
    ensures refused { IfErr result (IsRowsFault (rows_cause read.now rows (end_rows read.now rows records.now))) }
{
    let Ok(()) = push_head_once(alloc, printer, read, settled, write, rows, text) else {
        return Err(StreamFault::OutOfMemory);
    };
    let count = left_limit(read.n_rows, rows).unwrap_or(records.len());
    push_lines(
        alloc, records, printer, read, settled, write, rows, count, text,
    )
}
