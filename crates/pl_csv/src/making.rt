//! A making job: an input is made and converted, and a line tells how large it and its text are.
ghost use Rattle.std.specs.Prelude.{◌≡◌, ◌⊎◌, ◌≤◌, ◌++◌, Some, decimal, IfOk, IfErr, OnOk, IsOkUnless};
ghost use Rattle.pl_frame.specs.declared.error.PolarsError.TheVariants as error;
ghost use Rattle.pl_csv.specs.Making.{made_schema, made_options, summary_line, HasHeight, IsSummary, IsNoSummary, IsMade, IsMakingFault};
ghost use Rattle.pl_csv.specs.Transcoding.{IsTranscodeFault};
ghost use Rattle.pl_csv.specs.Views.{sink_view};
ghost use Rattle.pl_write.specs.Options.{default_options};

use crate::conversion::Conversion;
use crate::laws::made_input_is_read;
use crate::make_input::{make_input, push_number};
use crate::transcode::transcode;
use pl_frame::data_type::DataType;
use pl_frame::error::{OpFault, PolarsError, PolarsResult};
use pl_frame::name::PlSmallStr;
use pl_frame::schema::Schema;
use pl_frame::sink::{MemSink, Sink, SinkFault, write_all};
use pl_options::read_options::CsvReadOptions;
use pl_write::options::CsvWriterOptions;
use std::alloc::{AllocError, Global};
use std::sync::Wait;
use std::thread::Threads;

// The columns of a made input. Refuses only want of memory.
fn made_schema(alloc: Global) -> PolarsResult<Schema>
    ensures made { IfOk result (λ schema. schema ≡ made_schema) }
    ensures refused { IsOkUnless result error.OutOfMemory }
{
    let mut schema = Schema::new(alloc);
    schema.with_column(PlSmallStr::from_str(alloc, "id")?, DataType::Int64)?;
    schema.with_column(PlSmallStr::from_str(alloc, "name")?, DataType::String)?;
    schema.with_column(PlSmallStr::from_str(alloc, "day")?, DataType::Date)?;
    let amount = DataType::Decimal(None, Some(2));
    schema.with_column(PlSmallStr::from_str(alloc, "amount")?, amount)?;
    Ok(schema)
}

// How a made input is converted. Refuses only want of memory.
fn made_conversion(alloc: Global, workers: usize, piece: usize) -> PolarsResult<Conversion>
    ensures read { IfOk result (λ conversion. conversion.read ≡ made_options workers piece) }
    ensures write { IfOk result (λ conversion. conversion.write ≡ default_options) }
    ensures refused { IsOkUnless result error.OutOfMemory }
{
    let write = CsvWriterOptions::new(alloc)?;
    let schema = match made_schema(alloc) {
        Ok(schema) => schema,
        Err(fault) => {
            drop(write);
            return Err(fault);
        }
    };
    let read = CsvReadOptions::new(alloc)
        .with_schema(Some(schema))
        .with_n_threads(Some(workers))
        .with_chunk_size(piece);
    Ok(Conversion { read, write })
}

// Converts a made input, and answers how many rows its frame has. Refuses what `transcode` refuses, and want of memory.
fn convert_made<W: Threads + Wait + Sync>(
    rt: &W,
    alloc: Global,
    input: &[u8],
    workers: usize,
    piece: usize,
    text: &mut MemSink,
) -> PolarsResult<usize>
    ensures rows { IfOk result (λ rows. HasHeight (made_options workers piece) default_options input.now text.old.received text.new.received rows) }
    ensures refused { IfErr result (λ fault. (fault ≡ error.OutOfMemory) ⊎ IsTranscodeFault (made_options workers piece) default_options input.now (sink_view (Some text.old.received) 0 text.old.wants) (sink_view (Some text.new.received) 0 text.new.wants) fault) }
{
    let conversion = made_conversion(alloc, workers, piece)?;
    let read = transcode(rt, alloc, input, &conversion.read, &conversion.write, text);
    drop(conversion);
    match read {
        Ok(frame) => {
            let height = frame.height();
            drop(frame);
            Ok(height)
        }
        Err(fault) => Err(fault),
    }
}

// Appends a text and a number.
fn push_counted(line: &mut Vec<u8>, text: &str, number: u64) -> Result<(), AllocError>
    ensures { OnOk result (line.new.items ≡ line.old.items ++ (text.now ++ decimal number)) }
{
    line.extend_from_slice(text.as_bytes())?;
    push_number(line, number)?;
    Ok(())
}

// Appends the line of so many rows and bytes.
fn push_summary(
    line: &mut Vec<u8>,
    rows: usize,
    bytes_in: usize,
    bytes_out: usize,
) -> Result<(), AllocError>
    ensures { OnOk result (line.new.items ≡ line.old.items ++ summary_line rows bytes_in bytes_out) }
{
    push_counted(line, "rows ", rows as u64)?;
    push_counted(line, " in ", bytes_in as u64)?;
    push_counted(line, " out ", bytes_out as u64)?;
    line.extend_from_slice(b"\n")?;
    Ok(())
}

// The line of so many rows and bytes. Refuses only want of memory.
fn summary_line(
    alloc: Global,
    rows: usize,
    bytes_in: usize,
    bytes_out: usize,
) -> PolarsResult<Vec<u8>>
    ensures line { IfOk result (λ line. line.items ≡ summary_line rows bytes_in bytes_out) }
    ensures refused { IsOkUnless result error.OutOfMemory }
{
    let mut line = Vec::new(alloc);
    match push_summary(&mut line, rows, bytes_in, bytes_out) {
        Ok(()) => Ok(line),
        Err(_) => Err(PolarsError::OutOfMemory),
    }
}

// Makes an input, converts it, and answers its summary line. Refuses wrong options, and want of memory.
fn summary<W: Threads + Wait + Sync>(
    rt: &W,
    alloc: Global,
    rows: u64,
    workers: usize,
    piece: usize,
) -> PolarsResult<Vec<u8>>
    requires { rows ≤ 1000000 }
    ensures told { IfOk result (λ line. IsSummary rows workers piece line.items) }
    ensures refused { IfErr result (IsNoSummary workers piece) }
{
    if workers == 0 || piece == 0 {
        return Err(PolarsError::InvalidOperation(OpFault::Option));
    }
    made_input_is_read();
    let input = make_input(alloc, rows)?;
    let mut text = MemSink::new(alloc);
    match convert_made(rt, alloc, &input, workers, piece, &mut text) {
        Ok(height) => summary_line(alloc, height, input.len(), text.received().len()),
        Err(fault) => Err(fault),
    }
}

/// Makes an input of `rows` rows, converts it by `workers` workers in pieces of `piece` bytes, and writes its summary line to
/// `out`. Refuses `Option` exactly where there are no workers or pieces have no bytes; a fault of `out` (`IO`); and want of
/// memory.
pub(crate) fn make<W: Threads + Wait + Sync, Si: Sink>(
    rt: &W,
    alloc: Global,
    rows: u64,
    workers: usize,
    piece: usize,
    out: &mut Si,
) -> PolarsResult<()>
    requires { rows ≤ 1000000 }
    ensures made { OnOk result (IsMade rows workers piece (Si.received out.old) (Si.received out.new)) }
    ensures refused { IfErr result (IsMakingFault rows workers piece
        (sink_view (Si.received out.old) (Si.faults out.old) (Si.wants out.old))
        (sink_view (Si.received out.new) (Si.faults out.new) (Si.wants out.new))) }
    ensures later { Si.faults out.old ≤ Si.faults out.new }
    ensures later_wants { Si.wants out.old ≤ Si.wants out.new }
{
    let line = summary(rt, alloc, rows, workers, piece)?;
    match write_all(out, &line) {
        Ok(()) => Ok(()),
        Err(SinkFault::Device) => Err(PolarsError::IO),
        Err(SinkFault::OutOfMemory) => Err(PolarsError::OutOfMemory),
    }
}
