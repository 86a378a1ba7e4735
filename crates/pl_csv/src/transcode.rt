//! From the bytes of an input to the text of its frame.
ghost use Rattle.std.specs.Prelude.{◌≡◌, ◌≤◌, IfOk, OnOk, IfErr, MatchResult};
ghost use Rattle.pl_read.specs.Options.{settled_schema};
ghost use Rattle.pl_csv.specs.Transcoding.{IsValidRead, IsUnread, IsTranscoded, IsTranscodeFault, ReturnsFrame};
ghost use Rattle.pl_csv.specs.Views.{sink_view};

use pl_frame::error::{ComputeFault, PolarsError, PolarsResult};
use pl_frame::frame::DataFrame;
use pl_frame::sink::{Sink, SinkFault};
use pl_options::read_options::CsvReadOptions;
use pl_read::checks::check_options;
use pl_read::csv_reader::OpenGate;
use pl_read::reading::read_checked;
use pl_read::workers::worker_count;
use pl_write::options::CsvWriterOptions;
use pl_write::writer::write_frame;
use std::alloc::Global;
use std::sync::Wait;
use std::thread::Threads;

// The frame that an input means under its settled schema, which can be written. Refuses the first cause against it,
// and want of memory.
fn read_valid<W: Threads + Wait + Sync>(
    rt: &W,
    alloc: Global,
    input: &[u8],
    read: &CsvReadOptions,
    write: &CsvWriterOptions,
) -> PolarsResult<DataFrame>
    ensures { MatchResult result (IsValidRead read.now (settled_schema read.now input.now) input.now write.now) (IsUnread read.now (settled_schema read.now input.now) input.now write.now) }
{
    match check_options(read) {
        Ok(()) => {
            if !write.serialize_options.quote_char.is_ascii() {
                return Err(PolarsError::ComputeError(ComputeFault::Quote));
            }
            read_checked(rt, alloc, &OpenGate, input, read)
        }
        Err(fault) => Err(fault),
    }
}

/// Reads an input under the schema of the options, or else under the one that is inferred from it, writes the text of its
/// frame to a sink, and answers the frame.
///
/// Refuses, before any byte is written, the first cause against the frame (docs/refusals.md), a quote for the output that is
/// not ASCII standing behind wrong options and before a compressed input. Refuses a fault of the sink (`IO`), which then
/// received a prefix of the text; and want of memory, with such a prefix or nothing received.
///
/// Where the input is the text of a frame that fits the way in which it was written, and the options match, the answer is that frame
/// (docs/quoting.md, "What comes back"), up to want of memory and a fault of the sink.
#[tactic(auto, using(crate::proofs::TranscodeLaws::fault_unread))]
pub fn transcode<W: Threads + Wait + Sync, S: Sink>(
    rt: &W,
    alloc: Global,
    input: &[u8],
    read: &CsvReadOptions,
    write: &CsvWriterOptions,
    sink: &mut S,
) -> PolarsResult<DataFrame>
    ensures converted { IfOk result (IsTranscoded read.now write.now input.now (S.received sink.old) (S.received sink.new)) }
    ensures refused { IfErr result (IsTranscodeFault read.now write.now input.now
        (sink_view (S.received sink.old) (S.faults sink.old) (S.wants sink.old))
        (sink_view (S.received sink.new) (S.faults sink.new) (S.wants sink.new))) }
    ensures round_trip { ReturnsFrame read.now write.now input.now result (S.faults sink.old) (S.faults sink.new) }
    ensures later { S.faults sink.old ≤ S.faults sink.new }
    ensures later_wants { S.wants sink.old ≤ S.wants sink.new }
{
    let frame = read_valid(rt, alloc, input, read, write)?;
    let workers = worker_count(read.n_threads);
    match write_frame(rt, alloc, workers, frame.columns(), write, sink) {
        Ok(()) => Ok(frame),
        Err(SinkFault::Device) => {
            drop(frame);
            Err(PolarsError::IO)
        }
        Err(SinkFault::OutOfMemory) => {
            drop(frame);
            Err(PolarsError::OutOfMemory)
        }
    }
}
