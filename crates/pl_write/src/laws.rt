//! What holds of every frame, as the contract of a function that writes it twice.
ghost use Rattle.std.specs.Prelude.{◌≡◌, ℕ, false, All, List, Some, OnOk};
ghost use Rattle.std.specs.Io.KnownBytes.{Appends};
ghost use Rattle.std.specs.Thread.{IsSync};
ghost use Rattle.pl_frame.specs.Frame.{IsFrame};
ghost use Rattle.pl_write.specs.JoinedBatches.{AreBatchesOf, batches_text, joined_batches};
ghost use Rattle.pl_write.specs.Options.{frame_options, with_batch_size};
ghost use Rattle.pl_write.specs.OptionsEqual.{CellOptionsAreTold, WriterOptionsAreTold};

use crate::batched_writer::BatchedWriter;
use crate::csv_writer::{CsvWriter, SerWriter};
use pl_frame::error::PolarsResult;
use pl_frame::frame::DataFrame;
use pl_frame::sink::Sink;
use std::thread::Threads;

/// `==` of the options of cells tells whether two of them are one, and so does that of the options of a writer.
pub fn options_are_told()
    ensures cells { CellOptionsAreTold }
    ensures writers { WriterOptionsAreTold }
{}

/// Writes a frame by two writers, which differ in batch size and number of threads alone: where both writes succeed and their
/// sinks had received the same, both have received the same.
pub fn text_is_one<S: Sink + Drop, W: Threads + Sync>(
    rt: &W,
    one: &mut CsvWriter<S>,
    other: &mut CsvWriter<S>,
    df: &DataFrame,
) -> PolarsResult<()>
    requires options { with_batch_size one.old.options.batch_size other.old.options ≡ one.old.options }
    ensures { (received : List ℕ)
        → S.received one.old.sink ≡ Some received
        → S.received other.old.sink ≡ Some received
        → OnOk result (S.received one.new.sink ≡ S.received other.new.sink) }
{
    one.finish(rt, df)?;
    other.finish(rt, df)
}

// Each of them is a frame: columns of one height with distinct names.
fn are_frames(batches: &[DataFrame])
    ensures { All IsFrame batches.now }
{
    for batch in batches {
        // It is called for its clause.
        let _columns = batch.columns();
    }
}

// Writes batches, and finishes.
fn write_batches<S: Sink, W: Threads + Sync>(
    rt: &W,
    writer: &mut BatchedWriter<S>,
    batches: &[DataFrame],
) -> PolarsResult<()>
    requires { AreBatchesOf writer.old batches.now }
    ensures { OnOk result (Appends (S.received writer.old.writer.sink) (S.received writer.new.writer.sink) (batches_text writer.old batches.now)) }
{
    for batch in batches {
        writer.write_batch(rt, batch)?;
    }
    writer.finish()
}

/// Writes batches by a writer that has begun nothing, finishes, and writes their frame by another writer, which writes alike:
/// where all that succeeds and their sinks had received the same, both have received the same. The frame has the rows of all
/// batches, one batch behind the other: `DataFrame::vstack` puts them behind a frame without rows.
pub fn batches_are_one_text<S: Sink + Drop, W: Threads + Sync>(
    rt: &W,
    one: &mut CsvWriter<S>,
    batched: &mut BatchedWriter<S>,
    whole: &DataFrame,
    batches: &[DataFrame],
) -> PolarsResult<()>
    requires options { frame_options one.old.options ≡ frame_options batched.old.writer.options }
    requires fresh { batched.old.begun ≡ false }
    requires batches { AreBatchesOf batched.old batches.now }
    requires whole { whole.now ≡ joined_batches batched.old.schema batches.now }
    ensures { (received : List ℕ)
        → S.received one.old.sink ≡ Some received
        → S.received batched.old.writer.sink ≡ Some received
        → OnOk result (S.received one.new.sink ≡ S.received batched.new.writer.sink) }
{
    are_frames(batches);
    write_batches(rt, batched, batches)?;
    one.finish(rt, whole)
}
