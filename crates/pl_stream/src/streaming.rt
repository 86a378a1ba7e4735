//! A source whose bytes are fed to a stream as they come, and a sink that its text is written to at once.
ghost use Rattle.std.specs.Prelude.{◌≡◌, ◌<◌, ◌≤◌, ◌^◌, ◌++◌, ℕ, List, None, [], false, length, IfErr, OnOk};
ghost use Rattle.std.specs.Io.KnownBytes.{Appends};
ghost use Rattle.pl_csv.specs.Views.{sink_view, source_view};
ghost use Rattle.pl_stream.specs.Options.{IsAccepted};
ghost use Rattle.pl_stream.specs.Stream.{StandsFor};
ghost use Rattle.pl_stream.specs.Streaming.{IsOpenState, IsStreamed, IsUnstreamed, IsStreamRefused, IsPutFault, IsFeedFault, IsEndFault, IsFedOn, IsEndedOn};

use crate::fault::StreamFault;
use crate::state::StreamState;
use pl_csv::read_all::LIMIT;
use pl_frame::sink::{Sink, SinkFault, write_all};
use pl_frame::source::Source;
use pl_options::read_options::CsvReadOptions;
use pl_write::options::CsvWriterOptions;
use std::alloc::Global;

// Writes a text to a sink.
fn put_text<Si: Sink>(sink: &mut Si, text: &[u8]) -> Result<(), StreamFault>
    ensures put { OnOk result (Appends (Si.received sink.old) (Si.received sink.new) text.now) }
    ensures refused { IfErr result (IsPutFault text.now
        (sink_view (Si.received sink.old) (Si.faults sink.old) (Si.wants sink.old))
        (sink_view (Si.received sink.new) (Si.faults sink.new) (Si.wants sink.new))) }
    ensures later { Si.faults sink.old ≤ Si.faults sink.new }
    ensures wants_later { Si.wants sink.old ≤ Si.wants sink.new }
{
    match write_all(sink, text) {
        Ok(()) => Ok(()),
        Err(SinkFault::Device) => Err(StreamFault::Sink),
        Err(SinkFault::OutOfMemory) => Err(StreamFault::OutOfMemory),
    }
}

// Feeds the next bytes of an input to a state, and writes what the settled text has by them.
fn feed_piece<Si: Sink>(
    state: &mut StreamState,
    piece: &[u8],
    text: &mut Vec<u8>,
    sink: &mut Si,
) -> Result<(), StreamFault>
    requires open { IsOpenState state.old }
    requires empty { text.old.items ≡ [] }
    ensures fed { (bytes : List ℕ) → StandsFor state.old bytes → length (bytes ++ piece.now) < 2 ^ 64
        → OnOk result (IsFedOn state.old state.new bytes piece.now (Si.received sink.old) (Si.received sink.new)) }
    ensures refused { (bytes : List ℕ) → StandsFor state.old bytes → length (bytes ++ piece.now) < 2 ^ 64
        → IfErr result (IsFeedFault state.old.read state.old.write bytes piece.now
        (sink_view (Si.received sink.old) (Si.faults sink.old) (Si.wants sink.old))
        (sink_view (Si.received sink.new) (Si.faults sink.new) (Si.wants sink.new))) }
    ensures later { Si.faults sink.old ≤ Si.faults sink.new }
    ensures wants_later { Si.wants sink.old ≤ Si.wants sink.new }
{
    match state.feed(piece, text) {
        Ok(()) => put_text(sink, text),
        Err(fault) => Err(fault),
    }
}

// Tells a state that its input ended, and writes what the text of the frame has behind the settled text.
fn end_input<Si: Sink>(
    state: &mut StreamState,
    text: &mut Vec<u8>,
    sink: &mut Si,
) -> Result<(), StreamFault>
    requires open { IsOpenState state.old }
    requires empty { text.old.items ≡ [] }
    ensures ended { (bytes : List ℕ) → StandsFor state.old bytes
        → OnOk result (IsEndedOn state.old.read state.old.write bytes (Si.received sink.old) (Si.received sink.new)) }
    ensures refused { (bytes : List ℕ) → StandsFor state.old bytes
        → IfErr result (IsEndFault state.old.read state.old.write bytes
        (sink_view (Si.received sink.old) (Si.faults sink.old) (Si.wants sink.old))
        (sink_view (Si.received sink.new) (Si.faults sink.new) (Si.wants sink.new))) }
    ensures later { Si.faults sink.old ≤ Si.faults sink.new }
    ensures wants_later { Si.wants sink.old ≤ Si.wants sink.new }
{
    match state.finish(text) {
        Ok(()) => put_text(sink, text),
        Err(fault) => Err(fault),
    }
}

// Feeds all that is left of a source to a state that no bytes came to, piece by piece, and writes the text of each piece.
fn feed_source<So: Source, Si: Sink>(
    alloc: Global,
    state: &mut StreamState,
    room: &mut [u8],
    source: &mut So,
    sink: &mut Si,
) -> Result<(), StreamFault>
    requires open { IsOpenState state.old }
    requires accepted { IsAccepted state.old.read state.old.write }
    requires fresh { StandsFor state.old [] }
    requires room { 0 < length room.old }
    ensures done { OnOk result (IsStreamed state.old.read state.old.write (So.left source.old) (So.left source.new) (Si.received sink.old) (Si.received sink.new)) }
    ensures refused { IfErr result (IsUnstreamed state.old.read state.old.write
        (source_view (So.left source.old) (So.faults source.old))
        (source_view (So.left source.new) (So.faults source.new))
        (sink_view (Si.received sink.old) (Si.faults sink.old) (Si.wants sink.old))
        (sink_view (Si.received sink.new) (Si.faults sink.new) (Si.wants sink.new))) }
    ensures source_later { So.faults source.old ≤ So.faults source.new }
    ensures later { Si.faults sink.old ≤ Si.faults sink.new }
    ensures wants_later { Si.wants sink.old ≤ Si.wants sink.new }
{
    let mut text = Vec::new(alloc);
    let mut size = 0;
    loop {
        text.clear();
        let Ok(count) = source.read(room) else {
            return Err(StreamFault::Source);
        };
        if count == 0 {
            return end_input(state, &mut text, sink);
        }
        if count > LIMIT - size {
            return Err(StreamFault::TooLong);
        }
        if let Err(fault) = feed_piece(state, &room[..count], &mut text, sink) {
            return Err(fault);
        }
        size += count;
    }
}

/// Reads a source to its end, feeds what comes to a stream (`StreamState`), `piece` bytes at a time at most, and writes the text of each piece to the
/// sink at once. `Ok` says that the bytes of the source have a frame, and that the sink received exactly its text.
///
/// Refuses what `StreamState::new` refuses, and source and sink are then as they were; the first cause against the bytes (`Polars`, docs/stream.md),
/// after the settled text of what came before; a source that fails (`Source`), whose count rose; more than 2^36 bytes (`TooLong`); a sink that fails
/// (`Sink`), whose count rose; and want of memory.
pub fn stream<So: Source, Si: Sink>(
    alloc: Global,
    source: &mut So,
    sink: &mut Si,
    read: &CsvReadOptions,
    write: &CsvWriterOptions,
    piece: usize,
) -> Result<(), StreamFault>
    requires piece { 0 < piece }
    ensures accepted { OnOk result (IsAccepted read.now write.now) }
    ensures done { OnOk result (IsStreamed read.now write.now (So.left source.old) (So.left source.new) (Si.received sink.old) (Si.received sink.new)) }
    ensures refused { IfErr result (IsStreamRefused read.now write.now
        (source_view (So.left source.old) (So.faults source.old))
        (source_view (So.left source.new) (So.faults source.new))
        (sink_view (Si.received sink.old) (Si.faults sink.old) (Si.wants sink.old))
        (sink_view (Si.received sink.new) (Si.faults sink.new) (Si.wants sink.new))) }
    ensures source_later { So.faults source.old ≤ So.faults source.new }
    ensures later { Si.faults sink.old ≤ Si.faults sink.new }
    ensures wants_later { Si.wants sink.old ≤ Si.wants sink.new }
{
    let mut state = StreamState::new(alloc, read, write)?;
    let mut room = Vec::new(alloc);
    if room.resize(piece, 0).is_err() {
        return Err(StreamFault::OutOfMemory);
    }
    feed_source(alloc, &mut state, &mut room, source, sink)
}
