//! What is written is read again: a frame that fits comes back. What is read in the place of one that does not fit, `pl_csv_replay` shows
//! (`data/lost.txt`).

use pl_csv::fits::fits;
use pl_csv::matching::matching_options;
use pl_frame::column::Column;
use pl_frame::frame::DataFrame;
use pl_frame::name::PlSmallStr;
use pl_frame::sink::MemSink;
use pl_frame::source::MemSource;
use pl_frame::texts::Texts;
use pl_options::read_options::CsvReadOptions;
use pl_read::csv_reader::{CsvReader, SerReader};
use pl_write::csv_writer::{CsvWriter, SerWriter};
use pl_write::options::CsvWriterOptions;
use std::alloc::Global;
use std::process::Abort;
use std::sync::Wait;
use std::thread::Threads;

// A frame of texts with a quote, a line end and a separator, and of a null beside the empty text.
fn notes(rt: &impl Abort, alloc: Global) -> DataFrame {
    let mut texts = Texts::new(alloc);
    texts.push_null().expect(rt, "a null");
    for text in ["", "a\"b", "\r", "x,y"] {
        texts.push(text).expect(rt, "a text");
    }
    let name = PlSmallStr::from_str(alloc, "note").expect(rt, "a name");
    let mut columns = Vec::new(alloc);
    let pushed = columns.push(Column::from_string(name, texts));
    pushed.expect(rt, "a column");
    DataFrame::new(alloc, columns).expect(rt, "a frame")
}

// The text of a frame.
fn text_of<W: Abort + Threads + Wait + Sync>(
    rt: &W,
    alloc: Global,
    frame: &DataFrame,
    options: &CsvWriterOptions,
) -> MemSink {
    let mut sink = MemSink::new(alloc);
    let writer = CsvWriter::new(alloc, &mut sink).expect(rt, "a writer");
    let mut writer = writer.with_options(options).expect(rt, "options");
    writer.finish(rt, frame).expect(rt, "a text");
    drop(writer);
    sink
}

// What is read back of a text.
fn read_back<W: Abort + Threads + Wait + Sync>(
    rt: &W,
    alloc: Global,
    text: &[u8],
    read: CsvReadOptions,
) -> DataFrame {
    let mut reader = CsvReader::with_options(alloc, MemSource::new(text), read);
    let frame = reader.finish(rt).expect(rt, "a frame");
    drop(reader);
    frame
}

#[test]
fn a_frame_comes_back(rt: HostRuntime) {
    let alloc = rt.alloc();
    let frame = notes(&rt, alloc);
    let write = CsvWriterOptions::new(alloc).expect(&rt, "options");
    assert!(rt; fits(&rt, alloc, &frame, &write).expect(&rt, "an answer"));
    let sink = text_of(&rt, alloc, &frame, &write);
    let read = matching_options(alloc, &frame, &write).expect(&rt, "options");
    let back = read_back(&rt, alloc, sink.received(), read);
    assert!(rt; back.equals(&frame));
}
