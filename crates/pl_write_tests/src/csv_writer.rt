//! Tests of `pl_write::csv_writer`: a frame with a setting of each kind. How cells of all types are written in all styles, and that any batches
//! and workers give one text, `pl_csv_replay` tries.

use crate::given::{frame_of, name, numbers};
use pl_frame::data_type::{DataType, TimeUnit};
use pl_frame::frame::DataFrame;
use pl_frame::sink::MemSink;
use pl_write::csv_writer::{CsvWriter, SerWriter};
use pl_write::options::QuoteStyle;
use std::alloc::Global;
use std::process::Abort;
use std::thread::Threads;

// A frame of the greatest count that a text can write, a null, and one below the least.
fn moments(rt: &impl Abort, alloc: Global) -> DataFrame {
    let dtype = DataType::Datetime(TimeUnit::Nanoseconds);
    let given = [Some(9223372036854775807), None, Some(-9223372036854775809)];
    frame_of(rt, alloc, numbers(rt, alloc, dtype, &given))
}

// Writes a frame with settings of its own.
fn write_set<W: Abort + Threads + Sync>(
    rt: &W,
    alloc: Global,
    sink: &mut MemSink,
    frame: &DataFrame,
) {
    let writer = CsvWriter::new(alloc, sink).expect(rt, "a writer");
    let end = name(rt, alloc, "\r\n");
    let mut writer = writer
        .include_bom(true)
        .with_separator(b';')
        .with_quote_char(b'\'')
        .with_quote_style(QuoteStyle::Always)
        .with_line_terminator(end)
        .with_batch_size(1)
        .n_threads(3);
    writer.finish(rt, frame).expect(rt, "a text");
    drop(writer);
}

#[test]
fn settings_take_effect(rt: HostRuntime) {
    let mut sink = MemSink::new(rt.alloc());
    write_set(&rt, rt.alloc(), &mut sink, &moments(&rt, rt.alloc()));
    let text =
        "\u{FEFF}'n'\r\n'2262-04-11T23:47:16.854775807'\r\n''\r\n'1677-09-21T00:12:43.145224191'\r\n";
    assert!(rt; sink.received() == text.as_bytes());
}
