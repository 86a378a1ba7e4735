//! Tests of `pl_csv::transcode` and `pl_csv::convert`: one text by both. `run` goes through `pl_csv::convert_source`, on the stored cases of
//! `pl_csv_replay`, also over devices that fail (`data/devices.txt`).

use pl_csv::convert::convert;
use pl_csv::transcode::transcode;
use pl_frame::sink::MemSink;
use pl_options::read_options::CsvReadOptions;
use pl_write::options::CsvWriterOptions;

const TEXT: &[u8] = b"n,t\n1,\"a, b\"\n2,c\n";

#[test]
fn a_text_is_transcoded_and_converted(rt: HostRuntime) {
    let alloc = rt.alloc();
    let read = CsvReadOptions::new(alloc);
    let write = CsvWriterOptions::new(alloc).expect(&rt, "options");
    let mut sink = MemSink::new(alloc);
    let frame = transcode(&rt, alloc, TEXT, &read, &write, &mut sink);
    assert!(rt; frame.expect(&rt, "a frame").height() == 2);
    assert!(rt; sink.received() == TEXT);
    let mut sink = MemSink::new(alloc);
    let converted = convert(&rt, alloc, TEXT, &read, &write, &mut sink);
    converted.expect(&rt, "a text");
    assert!(rt; sink.received() == TEXT);
    drop(read);
    drop(write);
}
