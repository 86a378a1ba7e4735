//! Tests of `pl_read::reader_makers`.
ghost use Rattle.std.specs.Prelude.{◌≡◌, None, IfOk};

use crate::given::{name, one, one_column};
use pl_frame::error::PolarsResult;
use pl_frame::opener::{MemOpener, Opener};
use pl_options::read_options::CsvReadOptions;
use pl_read::bytes_reader::MmapBytesReader;
use pl_read::csv_reader::{CsvReader, SerReader};
use pl_read::reader_makers::ReaderMakers;
use std::alloc::Global;
use std::process::Abort;
use std::sync::Wait;
use std::thread::Threads;

// Whether a reader reads the column `a` of 1.
fn reads_one<W: Abort + Threads + Wait + Sync, R: MmapBytesReader + Drop>(
    rt: &W,
    alloc: Global,
    reader: CsvReader<R>,
) -> bool {
    let mut reader = reader;
    let frame = reader.finish(rt).expect(rt, "a frame");
    drop(reader);
    frame.height() == 1 && frame == one(rt, alloc)
}

// Through the bound: a reader of what lies at a path, by options that name none.
fn open<O: Opener>(
    rt: &impl Abort,
    alloc: Global,
    opener: &mut O,
    options: CsvReadOptions,
    path: &str,
) -> PolarsResult<CsvReader<O::Opened>>
where
    O::Opened: MmapBytesReader,
    requires { options.path ≡ None }
    ensures { IfOk result (λ made. made.options ≡ options) }
{
    let path = name(rt, alloc, path);
    options.try_into_reader_with_file_path(alloc, opener, Some(path))
}

#[test]
fn a_path_is_read(rt: HostRuntime) {
    let alloc = rt.alloc();
    let entries: [(&str, &[u8]); 1] = [("f", b"a\n1\n")];
    let mut opener = MemOpener::new(&entries);
    let reader = open(&rt, alloc, &mut opener, one_column(&rt, alloc), "f");
    match reader {
        Ok(reader) => assert!(rt; reads_one(&rt, alloc, reader)),
        Err(_) => panic!(rt; "the path is there"),
    }
}
