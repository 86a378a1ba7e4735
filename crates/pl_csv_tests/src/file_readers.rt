//! One text read through a path, a handle and as bytes.
ghost use Rattle.std.specs.Prelude.{◌≡◌, None};

use pl_csv::adapters::{FsOpener, ReadSource};
use pl_frame::data_type::DataType;
use pl_frame::frame::DataFrame;
use pl_frame::name::PlSmallStr;
use pl_frame::schema::Schema;
use pl_frame::source::MemSource;
use pl_options::read_options::CsvReadOptions;
use pl_read::bytes_reader::MmapBytesReader;
use pl_read::csv_reader::{CsvReader, SerReader};
use pl_read::reader_makers::ReaderMakers;
use std::alloc::Global;
use std::fs;
use std::process::Abort;
use std::rt::Files;
use std::sync::Wait;
use std::test::Fail;
use std::thread::Threads;

// Options for a column of whole numbers.
fn numbers(rt: &impl Abort, alloc: Global) -> CsvReadOptions
    ensures { result.path ≡ None }
{
    let mut schema = Schema::new(alloc);
    let name = PlSmallStr::from_str(alloc, "a").expect(rt, "a name");
    let added = schema.with_column(name, DataType::Int64);
    drop(added.expect(rt, "a column"));
    CsvReadOptions::new(alloc).with_schema(Some(schema))
}

// The frame of a reader.
fn read<W: Abort + Threads + Wait + Sync, R: MmapBytesReader + Drop>(
    rt: &W,
    reader: CsvReader<R>,
) -> DataFrame {
    let mut reader = reader;
    let frame = reader.finish(rt).expect(rt, "a frame");
    drop(reader);
    frame
}

// The frame of a source.
fn frame_of<W: Abort + Threads + Wait + Sync, R: MmapBytesReader + Drop>(
    rt: &W,
    alloc: Global,
    source: R,
) -> DataFrame {
    let options = numbers(rt, alloc);
    read(rt, options.into_reader_with_file_handle(alloc, source))
}

// The frame of the file of a name.
fn frame_at<W: Abort + Files + Threads + Wait + Sync>(
    rt: &W,
    alloc: Global,
    name: &str,
) -> DataFrame {
    let path = PlSmallStr::from_str(alloc, name).expect(rt, "a name");
    let mut files = FsOpener::new(rt);
    let options = numbers(rt, alloc);
    match options.try_into_reader_with_file_path(alloc, &mut files, Some(path)) {
        Ok(reader) => read(rt, reader),
        Err(_) => panic!(rt; "the file is there"),
    }
}

#[test]
fn one_frame_by_path_handle_and_bytes(rt: HostRuntime) -> Result<(), Fail> {
    let name = "/tmp/pl_csv_file_readers.csv";
    let bytes: &[u8] = b"a\n1\n2\n";
    fs::write(&rt, name, bytes)?;
    let by_path = frame_at(&rt, rt.alloc(), name);
    fs::remove_file(&rt, name).expect(&rt, "a file");
    let by_bytes = frame_of(&rt, rt.alloc(), MemSource::new(bytes));
    assert!(rt; by_path.equals(&by_bytes));
    let by_handle = frame_of(&rt, rt.alloc(), ReadSource::new(bytes));
    assert!(rt; by_handle.equals(&by_bytes));
    Ok(())
}
