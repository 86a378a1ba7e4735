//! Tests of `pl_read::csv_reader`.
ghost use Rattle.std.specs.Prelude.{◌≡◌};

use crate::given::{one, one_column};
use pl_frame::error::PolarsResult;
use pl_frame::frame::DataFrame;
use pl_frame::source::{PipeSource, Source};
use pl_read::bytes_reader::MmapBytesReader;
use pl_read::csv_reader::{CsvReader, SerReader};
use std::alloc::Global;
use std::sync::Wait;
use std::thread::Threads;

// Through the bound: what a reader reads.
fn finish<W: Threads + Wait + Sync, R: MmapBytesReader, T: SerReader<R>>(
    rt: &W,
    reader: &mut T,
) -> PolarsResult<DataFrame>
    ensures { (T.state reader.new).options ≡ (T.state reader.old).options }
{
    reader.finish(rt)
}

#[test]
fn a_pipe_is_read_from_where_it_stands(rt: HostRuntime) {
    let mut pipe = PipeSource::new(b"xa\n1\n", 1, &[]);
    assert!(rt; pipe.read(&mut [0u8; 1]) == Ok(1));
    let mut reader = CsvReader::with_options(rt.alloc(), pipe, one_column(&rt, rt.alloc()));
    let read = finish(&rt, &mut reader).expect(&rt, "a frame");
    drop(reader);
    assert!(rt; read == one(&rt, rt.alloc()));
}
