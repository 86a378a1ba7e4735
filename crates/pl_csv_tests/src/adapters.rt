//! Tests of `pl_csv::adapters`.

use pl_csv::adapters::{FsOpener, ReadSource, WriteSink};
use pl_csv::counting::count_rows;
use pl_csv::read_all::{ReadAllFault, read_all};
use pl_frame::error::PolarsError;
use pl_frame::sink::{Sink, SinkFault, write_all};
use pl_frame::source::Source;
use std::io::{Read, Write};
use std::test::Fail;
use std::{fs, io};

// A device that fails: each read, and each flush.
#[derive(Drop)]
struct Broken;

impl Read for Broken {
    fn read(&mut self, _buf: &mut [u8]) -> io::Result<usize> {
        Err(io::Error::from(io::ErrorKind::Other))
    }
}

impl Write for Broken {
    fn write(&mut self, buf: &[u8]) -> io::Result<usize> {
        Ok(buf.len())
    }

    fn flush(&mut self) -> io::Result<()> {
        Err(io::Error::from(io::ErrorKind::Other))
    }
}

#[test]
fn a_reader_is_read_to_its_end(rt: HostRuntime) -> Result<(), Fail> {
    let reader: &[u8] = b"bytes";
    match read_all(rt.alloc(), &mut ReadSource::new(reader), 5) {
        Ok(all) => assert!(rt; all.as_slice() == b"bytes".as_slice()),
        Err(_) => panic!(rt; "the reader has five bytes"),
    }
    let failed = read_all(rt.alloc(), &mut ReadSource::new(Broken), 5);
    assert!(rt; matches!(failed, Err(ReadAllFault::Source)));
    Ok(())
}

#[test]
fn files_are_opened_and_faults_counted(rt: HostRuntime) -> Result<(), Fail> {
    let path = "/tmp/pl_csv_files_are_opened.csv";
    fs::write(&rt, path, "a\n1\n")?;
    let mut opener = FsOpener::new(&rt);
    let rows = count_rows(rt.alloc(), &mut opener, path, b',', None, None, b'\n', true);
    fs::remove_file(&rt, path)?;
    assert!(rt; matches!(&rows, Ok(1)));
    drop(rows);
    let rows = count_rows(rt.alloc(), &mut opener, path, b',', None, None, b'\n', true);
    assert!(rt; matches!(&rows, Err(PolarsError::IO)));
    drop(rows);
    Ok(())
}

#[test]
fn a_writer_takes_the_bytes_and_its_flush_counts(rt: HostRuntime) -> Result<(), Fail> {
    let mut written = Vec::new(rt.alloc());
    let mut sink = WriteSink::new(&mut written);
    assert!(rt; write_all(&mut sink, b"bytes") == Ok(()));
    assert!(rt; written.as_slice() == b"bytes".as_slice());
    assert!(rt; WriteSink::new(Broken).write(b"a") == Err(SinkFault::Device));

    let mut room = [0u8; 1];
    let mut full = WriteSink::new(room.as_mut_slice());
    assert!(rt; write_all(&mut full, b"ab") == Err(SinkFault::Device));
    Ok(())
}
