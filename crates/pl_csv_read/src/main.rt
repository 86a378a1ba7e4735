//! The program `pl_csv_read`: the standard input of the process into a frame, and how many rows and columns that has. It shows the speed
//! of a read alone.
#![tactic(auto)]

use pl_csv::adapters::ReadSource;
use pl_csv::arguments::words;
use pl_csv::run::Refusal;
use pl_frame::error::PolarsError;
use pl_options::read_options::CsvReadOptions;
use pl_read::csv_reader::{CsvReader, SerReader};
use pl_words::job::Job;
use pl_words::words::{WordsFault, parse_words};
use std::alloc::Global;
use std::io::Write;
use std::process::ExitCode;
use std::sync::Wait;
use std::thread::Threads;
use std::{io, mem};

// How the words say that the input is read; a making job has no meaning here. Refuses with a status.
fn options_of(alloc: Global, words: &[String]) -> Result<CsvReadOptions, u8> {
    match parse_words(alloc, words) {
        Ok(Job::Convert(read, _)) => Ok(read),
        Ok(Job::Make { .. }) | Err(WordsFault::Words) => Err(2),
        Err(WordsFault::OutOfMemory) => Err(5),
    }
}

// Height and width of the frame that an input gives. Refuses with a status.
fn read<W: Threads + Wait + Sync, R: io::Read + Drop>(
    rt: &W,
    alloc: Global,
    input: R,
    options: CsvReadOptions,
) -> Result<(usize, usize), u8> {
    let mut reader = CsvReader::with_options(alloc, ReadSource::new(input), options);
    match reader.finish(rt) {
        Ok(frame) => {
            let size = (frame.height(), frame.width());
            // The process ends, which gives its memory back at once.
            mem::forget(frame);
            Ok(size)
        }
        // What a read says of its source.
        Err(PolarsError::IO) => Err(3),
        Err(fault) => Err(Refusal::Polars(fault).status()),
    }
}

// Tells height and width, and answers the status.
fn tell(out: &mut impl Write, height: usize, width: usize) -> u8 {
    match writeln!(out, "{height} {width}") {
        Ok(()) => 0,
        Err(_) => 4,
    }
}

fn main(rt: HostRuntime) -> ExitCode {
    let Ok(words) = words(&rt) else {
        return ExitCode::from(2);
    };
    let options = match options_of(rt.alloc(), &words) {
        Ok(options) => options,
        Err(status) => return ExitCode::from(status),
    };
    let status = match read(&rt, rt.alloc(), rt.stdin(), options) {
        Ok((height, width)) => tell(&mut rt.stdout(), height, width),
        Err(status) => status,
    };
    ExitCode::from(status)
}
