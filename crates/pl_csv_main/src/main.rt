//! The program `pl_csv`: `run`, or `run_multi` where the first word is `multi`, `run_seek` where it is `seek` and `run_stream` where it is
//! `stream`, over the words and the standard streams of the process; where it is `help`, what the words mean, and where it is `version`, which program
//! this is. A person at a terminal is told more.
#![tactic(auto)]

mod error_line;
mod help;
mod help_words;
mod people;
mod terminal;
mod version;
mod waiting;

use crate::error_line::ErrorLine;
use crate::help::{help, print};
use crate::people::tell_person;
use crate::terminal::Terminal;
use crate::version::VERSION;
use crate::waiting::tell_waiting;
use pl_csv::adapters::{FsOpener, ReadSource, WriteSink};
use pl_csv::arguments::words;
use pl_csv::run::run;
use pl_multi::run::run_multi;
use pl_seek::run::run_seek;
use pl_stream::run::run_stream;
use pl_tell::reason::Call;
use pl_terminal::adapters::{WatchedOpener, WatchedSink, WatchedSource};
use pl_terminal::watch::Watch;
use std::io;
use std::io::{IsTerminal, Write};
use std::process::ExitCode;

// Says that the words cannot be had, as `run` says it of words without a meaning and of memory: a word that is not UTF-8
// has no meaning.
fn refuse(err: &mut impl Write, fault: &io::Error) -> u8 {
    let (status, line) = match fault.kind() {
        io::ErrorKind::OutOfMemory => (5, "memory\n"),
        _ => (2, "words\n"),
    };
    let _ = err.write_all(line.as_bytes());
    status
}

// What the words ask for, by the first of them, and the words that say the rest.
fn call_of(words: &[String]) -> (Call, &[String]) {
    match words {
        [first, others @ ..] if first.as_str() == "help" => (Call::Help, others),
        [first, others @ ..] if first.as_str() == "multi" => (Call::Multi, others),
        [first, others @ ..] if first.as_str() == "seek" => (Call::Seek, others),
        [first, others @ ..] if first.as_str() == "stream" => (Call::Stream, others),
        _ => (Call::Convert, words),
    }
}

// What a person is told that the words ask for: `version` with words behind it is as `help` with none.
fn told_call(words: &[String]) -> (Call, &[String]) {
    match words {
        [first, ..] if first.as_str() == "version" => (Call::Help, &[]),
        _ => call_of(words),
    }
}

// Whether the words ask which program this is.
fn asks_version(words: &[String]) -> bool {
    match words {
        [only] => only.as_str() == "version",
        _ => false,
    }
}

fn main(rt: HostRuntime) -> ExitCode {
    let terminal = Terminal::of(&rt, &rt.stderr());
    let mut err = ErrorLine::new(rt.alloc(), rt.stderr(), terminal.is_there);
    let words = match words(&rt) {
        Ok(words) => words,
        Err(fault) => {
            let status = refuse(&mut err, &fault);
            if terminal.is_there {
                tell_person(&rt, &mut err, terminal, Call::Convert, &[], status, 0);
            }
            return ExitCode::from(status);
        }
    };
    let watch = Watch::new(&rt, rt.alloc(), terminal.is_there);
    let mut out = WatchedSink {
        sink: WriteSink::new(rt.stdout()),
        is_terminal: rt.stdout().is_terminal(),
        watch: &watch,
    };
    let mut source = WatchedSource {
        source: ReadSource::new(rt.stdin()),
        path: None,
        watch: &watch,
    };
    let mut opener = WatchedOpener {
        opener: FsOpener::new(&rt),
        alloc: rt.alloc(),
        watch: &watch,
    };
    let (call, others) = call_of(&words);
    if words.is_empty() {
        tell_waiting(&rt.stdin(), &mut rt.stderr());
    }
    let status = match call {
        _ if asks_version(&words) => print(VERSION, &mut rt.stdout(), &mut err),
        Call::Help => help(others, &mut rt.stdout(), &mut err),
        Call::Multi => run_multi(
            &rt,
            rt.alloc(),
            others,
            &mut opener,
            &mut out,
            &mut WriteSink::new(&mut err),
        ),
        Call::Seek => run_seek(
            &rt,
            rt.alloc(),
            others,
            &mut opener,
            &mut out,
            &mut WriteSink::new(&mut err),
        ),
        Call::Stream => run_stream(
            rt.alloc(),
            others,
            &mut source,
            &mut out,
            &mut WriteSink::new(&mut err),
        ),
        Call::Convert => run(
            &rt,
            rt.alloc(),
            others,
            &mut source,
            &mut out,
            &mut WriteSink::new(&mut err),
        ),
    };
    watch.wipe();
    if terminal.is_there && status != 0 {
        let (call, others) = told_call(&words);
        tell_person(&rt, &mut err, terminal, call, others, status, watch.bytes());
    }
    ExitCode::from(status)
}
