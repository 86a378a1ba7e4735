//! Cases with known answers, in plain text.
//!
//! A case is a line `case NAME`, a line `word HEX` for each word of the command line, and lines `input HEX`, `status N`,
//! `out HEX` and `err HEX`. HEX is bytes as hexadecimal digits, or `-` for no byte. In place of HEX an input or an output may be parts with
//! a space between them, each of them HEX, or HEX*N for the same bytes N times. Lines `source N ..`, `sink N ..` and `err-sink N ..` say
//! how many bytes each call of the source, the sink or the sink of errors moves at most, and behind that which calls fail, the first
//! one being 0; without them a call moves all, and none fails.

use crate::answer::Answer;
use crate::device::Device;
use anyhow::{Context, Result, bail};
use pl_csv::run::run;
use pl_frame::sink::PipeSink;
use pl_frame::source::PipeSource;
use std::alloc::Global;
use std::sync::Wait;
use std::thread::Threads;

/// The words and the input of a run, and what it is to answer.
#[derive(Drop)]
pub struct Case<'a> {
    pub name: &'a str,
    pub words: Vec<String>,
    pub input: Vec<u8>,
    pub source: Device,
    pub sink: Device,
    pub err_sink: Device,
    pub wanted: Answer,
}

/// How a case is replayed. The answer is the same in each way.
#[derive(Clone, Copy)]
pub enum Way {
    /// As it stands: the input is read a block at a time, in one piece where it is short.
    Plain,
    /// With a comment prefix that no line begins with: the input is read record by record.
    Comments,
    /// By one worker.
    Caller,
    /// In pieces of one byte, so that each ends with the first line end at even parity, by one worker.
    Pieces,
    /// In such pieces, by four workers.
    Workers,
}

impl Way {
    pub const ALL: [Way; 5] = [
        Way::Plain,
        Way::Comments,
        Way::Caller,
        Way::Pieces,
        Way::Workers,
    ];

    // The words that ask for it.
    fn words(self) -> &'static [&'static str] {
        match self {
            Way::Plain => &[],
            Way::Comments => &["--comment", "\u{1}\u{2}"],
            Way::Caller => &["--workers", "1"],
            Way::Pieces => &["--piece", "1", "--workers", "1"],
            Way::Workers => &["--workers", "4", "--piece", "1"],
        }
    }
}

// The bytes that hexadecimal digits write; `-` stands for none.
fn bytes_of(alloc: Global, text: &str) -> Result<Vec<u8>> {
    if text == "-" {
        return Ok(Vec::new(alloc));
    }
    Ok(hex::decode(alloc, text)?)
}

// Adds the bytes of a part: HEX or HEX*N.
fn add_part(bytes: &mut Vec<u8>, alloc: Global, part: &str) -> Result<()> {
    let (text, times) = match part.split_once('*') {
        Some((text, times)) => (text, times.parse::<u32>()?),
        None => (part, 1),
    };
    let repeated = bytes_of(alloc, text)?;
    for _ in 0..times {
        bytes.extend_from_slice(&repeated)?;
    }
    Ok(())
}

// The bytes of parts with a space between them.
fn bytes_of_parts(alloc: Global, parts: &str) -> Result<Vec<u8>> {
    let mut bytes = Vec::new(alloc);
    for part in parts.split(' ') {
        add_part(&mut bytes, alloc, part)?;
    }
    Ok(bytes)
}

impl<'a> Case<'a> {
    fn new(alloc: Global) -> Self {
        Case {
            name: "",
            words: Vec::new(alloc),
            input: Vec::new(alloc),
            source: Device::new(alloc),
            sink: Device::new(alloc),
            err_sink: Device::new(alloc),
            wanted: Answer {
                status: 0,
                out: Vec::new(alloc),
                err: Vec::new(alloc),
            },
        }
    }

    /// The case of these lines.
    pub fn from_lines(alloc: Global, lines: &'a str) -> Result<Case<'a>> {
        let mut case = Case::new(alloc);
        for line in lines.lines() {
            case.set(alloc, line).context(format_args!("at {line:?}"))?;
        }
        Ok(case)
    }

    // Takes over what a line says.
    fn set(&mut self, alloc: Global, line: &'a str) -> Result<()> {
        let (name, value) = line.split_once(' ').context("no value")?;
        match name {
            "case" => self.name = value,
            "word" => self
                .words
                .push(String::from_utf8(bytes_of(alloc, value)?)?)?,
            "input" => self.input = bytes_of_parts(alloc, value)?,
            "source" => self.source = Device::from_numbers(alloc, value)?,
            "sink" => self.sink = Device::from_numbers(alloc, value)?,
            "err-sink" => self.err_sink = Device::from_numbers(alloc, value)?,
            "status" => self.wanted.status = value.parse::<u8>()?,
            "out" => self.wanted.out = bytes_of_parts(alloc, value)?,
            "err" => self.wanted.err = bytes_of(alloc, value)?,
            _ => bail!("no such line"),
        }
        Ok(())
    }

    /// Whether the case can be replayed in a way: not where the words of that way are there already, nor where the words mean
    /// nothing, nor would then mean nothing.
    pub fn takes(&self, way: Way) -> bool {
        match way.words() {
            [] => true,
            [name, _] => self.wanted.status != 2 && !self.has(name) && !self.has("--make"),
            [first, _, second, ..] => {
                self.wanted.status != 2 && !self.has(first) && !self.has(second)
            }
            _ => false,
        }
    }

    // Whether one of the words begins so.
    fn has(&self, name: &str) -> bool {
        self.words.iter().any(|word| word.starts_with(name))
    }

    /// Adds the words of a way.
    pub fn add(&mut self, alloc: Global, way: Way) -> Result<()> {
        for word in way.words() {
            self.words.push(String::from_str(alloc, *word)?)?;
        }
        Ok(())
    }

    /// What `run` answers.
    pub fn answer<W: Threads + Wait + Sync>(&self, rt: &W, alloc: Global) -> Result<Answer> {
        let mut source = PipeSource::new(&self.input, self.source.step()?, self.source.fails());
        let mut out = PipeSink::new(alloc, self.sink.step()?, self.sink.fails());
        let mut err = PipeSink::new(alloc, self.err_sink.step()?, self.err_sink.fails());
        let status = run(rt, alloc, &self.words, &mut source, &mut out, &mut err);
        Ok(Answer {
            status,
            out: out.received().to_vec(alloc)?,
            err: err.received().to_vec(alloc)?,
        })
    }
}
