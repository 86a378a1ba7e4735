//! Where bytes come from.
ghost use Rattle.std.specs.Prelude.{◌≡◌, ℕ, ◌+◌, ◌<◌, ◌↔◌, min, List, [], length, Option, Some, drop, IsErr, IsTrue, IfOk, Ok, Contains};
ghost use Rattle.std.specs.Io.{ReadsAtMost};
ghost use Rattle.std.specs.Io.KnownBytes.{ReadConsumes};
ghost use Rattle.pl_frame.specs.Causes.{HasCause, raised};
ghost use Rattle.pl_frame.specs.Outside.{left_of, RisesAtErr};

use crate::error::PolarsError;
use std::marker::Model;
use thiserror::Error;

/// A call of something outside failed.
#[derive(Clone, Copy, Debug, PartialEq, Eq, Error)]
#[error("a call of something outside failed")]
pub struct Failed;

impl From<Failed> for PolarsError {
    ghost use Rattle.std.specs.Prelude.{◌≡◌};
    ghost use Rattle.pl_frame.specs.declared.error.PolarsError.TheVariants as error;

    ghost from_gives = { λ _ fault. fault ≡ error.IO };

    fn from(_fault: Failed) -> PolarsError {
        PolarsError::IO
    }
}

/// Where bytes come from.
pub trait Source {
    /// The bytes still to come, where the source tells them.
    ghost left: { Self → Option (List ℕ) };

    /// How often a read has failed; at the end of its type it stays.
    ghost faults: { Self → ℕ };

    /// Reads the next bytes into the front of `buf` and answers how many: none only at the end.
    ///
    /// `Failed` comes only where `faults` rose, and no byte is lost by it.
    fn read(&mut self, buf: &mut [u8]) -> Result<usize, Failed>
        requires { 0 < length buf.old }
        ensures bound { ReadsAtMost result buf.new }
        ensures bytes { ReadConsumes (left self.old) (left self.new) result buf.new }
        ensures cause { HasCause (faults self.old) (faults self.new) result };
}

impl<T: Source> Source for &mut T {
    ghost left = { λ source. T.left source.now };

    ghost faults = { λ source. T.faults source.now };

    fn read(&mut self, buf: &mut [u8]) -> Result<usize, Failed> {
        Source::read(&mut **self, buf)
    }
}

impl<T: Source> Source for Box<T> {
    ghost left = { λ source. T.left source.value };

    ghost faults = { λ source. T.faults source.value };

    fn read(&mut self, buf: &mut [u8]) -> Result<usize, Failed> {
        self.as_mut().read(buf)
    }
}

/// The bytes of a slice, which never fail. It borrows them and takes no memory.
#[derive(Debug, Drop)]
pub struct MemSource<'a> {
    bytes: &'a [u8],
    place: usize,
}

impl<'a> Model for MemSource<'a> {
    ghost use Rattle.std.specs.Prelude.{◌≤◌, length};
    ghost use Rattle.pl_frame.specs.Outside.{Reading};

    ghost Value = { Reading };

    ghost view = { λ source. record { bytes = source.bytes.now; place = source.place } };

    ghost invariant = { λ source. source.place ≤ length source.bytes.now };
}

impl<'a> MemSource<'a> {
    /// A source of these bytes, before the first.
    pub fn new(bytes: &'a [u8]) -> Self
        ensures { result ≡ record { bytes = bytes.now; place = 0 } }
    {
        MemSource { bytes, place: 0 }
    }

    /// All its bytes, whatever was read.
    pub fn bytes(&self) -> &'a [u8]
        ensures { result.now ≡ self.now.bytes }
    {
        self.bytes
    }
}

impl<'a> Source for MemSource<'a> {
    ghost left = { left_of };

    ghost faults = { λ _. 0 };

    fn read(&mut self, buf: &mut [u8]) -> Result<usize, Failed>
        requires { 0 < length buf.old }
        ensures bound { ReadsAtMost result buf.new }
        ensures bytes { ReadConsumes (left_of self.old) (left_of self.new) result buf.new }
        ensures cause { HasCause 0 0 result }

        // It never fails and gives as many bytes as there are and have room.
        ensures count { result ≡ Ok (min (length (drop self.old.place self.old.bytes)) (length buf.old)) }
        ensures all { self.new.bytes ≡ self.old.bytes }
        ensures place { IfOk result (λ n. self.new.place ≡ self.old.place + n) }
    {
        let rest = &self.bytes[self.place..];
        let count = rest.len().min(buf.len());
        buf[..count].copy_from_slice(&rest[..count]);
        self.place += count;
        Ok(count)
    }
}

/// The bytes of a slice, at most `step` of them at each call; the calls numbered in `fails`, counted from 0, fail.
/// It borrows what it is made of and takes no memory.
#[derive(Debug, Drop)]
pub struct PipeSource<'a> {
    left: &'a [u8],
    step: usize,
    fails: &'a [usize],
    calls: usize,
    faults: u64,
}

impl<'a> Model for PipeSource<'a> {
    ghost use Rattle.std.specs.Prelude.{◌<◌};
    ghost use Rattle.pl_frame.specs.Outside.{PipeReading};

    ghost Value = { PipeReading };

    ghost view = { λ source. record {
      left = source.left.now;
      step = source.step;
      fails = source.fails.now;
      calls = source.calls;
      faults = source.faults;
    } };

    ghost invariant = { λ source. 0 < source.step };
}

impl<'a> PipeSource<'a> {
    /// A source of these bytes, before its first call.
    pub fn new(bytes: &'a [u8], step: usize, fails: &'a [usize]) -> Self
        requires { 0 < step }
        ensures { result ≡ record { left = bytes.now; step = step; fails = fails.now; calls = 0; faults = 0 } }
    {
        PipeSource {
            left: bytes,
            step,
            fails,
            calls: 0,
            faults: 0,
        }
    }

    /// Whether a read has failed.
    pub fn has_failed(&self) -> bool
        ensures { IsTrue result ↔ (0 < self.now.faults) }
    {
        self.faults > 0
    }
}

impl<'a> Source for PipeSource<'a> {
    ghost left = { λ source. Some source.left };

    ghost faults = { λ source. source.faults };

    fn read(&mut self, buf: &mut [u8]) -> Result<usize, Failed>
        requires { 0 < length buf.old }
        ensures bound { ReadsAtMost result buf.new }
        ensures bytes { ReadConsumes (Some self.old.left) (Some self.new.left) result buf.new }
        ensures cause { HasCause self.old.faults self.new.faults result }

        // It fails exactly at the calls that are to fail, and gives at most `step` bytes otherwise.
        ensures failing { IsErr result ↔ Contains self.old.fails self.old.calls }
        ensures count { IfOk result (λ n. n ≡ min (min (length self.old.left) (length buf.old)) self.old.step) }

        // Each call is counted, and so is each that failed.
        ensures calls { self.new.calls ≡ raised self.old.calls }
        ensures faults { RisesAtErr self.old.faults self.new.faults result }
        ensures step { self.new.step ≡ self.old.step }
        ensures fails { self.new.fails ≡ self.old.fails }
    {
        let failing = self.fails.contains(&self.calls);
        self.calls = self.calls.saturating_add(1);
        if failing {
            self.faults = self.faults.saturating_add(1);
            return Err(Failed);
        }
        let count = self.left.len().min(buf.len()).min(self.step);
        let (front, rest) = self.left.split_at(count);
        buf[..count].copy_from_slice(front);
        self.left = rest;
        Ok(count)
    }
}
