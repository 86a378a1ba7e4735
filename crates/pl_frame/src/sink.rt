//! Where bytes go.
ghost use Rattle.std.specs.Prelude.{◌≡◌, ℕ, ◌<◌, ◌≤◌, ◌↔◌, min, List, [], length, take, Option, Some, Err, IfOk, OnOk, OnErr, IsErrOf, IsOkUnless, Contains};
ghost use Rattle.std.specs.Io.KnownBytes.{Appends, WriteAppends};
ghost use Rattle.pl_frame.specs.Causes.{Rose, TakesSome, raised};
ghost use Rattle.pl_frame.specs.Outside.{RisesAt, RisesAtErr};

use crate::error::PolarsError;
use std::alloc::Global;
use std::marker::Model;
use thiserror::Error;

/// Why a write failed.
#[derive(Clone, Copy, Debug, PartialEq, Eq, Error)]
pub enum SinkFault {
    /// The device failed.
    #[error("a write failed")]
    Device,
    /// A sink in memory could not grow.
    #[error("out of memory")]
    OutOfMemory,
}

impl From<SinkFault> for PolarsError {
    ghost use Rattle.std.specs.Prelude.{◌≡◌};
    ghost use Rattle.pl_frame.specs.Converted.{error_of_sink};

    ghost from_gives = { λ fault error. error ≡ error_of_sink fault };

    fn from(fault: SinkFault) -> PolarsError {
        match fault {
            SinkFault::Device => PolarsError::IO,
            SinkFault::OutOfMemory => PolarsError::OutOfMemory,
        }
    }
}

/// Where bytes go.
pub trait Sink {
    /// The bytes so far, where the sink tells them.
    ghost received: { Self → Option (List ℕ) };

    /// How often the device has failed; at the end of its type it stays.
    ghost faults: { Self → ℕ };

    /// How often memory was wanting; at the end of its type it stays.
    ghost wants: { Self → ℕ };

    /// Takes some of the first bytes of `piece`, at least one, and answers how many.
    ///
    /// `Device` comes only where `faults` rose, `OutOfMemory` only where `wants` rose, and neither takes a byte.
    fn write(&mut self, piece: &[u8]) -> Result<usize, SinkFault>
        requires { 0 < length piece.now }
        ensures some { TakesSome result piece.now }
        ensures bytes { WriteAppends (received self.old) (received self.new) result piece.now }
        ensures later { faults self.old ≤ faults self.new }
        ensures later_wants { wants self.old ≤ wants self.new }
        ensures device { IsErrOf result SinkFault.Device → Rose (faults self.old) (faults self.new) }
        ensures memory { IsErrOf result SinkFault.OutOfMemory → Rose (wants self.old) (wants self.new) };
}

impl<T: Sink> Sink for &mut T {
    ghost received = { λ sink. T.received sink.now };

    ghost faults = { λ sink. T.faults sink.now };

    ghost wants = { λ sink. T.wants sink.now };

    fn write(&mut self, piece: &[u8]) -> Result<usize, SinkFault> {
        Sink::write(&mut **self, piece)
    }
}

impl<T: Sink> Sink for Box<T> {
    ghost received = { λ sink. T.received sink.value };

    ghost faults = { λ sink. T.faults sink.value };

    ghost wants = { λ sink. T.wants sink.value };

    fn write(&mut self, piece: &[u8]) -> Result<usize, SinkFault> {
        self.as_mut().write(piece)
    }
}

/// A sink that keeps what it received. Its device never fails, but it can want memory to grow.
#[derive(Debug, Drop)]
pub struct MemSink {
    received: Vec<u8>,
    wants: u64,
}

impl Model for MemSink {
    ghost use Rattle.pl_frame.specs.Outside.{Writing};

    ghost Value = { Writing };

    ghost view = { λ sink. record { received = sink.received.items; wants = sink.wants } };
}

impl MemSink {
    /// A sink that has received nothing.
    pub fn new(alloc: Global) -> Self
        ensures { result ≡ record { received = []; wants = 0 } }
    {
        MemSink {
            received: Vec::new(alloc),
            wants: 0,
        }
    }

    /// The bytes so far.
    pub fn received(&self) -> &[u8]
        ensures { result.now ≡ self.now.received }
    {
        &self.received
    }
}

impl Sink for MemSink {
    ghost received = { λ sink. Some sink.received };

    ghost faults = { λ _. 0 };

    ghost wants = { λ sink. sink.wants };

    fn write(&mut self, piece: &[u8]) -> Result<usize, SinkFault>
        requires { 0 < length piece.now }
        ensures bytes { WriteAppends (Some self.old.received) (Some self.new.received) result piece.now }

        // It takes all of the piece, or memory is wanting and that is counted.
        ensures all { IfOk result (λ n. n ≡ length piece.now) }
        ensures refused { IsOkUnless result SinkFault.OutOfMemory }
        ensures later_wants { self.old.wants ≤ self.new.wants }
        ensures wanted { RisesAtErr self.old.wants self.new.wants result }
    {
        match self.received.extend_from_slice(piece) {
            Ok(()) => Ok(piece.len()),
            Err(_) => {
                self.wants = self.wants.saturating_add(1);
                Err(SinkFault::OutOfMemory)
            }
        }
    }
}

/// A sink that keeps what it received and takes at most `step` bytes at each call; the calls numbered in `fails`, counted
/// from 0, fail. It can want memory to grow.
#[derive(Debug, Drop)]
pub struct PipeSink<'a> {
    received: Vec<u8>,
    step: usize,
    fails: &'a [usize],
    calls: usize,
    faults: u64,
    wants: u64,
}

impl<'a> Model for PipeSink<'a> {
    ghost use Rattle.std.specs.Prelude.{◌<◌};
    ghost use Rattle.pl_frame.specs.Outside.{PipeWriting};

    ghost Value = { PipeWriting };

    ghost view = { λ sink. record {
      received = sink.received.items;
      step = sink.step;
      fails = sink.fails.now;
      calls = sink.calls;
      faults = sink.faults;
      wants = sink.wants;
    } };

    ghost invariant = { λ sink. 0 < sink.step };
}

impl<'a> PipeSink<'a> {
    /// A sink that has received nothing, before its first call.
    pub fn new(alloc: Global, step: usize, fails: &'a [usize]) -> Self
        requires { 0 < step }
        ensures { result ≡ record { received = []; step = step; fails = fails.now; calls = 0; faults = 0; wants = 0 } }
    {
        PipeSink {
            received: Vec::new(alloc),
            step,
            fails,
            calls: 0,
            faults: 0,
            wants: 0,
        }
    }

    /// The bytes so far.
    pub fn received(&self) -> &[u8]
        ensures { result.now ≡ self.now.received }
    {
        &self.received
    }
}

impl<'a> Sink for PipeSink<'a> {
    ghost received = { λ sink. Some sink.received };

    ghost faults = { λ sink. sink.faults };

    ghost wants = { λ sink. sink.wants };

    fn write(&mut self, piece: &[u8]) -> Result<usize, SinkFault>
        requires { 0 < length piece.now }
        ensures some { TakesSome result piece.now }
        ensures bytes { WriteAppends (Some self.old.received) (Some self.new.received) result piece.now }
        ensures later { self.old.faults ≤ self.new.faults }
        ensures later_wants { self.old.wants ≤ self.new.wants }
        ensures device { IsErrOf result SinkFault.Device → Rose self.old.faults self.new.faults }
        ensures memory { IsErrOf result SinkFault.OutOfMemory → Rose self.old.wants self.new.wants }

        // The device fails exactly at the calls that are to fail; otherwise at most `step` bytes are taken.
        ensures failing { IsErrOf result SinkFault.Device ↔ Contains self.old.fails self.old.calls }
        ensures count { IfOk result (λ n. n ≡ min (length piece.now) self.old.step) }

        // Each call is counted, each that failed, and each time that memory was wanting.
        ensures calls { self.new.calls ≡ raised self.old.calls }
        ensures failed { RisesAt SinkFault.Device self.old.faults self.new.faults result }
        ensures wanted { RisesAt SinkFault.OutOfMemory self.old.wants self.new.wants result }
        ensures step { self.new.step ≡ self.old.step }
        ensures fails { self.new.fails ≡ self.old.fails }
    {
        let failing = self.fails.contains(&self.calls);
        self.calls = self.calls.saturating_add(1);
        if failing {
            self.faults = self.faults.saturating_add(1);
            return Err(SinkFault::Device);
        }
        let count = piece.len().min(self.step);
        match self.received.extend_from_slice(&piece[..count]) {
            Ok(()) => Ok(count),
            Err(_) => {
                self.wants = self.wants.saturating_add(1);
                Err(SinkFault::OutOfMemory)
            }
        }
    }
}

/// Writes all of `bytes`, piece by piece. After an `Err` a part from the front was written, and the fault is the sink's own.
pub fn write_all<Si: Sink>(sink: &mut Si, bytes: &[u8]) -> Result<(), SinkFault>
    ensures ok { OnOk result (Appends (Si.received sink.old) (Si.received sink.new) bytes.now) }
    ensures prefix { (n : ℕ) × Appends (Si.received sink.old) (Si.received sink.new) (take n bytes.now) }
    ensures later { Si.faults sink.old ≤ Si.faults sink.new }
    ensures later_wants { Si.wants sink.old ≤ Si.wants sink.new }
    ensures device { IsErrOf result SinkFault.Device → Rose (Si.faults sink.old) (Si.faults sink.new) }
    ensures memory { IsErrOf result SinkFault.OutOfMemory → Rose (Si.wants sink.old) (Si.wants sink.new) }
{
    let mut at = 0;
    while at < bytes.len() {
        match sink.write(&bytes[at..]) {
            Ok(count) => at += count,
            Err(fault) => return Err(fault),
        }
    }
    Ok(())
}
