//! The status of a refusal, and its fault line in the caller's memory.
ghost use Rattle.std.specs.Prelude.{◌≡◌, ◌≢◌, ◌<◌, ◌≤◌, ◌+◌, ◌-◌, ◌++◌, ℕ, Some, take, drop, length, [], IfOk, IfSome, IsOkUnless};
ghost use Rattle.std.specs.Io.KnownBytes.{WriteAppends};
ghost use Rattle.pl_csv.specs.Telling.{fault_line};
ghost use Rattle.pl_csv.specs.declared.run.Refusal.TheVariants as refusal;
ghost use Rattle.pl_csv_c.specs.Fault.{MayStandFor, IsRefusedAs};
ghost use Rattle.pl_frame.specs.Outside.{RisesAtErr};
ghost use Rattle.pl_frame.specs.declared.error.PolarsError.TheVariants as error;

use pl_csv::run::Refusal;
use pl_csv::telling::tell_refusal;
use pl_frame::error::PolarsError;
use pl_frame::sink::{Sink, SinkFault};
use std::alloc::Global;
use std::marker::Model;

// A line that is told, and how often memory was wanting for it.
#[derive(Drop)]
struct Line {
    text: Vec<u8>,
    wants: u64,
}

impl Model for Line {
    ghost use Rattle.pl_frame.specs.Outside.{Writing};

    ghost Value = { Writing };

    ghost view = { λ line. record { received = line.text.items; wants = line.wants } };
}

impl Sink for Line {
    ghost received = { λ line. Some line.received };

    ghost faults = { λ _. 0 };

    ghost wants = { λ line. line.wants };

    fn write(&mut self, piece: &[u8]) -> Result<usize, SinkFault>
        requires { 0 < length piece.now }
        ensures bytes { WriteAppends (Some self.old.received) (Some self.new.received) result piece.now }
        ensures all { IfOk result (λ n. n ≡ length piece.now) }
        ensures refused { IsOkUnless result SinkFault.OutOfMemory }
        ensures later_wants { self.old.wants ≤ self.new.wants }
        ensures wanted { RisesAtErr self.old.wants self.new.wants result }
    {
        match self.text.extend_from_slice(piece) {
            Ok(()) => Ok(piece.len()),
            Err(_) => {
                self.wants = self.wants.saturating_add(1);
                Err(SinkFault::OutOfMemory)
            }
        }
    }
}

// Puts a text at the front of memory, as far as there is room.
fn put_front(room: &mut [u8], text: &[u8])
    ensures { room.new ≡ take (length room.old) text.now ++ drop (length text.now) room.old }
{
    let count = text.len().min(room.len());
    for place in 0..count {
        room[place] = text[place];
    }
}

// Tells that memory was wanting, without taking any.
fn refuse_memory(line: &mut [u8], line_len: &mut usize) -> u32
    ensures told { IsRefusedAs (MayStandFor (refusal.Polars error.OutOfMemory)) result line.old line.new line_len.new }
    ensures some { result ≢ 0 }
{
    let text = b"memory";
    put_front(line, text);
    *line_len = text.len();
    5
}

// The fault line of a refusal, with its line feed, where there is memory for it.
fn line_of(alloc: Global, refusal: &Refusal) -> Option<Vec<u8>>
    ensures { IfSome result (λ line. line.items ≡ fault_line refusal.now) }
{
    let mut line = Line {
        text: Vec::new(alloc),
        wants: 0,
    };
    tell_refusal(&mut line, refusal);
    let Line { text, wants } = line;
    if wants == 0 { Some(text) } else { None }
}

// The text of a line, without its line feed.
fn without_feed(line: &[u8]) -> &[u8]
    ensures { result.now ≡ take (length line.now - 1) line.now }
{
    &line[..line.len().saturating_sub(1)]
}

// Tells a line but for its line feed, and answers the status.
fn tell_line(refusal: &Refusal, text: &[u8], line: &mut [u8], line_len: &mut usize) -> u32
    requires { text.now ≡ fault_line refusal.now }
    ensures told { IsRefusedAs (MayStandFor refusal.now) result line.old line.new line_len.new }
    ensures some { result ≢ 0 }
{
    let front = without_feed(text);
    put_front(line, front);
    *line_len = front.len();
    u32::from(refusal.status())
}

/// The status of a refusal. Its fault line is put into the caller's memory, as far as there is room, without its line feed, and its
/// whole length is told. Where there is no memory to make the line, that is what is refused.
pub(crate) fn refuse(alloc: Global, refusal: Refusal, line: &mut [u8], line_len: &mut usize) -> u32
    ensures told { IsRefusedAs (MayStandFor refusal) result line.old line.new line_len.new }
    ensures some { result ≢ 0 }
{
    if let Refusal::Polars(PolarsError::OutOfMemory) = &refusal {
        return refuse_memory(line, line_len);
    }
    match line_of(alloc, &refusal) {
        Some(text) => tell_line(&refusal, &text, line, line_len),
        None => refuse_memory(line, line_len),
    }
}
