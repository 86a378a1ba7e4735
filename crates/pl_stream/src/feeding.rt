//! Bytes that come to a state, and their end.
ghost use Rattle.std.specs.Prelude.{◌≡◌, ◌<◌, ◌≤◌, ◌^◌, ◌++◌, ℕ, List, None, false, true, drop, length, OnOk, IfErr, OnErr};
ghost use Rattle.pl_stream.specs.Feeding.{feed_cause, finish_cause, IsFed, IsFinished, IsStreamFault};
ghost use Rattle.pl_frame.specs.Compression.{is_compressed};
ghost use Rattle.pl_frame.specs.declared.error.ComputeFault.TheVariants as compute_fault;
ghost use Rattle.pl_frame.specs.declared.error.PolarsError.TheVariants as error;
ghost use Rattle.pl_stream.specs.declared.place.Place.TheVariants as place;
ghost use Rattle.pl_stream.specs.Ending.{HasEndText};
ghost use Rattle.pl_stream.specs.Kept.{error_of};
ghost use Rattle.pl_stream.specs.Printing.{IsRowsFault};
ghost use Rattle.pl_stream.specs.Stream.{StandsFor};
ghost use Rattle.pl_stream.specs.declared.fault.StreamFault.TheVariants as refusal;

use crate::ending::data_at;
use crate::fault::StreamFault;
use crate::finishing::push_end;
use crate::place::Place;
use crate::state::{KeptFault, StreamState};
use crate::stepping::{kept_of, settle};
use pl_frame::compression::is_compressed;
use pl_frame::error::{ComputeFault, NoDataFault, PolarsError};

// The refusal of a compressed input.
fn compressed() -> StreamFault
    ensures { result ≡ refusal.Polars (error.ComputeError compute_fault.Compressed) }
{
    StreamFault::Polars(PolarsError::ComputeError(ComputeFault::Compressed))
}

// Whether bytes at the start of an input begin with the mark of a compressed stream.
fn is_marked(at: Place, kept: &[u8]) -> bool
    ensures yes { result ≡ true → (at ≡ place.Start) × (is_compressed kept.now ≡ true) }
    ensures no { result ≡ false → at ≡ place.Start → is_compressed kept.now ≡ false }
{
    match at {
        Place::Start => is_compressed(kept),
        _ => false,
    }
}

impl StreamState {
    /// Takes the next bytes of the input, and appends what the settled text has by them.
    pub fn feed(&mut self, piece: &[u8], text: &mut Vec<u8>) -> Result<(), StreamFault>
        requires open { self.old.is_finished ≡ false }
        ensures fed { (bytes : List ℕ) → StandsFor self.old bytes → length (bytes ++ piece.now) < 2 ^ 64 → OnOk result (IsFed self.old self.new bytes piece.now text.old.items text.new.items) }
        ensures sound { OnOk result (self.old.fault ≡ None) }
        ensures refused { (bytes : List ℕ) → StandsFor self.old bytes → length (bytes ++ piece.now) < 2 ^ 64 → IfErr result (IsStreamFault self.old self.new (feed_cause self.old.read (bytes ++ piece.now))) }
        ensures silent { OnErr result (text.new.items ≡ text.old.items) }
        ensures open { self.new.is_finished ≡ false }
    {
        if let Some(fault) = self.fault {
            return Err(fault_of_kept(fault));
        }
        let held = self.kept.len();
        if self.kept.extend_from_slice(piece).is_err() {
            return Err(StreamFault::OutOfMemory);
        }
        match settle(
            self.alloc,
            &self.kept,
            self.place,
            &mut self.printer,
            &self.read,
            &self.settled,
            &self.write,
            self.rows,
            text,
        ) {
            Ok(step) => {
                let_go(&mut self.kept, step.at);
                self.place = step.place;
                self.rows = step.rows;
                Ok(())
            }
            Err(fault) => {
                self.kept.truncate(held);
                self.fault = kept_of(&fault);
                Err(fault)
            }
        }
    }

    /// Takes the end of the input, and appends what its text has behind the settled text.
    pub fn finish(&mut self, text: &mut Vec<u8>) -> Result<(), StreamFault>
        requires open { self.old.is_finished ≡ false }
        ensures finished { (bytes : List ℕ) → StandsFor self.old bytes → OnOk result (IsFinished self.old self.new bytes text.old.items text.new.items) }
        ensures sound { OnOk result (self.old.fault ≡ None) }
        ensures refused { (bytes : List ℕ) → StandsFor self.old bytes → IfErr result (IsStreamFault self.old self.new (finish_cause self.old.read bytes)) }
        ensures silent { OnErr result (text.new.items ≡ text.old.items) }
    {
        if let Some(fault) = self.fault {
            return Err(fault_of_kept(fault));
        }
        let mut gained = Vec::new(self.alloc);
        match self.print_end(&mut gained) {
            Ok(()) => {
                if text.extend_from_slice(&gained).is_err() {
                    return Err(StreamFault::OutOfMemory);
                }
                self.is_finished = true;
                Ok(())
            }
            Err(fault) => {
                self.fault = kept_of(&fault);
                Err(fault)
            }
        }
    }

    // Appends what the text of the frame has behind the settled text, once the input ended. Refuses the first cause against the input, and want of
    // memory. So many records that their number with that of the bytes does not fit come of no input.
    fn print_end(&mut self, text: &mut Vec<u8>) -> Result<(), StreamFault>
        ensures same { self.new ≡ self.old }
        ensures ended { (bytes : List ℕ) → StandsFor self.old bytes → OnOk result (HasEndText self.old bytes text.old.items text.new.items) }
        ensures refused { (bytes : List ℕ) → StandsFor self.old bytes → IfErr result (IsRowsFault (finish_cause self.old.read bytes)) }
    {
        if is_marked(self.place, &self.kept) {
            return Err(compressed());
        }
        let Some(records) = data_at(&self.kept, &self.read, self.place) else {
            return Err(StreamFault::Polars(PolarsError::NoData(NoDataFault::Skip)));
        };
        if usize::checked_add(self.rows, records.len()).is_none() {
            return Err(StreamFault::OutOfMemory);
        }
        push_end(
            self.alloc,
            records,
            &mut self.printer,
            &self.read,
            &self.settled,
            &self.write,
            self.rows,
            text,
        )
    }
}

// Lets the first bytes go.
fn let_go(kept: &mut Vec<u8>, count: usize)
    requires { count ≤ length kept.now.items }
    ensures { kept.new.items ≡ drop count kept.old.items }
{
    let left = kept.len() - count;
    kept.copy_within(count.., 0);
    kept.truncate(left);
}

// The fault that is kept, once more.
fn fault_of_kept(fault: KeptFault) -> StreamFault
    ensures { result ≡ refusal.Polars (error_of fault) }
{
    match fault {
        KeptFault::Compute(fault) => StreamFault::Polars(PolarsError::ComputeError(fault)),
        KeptFault::NoData(fault) => StreamFault::Polars(PolarsError::NoData(fault)),
    }
}
