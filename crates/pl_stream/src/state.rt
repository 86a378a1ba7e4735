//! The state of a stream.
ghost use Rattle.std.specs.Prelude.{◌≡◌, ◌≤◌, ℕ, List, [], length, IfOk, OnOk, IfErr};
ghost use Rattle.pl_stream.specs.Options.{IsAccepted, IsRefused};
ghost use Rattle.pl_stream.specs.Stream.{new_stream, StandsFor, most_kept};

use crate::checking::settle_stream;
use crate::fault::StreamFault;
use crate::place::Place;
use pl_frame::error::{ComputeFault, NoDataFault};
use pl_options::read_options::CsvReadOptions;
use pl_read::settle_given::Settled;
use pl_write::options::CsvWriterOptions;
use pl_write::row_printer::RowPrinter;
use std::alloc::Global;
use std::marker::Model;

/// A fault of the input that a call answered.
#[derive(Clone, Copy, Debug, PartialEq, Eq)]
pub(crate) enum KeptFault {
    Compute(ComputeFault),
    NoData(NoDataFault),
}

/// What is known of an input that comes piece by piece. Contracts see the options, the bytes that are kept, how far these are read, how many
/// records were settled, the fault that a call answered, and whether the input ended.
#[derive(Drop)]
pub struct StreamState {
    pub(crate) alloc: Global,
    pub(crate) read: CsvReadOptions,
    pub(crate) write: CsvWriterOptions,
    pub(crate) settled: Settled,
    pub(crate) kept: Vec<u8>,
    pub(crate) place: Place,
    pub(crate) rows: usize,
    pub(crate) fault: Option<KeptFault>,
    pub(crate) is_finished: bool,
    pub(crate) printer: RowPrinter,
}

impl Model for StreamState {
    ghost use Rattle.std.specs.Prelude.{◌≡◌, None};
    ghost use Rattle.std.specs.Option.{option_map};
    ghost use Rattle.pl_read.specs.Refusals.{numbers_past};
    ghost use Rattle.pl_read.specs.SettleGiven.{given_schema, IsSettled};
    ghost use Rattle.pl_stream.specs.Kept.{error_of};
    ghost use Rattle.pl_stream.specs.Options.{IsAccepted};
    ghost use Rattle.pl_stream.specs.Stream.{Stream};

    ghost Value = { Stream };

    ghost view = { λ s. record {
      read = s.read;
      write = s.write;
      kept = s.kept.items;
      place = s.place;
      rows = s.rows;
      fault = option_map error_of s.fault;
      is_finished = s.is_finished;
    } };

    ghost invariant = { λ s. IsAccepted s.read s.write × IsSettled s.read (given_schema s.read) s.settled × (numbers_past s.read.row_index s.rows ≡ None) };
}

impl StreamState {
    /// A state that no bytes came to, under these options: it stands for the empty input.
    ///
    /// Refuses, in this order: that no schema is given (`NoSchema`); the first cause against the options (`Polars`, docs/refusals.md): marks that
    /// are no dialect, an option with a value that it may not have, a quote to write with that is not ASCII, and what stands against the
    /// schema, the names, the null values and the places; the least column that is read and has categories (`Category`); that no column is
    /// read (`NoColumn`). Refuses also want of memory.
    #[tactic(auto, using(crate::proofs::NewLaws::new_stands))]
    pub fn new(
        alloc: Global,
        read: &CsvReadOptions,
        write: &CsvWriterOptions,
    ) -> Result<StreamState, StreamFault>
        ensures fresh { IfOk result (λ state. state ≡ new_stream read.now write.now) }
        ensures stands { IfOk result (λ state. StandsFor state []) }
        ensures accepted { OnOk result (IsAccepted read.now write.now) }
        ensures refused { IfErr result (IsRefused read.now write.now) }
    {
        let settled = match settle_stream(alloc, read, write) {
            Ok(settled) => settled,
            Err(fault) => return Err(fault),
        };
        let Ok(read) = read.try_clone() else {
            drop(settled);
            return Err(StreamFault::OutOfMemory);
        };
        let Ok(write) = write.try_clone() else {
            drop(read);
            drop(settled);
            return Err(StreamFault::OutOfMemory);
        };
        let Ok(printer) = RowPrinter::new(alloc) else {
            drop(write);
            drop(read);
            drop(settled);
            return Err(StreamFault::OutOfMemory);
        };
        Ok(StreamState {
            alloc,
            read,
            write,
            settled,
            kept: Vec::new(alloc),
            place: Place::Start,
            rows: 0,
            fault: None,
            is_finished: false,
            printer,
        })
    }

    /// How many bytes are kept: four more at most than the longest of the lines that are skipped and of the items, each with its line end.
    pub fn held(&self) -> usize
        ensures kept { result ≡ length self.now.kept }
        ensures few { (bytes : List ℕ) → StandsFor self.now bytes → result ≤ most_kept self.now.read bytes }
    {
        self.kept.len()
    }

    /// Whether the input ended: a call of `finish` was accepted.
    pub fn finished(&self) -> bool
        ensures { result ≡ self.now.is_finished }
    {
        self.is_finished
    }
}
