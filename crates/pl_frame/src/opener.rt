//! What opens paths as sources.
ghost use Rattle.std.specs.Prelude.{◌≡◌, ℕ, ◌<◌, ◌↔◌, List, Option, Some, None, IsErr, IfOk, MatchOption};
ghost use Rattle.pl_frame.specs.Causes.{HasCause, raised};
ghost use Rattle.pl_frame.specs.Outside.{left_of, RisesAtErr};
ghost use Rattle.pl_frame.specs.Opening.{IsOpened, Closes, entries_of, held};

use crate::source::{Failed, MemSource, PipeSource, Source};
use std::marker::Model;

/// What opens paths as sources.
pub trait Opener {
    type Opened: Source;

    /// The bytes at a path, where the opener tells them.
    ghost holds: { Self → List ℕ → Option (List ℕ) };

    /// How often a path was not opened, or a source that had failed was taken back; at the end of its type it stays.
    ghost faults: { Self → ℕ };

    /// Opens the bytes at a path, as a source that has not failed yet. `Failed` comes only where `faults` rose.
    fn open_path(&mut self, path: &str) -> Result<Self::Opened, Failed>
        ensures opened { IfOk result (λ opened. IsOpened (holds self.old path.now) (Self.Opened.left opened) (Self.Opened.faults opened)) }
        ensures cause { HasCause (faults self.old) (faults self.new) result }
        ensures stays { (other : List ℕ) → holds self.new other ≡ holds self.old other };

    /// Takes an opened source back. `faults` rises where a read of it has failed, and stays where none has.
    fn close(&mut self, opened: Self::Opened)
        ensures counted { Closes (Self.Opened.faults opened) (faults self.old) (faults self.new) }
        ensures stays { (other : List ℕ) → holds self.new other ≡ holds self.old other };
}

// The bytes of the first entry of a path.
fn find_entry<'a>(entries: &'a [(&'a str, &'a [u8])], path: &str) -> Option<&'a [u8]>
    ensures { MatchOption result
        (held (entries_of entries.now) path.now ≡ None)
        (λ bytes. held (entries_of entries.now) path.now ≡ Some bytes.now) }
{
    for entry in entries {
        if entry.0 == path {
            return Some(entry.1);
        }
    }
    None
}

/// Paths with their bytes, which open as sources that never fail. The first entry of a path counts. It borrows what it is
/// made of and takes no memory.
#[derive(Drop)]
pub struct MemOpener<'a> {
    entries: &'a [(&'a str, &'a [u8])],
    faults: u64,
}

impl<'a> Model for MemOpener<'a> {
    ghost use Rattle.pl_frame.specs.Opening.{Opening, entries_of};

    ghost Value = { Opening };

    ghost view = { λ opener. record { entries = entries_of opener.entries.now; faults = opener.faults } };
}

impl<'a> MemOpener<'a> {
    /// An opener of these paths, which has not failed yet.
    pub fn new(entries: &'a [(&'a str, &'a [u8])]) -> Self
        ensures { result ≡ record { entries = entries_of entries.now; faults = 0 } }
    {
        MemOpener { entries, faults: 0 }
    }
}

impl<'a> Opener for MemOpener<'a> {
    type Opened = MemSource<'a>;

    ghost holds = { λ opener path. held opener.entries path };

    ghost faults = { λ opener. opener.faults };

    fn open_path(&mut self, path: &str) -> Result<MemSource<'a>, Failed>
        ensures opened { IfOk result (λ opened. IsOpened (held self.old.entries path.now) (left_of opened) 0) }
        ensures cause { HasCause self.old.faults self.new.faults result }
        ensures stays { (other : List ℕ) → held self.new.entries other ≡ held self.old.entries other }

        // It fails exactly for a path that it does not hold, and each such call is counted.
        ensures failing { IsErr result ↔ (held self.old.entries path.now ≡ None) }
        ensures whole { IfOk result (λ opened. (held self.old.entries path.now ≡ Some opened.bytes) × (opened.place ≡ 0)) }
        ensures counted { RisesAtErr self.old.faults self.new.faults result }
        ensures entries { self.new.entries ≡ self.old.entries }
    {
        match find_entry(self.entries, path) {
            Some(bytes) => Ok(MemSource::new(bytes)),
            None => {
                self.faults = self.faults.saturating_add(1);
                Err(Failed)
            }
        }
    }

    fn close(&mut self, _opened: MemSource<'a>)
        ensures counted { Closes 0 self.old.faults self.new.faults }
        ensures stays { (other : List ℕ) → held self.new.entries other ≡ held self.old.entries other }

        // Nothing changes, as its sources never fail.
        ensures same { self.new ≡ self.old }
    {}
}

/// Paths with their bytes, which open as sources that give at most `step` bytes at each call and fail at the calls
/// numbered in `fails`. The first entry of a path counts. It borrows what it is made of and takes no memory.
#[derive(Drop)]
pub struct PipeOpener<'a> {
    entries: &'a [(&'a str, &'a [u8])],
    step: usize,
    fails: &'a [usize],
    faults: u64,
}

impl<'a> Model for PipeOpener<'a> {
    ghost use Rattle.std.specs.Prelude.{◌<◌};
    ghost use Rattle.pl_frame.specs.Opening.{PipeOpening, entries_of};

    ghost Value = { PipeOpening };

    ghost view = { λ opener. record {
      entries = entries_of opener.entries.now;
      step = opener.step;
      fails = opener.fails.now;
      faults = opener.faults;
    } };

    ghost invariant = { λ opener. 0 < opener.step };
}

impl<'a> PipeOpener<'a> {
    /// An opener of these paths, which has not failed yet.
    pub fn new(entries: &'a [(&'a str, &'a [u8])], step: usize, fails: &'a [usize]) -> Self
        requires { 0 < step }
        ensures { result ≡ record { entries = entries_of entries.now; step = step; fails = fails.now; faults = 0 } }
    {
        PipeOpener {
            entries,
            step,
            fails,
            faults: 0,
        }
    }
}

impl<'a> Opener for PipeOpener<'a> {
    type Opened = PipeSource<'a>;

    ghost holds = { λ opener path. held opener.entries path };

    ghost faults = { λ opener. opener.faults };

    fn open_path(&mut self, path: &str) -> Result<PipeSource<'a>, Failed>
        ensures opened { IfOk result (λ opened. IsOpened (held self.old.entries path.now) (Some opened.left) opened.faults) }
        ensures cause { HasCause self.old.faults self.new.faults result }
        ensures stays { (other : List ℕ) → held self.new.entries other ≡ held self.old.entries other }

        // It fails exactly for a path that it does not hold, and each such call is counted.
        ensures failing { IsErr result ↔ (held self.old.entries path.now ≡ None) }
        ensures whole { IfOk result (λ opened. held self.old.entries path.now ≡ Some opened.left) }
        ensures step { IfOk result (λ opened. opened.step ≡ self.old.step) }
        ensures fails { IfOk result (λ opened. opened.fails ≡ self.old.fails) }
        ensures fresh { IfOk result (λ opened. (opened.calls ≡ 0) × (opened.faults ≡ 0)) }
        ensures counted { RisesAtErr self.old.faults self.new.faults result }
        ensures same { self.new ≡ record self.old { faults = self.new.faults } }
    {
        match find_entry(self.entries, path) {
            Some(bytes) => Ok(PipeSource::new(bytes, self.step, self.fails)),
            None => {
                self.faults = self.faults.saturating_add(1);
                Err(Failed)
            }
        }
    }

    fn close(&mut self, opened: PipeSource<'a>)
        ensures counted { Closes opened.entry.faults self.old.faults self.new.faults }
        ensures stays { (other : List ℕ) → held self.new.entries other ≡ held self.old.entries other }

        // A source that has failed is counted once.
        ensures clean { opened.entry.faults ≡ 0 → self.new ≡ self.old }
        ensures failed { 0 < opened.entry.faults → self.new ≡ record self.old { faults = raised self.old.faults } }
    {
        if opened.has_failed() {
            self.faults = self.faults.saturating_add(1);
        }
    }
}
