//! Sources, openers and sinks over which a watch stands. They tell what those behind them tell: contracts see no difference.
ghost use Rattle.std.specs.Prelude.{◌≡◌, ℕ, List};

use crate::watch::Watch;
use pl_frame::opener::Opener;
use pl_frame::sink::{Sink, SinkFault};
use pl_frame::source::{Failed, Source};
use std::alloc::Global;
use std::time::Clock;

/// A source whose bytes are counted, of many files with its path.
#[derive(Drop)]
pub struct WatchedSource<'a, S: Source + Drop, R: Clock + Eprint> {
    pub source: S,
    pub path: Option<String>,
    pub watch: &'a Watch<'a, R>,
}

impl<'a, S: Source + Drop, R: Clock + Eprint> Source for WatchedSource<'a, S, R> {
    ghost left = { λ watched. S.left watched.source };

    ghost faults = { λ watched. S.faults watched.source };

    fn read(&mut self, buf: &mut [u8]) -> Result<usize, Failed> {
        let count = self.source.read(buf)?;
        let path = match &self.path {
            Some(path) => Some(path.as_str()),
            None => None,
        };
        self.watch.count(&buf[..count], path);
        Ok(count)
    }
}

/// An opener whose sources are counted.
#[derive(Drop)]
pub struct WatchedOpener<'a, O: Opener + Drop, R: Clock + Eprint> {
    pub opener: O,
    pub alloc: Global,
    pub watch: &'a Watch<'a, R>,
}

impl<'a, O: Opener + Drop, R: Clock + Eprint> Opener for WatchedOpener<'a, O, R>
where
    O::Opened: Drop,
{
    type Opened = WatchedSource<'a, O::Opened, R>;

    ghost holds = { λ watched. O.holds watched.opener };

    ghost faults = { λ watched. O.faults watched.opener };

    fn open_path(&mut self, path: &str) -> Result<WatchedSource<'a, O::Opened, R>, Failed> {
        let source = self.opener.open_path(path)?;
        let path = String::from_str(self.alloc, path).ok();
        Ok(WatchedSource {
            source,
            path,
            watch: self.watch,
        })
    }

    fn close(&mut self, opened: WatchedSource<'a, O::Opened, R>) {
        let WatchedSource {
            source,
            path: _,
            watch: _,
        } = opened;
        self.opener.close(source);
    }
}

/// A sink before whose bytes the line of the watch is wiped out, where both stand on a terminal.
#[derive(Drop)]
pub struct WatchedSink<'a, S: Sink + Drop, R: Clock + Eprint> {
    pub sink: S,
    pub is_terminal: bool,
    pub watch: &'a Watch<'a, R>,
}

impl<'a, S: Sink + Drop, R: Clock + Eprint> Sink for WatchedSink<'a, S, R> {
    ghost received = { λ watched. S.received watched.sink };

    ghost faults = { λ watched. S.faults watched.sink };

    ghost wants = { λ watched. S.wants watched.sink };

    fn write(&mut self, piece: &[u8]) -> Result<usize, SinkFault> {
        if self.is_terminal {
            self.watch.wipe();
        }
        self.sink.write(piece)
    }
}
