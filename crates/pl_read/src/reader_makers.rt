//! Readers of frames, made of options.
ghost use Rattle.std.specs.Prelude.{◌≡◌, ◌≤◌, ℕ, List, None, Some, IsSome, IfOk, IfErr, IfSome};
ghost use Rattle.std.specs.Option.{option_copied};
ghost use Rattle.pl_frame.specs.Causes.{Rose};
ghost use Rattle.pl_frame.specs.Opening.{IsOpened};
ghost use Rattle.pl_frame.specs.declared.error.PolarsError.TheVariants as error;
ghost use Rattle.pl_options.specs.declared.read_options.CsvReadOptions.{CsvReadOptions};
ghost use Rattle.pl_read.specs.ReaderMakers.{IsOneGiven, given_path};

use crate::bytes_reader::MmapBytesReader;
use crate::csv_reader::CsvReader;
use pl_frame::error::{PolarsError, PolarsResult};
use pl_frame::name::PlSmallStr;
use pl_frame::opener::Opener;
use pl_options::read_options::CsvReadOptions;
use std::alloc::Global;

/// What makes readers of frames.
pub trait ReaderMakers {
    /// How the readers read.
    ghost options: { Self → CsvReadOptions };

    /// A reader of a source by these options. Takes no memory.
    fn into_reader_with_file_handle<R: MmapBytesReader>(
        self,
        alloc: Global,
        reader: R,
    ) -> CsvReader<R>
        ensures { result ≡ record { source = reader; options = options self } };

    /// A reader of what lies at a path, which is opened: that of the options, or the one that is given beside them, but not
    /// both. The reader keeps the options as they are.
    ///
    /// Refuses `IO` only where the opener's count of faults rose. Takes no memory.
    fn try_into_reader_with_file_path<O: Opener>(
        self,
        alloc: Global,
        opener: &mut O,
        path: Option<PlSmallStr>,
    ) -> PolarsResult<CsvReader<O::Opened>>
    where
        O::Opened: MmapBytesReader,
        requires { IsOneGiven (options self).path path }
        ensures opened { IfOk result (λ made. IfSome (given_path (options self).path path) (λ path.
            IsOpened (O.holds opener.old path) (O.Opened.left made.source) (O.Opened.faults made.source))) }
        ensures kept { IfOk result (λ made. made.options ≡ options self) }
        ensures refused { IfErr result (λ fault. (fault ≡ error.IO) × Rose (O.faults opener.old) (O.faults opener.new)) }
        ensures later { O.faults opener.old ≤ O.faults opener.new }
        ensures stays { (other : List ℕ) → O.holds opener.new other ≡ O.holds opener.old other };
}

// The one path that is given.
fn given_path<'a>(kept: Option<&'a PlSmallStr>, beside: Option<&'a PlSmallStr>) -> &'a str
    requires { IsOneGiven (option_copied kept) (option_copied beside) }
    ensures { Some result.now ≡ given_path (option_copied kept.entry) (option_copied beside.entry) }
{
    match beside.or(kept) {
        Some(path) => path.as_str(),
        None => unreachable!(),
    }
}

impl ReaderMakers for CsvReadOptions {
    ghost options = { λ it. it };

    fn into_reader_with_file_handle<R: MmapBytesReader>(
        self,
        alloc: Global,
        reader: R,
    ) -> CsvReader<R> {
        CsvReader::with_options(alloc, reader, self)
    }

    fn try_into_reader_with_file_path<O: Opener>(
        self,
        alloc: Global,
        opener: &mut O,
        path: Option<PlSmallStr>,
    ) -> PolarsResult<CsvReader<O::Opened>>
    where
        O::Opened: MmapBytesReader,
    {
        let given = given_path(self.path.as_ref(), path.as_ref());
        let opened = opener.open_path(given);
        drop(path);
        match opened {
            Ok(source) => Ok(self.into_reader_with_file_handle(alloc, source)),
            Err(_) => {
                drop(self);
                Err(PolarsError::IO)
            }
        }
    }
}
