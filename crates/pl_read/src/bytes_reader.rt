//! What readers read: sources that may lend all their bytes.
ghost use Rattle.std.specs.Prelude.{◌≡◌, ◌≢◌, ◌≤◌, ◌⊎◌, ℕ, List, Option, None, Some, IsNone, IsSome, Ok, IfOk, IfErr, IfSome};
ghost use Rattle.std.specs.Io.KnownBytes.{IsAtEnd};
ghost use Rattle.std.specs.Option.{option_map};
ghost use Rattle.pl_frame.specs.Came.{IsReadOn};
ghost use Rattle.pl_frame.specs.declared.error.PolarsError.TheVariants as error;
ghost use Rattle.pl_options.specs.ReaderBytes.{bytes_in};
ghost use Rattle.pl_read.specs.BytesReader.{input_of, IsSourceFault};

use pl_frame::error::{PolarsError, PolarsResult};
use pl_frame::read_all::{ReadAllFault, read_all};
use pl_frame::source::{MemSource, PipeSource, Source};
use pl_options::reader_bytes::ReaderBytes;
use std::alloc::Global;

/// A source that may have all its bytes in memory.
pub trait MmapBytesReader: Source {
    /// All its bytes, whatever was read, where it lends them.
    ghost lent: { Self → Option (List ℕ) };

    /// All its bytes, whatever was read, where it lends them. Takes no memory.
    fn to_bytes(&self) -> Option<&[u8]>
        ensures { option_map (λ bytes. bytes.now) result ≡ lent self.now };
}

impl<T: MmapBytesReader> MmapBytesReader for &mut T {
    ghost lent = { λ reader. T.lent reader.now };

    fn to_bytes(&self) -> Option<&[u8]> {
        MmapBytesReader::to_bytes(&**self)
    }
}

impl<T: MmapBytesReader> MmapBytesReader for Box<T> {
    ghost lent = { λ reader. T.lent reader.value };

    fn to_bytes(&self) -> Option<&[u8]> {
        self.as_ref().to_bytes()
    }
}

impl<'a> MmapBytesReader for MemSource<'a> {
    ghost lent = { λ source. Some source.bytes };

    fn to_bytes(&self) -> Option<&[u8]> {
        Some(self.bytes())
    }
}

impl<'a> MmapBytesReader for PipeSource<'a> {
    ghost lent = { λ _. None };

    fn to_bytes(&self) -> Option<&[u8]> {
        None
    }
}

/// What is left of a reader's source, read to its end, where the reader lends no bytes; `None` where it does, and then
/// nothing is read.
///
/// Refuses `IO` only where the reader's count of faults rose, and want of memory, in which a source without end ends. Whatever the
/// answer, the reader stands where its reads left it.
pub fn read_unlent<R: MmapBytesReader>(
    alloc: Global,
    reader: &mut R,
) -> PolarsResult<Option<Vec<u8>>>
    ensures lent { IsSome (R.lent reader.old) → (result ≡ Ok None) × (reader.new ≡ reader.old) }
    ensures read { IsNone (R.lent reader.old) → IfOk result (λ read. IsSome read) }
    ensures bytes { IfOk result (λ read. IfSome read (λ bytes. IfSome (R.left reader.old) (λ left. bytes.items ≡ left))) }
    ensures end { IfOk result (λ read. IsSome read → IsAtEnd (R.left reader.new)) }
    ensures refused { IfErr result (IsSourceFault (R.faults reader.old) (R.faults reader.new)) }
    ensures read_on { IsReadOn (R.left reader.old) (R.left reader.new) }
    ensures later { R.faults reader.old ≤ R.faults reader.new }
{
    if reader.to_bytes().is_some() {
        return Ok(None);
    }
    match read_all(alloc, reader, usize::MAX) {
        Ok(bytes) => Ok(Some(bytes)),
        Err(ReadAllFault::Source) => Err(PolarsError::IO),
        Err(_) => Err(PolarsError::OutOfMemory),
    }
}

/// The bytes of a reader after `read_unlent`: those that were read, or else those that it lends. Takes no memory.
pub fn lent_or_read<R: MmapBytesReader>(reader: &R, read: Option<Vec<u8>>) -> ReaderBytes<'_>
    requires { IsSome read ⊎ IsSome (R.lent reader.now) }
    ensures read { IfSome read (λ bytes. bytes_in result ≡ bytes.items) }
    ensures lent { IsNone read → Some (bytes_in result) ≡ R.lent reader.now }
{
    if let Some(bytes) = read {
        return ReaderBytes::Owned(bytes);
    }
    let Some(bytes) = reader.to_bytes() else {
        unreachable!();
    };
    ReaderBytes::Borrowed(bytes)
}

/// The bytes of a reader where it lends them, and else what is left of its source, read to its end.
///
/// Refuses `IO` only where the reader lends no bytes, and want of memory, in which a source without end ends. The answer borrows the
/// reader, so no clause says what its count of faults is then: where that matters, call `read_unlent` and then `lent_or_read`.
pub fn get_reader_bytes<R: MmapBytesReader>(
    alloc: Global,
    reader: &mut R,
) -> PolarsResult<ReaderBytes<'_>>
    ensures input { IfOk result (λ bytes. IfSome (input_of (R.lent reader.old) (R.left reader.old)) (λ input. bytes_in bytes ≡ input)) }
    ensures refused { IfErr result (λ fault. fault ≢ error.OutOfMemory → (fault ≡ error.IO) × IsNone (R.lent reader.old)) }
{
    let read = read_unlent(alloc, reader)?;
    Ok(lent_or_read(reader, read))
}
