//! An index bound to its input.
ghost use Rattle.std.specs.Prelude.{◌≡◌, IfOk, OnOk, IfErr, None, get_or, length};
ghost use Rattle.pl_seek.specs.Binding.{IsBindFault};
ghost use Rattle.pl_seek.specs.Building.{index_in, MayIndex};
ghost use Rattle.pl_seek.specs.Parts.{IsReadFault};
ghost use Rattle.pl_seek.specs.Slices.{range_in, slice_rows, slice_cause, slice_frame};

use crate::build::build_index;
use crate::fault::SeekFault;
use crate::index::SeekIndex;
use crate::numbering::numbered;
use crate::part::part_columns;
use pl_frame::frame::DataFrame;
use pl_options::read_options::CsvReadOptions;
use std::alloc::Global;
use std::marker::Model;

/// An input, and the index that it has under options.
pub struct Bound<'a> {
    input: &'a [u8],
    read: CsvReadOptions,
    index: SeekIndex,
}

impl<'a> Model for Bound<'a> {
    ghost use Rattle.std.specs.Prelude.{◌≡◌};
    ghost use Rattle.pl_seek.specs.Binding.{Binding};
    ghost use Rattle.pl_seek.specs.Building.{index_in, MayIndex};

    ghost Value = { Binding };

    ghost view = { λ bound. record { input = bound.input.now; read = bound.read; every = bound.index.every } };

    ghost invariant = { λ bound. MayIndex bound.read bound.input.now × (bound.index ≡ index_in bound.read bound.index.every bound.input.now) };
}

impl<'a> Drop for Bound<'a> {
    fn drop(self) {
        let Bound {
            input: _,
            read: _,
            index: _,
        } = self;
    }
}

/// The input with the index, where this is the index that the input has under the options. Its digest, its settings, its number of
/// records and each of its places are compared with those of the input, and none is trusted.
///
/// Refuses what `build_index` refuses; then another digest (`Input`), other settings (`Settings`), and the least place that is not that
/// of the input, or else another number of records (`Places`); and want of memory.
pub fn bind<'a>(
    alloc: Global,
    input: &'a [u8],
    read: &CsvReadOptions,
    index: SeekIndex,
) -> Result<Bound<'a>, SeekFault>
    ensures bound { IfOk result (λ bound. bound ≡ record { input = input.now; read = read.now; every = index.every }) }
    ensures may { OnOk result (MayIndex read.now input.now) }
    ensures same { OnOk result (index ≡ index_in read.now index.every input.now) }
    ensures refused { IfErr result (IsBindFault read.now input.now index) }
{
    let own = build_index(alloc, input, read, index.every())?;
    let compared = index.compare(&own);
    drop(own);
    compared?;
    match read.try_clone() {
        Ok(read) => Ok(Bound { input, read, index }),
        Err(_) => Err(SeekFault::OutOfMemory),
    }
}

// The place of a group, or the end where there is no such group.
fn place_or(places: &[usize], group: usize, end: usize) -> usize
    ensures { result ≡ get_or places.now group end }
{
    match places.get(group) {
        Some(place) => *place,
        None => end,
    }
}

impl<'a> Bound<'a> {
    /// The bytes that a slice of at most `count` records from number `start` on is read from, where they begin and where they end: from
    /// where the group of its first record begins up to where the first group behind its end does, or the end of the input. Where there
    /// is no record in it, both are the end.
    pub fn range(&self, start: usize, count: usize) -> (usize, usize)
        ensures { result ≡ range_in (index_in self.now.read self.now.every self.now.input) (length self.now.input) start count }
    {
        let size = self.input.len();
        let every = self.index.every();
        let places = self.index.places();
        if start >= self.index.records() || count == 0 {
            return (size, size);
        }
        let begin = place_or(places, start / every, size);
        match start.checked_add(count) {
            Some(end) => (begin, place_or(places, end.div_ceil(every), size)),
            None => (begin, size),
        }
    }
    /// The records from number `start` on, at most `count`, as a frame of the columns that are read, behind their row index where one is
    /// asked, which numbers them as the whole input does. They are read from the bytes of `range` alone, and no other record is judged.
    ///
    /// Refuses the first fault of the least of those records that has one, by its number in the input; then the last number of their row
    /// index that does not fit 64 bits, or else the last code of the first column that does not fit 32 (`Polars`); and want of memory.
    pub fn slice(&self, alloc: Global, start: usize, count: usize) -> Result<DataFrame, SeekFault>
        ensures frame { IfOk result (λ frame. frame ≡ slice_frame self.now.read start (slice_rows self.now.read self.now.input start count)) }
        ensures sound { OnOk result (slice_cause self.now.read start (slice_rows self.now.read self.now.input start count) ≡ None) }
        ensures refused { IfErr result (IsReadFault (slice_cause self.now.read start (slice_rows self.now.read self.now.input start count))) }
    {
        let skip = start % self.index.every();
        let (begin, end) = self.range(start, count);
        let part = &self.input[begin..end];
        match part_columns(alloc, part, &self.read, skip, count, start) {
            Ok(columns) => numbered(alloc, self.read.row_index.as_ref(), start, columns),
            Err(fault) => Err(fault),
        }
    }
}
