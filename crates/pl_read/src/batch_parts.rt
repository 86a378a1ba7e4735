//! The text of the next batches, cut into parts that are read on their own.
ghost use Rattle.std.specs.Prelude.{◌≡◌, ◌<◌, length, IfOk, IfSome, None, [], ◌∷◌};
ghost use Rattle.pl_frame.specs.Dialect.{IsDialect};
ghost use Rattle.pl_options.specs.Text.{marks_of, comment_of};
ghost use Rattle.pl_rows.specs.Ranges.{IsRangeRead};
ghost use Rattle.pl_read.specs.NextFrames.{AreParts, CanReadPart};

use crate::batch_ranges::range_len;
use pl_frame::schema::Schema;
use pl_options::put::put;
use pl_options::read_options::CsvReadOptions;
use pl_rows::columns::{RangeColumns, read_columns};
use pl_rows::plan::RangePlan;
use std::alloc::{AllocError, Global};

/// A part of a text, and its columns; none before it is read, and where memory was wanting.
#[derive(Drop)]
pub(crate) struct Part<'a> {
    pub(crate) text: &'a [u8],
    pub(crate) read: Option<RangeColumns>,
}

impl<'a> Part<'a> {
    // One that is not read.
    fn unread(text: &'a [u8]) -> Part<'a>
        ensures { result.text.now ≡ text.now }
    {
        Part { text, read: None }
    }

    /// Its columns, if it was read.
    pub(crate) fn into_read(self) -> Option<RangeColumns>
        ensures { result ≡ self.entry.read }
    {
        self.read
    }

    /// Reads it into columns.
    pub(crate) fn fill(&mut self, alloc: Global, schema: &Schema, plan: &RangePlan<'_>)
        requires { CanReadPart plan.now schema.now }
        ensures text { self.new.text.now ≡ self.old.text.now }
        ensures read { IfSome self.new.read (IsRangeRead plan.now schema.now self.old.text.now) }
    {
        let read = match read_columns(alloc, schema, self.text, plan) {
            Ok(read) => Some(read),
            Err(_) => None,
        };
        put(&mut self.read, read);
    }
}

/// The parts of the text of the next batches, and how many bytes of what was left that has.
#[derive(Drop)]
pub(crate) struct Parts<'a> {
    pub(crate) parts: Vec<Part<'a>>,
    pub(crate) end: usize,
}

/// All of a text as one part.
pub(crate) fn whole_part<'a>(
    alloc: Global,
    text: &'a [u8],
    read: Option<RangeColumns>,
) -> Result<Vec<Part<'a>>, AllocError>
    ensures { IfOk result (λ parts. parts.items ≡ record { text = text.entry; read = read } ∷ []) }
{
    let mut parts = Vec::new(alloc);
    match parts.push(Part { text, read }) {
        Ok(()) => Ok(parts),
        Err(_) => {
            drop(parts);
            Err(AllocError)
        }
    }
}

/// The parts of the text of the next batches, which are not read: the first `n` ranges of what is left, or all where there are fewer.
/// Refuses only want of memory.
pub(crate) fn parts_of<'a>(
    alloc: Global,
    rest: &'a [u8],
    options: &CsvReadOptions,
    n: usize,
) -> Result<Parts<'a>, AllocError>
    requires dialect { IsDialect (marks_of options.now.parse_options) (comment_of options.now.parse_options) }
    requires pieces { 0 < options.now.chunk_size }
    requires asked { 0 < n }
    requires bytes { 0 < length rest.now }
    ensures { IfOk result (AreParts options.now n rest.now) }
{
    let mut parts = Vec::new(alloc);
    let mut left = n;
    let mut end = 0;
    while left > 0 && end < rest.len() {
        let to = end + range_len(&rest[end..], options);
        parts.push(Part::unread(&rest[end..to]))?;
        left -= 1;
        end = to;
    }
    Ok(Parts { parts, end })
}
