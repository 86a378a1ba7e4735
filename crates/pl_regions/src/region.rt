//! A region of the data: its pieces are read one after another, and the rows of each are printed.
ghost use Rattle.std.specs.Prelude.{◌≡◌, ◌<◌, ◌≤◌, ◌++◌, [], length, slice_range, if◌then◌else◌};
ghost use Rattle.std.specs.Bool.{OnTrue};
ghost use Rattle.std.specs.Cow.{cow_slice_items};
ghost use Rattle.pl_frame.specs.Dialect.{IsDialect};
ghost use Rattle.pl_scan.specs.Dialect.{marks_of, comment_of};
ghost use Rattle.pl_write.specs.Options.{cell_options};
ghost use Rattle.pl_verbatim.specs.PrintedTexts.{CanPrint};
ghost use Rattle.pl_verbatim.specs.Verbatim.{IsVerbatimOf};
ghost use Rattle.pl_regions.specs.Regions.{lines_so_far, IsOpenPrinted, IsRegionPrinted};

use crate::ranges::range_len;
use pl_frame::schema::Schema;
use pl_rows::plan::RangePlan;
use pl_rows::whole_pieces::read_piece_frame;
use pl_scan::dialect::Dialect;
use pl_verbatim::verbatim::Verbatim;
use pl_write::options::SerializeOptions;
use pl_write::row_printer::RowPrinter;
use std::alloc::Global;
use std::borrow::CowSlice;

// How long a piece is behind rows that were found or copied.
const SHORT: usize = 1 << 12;

// So many bytes that are lines as they stand are lent; fewer are copied.
const MANY: usize = 1 << 14;

/// A region of the data, by its place among all, and what was printed of it: the lines of so many rows, which are those of so many of
/// its bytes, one text behind the other. Lines that are the bytes they were read from are lent from there.
#[derive(Drop)]
pub(crate) struct Region<'a> {
    pub(crate) place: usize,
    pub(crate) text: &'a [u8],
    pub(crate) end: usize,
    pub(crate) rows: usize,
    pub(crate) lines: Vec<CowSlice<'a, u8, Global>>,
}

// Lines, which may be lent, and are where they are what was read.
fn as_read<'a>(lines: Vec<u8>, read: &'a [u8], may_lend: bool) -> CowSlice<'a, u8, Global>
    ensures { cow_slice_items result ≡ lines.items }
{
    if may_lend && lines.as_slice() == read {
        CowSlice::Borrowed(read)
    } else {
        CowSlice::Owned(lines)
    }
}

// A region while it is read, and what was printed of it so far: texts, and the lines behind them.
#[derive(Drop)]
struct OpenRegion<'a> {
    text: &'a [u8],
    end: usize,
    rows: usize,
    done: Vec<CowSlice<'a, u8, Global>>,
    lines: Vec<u8>,
}

impl<'a> OpenRegion<'a> {
    // One of which nothing was printed.
    fn new(alloc: Global, text: &'a [u8]) -> OpenRegion<'a>
        ensures text { result.text.now ≡ text.now }
        ensures end { result.end ≡ 0 }
        ensures rows { result.rows ≡ 0 }
        ensures lines { lines_so_far result ≡ [] }
    {
        OpenRegion {
            text,
            end: 0,
            rows: 0,
            done: Vec::new(alloc),
            lines: Vec::new(alloc),
        }
    }

    // Appends the bytes up to a place to the lines so far, and answers whether it did: many are lent. The lines have room for what is left.
    fn append(&mut self, alloc: Global, to: usize) -> bool
        requires after { self.old.end ≤ to }
        requires within { to ≤ length self.old.text.now }
        ensures text { self.new.text.now ≡ self.old.text.now }
        ensures end { self.new.end ≡ self.old.end }
        ensures rows { self.new.rows ≡ self.old.rows }
        ensures lines { lines_so_far self.new ≡ (if result then lines_so_far self.old ++ slice_range self.old.text.now self.old.end to else lines_so_far self.old) }
    {
        let read = &self.text[self.end..to];
        if read.len() < MANY {
            let _ = self.lines.reserve(self.text.len() - self.end);
            return self.lines.extend_from_slice(read).is_ok();
        }
        if self.done.reserve(2).is_err() {
            return false;
        }
        let lines = std::mem::replace(&mut self.lines, Vec::new(alloc));
        self.done.push_reserved(CowSlice::Owned(lines));
        self.done.push_reserved(CowSlice::Borrowed(read));
        true
    }

    // Finds the rows behind those so far that are written as they were read; their lines are these bytes.
    fn find(
        &mut self,
        alloc: Global,
        schema: &Schema,
        plan: &RangePlan<'_>,
        options: &SerializeOptions,
        verbatim: &Verbatim,
    )
        requires can { CanPrint plan.now schema.now }
        requires verbatim { IsVerbatimOf plan.now schema.now (cell_options options.now) verbatim.now }
        requires printed { IsOpenPrinted plan.now schema.now (cell_options options.now) self.old }
        ensures text { self.new.text.now ≡ self.old.text.now }
        ensures after { self.old.end ≤ self.new.end }
        ensures printed { IsOpenPrinted plan.now schema.now (cell_options options.now) self.new }
    {
        let front = verbatim.front(&self.text[self.end..]);
        let to = self.end + front.end;
        if self.append(alloc, to) {
            self.end = to;
            self.rows += front.rows;
        }
    }

    // Appends what is written of the rows behind those so far that end up to a place, as far as it stands in their fields.
    fn copy(
        &mut self,
        schema: &Schema,
        plan: &RangePlan<'_>,
        options: &SerializeOptions,
        verbatim: &Verbatim,
        to: usize,
    )
        requires can { CanPrint plan.now schema.now }
        requires verbatim { IsVerbatimOf plan.now schema.now (cell_options options.now) verbatim.now }
        requires after { self.old.end ≤ to }
        requires within { to ≤ length self.old.text.now }
        requires printed { IsOpenPrinted plan.now schema.now (cell_options options.now) self.old }
        ensures text { self.new.text.now ≡ self.old.text.now }
        ensures after { self.old.end ≤ self.new.end }
        ensures printed { IsOpenPrinted plan.now schema.now (cell_options options.now) self.new }
    {
        let copied = verbatim.copy(&self.text[..to], self.end, &mut self.lines);
        self.end = copied.end;
        self.rows += copied.rows;
    }

    // Finds rows behind those so far and copies rows behind these, in turn, until neither goes on. Where none were found at first, all are copied
    // before more are looked for; else few, and more each time where not many were found behind them.
    fn find_and_copy(
        &mut self,
        alloc: Global,
        schema: &Schema,
        plan: &RangePlan<'_>,
        options: &SerializeOptions,
        verbatim: &Verbatim,
    )
        requires can { CanPrint plan.now schema.now }
        requires verbatim { IsVerbatimOf plan.now schema.now (cell_options options.now) verbatim.now }
        requires printed { IsOpenPrinted plan.now schema.now (cell_options options.now) self.old }
        ensures text { self.new.text.now ≡ self.old.text.now }
        ensures after { self.old.end ≤ self.new.end }
        ensures printed { IsOpenPrinted plan.now schema.now (cell_options options.now) self.new }
    {
        let start = self.end;
        self.find(alloc, schema, plan, options, verbatim);
        let mut size = if self.end == start { usize::MAX } else { MANY };
        while self.end < self.text.len() {
            let from = self.end;
            let left = self.text.len() - from;
            self.copy(schema, plan, options, verbatim, from + size.min(left));
            if self.end == from {
                self.copy(schema, plan, options, verbatim, self.text.len());
                if self.end == from {
                    return;
                }
            }
            let to = self.end;
            self.find(alloc, schema, plan, options, verbatim);
            size = if self.end - to < MANY {
                size.saturating_mul(4)
            } else {
                MANY
            };
        }
    }

    // Reads the piece up to a place, prints its rows, and answers whether it did: where the piece does not end where an item does, a
    // row of it has a fault or memory is wanting, nothing of it is printed.
    fn print_piece(
        &mut self,
        alloc: Global,
        printer: &mut RowPrinter,
        schema: &Schema,
        plan: &RangePlan<'_>,
        options: &SerializeOptions,
        to: usize,
    ) -> bool
        requires can { CanPrint plan.now schema.now }
        requires printed { IsOpenPrinted plan.now schema.now (cell_options options.now) self.old }
        requires after { self.old.end ≤ to }
        requires within { to ≤ length self.old.text.now }
        ensures text { self.new.text.now ≡ self.old.text.now }
        ensures end { OnTrue result (self.new.end ≡ to) }
        ensures printed { IsOpenPrinted plan.now schema.now (cell_options options.now) self.new }
    {
        let piece = &self.text[self.end..to];
        let Ok(Some(read)) = read_piece_frame(alloc, schema, piece, plan) else {
            return false;
        };
        if printer.print(alloc, &read.columns, options).is_err() {
            return false;
        }
        let Some(rows) = self.rows.checked_add(read.rows) else {
            return false;
        };
        if self.lines.extend_from_slice(printer.as_slice()).is_err() {
            return false;
        }
        self.rows = rows;
        self.end = to;
        true
    }

    // The end of the next piece, of about this size: all that is left is one, where it is shorter than two.
    fn next_end(&self, size: usize, dialect: &Dialect<'_>) -> usize
        requires dialect { IsDialect (marks_of dialect.now) (comment_of dialect.now) }
        requires some { 0 < size }
        requires left { self.now.end < length self.now.text.now }
        ensures after { self.now.end < result }
        ensures within { result ≤ length self.now.text.now }
    {
        let left = &self.text[self.end..];
        if left.len() < size.saturating_mul(2) {
            return self.text.len();
        }
        self.end + range_len(left, size, dialect)
    }

    // Reads the region piece by piece, and prints the rows of each, as far as pieces end where an item does, no row has a fault and
    // memory suffices. Behind a piece rows are found and copied again. Pieces are short where rows were in front of them, and longer the
    // less is found and copied behind them.
    fn print(
        &mut self,
        alloc: Global,
        printer: &mut RowPrinter,
        schema: &Schema,
        plan: &RangePlan<'_>,
        options: &SerializeOptions,
        verbatim: &Verbatim,
        piece_size: usize,
    )
        requires can { CanPrint plan.now schema.now }
        requires verbatim { IsVerbatimOf plan.now schema.now (cell_options options.now) verbatim.now }
        requires size { 0 < piece_size }
        requires printed { IsOpenPrinted plan.now schema.now (cell_options options.now) self.old }
        ensures text { self.new.text.now ≡ self.old.text.now }
        ensures printed { IsOpenPrinted plan.now schema.now (cell_options options.now) self.new }
    {
        let mut size = if self.end == 0 {
            piece_size
        } else {
            piece_size.min(SHORT)
        };
        while self.end < self.text.len() {
            let to = self.next_end(size, &plan.dialect);
            if !self.print_piece(alloc, printer, schema, plan, options, to) {
                return;
            }
            self.find_and_copy(alloc, schema, plan, options, verbatim);
            size = if self.end - to < size {
                piece_size.min(size.saturating_mul(2))
            } else {
                piece_size.min(SHORT)
            };
        }
    }

    // Lends the lines, where they are what was read, and lets their memory go. Where memory is wanting, nothing was printed.
    fn close(
        self,
        alloc: Global,
        place: usize,
        schema: &Schema,
        plan: &RangePlan<'_>,
        options: &SerializeOptions,
    ) -> Region<'a>
        requires printed { IsOpenPrinted plan.now schema.now (cell_options options.now) self }
        ensures place { result.place ≡ place }
        ensures text { result.text.now ≡ self.entry.text.now }
        ensures printed { IsRegionPrinted plan.now schema.now (cell_options options.now) result }
    {
        let OpenRegion {
            text,
            end,
            rows,
            mut done,
            lines,
        } = self;
        let is_first = done.is_empty();
        let last = as_read(lines, &text[..end], is_first);
        match done.push(last) {
            Ok(()) => Region {
                place,
                text,
                end,
                rows,
                lines: done,
            },
            Err(_) => Region {
                place,
                text,
                end: 0,
                rows: 0,
                lines: Vec::new(alloc),
            },
        }
    }
}

impl<'a> Region<'a> {
    /// The region of a place, and the lines of its rows: those that are written as they were read are these bytes; the others are copied
    /// cell by cell, or read piece by piece and printed, as far as pieces end where an item does, no row has a fault and memory suffices.
    pub(crate) fn printed(
        alloc: Global,
        place: usize,
        text: &'a [u8],
        printer: &mut RowPrinter,
        schema: &Schema,
        plan: &RangePlan<'_>,
        options: &SerializeOptions,
        verbatim: &Verbatim,
        piece_size: usize,
    ) -> Region<'a>
        requires can { CanPrint plan.now schema.now }
        requires verbatim { IsVerbatimOf plan.now schema.now (cell_options options.now) verbatim.now }
        requires size { 0 < piece_size }
        ensures place { result.place ≡ place }
        ensures text { result.text.now ≡ text.now }
        ensures printed { IsRegionPrinted plan.now schema.now (cell_options options.now) result }
    {
        let mut region = OpenRegion::new(alloc, text);
        region.find_and_copy(alloc, schema, plan, options, verbatim);
        region.print(alloc, printer, schema, plan, options, verbatim, piece_size);
        region.close(alloc, place, schema, plan, options)
    }
}
