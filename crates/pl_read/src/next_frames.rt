//! The next batches of a reader: frames of the rows that come next in what is left.
ghost use Rattle.std.specs.Prelude.{◌≡◌, ◌<◌, ◌≤◌, ◌+◌, ◌^◌, ◌⊎◌, ℕ, false, None, Some, IfOk, OnOk, IfErr, IfSome, length, map, take, drop, slice_index_or};
ghost use Rattle.pl_frame.specs.declared.error.PolarsError.TheVariants as error;
ghost use Rattle.pl_rows.specs.Ranges.{IsRangeRead};
ghost use Rattle.pl_rows.specs.Rows.{first_faulty};
ghost use Rattle.pl_read.specs.declared.batch_parts.Part.{Part};
ghost use Rattle.pl_read.specs.Batches.{AreFramesOf, EndsBatches, IsCauseBehind, faulty_behind, rows_behind, batch_text, is_reached};
ghost use Rattle.pl_read.specs.NextFrames.{CanReadPart, CanReadBehind, HaveRead, AreReadParts, IsCodesFault, IsFinished, records_of, rows_of_parts, texts_of};
ghost use Rattle.pl_read.specs.Options.{rules_of};
ghost use Rattle.pl_read.specs.Refusals.{numbers_past};
ghost use Rattle.pl_read.specs.Rows.{columns_read};
ghost use Rattle.pl_read.specs.Steps.{CanReadData};
ghost use Rattle.std.specs.List.{flat_map};

use crate::batch_parts::{Part, parts_of, whole_part};
use crate::indexing::{numbers_past, rows_of, with_index_behind};
use crate::workers::read_by_workers;
use pl_board::gate::OpenGate;
use pl_frame::error::{ComputeFault, PolarsError, PolarsResult};
use pl_frame::frame::DataFrame;
use pl_frame::schema::Schema;
use pl_options::read_options::CsvReadOptions;
use pl_rows::pieces::plan_behind;
use pl_rows::plan::RangePlan;
use pl_rows::range::RangeEnd;
use std::alloc::{AllocError, Global};
use std::sync::Wait;
use std::thread;
use std::thread::Threads;

/// What the next batches are: their frames, how many rows these have together, and how many bytes of what was left they were
/// read of.
#[derive(Drop)]
pub(crate) struct NextFrames {
    pub(crate) frames: Vec<DataFrame>,
    pub(crate) rows: usize,
    pub(crate) end: usize,
}

// How the rows behind so many others are read.
#[derive(Clone, Copy)]
struct Behind<'a> {
    options: &'a CsvReadOptions,
    schema: &'a Schema,
    plan: RangePlan<'a>,
    rows: usize,
}

impl<'b> Behind<'b> {
    // A text as one part, read by workers.
    fn read_whole<'a, W: Threads + Wait + Sync>(
        &self,
        rt: &W,
        alloc: Global,
        workers: usize,
        text: &'a [u8],
    ) -> Result<Vec<Part<'a>>, AllocError>
        requires can { CanReadBehind self.now }
        requires workers { 0 < workers }
        ensures { IfOk result (λ parts. AreReadParts self.now text.now 1 parts.items) }
    {
        let size = self.options.chunk_size;
        let plan = &self.plan;
        let read = read_by_workers(rt, alloc, &OpenGate, workers, self.schema, text, plan, size)?;
        whole_part(alloc, text, Some(read))
    }

    // Reads each part, side by side.
    fn read_each<W: Threads + Sync>(
        &self,
        rt: &W,
        alloc: Global,
        workers: usize,
        parts: &mut [Part<'_>],
    )
        requires can { CanReadPart self.now.plan self.now.schema.now }
        requires workers { 0 < workers }
        ensures { (i : ℕ) (d : Part) → i < length parts.old
            → ((slice_index_or parts.new i d).text.now ≡ (slice_index_or parts.old i d).text.now)
            × IfSome (slice_index_or parts.new i d).read (IsRangeRead self.now.plan self.now.schema.now (slice_index_or parts.old i d).text.now) }
    {
        let plan = &self.plan;
        let schema = self.schema;
        let fill = |_place: usize, part: &mut Part<'_>|
            requires { CanReadPart plan.now schema.now }
            ensures { (part.new.text.now ≡ part.old.text.now)
                × IfSome part.new.read (IsRangeRead plan.entry.now schema.entry.now part.old.text.now) }
        { part.fill(alloc, schema, plan) };
        thread::for_each_mut(rt, parts, workers, &fill);
    }

    // The parts of a text with their columns: each for itself, side by side, where there are several and no limit of rows; else
    // one of all of the text.
    fn read_parts<'a, W: Threads + Wait + Sync>(
        &self,
        rt: &W,
        alloc: Global,
        workers: usize,
        text: &'a [u8],
        parts: Vec<Part<'a>>,
    ) -> Result<Vec<Part<'a>>, AllocError>
        requires can { CanReadBehind self.now }
        requires workers { 0 < workers }
        requires some { 0 < length parts.items }
        requires rows_are { flat_map (records_of self.now.options.now) (texts_of parts.items) ≡ records_of self.now.options.now text.now }
        ensures { IfOk result (λ read. AreReadParts self.now text.now (length parts.entry.items) read.items) }
    {
        if parts.len() == 1 || self.options.n_rows.is_some() {
            drop(parts);
            return self.read_whole(rt, alloc, workers, text);
        }
        let mut parts = parts;
        self.read_each(rt, alloc, workers, &mut parts);
        Ok(parts)
    }

    // How many rows the parts have. Refuses the least of them that has a fault, and want of memory where a part was not read.
    fn judge(&self, parts: &[Part<'_>]) -> PolarsResult<usize>
        requires can { CanReadBehind self.now }
        requires read { HaveRead self.now parts.now }
        requires fits { self.now.rows + length (rows_of_parts self.now parts.now) < 2 ^ 64 }
        ensures count { IfOk result (λ count. count ≡ length (rows_of_parts self.now parts.now)) }
        ensures sound { OnOk result (first_faulty (rules_of self.now.options.now self.now.schema.now) (columns_read self.now.options.now self.now.schema.now) self.now.rows (rows_of_parts self.now parts.now) ≡ None) }
        ensures refused { IfErr result (λ fault. (faulty_behind self.now.options.now self.now.schema.now self.now.rows (rows_of_parts self.now parts.now) ≡ Some fault) ⊎ (fault ≡ error.OutOfMemory)) }
    {
        let mut count = 0;
        for part in parts {
            let Some(read) = &part.read else {
                return Err(PolarsError::OutOfMemory);
            };
            match read.end {
                RangeEnd::Fault { row, column, kind } => {
                    let row = self.rows + count + row;
                    return Err(PolarsError::ComputeError(ComputeFault::Record {
                        row,
                        column,
                        kind,
                    }));
                }
                RangeEnd::Closed | RangeEnd::Open => count += rows_of(&read.columns),
            }
        }
        Ok(count)
    }

    // The frames of the parts, in which the numbers fit 64 bits. Refuses the last code of a column that does not fit 32, and want
    // of memory.
    fn frames(&self, alloc: Global, parts: Vec<Part<'_>>) -> PolarsResult<Vec<DataFrame>>
        requires can { CanReadBehind self.now }
        requires read { HaveRead self.now parts.items }
        requires fits { self.now.rows + length (rows_of_parts self.now parts.items) < 2 ^ 64 }
        requires sound { first_faulty (rules_of self.now.options.now self.now.schema.now) (columns_read self.now.options.now self.now.schema.now) self.now.rows (rows_of_parts self.now parts.items) ≡ None }
        requires numbered { numbers_past self.now.options.now.row_index (self.now.rows + length (rows_of_parts self.now parts.items)) ≡ None }
        ensures frames { IfOk result (λ frames. AreFramesOf self.now.options.now self.now.schema.now self.now.rows (rows_of_parts self.now parts.entry.items) frames.items) }
        ensures count { IfOk result (λ frames. length frames.items ≡ length parts.entry.items) }
        ensures refused { IfErr result (IsCodesFault self.now.options.now self.now.schema.now (rows_of_parts self.now parts.entry.items)) }
    {
        let mut parts = parts;
        parts.reverse();
        let mut frames = Vec::new(alloc);
        let mut before = self.rows;
        while let Some(part) = parts.pop() {
            let Some(read) = part.into_read() else {
                drop(parts);
                drop(frames);
                return Err(PolarsError::OutOfMemory);
            };
            let index = self.options.row_index.as_ref();
            let count = rows_of(&read.columns);
            let frame = match with_index_behind(alloc, index, before, read.columns) {
                Ok(frame) => frame,
                Err(fault) => {
                    drop(parts);
                    drop(frames);
                    return Err(fault);
                }
            };
            if frames.push(frame).is_err() {
                drop(parts);
                drop(frames);
                return Err(PolarsError::OutOfMemory);
            }
            before += count;
        }
        Ok(frames)
    }

    // The frames of the parts, and how many rows they have. Refuses the least of their rows that has a fault, then the last number
    // up to their end that does not fit 64 bits, and then the last code of a column that does not fit 32; and want of memory.
    fn finish(&self, alloc: Global, parts: Vec<Part<'_>>, end: usize) -> PolarsResult<NextFrames>
        requires can { CanReadBehind self.now }
        requires read { HaveRead self.now parts.items }
        requires fits { self.now.rows + length (rows_of_parts self.now parts.items) < 2 ^ 64 }
        ensures next { IfOk result (IsFinished self.now parts.entry.items end) }
        ensures refused { IfErr result (λ fault. IsCauseBehind self.now.options.now self.now.schema.now self.now.rows (rows_of_parts self.now parts.entry.items) fault ⊎ (fault ≡ error.OutOfMemory)) }
    {
        let rows = match self.judge(&parts) {
            Ok(rows) => rows,
            Err(fault) => {
                drop(parts);
                return Err(fault);
            }
        };
        if let Some(fault) = numbers_past(self.options.row_index.as_ref(), self.rows + rows) {
            drop(parts);
            return Err(fault);
        }
        match self.frames(alloc, parts) {
            Ok(frames) => Ok(NextFrames { frames, rows, end }),
            Err(fault) => Err(fault),
        }
    }
}

/// The frames of the next rows in what is left, behind so many rows: one or more, and `n` at most. They are the rows of its first
/// `n` ranges, or of all of it where there are fewer. Refuses the least of these rows that has a fault, then the last number up to
/// their end that does not fit 64 bits, and then the last code of a column that does not fit 32; and want of memory.
pub(crate) fn next_frames<W: Threads + Wait + Sync>(
    rt: &W,
    alloc: Global,
    workers: usize,
    options: &CsvReadOptions,
    schema: &Schema,
    rest: &[u8],
    plan: &RangePlan<'_>,
    rows: usize,
    n: usize,
) -> PolarsResult<NextFrames>
    requires can { CanReadData plan.now options.now schema.now rest.now }
    requires workers { 0 < workers }
    requires some { 0 < n }
    requires left { is_reached options.now.n_rows rows ≡ false }
    requires bytes { 0 < length rest.now }
    requires fits { rows + length rest.now < 2 ^ 64 }
    ensures frames { IfOk result (λ next. AreFramesOf options.now schema.now rows (rows_behind options.now rows (batch_text options.now n rest.now)) next.frames.items) }
    ensures some { IfOk result (λ next. 0 < length next.frames.items) }
    ensures few { IfOk result (λ next. length next.frames.items ≤ n) }
    ensures sound { OnOk result (first_faulty (rules_of options.now schema.now) (columns_read options.now schema.now) rows (rows_behind options.now rows (batch_text options.now n rest.now)) ≡ None) }
    ensures numbered { OnOk result (numbers_past options.now.row_index (rows + length (rows_behind options.now rows (batch_text options.now n rest.now))) ≡ None) }
    ensures rows { IfOk result (λ next. next.rows ≡ length (rows_behind options.now rows (batch_text options.now n rest.now))) }
    ensures end { IfOk result (λ next. EndsBatches options.now rows rest.now (rows_behind options.now rows (batch_text options.now n rest.now)) next.end) }
    ensures refused { IfErr result (λ fault. IsCauseBehind options.now schema.now rows (rows_behind options.now rows (batch_text options.now n rest.now)) fault ⊎ (fault ≡ error.OutOfMemory)) }
{
    let Ok(cut) = parts_of(alloc, rest, options, n) else {
        return Err(PolarsError::OutOfMemory);
    };
    let end = cut.end;
    let plan = plan_behind(plan, rows, plan.last);
    let behind = Behind {
        options,
        schema,
        plan,
        rows,
    };
    let Ok(parts) = behind.read_parts(rt, alloc, workers, &rest[..end], cut.parts) else {
        return Err(PolarsError::OutOfMemory);
    };
    behind.finish(alloc, parts, end)
}
