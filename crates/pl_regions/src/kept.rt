//! The lines of what came of a source, which are kept apart from the texts that they were read from: the memory of these is used again.
ghost use Rattle.std.specs.Prelude.{◌≡◌, ◌+◌, ◌++◌, ◌<◌, ◌≤◌, ℕ, List, [], IfOk, IfSome, OnOk, length, map};
ghost use Rattle.std.specs.Cow.{cow_slice_items};
ghost use Rattle.std.specs.List.{concat};
ghost use Rattle.pl_frame.specs.Dialect.{IsDialect};
ghost use Rattle.pl_frame.specs.Schema.{Entry};
ghost use Rattle.pl_scan.specs.Dialect.{marks_of, comment_of};
ghost use Rattle.pl_text.specs.FrameText.{WriteOptions};
ghost use Rattle.pl_rows.specs.declared.plan.RangePlan.{RangePlan};
ghost use Rattle.pl_write.specs.Options.{cell_options};
ghost use Rattle.pl_verbatim.specs.PrintedTexts.{CanPrint};
ghost use Rattle.pl_verbatim.specs.Verbatim.{IsVerbatimOf};
ghost use Rattle.pl_regions.specs.Arriving.{AreAllPrinted, IsFrontKept, IsPrintedUpTo};

use crate::front::{Front, print_text};
use crate::limits::is_past;
use pl_frame::schema::Schema;
use pl_rows::plan::RangePlan;
use pl_verbatim::verbatim::Verbatim;
use pl_write::options::SerializeOptions;
use pl_write::row_printer::RowPrinter;
use std::alloc::{AllocError, Global};
use std::borrow::CowSlice;

/// What came of a source and was printed: the front of the records, and what is left of them behind it.
#[derive(Drop)]
pub(crate) struct Arrived<'a> {
    pub(crate) front: Front<'a>,
    pub(crate) left: Vec<u8>,
}

/// The lines of all rows of texts that follow one another, or of the front of one: how many bytes these have, how many rows, and their lines.
#[derive(Drop)]
pub(crate) struct Kept {
    pub(crate) end: usize,
    pub(crate) rows: usize,
    pub(crate) lines: Vec<Vec<u8>>,
}

impl Kept {
    /// Those of no text.
    pub(crate) fn none(alloc: Global) -> Kept
        ensures end { result.end ≡ 0 }
        ensures rows { result.rows ≡ 0 }
        ensures lines { result.lines.items ≡ [] }
    {
        Kept {
            end: 0,
            rows: 0,
            lines: Vec::new(alloc),
        }
    }
}

// Appends lines to others, and copies those that are lent. Refuses only want of memory.
fn append_own(
    alloc: Global,
    lines: &mut Vec<Vec<u8>>,
    more: Vec<CowSlice<'_, u8, Global>>,
) -> Result<(), AllocError>
    ensures { OnOk result (concat (map (λ text. text.items) lines.new.items) ≡ concat (map (λ text. text.items) lines.old.items) ++ concat (map cow_slice_items more.entry.items)) }
{
    for text in more {
        let own = text.into_owned(alloc)?;
        lines.push(own)?;
    }
    Ok(())
}

/// The front of a text, as `print_text` prints it, and its lines apart from the text. Refuses only want of memory.
pub(crate) fn print_apart(
    alloc: Global,
    text: &[u8],
    printer: &mut RowPrinter,
    schema: &Schema,
    plan: &RangePlan<'_>,
    options: &SerializeOptions,
    verbatim: &Verbatim,
    piece_size: usize,
) -> Result<Kept, AllocError>
    requires can { CanPrint plan.now schema.now }
    requires verbatim { IsVerbatimOf plan.now schema.now (cell_options options.now) verbatim.now }
    requires size { 0 < piece_size }
    ensures { IfOk result (IsFrontKept plan.now schema.now (cell_options options.now) text.now) }
{
    let Front {
        end,
        rows,
        lines: printed,
    } = print_text(
        alloc, text, printer, schema, plan, options, verbatim, piece_size,
    );
    let mut lines = Vec::new(alloc);
    append_own(alloc, &mut lines, printed)?;
    Ok(Kept { end, rows, lines })
}

/// Puts the lines of the front of a text behind those of all that came before it, but none where all have more rows than a number, if there is one.
/// Answers what is left of the text. Refuses only want of memory.
pub(crate) fn keep_front(
    alloc: Global,
    kept: &mut Kept,
    text: &[u8],
    front: Kept,
    most: Option<usize>,
) -> Result<Vec<u8>, AllocError>
    requires inside { front.end ≤ length text.now }
    requires few { IfSome most (λ most. kept.old.rows ≤ most) }
    ensures printed { (plan : RangePlan) (schema : List Entry) (o : WriteOptions) (before : List ℕ) → IsDialect (marks_of plan.dialect) (comment_of plan.dialect)
        → AreAllPrinted plan schema o before kept.old → IsFrontKept plan schema o text.now front
        → IfOk result (λ left. IsPrintedUpTo plan schema o (before ++ text.now) left.items kept.new) }
    ensures few { OnOk result (IfSome most (λ most. kept.new.rows ≤ most)) }
{
    let Kept {
        end,
        rows,
        mut lines,
    } = front;
    let mut left = Vec::new(alloc);
    let Some(all_rows) = kept.rows.checked_add(rows) else {
        return Err(AllocError);
    };
    if is_past(most, all_rows) {
        left.extend_from_slice(text)?;
        return Ok(left);
    }
    let Some(all) = kept.end.checked_add(end) else {
        return Err(AllocError);
    };
    left.extend_from_slice(&text[end..])?;
    kept.lines.append(&mut lines)?;
    kept.end = all;
    kept.rows = all_rows;
    Ok(left)
}

/// The front that these lines are. Refuses only want of memory.
pub(crate) fn front_of_kept<'a>(alloc: Global, kept: Kept) -> Result<Front<'a>, AllocError>
    ensures end { IfOk result (λ front. front.end ≡ kept.end) }
    ensures rows { IfOk result (λ front. front.rows ≡ kept.rows) }
    ensures lines { IfOk result (λ front. concat (map cow_slice_items front.lines.items) ≡ concat (map (λ text. text.items) kept.lines.items)) }
{
    let Kept {
        end,
        rows,
        lines: own,
    } = kept;
    let mut lines = Vec::new(alloc);
    for text in own {
        lines.push(CowSlice::Owned(text))?;
    }
    Ok(Front { end, rows, lines })
}
