//! The front of the data, read and printed by workers.
ghost use Rattle.std.specs.Prelude.{◌≡◌, ◌<◌, ◌≤◌, [], IfOk, IfSome, map};
ghost use Rattle.std.specs.List.{concat};
ghost use Rattle.pl_write.specs.Options.{cell_options};
ghost use Rattle.pl_verbatim.specs.PrintedTexts.{CanPrint};
ghost use Rattle.pl_verbatim.specs.Verbatim.{IsVerbatimOf};
ghost use Rattle.pl_regions.specs.Limits.{IsFull};
ghost use Rattle.pl_regions.specs.Printing.{IsPrintedFront};
ghost use Rattle.pl_regions.specs.Regions.{ArePlaced};

use crate::limits::is_past;
use crate::region::Region;
use crate::taking::print_regions;
use pl_frame::schema::Schema;
use pl_rows::plan::RangePlan;
use pl_verbatim::verbatim::Verbatim;
use pl_write::options::SerializeOptions;
use pl_write::row_printer::RowPrinter;
use std::alloc::{AllocError, Global};
use std::borrow::CowSlice;
use std::thread::Threads;

/// The front of a text whose rows were printed: so many bytes, with so many rows, and the lines of these, one text behind the other.
/// Lines that are the bytes they were read from are lent from there.
#[derive(Drop)]
pub struct Front<'a> {
    pub end: usize,
    pub rows: usize,
    pub lines: Vec<CowSlice<'a, u8, Global>>,
}

impl<'a> Front<'a> {
    /// Of which nothing was printed.
    pub(crate) fn new(alloc: Global) -> Front<'a>
        ensures end { result.end ≡ 0 }
        ensures rows { result.rows ≡ 0 }
        ensures lines { result.lines.items ≡ [] }
    {
        Front {
            end: 0,
            rows: 0,
            lines: Vec::new(alloc),
        }
    }
}

// How many bytes lines have that are lent.
fn lent_len(lines: &[CowSlice<'_, u8, Global>]) -> usize {
    let mut len: usize = 0;
    for text in lines {
        if let CowSlice::Borrowed(lent) = text {
            len = len.saturating_add(lent.len());
        }
    }
    len
}

/// What the first bytes of records tell: how many rows they have, and whether most of their lines are written as they were read, so that they can
/// be lent from there.
#[derive(Clone, Copy)]
pub(crate) struct Look {
    pub(crate) rows: usize,
    pub(crate) are_lent: bool,
}

/// Looks at a text; lines of an empty one are lent.
pub(crate) fn look_at(
    alloc: Global,
    text: &[u8],
    schema: &Schema,
    plan: &RangePlan<'_>,
    options: &SerializeOptions,
    verbatim: &Verbatim,
    piece_size: usize,
) -> Look
    requires can { CanPrint plan.now schema.now }
    requires verbatim { IsVerbatimOf plan.now schema.now (cell_options options.now) verbatim.now }
    requires size { 0 < piece_size }
{
    let Ok(mut printer) = RowPrinter::new(alloc) else {
        return Look {
            rows: 0,
            are_lent: true,
        };
    };
    let front = print_text(
        alloc,
        text,
        &mut printer,
        schema,
        plan,
        options,
        verbatim,
        piece_size,
    );
    Look {
        rows: front.rows,
        are_lent: lent_len(&front.lines) >= front.end / 2,
    }
}

// So much memory is taken and given back before the first piece.
const ROOM: usize = 1 << 22;

// Takes memory and gives it back. The allocator of the C library has seen then that memory of this size comes and goes, and keeps
// what one piece gives back for the next one, where it would hand it to the system and ask for it again, page by page. Where memory
// is wanting, nothing comes of it.
pub(crate) fn make_room(alloc: Global) {
    let mut room: Vec<u8> = Vec::new(alloc);
    let _ = room.reserve(ROOM);
}

/// The front of texts, with no more rows than a number, where there is one, and if it was cut for that, how many of the texts have more.
#[derive(Drop)]
pub(crate) struct CutFront<'a> {
    pub(crate) front: Front<'a>,
    pub(crate) full: Option<usize>,
}

/// The front of texts that stand one behind the other, of the regions that were printed of them: as far as each is there and was printed to
/// its end, and with what was printed of the first that was not, but without one whose rows would be too many. Refuses only want of memory.
pub(crate) fn front_of<'a>(
    alloc: Global,
    texts: &[&'a [u8]],
    places: Vec<Option<Region<'a>>>,
    schema: &Schema,
    plan: &RangePlan<'_>,
    options: &SerializeOptions,
    most: Option<usize>,
) -> Result<CutFront<'a>, AllocError>
    requires can { CanPrint plan.now schema.now }
    requires placed { ArePlaced plan.now schema.now (cell_options options.now) (map (λ text. text.now) texts.now) places.items }
    ensures front { IfOk result (λ cut. IsPrintedFront plan.now schema.now (cell_options options.now) (concat (map (λ text. text.now) texts.now)) cut.front) }
    ensures few { IfOk result (λ cut. IfSome most (λ most. cut.front.rows ≤ most)) }
    ensures full { IfOk result (λ cut. IfSome cut.full (IsFull plan.now schema.now (cell_options options.now) most (map (λ text. text.now) texts.now) cut.front)) }
{
    let mut front = Front::new(alloc);
    for place in places {
        let Some(region) = place else {
            break;
        };
        let Some(end) = front.end.checked_add(region.end) else {
            break;
        };
        let Some(rows) = front.rows.checked_add(region.rows) else {
            break;
        };
        if is_past(most, rows) {
            let full = Some(region.place + 1);
            return Ok(CutFront { front, full });
        }
        let is_whole = region.end == region.text.len();
        front.end = end;
        front.rows = rows;
        let mut lines = region.lines;
        front.lines.append(&mut lines)?;
        if !is_whole {
            return Ok(CutFront { front, full: None });
        }
    }
    Ok(CutFront { front, full: None })
}

/// The front of one text, by a printer whose memory is used again: its rows are read and printed, as far as the text goes in items, no row has
/// a fault and memory suffices.
pub fn print_text<'a>(
    alloc: Global,
    text: &'a [u8],
    printer: &mut RowPrinter,
    schema: &Schema,
    plan: &RangePlan<'_>,
    options: &SerializeOptions,
    verbatim: &Verbatim,
    piece_size: usize,
) -> Front<'a>
    requires can { CanPrint plan.now schema.now }
    requires verbatim { IsVerbatimOf plan.now schema.now (cell_options options.now) verbatim.now }
    requires size { 0 < piece_size }
    ensures { IsPrintedFront plan.now schema.now (cell_options options.now) text.now result }
{
    let region = Region::printed(
        alloc, 0, text, printer, schema, plan, options, verbatim, piece_size,
    );
    Front {
        end: region.end,
        rows: region.rows,
        lines: region.lines,
    }
}

/// The front of texts that stand one behind the other: workers take them as they come, read the rows of each and print them. Refuses only want
/// of memory.
pub(crate) fn print_texts<'a, W: Threads + Sync>(
    rt: &W,
    alloc: Global,
    workers: usize,
    texts: &[&'a [u8]],
    schema: &Schema,
    plan: &RangePlan<'_>,
    options: &SerializeOptions,
    piece_size: usize,
) -> Result<Front<'a>, AllocError>
    requires can { CanPrint plan.now schema.now }
    requires size { 0 < piece_size }
    ensures { IfOk result (IsPrintedFront plan.now schema.now (cell_options options.now) (concat (map (λ text. text.now) texts.now))) }
{
    let verbatim = Verbatim::of(alloc, schema, plan, options)?;
    let places = print_regions(
        rt, alloc, workers, texts, schema, plan, options, &verbatim, piece_size,
    )?;
    let cut = front_of(alloc, texts, places, schema, plan, options, None)?;
    Ok(cut.front)
}
