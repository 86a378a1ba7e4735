//! Pieces that end where an item does, each read into columns of its own.
ghost use Rattle.std.specs.Prelude.{◌≡◌, ◌≤◌, ℕ, None, IfOk, OnOk, length};
ghost use Rattle.pl_frame.specs.Dialect.{AreDistinct};
ghost use Rattle.pl_scan.specs.Dialect.{marks_of};
ghost use Rattle.pl_cells.specs.InitBuffers.{empty_buffers, first_unreadable};
ghost use Rattle.pl_cells.specs.NullValues.{HaveTexts};
ghost use Rattle.pl_rows.specs.Plan.{states, AreRising};
ghost use Rattle.pl_rows.specs.WholePieces.{IsPieceFound};

use crate::columns::{empty_buffers, into_columns, packed_columns};
use crate::cut_back::cut_back;
use crate::pieces::{plan_behind, read_piece};
use crate::plan::RangePlan;
use memchr::memchr_iter;
use pl_cells::buffer::Buffer;
use pl_frame::column::Column;
use pl_frame::schema::Schema;
use std::alloc::{AllocError, Global};

/// The columns of a piece that ends where an item does, and how many rows they have.
#[derive(Drop)]
pub struct PieceFrame {
    /// One for each projected column.
    pub columns: Vec<Column>,
    pub rows: usize,
}

// So many bytes of a piece tell how long its records are.
const SAMPLE: usize = 1 << 14;

// About how many records a piece has, going by the lines of its first bytes: no more than it has places for so many fields each.
fn expected_rows(piece: &[u8], eol_char: u8, width: usize) -> usize
    ensures { result ≤ length piece.now }
{
    let sample = &piece[..piece.len().min(SAMPLE)];
    let lines = memchr_iter(eol_char, sample).count() + 1;
    let samples = piece.len() / sample.len().max(1) + 1;
    lines
        .saturating_mul(samples)
        .min(piece.len() / width.max(1))
}

// Makes room in each buffer for so many cells, and for so many bytes of texts. Refuses only want of memory.
fn make_room(buffers: &mut [Buffer], cells: usize, bytes: usize) -> Result<(), AllocError>
    ensures { OnOk result (states buffers.new ≡ states buffers.old) }
{
    for place in 0..buffers.len() {
        buffers[place].reserve_for(cells, bytes)?;
    }
    Ok(())
}

// Empty buffers with room for what a piece is expected to have. Refuses only want of memory.
fn roomy_buffers(
    alloc: Global,
    schema: &Schema,
    piece: &[u8],
    plan: &RangePlan<'_>,
) -> Result<Vec<Buffer>, AllocError>
    requires rising { AreRising 0 (length schema.now) plan.now.projection.places.now }
    requires readable { first_unreadable schema.now plan.now.projection.places.now ≡ None }
    ensures { IfOk result (λ buffers. states buffers.items ≡ empty_buffers plan.now.dialect.quote_char plan.now.options.encoding schema.now plan.now.projection.places.now) }
{
    let places = plan.projection.places;
    let width = plan.projection.width;
    let quote_char = plan.dialect.quote_char;
    let mut buffers = empty_buffers(alloc, schema, places, quote_char, plan.options.encoding)?;
    let rows = expected_rows(piece, plan.dialect.eol_char, width);
    make_room(&mut buffers, rows, piece.len() / width.max(1))?;
    Ok(buffers)
}

/// Reads a piece into columns of its own: none exactly where it does not end where an item does, a row of it has a fault, or its rows
/// are as many as the limit. Refuses only want of memory.
pub fn read_piece_frame(
    alloc: Global,
    schema: &Schema,
    piece: &[u8],
    plan: &RangePlan<'_>,
) -> Result<Option<PieceFrame>, AllocError>
    requires apart { AreDistinct (marks_of plan.now.dialect) }
    requires width { plan.now.projection.width ≡ length schema.now }
    requires rising { AreRising 0 (length schema.now) plan.now.projection.places.now }
    requires readable { first_unreadable schema.now plan.now.projection.places.now ≡ None }
    requires texts { HaveTexts plan.now.options.null_values (length schema.now) }
    ensures { IfOk result (IsPieceFound plan.now schema.now piece.now) }
{
    let mut buffers = roomy_buffers(alloc, schema, piece, plan)?;
    let plan = plan_behind(plan, 0, false);
    let Some(rows) = read_piece(alloc, &mut buffers, piece, &plan)? else {
        return Ok(None);
    };
    let columns = into_columns(alloc, buffers)?;
    Ok(Some(PieceFrame { columns, rows }))
}

/// Reads a piece as `read_piece_frame` does, by buffers that have no cells and are left so: the columns take no more memory than they
/// need. Refuses only want of memory.
pub fn read_packed(
    alloc: Global,
    buffers: &mut [Buffer],
    schema: &Schema,
    piece: &[u8],
    plan: &RangePlan<'_>,
) -> Result<Option<PieceFrame>, AllocError>
    requires apart { AreDistinct (marks_of plan.now.dialect) }
    requires width { plan.now.projection.width ≡ length schema.now }
    requires rising { AreRising 0 (length schema.now) plan.now.projection.places.now }
    requires texts { HaveTexts plan.now.options.null_values (length schema.now) }
    requires empty { states buffers.old ≡ empty_buffers plan.now.dialect.quote_char plan.now.options.encoding schema.now plan.now.projection.places.now }
    ensures found { IfOk result (IsPieceFound plan.now schema.now piece.now) }
    ensures kept { OnOk result (states buffers.new ≡ states buffers.old) }
{
    let plan = plan_behind(plan, 0, false);
    let Some(rows) = read_piece(alloc, buffers, piece, &plan)? else {
        return Ok(None);
    };
    let columns = packed_columns(alloc, buffers)?;
    cut_back(buffers, buffers.len(), rows);
    Ok(Some(PieceFrame { columns, rows }))
}
