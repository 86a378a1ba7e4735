//! Pieces that are read apart from one another, each into columns of its own.
ghost use Rattle.std.specs.Prelude.{◌≡◌, ℕ, List, None, IfOk, OnOk, length, slice_range};
ghost use Rattle.pl_frame.specs.Dialect.{AreDistinct};
ghost use Rattle.pl_scan.specs.Dialect.{marks_of};
ghost use Rattle.pl_cells.specs.InitBuffers.{empty_buffers};
ghost use Rattle.pl_cells.specs.NullValues.{HaveTexts};
ghost use Rattle.pl_rows.specs.declared.whole_pieces.PieceFrame.{PieceFrame};
ghost use Rattle.pl_rows.specs.Plan.{states, AreRising};
ghost use Rattle.pl_rows.specs.WholePieces.{IsPieceFound, IsPieceFrame, IsReadApart};

use crate::plan::RangePlan;
use crate::whole_pieces::{PieceFrame, read_packed};
use pl_board::piece::{Done, Piece};
use pl_cells::buffer::Buffer;
use pl_frame::schema::Schema;
use std::alloc::{AllocError, Global};
use std::marker::{Brand, PhantomData};

/// What all pieces of one reading have in common. It is known where code is proved; no value of it is made.
pub trait Reading {
    ghost use Rattle.std.specs.Prelude.{ℕ, List};
    ghost use Rattle.pl_rows.specs.declared.whole_pieces.PieceFrame.{PieceFrame};

    // The range that is read.
    ghost range: { List ℕ };

    // Read apart, these bytes of it give these columns.
    ghost reads: { List ℕ → PieceFrame → Type 0 };
}

impl Reading for Brand {
    ghost use Rattle.std.specs.Prelude.{[]};

    ghost range = { [] };

    ghost reads = { λ _ _. Unit {0} };
}

/// What was read of a piece, into columns of its own: the place where it begins and the place where it ends, and its columns if it ends
/// where an item does.
#[derive(Drop)]
pub struct PieceColumns<K: Reading> {
    pub from: usize,
    pub to: usize,
    pub read: Option<PieceFrame>,
    pub reading: PhantomData<K>,
}

impl<K: Reading> Done for PieceColumns<K> {
    ghost use Rattle.std.specs.Prelude.{false, is_some};
    ghost use Rattle.std.specs.Option.{option_map_or};
    ghost use Rattle.pl_board.specs.declared.event.Mark.{Mark};
    ghost use Rattle.pl_rows.specs.WholePieces.{IsReadApart};

    ghost holds_for = { λ done text. IsReadApart K.range K.reads text done.from done.to done.read };

    ghost mark = { λ done. record { rows = option_map_or (λ frame. frame.rows) done.read 0; closed = is_some done.read; stops = false } };

    fn rows(&self) -> usize {
        match &self.read {
            Some(frame) => frame.rows,
            None => 0,
        }
    }

    fn closed(&self) -> bool {
        self.read.is_some()
    }

    fn stops(&self) -> bool {
        false
    }
}

/// Reads a piece into columns of its own, by buffers that have no cells and are left so. It has columns exactly where it ends where an
/// item does, no row of it has a fault, and its rows are fewer than the limit. Refuses only want of memory.
pub fn read_apart<K: Reading>(
    alloc: Global,
    buffers: &mut [Buffer],
    schema: &Schema,
    piece: &Piece<'_>,
    plan: &RangePlan<'_>,
) -> Result<PieceColumns<K>, AllocError>
    requires apart { AreDistinct (marks_of plan.now.dialect) }
    requires width { plan.now.projection.width ≡ length schema.now }
    requires rising { AreRising 0 (length schema.now) plan.now.projection.places.now }
    requires texts { HaveTexts plan.now.options.null_values (length schema.now) }
    requires empty { states buffers.old ≡ empty_buffers plan.now.dialect.quote_char plan.now.options.encoding schema.now plan.now.projection.places.now }
    requires text { piece.now.text ≡ slice_range K.range piece.now.from piece.now.to }
    requires meant { (read : PieceFrame) → IsPieceFrame plan.now schema.now piece.now.text read → K.reads piece.now.text read }
    ensures read { IfOk result (λ done. IsReadApart K.range K.reads piece.now.text done.from done.to done.read) }
    ensures found { IfOk result (λ done. IsPieceFound plan.now schema.now piece.now.text done.read) }
    ensures kept { OnOk result (states buffers.new ≡ states buffers.old) }
{
    let read = read_packed(alloc, buffers, schema, piece.bytes(), plan)?;
    Ok(PieceColumns {
        from: piece.from(),
        to: piece.to(),
        read,
        reading: PhantomData,
    })
}
