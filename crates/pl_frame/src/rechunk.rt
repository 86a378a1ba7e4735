//! Frames of which each column is kept in one piece, for whoever asks for one row after another.
ghost use Rattle.std.specs.Prelude.{◌≡◌, ◌<◌, length, IfOk, IsOkUnless};
ghost use Rattle.pl_frame.specs.declared.error.PolarsError.TheVariants as error;

use crate::error::{PolarsError, PolarsResult};
use crate::frame::DataFrame;
use std::alloc::{AllocError, Global};

impl DataFrame {
    /// The same frame, each column in one piece, so that a row is found without a search. Columns are put together one
    /// after the other, so no more than one is there twice. Refuses only want of memory.
    pub fn rechunk(self, alloc: Global) -> PolarsResult<DataFrame>
        ensures same { IfOk result (λ frame. frame ≡ self) }
        ensures refused { IsOkUnless result error.OutOfMemory }
    {
        let mut frame = self;
        match rechunk_columns(alloc, &mut frame) {
            Ok(()) => Ok(frame),
            Err(_) => Err(PolarsError::OutOfMemory),
        }
    }
}

// Keeps each column in one piece. The frame stays the same.
fn rechunk_columns(alloc: Global, frame: &mut DataFrame) -> Result<(), AllocError>
    ensures { frame.new ≡ frame.old }
{
    for place in 0..frame.width() {
        rechunk_column(alloc, frame, place)?;
    }
    Ok(())
}

// Keeps the column at a place in one piece. The frame stays the same.
fn rechunk_column(alloc: Global, frame: &mut DataFrame, place: usize) -> Result<(), AllocError>
    requires { place < length frame.old }
    ensures { frame.new ≡ frame.old }
{
    let column = &frame.columns()[place];
    if column.is_plain() {
        return Ok(());
    }
    let plain = column.plain(alloc, 0, column.len())?;
    frame.set_column(place, plain);
    Ok(())
}
