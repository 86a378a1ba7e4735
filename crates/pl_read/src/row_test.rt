//! Tests of the rows of a frame.
ghost use Rattle.std.specs.Prelude.{◌≡◌, ◌<◌, ℕ, Bool, List, Option, IfOk, IsOkUnless};
ghost use Rattle.pl_frame.specs.Frame.{Scalar, height_of};
ghost use Rattle.pl_frame.specs.declared.error.PolarsError.TheVariants as error;
ghost use Rattle.pl_read.specs.RowTest.{flags_of, row_of, rows_wanted};

use pl_frame::error::{PolarsError, PolarsResult};
use pl_frame::frame::DataFrame;
use std::alloc::{AllocError, Global};

/// Says which rows of a frame are wanted.
pub trait RowTest {
    /// Whether a row is wanted, given the name of each column with the row's cell in it.
    ghost wants: { Self → List (List ℕ × Option Scalar) → Bool };

    /// Whether this row of a frame is wanted: the same for each row with the same names and cells.
    fn test(&self, df: &DataFrame, row: usize) -> bool
        requires { row < height_of df.now }
        ensures { result ≡ wants self.now (row_of df.now row) };
}

// For each row of a frame, whether the test wants it. Refuses only want of memory.
fn flags_of<P: RowTest>(
    alloc: Global,
    df: &DataFrame,
    predicate: &P,
) -> Result<Vec<bool>, AllocError>
    ensures { IfOk result (λ flags. flags.items ≡ flags_of (P.wants predicate.now) df.now) }
{
    let mut flags = Vec::new(alloc);
    for row in 0..df.height() {
        flags.push(predicate.test(df, row))?;
    }
    Ok(flags)
}

/// The rows of a frame that a test wants, in order. Refuses only want of memory.
pub fn rows_wanted<P: RowTest>(
    alloc: Global,
    df: &DataFrame,
    predicate: &P,
) -> PolarsResult<DataFrame>
    ensures rows { IfOk result (λ frame. frame ≡ rows_wanted (P.wants predicate.now) df.now) }
    ensures refused { IsOkUnless result error.OutOfMemory }
{
    match flags_of(alloc, df, predicate) {
        Ok(flags) => df.filter_rows(&flags),
        Err(_) => Err(PolarsError::OutOfMemory),
    }
}
