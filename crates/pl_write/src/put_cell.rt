//! What puts the cells of a column.
ghost use Rattle.std.specs.Prelude.{◌≡◌, ◌<◌, ◌++◌, ◌+◌, ◌≤◌, length, take, IfSome, IfNone};
ghost use Rattle.pl_frame.specs.Frame.{ColumnValue, cell_at};
ghost use Rattle.pl_text.specs.FrameText.{WriteOptions, written_cell};
ghost use Rattle.pl_write.specs.Options.{cell_options};

use crate::options::SerializeOptions;
use crate::spare::Spare;
use pl_frame::column::Column;

/// What puts the cells of a column into a block from a place on.
pub(crate) trait PutCell {
    /// Put by it, the cells of the column come out as the style asks.
    ghost fits: { Self → WriteOptions → ColumnValue → Type 0 };

    /// Puts the cell of a row. Where there is no room for it, or memory is wanting, it is not put.
    fn put(
        &self,
        to: &mut [u8],
        at: usize,
        spare: &mut Spare,
        column: &Column,
        row: usize,
        options: &SerializeOptions,
    ) -> Option<usize>
        requires room { at + 66 ≤ length to.old }
        requires row { row < length column.now.values }
        requires fits { fits self.now (cell_options options.now) column.now }
        ensures text { IfSome result (λ end. take end to.new ≡ take at to.old ++ written_cell (cell_options options.now) column.now.dtype (cell_at column.now row)) }
        ensures within { IfSome result (λ end. end ≤ length to.new) }
        ensures unchanged { IfNone result (to.new ≡ to.old) };
}
