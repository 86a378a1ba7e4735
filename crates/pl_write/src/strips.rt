//! Rows of columns as they are printed: from the columns themselves, or from copies.
ghost use Rattle.std.specs.Prelude.{◌≡◌, ◌≤◌, ◌<◌, ℕ, All, IfOk};
ghost use Rattle.pl_text.specs.FrameText.{row_line};
ghost use Rattle.pl_write.specs.CellSources.{IsSourceOf};
ghost use Rattle.pl_write.specs.Lines.{HaveRows};
ghost use Rattle.pl_write.specs.Options.{cell_options};
ghost use Rattle.pl_write.specs.Strips.{AreCopies, HasRows, IsStripOf, strip_line};

use crate::cell_source::{CellSource, source_of};
use crate::copies::Copies;
use crate::options::SerializeOptions;
use pl_frame::column::Column;
use std::alloc::{AllocError, Global};

/// Where rows of a column are found at once, with how many rows of the frame stand before the first there, and where the cells
/// come from.
#[derive(Clone, Copy)]
pub(crate) struct Strip<'a> {
    pub(crate) column: &'a Column,
    pub(crate) source: CellSource<'a>,
    pub(crate) before: usize,
}

// The rows of a column from one on, in the copy where there is one.
fn strip_of<'a>(
    column: &'a Column,
    copy: &'a Option<Column>,
    first: usize,
    options: &SerializeOptions,
) -> Strip<'a>
    ensures strip { IsStripOf first column.now copy.now result }
    ensures source { IsSourceOf result.source (cell_options options.now) result.column.now }
{
    match copy {
        Some(copy) => Strip {
            column: copy,
            source: source_of(copy, options),
            before: first,
        },
        None => Strip {
            column,
            source: source_of(column, options),
            before: 0,
        },
    }
}

/// The rows that were copied of each column. Refuses only want of memory.
pub(crate) fn strips_of<'a>(
    alloc: Global,
    columns: &'a [Column],
    copies: &'a Copies,
    options: &SerializeOptions,
) -> Result<Vec<Strip<'a>>, AllocError>
    requires copies { AreCopies copies.now.first copies.now.end columns.now copies.now.columns.items }
    requires rows { HaveRows copies.now.end columns.now }
    ensures rows { IfOk result (λ strips. All (HasRows (cell_options options.now) copies.now.first copies.now.end) strips.items) }
    ensures lines { IfOk result (λ strips. (row : ℕ) → copies.now.first ≤ row → row < copies.now.end → strip_line (cell_options options.now) strips.items row ≡ row_line (cell_options options.now) columns.now row) }
{
    let mut strips = Vec::new(alloc);
    for (place, column) in columns.iter().enumerate() {
        strips.push(strip_of(column, &copies.columns[place], copies.first, options))?;
    }
    Ok(strips)
}
