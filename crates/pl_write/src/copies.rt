//! Copies of rows, in which a row is found at once.
ghost use Rattle.std.specs.Prelude.{◌≡◌, ◌≤◌, length, IfOk};
ghost use Rattle.pl_write.specs.Lines.{HaveRows};
ghost use Rattle.pl_write.specs.Strips.{IsCopy, AreCopies};

use pl_frame::column::Column;
use std::alloc::{AllocError, Global};

/// Rows from one on up to another: a copy for each column in which a row is not found at once.
#[derive(Drop)]
pub(crate) struct Copies {
    pub(crate) first: usize,
    pub(crate) end: usize,
    pub(crate) columns: Vec<Option<Column>>,
}

/// Whether a row is found at once in each of the columns.
pub(crate) fn are_plain(columns: &[Column]) -> bool {
    for column in columns {
        if !column.is_plain() {
            return false;
        }
    }
    true
}

// A copy of the rows from one on up to another, where a row of the column is not found at once. Refuses only want of memory.
fn copy_of(
    alloc: Global,
    column: &Column,
    first: usize,
    end: usize,
) -> Result<Option<Column>, AllocError>
    requires rows { first ≤ end }
    requires end { end ≤ length column.now.values }
    ensures { IfOk result (IsCopy first end column.now) }
{
    if column.is_plain() {
        return Ok(None);
    }
    Ok(Some(column.plain(alloc, first, end)?))
}

/// Copies of the rows from one on up to another. Refuses only want of memory.
pub(crate) fn copies_of(
    alloc: Global,
    columns: &[Column],
    first: usize,
    end: usize,
) -> Result<Copies, AllocError>
    requires rows { first ≤ end }
    requires end { HaveRows end columns.now }
    ensures first { IfOk result (λ copies. copies.first ≡ first) }
    ensures end { IfOk result (λ copies. copies.end ≡ end) }
    ensures copies { IfOk result (λ copies. AreCopies copies.first copies.end columns.now copies.columns.items) }
{
    let mut copies = Vec::new(alloc);
    for column in columns {
        copies.push(copy_of(alloc, column, first, end)?)?;
    }
    Ok(Copies {
        first,
        end,
        columns: copies,
    })
}
