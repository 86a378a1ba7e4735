//! Columns that others are put behind, one after another.
ghost use Rattle.std.specs.Prelude.{◌≡◌, ◌++◌, ◌<◌, IfOk, OnOk, [], length, map};
ghost use Rattle.pl_cells.specs.InitBuffers.{entry_at};
ghost use Rattle.pl_frame.specs.FrameParts.{empty_columns, stacked, with_values, HaveSameColumns};
ghost use Rattle.std.specs.Prelude.{ℕ, slice_index};

use crate::push::push;
use pl_frame::column::Column;
use pl_frame::schema::Schema;
use pl_frame::stack::Stack;
use std::alloc::{AllocError, Global};

// A stack without cells for a column of a schema. Refuses only want of memory.
fn empty_stack(alloc: Global, schema: &Schema, place: usize) -> Result<Stack, AllocError>
    requires { place < length schema.now }
    ensures { IfOk result (λ stack. stack ≡ record { name = (entry_at schema.now place).0; dtype = (entry_at schema.now place).1; values = [] }) }
{
    let (name, dtype) = schema.entry(place);
    let name = match name.try_clone() {
        Ok(name) => name,
        Err(fault) => {
            drop(fault);
            return Err(AllocError);
        }
    };
    match dtype.try_clone() {
        Ok(dtype) => Ok(Stack::new(alloc, name, dtype)),
        Err(fault) => {
            drop(fault);
            drop(name);
            Err(AllocError)
        }
    }
}

// Puts a stack without cells for each of these columns of a schema into a list that is empty. Refuses only want of memory.
fn put_stacks(
    alloc: Global,
    stacks: &mut Vec<Stack>,
    schema: &Schema,
    places: &[usize],
) -> Result<(), AllocError>
    requires none { stacks.old.items ≡ [] }
    requires places { (k : ℕ) → k < length places.now → slice_index places.now k < length schema.now }
    ensures { OnOk result (stacks.new.items ≡ empty_columns (map (entry_at schema.now) places.now)) }
{
    for place in places {
        push(stacks, empty_stack(alloc, schema, *place)?)?;
    }
    Ok(())
}

/// A stack without cells for each of these columns of a schema. Refuses only want of memory.
pub fn empty_stacks(
    alloc: Global,
    schema: &Schema,
    places: &[usize],
) -> Result<Vec<Stack>, AllocError>
    requires { (k : ℕ) → k < length places.now → slice_index places.now k < length schema.now }
    ensures { IfOk result (λ stacks. stacks.items ≡ empty_columns (map (entry_at schema.now) places.now)) }
{
    let mut stacks = Vec::new(alloc);
    match put_stacks(alloc, &mut stacks, schema, places) {
        Ok(()) => Ok(stacks),
        Err(fault) => {
            drop(stacks);
            Err(fault)
        }
    }
}

// Puts a column behind a stack of its type. Refuses only want of memory.
fn push_part(stack: &mut Stack, part: Column) -> Result<(), AllocError>
    requires { part.dtype ≡ stack.old.dtype }
    ensures { OnOk result (stack.new ≡ with_values stack.old (stack.old.values ++ part.values)) }
{
    if part.len() == 0 {
        drop(part);
        return Ok(());
    }
    stack.push(part)
}

/// Puts a column behind each stack. Refuses only want of memory.
pub fn push_columns(stacks: &mut [Stack], columns: Vec<Column>) -> Result<(), AllocError>
    requires { HaveSameColumns stacks.old columns.items }
    ensures { OnOk result (stacks.new ≡ stacked stacks.old columns.items) }
{
    let mut place = 0;
    for column in columns {
        push_part(&mut stacks[place], column)?;
        place += 1;
    }
    Ok(())
}

// Puts the columns, in which the parts of each stack are linked, into a list that is empty. Refuses only want of memory.
fn link_all(columns: &mut Vec<Column>, stacks: Vec<Stack>) -> Result<(), AllocError>
    requires none { columns.old.items ≡ [] }
    ensures { OnOk result (columns.new.items ≡ stacks.items) }
{
    for stack in stacks {
        push(columns, stack.into_column())?;
    }
    Ok(())
}

/// The columns, in which the parts of each stack are linked. Refuses only want of memory.
pub fn into_columns(alloc: Global, stacks: Vec<Stack>) -> Result<Vec<Column>, AllocError>
    ensures { IfOk result (λ columns. columns.items ≡ stacks.items) }
{
    let mut columns = Vec::new(alloc);
    match link_all(&mut columns, stacks) {
        Ok(()) => Ok(columns),
        Err(fault) => {
            drop(columns);
            Err(fault)
        }
    }
}
