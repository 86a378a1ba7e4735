//! A column that others are put behind, one after another.
ghost use Rattle.std.specs.Prelude.{◌≡◌, ◌++◌, [], OnOk};
ghost use Rattle.pl_frame.specs.FrameParts.{with_values};
ghost use Rattle.pl_frame.specs.GatheredCells.{cells_so_far, SuitsType};
ghost use Rattle.pl_frame.specs.Stacks.{linked_cells, SuitsLinked};

use crate::column::Column;
use crate::data_type::DataType;
use crate::gathered::Gathered;
use crate::name::PlSmallStr;
use crate::parts::Parts;
use std::alloc::{AllocError, Global};
use std::marker::Model;

// What was put behind one another: parts, or of a type that is kept as codes its cells.
#[derive(Drop)]
enum Linked {
    Parts(Parts),
    Gathered(Gathered),
}

// Nothing of a type, without taking memory.
fn none_linked(alloc: Global, dtype: &DataType) -> Linked
    ensures suits { SuitsLinked dtype.now result }
    ensures empty { linked_cells dtype.now result ≡ [] }
{
    if dtype.is_coded() {
        Linked::Gathered(Gathered::new(alloc, dtype))
    } else {
        Linked::Parts(Parts::new(alloc))
    }
}

/// A column that others of its type are put behind, without copying values that are not kept as codes.
#[derive(Drop)]
pub struct Stack {
    alloc: Global,
    name: PlSmallStr,
    dtype: DataType,
    linked: Linked,
}

impl Model for Stack {
    ghost use Rattle.pl_frame.specs.Frame.{ColumnValue};
    ghost use Rattle.pl_frame.specs.Stacks.{linked_cells, SuitsLinked};

    ghost Value = { ColumnValue };

    ghost view = { λ s. record { name = s.name; dtype = s.dtype; values = linked_cells s.dtype s.linked } };

    ghost invariant = { λ s. SuitsLinked s.dtype s.linked };
}

impl Stack {
    /// One without cells, without taking memory.
    pub fn new(alloc: Global, name: PlSmallStr, dtype: DataType) -> Stack
        ensures { result ≡ record { name = name; dtype = dtype; values = [] } }
    {
        let linked = none_linked(alloc, &dtype);
        Stack {
            alloc,
            name,
            dtype,
            linked,
        }
    }

    /// Puts a column of its type behind it. Refuses only want of memory; then it keeps no cells.
    pub fn push(&mut self, column: Column) -> Result<(), AllocError>
        requires { column.dtype ≡ self.old.dtype }
        ensures { OnOk result (self.new ≡ with_values self.old (self.old.values ++ column.values)) }
    {
        let linked = link(&mut self.linked, &self.dtype, column);
        if linked.is_err() {
            empty(&mut self.linked, self.alloc, &self.dtype);
        }
        linked
    }

    /// The column, in which what was put behind one another is linked, without taking memory.
    pub fn into_column(self) -> Column
        ensures { result ≡ self }
    {
        let Stack {
            alloc: _,
            name,
            dtype,
            linked,
        } = self;
        match linked {
            Linked::Parts(parts) => Column::of_parts(name, dtype, parts),
            Linked::Gathered(gathered) => gathered.into_column(name, dtype),
        }
    }
}

// Puts a column of the type behind what is there. Refuses only want of memory.
fn link(linked: &mut Linked, dtype: &DataType, column: Column) -> Result<(), AllocError>
    requires same { column.dtype ≡ dtype.now }
    requires suits { SuitsLinked dtype.now linked.old }
    ensures suits { OnOk result (SuitsLinked dtype.now linked.new) }
    ensures cells { OnOk result (linked_cells dtype.now linked.new ≡ linked_cells dtype.now linked.old ++ column.values) }
{
    match linked {
        Linked::Parts(parts) => column.put_into(dtype, parts),
        Linked::Gathered(gathered) => gather(gathered, column),
    }
}

// Leaves nothing of a type, without taking memory.
fn empty(linked: &mut Linked, alloc: Global, dtype: &DataType)
    ensures { SuitsLinked dtype.now linked.new }
{
    *linked = none_linked(alloc, dtype);
}

// Puts the cells of a column behind others of its type. Refuses only want of memory.
fn gather(gathered: &mut Gathered, column: Column) -> Result<(), AllocError>
    requires { SuitsType column.dtype gathered.old }
    ensures suits { OnOk result (SuitsType column.dtype gathered.new) }
    ensures cells { OnOk result (cells_so_far column.dtype gathered.new ≡ cells_so_far column.dtype gathered.old ++ column.values) }
{
    push_all(gathered, &column)
}

// Puts the cells of a column behind others of its type. Each text of a dictionary is looked up once. Refuses only want of memory.
fn push_all(gathered: &mut Gathered, column: &Column) -> Result<(), AllocError>
    requires { SuitsType column.now.dtype gathered.old }
    ensures suits { OnOk result (SuitsType column.now.dtype gathered.new) }
    ensures cells { OnOk result (cells_so_far column.now.dtype gathered.new ≡ cells_so_far column.now.dtype gathered.old ++ column.now.values) }
{
    // `dtype` is called for its clause that the values are of the type.
    let _dtype = column.dtype();
    if let Gathered::Categories(texts) = gathered {
        if let Some(codes) = column.kept_codes() {
            texts.append_codes(codes)?;
            return Ok(());
        }
    }
    gathered.push_rows(column, 0, column.len())
}
