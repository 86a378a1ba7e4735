//! Frames: columns of one height with distinct names.
ghost use Rattle.std.specs.Prelude.{◌≡◌, ◌<◌, ◌↔◌, IsTrue, length, IfSome, IfOk, OnOk, OnErr, IfErr, true, IsOkUnless, None, Some, slice_get, slice_set, slice_index_or, [], ◌∷◌, ◌++◌};
ghost use Rattle.std.specs.Bool.{Decides};
ghost use Rattle.std.specs.Cmp.{partial_equiv_from_equiv};
ghost use Rattle.std.specs.Cmp.Lexicographic.{lists_equiv, lists_per, pointwise};
ghost use Rattle.pl_frame.specs.Casts.{can_cast, with_cast};
ghost use Rattle.pl_frame.specs.Equal.{columns_equal};
ghost use Rattle.pl_frame.specs.declared.error.PolarsError.TheVariants as error;
ghost use Rattle.pl_frame.specs.Frame.{HaveHeight, IsFrame, height_of, names_of};
ghost use Rattle.pl_frame.specs.Names.{IsRepeatFault, first_repeat, repeated_name};

use crate::column::Column;
use crate::data_type::DataType;
use crate::error::{NamePlace, PolarsError, PolarsResult};
use crate::name::{Named, PlSmallStr, find_repeat};
use std::alloc::Global;
use std::marker::Model;

/// Columns of one height with distinct names. Without columns the height is 0.
#[derive(Debug, Drop)]
pub struct DataFrame {
    columns: Vec<Column>,
}

impl Model for DataFrame {
    ghost use Rattle.std.specs.Prelude.{List};
    ghost use Rattle.pl_frame.specs.Frame.{ColumnValue, IsFrame};

    ghost Value = { List ColumnValue };

    ghost view = { λ frame. frame.columns.items };

    ghost invariant = { λ frame. IsFrame frame.columns.items };
}

impl Named for Column {
    ghost name = { λ column. column.name };

    #[inline]
    fn name_text(&self) -> &str {
        self.name()
    }
}

impl DataFrame {
    /// A frame of these columns. Refuses `Duplicate` at a projection for the first name that equals an earlier one,
    /// and want of memory.
    pub fn new(alloc: Global, columns: Vec<Column>) -> PolarsResult<DataFrame>
        requires { HaveHeight (height_of columns.items) columns.items }
        ensures columns { IfOk result (λ frame. frame ≡ columns.items) }
        ensures distinct { OnOk result (first_repeat (names_of columns.items) ≡ None) }
        ensures refused { IfErr result (IsRepeatFault (repeated_name (names_of columns.items)) NamePlace.Projection) }
    {
        match find_repeat(&columns) {
            None => Ok(DataFrame { columns }),
            Some(place) => Err(duplicate(alloc, columns[place].name())),
        }
    }

    /// Whether columns have one height, without taking memory.
    pub fn have_one_height(columns: &[Column]) -> bool
        ensures { IsTrue result ↔ HaveHeight (height_of columns.now) columns.now }
    {
        match columns {
            [] => true,
            [first, ..] => have_height(first.len(), columns),
        }
    }

    /// A frame of columns whose names are known to be distinct, without taking memory.
    pub fn of_distinct(columns: Vec<Column>) -> DataFrame
        requires { IsFrame columns.items }
        ensures { result ≡ columns.items }
    {
        DataFrame { columns }
    }

    /// An equal frame. Refuses only want of memory.
    pub fn try_clone(&self) -> PolarsResult<DataFrame>
        ensures equal { IfOk result (λ frame. frame ≡ self.now) }
        ensures refused { IsOkUnless result error.OutOfMemory }
    {
        let columns = copy_columns(*self.columns.allocator(), &self.columns)?;
        Ok(DataFrame { columns })
    }

    /// Whether another frame is the same: equal columns in the same order. Takes no memory.
    pub fn equals(&self, other: &DataFrame) -> bool
        ensures { Decides result (self.now ≡ other.now) }
    {
        self == other
    }

    /// Casts the column at a place to another type: each value stays where it is one of that type, and becomes null where
    /// it is none. `DataType::casts_to` tells which types go together. Refuses only want of memory, and is then as it was.
    pub fn cast(&mut self, column: usize, to: &DataType) -> PolarsResult<()>
        requires { can_cast self.old column to.now ≡ true }
        ensures cast { OnOk result (self.new ≡ with_cast self.old column to.now) }
        ensures unchanged { OnErr result (self.new ≡ self.old) }
        ensures refused { IsOkUnless result error.OutOfMemory }
    {
        if self.columns[column].dtype() == to {
            return Ok(());
        }
        let cast = self.columns[column].cast(*self.columns.allocator(), to)?;
        self.columns[column] = cast;
        Ok(())
    }

    /// Puts another column in the place of one of the same name and height. Takes no memory.
    pub fn set_column(&mut self, place: usize, column: Column)
        requires name { slice_get (names_of self.old) place ≡ Some column.name }
        requires height { length column.values ≡ height_of self.old }
        ensures set { self.new ≡ slice_set self.old place column }
        ensures names { names_of self.new ≡ names_of self.old }
        ensures rows { height_of self.new ≡ height_of self.old }
    {
        self.columns[place] = column;
    }

    // Puts a column in front that has another name and as many rows. Refuses only want of memory, and is then as it was.
    pub(crate) fn put_in_front(&mut self, column: Column) -> PolarsResult<()>
        requires { IsFrame (column ∷ self.old) }
        ensures put { OnOk result (self.new ≡ column ∷ self.old) }
        ensures unchanged { OnErr result (self.new ≡ self.old) }
        ensures refused { IsOkUnless result error.OutOfMemory }
    {
        match self.columns.insert(0, column) {
            Ok(()) => Ok(()),
            Err(_) => Err(PolarsError::OutOfMemory),
        }
    }

    // What the columns took memory from.
    pub(crate) fn allocator(&self) -> Global {
        *self.columns.allocator()
    }

    /// The number of rows, without taking memory.
    pub fn height(&self) -> usize
        ensures { result ≡ height_of self.now }
    {
        match self.columns.first() {
            Some(column) => column.len(),
            None => 0,
        }
    }

    /// The number of columns, without taking memory.
    pub fn width(&self) -> usize
        ensures { result ≡ length self.now }
    {
        self.columns.len()
    }

    /// The columns again, without taking memory.
    pub fn into_columns(self) -> Vec<Column>
        ensures columns { result.items ≡ self }
        ensures frame { IsFrame self }
    {
        self.columns
    }

    /// The columns in order, without taking memory.
    pub fn columns(&self) -> &[Column]
        ensures columns { result.now ≡ self.now }
        ensures frame { IsFrame self.now }
    {
        &self.columns
    }
}

// By its columns in order.
impl PartialEq for DataFrame {
    ghost use Rattle.pl_frame.specs.EqualLaws.{columns_equiv};

    ghost eq = { pointwise columns_equal };

    ghost laws = { lists_per (partial_equiv_from_equiv columns_equiv) };

    fn eq(&self, other: &DataFrame) -> bool {
        self.columns == other.columns
    }
}

impl Eq for DataFrame {
    ghost use Rattle.pl_frame.specs.EqualLaws.{columns_equiv};

    ghost laws = { lists_equiv columns_equiv };
}

// Whether each column has this many rows.
fn have_height(height: usize, columns: &[Column]) -> bool
    ensures { IsTrue result ↔ HaveHeight height columns.now }
{
    let mut rest = columns;
    while let [first, behind @ ..] = rest {
        if first.len() != height {
            return false;
        }
        rest = behind;
    }
    true
}

// Equal columns.
fn copy_columns(alloc: Global, columns: &[Column]) -> PolarsResult<Vec<Column>>
    ensures equal { IfOk result (λ copies. copies.items ≡ columns.now) }
    ensures refused { IsOkUnless result error.OutOfMemory }
{
    let mut copies = Vec::new(alloc);
    for column in columns {
        let copy = column.try_clone()?;
        push_column(&mut copies, copy)?;
    }
    Ok(copies)
}

// Puts a column at the end.
#[inline]
pub(crate) fn push_column(columns: &mut Vec<Column>, column: Column) -> PolarsResult<()>
    ensures pushed { OnOk result (columns.new.items ≡ columns.old.items ++ column ∷ []) }
    ensures refused { IsOkUnless result error.OutOfMemory }
{
    match columns.push(column) {
        Ok(()) => Ok(()),
        Err(_) => Err(PolarsError::OutOfMemory),
    }
}

// The refusal of a name that stands twice.
#[cold]
fn duplicate(alloc: Global, name: &str) -> PolarsError
    ensures { IsRepeatFault (Some name.now) NamePlace.Projection result }
{
    match PlSmallStr::from_str(alloc, name) {
        Ok(name) => PolarsError::Duplicate {
            name,
            at: NamePlace::Projection,
        },
        Err(_) => PolarsError::OutOfMemory,
    }
}
