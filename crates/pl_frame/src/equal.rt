//! Equality of columns.
ghost use Rattle.std.specs.Prelude.{◌≡◌, ◌&&◌};
ghost use Rattle.std.specs.Cmp.{partial_equiv_from_equiv};
ghost use Rattle.std.specs.Cmp.Lexicographic.{pointwise};
ghost use Rattle.std.specs.Option.{option_eq};
ghost use Rattle.std.specs.Ordering.{int_eq};
ghost use Rattle.pl_frame.specs.Columns.{scalar_of};
ghost use Rattle.pl_frame.specs.Equal.{cells_equal, columns_equal};

use crate::column::{Column, Value};
use crate::numbers::Numbers;

// By name, type and values; how the values are kept does not matter.
impl PartialEq for Column {
    ghost use Rattle.std.specs.Option.{option_eq};
    ghost use Rattle.std.specs.Ordering.{int_eq};
    ghost use Rattle.pl_frame.specs.Columns.{scalar_of};
    ghost use Rattle.pl_frame.specs.EqualLaws.{columns_equiv};

    ghost eq = { columns_equal };

    ghost laws = { partial_equiv_from_equiv columns_equiv };

    fn eq(&self, other: &Column) -> bool {
        self.name() == other.name() && self.dtype() == other.dtype() && have_same_cells(self, other)
    }
}

impl Eq for Column {
    ghost use Rattle.std.specs.Option.{option_eq};
    ghost use Rattle.std.specs.Ordering.{int_eq};
    ghost use Rattle.pl_frame.specs.Columns.{scalar_of};
    ghost use Rattle.pl_frame.specs.EqualLaws.{columns_equiv};

    ghost laws = { columns_equiv };
}

// Whether two columns have the same cells in order.
fn have_same_cells(a: &Column, b: &Column) -> bool
    ensures { result ≡ pointwise cells_equal a.now.values b.now.values }
{
    match (a.narrow_numbers(), b.narrow_numbers()) {
        (Some(a), Some(b)) => are_same_numbers(a, b),
        _ => have_same_rows(a, b),
    }
}

// Whether two lists of numbers are the same.
fn are_same_numbers(a: &Numbers<i64>, b: &Numbers<i64>) -> bool
    ensures { result ≡ pointwise (option_eq int_eq) a.now b.now }
{
    if a.len() != b.len() {
        return false;
    }
    for row in 0..a.len() {
        if a.get(row) != b.get(row) {
            return false;
        }
    }
    true
}

// The same, row by row, however the values are kept.
fn have_same_rows(a: &Column, b: &Column) -> bool
    ensures { result ≡ pointwise cells_equal a.now.values b.now.values }
{
    if a.len() != b.len() {
        return false;
    }
    for row in 0..a.len() {
        if !is_same(a.get(row), b.get(row)) {
            return false;
        }
    }
    true
}

#[inline]
fn is_same(a: Value<'_>, b: Value<'_>) -> bool
    ensures { result ≡ cells_equal (scalar_of a.entry) (scalar_of b.entry) }
{
    a == b
}
