//! The parts of a joined read.
ghost use Rattle.std.specs.Prelude.{◌≡◌};

use pl_frame::name::PlSmallStr;
use std::marker::Model;

/// Names with their values, in order. Contracts see the list of them.
#[derive(Debug, Drop)]
pub struct PartValues {
    values: Vec<(PlSmallStr, PlSmallStr)>,
}

impl Model for PartValues {
    ghost use Rattle.std.specs.Prelude.{ℕ, List};

    ghost Value = { List (List ℕ × List ℕ) };

    ghost view = { λ list. list.values.items };
}

impl PartValues {
    /// These names with their values, without taking memory.
    pub fn new(values: Vec<(PlSmallStr, PlSmallStr)>) -> Self
        ensures { result ≡ values.items }
    {
        PartValues { values }
    }

    /// The names with their values again, without taking memory.
    pub fn into_values(self) -> Vec<(PlSmallStr, PlSmallStr)>
        ensures { result.items ≡ self }
    {
        self.values
    }

    /// The names with their values in order, without taking memory.
    pub fn values(&self) -> &[(PlSmallStr, PlSmallStr)]
        ensures { result.now ≡ self.now }
    {
        &self.values
    }
}

/// A part of a joined read: the path at which its bytes lie, and the values that stand behind each of its rows.
#[derive(Debug, Drop)]
pub struct Part {
    pub path: PlSmallStr,
    pub values: PartValues,
}
