//! The types whose cells are truth values or numbers, each with the values that texts have.
ghost use Rattle.std.specs.Prelude.{◌≡◌, refl, List, Option, Some, map, drop, true, false, IfOk, IfSome};
ghost use Rattle.std.specs.Option.{option_map};
ghost use Rattle.pl_frame.specs.declared.data_type.DataType.{DataType};
ghost use Rattle.pl_frame.specs.declared.data_type.DataType.TheVariants as dtype;
ghost use Rattle.pl_frame.specs.Columns.{is_value_of, HoldsType, truth_cells};
ghost use Rattle.pl_frame.specs.Frame.{Scalar, Truth};
ghost use Rattle.pl_frame.specs.Types.{is_text, is_whole_number};
ghost use Rattle.pl_cells.specs.Columns.{begins_number};
ghost use Rattle.pl_cells.specs.Quoting.{strip};
ghost use Rattle.pl_cells.specs.Values.{value_of_text};

use crate::booleans::parse_boolean;
use pl_frame::column::Column;
use pl_frame::data_type::DataType;
use pl_frame::name::PlSmallStr;
use pl_frame::numbers::Numbers;
use std::alloc::{AllocError, Global};

/// A type whose values are truth values or numbers.
pub trait ValueType {
    /// How a value is kept.
    type Kept: Copy + Default;

    ghost dtype: { Self → DataType };

    ghost scalar: { Self.Kept → Scalar };

    /// The type as a column has it.
    fn data_type(&self) -> DataType
        ensures { result ≡ dtype self.now };

    /// Whether spaces and tabs in front of a text don't count: they don't in front of whole numbers.
    fn skips_blanks(&self) -> bool
        ensures { result ≡ is_whole_number (dtype self.now) };

    /// The value that a text has, which is one of the type.
    fn parse(&self, text: &[u8]) -> Option<Self::Kept>
        ensures value { option_map scalar result ≡ value_of_text (dtype self.now) text.now }
        ensures held { IfSome result (λ v. is_value_of (dtype self.now) (scalar v) ≡ true) };

    /// The value of the text from a place of another to its end, where it is soon seen which it is, and else none. The text
    /// then begins with a digit or a minus, and ends with no carriage return.
    #[inline(always)]
    fn parse_at(&self, _upto: &[u8], _start: usize) -> Option<Self::Kept>
        ensures value { IfSome result (λ v. value_of_text (dtype self.now) (drop _start _upto.now) ≡ Some (scalar v)) }
        ensures held { IfSome result (λ v. is_value_of (dtype self.now) (scalar v) ≡ true) }
        ensures front { IfSome result (λ _. begins_number (drop _start _upto.now) ≡ true) }
        ensures back { IfSome result (λ _. strip (drop _start _upto.now) ≡ drop _start _upto.now) }
    {
        None
    }

    /// A column of values of the type, which it takes over without taking memory.
    fn column(self, name: PlSmallStr, values: Numbers<Self::Kept>) -> Column
        requires { HoldsType (dtype self) (map (option_map scalar) values) }
        ensures { result ≡ record { name = name; dtype = dtype self; values = map (option_map scalar) values } };

    /// A column of values of the type, in no more memory than they need. Refuses only want of memory.
    fn packed(
        &self,
        alloc: Global,
        name: PlSmallStr,
        values: &Numbers<Self::Kept>,
    ) -> Result<Column, AllocError>
        requires { HoldsType (dtype self.now) (map (option_map scalar) values.now) }
        ensures { IfOk result (λ column. column ≡ record { name = name; dtype = dtype self.now; values = map (option_map scalar) values.now }) };

    ghost no_text: { (kind : Self) → is_text (dtype kind) ≡ false };
}

/// `true` and `false`.
#[derive(Clone, Copy, Drop)]
pub struct Boolean;

impl ValueType for Boolean {
    type Kept = bool;

    ghost dtype = { λ _. dtype.Boolean };

    ghost scalar = { Truth };

    ghost no_text = { λ _. refl };

    #[inline]
    fn data_type(&self) -> DataType {
        DataType::Boolean
    }

    #[inline]
    fn skips_blanks(&self) -> bool {
        false
    }

    #[inline]
    fn parse(&self, text: &[u8]) -> Option<bool> {
        parse_boolean(text)
    }

    fn column(self, name: PlSmallStr, values: Numbers<bool>) -> Column
        requires { HoldsType dtype.Boolean (truth_cells values) }
        ensures { result ≡ record { name = name; dtype = dtype.Boolean; values = truth_cells values } }
    {
        Column::from_booleans(name, values)
    }

    fn packed(
        &self,
        alloc: Global,
        name: PlSmallStr,
        values: &Numbers<bool>,
    ) -> Result<Column, AllocError>
        requires { HoldsType dtype.Boolean (truth_cells values.now) }
        ensures { IfOk result (λ column. column ≡ record { name = name; dtype = dtype.Boolean; values = truth_cells values.now }) }
    {
        Column::packed_booleans(alloc, name, values)
    }
}
