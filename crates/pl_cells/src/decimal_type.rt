//! The type whose values are decimals.
ghost use Rattle.std.specs.Prelude.{◌≡◌, refl, true, Some, IfOk};
ghost use Rattle.pl_frame.specs.declared.data_type.DataType.TheVariants as dtype;
ghost use Rattle.pl_frame.specs.Columns.{HoldsType, number_cells};
ghost use Rattle.pl_frame.specs.Frame.{Number};
ghost use Rattle.pl_frame.specs.Types.{is_readable_decimal};

use crate::decimal_at::decimal_at;
use crate::decimals::parse_decimal;
use crate::value_types::ValueType;
use pl_frame::column::Column;
use pl_frame::data_type::DataType;
use pl_frame::name::PlSmallStr;
use pl_frame::numbers::Numbers;
use std::alloc::{AllocError, Global};

/// Numbers times ten to the scale, below ten to the precision, or to 38 where that is not set.
#[derive(Clone, Copy, Drop)]
pub struct Decimal {
    pub precision: Option<u32>,
    pub scale: u32,
    ghost readable: { is_readable_decimal precision (Some scale) ≡ true },
}

impl ValueType for Decimal {
    type Kept = i128;

    ghost dtype = { λ kind. dtype.Decimal kind.precision (Some kind.scale) };

    ghost scalar = { Number };

    ghost no_text = { λ _. refl };

    #[inline]
    fn data_type(&self) -> DataType {
        DataType::Decimal(self.precision, Some(self.scale))
    }

    #[inline]
    fn skips_blanks(&self) -> bool {
        false
    }

    #[inline]
    fn parse(&self, text: &[u8]) -> Option<i128> {
        parse_decimal(text, self.precision, self.scale)
    }

    #[inline(always)]
    fn parse_at(&self, upto: &[u8], start: usize) -> Option<i128> {
        decimal_at(upto, start, self.precision, self.scale)
    }

    fn column(self, name: PlSmallStr, values: Numbers<i128>) -> Column
        requires { HoldsType (dtype.Decimal self.precision (Some self.scale)) (number_cells values) }
        ensures { result ≡ record { name = name; dtype = dtype.Decimal self.precision (Some self.scale); values = number_cells values } }
    {
        Column::from_wide(
            name,
            DataType::Decimal(self.precision, Some(self.scale)),
            values,
        )
    }

    fn packed(
        &self,
        alloc: Global,
        name: PlSmallStr,
        values: &Numbers<i128>,
    ) -> Result<Column, AllocError>
        requires { HoldsType (dtype.Decimal self.now.precision (Some self.now.scale)) (number_cells values.now) }
        ensures { IfOk result (λ column. column ≡ record { name = name; dtype = dtype.Decimal self.now.precision (Some self.now.scale); values = number_cells values.now }) }
    {
        Column::packed_wide(
            alloc,
            name,
            DataType::Decimal(self.precision, Some(self.scale)),
            values,
        )
    }
}
