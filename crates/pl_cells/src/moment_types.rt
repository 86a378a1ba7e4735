//! Types whose values are days, times and datetimes.
ghost use Rattle.std.specs.Prelude.{◌≡◌, refl, IfOk};
ghost use Rattle.pl_frame.specs.declared.data_type.DataType.TheVariants as dtype;
ghost use Rattle.pl_frame.specs.Columns.{HoldsType, number_cells};
ghost use Rattle.pl_frame.specs.Frame.{Number};

use crate::date_at::date_at;
use crate::dates::parse_date;
use crate::plain_at::number_text;
use crate::seconds_at::seconds_at;
use crate::times::{parse_datetime, parse_time};
use crate::value_types::ValueType;
use pl_frame::column::Column;
use pl_frame::data_type::{DataType, TimeUnit};
use pl_frame::name::PlSmallStr;
use pl_frame::numbers::Numbers;
use std::alloc::{AllocError, Global};

/// Days from 1970-01-01, of the years 0000 to 9999.
#[derive(Clone, Copy, Drop)]
pub struct Date;

impl ValueType for Date {
    type Kept = i64;

    ghost dtype = { λ _. dtype.Date };

    ghost scalar = { Number };

    ghost no_text = { λ _. refl };

    #[inline]
    fn data_type(&self) -> DataType {
        DataType::Date
    }

    #[inline]
    fn skips_blanks(&self) -> bool {
        false
    }

    #[inline]
    fn parse(&self, text: &[u8]) -> Option<i64> {
        parse_date(text)
    }

    #[inline(always)]
    fn parse_at(&self, upto: &[u8], start: usize) -> Option<i64> {
        date_at(upto, start)
    }

    fn column(self, name: PlSmallStr, values: Numbers<i64>) -> Column
        requires { HoldsType dtype.Date (number_cells values) }
        ensures { result ≡ record { name = name; dtype = dtype.Date; values = number_cells values } }
    {
        Column::from_narrow(name, DataType::Date, values)
    }

    fn packed(
        &self,
        alloc: Global,
        name: PlSmallStr,
        values: &Numbers<i64>,
    ) -> Result<Column, AllocError>
        requires { HoldsType dtype.Date (number_cells values.now) }
        ensures { IfOk result (λ column. column ≡ record { name = name; dtype = dtype.Date; values = number_cells values.now }) }
    {
        Column::packed_narrow(alloc, name, DataType::Date, values)
    }
}

/// Nanoseconds of the day.
#[derive(Clone, Copy, Drop)]
pub struct Time;

impl ValueType for Time {
    type Kept = i64;

    ghost dtype = { λ _. dtype.Time };

    ghost scalar = { Number };

    ghost no_text = { λ _. refl };

    #[inline]
    fn data_type(&self) -> DataType {
        DataType::Time
    }

    #[inline]
    fn skips_blanks(&self) -> bool {
        false
    }

    #[inline]
    fn parse(&self, text: &[u8]) -> Option<i64> {
        parse_time(text)
    }

    #[inline(always)]
    fn parse_at(&self, upto: &[u8], start: usize) -> Option<i64> {
        match number_text(upto, start) {
            Some(text) => parse_time(text),
            None => None,
        }
    }

    fn column(self, name: PlSmallStr, values: Numbers<i64>) -> Column
        requires { HoldsType dtype.Time (number_cells values) }
        ensures { result ≡ record { name = name; dtype = dtype.Time; values = number_cells values } }
    {
        Column::from_narrow(name, DataType::Time, values)
    }

    fn packed(
        &self,
        alloc: Global,
        name: PlSmallStr,
        values: &Numbers<i64>,
    ) -> Result<Column, AllocError>
        requires { HoldsType dtype.Time (number_cells values.now) }
        ensures { IfOk result (λ column. column ≡ record { name = name; dtype = dtype.Time; values = number_cells values.now }) }
    {
        Column::packed_narrow(alloc, name, DataType::Time, values)
    }
}

/// Units from 1970-01-01T00:00:00, of the years 0000 to 9999.
#[derive(Clone, Copy, Drop)]
pub struct Datetime {
    pub unit: TimeUnit,
}

impl ValueType for Datetime {
    type Kept = i64;

    ghost dtype = { λ kind. dtype.Datetime kind.unit };

    ghost scalar = { Number };

    ghost no_text = { λ _. refl };

    #[inline]
    fn data_type(&self) -> DataType {
        DataType::Datetime(self.unit)
    }

    #[inline]
    fn skips_blanks(&self) -> bool {
        false
    }

    #[inline]
    fn parse(&self, text: &[u8]) -> Option<i64> {
        parse_datetime(text, self.unit)
    }

    #[inline(always)]
    fn parse_at(&self, upto: &[u8], start: usize) -> Option<i64> {
        seconds_at(upto, start, self.unit)
    }

    fn column(self, name: PlSmallStr, values: Numbers<i64>) -> Column
        requires { HoldsType (dtype.Datetime self.unit) (number_cells values) }
        ensures { result ≡ record { name = name; dtype = dtype.Datetime self.unit; values = number_cells values } }
    {
        Column::from_narrow(name, DataType::Datetime(self.unit), values)
    }

    fn packed(
        &self,
        alloc: Global,
        name: PlSmallStr,
        values: &Numbers<i64>,
    ) -> Result<Column, AllocError>
        requires { HoldsType (dtype.Datetime self.now.unit) (number_cells values.now) }
        ensures { IfOk result (λ column. column ≡ record { name = name; dtype = dtype.Datetime self.now.unit; values = number_cells values.now }) }
    {
        Column::packed_narrow(alloc, name, DataType::Datetime(self.unit), values)
    }
}
