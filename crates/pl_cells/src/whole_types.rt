//! Types whose values are whole numbers: those of so many bits with a sign, and those without one.
ghost use Rattle.std.specs.Prelude.{◌≡◌, refl, IfOk};
ghost use Rattle.pl_frame.specs.declared.data_type.DataType.TheVariants as dtype;
ghost use Rattle.pl_frame.specs.Columns.{HoldsType, number_cells};
ghost use Rattle.pl_frame.specs.Frame.{Number};

use crate::integers::{
    parse_int64, parse_int128, parse_narrow, parse_uint64, parse_unsigned_narrow,
};
use crate::value_types::ValueType;
use crate::whole_at::{natural_at, whole_at};
use pl_frame::column::Column;
use pl_frame::data_type::DataType;
use pl_frame::name::PlSmallStr;
use pl_frame::numbers::Numbers;
use std::alloc::{AllocError, Global};

/// Whole numbers of 8 bits with a sign.
#[derive(Clone, Copy, Drop)]
pub struct Int8;

impl ValueType for Int8 {
    type Kept = i64;

    ghost dtype = { λ _. dtype.Int8 };

    ghost scalar = { Number };

    ghost no_text = { λ _. refl };

    #[inline]
    fn data_type(&self) -> DataType {
        DataType::Int8
    }

    #[inline]
    fn skips_blanks(&self) -> bool {
        true
    }

    #[inline]
    fn parse(&self, text: &[u8]) -> Option<i64> {
        parse_narrow(text, -128, 127)
    }

    #[inline(always)]
    fn parse_at(&self, upto: &[u8], start: usize) -> Option<i64> {
        whole_at(upto, start, -128, 127)
    }

    fn column(self, name: PlSmallStr, values: Numbers<i64>) -> Column
        requires { HoldsType dtype.Int8 (number_cells values) }
        ensures { result ≡ record { name = name; dtype = dtype.Int8; values = number_cells values } }
    {
        Column::from_narrow(name, DataType::Int8, values)
    }

    fn packed(
        &self,
        alloc: Global,
        name: PlSmallStr,
        values: &Numbers<i64>,
    ) -> Result<Column, AllocError>
        requires { HoldsType dtype.Int8 (number_cells values.now) }
        ensures { IfOk result (λ column. column ≡ record { name = name; dtype = dtype.Int8; values = number_cells values.now }) }
    {
        Column::packed_narrow(alloc, name, DataType::Int8, values)
    }
}

/// Whole numbers of 16 bits with a sign.
#[derive(Clone, Copy, Drop)]
pub struct Int16;

impl ValueType for Int16 {
    type Kept = i64;

    ghost dtype = { λ _. dtype.Int16 };

    ghost scalar = { Number };

    ghost no_text = { λ _. refl };

    #[inline]
    fn data_type(&self) -> DataType {
        DataType::Int16
    }

    #[inline]
    fn skips_blanks(&self) -> bool {
        true
    }

    #[inline]
    fn parse(&self, text: &[u8]) -> Option<i64> {
        parse_narrow(text, -32_768, 32_767)
    }

    #[inline(always)]
    fn parse_at(&self, upto: &[u8], start: usize) -> Option<i64> {
        whole_at(upto, start, -32_768, 32_767)
    }

    fn column(self, name: PlSmallStr, values: Numbers<i64>) -> Column
        requires { HoldsType dtype.Int16 (number_cells values) }
        ensures { result ≡ record { name = name; dtype = dtype.Int16; values = number_cells values } }
    {
        Column::from_narrow(name, DataType::Int16, values)
    }

    fn packed(
        &self,
        alloc: Global,
        name: PlSmallStr,
        values: &Numbers<i64>,
    ) -> Result<Column, AllocError>
        requires { HoldsType dtype.Int16 (number_cells values.now) }
        ensures { IfOk result (λ column. column ≡ record { name = name; dtype = dtype.Int16; values = number_cells values.now }) }
    {
        Column::packed_narrow(alloc, name, DataType::Int16, values)
    }
}

/// Whole numbers of 32 bits with a sign.
#[derive(Clone, Copy, Drop)]
pub struct Int32;

impl ValueType for Int32 {
    type Kept = i64;

    ghost dtype = { λ _. dtype.Int32 };

    ghost scalar = { Number };

    ghost no_text = { λ _. refl };

    #[inline]
    fn data_type(&self) -> DataType {
        DataType::Int32
    }

    #[inline]
    fn skips_blanks(&self) -> bool {
        true
    }

    #[inline]
    fn parse(&self, text: &[u8]) -> Option<i64> {
        parse_narrow(text, -2_147_483_648, 2_147_483_647)
    }

    #[inline(always)]
    fn parse_at(&self, upto: &[u8], start: usize) -> Option<i64> {
        whole_at(upto, start, -2_147_483_648, 2_147_483_647)
    }

    fn column(self, name: PlSmallStr, values: Numbers<i64>) -> Column
        requires { HoldsType dtype.Int32 (number_cells values) }
        ensures { result ≡ record { name = name; dtype = dtype.Int32; values = number_cells values } }
    {
        Column::from_narrow(name, DataType::Int32, values)
    }

    fn packed(
        &self,
        alloc: Global,
        name: PlSmallStr,
        values: &Numbers<i64>,
    ) -> Result<Column, AllocError>
        requires { HoldsType dtype.Int32 (number_cells values.now) }
        ensures { IfOk result (λ column. column ≡ record { name = name; dtype = dtype.Int32; values = number_cells values.now }) }
    {
        Column::packed_narrow(alloc, name, DataType::Int32, values)
    }
}

/// Whole numbers of 64 bits with a sign.
#[derive(Clone, Copy, Drop)]
pub struct Int64;

impl ValueType for Int64 {
    type Kept = i64;

    ghost dtype = { λ _. dtype.Int64 };

    ghost scalar = { Number };

    ghost no_text = { λ _. refl };

    #[inline]
    fn data_type(&self) -> DataType {
        DataType::Int64
    }

    #[inline]
    fn skips_blanks(&self) -> bool {
        true
    }

    #[inline]
    fn parse(&self, text: &[u8]) -> Option<i64> {
        parse_int64(text)
    }

    #[inline(always)]
    fn parse_at(&self, upto: &[u8], start: usize) -> Option<i64> {
        whole_at(upto, start, i64::MIN, i64::MAX)
    }

    fn column(self, name: PlSmallStr, values: Numbers<i64>) -> Column
        requires { HoldsType dtype.Int64 (number_cells values) }
        ensures { result ≡ record { name = name; dtype = dtype.Int64; values = number_cells values } }
    {
        Column::from_narrow(name, DataType::Int64, values)
    }

    fn packed(
        &self,
        alloc: Global,
        name: PlSmallStr,
        values: &Numbers<i64>,
    ) -> Result<Column, AllocError>
        requires { HoldsType dtype.Int64 (number_cells values.now) }
        ensures { IfOk result (λ column. column ≡ record { name = name; dtype = dtype.Int64; values = number_cells values.now }) }
    {
        Column::packed_narrow(alloc, name, DataType::Int64, values)
    }
}

/// Whole numbers of 128 bits with a sign.
#[derive(Clone, Copy, Drop)]
pub struct Int128;

impl ValueType for Int128 {
    type Kept = i128;

    ghost dtype = { λ _. dtype.Int128 };

    ghost scalar = { Number };

    ghost no_text = { λ _. refl };

    #[inline]
    fn data_type(&self) -> DataType {
        DataType::Int128
    }

    #[inline]
    fn skips_blanks(&self) -> bool {
        true
    }

    #[inline]
    fn parse(&self, text: &[u8]) -> Option<i128> {
        parse_int128(text)
    }

    fn column(self, name: PlSmallStr, values: Numbers<i128>) -> Column
        requires { HoldsType dtype.Int128 (number_cells values) }
        ensures { result ≡ record { name = name; dtype = dtype.Int128; values = number_cells values } }
    {
        Column::from_wide(name, DataType::Int128, values)
    }

    fn packed(
        &self,
        alloc: Global,
        name: PlSmallStr,
        values: &Numbers<i128>,
    ) -> Result<Column, AllocError>
        requires { HoldsType dtype.Int128 (number_cells values.now) }
        ensures { IfOk result (λ column. column ≡ record { name = name; dtype = dtype.Int128; values = number_cells values.now }) }
    {
        Column::packed_wide(alloc, name, DataType::Int128, values)
    }
}

/// Whole numbers of 8 bits without a sign.
#[derive(Clone, Copy, Drop)]
pub struct UInt8;

impl ValueType for UInt8 {
    type Kept = i64;

    ghost dtype = { λ _. dtype.UInt8 };

    ghost scalar = { Number };

    ghost no_text = { λ _. refl };

    #[inline]
    fn data_type(&self) -> DataType {
        DataType::UInt8
    }

    #[inline]
    fn skips_blanks(&self) -> bool {
        true
    }

    #[inline]
    fn parse(&self, text: &[u8]) -> Option<i64> {
        parse_unsigned_narrow(text, 255)
    }

    #[inline(always)]
    fn parse_at(&self, upto: &[u8], start: usize) -> Option<i64> {
        natural_at(upto, start, 255)
    }

    fn column(self, name: PlSmallStr, values: Numbers<i64>) -> Column
        requires { HoldsType dtype.UInt8 (number_cells values) }
        ensures { result ≡ record { name = name; dtype = dtype.UInt8; values = number_cells values } }
    {
        Column::from_narrow(name, DataType::UInt8, values)
    }

    fn packed(
        &self,
        alloc: Global,
        name: PlSmallStr,
        values: &Numbers<i64>,
    ) -> Result<Column, AllocError>
        requires { HoldsType dtype.UInt8 (number_cells values.now) }
        ensures { IfOk result (λ column. column ≡ record { name = name; dtype = dtype.UInt8; values = number_cells values.now }) }
    {
        Column::packed_narrow(alloc, name, DataType::UInt8, values)
    }
}

/// Whole numbers of 16 bits without a sign.
#[derive(Clone, Copy, Drop)]
pub struct UInt16;

impl ValueType for UInt16 {
    type Kept = i64;

    ghost dtype = { λ _. dtype.UInt16 };

    ghost scalar = { Number };

    ghost no_text = { λ _. refl };

    #[inline]
    fn data_type(&self) -> DataType {
        DataType::UInt16
    }

    #[inline]
    fn skips_blanks(&self) -> bool {
        true
    }

    #[inline]
    fn parse(&self, text: &[u8]) -> Option<i64> {
        parse_unsigned_narrow(text, 65_535)
    }

    #[inline(always)]
    fn parse_at(&self, upto: &[u8], start: usize) -> Option<i64> {
        natural_at(upto, start, 65_535)
    }

    fn column(self, name: PlSmallStr, values: Numbers<i64>) -> Column
        requires { HoldsType dtype.UInt16 (number_cells values) }
        ensures { result ≡ record { name = name; dtype = dtype.UInt16; values = number_cells values } }
    {
        Column::from_narrow(name, DataType::UInt16, values)
    }

    fn packed(
        &self,
        alloc: Global,
        name: PlSmallStr,
        values: &Numbers<i64>,
    ) -> Result<Column, AllocError>
        requires { HoldsType dtype.UInt16 (number_cells values.now) }
        ensures { IfOk result (λ column. column ≡ record { name = name; dtype = dtype.UInt16; values = number_cells values.now }) }
    {
        Column::packed_narrow(alloc, name, DataType::UInt16, values)
    }
}

/// Whole numbers of 32 bits without a sign.
#[derive(Clone, Copy, Drop)]
pub struct UInt32;

impl ValueType for UInt32 {
    type Kept = i64;

    ghost dtype = { λ _. dtype.UInt32 };

    ghost scalar = { Number };

    ghost no_text = { λ _. refl };

    #[inline]
    fn data_type(&self) -> DataType {
        DataType::UInt32
    }

    #[inline]
    fn skips_blanks(&self) -> bool {
        true
    }

    #[inline]
    fn parse(&self, text: &[u8]) -> Option<i64> {
        parse_unsigned_narrow(text, 4_294_967_295)
    }

    #[inline(always)]
    fn parse_at(&self, upto: &[u8], start: usize) -> Option<i64> {
        natural_at(upto, start, 4_294_967_295)
    }

    fn column(self, name: PlSmallStr, values: Numbers<i64>) -> Column
        requires { HoldsType dtype.UInt32 (number_cells values) }
        ensures { result ≡ record { name = name; dtype = dtype.UInt32; values = number_cells values } }
    {
        Column::from_narrow(name, DataType::UInt32, values)
    }

    fn packed(
        &self,
        alloc: Global,
        name: PlSmallStr,
        values: &Numbers<i64>,
    ) -> Result<Column, AllocError>
        requires { HoldsType dtype.UInt32 (number_cells values.now) }
        ensures { IfOk result (λ column. column ≡ record { name = name; dtype = dtype.UInt32; values = number_cells values.now }) }
    {
        Column::packed_narrow(alloc, name, DataType::UInt32, values)
    }
}

/// Whole numbers of 64 bits without a sign.
#[derive(Clone, Copy, Drop)]
pub struct UInt64;

impl ValueType for UInt64 {
    type Kept = i128;

    ghost dtype = { λ _. dtype.UInt64 };

    ghost scalar = { Number };

    ghost no_text = { λ _. refl };

    #[inline]
    fn data_type(&self) -> DataType {
        DataType::UInt64
    }

    #[inline]
    fn skips_blanks(&self) -> bool {
        true
    }

    #[inline]
    fn parse(&self, text: &[u8]) -> Option<i128> {
        match parse_uint64(text) {
            Some(number) => Some(i128::from(number)),
            None => None,
        }
    }

    fn column(self, name: PlSmallStr, values: Numbers<i128>) -> Column
        requires { HoldsType dtype.UInt64 (number_cells values) }
        ensures { result ≡ record { name = name; dtype = dtype.UInt64; values = number_cells values } }
    {
        Column::from_wide(name, DataType::UInt64, values)
    }

    fn packed(
        &self,
        alloc: Global,
        name: PlSmallStr,
        values: &Numbers<i128>,
    ) -> Result<Column, AllocError>
        requires { HoldsType dtype.UInt64 (number_cells values.now) }
        ensures { IfOk result (λ column. column ≡ record { name = name; dtype = dtype.UInt64; values = number_cells values.now }) }
    {
        Column::packed_wide(alloc, name, DataType::UInt64, values)
    }
}
