//! How the cells of a column stand in rows that are written as they were read.
ghost use Rattle.std.specs.Prelude.{◌≡◌, true, IfSome, Some};
ghost use Rattle.pl_frame.specs.declared.data_type.DataType.TheVariants as dtype;
ghost use Rattle.pl_frame.specs.Types.{is_readable};
ghost use Rattle.pl_verbatim.specs.Kinds.{IsKindOf, is_passed, is_sound_kind};

use pl_frame::data_type::{DataType, TimeUnit};

/// How a cell of a column stands, unless it is empty.
#[derive(Clone, Copy)]
pub enum Kind {
    /// As a text, between quotes where it needs them.
    Text,
    /// As a whole number of at most so many digits, with a minus in front or without, or only without.
    Whole { digits: usize, is_signed: bool },
    /// As a truth value.
    Boolean,
    /// As a date.
    Date,
    /// As a decimal of at most so many digits, with so many of them behind the point, at least one.
    Decimal { digits: usize, scale: usize },
    /// As a datetime with a fraction in so many digits.
    Datetime { places: usize },
    /// Anyhow, since the column is not read: nothing is written of it.
    Passed,
}

impl Kind {
    /// Whether the column is not read.
    #[inline(always)]
    pub(crate) fn is_passed(self) -> bool
        ensures { result ≡ is_passed self }
    {
        matches!(self, Kind::Passed)
    }
}

// Of a decimal with so many digits, so many of them behind the point.
fn decimal_kind(precision: Option<u32>, scale: u32) -> Option<Kind>
    requires { is_readable (dtype.Decimal precision (Some scale)) ≡ true }
    ensures kind { IfSome result (IsKindOf (dtype.Decimal precision (Some scale))) }
    ensures sound { IfSome result (λ kind. is_sound_kind kind ≡ true) }
{
    if scale == 0 {
        return None;
    }
    Some(Kind::Decimal {
        digits: precision.unwrap_or(38) as usize,
        scale: scale as usize,
    })
}

// Of a datetime of a unit. None of nanoseconds, of which not each count that can be printed fits 64 bits.
fn datetime_kind(unit: TimeUnit) -> Option<Kind>
    ensures kind { IfSome result (IsKindOf (dtype.Datetime unit)) }
    ensures sound { IfSome result (λ kind. is_sound_kind kind ≡ true) }
{
    match unit {
        TimeUnit::Milliseconds => Some(Kind::Datetime { places: 3 }),
        TimeUnit::Microseconds => Some(Kind::Datetime { places: 6 }),
        TimeUnit::Nanoseconds => None,
    }
}

/// How the cells of a type stand. None where rows with such a column are not looked for.
pub(crate) fn kind_of(dtype: &DataType) -> Option<Kind>
    requires { is_readable dtype.now ≡ true }
    ensures kind { IfSome result (IsKindOf dtype.now) }
    ensures sound { IfSome result (λ kind. is_sound_kind kind ≡ true) }
{
    match dtype {
        DataType::String => Some(Kind::Text),
        DataType::Categorical => Some(Kind::Text),
        DataType::Int8 => Some(Kind::Whole {
            digits: 2,
            is_signed: true,
        }),
        DataType::Int16 => Some(Kind::Whole {
            digits: 4,
            is_signed: true,
        }),
        DataType::Int32 => Some(Kind::Whole {
            digits: 9,
            is_signed: true,
        }),
        DataType::Int64 => Some(Kind::Whole {
            digits: 18,
            is_signed: true,
        }),
        DataType::Int128 => Some(Kind::Whole {
            digits: 38,
            is_signed: true,
        }),
        DataType::UInt8 => Some(Kind::Whole {
            digits: 2,
            is_signed: false,
        }),
        DataType::UInt16 => Some(Kind::Whole {
            digits: 4,
            is_signed: false,
        }),
        DataType::UInt32 => Some(Kind::Whole {
            digits: 9,
            is_signed: false,
        }),
        DataType::UInt64 => Some(Kind::Whole {
            digits: 19,
            is_signed: false,
        }),
        DataType::Boolean => Some(Kind::Boolean),
        DataType::Date => Some(Kind::Date),
        DataType::Datetime(unit) => datetime_kind(*unit),
        DataType::Decimal(precision, Some(scale)) => decimal_kind(*precision, *scale),
        _ => None,
    }
}
