//! Columns that stand in the paths of files.
ghost use Rattle.std.specs.Prelude.{◌≡◌, IfOk, IsOkUnless};
ghost use Rattle.pl_frame.specs.declared.error.PolarsError.TheVariants as error;
ghost use Rattle.pl_options.specs.Options.{default_hive_options};

use crate::try_clone::copy_optional;
use pl_frame::error::PolarsResult;
use pl_frame::schema::Schema;

/// Which parts of paths, as `year=2024`, are columns. They are kept for callers, and no call here reads them
/// (docs/options.md).
#[derive(Debug, Drop, PartialEq, Eq)]
pub struct HiveOptions {
    /// Whether parts of paths are columns; `None` leaves it open.
    pub enabled: Option<bool>,
    /// Where in a path the first such part may begin, counted in bytes.
    pub hive_start_idx: usize,
    /// The names and types of these columns, where they are given.
    pub schema: Option<Schema>,
    /// Whether dates are tried, where types are not given.
    pub try_parse_dates: bool,
}

impl HiveOptions {
    /// Parts of paths are columns, from the first byte on, without a schema; dates are tried. Takes no memory.
    pub fn new() -> Self
        ensures { result ≡ default_hive_options }
    {
        HiveOptions {
            enabled: Some(true),
            hive_start_idx: 0,
            schema: None,
            try_parse_dates: true,
        }
    }

    /// Equal options. Refuses only want of memory.
    pub fn try_clone(&self) -> PolarsResult<HiveOptions>
        ensures equal { IfOk result (λ options. options ≡ self.now) }
        ensures refused { IsOkUnless result error.OutOfMemory }
    {
        Ok(HiveOptions {
            enabled: self.enabled,
            hive_start_idx: self.hive_start_idx,
            schema: copy_optional(&self.schema)?,
            try_parse_dates: self.try_parse_dates,
        })
    }
}
