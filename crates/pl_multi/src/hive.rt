//! Values that stand in a path, as `year=2024/month=1/part-0.csv`.
ghost use Rattle.std.specs.Prelude.{◌≡◌, ◌++◌, option_to_list, IfOk, OnOk, IsOkUnless};
ghost use Rattle.std.specs.Option.{option_map};
ghost use Rattle.pl_frame.specs.declared.error.PolarsError.TheVariants as error;
ghost use Rattle.pl_multi.specs.Hive.{value_in, hive_values};

use crate::part::PartValues;
use pl_frame::error::{PolarsError, PolarsResult};
use pl_frame::name::PlSmallStr;
use pl_words::splitting::cut_at;
use std::alloc::Global;

// The name and the value of a segment with exactly one `=` that has text on both sides.
fn value_in(segment: &str) -> Option<(&str, &str)>
    ensures { option_map (λ value. (value.0.now, value.1.now)) result ≡ value_in segment.now }
{
    let Some((name, value)) = cut_at(segment, b'=') else {
        return None;
    };
    if name.is_empty() || value.is_empty() || cut_at(value, b'=').is_some() {
        return None;
    }
    Some((name, value))
}

// Puts the name and the value of a segment at the end, where it has them. Refuses only want of memory.
fn push_value(
    alloc: Global,
    values: &mut Vec<(PlSmallStr, PlSmallStr)>,
    segment: &str,
) -> PolarsResult<()>
    ensures pushed { OnOk result (values.new.items ≡ values.old.items ++ option_to_list (value_in segment.now)) }
    ensures refused { IsOkUnless result error.OutOfMemory }
{
    let Some((name, value)) = value_in(segment) else {
        return Ok(());
    };
    let name = PlSmallStr::from_str(alloc, name)?;
    let value = PlSmallStr::from_str(alloc, value)?;
    match values.push((name, value)) {
        Ok(()) => Ok(()),
        Err(_) => Err(PolarsError::OutOfMemory),
    }
}

/// The values that stand in a path: of the segments between slashes but the last, those that hold exactly one `=` with text on both
/// sides, as name and value in order (docs/files.md, "Many files"). Refuses only want of memory.
pub fn hive_values(alloc: Global, path: &str) -> PolarsResult<PartValues>
    ensures values { IfOk result (λ values. values ≡ hive_values path.now) }
    ensures refused { IsOkUnless result error.OutOfMemory }
{
    let mut values = Vec::new(alloc);
    let mut rest = path;
    while let Some((segment, behind)) = cut_at(rest, b'/') {
        push_value(alloc, &mut values, segment)?;
        rest = behind;
    }
    Ok(PartValues::new(values))
}
