//! A limit of rows.
ghost use Rattle.std.specs.Prelude.{◌≡◌, ◌<◌, ◌≤◌, ℕ, false, Some, IfSome};
ghost use Rattle.std.specs.Bool.{OnTrue};
ghost use Rattle.pl_regions.specs.Limits.{without_limit};

use pl_rows::plan::RangePlan;

/// The same plan without a limit of rows.
pub(crate) fn without_limit<'a>(plan: &RangePlan<'a>) -> RangePlan<'a>
    ensures { result ≡ without_limit plan.now }
{
    RangePlan {
        dialect: plan.dialect,
        projection: plan.projection,
        options: plan.options,
        limit: None,
        last: plan.last,
    }
}

/// Whether there are more rows than a number, where there is one.
pub(crate) fn is_past(most: Option<usize>, rows: usize) -> bool
    ensures past { OnTrue result ((number : ℕ) × (most ≡ Some number) × (number < rows)) }
    ensures few { result ≡ false → IfSome most (λ most. rows ≤ most) }
{
    match most {
        Some(most) => rows > most,
        None => false,
    }
}
