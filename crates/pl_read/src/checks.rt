//! What stands against a read before its schema is looked at.
ghost use Rattle.std.specs.Prelude.{◌≡◌, OnOk, IfErr, None, Some};
ghost use Rattle.pl_options.specs.FirstCause.{IsFirstCause};
ghost use Rattle.pl_read.specs.Refusals.{is_zero, has_wrong_option, early_causes};

use pl_frame::error::{OpFault, PolarsError, PolarsResult};
use pl_options::read_options::CsvReadOptions;

// Whether a count is given, and it is 0.
fn is_zero(count: Option<usize>) -> bool
    ensures { result ≡ is_zero count }
{
    match count {
        Some(count) => count == 0,
        None => false,
    }
}

// Whether an option has a value that it may not have.
fn has_wrong_option(options: &CsvReadOptions) -> bool
    ensures { result ≡ has_wrong_option options.now }
{
    is_zero(options.n_threads)
        || options.chunk_size == 0
        || (options.skip_lines > 0 && options.skip_rows > 0)
        || !options.fields_to_cast.fields().is_empty()
}

/// Refuses marks that are no dialect, and then an option that has a value that it may not have (docs/refusals.md).
pub fn check_options(options: &CsvReadOptions) -> PolarsResult<()>
    ensures passed { OnOk result (IsFirstCause (early_causes options.now) options.now.parse_options None) }
    ensures refused { IfErr result (λ fault. IsFirstCause (early_causes options.now) options.now.parse_options (Some fault)) }
{
    if !options.parse_options.has_dialect() {
        return Err(PolarsError::InvalidOperation(OpFault::Dialect));
    }
    if has_wrong_option(options) {
        return Err(PolarsError::InvalidOperation(OpFault::Option));
    }
    Ok(())
}
