//! Dates as text.
ghost use Rattle.std.specs.Prelude.{◌≡◌, ◌++◌, true, OnOk};
ghost use Rattle.pl_frame.specs.Types.{is_within, day_range};
ghost use Rattle.pl_text.specs.ValueText.{date_text};
ghost use Rattle.pl_write.specs.Writing.{StaysInFront};

use crate::put_dates::put_date;
use std::alloc::AllocError;

/// Appends the date of a day number, as `YYYY-MM-DD`.
#[inline]
pub(crate) fn push_date(block: &mut Vec<u8>, day: i64) -> Result<(), AllocError>
    requires { is_within day_range day ≡ true }
    ensures text { OnOk result (block.new.items ≡ block.old.items ++ date_text day) }
    ensures kept { StaysInFront block.old.items block.new.items }
{
    let at = block.len();
    block.resize(at + 16, 0)?;
    let end = put_date(block, at, day);
    block.truncate(end);
    Ok(())
}
