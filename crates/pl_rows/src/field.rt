//! A field into the buffer of its column.
ghost use Rattle.std.specs.Prelude.{suc};
ghost use Rattle.pl_cells.specs.InitBuffers.{state_of};
ghost use Rattle.pl_cells.specs.BufferValue.{Answers};
ghost use Rattle.pl_cells.specs.NullValues.{HaveTexts};
ghost use Rattle.pl_rows.specs.Cells.{cell};
ghost use Rattle.pl_rows.specs.Plan.{rules_of, FollowsRules};

use crate::plan::RangePlan;
use pl_cells::buffer::Buffer;
use pl_cells::cell_fault::CellFault;

/// Puts the cell of a field of a column at the end of its buffer. Refuses the cell's fault, and want of memory; the buffer is
/// then as it was.
#[inline(always)]
pub fn add_field(
    buffer: &mut Buffer,
    column: usize,
    field: &[u8],
    plan: &RangePlan<'_>,
) -> Result<(), CellFault>
    requires rules { FollowsRules (rules_of plan.now) (state_of buffer.old) }
    requires texts { HaveTexts plan.now.options.null_values (suc column) }
    ensures { Answers (state_of buffer.old) (state_of buffer.new) (cell (rules_of plan.now) column (state_of buffer.old).dtype field.now) result }
{
    let options = plan.options;
    buffer.add_field(
        field,
        plan.dialect.quote_char,
        options.null_values,
        column,
        options.ignore_errors,
        options.missing_is_null,
    )
}
