//! The row at the front of a text into buffers.
ghost use Rattle.std.specs.Prelude.{◌≡◌, None, ◌∷◌, [], length, drop, OnOk, OnErr, IfOk, IfErr, MatchResult, not};
ghost use Rattle.pl_frame.specs.Dialect.{AreDistinct};
ghost use Rattle.pl_scan.specs.Dialect.{marks_of};
ghost use Rattle.pl_scan.specs.Fields.{extent};
ghost use Rattle.pl_rows.specs.Plan.{states, rules_of, plan_columns, CanRead};
ghost use Rattle.pl_rows.specs.Rows.{first_fault};
ghost use Rattle.pl_table.specs.Rows.{row_at};
ghost use Rattle.pl_rows.specs.Columns.{with_columns};
ghost use Rattle.pl_rows.specs.Ranges.{is_judged};
ghost use Rattle.pl_rows.specs.Steps.{row_fault_of, HasAddedCells, IsCellsFault, IsRowFault, IsRowRead, IsRowEnd};

use crate::cut_back::cut_back;
use crate::field::add_field;
use crate::plan::RangePlan;
use crate::row_rest::{RowRest, finish_row, next_field, pass_fields, pass_row};
use pl_cells::buffer::Buffer;
use pl_cells::cell_fault::CellFault;
use pl_frame::error::FaultKind;
use pl_scan::closes::is_open_record;

/// Why a row was refused.
#[derive(Clone, Copy, Debug, PartialEq, Eq)]
pub enum RowFault {
    /// The first fault of the row.
    Record { column: usize, kind: FaultKind },
    OutOfMemory,
}

/// What came of the row at the front of a text.
#[derive(Clone, Copy)]
pub enum RowRead<'a> {
    /// Each buffer has its cell, and this stands behind the row.
    Read(&'a [u8]),
    /// It is not judged.
    Open,
    /// Its first fault.
    Fault { column: usize, kind: FaultKind },
    OutOfMemory,
}

// The fault of a column's cell, as a fault of the row.
fn row_fault(column: usize, fault: CellFault) -> RowFault
    ensures { result ≡ row_fault_of column fault }
{
    let kind = match fault {
        CellFault::Escape => FaultKind::Escape,
        CellFault::Utf8 => FaultKind::Utf8,
        CellFault::Value => FaultKind::Value,
        CellFault::OutOfMemory => return RowFault::OutOfMemory,
    };
    RowFault::Record { column, kind }
}

// Puts the cells of the row at the front of `bytes` into the buffers, and gives what is left of it. Refuses the fault of its
// least column that has one, with the number of buffers that have their cell.
#[inline]
fn add_cells<'a>(
    buffers: &mut [Buffer],
    bytes: &'a [u8],
    plan: &RangePlan<'_>,
) -> Result<RowRest<'a>, (usize, RowFault)>
    requires { CanRead plan.now (states buffers.old) }
    ensures { MatchResult result (HasAddedCells plan.now bytes.now (states buffers.old) (states buffers.new)) (λ wrong. IsCellsFault plan.now bytes.now (states buffers.old) (states buffers.new) wrong.0 wrong.1) }
{
    // A copy of its own lies in registers, whatever is written to the buffers.
    let own = *plan;
    let dialect = own.dialect;
    let places = own.projection.places;
    // Each place is below it, so one more fits.
    let _width = plan.projection.width;
    let mut rest = RowRest::Fields(bytes);
    let mut next = 0;
    for (index, buffer) in buffers.iter_mut().enumerate() {
        let place = places[index];
        let begin = pass_fields(rest, place - next, &dialect);
        let (field, behind) = next_field(begin, &dialect);
        match add_field(buffer, place, field, &own) {
            Ok(()) => rest = behind,
            Err(fault) => return Err((index, row_fault(place, fault))),
        }
        next = place + 1;
    }
    Ok(rest)
}

// What stands behind a row whose cells were read.
#[inline]
fn end_row<'a>(rest: RowRest<'a>, plan: &RangePlan<'_>) -> Result<&'a [u8], RowFault>
    ensures { IsRowEnd plan.now rest.entry result }
{
    if plan.passes_more() {
        return Ok(pass_row(rest, &plan.dialect));
    }
    finish_row(rest, plan.projection.width)
}

// Reads the row at the front of `bytes` into the buffers, a cell each, and gives what stands behind it. Refuses the row's
// first fault, that is the one of its least column or else a field too many, and want of memory; the buffers are then as
// they were.
#[inline]
fn add_row<'a>(
    buffers: &mut [Buffer],
    bytes: &'a [u8],
    plan: &RangePlan<'_>,
) -> Result<&'a [u8], RowFault>
    requires { CanRead plan.now (states buffers.old) }
    ensures whole { OnOk result (first_fault (rules_of plan.now) (plan_columns plan.now (states buffers.old)) (row_at (marks_of plan.now.dialect) bytes.now) ≡ None) }
    ensures added { OnOk result (states buffers.new ≡ with_columns (rules_of plan.now) (row_at (marks_of plan.now.dialect) bytes.now ∷ []) plan.now.projection.places.now (states buffers.old)) }
    ensures behind { IfOk result (λ behind. behind.now ≡ drop (extent (marks_of plan.now.dialect) bytes.now) bytes.now) }
    ensures fault { IfErr result (λ fault. IsRowFault fault (first_fault (rules_of plan.now) (plan_columns plan.now (states buffers.old)) (row_at (marks_of plan.now.dialect) bytes.now))) }
    ensures kept { OnErr result (states buffers.new ≡ states buffers.old) }
{
    match add_cells(buffers, bytes, plan) {
        Ok(rest) => match end_row(rest, plan) {
            Ok(behind) => Ok(behind),
            Err(fault) => {
                cut_back(buffers, buffers.len(), 1);
                Err(fault)
            }
        },
        Err((columns, fault)) => {
            cut_back(buffers, columns, 1);
            Err(fault)
        }
    }
}

// Whether the row at the front of `bytes` is not judged.
fn is_passed(bytes: &[u8], plan: &RangePlan<'_>) -> bool
    requires { AreDistinct (marks_of plan.now.dialect) }
    ensures { result ≡ not (is_judged plan.now (row_at (marks_of plan.now.dialect) bytes.now)) }
{
    let dialect = plan.dialect;
    !plan.last
        && is_open_record(
            bytes,
            dialect.separator,
            dialect.quote_char,
            dialect.eol_char,
        )
}

/// Reads the row at the front of `bytes` into the buffers, a cell each, where it is judged and has no fault; else the buffers
/// are as they were.
#[inline]
pub fn read_row<'a>(buffers: &mut [Buffer], bytes: &'a [u8], plan: &RangePlan<'_>) -> RowRead<'a>
    requires { CanRead plan.now (states buffers.old) }
    ensures { IsRowRead plan.now bytes.now (states buffers.old) (states buffers.new) result }
{
    match add_row(buffers, bytes, plan) {
        Ok(behind) => {
            if behind.is_empty() && is_passed(bytes, plan) {
                cut_back(buffers, buffers.len(), 1);
                RowRead::Open
            } else {
                RowRead::Read(behind)
            }
        }
        Err(RowFault::OutOfMemory) => RowRead::OutOfMemory,
        Err(RowFault::Record { column, kind }) => {
            if is_passed(bytes, plan) {
                RowRead::Open
            } else {
                RowRead::Fault { column, kind }
            }
        }
    }
}
