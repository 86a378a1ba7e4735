//! The fault line, told to the sink of errors piece by piece, without taking memory.
ghost use Rattle.std.specs.Prelude.{◌≡◌, ◌≤◌, ◌++◌, codes, decimal};
ghost use Rattle.pl_csv.specs.Telling.{kind_name, fault_name, numbers_text, place_text, fault_detail, refusal_name, refusal_detail, fault_line, IsTold, IsTelling};
ghost use Rattle.pl_csv.specs.Views.{sink_view};

use crate::run::Refusal;
use pl_frame::error::{ComputeFault, FaultKind, NamePlace, NoDataFault, OpFault, PolarsError};
use pl_frame::sink::{Sink, write_all};

/// Tells a sink a text, and answers whether it took all of it. A fault of the sink cuts the text short, and is not passed on.
pub fn tell<Se: Sink>(sink: &mut Se, text: &str) -> bool
    ensures { IsTelling result text.now (sink_view (Se.received sink.old) (Se.faults sink.old) (Se.wants sink.old)) (sink_view (Se.received sink.new) (Se.faults sink.new) (Se.wants sink.new)) }
{
    write_all(sink, text.as_bytes()).is_ok()
}

// Tells a sink a number.
fn tell_number<Se: Sink>(sink: &mut Se, number: usize) -> bool
    ensures { IsTelling result (decimal number) (sink_view (Se.received sink.old) (Se.faults sink.old) (Se.wants sink.old)) (sink_view (Se.received sink.new) (Se.faults sink.new) (Se.wants sink.new)) }
{
    let mut digits = itoa::Buffer::new();
    tell(sink, digits.format(number))
}

/// Tells a sink two texts, and answers whether it took all of them.
pub fn tell_both<Se: Sink>(sink: &mut Se, text: &str, other: &str) -> bool
    ensures { IsTelling result (text.now ++ other.now) (sink_view (Se.received sink.old) (Se.faults sink.old) (Se.wants sink.old)) (sink_view (Se.received sink.new) (Se.faults sink.new) (Se.wants sink.new)) }
{
    if !tell(sink, text) {
        return false;
    }
    tell(sink, other)
}

/// Tells a sink a text and a number, and answers whether it took all of them.
pub fn tell_counted<Se: Sink>(sink: &mut Se, text: &str, number: usize) -> bool
    ensures { IsTelling result (text.now ++ decimal number) (sink_view (Se.received sink.old) (Se.faults sink.old) (Se.wants sink.old)) (sink_view (Se.received sink.new) (Se.faults sink.new) (Se.wants sink.new)) }
{
    if !tell(sink, text) {
        return false;
    }
    tell_number(sink, number)
}

// How the kind of a record's fault is called.
fn kind_name(kind: FaultKind) -> &'static str
    ensures { result.now ≡ kind_name kind }
{
    match kind {
        FaultKind::Escape => "escape",
        FaultKind::Utf8 => "utf8",
        FaultKind::Value => "value",
        FaultKind::Fields => "fields",
    }
}

// Tells a sink a column and the kind of its fault.
fn tell_column<Se: Sink>(sink: &mut Se, column: usize, kind: FaultKind) -> bool
    ensures { IsTelling result ((codes " column " ++ decimal column) ++ (codes " " ++ kind_name kind)) (sink_view (Se.received sink.old) (Se.faults sink.old) (Se.wants sink.old)) (sink_view (Se.received sink.new) (Se.faults sink.new) (Se.wants sink.new)) }
{
    if !tell_counted(sink, " column ", column) {
        return false;
    }
    tell_both(sink, " ", kind_name(kind))
}

// Tells a sink the place and the kind of a record's fault.
fn tell_place<Se: Sink>(sink: &mut Se, row: usize, column: usize, kind: FaultKind) -> bool
    ensures { IsTelling result (place_text row column kind) (sink_view (Se.received sink.old) (Se.faults sink.old) (Se.wants sink.old)) (sink_view (Se.received sink.new) (Se.faults sink.new) (Se.wants sink.new)) }
{
    if !tell_counted(sink, " ", row) {
        return false;
    }
    tell_column(sink, column, kind)
}

// Tells a sink two numbers, a blank before each.
fn tell_numbers<Se: Sink>(sink: &mut Se, number: usize, other: usize) -> bool
    ensures { IsTelling result (numbers_text number other) (sink_view (Se.received sink.old) (Se.faults sink.old) (Se.wants sink.old)) (sink_view (Se.received sink.new) (Se.faults sink.new) (Se.wants sink.new)) }
{
    if !tell_counted(sink, " ", number) {
        return false;
    }
    tell_counted(sink, " ", other)
}

// Tells a sink the detail of a fault, if it has one.
fn tell_detail<Se: Sink>(sink: &mut Se, fault: &PolarsError) -> bool
    ensures { IsTelling result (fault_detail fault.now) (sink_view (Se.received sink.old) (Se.faults sink.old) (Se.wants sink.old)) (sink_view (Se.received sink.new) (Se.faults sink.new) (Se.wants sink.new)) }
{
    match fault {
        PolarsError::Duplicate { name, .. } => tell_both(sink, " ", name.as_str()),
        PolarsError::InvalidOperation(OpFault::Overrides { given, columns }) => {
            tell_numbers(sink, *given, *columns)
        }
        PolarsError::ComputeError(ComputeFault::Dtype { column }) => {
            tell_counted(sink, " column ", *column)
        }
        PolarsError::ColumnNotFound(name) => tell_both(sink, " ", name.as_str()),
        PolarsError::OutOfBounds { index, length } => tell_numbers(sink, *index, *length),
        PolarsError::ComputeError(ComputeFault::Record { row, column, kind }) => {
            tell_place(sink, *row, *column, *kind)
        }
        PolarsError::InvalidOperation(_) => true,
        PolarsError::ComputeError(_) => true,
        PolarsError::NoData(_) => true,
        PolarsError::EmptyProjection => true,
        PolarsError::IO => true,
        PolarsError::OutOfMemory => true,
    }
}

// What a fault is called.
fn fault_name(fault: &PolarsError) -> &'static str
    ensures { result.now ≡ fault_name fault.now }
{
    match fault {
        PolarsError::IO => "sink",
        PolarsError::OutOfMemory => "memory",
        PolarsError::InvalidOperation(OpFault::Dialect) => "refusal 1 dialect",
        PolarsError::InvalidOperation(OpFault::Option) => "refusal 2 option",
        PolarsError::ComputeError(ComputeFault::Quote) => "refusal 3 quote",
        PolarsError::ComputeError(ComputeFault::Compressed) => "refusal 4 compressed",
        PolarsError::NoData(NoDataFault::Empty) => "refusal 5 empty",
        PolarsError::Duplicate {
            at: NamePlace::Schema,
            ..
        } => "refusal 6 duplicate",
        PolarsError::InvalidOperation(OpFault::Overrides { .. }) => "refusal 7 overrides",
        PolarsError::ComputeError(ComputeFault::Dtype { .. }) => "refusal 8 dtype",
        PolarsError::ColumnNotFound(_) => "refusal 9 not found",
        PolarsError::NoData(NoDataFault::Skip) => "refusal 10 skip",
        PolarsError::OutOfBounds { .. } => "refusal 11 bounds",
        PolarsError::Duplicate {
            at: NamePlace::Projection,
            ..
        } => "refusal 12 duplicate",
        PolarsError::EmptyProjection => "refusal 13 projection",
        PolarsError::ComputeError(ComputeFault::Record { .. }) => "refusal 14 record",
        PolarsError::ComputeError(ComputeFault::Index { .. }) => "refusal 15 index",
    }
}

// What a refusal is called.
fn refusal_name(refusal: &Refusal) -> &'static str
    ensures { result.now ≡ refusal_name refusal.now }
{
    match refusal {
        Refusal::Words => "words",
        Refusal::Source => "source",
        Refusal::TooLong => "too long",
        Refusal::Polars(fault) => fault_name(fault),
    }
}

// Tells a sink the detail of a refusal, if it has one.
fn tell_refusal_detail<Se: Sink>(sink: &mut Se, refusal: &Refusal) -> bool
    ensures { IsTelling result (refusal_detail refusal.now) (sink_view (Se.received sink.old) (Se.faults sink.old) (Se.wants sink.old)) (sink_view (Se.received sink.new) (Se.faults sink.new) (Se.wants sink.new)) }
{
    match refusal {
        Refusal::Polars(fault) => tell_detail(sink, fault),
        Refusal::Words => true,
        Refusal::Source => true,
        Refusal::TooLong => true,
    }
}

// Tells a sink the detail of a refusal, if it has one, and a line feed.
fn tell_end<Se: Sink>(sink: &mut Se, refusal: &Refusal) -> bool
    ensures { IsTelling result (refusal_detail refusal.now ++ codes "\n") (sink_view (Se.received sink.old) (Se.faults sink.old) (Se.wants sink.old)) (sink_view (Se.received sink.new) (Se.faults sink.new) (Se.wants sink.new)) }
{
    if !tell_refusal_detail(sink, refusal) {
        return false;
    }
    tell(sink, "\n")
}

/// Tells a sink the fault line of a refusal, with its line feed. A fault of the sink cuts the line short, and is not passed
/// on.
pub fn tell_refusal<Se: Sink>(sink: &mut Se, refusal: &Refusal)
    ensures told { IsTold (fault_line refusal.now) (sink_view (Se.received sink.old) (Se.faults sink.old) (Se.wants sink.old)) (sink_view (Se.received sink.new) (Se.faults sink.new) (Se.wants sink.new)) }
    ensures later { Se.faults sink.old ≤ Se.faults sink.new }
    ensures later_wants { Se.wants sink.old ≤ Se.wants sink.new }
{
    if tell(sink, refusal_name(refusal)) {
        tell_end(sink, refusal);
    }
}
