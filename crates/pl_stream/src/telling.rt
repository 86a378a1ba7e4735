//! The fault line of a run over a stream, told to the sink of errors piece by piece, without taking memory.
ghost use Rattle.std.specs.Prelude.{◌≡◌, ◌≤◌, ◌++◌, codes, decimal};
ghost use Rattle.pl_csv.specs.Telling.{IsTold, IsTelling};
ghost use Rattle.pl_csv.specs.Views.{sink_view};
ghost use Rattle.pl_stream.specs.Telling.{stream_line};

use crate::run::StreamRefusal;
use pl_csv::telling::{tell, tell_counted, tell_refusal};
use pl_frame::sink::Sink;

// Tells a sink the column that has categories.
fn tell_category<Se: Sink>(sink: &mut Se, column: usize) -> bool
    ensures { IsTelling result ((codes "category column " ++ decimal column) ++ codes "\n") (sink_view (Se.received sink.old) (Se.faults sink.old) (Se.wants sink.old)) (sink_view (Se.received sink.new) (Se.faults sink.new) (Se.wants sink.new)) }
{
    if !tell_counted(sink, "category column ", column) {
        return false;
    }
    tell(sink, "\n")
}

/// Tells a sink the fault line of a refusal, with its line feed. A fault of the sink cuts the line short, and is not passed on.
pub(crate) fn tell_stream<Se: Sink>(sink: &mut Se, refusal: &StreamRefusal)
    ensures told { IsTold (stream_line refusal.now) (sink_view (Se.received sink.old) (Se.faults sink.old) (Se.wants sink.old)) (sink_view (Se.received sink.new) (Se.faults sink.new) (Se.wants sink.new)) }
    ensures later { Se.faults sink.old ≤ Se.faults sink.new }
    ensures later_wants { Se.wants sink.old ≤ Se.wants sink.new }
{
    match refusal {
        StreamRefusal::Run(refusal) => tell_refusal(sink, refusal),
        StreamRefusal::NoSchema => {
            tell(sink, "no schema\n");
        }
        StreamRefusal::Category { column } => {
            tell_category(sink, *column);
        }
        StreamRefusal::NoColumn => {
            tell(sink, "no column\n");
        }
    }
}
