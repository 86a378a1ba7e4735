//! The fault line of a run over an index, told to the sink of errors piece by piece, without taking memory.
ghost use Rattle.std.specs.Prelude.{◌≤◌, ◌++◌, codes, decimal};
ghost use Rattle.pl_csv.specs.Telling.{IsTold, IsTelling};
ghost use Rattle.pl_csv.specs.Views.{sink_view};
ghost use Rattle.pl_seek.specs.Telling.{seek_line};

use crate::run::SeekRefusal;
use pl_csv::telling::{tell, tell_counted, tell_refusal};
use pl_frame::sink::Sink;

// Tells a sink the place that is not that of the input.
fn tell_places<Se: Sink>(sink: &mut Se, number: usize) -> bool
    ensures { IsTelling result ((codes "places " ++ decimal number) ++ codes "\n") (sink_view (Se.received sink.old) (Se.faults sink.old) (Se.wants sink.old)) (sink_view (Se.received sink.new) (Se.faults sink.new) (Se.wants sink.new)) }
{
    if !tell_counted(sink, "places ", number) {
        return false;
    }
    tell(sink, "\n")
}

/// Tells a sink the fault line of a refusal, with its line feed. A fault of the sink cuts the line short, and is not passed
/// on.
pub(crate) fn tell_seek<Se: Sink>(sink: &mut Se, refusal: &SeekRefusal)
    ensures told { IsTold (seek_line refusal.now) (sink_view (Se.received sink.old) (Se.faults sink.old) (Se.wants sink.old)) (sink_view (Se.received sink.new) (Se.faults sink.new) (Se.wants sink.new)) }
    ensures later { Se.faults sink.old ≤ Se.faults sink.new }
    ensures later_wants { Se.wants sink.old ≤ Se.wants sink.new }
{
    match refusal {
        SeekRefusal::Run(refusal) => tell_refusal(sink, refusal),
        SeekRefusal::Format => {
            tell(sink, "format\n");
        }
        SeekRefusal::Input => {
            tell(sink, "input\n");
        }
        SeekRefusal::Settings => {
            tell(sink, "settings\n");
        }
        SeekRefusal::Places { number } => {
            tell_places(sink, *number);
        }
    }
}
