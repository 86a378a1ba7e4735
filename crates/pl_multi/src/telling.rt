//! The fault line of a run over many files, told to the sink of errors piece by piece, without taking memory.
ghost use Rattle.std.specs.Prelude.{◌≤◌, ◌++◌, codes, decimal};
ghost use Rattle.pl_csv.specs.Telling.{fault_line, IsTold, IsTelling};
ghost use Rattle.pl_csv.specs.Views.{sink_view};
ghost use Rattle.pl_multi.specs.Telling.{multi_line, part_text};

use crate::run::MultiRefusal;
use pl_csv::run::Refusal;
use pl_csv::telling::{tell, tell_both, tell_counted, tell_refusal};
use pl_frame::sink::Sink;

// Tells a sink what stands before the fault line of an input that is a part.
fn tell_place<Se: Sink>(sink: &mut Se, part: usize) -> bool
    ensures { IsTelling result (part_text part) (sink_view (Se.received sink.old) (Se.faults sink.old) (Se.wants sink.old)) (sink_view (Se.received sink.new) (Se.faults sink.new) (Se.wants sink.new)) }
{
    if !tell_counted(sink, "part ", part) {
        return false;
    }
    tell(sink, " ")
}

// Tells a sink the fault line of an input that is a part.
fn tell_part<Se: Sink>(sink: &mut Se, part: usize, refusal: &Refusal)
    ensures told { IsTold (part_text part ++ fault_line refusal.now) (sink_view (Se.received sink.old) (Se.faults sink.old) (Se.wants sink.old)) (sink_view (Se.received sink.new) (Se.faults sink.new) (Se.wants sink.new)) }
    ensures later { Se.faults sink.old ≤ Se.faults sink.new }
    ensures later_wants { Se.wants sink.old ≤ Se.wants sink.new }
{
    if tell_place(sink, part) {
        tell_refusal(sink, refusal);
    }
}

// Tells a sink the part whose values have other names.
fn tell_partitions<Se: Sink>(sink: &mut Se, part: usize) -> bool
    ensures { IsTelling result ((codes "partitions part " ++ decimal part) ++ codes "\n") (sink_view (Se.received sink.old) (Se.faults sink.old) (Se.wants sink.old)) (sink_view (Se.received sink.new) (Se.faults sink.new) (Se.wants sink.new)) }
{
    if !tell_counted(sink, "partitions part ", part) {
        return false;
    }
    tell(sink, "\n")
}

// Tells a sink the name that stands twice.
fn tell_duplicate<Se: Sink>(sink: &mut Se, name: &str) -> bool
    ensures { IsTelling result ((codes "duplicate " ++ name.now) ++ codes "\n") (sink_view (Se.received sink.old) (Se.faults sink.old) (Se.wants sink.old)) (sink_view (Se.received sink.new) (Se.faults sink.new) (Se.wants sink.new)) }
{
    if !tell_both(sink, "duplicate ", name) {
        return false;
    }
    tell(sink, "\n")
}

/// Tells a sink the fault line of a refusal, with its line feed. A fault of the sink cuts the line short, and is not passed
/// on.
pub(crate) fn tell_multi<Se: Sink>(sink: &mut Se, refusal: &MultiRefusal)
    ensures told { IsTold (multi_line refusal.now) (sink_view (Se.received sink.old) (Se.faults sink.old) (Se.wants sink.old)) (sink_view (Se.received sink.new) (Se.faults sink.new) (Se.wants sink.new)) }
    ensures later { Se.faults sink.old ≤ Se.faults sink.new }
    ensures later_wants { Se.wants sink.old ≤ Se.wants sink.new }
{
    match refusal {
        MultiRefusal::Run(refusal) => tell_refusal(sink, refusal),
        MultiRefusal::Part { part, refusal } => tell_part(sink, *part, refusal),
        MultiRefusal::Partitions { part } => {
            tell_partitions(sink, *part);
        }
        MultiRefusal::Duplicate { name } => {
            tell_duplicate(sink, name.as_str());
        }
        MultiRefusal::Index => {
            tell(sink, "index\n");
        }
    }
}
