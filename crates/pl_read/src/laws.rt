//! What holds of every input, as contracts of functions that do nothing, and a call whose contract speaks of any text that is cut
//! into pieces.
ghost use Rattle.pl_read.specs.Slices.{PartsAreTheSlice};
ghost use Rattle.pl_read.specs.BatchJoining.{BatchesJoinToTheWholeRead};
ghost use Rattle.pl_read.specs.BatchRanges.{BatchesAreReadOfRanges};
ghost use Rattle.pl_read.specs.RoundTrip.{FramesReturn};
ghost use Rattle.pl_read.specs.Laws.{LimitTakesFirstRows, ProjectionSelects, LimitedReadDependsOnPrefix, SchemaIsEmptyWithoutRecord};

pub use pl_board::line_states::line_states;

/// However the rows are divided into files: the parts that `split_slice_at_file` tells, joined, are the slice of all rows.
pub fn parts_are_the_slice<T>()
    ensures { PartsAreTheSlice T }
{}

/// Where the unlimited read succeeds, the limited one is its first rows.
pub fn limit_takes_first_rows()
    ensures { LimitTakesFirstRows }
{}

/// Where the read of all columns succeeds, one of some of them gives these columns.
pub fn projection_selects()
    ensures { ProjectionSelects }
{}

/// Where a schema is given, a limited read depends on a text alone that decides it, whatever stands behind that.
pub fn limited_read_depends_on_prefix()
    ensures { LimitedReadDependsOnPrefix }
{}

/// Where no schema is given and an input has a read, its schema has no column exactly where the input has no record and that is
/// not refused.
pub fn schema_is_empty_without_record()
    ensures { SchemaIsEmptyWithoutRecord }
{}

/// The batches of a reader, joined onto the empty frame, are the frame of its input, whatever the counts, as long as each is positive
/// and the last call gives no batch.
pub fn batches_join_to_the_whole_read()
    ensures { BatchesJoinToTheWholeRead }
{}

/// The batches of a call are read of the first ranges of what is left, whose ends are those that `cut_into_ranges` tells of the pieces
/// that `line_cuts` tells.
pub fn batches_are_read_of_ranges()
    ensures { BatchesAreReadOfRanges }
{}

/// What is written is read again: the text of a frame that fits the way in which it was written means that frame, under options that
/// match (docs/quoting.md, "What comes back").
pub fn frames_return()
    ensures { FramesReturn }
{}
