//! Laws of the definitions.
ghost use Rattle.pl_seek.specs.Index.{IndicesDiffer};
ghost use Rattle.pl_seek.specs.Laws.{SlicesArePartsOfTheWholeRead};

/// No two indices have the same bytes.
pub fn indices_differ()
    ensures { IndicesDiffer }
{}

/// Where an input has an index, and its whole read succeeds, the frame of a slice is a part of the whole frame.
pub fn slices_are_parts_of_the_whole_read()
    ensures { SlicesArePartsOfTheWholeRead }
{}
