//! Laws of rows and ranges: each function does nothing, and its contract is the law.
ghost use Rattle.pl_rows.specs.Laws.{MissingIsEmpty, OpenEndsWithin};

/// A missing field is the empty field.
pub fn missing_is_empty()
    ensures { MissingIsEmpty }
{}

/// Without a limit a range is open exactly where it is not the last one, it ends within a quoted field, and none of its judged
/// rows has a fault.
pub fn open_ends_within()
    ensures { OpenEndsWithin }
{}
