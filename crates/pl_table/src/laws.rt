//! A law of rows: the function does nothing, and its contract is the law.
ghost use Rattle.pl_table.specs.Laws.{ClosingPieceEndsAtRowEnd};

/// A piece that is empty or ends with a line end, and that does not end within a quoted field, is whole rows, whatever stands
/// behind it.
pub fn closing_piece_ends_at_row_end()
    ensures { ClosingPieceEndsAtRowEnd }
{}
