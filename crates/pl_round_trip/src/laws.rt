//! Each law is the contract of a function that does nothing.
ghost use Rattle.pl_round_trip.specs.RoundTrip.{QuotesUndouble, QuotedReturn, BooleansReturn, TextsReturn, WholesReturn, TimesReturn, DatesReturn, DatetimesReturn, DecimalsReturn, ValuesReturn, TextCellsReturn, PrintedArePlain, FieldsReturn, NullsReturn, LinesReturn, ValuesAreFields, NullsAreFields, RowsReturn, FrameRowsReturn, TailsReturn};
ghost use Rattle.pl_round_trip.specs.Returning.{CellsReturn, DataReturn, FittingRowsReturn};

/// A text whose quotes were doubled and then undoubled is the text.
pub fn quotes_undouble()
    ensures { QuotesUndouble }
{}

/// A truth value that was printed is read as that value.
pub fn booleans_return()
    ensures { BooleansReturn }
{}

/// A text of a string, a category or an enum that was printed is read as that text.
pub fn texts_return()
    ensures { TextsReturn }
{}

/// A whole number of any type that was printed is read as that number.
pub fn wholes_return()
    ensures { WholesReturn }
{}

/// A time of the day that was printed is read as that time.
pub fn times_return()
    ensures { TimesReturn }
{}

/// A date that was printed is read as that date.
pub fn dates_return()
    ensures { DatesReturn }
{}

/// A date and time that was printed is read as that date and time, where its count fits 64 bits.
pub fn datetimes_return()
    ensures { DatetimesReturn }
{}

/// A decimal of any scale that was printed is read as that decimal.
pub fn decimals_return()
    ensures { DecimalsReturn }
{}

/// A text that was put between quotes is found and read there.
pub fn quoted_return()
    ensures { QuotedReturn }
{}

/// A value of any type that can be read was printed and is read as that value.
pub fn values_return()
    ensures { ValuesReturn }
{}

/// What was printed, as the text of a cell, is read as a cell with that value.
pub fn text_cells_return()
    ensures { TextCellsReturn }
{}

/// What is no text is printed in letters, digits, `-`, `.` and `:`, one or more.
pub fn printed_are_plain()
    ensures { PrintedArePlain }
{}

/// The field of a value, written under any style, is read as a cell with that value.
pub fn fields_return()
    ensures { FieldsReturn }
{}

/// A null that was written as a field is read as a null, in each style.
pub fn nulls_return()
    ensures { NullsReturn }
{}

/// Texts of fields that stand in a line with separators between them are the fields of the line, whatever line follows.
pub fn lines_return()
    ensures { LinesReturn }
{}

/// What is written of a value is the text of a field in its line, in each style.
pub fn values_are_fields()
    ensures { ValuesAreFields }
{}

/// What is written of a null is the text of a field in its line, in each style.
pub fn nulls_are_fields()
    ensures { NullsAreFields }
{}

/// Lines of texts of fields are the rows of their text: a row each, with these fields.
pub fn rows_return()
    ensures { RowsReturn }
{}

/// The lines that are written of the rows of a frame are rows again, whose fields are what is written of the cells.
pub fn frame_rows_return()
    ensures { FrameRowsReturn }
{}

/// A carriage return behind a field that does not end with one changes nothing of its cell.
pub fn tails_return()
    ensures { TailsReturn }
{}

/// The field of a cell that fits, a null too, is read as that cell, also at the end of a line.
pub fn cells_return()
    ensures { CellsReturn }
{}

/// The data of the text of a frame that fits begin behind its byte order mark and its header.
pub fn data_return()
    ensures { DataReturn }
{}

/// The rows of these data are the rows of the frame.
pub fn fitting_rows_return()
    ensures { FittingRowsReturn }
{}
