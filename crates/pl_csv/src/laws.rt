//! What holds of every input, as contracts of functions that do nothing.
ghost use Rattle.std.specs.Prelude.{ℕ, List};
ghost use Rattle.pl_frame.specs.Schema.{Entry};
ghost use Rattle.pl_options.specs.declared.read_options.CsvReadOptions.{CsvReadOptions};
ghost use Rattle.pl_write.specs.declared.options.CsvWriterOptions.{CsvWriterOptions};
ghost use Rattle.pl_csv.specs.Making.{MadeInputIsRead};
ghost use Rattle.pl_csv.specs.Run.{HasOneDue};
ghost use Rattle.pl_csv.specs.Transcoding.{HasOneOutcome, IsComplete};

use pl_round_trip::laws::{fields_return, lines_return, rows_return, values_are_fields};

/// Whatever the words and the input, there is exactly one status that is due to them: 2 where the words have no meaning, 6
/// where the input is too long, 0 where it has a reference read that can be written, and else that of the first cause
/// against it; and of a making job 12 where there are no workers or pieces have no bytes, and else 0 (docs/command-line.md,
/// "Statuses").
pub fn one_status_is_due()
    ensures { (words : List (List ℕ)) (input : List ℕ) → HasOneDue words input }
{}

/// Whatever the options and the settled schema, an input means a frame that can be written, or has one first cause against
/// it, and not both.
pub fn one_outcome()
    ensures { (read : CsvReadOptions) (schema : List Entry) (input : List ℕ) (write : CsvWriterOptions) → HasOneOutcome read schema input write }
{}

/// What `transcode` refuses is a fault of the sink, whose count rose, or want of memory, where an input means a frame that can
/// be written.
pub fn valid_input_is_transcoded()
    ensures { (read : CsvReadOptions) (write : CsvWriterOptions) (input : List ℕ) → IsComplete read write input }
{}

/// A made input of at most 1000000 rows has a reference read, which can be written, for any number of workers and any piece
/// size above 0.
pub fn made_input_is_read()
    ensures { MadeInputIsRead }
{
    fields_return();
    values_are_fields();
    lines_return();
    rows_return();
}
