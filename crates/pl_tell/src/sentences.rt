//! The table of sentences: what a person is told of each reason.
ghost use Rattle.std.specs.Prelude.{◌≡◌, IfSome};

use crate::reason::Reason;
use pl_frame::error::FaultKind;

/// What is told of a reason: what is wrong, and what can be done about it.
#[derive(Clone, Copy, Debug)]
pub struct Row {
    pub reason: Reason,
    pub wrong: &'static str,
    pub advice: &'static str,
}

/// What is told of a record's fault.
#[derive(Clone, Copy, Debug)]
pub struct RecordRow {
    pub kind: FaultKind,
    pub wrong: &'static str,
    pub advice: &'static str,
}

/// A row for each reason.
pub static ROWS: [Row; 29] = [
    Row {
        reason: Reason::Words,
        wrong: "The words have no meaning",
        advice: "`pl_csv help` has all words",
    },
    Row {
        reason: Reason::Source,
        wrong: "The input could not be opened or read",
        advice: "Look at its path and its rights, and run the program again",
    },
    Row {
        reason: Reason::Sink,
        wrong: "Standard output could not be written, and what is there is cut short",
        advice: "Look for room on the disk, or for a reader of the pipe that ended",
    },
    Row {
        reason: Reason::Memory,
        wrong: "There is not memory enough",
        advice: "`--workers 1` takes less, and `pl_csv stream` does not hold the input",
    },
    Row {
        reason: Reason::TooLong,
        wrong: "The input has more than 64 GiB",
        advice: "Cut it into files, and read them by `pl_csv multi`",
    },
    Row {
        reason: Reason::Dialect,
        wrong: "Separator, quote, line end and comment prefix do not go together",
        advice: "Each is an ASCII byte of its own: change `--sep`, `--quote`, `--eol` or `--comment`",
    },
    Row {
        reason: Reason::Setting,
        wrong: "`--workers` or `--piece` is 0, or lines and rows are both skipped",
        advice: "Give a number above 0, and `--skip-lines` or `--skip-rows` alone",
    },
    Row {
        reason: Reason::OutputQuote,
        wrong: "The quote of the output is not ASCII",
        advice: "Give another one by `--out-quote`",
    },
    Row {
        reason: Reason::Compressed,
        wrong: "The input is compressed",
        advice: "Decompress it first, as by `zcat` or `zstdcat`",
    },
    Row {
        reason: Reason::NoRecord,
        wrong: "The input has no first record, so it has no names of columns",
        advice: "`--allow-empty` takes it as one without columns",
    },
    Row {
        reason: Reason::RepeatedName,
        wrong: "Two columns have one name",
        advice: "`--schema` names the columns, and `--no-header` with `--skip-rows 1` counts them",
    },
    Row {
        reason: Reason::TooManyTypes,
        wrong: "`--dtypes` has more types than there are columns",
        advice: "Give one type for each column, or fewer",
    },
    Row {
        reason: Reason::UnreadableType,
        wrong: "A column has a type that can't be read",
        advice: "`pl_csv help TYPE` has the types",
    },
    Row {
        reason: Reason::NoSuchName,
        wrong: "No column has a name that is asked for",
        advice: "Look at the names in `--columns` and `--null-of`",
    },
    Row {
        reason: Reason::TooFewItems,
        wrong: "The input has fewer lines or rows than are to be skipped",
        advice: "Give a smaller number by `--skip-lines`, `--skip-rows` or `--skip-after`",
    },
    Row {
        reason: Reason::NoSuchPlace,
        wrong: "`--projection` asks for a column behind the last one",
        advice: "Its numbers count from 0",
    },
    Row {
        reason: Reason::ListedTwice,
        wrong: "A column is asked for twice, or the row index has its name",
        advice: "Name each column once in `--columns` or `--projection`, and give `--row-index` another name",
    },
    Row {
        reason: Reason::NoColumns,
        wrong: "No column is read",
        advice: "Name one at least",
    },
    Row {
        reason: Reason::Record,
        wrong: "A record has a fault",
        advice: "`--ignore-errors` makes cells without a value null",
    },
    Row {
        reason: Reason::LastNumber,
        wrong: "The last number of a row, or of a category, is too large",
        advice: "Give a smaller `--row-offset`, or read the column as `string`",
    },
    Row {
        reason: Reason::OtherPartitions,
        wrong: "The path of a file tells values of other names than that of the first file",
        advice: "Give files whose paths have the same `NAME=` parts, in the same order",
    },
    Row {
        reason: Reason::RepeatedValueName,
        wrong: "A path tells a value of a name that a column or an earlier value has",
        advice: "Read fewer columns by `--columns`, or give `--row-index` another name",
    },
    Row {
        reason: Reason::NoIndex,
        wrong: "The file behind the input is no index",
        advice: "`pl_csv seek build` writes one",
    },
    Row {
        reason: Reason::OtherInput,
        wrong: "The index is that of another input, or the input was changed",
        advice: "Build it anew by `pl_csv seek build`",
    },
    Row {
        reason: Reason::OtherSettings,
        wrong: "The index was built by other options",
        advice: "Give the same separator, quote, line end, comment prefix, header and skips to both",
    },
    Row {
        reason: Reason::OtherPlaces,
        wrong: "The index has a place that no record of the input has",
        advice: "Build it anew by `pl_csv seek build`",
    },
    Row {
        reason: Reason::NoSchema,
        wrong: "A stream needs the names and types of its columns",
        advice: "Give them by `--schema`",
    },
    Row {
        reason: Reason::Categories,
        wrong: "A stream keeps no categories",
        advice: "Read the column as `string`",
    },
    Row {
        reason: Reason::NothingRead,
        wrong: "No column is read",
        advice: "Name one at least",
    },
];

/// What is told of a reason.
pub fn row_of(reason: Reason) -> Option<&'static Row>
    ensures { IfSome result (λ row. row.now.reason ≡ reason) }
{
    for row in &ROWS {
        if row.reason == reason {
            return Some(row);
        }
    }
    None
}

/// What is told of a record's fault.
pub fn row_of_record(kind: FaultKind) -> RecordRow
    ensures { result.kind ≡ kind }
{
    match kind {
        FaultKind::Escape => RecordRow {
            kind: FaultKind::Escape,
            wrong: "the quotes do not close the text",
            advice: "Write a quote within quotes twice; `--quote none` takes quotes as text",
        },
        FaultKind::Utf8 => RecordRow {
            kind: FaultKind::Utf8,
            wrong: "the text is not UTF-8",
            advice: "`--lossy` replaces what is not UTF-8, and `--ignore-errors` makes the cell null",
        },
        FaultKind::Value => RecordRow {
            kind: FaultKind::Value,
            wrong: "the text is no value of the column's type",
            advice: "`--ignore-errors` makes it null; `--schema` can give the column another type",
        },
        FaultKind::Fields => RecordRow {
            kind: FaultKind::Fields,
            wrong: "there are fewer columns",
            advice: "`--truncate` passes over the fields behind the last column",
        },
    }
}
