//! What the fault line says in numbers.
ghost use Rattle.std.specs.Prelude.{◌≡◌, ◌++◌, codes, decimal, IfSome};
ghost use Rattle.pl_csv.specs.Telling.{kind_name};
ghost use Rattle.pl_tell.specs.Lines.{part_front, record_line};

use pl_frame::error::FaultKind;

/// Where a record has a fault, as the fault line says it: all numbers count from 0.
#[derive(Clone, Copy, Debug, PartialEq, Eq)]
pub struct Place {
    /// Of many files, the number of the one with the record.
    pub part: Option<usize>,
    pub row: usize,
    pub column: usize,
    pub kind: FaultKind,
}

// The number that a text is, written as numbers are printed.
fn number_in(text: &str) -> Option<usize>
    ensures { IfSome result (λ number. text.now ≡ decimal number) }
{
    let number = text.parse::<usize>().ok()?;
    let mut digits = itoa::Buffer::new();
    if digits.format(number) == text {
        Some(number)
    } else {
        None
    }
}

// The kind that a word names.
fn kind_in(word: &str) -> Option<FaultKind>
    ensures { IfSome result (λ kind. word.now ≡ kind_name kind) }
{
    match word {
        "escape" => Some(FaultKind::Escape),
        "utf8" => Some(FaultKind::Utf8),
        "value" => Some(FaultKind::Value),
        "fields" => Some(FaultKind::Fields),
        _ => None,
    }
}

// What stands behind the front of a text, where it has that front.
fn behind<'a>(text: &'a str, front: &str) -> Option<&'a str>
    ensures { IfSome result (λ rest. text.now ≡ front.now ++ rest.now) }
{
    text.strip_prefix(front)
}

// What stands before and behind the first mark of a text, where it has one.
fn around<'a>(text: &'a str, mark: &str) -> Option<(&'a str, &'a str)>
    ensures { IfSome result (λ cut. text.now ≡ cut.0.now ++ (mark.now ++ cut.1.now)) }
{
    text.split_once(mark)
}

// The number of a file, and what stands behind it, where a line begins with that.
fn part_in(line: &str) -> Option<(usize, &str)>
    ensures { IfSome result (λ found. line.now ≡ (codes "part " ++ decimal found.0) ++ (codes " " ++ found.1.now)) }
{
    let rest = behind(line, "part ")?;
    let (number, rest) = around(rest, " ")?;
    Some((number_in(number)?, rest))
}

// The row, the column and the kind that a fault line tells behind its name, if it is that of a record.
fn record_in(line: &str) -> Option<(usize, usize, FaultKind)>
    ensures { IfSome result (λ found. line.now ≡ codes "refusal 14 record " ++ (decimal found.0 ++ (codes " column " ++ (decimal found.1 ++ (codes " " ++ kind_name found.2))))) }
{
    let rest = behind(line, "refusal 14 record ")?;
    let (row, rest) = around(rest, " column ")?;
    let (column, kind) = around(rest, " ")?;
    Some((number_in(row)?, number_in(column)?, kind_in(kind)?))
}

/// The place that a fault line tells, if it is that of a record.
pub fn place_in(line: &str) -> Option<Place>
    ensures { IfSome result (λ place. line.now ≡ record_line place) }
{
    let (part, rest) = match part_in(line) {
        Some((part, rest)) => (Some(part), rest),
        None => (None, line),
    };
    let (row, column, kind) = record_in(rest)?;
    Some(Place {
        part,
        row,
        column,
        kind,
    })
}
