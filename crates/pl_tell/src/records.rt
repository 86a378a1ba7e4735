//! A record of an input by its number, with its line, and a field of it by its column.
ghost use Rattle.std.specs.Prelude.{◌≡◌, ◌-◌, ◌==◌, length, take, count_by};
ghost use Rattle.pl_frame.specs.Dialect.{AreDistinct};
ghost use Rattle.pl_scan.specs.Dialect.{marks_of, comment_of};
ghost use Rattle.std.specs.Option.{option_copied};
ghost use Rattle.pl_scan.specs.Start.{pass_comments, pass_one};
ghost use Rattle.pl_tell.specs.Records.{from_record, field_at};

use pl_scan::dialect::Dialect;
use pl_scan::fields::SplitFields;
use pl_scan::start::{behind_comments, behind_header};

// What stands behind the comments at the front.
fn pass_comments<'a>(rest: &'a [u8], dialect: &Dialect<'_>) -> &'a [u8]
    ensures { result.now ≡ pass_comments (marks_of dialect.now) (comment_of dialect.now) rest.now }
{
    behind_comments(
        rest,
        dialect.separator,
        dialect.quote_char,
        dialect.eol_char,
        dialect.comment_prefix,
    )
}

// What stands behind the record at the front, with its line end.
fn pass_record<'a>(rest: &'a [u8], dialect: &Dialect<'_>) -> &'a [u8]
    ensures { result.now ≡ pass_one (marks_of dialect.now) (comment_of dialect.now) rest.now }
{
    behind_header(
        rest,
        dialect.separator,
        dialect.quote_char,
        dialect.eol_char,
        dialect.comment_prefix,
        true,
    )
}

/// What is left of records from the one with a number on: those before it, and the comments, are passed.
#[tactic(auto, using(crate::proofs::RecordLaws::from_more))]
pub fn from_record<'a>(records: &'a [u8], number: usize, dialect: &Dialect<'_>) -> &'a [u8]
    ensures { result.now ≡ from_record (marks_of dialect.now) (comment_of dialect.now) number records.now }
{
    let mut rest = pass_comments(records, dialect);
    for _turn in 0..number {
        rest = pass_comments(pass_record(rest, dialect), dialect);
    }
    rest
}

/// How many line ends an input has before its last so many bytes.
pub fn line_ends_before(input: &[u8], left: usize, eol_char: u8) -> usize
    ensures { result ≡ count_by (λ byte. byte == eol_char) (take (length input.now - left) input.now) }
{
    let front = &input[..input.len().saturating_sub(left)];
    front.iter().filter(|byte| **byte == eol_char).count()
}

/// The field in a column of the record at the front of bytes; none where it has fewer fields.
pub fn field_at<'a>(bytes: &'a [u8], column: usize, dialect: &Dialect<'_>) -> Option<&'a [u8]>
    requires { AreDistinct (marks_of dialect.now) }
    ensures { option_copied result ≡ field_at (marks_of dialect.now) column bytes.now }
{
    let mut fields = SplitFields::new(
        bytes,
        dialect.separator,
        dialect.quote_char,
        dialect.eol_char,
    );
    match fields.nth(column) {
        Some((field, _)) => Some(field),
        None => None,
    }
}
