//! The fields of a row, from the left.
ghost use Rattle.std.specs.Prelude.{◌≡◌, None, length, drop, MatchResult};
ghost use Rattle.pl_scan.specs.Dialect.{marks_of};
ghost use Rattle.pl_cells.specs.Columns.{field_in};
ghost use Rattle.pl_rows.specs.RowRest.{fields_left, behind_row, IsBehind, IsDone, HasMore};

use crate::row::RowFault;
use pl_frame::error::FaultKind;
use pl_scan::dialect::Dialect;
use pl_scan::fields::field_len;
use pl_scan::items::record_len;

/// How far a row was read.
#[derive(Clone, Copy)]
pub enum RowRest<'a> {
    /// The next field begins here.
    Fields(&'a [u8]),
    /// There are no more fields, and this stands behind the record.
    End(&'a [u8]),
}

// What is left of a row behind one of its fields.
#[inline(always)]
fn behind_field(others: &[u8], separator: u8) -> RowRest<'_>
    ensures { IsBehind separator others.now result }
{
    match others {
        [first, next @ ..] if *first == separator => RowRest::Fields(next),
        _ => RowRest::End(others),
    }
}

/// The next field, or the empty one where there is none, and what is left of the row behind it.
#[inline(always)]
pub fn next_field<'a>(rest: RowRest<'a>, dialect: &Dialect<'_>) -> (&'a [u8], RowRest<'a>)
    ensures field { result.0.now ≡ field_in (fields_left (marks_of dialect.now) rest.entry) 0 }
    ensures left { fields_left (marks_of dialect.now) result.1 ≡ drop 1 (fields_left (marks_of dialect.now) rest.entry) }
    ensures behind { behind_row (marks_of dialect.now) result.1 ≡ behind_row (marks_of dialect.now) rest.entry }
{
    match rest {
        RowRest::End(behind) => (&[], RowRest::End(behind)),
        RowRest::Fields(bytes) => {
            let len = field_len(
                bytes,
                dialect.separator,
                dialect.quote_char,
                dialect.eol_char,
            );
            let (field, others) = bytes.split_at(len);
            (field, behind_field(others, dialect.separator))
        }
    }
}

/// What is left of a row behind so many of its fields.
#[inline(always)]
pub fn pass_fields<'a>(rest: RowRest<'a>, count: usize, dialect: &Dialect<'_>) -> RowRest<'a>
    ensures left { fields_left (marks_of dialect.now) result ≡ drop count (fields_left (marks_of dialect.now) rest.entry) }
    ensures behind { behind_row (marks_of dialect.now) result ≡ behind_row (marks_of dialect.now) rest.entry }
{
    if count == 0 {
        rest
    } else {
        pass_some(rest, count, dialect)
    }
}

// The same in a call of its own, which keeps a row's loop over its columns small: mostly none is passed.
#[inline(never)]
fn pass_some<'a>(rest: RowRest<'a>, count: usize, dialect: &Dialect<'_>) -> RowRest<'a>
    ensures left { fields_left (marks_of dialect.now) result ≡ drop count (fields_left (marks_of dialect.now) rest.entry) }
    ensures behind { behind_row (marks_of dialect.now) result ≡ behind_row (marks_of dialect.now) rest.entry }
{
    let mut left = rest;
    for _ in 0..count {
        let (_, next) = next_field(left, dialect);
        left = next;
    }
    left
}

/// What stands behind a row of which all columns were read. Refuses more fields, save one empty field more where nothing
/// stands behind it.
pub fn finish_row(rest: RowRest<'_>, width: usize) -> Result<&[u8], RowFault>
    ensures done { MatchResult result (λ behind. IsDone rest.entry behind.now) (λ fault. HasMore rest.entry × (fault ≡ RowFault.Record width FaultKind.Fields)) }
{
    match rest {
        RowRest::End(behind) => Ok(behind),
        RowRest::Fields(behind) if behind.is_empty() => Ok(behind),
        RowRest::Fields(_) => Err(RowFault::Record {
            column: width,
            kind: FaultKind::Fields,
        }),
    }
}

/// What stands behind a row, whatever fields are left.
pub fn pass_row<'a>(rest: RowRest<'a>, dialect: &Dialect<'_>) -> &'a [u8]
    ensures { result.now ≡ behind_row (marks_of dialect.now) rest.entry }
{
    match rest {
        RowRest::End(behind) => behind,
        RowRest::Fields(bytes) => {
            let len = record_len(
                bytes,
                dialect.separator,
                dialect.quote_char,
                dialect.eol_char,
            );
            &bytes[len..]
        }
    }
}
