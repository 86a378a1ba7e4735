//! What the fields of columns show of their types.
ghost use Rattle.std.specs.Prelude.{◌≡◌, ◌==◌, suc, count_by, length};
ghost use Rattle.pl_frame.specs.Dialect.{AreDistinct};
ghost use Rattle.pl_cells.specs.NullValues.{HaveTexts};
ghost use Rattle.pl_scan.specs.Dialect.{marks_of};
ghost use Rattle.pl_infer.specs.Evidence.{shown_type, evidence_of};
ghost use Rattle.pl_infer.specs.Sample.{is_long_text};
ghost use Rattle.pl_infer.specs.SampleSteps.{null_test_in, with_type, with_field, with_record};

use crate::field_types::field_type;
use pl_cells::null_test::is_null;
use pl_cells::null_values::NullValuesCompiled;
use pl_cells::quoting::{between_quotes, quote_of, without_return};
use pl_frame::data_type::DataType;
use pl_scan::dialect::Dialect;
use pl_scan::fields::SplitFields;

/// What fields are judged by.
#[derive(Clone, Copy)]
pub struct EvidenceRules<'a> {
    pub dialect: Dialect<'a>,
    /// Which texts mean null in each column, where there are such.
    pub null_values: Option<&'a NullValuesCompiled>,
    /// Whether dates, times and datetimes are tried.
    pub dates: bool,
}

/// The types that the fields of a column showed.
#[derive(Debug, Drop)]
pub(crate) enum ShownTypes {
    Nothing,
    One(DataType),
    Several,
}

/// What is known of a column by its fields so far.
#[derive(Debug, Drop)]
pub(crate) struct Seen {
    pub types: ShownTypes,
    /// Whether a quoted text has more than eight line ends.
    pub has_long_text: bool,
}

// The type that a field gives which is neither empty nor null, given the quote that it begins with.
fn shown_type(text: &[u8], quote: Option<u8>, dates: bool) -> DataType
    ensures { result ≡ shown_type dates quote text.now }
{
    match quote {
        None => field_type(text, dates),
        Some(quote) => match between_quotes(text, quote) {
            Some(inside) => field_type(inside, dates),
            None => DataType::String,
        },
    }
}

// The evidence that a field gives of the type of its column: none where it is empty or means null.
fn evidence_of(field: &[u8], column: usize, rules: &EvidenceRules<'_>) -> Option<DataType>
    requires { HaveTexts rules.now.null_values (suc column) }
    ensures { result ≡ evidence_of rules.now.dates (null_test_in rules.now column) rules.now.dialect.quote_char field.now }
{
    let text = without_return(field);
    let quote = quote_of(field, rules.dialect.quote_char);
    if text.is_empty() || is_null(rules.null_values, text, column, quote) {
        return None;
    }
    Some(shown_type(text, quote, rules.dates))
}

// How often a byte stands in a text.
fn count_byte(text: &[u8], byte: u8) -> usize
    ensures { result ≡ count_by (λ x. x == byte) text.now }
{
    let mut count = 0;
    for x in text {
        if *x == byte {
            count += 1;
        }
    }
    count
}

// Whether a field is quoted, shows a string, and has more than eight line ends.
fn is_long_text(field: &[u8], shown: &Option<DataType>, dialect: &Dialect<'_>) -> bool
    ensures { result ≡ is_long_text (marks_of dialect.now) shown.now field.now }
{
    quote_of(field, dialect.quote_char).is_some()
        && matches!(shown, Some(DataType::String))
        && 8 < count_byte(field, dialect.eol_char)
}

// Adds a type to those that were shown.
fn add_type(types: &mut ShownTypes, dtype: DataType)
    ensures { types.new ≡ with_type types.old dtype }
{
    match types {
        ShownTypes::Nothing => *types = ShownTypes::One(dtype),
        ShownTypes::One(first) => {
            if *first != dtype {
                *types = ShownTypes::Several;
            }
        }
        ShownTypes::Several => {}
    }
}

// Adds what a field of a column shows.
fn add_field(seen: &mut Seen, field: &[u8], column: usize, rules: &EvidenceRules<'_>)
    requires { HaveTexts rules.now.null_values (suc column) }
    ensures { seen.new ≡ with_field rules.now column seen.old field.now }
{
    let evidence = evidence_of(field, column, rules);
    if is_long_text(field, &evidence, &rules.dialect) {
        seen.has_long_text = true;
    }
    if let Some(dtype) = evidence {
        add_type(&mut seen.types, dtype);
    }
}

/// Adds what the fields of a record show of their columns, without taking memory.
pub(crate) fn add_record(columns: &mut [Seen], bytes: &[u8], rules: &EvidenceRules<'_>)
    requires apart { AreDistinct (marks_of rules.now.dialect) }
    requires texts { HaveTexts rules.now.null_values (length columns.old) }
    ensures { columns.new ≡ with_record rules.now columns.old bytes.now }
{
    let dialect = rules.dialect;
    let mut fields = SplitFields::new(
        bytes,
        dialect.separator,
        dialect.quote_char,
        dialect.eol_char,
    );
    for (column, seen) in columns.iter_mut().enumerate() {
        let Some((field, _)) = fields.next() else {
            return;
        };
        add_field(seen, field, column, rules);
    }
}
