//! The types of columns by the sample of an input.
ghost use Rattle.std.specs.Prelude.{◌≡◌, ◌<◌, ◌≤◌, ◌++◌, ◌∷◌, [], length, drop, map, IfOk, OnOk, IsOkUnless};
ghost use Rattle.std.specs.List.{filter_map, list_any};
ghost use Rattle.pl_frame.specs.Dialect.{AreDistinct};
ghost use Rattle.pl_frame.specs.declared.error.PolarsError.TheVariants as error;
ghost use Rattle.pl_cells.specs.NullValues.{HaveTexts};
ghost use Rattle.pl_scan.specs.Dialect.{marks_of, comment_of};
ghost use Rattle.pl_scan.specs.Items.{item, item_text, text_of, record_text};
ghost use Rattle.pl_infer.specs.Sample.{bytes_of_items};
ghost use Rattle.pl_infer.specs.SampleSteps.{column_types, have_long_text, sample_in, unseen, type_seen, one_less, may_go_on, with_item, with_records};

use crate::evidence::{EvidenceRules, Seen, ShownTypes, add_record};
use pl_frame::data_type::DataType;
use pl_frame::error::{PolarsError, PolarsResult};
use pl_options::column_lists::DataTypes;
use pl_scan::dialect::Dialect;
use pl_scan::items::{Item, Items};
use std::alloc::Global;

/// What a sample shows.
#[derive(Debug, Drop)]
pub struct Sample {
    /// The type of each column.
    pub types: DataTypes,
    /// The number of sampled items.
    pub items: usize,
    /// The number of bytes before the place just behind the last of them; 0 where there are none.
    pub bytes: usize,
    /// Whether a quoted text of a column has more than eight line ends.
    pub has_long_text: bool,
}

/// How far a sample goes.
#[derive(Clone, Copy)]
struct Extent {
    items: usize,
    bytes: usize,
}

// Whether another item is sampled, where so many may follow.
fn may_go_on(left: Option<usize>) -> bool
    ensures { result ≡ may_go_on left }
{
    match left {
        Some(left) => 0 < left,
        None => true,
    }
}

// How many items may follow the next.
fn one_less(left: Option<usize>) -> Option<usize>
    ensures { result ≡ one_less left }
{
    match left {
        Some(left) => Some(left.saturating_sub(1)),
        None => None,
    }
}

// The item at the front.
fn first_item<'a>(bytes: &'a [u8], dialect: &Dialect<'a>) -> Item<'a>
    requires { 0 < length bytes.now }
    ensures { item_text result ≡ item (marks_of dialect.now) (comment_of dialect.now) bytes.now }
{
    let mut items = Items::new(
        bytes,
        dialect.separator,
        dialect.quote_char,
        dialect.eol_char,
        dialect.comment_prefix,
    );
    match items.next() {
        Some(item) => item,
        None => unreachable!(),
    }
}

// The number of bytes of an item.
fn item_len(item: Item<'_>) -> usize
    ensures { result ≡ length (text_of (item_text item.entry)) }
{
    match item {
        Item::Comment(text) => text.len(),
        Item::Record(text) => text.len(),
    }
}

// Adds what an item shows of the columns.
fn add_item(columns: &mut [Seen], item: Item<'_>, rules: &EvidenceRules<'_>)
    requires apart { AreDistinct (marks_of rules.now.dialect) }
    requires texts { HaveTexts rules.now.null_values (length columns.old) }
    ensures { columns.new ≡ with_item rules.now columns.old (item_text item.entry) }
{
    match item {
        Item::Comment(_) => {}
        Item::Record(text) => add_record(columns, text, rules),
    }
}

// What stands behind a line end at the front.
fn behind_line_end(bytes: &[u8]) -> &[u8]
    ensures { result.now ≡ drop 1 bytes.now }
{
    match bytes {
        [_, behind @ ..] => behind,
        [] => bytes,
    }
}

// Adds what the first items show of the columns, at most so many where there is a limit, without taking memory.
fn add_items(
    columns: &mut [Seen],
    bytes: &[u8],
    limit: Option<usize>,
    rules: &EvidenceRules<'_>,
) -> Extent
    requires apart { AreDistinct (marks_of rules.now.dialect) }
    requires texts { HaveTexts rules.now.null_values (length columns.old) }
    ensures columns { columns.new ≡ with_records rules.now columns.old (filter_map record_text (sample_in rules.now limit bytes.now)) }
    ensures items { result.items ≡ length (sample_in rules.now limit bytes.now) }
    ensures bytes { result.bytes ≡ bytes_of_items (marks_of rules.now.dialect) (comment_of rules.now.dialect) result.items bytes.now }
{
    let mut rest = bytes;
    let mut behind = bytes;
    let mut left = limit;
    let mut items = 0;
    while !rest.is_empty() && may_go_on(left) {
        let item = first_item(rest, &rules.dialect);
        add_item(columns, item, rules);
        behind = &rest[item_len(item)..];
        rest = behind_line_end(behind);
        left = one_less(left);
        items += 1;
    }
    Extent {
        items,
        bytes: bytes.len() - behind.len(),
    }
}

// Puts something at the end. Refuses only want of memory.
fn push<T: Drop>(items: &mut Vec<T>, item: T) -> PolarsResult<()>
    ensures pushed { OnOk result (items.new.items ≡ items.old.items ++ item ∷ []) }
    ensures refused { IsOkUnless result error.OutOfMemory }
{
    match items.push(item) {
        Ok(()) => Ok(()),
        Err(_) => Err(PolarsError::OutOfMemory),
    }
}

// So many columns of which nothing is known. Refuses only want of memory.
fn unseen(alloc: Global, width: usize) -> PolarsResult<Vec<Seen>>
    ensures unseen { IfOk result (λ columns. columns.items ≡ unseen width) }
    ensures refused { IsOkUnless result error.OutOfMemory }
{
    let mut columns = Vec::new(alloc);
    for _column in 0..width {
        let column = Seen {
            types: ShownTypes::Nothing,
            has_long_text: false,
        };
        push(&mut columns, column)?;
    }
    Ok(columns)
}

// The type of a column of which these types were seen.
fn type_seen(types: ShownTypes) -> DataType
    ensures { result ≡ type_seen types }
{
    match types {
        ShownTypes::One(dtype) => dtype,
        _ => DataType::String,
    }
}

// The types of columns. Refuses only want of memory.
fn types_seen(alloc: Global, columns: Vec<Seen>) -> PolarsResult<DataTypes>
    ensures types { IfOk result (λ types. types ≡ map (λ column. type_seen column.types) columns.items) }
    ensures refused { IsOkUnless result error.OutOfMemory }
{
    let mut types = Vec::new(alloc);
    for column in columns {
        push(&mut types, type_seen(column.types))?;
    }
    Ok(DataTypes::new(types))
}

// Whether one of the columns has a long text.
fn any_has_long_text(columns: &[Seen]) -> bool
    ensures { result ≡ list_any (λ column. column.has_long_text) columns.now }
{
    columns.iter().any(|column| column.has_long_text)
}

/// What the sample of a text shows of so many columns: its first items, or all where there is no limit; comments and blank
/// records count. Refuses only want of memory.
pub fn take_sample(
    alloc: Global,
    bytes: &[u8],
    limit: Option<usize>,
    width: usize,
    rules: &EvidenceRules<'_>,
) -> PolarsResult<Sample>
    requires apart { AreDistinct (marks_of rules.now.dialect) }
    requires texts { HaveTexts rules.now.null_values width }
    ensures types { IfOk result (λ sample. sample.types ≡ column_types rules.now width (sample_in rules.now limit bytes.now)) }
    ensures items { IfOk result (λ sample. sample.items ≡ length (sample_in rules.now limit bytes.now)) }
    ensures bytes { IfOk result (λ sample. sample.bytes ≡ bytes_of_items (marks_of rules.now.dialect) (comment_of rules.now.dialect) sample.items bytes.now) }
    ensures long { IfOk result (λ sample. sample.has_long_text ≡ have_long_text rules.now width (sample_in rules.now limit bytes.now)) }
    ensures refused { IsOkUnless result error.OutOfMemory }
{
    let mut columns = unseen(alloc, width)?;
    let extent = add_items(&mut columns, bytes, limit, rules);
    let has_long_text = any_has_long_text(&columns);
    Ok(Sample {
        types: types_seen(alloc, columns)?,
        items: extent.items,
        bytes: extent.bytes,
        has_long_text,
    })
}
