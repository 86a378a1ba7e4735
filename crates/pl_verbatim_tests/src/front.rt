//! Tests of `pl_verbatim::verbatim`: which rows are found to be written as they were read, and of which what is written stands in their fields. That
//! those that are found are, is proved.
ghost use Rattle.std.specs.Prelude.{◌≡◌, ◌<◌, ℕ, length, slice_index};
ghost use Rattle.pl_cells.specs.NullValues.{HaveTexts};

use pl_cells::init_buffers::first_unreadable;
use pl_cells::null_values::NullValuesCompiled;
use pl_cells::utf8::CsvEncoding;
use pl_frame::data_type::{DataType, TimeUnit};
use pl_frame::name::PlSmallStr;
use pl_frame::schema::Schema;
use pl_rows::plan::{Projection, RangePlan, RowOptions};
use pl_scan::dialect::Dialect;
use pl_verbatim::verbatim::{Verbatim, VerbatimFront};
use pl_write::options::{CsvWriterOptions, QuoteStyle};
use std::alloc::Global;
use std::process::Abort;

// Adds a column of a type.
fn add(rt: &impl Abort, alloc: Global, schema: &mut Schema, name: &str, dtype: &DataType) {
    let name = PlSmallStr::from_str(alloc, name).expect(rt, "a name");
    let dtype = dtype.try_clone().expect(rt, "a type");
    drop(schema.with_column(name, dtype).expect(rt, "a column"));
}

// A schema of two columns of a type.
fn schema(rt: &impl Abort, alloc: Global, dtype: &DataType) -> Schema
    ensures { length result ≡ 2 }
{
    let mut schema = Schema::new(alloc);
    add(rt, alloc, &mut schema, "a", dtype);
    add(rt, alloc, &mut schema, "b", dtype);
    assert!(rt; schema.len() == 2);
    schema
}

// A schema of a column of numbers, one of texts and one of days.
fn three_columns(rt: &impl Abort, alloc: Global) -> Schema
    ensures { length result ≡ 3 }
{
    let mut schema = Schema::new(alloc);
    add(rt, alloc, &mut schema, "a", &DataType::Int64);
    add(rt, alloc, &mut schema, "b", &DataType::String);
    add(rt, alloc, &mut schema, "c", &DataType::Date);
    assert!(rt; schema.len() == 3);
    schema
}

// A test of rows of which the columns at these places are read, where these texts mean null, and which are written by a separator in a style.
fn places_test_of<'a>(
    rt: &impl Abort,
    alloc: Global,
    schema: &Schema,
    places: &'a [usize],
    nulls: Option<&'a NullValuesCompiled>,
    separator: u8,
    style: QuoteStyle,
) -> Verbatim
    requires places { (k : ℕ) → k < length places.now → slice_index places.now k < length schema.now }
    requires texts { HaveTexts nulls (length schema.now) }
{
    let plan = RangePlan {
        dialect: Dialect {
            separator: b',',
            quote_char: Some(b'"'),
            eol_char: b'\n',
            comment_prefix: None,
        },
        projection: Projection {
            places,
            width: schema.len(),
        },
        options: RowOptions {
            null_values: nulls,
            encoding: CsvEncoding::Utf8,
            missing_is_null: true,
            ignore_errors: false,
            truncate_ragged_lines: false,
        },
        limit: None,
        last: true,
    };
    assert!(rt; plan.dialect.is_valid() && plan.projection.is_valid());
    assert!(rt; first_unreadable(places, schema).is_none());
    let mut options = CsvWriterOptions::new(alloc).expect(rt, "options");
    options.serialize_options.separator = separator;
    options.serialize_options.quote_style = style;
    Verbatim::of(alloc, schema, &plan, &options.serialize_options).expect(rt, "memory")
}

// A test of rows with two cells of a type, which are written by a separator.
fn test_of(rt: &impl Abort, alloc: Global, dtype: &DataType, separator: u8) -> Verbatim {
    styled_test_of(rt, alloc, dtype, separator, QuoteStyle::Necessary)
}

// A test of rows with two cells of a type, which are written by a separator in a style.
fn styled_test_of(
    rt: &impl Abort,
    alloc: Global,
    dtype: &DataType,
    separator: u8,
    style: QuoteStyle,
) -> Verbatim {
    let schema = schema(rt, alloc, dtype);
    places_test_of(rt, alloc, &schema, &[0, 1], None, separator, style)
}

// The front of a text of such rows.
fn front(
    rt: &impl Abort,
    alloc: Global,
    dtype: &DataType,
    separator: u8,
    text: &[u8],
) -> VerbatimFront {
    test_of(rt, alloc, dtype, separator).front(text)
}

// Whether a text of such rows is copied to its end as this one.
fn is_copied(rt: &impl Abort, alloc: Global, dtype: &DataType, text: &str, copy: &str) -> bool {
    let mut lines = Vec::new(alloc);
    let copied = test_of(rt, alloc, dtype, b',').copy(text.as_bytes(), 0, &mut lines);
    copied.end == text.len() && lines.as_slice() == copy.as_bytes()
}

// Whether a row with this cell is found, as its first one and as its last one.
fn is_found(rt: &impl Abort, alloc: Global, dtype: &DataType, cell: &str) -> bool {
    let mut text = Vec::new(alloc);
    for part in [cell, ",", cell, "\n"] {
        text.extend_from_slice(part.as_bytes()).expect(rt, "memory");
    }
    let found = front(rt, alloc, dtype, b',', &text);
    found.end == text.len() && found.rows == 1
}

// Whether a row with each of these cells is found.
fn are_found(rt: &impl Abort, alloc: Global, dtype: &DataType, cells: &[&str]) -> bool {
    for cell in cells {
        if !is_found(rt, alloc, dtype, cell) {
            return false;
        }
    }
    true
}

#[test]
fn numbers_and_truth_values_are_found_as_they_are_printed(rt: HostRuntime) {
    let alloc = rt.alloc();
    let cells = ["", "0", "7", "-7", "120", "-120", "123456789012345678"];
    assert!(rt; are_found(&rt, alloc, &DataType::Int64, &cells));
    assert!(rt; are_found(&rt, alloc, &DataType::UInt8, &["99"]));
    let nines = "99999999999999999999999999999999999999";
    assert!(rt; are_found(&rt, alloc, &DataType::Int128, &["0", "-120", nines]));
    assert!(rt; are_found(&rt, alloc, &DataType::Boolean, &["", "true", "false"]));
    let cells = ["", "0.25", "-0.25", "1.50", "-12.00", "1234.56"];
    assert!(rt; are_found(&rt, alloc, &DataType::Decimal(Some(6), Some(2)), &cells));
}

#[test]
fn days_and_moments_are_found_as_they_are_printed(rt: HostRuntime) {
    let alloc = rt.alloc();
    let cells = ["", "2024-02-29", "2000-02-29", "0000-01-01", "9999-12-31"];
    assert!(rt; are_found(&rt, alloc, &DataType::Date, &cells));
    let cells = ["", "2024-02-29T23:59:59.999", "0000-01-01T00:00:00.000"];
    let dtype = DataType::Datetime(TimeUnit::Milliseconds);
    assert!(rt; are_found(&rt, alloc, &dtype, &cells));
    let dtype = DataType::Datetime(TimeUnit::Microseconds);
    assert!(rt; are_found(&rt, alloc, &dtype, &["2024-02-29T23:59:59.123456"]));
}

#[test]
fn texts_are_found_with_quotes_only_where_they_need_them(rt: HostRuntime) {
    let long = "a text of more than thirty-two bytes";
    let quoted = "\"größer, und noch größer\"";
    let cells = [
        "",
        "a",
        long,
        "größer",
        "\"\"",
        "\"a,b\"",
        "\"a\nb\"",
        "\"a\"\"b\"",
        quoted,
    ];
    assert!(rt; are_found(&rt, rt.alloc(), &DataType::String, &cells));
}

#[test]
fn marks_within_cells_end_none(rt: HostRuntime) {
    let alloc = rt.alloc();
    let long =
        "a text that is longer than the sixty-four bytes in which marks are looked for at a time";
    let mut text = Vec::new(alloc);
    let mut copy = Vec::new(alloc);
    for _ in 0..20 {
        for part in ["\"a,b\",\"c\nd\"\n", long, ",1\n2,3\n"] {
            text.extend_from_slice(part.as_bytes())
                .expect(&rt, "memory");
        }
    }
    let found = front(&rt, alloc, &DataType::String, b',', &text);
    assert!(&rt; found.end == text.len() && found.rows == 60);
    copy.extend_from_slice(&text).expect(&rt, "memory");
    text.extend_from_slice(b"\"4\",\"5,6\"\n")
        .expect(&rt, "memory");
    copy.extend_from_slice(b"4,\"5,6\"\n").expect(&rt, "memory");
    let mut lines = Vec::new(alloc);
    let copied = test_of(&rt, alloc, &DataType::String, b',').copy(&text, 0, &mut lines);
    assert!(&rt; copied.end == text.len() && copied.rows == 61);
    assert!(rt; lines.as_slice() == copy.as_slice());
}

#[test]
fn front_ends_before_the_first_row_that_is_written_otherwise(rt: HostRuntime) {
    let text = b"1,2\n-3,\n,\n4,05\n6,7\n";
    let found = front(&rt, rt.alloc(), &DataType::Int64, b',', text);
    assert!(rt; found.end == 10 && found.rows == 3);
}

#[test]
fn what_stands_between_quotes_is_copied_without_those_it_does_not_need(rt: HostRuntime) {
    let alloc = rt.alloc();
    let rows = "\"7\",\"-12\"\n0,\"0\"\n\"7\",\n";
    assert!(rt; is_copied(&rt, alloc, &DataType::Int64, rows, "7,-12\n0,0\n7,\n"));
    let rows = "\"a\",\"größer\"\n\"a,b\",\"a\"\"b\"\n\"\",\"a\nb\"\n";
    let copy = "a,größer\n\"a,b\",\"a\"\"b\"\n\"\",\"a\nb\"\n";
    assert!(rt; is_copied(&rt, alloc, &DataType::String, rows, copy));
    let (rows, copy) = ("\"2024-02-29\",2024-03-01\n", "2024-02-29,2024-03-01\n");
    assert!(rt; is_copied(&rt, alloc, &DataType::Date, rows, copy));
    assert!(rt;
        is_copied(
            &rt,
            alloc,
            &DataType::Boolean,
            "\"true\",false\n",
            "true,false\n"
        )
    );
}

// Whether a text of such rows, written by semicolons in a style, is copied to its end as this one.
fn is_changed(
    rt: &impl Abort,
    alloc: Global,
    dtype: &DataType,
    style: QuoteStyle,
    text: &str,
    copy: &str,
) -> bool {
    let mut lines = Vec::new(alloc);
    let test = styled_test_of(rt, alloc, dtype, b';', style);
    let copied = test.copy(text.as_bytes(), 0, &mut lines);
    copied.end == text.len() && lines.as_slice() == copy.as_bytes()
}

#[test]
fn rows_are_copied_with_another_separator_and_with_quotes_by_style(rt: HostRuntime) {
    let alloc = rt.alloc();
    let rows = "a,\"b,c\"\nd;e,\"f;g\"\n,\"\"\n";
    let copy = "a;b,c\n\"d;e\";\"f;g\"\n;\"\"\n";
    assert!(&rt;
        is_changed(
            &rt,
            alloc,
            &DataType::String,
            QuoteStyle::Necessary,
            rows,
            copy
        )
    );
    let copy = "\"a\";\"b,c\"\n\"d;e\";\"f;g\"\n\"\";\"\"\n";
    assert!(&rt;
        is_changed(
            &rt,
            alloc,
            &DataType::String,
            QuoteStyle::Always,
            rows,
            copy
        )
    );
    let (rows, copy) = ("7,\"-12\"\n,0\n", "7;-12\n;0\n");
    assert!(&rt;
        is_changed(
            &rt,
            alloc,
            &DataType::Int64,
            QuoteStyle::NonNumeric,
            rows,
            copy
        )
    );
    let rows = "2024-02-29T23:59:59,\n";
    let copy = "\"2024-02-29T23:59:59.000\";\n";
    let dtype = DataType::Datetime(TimeUnit::Milliseconds);
    assert!(rt; is_changed(&rt, alloc, &dtype, QuoteStyle::NonNumeric, rows, copy));
}

#[test]
fn front_ends_before_a_cell_that_means_null(rt: HostRuntime) {
    let alloc = rt.alloc();
    let schema = schema(&rt, alloc, &DataType::String);
    let missing = PlSmallStr::from_str(alloc, "NA").expect(&rt, "a text");
    let nulls = NullValuesCompiled::AllColumnsSingle(missing);
    let test = places_test_of(
        &rt,
        alloc,
        &schema,
        &[0, 1],
        Some(&nulls),
        b',',
        QuoteStyle::Necessary,
    );
    let text = b"a,N\nNAN,\nb,NA\n";
    let found = test.front(text);
    assert!(&rt; found.end == 9 && found.rows == 2);
    let mut lines = Vec::new(alloc);
    let copied = test.copy(text, found.end, &mut lines);
    assert!(rt; copied.end == text.len() && lines.as_slice() == b"b,\n".as_slice());
}

// How far the rows of a text are copied of whose three columns those at these places are read, and what is copied of them.
fn copied_of(
    rt: &impl Abort,
    alloc: Global,
    places: &[usize],
    text: &str,
) -> (VerbatimFront, Vec<u8>)
    requires { (k : ℕ) → k < length places.now → slice_index places.now k < 3 }
{
    let schema = three_columns(rt, alloc);
    let style = QuoteStyle::Necessary;
    let test = places_test_of(rt, alloc, &schema, places, None, b',', style);
    let front = test.front(text.as_bytes());
    assert!(rt; front.end == 0 && front.rows == 0);
    let mut lines = Vec::new(alloc);
    (test.copy(text.as_bytes(), 0, &mut lines), lines)
}

#[test]
fn columns_that_are_not_read_are_passed_over(rt: HostRuntime) {
    let alloc = rt.alloc();
    let long = "a text that is longer than thirty-two bytes";
    let text = "7,a,2024-02-29\n\"x,\n\"\"y\",\"b,c\",\n";
    let (copied, lines) = copied_of(&rt, alloc, &[1, 2], text);
    assert!(&rt; copied.end == text.len() && copied.rows == 2);
    assert!(&rt; lines.as_slice() == b"a,2024-02-29\n\"b,c\",\n".as_slice());
    let text = "7,a\"b,2024-02-29\n,\"c,\nd\",\"2024-03-01\"\n";
    let (copied, lines) = copied_of(&rt, alloc, &[0, 2], text);
    assert!(&rt; copied.end == text.len() && copied.rows == 2);
    assert!(&rt; lines.as_slice() == b"7,2024-02-29\n,2024-03-01\n".as_slice());
    let text = "7,a,no day\n,,\"20\"\"24\n\"\n";
    let (copied, lines) = copied_of(&rt, alloc, &[0, 1], text);
    assert!(&rt; copied.end == text.len() && copied.rows == 2);
    assert!(&rt; lines.as_slice() == b"7,a\n,\n".as_slice());
    let text = format!(in alloc; "{long},a,{long}\n\"{long}\",\"b\",\"{long}\"\n").expect(
        &rt, "memory",
    );
    let (copied, lines) = copied_of(&rt, alloc, &[1], &text);
    assert!(&rt; copied.end == text.len() && copied.rows == 2);
    assert!(rt; lines.as_slice() == b"a\nb\n".as_slice());
}

#[test]
fn rows_with_another_number_of_fields_or_an_open_quote_are_not_passed_over(rt: HostRuntime) {
    let alloc = rt.alloc();
    for text in ["7,a\n", "7,a,b,c\n", "7,a,\"b\n", "7,a,\"b\"c\n"] {
        let (copied, lines) = copied_of(&rt, alloc, &[0, 1], text);
        assert!(&rt; copied.end == 0 && copied.rows == 0 && lines.is_empty());
    }
}

// Whether a text of such rows, written by semicolons and quoted where necessary, is copied to its end as this one.
fn is_swapped(rt: &impl Abort, alloc: Global, dtype: &DataType, text: &str, copy: &str) -> bool {
    is_changed(rt, alloc, dtype, QuoteStyle::Necessary, text, copy)
}

#[test]
fn rows_are_copied_with_another_separator_up_to_a_quote_or_that_separator(rt: HostRuntime) {
    let alloc = rt.alloc();
    let rows = "7,-12\n,0\n120,\n";
    assert!(&rt; is_swapped(&rt, alloc, &DataType::Int64, rows, "7;-12\n;0\n120;\n"));
    let (rows, copy) = ("a,b\nc,größer\n\"d\",\"e,f\"\n", "a;b\nc;größer\nd;e,f\n");
    assert!(&rt; is_swapped(&rt, alloc, &DataType::String, rows, copy));
    let (rows, copy) = ("a,b\nc;d,e\nf,g\n", "a;b\n\"c;d\";e\nf;g\n");
    assert!(&rt; is_swapped(&rt, alloc, &DataType::String, rows, copy));
    let rows = "2024-02-29T23:59:59.999,\n,\n2024-02-29T23:59:59,\n,\n";
    let copy = "2024-02-29T23:59:59.999;\n;\n2024-02-29T23:59:59.000;\n;\n";
    let dtype = DataType::Datetime(TimeUnit::Milliseconds);
    assert!(rt; is_swapped(&rt, alloc, &dtype, rows, copy));
}

#[test]
fn cells_that_stand_as_they_are_written_wait_for_one_that_does_not(rt: HostRuntime) {
    let alloc = rt.alloc();
    let mut text = Vec::new(alloc);
    let mut copy = Vec::new(alloc);
    let rows = [
        ("a text,another\n", "a text;another\n"),
        (",\n", ";\n"),
        ("\"quoted, one\",b\n", "quoted, one;b\n"),
        ("c,\"with \"\"quotes\"\"\"\n", "c;\"with \"\"quotes\"\"\"\n"),
        ("d;e,f\n", "\"d;e\";f\n"),
    ];
    for index in 0..6000 {
        // (those that need more than a copy come one by one, and then none for as many as fill the block)
        let count = if index < 2000 || index > 5000 { 5 } else { 2 };
        let (read, written) = rows[index % count];
        text.extend_from_slice(read.as_bytes())
            .expect(&rt, "memory");
        copy.extend_from_slice(written.as_bytes())
            .expect(&rt, "memory");
    }
    let test = styled_test_of(&rt, alloc, &DataType::String, b';', QuoteStyle::Necessary);
    let mut lines = Vec::new(alloc);
    let copied = test.copy(&text, 0, &mut lines);
    assert!(&rt; copied.end == text.len() && copied.rows == 6000);
    assert!(rt; lines == copy);
}
