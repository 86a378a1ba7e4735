//! Tests of `pl_seek::build` and `pl_seek::bind`.

use pl_frame::data_type::DataType;
use pl_frame::error::{NoDataFault, PolarsError};
use pl_frame::name::PlSmallStr;
use pl_frame::schema::Schema;
use pl_options::read_options::CsvReadOptions;
use pl_seek::bind::bind;
use pl_seek::build::build_index;
use pl_seek::fault::SeekFault;
use pl_seek::index::SeekIndex;
use std::alloc::Global;
use std::process::Abort;

// A header and three records.
const INPUT: &[u8; 8] = b"a\n1\n2\n3\n";

// Options with a schema of one column of whole numbers.
pub(crate) fn options(rt: &impl Abort, alloc: Global) -> CsvReadOptions {
    let mut schema = Schema::new(alloc);
    let title = PlSmallStr::from_str(alloc, "a").expect(rt, "a name");
    let added = schema.with_column(title, DataType::Int64);
    drop(added.expect(rt, "a column"));
    CsvReadOptions::new(alloc).with_schema(Some(schema))
}

// The index of the input, whose groups are of two records.
fn index(rt: &impl Abort, alloc: Global) -> SeekIndex {
    let read = options(rt, alloc);
    let index = build_index(alloc, INPUT, &read, 2).expect(rt, "an index");
    drop(read);
    index
}

// The index of the input with another byte at a place.
fn changed(rt: &impl Abort, alloc: Global, place: usize, byte: u8) -> SeekIndex {
    let index = index(rt, alloc);
    let mut bytes = index.to_bytes().expect(rt, "its bytes");
    if let Some(old) = bytes.get_mut(place) {
        *old = byte;
    }
    SeekIndex::from_bytes(alloc, &bytes).expect(rt, "an index")
}

// Why an index is refused, if it is.
fn refused(
    alloc: Global,
    input: &[u8],
    read: &CsvReadOptions,
    index: SeekIndex,
) -> Option<SeekFault> {
    match bind(alloc, input, read, index) {
        Ok(bound) => {
            drop(bound);
            None
        }
        Err(fault) => Some(fault),
    }
}

#[test]
fn the_places_of_each_second_record_are_found(rt: HostRuntime) {
    let index = index(&rt, rt.alloc());
    assert!(rt; index.records() == 3);
    assert!(rt; index.places() == [2, 6].as_slice());
    let bytes = index.to_bytes().expect(&rt, "its bytes");
    assert!(rt; bytes.len() == 110);
}

#[test]
fn an_index_is_bound_to_its_input(rt: HostRuntime) {
    let read = options(&rt, rt.alloc());
    let index = index(&rt, rt.alloc());
    assert!(rt; refused(rt.alloc(), INPUT, &read, index).is_none());
    drop(read);
}

#[test]
fn another_place_and_another_number_of_records_are_refused(rt: HostRuntime) {
    let read = options(&rt, rt.alloc());
    let index = changed(&rt, rt.alloc(), 109, 7);
    let fault = refused(rt.alloc(), INPUT, &read, index);
    assert!(rt; matches!(fault, Some(SeekFault::Places { number: 1 })));
    let index = changed(&rt, rt.alloc(), 93, 4);
    let fault = refused(rt.alloc(), INPUT, &read, index);
    assert!(rt; matches!(fault, Some(SeekFault::Places { number: 2 })));
    drop(read);
}

#[test]
fn another_input_and_other_settings_are_refused(rt: HostRuntime) {
    let read = options(&rt, rt.alloc());
    let other = b"a\nx\n2\n3\n";
    let fault = refused(rt.alloc(), other, &read, index(&rt, rt.alloc()));
    assert!(rt; matches!(fault, Some(SeekFault::Input)));
    let read = read.with_has_header(false);
    let fault = refused(rt.alloc(), INPUT, &read, index(&rt, rt.alloc()));
    assert!(rt; matches!(fault, Some(SeekFault::Settings)));
    drop(read);
}

#[test]
fn wrong_options_are_refused_and_causes_against_the_input(rt: HostRuntime) {
    let read = CsvReadOptions::new(rt.alloc());
    let built = build_index(rt.alloc(), INPUT, &read, 2);
    assert!(rt; matches!(built, Err(SeekFault::Options)));
    drop(read);
    let read = options(&rt, rt.alloc()).with_skip_rows(9);
    let built = build_index(rt.alloc(), INPUT, &read, 2);
    assert!(rt;
        matches!(
            built,
            Err(SeekFault::Polars(PolarsError::NoData(NoDataFault::Skip)))
        )
    );
    drop(read);
}

#[test]
fn a_slice_needs_the_groups_that_it_touches(rt: HostRuntime) {
    let read = options(&rt, rt.alloc());
    let index = index(&rt, rt.alloc());
    let bound = bind(rt.alloc(), INPUT, &read, index).expect(&rt, "a bound input");
    assert!(rt; bound.range(0, 1) == (2, 6));
    assert!(rt; bound.range(2, 1) == (6, 8));
    assert!(rt; bound.range(1, usize::MAX) == (2, 8));
    assert!(rt; bound.range(9, 1) == (8, 8));
    drop(bound);
    drop(read);
}
