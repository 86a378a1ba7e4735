//! Each status of a refusal has a reason, and each reason its own row.

use pl_frame::error::FaultKind;
use pl_tell::fault_line::{Place, place_in};
use pl_tell::reason::{Call, reason_of};
use pl_tell::sentences::{ROWS, row_of};

// How many statuses of a call have a reason with a row.
fn told(call: Call) -> usize {
    let mut count = 0usize;
    for status in 1..=40u8 {
        if let Some(reason) = reason_of(call, status) {
            if row_of(reason).is_some() {
                count = count.saturating_add(1);
            }
        }
    }
    count
}

#[test]
fn each_status_has_a_row(rt: HostRuntime) {
    assert!(rt; told(Call::Convert) == 20);
    assert!(rt; told(Call::Multi) == 23);
    assert!(rt; told(Call::Seek) == 24);
    assert!(rt; told(Call::Stream) == 23);
}

#[test]
fn each_row_is_found_by_its_reason(rt: HostRuntime) {
    for row in &ROWS {
        let found = row_of(row.reason);
        assert!(rt;
            matches!(found, Some(found) if found.wrong == row.wrong && found.advice == row.advice)
        );
        assert!(rt; !row.wrong.is_empty() && !row.advice.is_empty());
    }
}

#[test]
fn the_place_is_read_from_the_fault_line(rt: HostRuntime) {
    let place = Place {
        part: Some(3),
        row: 41,
        column: 2,
        kind: FaultKind::Value,
    };
    assert!(rt; place_in("part 3 refusal 14 record 41 column 2 value") == Some(place));
    assert!(rt; place_in("refusal 14 record 41 column 2 fields").is_some());
    assert!(rt; place_in("refusal 14 record 041 column 2 value") == None);
    assert!(rt; place_in("refusal 9 not found refusal 14 record 1 column 2 value") == None);
}
