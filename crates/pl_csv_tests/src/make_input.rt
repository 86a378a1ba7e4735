//! Inputs that are made.

use pl_csv::make_input::make_input;

// Four rows, the last one with a name between quotes.
const FOUR: &str =
    "id,name,day,amount\n0,p0,2020-01-01,0.25\n1,p1,2020-01-02,1.25\n2,p2,2020-01-03,2.25\n3,\"a\"\"b,\nc\",2020-01-04,3.25\n";

#[test]
fn four_rows(rt: HostRuntime) {
    let made = make_input(rt.alloc(), 4);
    assert!(rt; matches!(&made, Ok(bytes) if bytes.as_slice() == FOUR.as_bytes()));
    drop(made);
}
