//! What several tests are given: names, and columns of numbers.
ghost use Rattle.pl_frame.specs.declared.data_type.DataType.TheVariants.{Int64};
ghost use Rattle.std.specs.Prelude.{◌≡◌};

use pl_frame::column::Column;
use pl_frame::name::PlSmallStr;
use pl_frame::numbers::Numbers;
use std::alloc::Global;
use std::process::Abort;

// The name of a text.
pub fn name(rt: &impl Abort, alloc: Global, text: &str) -> PlSmallStr {
    PlSmallStr::from_str(alloc, text).expect(rt, "a name")
}

// The names of texts, in order.
pub fn names(rt: &impl Abort, alloc: Global, texts: &[&str]) -> Vec<PlSmallStr> {
    let mut names = Vec::new(alloc);
    for text in texts {
        names.push(name(rt, alloc, text)).expect(rt, "a name");
    }
    names
}

// A column of numbers.
pub fn numbers(rt: &impl Abort, alloc: Global, text: &str, values: &[i64]) -> Column
    ensures { result.dtype ≡ Int64 }
{
    let mut numbers = Numbers::new(alloc);
    for value in values {
        numbers.push(*value).expect(rt, "a number");
    }
    Column::from_int64(name(rt, alloc, text), numbers)
}
