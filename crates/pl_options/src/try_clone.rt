//! Values of which an equal one can be made.
ghost use Rattle.std.specs.Prelude.{◌≡◌, IfOk, OnOk, IsOkUnless};
ghost use Rattle.pl_frame.specs.declared.error.PolarsError.TheVariants as error;

use crate::put::put;
use pl_cells::null_values::NullValues;
use pl_frame::data_type::DataType;
use pl_frame::error::{PolarsError, PolarsResult};
use pl_frame::name::PlSmallStr;
use pl_frame::schema::{Field, Schema};
use pl_scan::comment::CommentPrefix;
use std::alloc::Global;

/// What can be copied where there is memory.
pub trait TryClone {
    /// An equal value. Refuses only want of memory.
    fn try_clone(&self) -> PolarsResult<Self>
        ensures equal { IfOk result (λ copy. copy ≡ self.now) }
        ensures refused { IsOkUnless result error.OutOfMemory };
}

/// An equal value, where there is one. Refuses only want of memory.
pub fn copy_optional<T: TryClone>(value: &Option<T>) -> PolarsResult<Option<T>>
    ensures equal { IfOk result (λ copy. copy ≡ value.now) }
    ensures refused { IsOkUnless result error.OutOfMemory }
{
    match value {
        Some(value) => Ok(Some(value.try_clone()?)),
        None => Ok(None),
    }
}

/// Puts an equal value, where there is one, in the place of another. Refuses only want of memory.
pub(crate) fn copy_into<T: TryClone + Drop>(
    value: &Option<T>,
    place: &mut Option<T>,
) -> PolarsResult<()>
    ensures copied { OnOk result (place.new ≡ value.now) }
    ensures refused { IsOkUnless result error.OutOfMemory }
{
    match copy_optional(value) {
        Ok(copy) => {
            put(place, copy);
            Ok(())
        }
        Err(fault) => Err(fault),
    }
}

/// Equal items in order. Refuses only want of memory.
pub fn copy_items<T: TryClone + Drop>(alloc: Global, items: &[T]) -> PolarsResult<Vec<T>>
    ensures equal { IfOk result (λ copies. copies.items ≡ items.now) }
    ensures refused { IsOkUnless result error.OutOfMemory }
{
    let mut copies = Vec::new(alloc);
    for item in items {
        let copy = item.try_clone()?;
        if copies.push(copy).is_err() {
            return Err(PolarsError::OutOfMemory);
        }
    }
    Ok(copies)
}

impl TryClone for usize {
    fn try_clone(&self) -> PolarsResult<usize> {
        Ok(*self)
    }
}

impl TryClone for PlSmallStr {
    fn try_clone(&self) -> PolarsResult<PlSmallStr> {
        PlSmallStr::try_clone(self)
    }
}

impl TryClone for DataType {
    fn try_clone(&self) -> PolarsResult<DataType> {
        DataType::try_clone(self)
    }
}

impl TryClone for Field {
    fn try_clone(&self) -> PolarsResult<Field> {
        Field::try_clone(self)
    }
}

impl TryClone for Schema {
    fn try_clone(&self) -> PolarsResult<Schema> {
        Schema::try_clone(self)
    }
}

impl TryClone for CommentPrefix {
    fn try_clone(&self) -> PolarsResult<CommentPrefix> {
        CommentPrefix::try_clone(self)
    }
}

impl TryClone for NullValues {
    fn try_clone(&self) -> PolarsResult<NullValues> {
        NullValues::try_clone(self)
    }
}
