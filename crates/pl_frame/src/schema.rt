//! Schemas: ordered lists of distinct names with types.
ghost use Rattle.std.specs.Prelude.{◌≡◌, ◌≢◌, ◌<◌, ◌++◌, ◌∷◌, [], length, slice_get, None, Some, IfOk, IfErr, OnOk, OnErr, IsOkUnless, IsNone};
ghost use Rattle.std.specs.Cmp.{partial_equiv_from_equiv};
ghost use Rattle.std.specs.Cmp.Lexicographic.{lists_equiv, lists_per, pointwise};
ghost use Rattle.std.specs.Option.{option_map};
ghost use Rattle.pl_frame.specs.declared.error.PolarsError.TheVariants as error;

use crate::data_type::DataType;
use crate::error::{PolarsError, PolarsResult};
use crate::name::PlSmallStr;
use indexmap::IndexSet;
use std::alloc::Global;
use std::marker::Model;
use std::mem;

/// A name with a type.
#[derive(Debug, Drop, PartialEq, Eq)]
pub struct Field {
    pub name: PlSmallStr,
    pub dtype: DataType,
}

impl Field {
    /// An equal name with an equal type. Refuses only want of memory.
    pub fn try_clone(&self) -> PolarsResult<Field>
        ensures equal { IfOk result (λ field. field ≡ self.now) }
        ensures refused { IsOkUnless result error.OutOfMemory }
    {
        Ok(Field {
            name: self.name.try_clone()?,
            dtype: self.dtype.try_clone()?,
        })
    }
}

// Equal fields.
fn copy_fields(alloc: Global, fields: &[Field]) -> PolarsResult<Vec<Field>>
    ensures equal { IfOk result (λ copies. copies.items ≡ fields.now) }
    ensures refused { IsOkUnless result error.OutOfMemory }
{
    let mut copies = Vec::new(alloc);
    for field in fields {
        let copy = field.try_clone()?;
        if copies.push(copy).is_err() {
            return Err(PolarsError::OutOfMemory);
        }
    }
    Ok(copies)
}

/// An ordered list of distinct names with types.
#[derive(Debug, Drop)]
pub struct Schema {
    fields: Vec<Field>,
    places: IndexSet<String>,
}

impl Model for Schema {
    ghost use Rattle.std.specs.Prelude.{◌≡◌, ℕ, List, map, string_bytes};
    ghost use Rattle.pl_frame.specs.declared.data_type.DataType.{DataType};

    ghost Value = { List (List ℕ × DataType) };

    ghost view = { λ schema. map (λ field. (field.name, field.dtype)) schema.fields.items };

    // The names in order are also the keys of a set, which finds them.
    ghost invariant = { λ schema. map string_bytes schema.places.keys ≡ map (λ field. field.name) schema.fields.items };
}

impl Schema {
    ghost use Rattle.pl_frame.specs.Schema.{HaveDistinctNames, place_of, type_at, type_of, with_type, with_type_at};

    /// A schema without names, which takes no memory.
    pub fn new(alloc: Global) -> Self
        ensures { result ≡ [] }
    {
        Schema {
            fields: Vec::new(alloc),
            places: IndexSet::new(alloc),
        }
    }

    /// An equal schema. Refuses only want of memory.
    pub fn try_clone(&self) -> PolarsResult<Schema>
        ensures equal { IfOk result (λ schema. schema ≡ self.now) }
        ensures refused { IsOkUnless result error.OutOfMemory }
    {
        let fields = copy_fields(*self.fields.allocator(), &self.fields)?;
        match self.places.clone() {
            Ok(places) => Ok(Schema { fields, places }),
            Err(_) => Err(PolarsError::OutOfMemory),
        }
    }

    /// The number of names, which are distinct.
    pub fn len(&self) -> usize
        ensures len { result ≡ length self.now }
        ensures distinct { HaveDistinctNames self.now }
    {
        self.places.len()
    }

    /// The name and the type at a place.
    pub fn get_at_index(&self, i: usize) -> Option<(&PlSmallStr, &DataType)>
        ensures { option_map (λ found. (found.0.now, found.1.now)) result ≡ slice_get self.now i }
    {
        let field = self.fields.get(i)?;
        Some((&field.name, &field.dtype))
    }

    /// The name and the type at a place that is below the width.
    pub fn entry(&self, place: usize) -> (&PlSmallStr, &DataType)
        requires { place < length self.now }
        ensures { slice_get self.now place ≡ Some (result.0.now, result.1.now) }
    {
        let field = &self.fields[place];
        (&field.name, &field.dtype)
    }

    /// The place of a name.
    pub fn index_of(&self, name: &str) -> Option<usize>
        ensures { result ≡ place_of name.now self.now }
    {
        self.places.get_index_of(name)
    }

    /// The place of a name. Refuses `ColumnNotFound` exactly where the name is not there, and want of memory for that answer.
    pub fn try_index_of(&self, name: &str) -> PolarsResult<usize>
        ensures found { IfOk result (λ i. place_of name.now self.now ≡ Some i) }
        ensures missing { OnErr result (place_of name.now self.now ≡ None) }
        ensures refused { IfErr result (λ fault. fault ≢ error.OutOfMemory → fault ≡ error.ColumnNotFound name.now) }
    {
        if let Some(place) = self.index_of(name) {
            return Ok(place);
        }
        let name = PlSmallStr::from_str(*self.fields.allocator(), name)?;
        Err(PolarsError::ColumnNotFound(name))
    }

    /// Sets the type under a name, and answers the type that was there. A new name goes last; one that is there keeps its
    /// place. Refuses only want of memory, and then nothing changes.
    pub fn with_column(
        &mut self,
        name: PlSmallStr,
        dtype: DataType,
    ) -> PolarsResult<Option<DataType>>
        ensures old { IfOk result (λ old. old ≡ type_of name self.old) }
        ensures set { OnOk result (self.new ≡ with_type self.old name dtype) }
        ensures added { IfOk result (λ old. IsNone old → self.new ≡ self.old ++ (name, dtype) ∷ []) }
        ensures refused { IsOkUnless result error.OutOfMemory }
        ensures unchanged { OnErr result (self.new ≡ self.old) }
    {
        match self.index_of(name.as_str()) {
            Some(place) => Ok(self.set_dtype_at_index(place, dtype)),
            None => {
                self.push(name, dtype)?;
                Ok(None)
            }
        }
    }

    /// Sets the type at a place, and answers the type that was there; `None` where there is no such place.
    pub fn set_dtype_at_index(&mut self, i: usize, dtype: DataType) -> Option<DataType>
        ensures old { result ≡ type_at self.old i }
        ensures set { self.new ≡ with_type_at self.old i dtype }
    {
        let field = self.fields.get_mut(i)?;
        Some(mem::replace(&mut field.dtype, dtype))
    }

    // A new name goes last.
    fn push(&mut self, name: PlSmallStr, dtype: DataType) -> PolarsResult<()>
        requires { place_of name self.old ≡ None }
        ensures pushed { OnOk result (self.new ≡ self.old ++ (name, dtype) ∷ []) }
        ensures refused { IsOkUnless result error.OutOfMemory }
        ensures unchanged { OnErr result (self.new ≡ self.old) }
    {
        let alloc = *self.fields.allocator();
        let Ok(key) = String::from_str(alloc, name.as_str()) else {
            return Err(PolarsError::OutOfMemory);
        };
        if self.fields.reserve(1).is_err() {
            return Err(PolarsError::OutOfMemory);
        }
        let Ok(_) = self.places.insert(key) else {
            return Err(PolarsError::OutOfMemory);
        };
        self.fields.push_reserved(Field { name, dtype });
        Ok(())
    }
}

// By its names and types in order.
impl PartialEq for Schema {
    ghost use Rattle.pl_frame.specs.Equal.{entries_equal};
    ghost use Rattle.pl_frame.specs.EqualLaws.{entries_equiv};

    ghost eq = { pointwise entries_equal };

    ghost laws = { lists_per (partial_equiv_from_equiv entries_equiv) };

    fn eq(&self, other: &Schema) -> bool {
        self.fields == other.fields
    }
}

impl Eq for Schema {
    ghost use Rattle.pl_frame.specs.EqualLaws.{entries_equiv};

    ghost laws = { lists_equiv entries_equiv };
}
