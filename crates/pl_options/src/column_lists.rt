//! Lists that options hold.
ghost use Rattle.std.specs.Prelude.{◌≡◌, nat_eq, IfOk, IsOkUnless};
ghost use Rattle.std.specs.Cmp.{nat_eq_equiv, partial_equiv_from_equiv};
ghost use Rattle.std.specs.Cmp.Lexicographic.{lists_equiv, lists_per, nat_list_eq_equiv, pointwise};
ghost use Rattle.std.specs.Str.{bytes_eq};
ghost use Rattle.pl_frame.specs.Equal.{types_equal};
ghost use Rattle.pl_frame.specs.EqualLaws.{types_equiv};
ghost use Rattle.pl_frame.specs.declared.error.PolarsError.TheVariants as error;
ghost use Rattle.pl_options.specs.ColumnLists.{fields_equal, fields_equiv};

use crate::try_clone::{TryClone, copy_items};
use pl_frame::data_type::DataType;
use pl_frame::error::PolarsResult;
use pl_frame::name::PlSmallStr;
use pl_frame::schema::Field;
use std::marker::Model;

/// Names of columns in order. Contracts see the list of their bytes.
#[derive(Debug, Drop)]
pub struct ColumnNames {
    names: Vec<PlSmallStr>,
}

impl Model for ColumnNames {
    ghost use Rattle.std.specs.Prelude.{ℕ, List};

    ghost Value = { List (List ℕ) };

    ghost view = { λ list. list.names.items };
}

// By its names in order.
impl PartialEq for ColumnNames {
    ghost eq = { pointwise bytes_eq };

    ghost laws = { lists_per (partial_equiv_from_equiv nat_list_eq_equiv) };

    fn eq(&self, other: &ColumnNames) -> bool {
        self.names == other.names
    }
}

impl Eq for ColumnNames {
    ghost laws = { lists_equiv nat_list_eq_equiv };
}

impl ColumnNames {
    /// These names, without taking memory.
    pub fn new(names: Vec<PlSmallStr>) -> Self
        ensures { result ≡ names.items }
    {
        ColumnNames { names }
    }

    /// The names again, without taking memory.
    pub fn into_names(self) -> Vec<PlSmallStr>
        ensures { result.items ≡ self }
    {
        self.names
    }

    /// The names in order, without taking memory.
    pub fn names(&self) -> &[PlSmallStr]
        ensures { result.now ≡ self.now }
    {
        &self.names
    }

    /// Equal names. Refuses only want of memory.
    pub fn try_clone(&self) -> PolarsResult<ColumnNames>
        ensures equal { IfOk result (λ copy. copy ≡ self.now) }
        ensures refused { IsOkUnless result error.OutOfMemory }
    {
        let names = copy_items(*self.names.allocator(), &self.names)?;
        Ok(ColumnNames { names })
    }
}

impl TryClone for ColumnNames {
    fn try_clone(&self) -> PolarsResult<ColumnNames> {
        ColumnNames::try_clone(self)
    }
}

/// Places of columns in order, counted from 0. Contracts see the list of them.
#[derive(Debug, Drop)]
pub struct ColumnPlaces {
    places: Vec<usize>,
}

impl Model for ColumnPlaces {
    ghost use Rattle.std.specs.Prelude.{ℕ, List};

    ghost Value = { List ℕ };

    ghost view = { λ list. list.places.items };
}

// By its places in order.
impl PartialEq for ColumnPlaces {
    ghost eq = { pointwise nat_eq };

    ghost laws = { lists_per (partial_equiv_from_equiv nat_eq_equiv) };

    fn eq(&self, other: &ColumnPlaces) -> bool {
        self.places == other.places
    }
}

impl Eq for ColumnPlaces {
    ghost laws = { lists_equiv nat_eq_equiv };
}

impl ColumnPlaces {
    /// These places, without taking memory.
    pub fn new(places: Vec<usize>) -> Self
        ensures { result ≡ places.items }
    {
        ColumnPlaces { places }
    }

    /// The places again, without taking memory.
    pub fn into_places(self) -> Vec<usize>
        ensures { result.items ≡ self }
    {
        self.places
    }

    /// The places in order, without taking memory.
    pub fn places(&self) -> &[usize]
        ensures { result.now ≡ self.now }
    {
        &self.places
    }

    /// Equal places. Refuses only want of memory.
    pub fn try_clone(&self) -> PolarsResult<ColumnPlaces>
        ensures equal { IfOk result (λ copy. copy ≡ self.now) }
        ensures refused { IsOkUnless result error.OutOfMemory }
    {
        let places = copy_items(*self.places.allocator(), &self.places)?;
        Ok(ColumnPlaces { places })
    }
}

impl TryClone for ColumnPlaces {
    fn try_clone(&self) -> PolarsResult<ColumnPlaces> {
        ColumnPlaces::try_clone(self)
    }
}

/// Types of columns in order. Contracts see the list of them.
#[derive(Debug, Drop)]
pub struct DataTypes {
    dtypes: Vec<DataType>,
}

impl Model for DataTypes {
    ghost use Rattle.std.specs.Prelude.{List};
    ghost use Rattle.pl_frame.specs.declared.data_type.DataType.{DataType};

    ghost Value = { List DataType };

    ghost view = { λ list. list.dtypes.items };
}

// By its dtypes in order.
impl PartialEq for DataTypes {
    ghost eq = { pointwise types_equal };

    ghost laws = { lists_per (partial_equiv_from_equiv types_equiv) };

    fn eq(&self, other: &DataTypes) -> bool {
        self.dtypes == other.dtypes
    }
}

impl Eq for DataTypes {
    ghost laws = { lists_equiv types_equiv };
}

impl DataTypes {
    /// These types, without taking memory.
    pub fn new(dtypes: Vec<DataType>) -> Self
        ensures { result ≡ dtypes.items }
    {
        DataTypes { dtypes }
    }

    /// The types again, without taking memory.
    pub fn into_dtypes(self) -> Vec<DataType>
        ensures { result.items ≡ self }
    {
        self.dtypes
    }

    /// The types in order, without taking memory.
    pub fn dtypes(&self) -> &[DataType]
        ensures { result.now ≡ self.now }
    {
        &self.dtypes
    }

    /// Equal types. Refuses only want of memory.
    pub fn try_clone(&self) -> PolarsResult<DataTypes>
        ensures equal { IfOk result (λ copy. copy ≡ self.now) }
        ensures refused { IsOkUnless result error.OutOfMemory }
    {
        let dtypes = copy_items(*self.dtypes.allocator(), &self.dtypes)?;
        Ok(DataTypes { dtypes })
    }
}

impl TryClone for DataTypes {
    fn try_clone(&self) -> PolarsResult<DataTypes> {
        DataTypes::try_clone(self)
    }
}

/// Names with types in order, perhaps with repeats. Contracts see the list of them.
#[derive(Debug, Drop)]
pub struct Fields {
    fields: Vec<Field>,
}

impl Model for Fields {
    ghost use Rattle.std.specs.Prelude.{List};
    ghost use Rattle.pl_frame.specs.declared.schema.Field.{Field};

    ghost Value = { List Field };

    ghost view = { λ list. list.fields.items };
}

// By its fields in order.
impl PartialEq for Fields {
    ghost eq = { pointwise fields_equal };

    ghost laws = { lists_per (partial_equiv_from_equiv fields_equiv) };

    fn eq(&self, other: &Fields) -> bool {
        self.fields == other.fields
    }
}

impl Eq for Fields {
    ghost laws = { lists_equiv fields_equiv };
}

impl Fields {
    /// These names with types, without taking memory.
    pub fn new(fields: Vec<Field>) -> Self
        ensures { result ≡ fields.items }
    {
        Fields { fields }
    }

    /// The names with types again, without taking memory.
    pub fn into_fields(self) -> Vec<Field>
        ensures { result.items ≡ self }
    {
        self.fields
    }

    /// The names with types in order, without taking memory.
    pub fn fields(&self) -> &[Field]
        ensures { result.now ≡ self.now }
    {
        &self.fields
    }

    /// Equal names with equal types. Refuses only want of memory.
    pub fn try_clone(&self) -> PolarsResult<Fields>
        ensures equal { IfOk result (λ copy. copy ≡ self.now) }
        ensures refused { IsOkUnless result error.OutOfMemory }
    {
        let fields = copy_items(*self.fields.allocator(), &self.fields)?;
        Ok(Fields { fields })
    }
}
