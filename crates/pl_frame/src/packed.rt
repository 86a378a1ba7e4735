//! Columns in no more memory than their values need.
ghost use Rattle.std.specs.Prelude.{◌≡◌, true, IfOk};
ghost use Rattle.pl_frame.specs.Columns.{truth_cells, number_cells, text_cells, is_number, HoldsType};

use crate::column::Column;
use crate::data_type::DataType;
use crate::name::PlSmallStr;
use crate::numbers::Numbers;
use crate::packed_numbers::{pack_narrow, pack_wide};
use crate::packed_texts::pack_texts;
use crate::part::Part;
use crate::texts::Texts;
use std::alloc::{AllocError, Global};

impl Column {
    /// A column of type `Boolean` with these values, in no more memory than they need. Refuses only want of memory.
    pub fn packed_booleans(
        alloc: Global,
        name: PlSmallStr,
        truths: &Numbers<bool>,
    ) -> Result<Column, AllocError>
        ensures { IfOk result (λ column. column ≡ record { name = name; dtype = DataType.Boolean; values = truth_cells truths.now }) }
    {
        let part = Part::Boolean(truths.try_clone()?);
        Ok(Column::of_part(name, DataType::Boolean, part))
    }

    /// A column of a type of numbers with these numbers, in no more memory than they need. They are in the range of the
    /// type. Refuses only want of memory.
    pub fn packed_narrow(
        alloc: Global,
        name: PlSmallStr,
        dtype: DataType,
        numbers: &Numbers<i64>,
    ) -> Result<Column, AllocError>
        requires kind { is_number dtype ≡ true }
        requires held { HoldsType dtype (number_cells numbers.now) }
        ensures { IfOk result (λ column. column ≡ record { name = name; dtype = dtype; values = number_cells numbers.now }) }
    {
        let part = pack_narrow(alloc, numbers)?;
        Ok(Column::of_part(name, dtype, part))
    }

    /// A column of a type of numbers with these numbers, in no more memory than they need. They are in the range of the
    /// type. Refuses only want of memory.
    pub fn packed_wide(
        alloc: Global,
        name: PlSmallStr,
        dtype: DataType,
        numbers: &Numbers<i128>,
    ) -> Result<Column, AllocError>
        requires kind { is_number dtype ≡ true }
        requires held { HoldsType dtype (number_cells numbers.now) }
        ensures { IfOk result (λ column. column ≡ record { name = name; dtype = dtype; values = number_cells numbers.now }) }
    {
        let part = pack_wide(alloc, numbers)?;
        Ok(Column::of_part(name, dtype, part))
    }

    /// A column of type `String` with these texts, in no more memory than they need. Refuses only want of memory.
    pub fn packed_string(
        alloc: Global,
        name: PlSmallStr,
        texts: &Texts,
    ) -> Result<Column, AllocError>
        ensures column { IfOk result (λ column. column ≡ record { name = name; dtype = DataType.String; values = text_cells texts.now }) }
        ensures held { HoldsType DataType.String (text_cells texts.now) }
    {
        // `len` is called for its clause that the texts are UTF-8.
        let _len = texts.len();
        let part = pack_texts(alloc, texts)?;
        Ok(Column::of_part(name, DataType::String, part))
    }
}
