//! Runs of cells of a part, put behind others that are gathered.
ghost use Rattle.std.specs.Prelude.{◌≡◌, ◌<◌, ◌≤◌, ◌+◌, ◌-◌, ◌++◌, true, false, length, take, drop, replicate, None, OnOk};
ghost use Rattle.pl_frame.specs.Columns.{truth_cells, number_cells, text_cells, is_number, is_coded, HoldsType};
ghost use Rattle.pl_frame.specs.GatheredCells.{cells_so_far, is_narrow_type, GathersType, SuitsType};
ghost use Rattle.pl_frame.specs.Parts.{part_cells};

use crate::cast::{push_option, push_text};
use crate::constructors::push_narrow;
use crate::data_type::DataType;
use crate::gathered::{Gathered, truth_in, whole_in};
use crate::numbers::Numbers;
use crate::part::Part;
use crate::texts::Texts;
use std::alloc::AllocError;

impl Gathered {
    // Puts the cells of a part from one row up to another at the end. Refuses only want of memory.
    pub(crate) fn push_run(
        &mut self,
        dtype: &DataType,
        part: &Part,
        from: usize,
        to: usize,
    ) -> Result<(), AllocError>
        requires suits { SuitsType dtype.now self.old }
        requires coded { is_coded dtype.now ≡ false }
        requires held { HoldsType dtype.now (part_cells part.now) }
        requires rows { (from ≤ to) × (to ≤ length (part_cells part.now)) }
        ensures suits { OnOk result (SuitsType dtype.now self.new) }
        ensures cells { OnOk result (cells_so_far dtype.now self.new ≡ cells_so_far dtype.now self.old ++ take (to - from) (drop from (part_cells part.now))) }
    {
        self.push_part(dtype, part, from, to)?;
        Ok(())
    }

    // The same, in the way of each kind.
    fn push_part(
        &mut self,
        dtype: &DataType,
        part: &Part,
        from: usize,
        to: usize,
    ) -> Result<(), AllocError>
        requires suits { SuitsType dtype.now self.old }
        requires coded { is_coded dtype.now ≡ false }
        requires held { HoldsType dtype.now (part_cells part.now) }
        requires rows { (from ≤ to) × (to ≤ length (part_cells part.now)) }
        ensures way { OnOk result (GathersType dtype.now self.new) }
        ensures cells { OnOk result (cells_so_far dtype.now self.new ≡ cells_so_far dtype.now self.old ++ take (to - from) (drop from (part_cells part.now))) }
    {
        match self {
            Gathered::Boolean(truths) => push_truths(truths, part, from, to),
            Gathered::Narrow(numbers) => push_narrows(numbers, dtype, part, from, to),
            Gathered::Wide(numbers) => push_wides(numbers, dtype, part, from, to),
            Gathered::String(texts) => push_texts(texts, part, from, to),
            Gathered::Null(len) => push_nulls(len, part, from, to),
            Gathered::Categories(_) | Gathered::Enum(_) => unreachable!(),
        }
    }
}

fn push_truths(
    truths: &mut Numbers<bool>,
    part: &Part,
    from: usize,
    to: usize,
) -> Result<(), AllocError>
    requires held { HoldsType DataType.Boolean (part_cells part.now) }
    requires rows { (from ≤ to) × (to ≤ length (part_cells part.now)) }
    ensures { OnOk result (truth_cells truths.new ≡ truth_cells truths.old ++ take (to - from) (drop from (part_cells part.now))) }
{
    if let Part::Boolean(more) = part {
        return truths.append_range(more, from, to);
    }
    for row in from..to {
        push_option(truths, truth_in(part.get(row)))?;
    }
    Ok(())
}

fn push_narrows(
    numbers: &mut Numbers<i64>,
    dtype: &DataType,
    part: &Part,
    from: usize,
    to: usize,
) -> Result<(), AllocError>
    requires narrow { is_narrow_type dtype.now ≡ true }
    requires held { HoldsType dtype.now (part_cells part.now) }
    requires rows { (from ≤ to) × (to ≤ length (part_cells part.now)) }
    ensures { OnOk result (number_cells numbers.new ≡ number_cells numbers.old ++ take (to - from) (drop from (part_cells part.now))) }
{
    match part {
        Part::Byte(more) => numbers.append_narrow(more, from, to),
        Part::Short(more) => numbers.append_narrow(more, from, to),
        Part::Medium(more) => numbers.append_narrow(more, from, to),
        Part::Narrow(more) => numbers.append_narrow(more, from, to),
        _ => push_narrow_rows(numbers, dtype, part, from, to),
    }
}

// The same row by row, however the numbers are kept.
fn push_narrow_rows(
    numbers: &mut Numbers<i64>,
    dtype: &DataType,
    part: &Part,
    from: usize,
    to: usize,
) -> Result<(), AllocError>
    requires narrow { is_narrow_type dtype.now ≡ true }
    requires held { HoldsType dtype.now (part_cells part.now) }
    requires rows { (from ≤ to) × (to ≤ length (part_cells part.now)) }
    ensures { OnOk result (number_cells numbers.new ≡ number_cells numbers.old ++ take (to - from) (drop from (part_cells part.now))) }
{
    for row in from..to {
        push_narrow(numbers, whole_in(part.get(row)))?;
    }
    Ok(())
}

fn push_wides(
    numbers: &mut Numbers<i128>,
    dtype: &DataType,
    part: &Part,
    from: usize,
    to: usize,
) -> Result<(), AllocError>
    requires number { is_number dtype.now ≡ true }
    requires held { HoldsType dtype.now (part_cells part.now) }
    requires rows { (from ≤ to) × (to ≤ length (part_cells part.now)) }
    ensures { OnOk result (number_cells numbers.new ≡ number_cells numbers.old ++ take (to - from) (drop from (part_cells part.now))) }
{
    match part {
        Part::Byte(more) => numbers.append_wide(more, from, to),
        Part::Short(more) => numbers.append_wide(more, from, to),
        Part::Medium(more) => numbers.append_wide(more, from, to),
        Part::Narrow(more) => numbers.append_wide(more, from, to),
        Part::Wide(more) => numbers.append_wide(more, from, to),
        _ => push_wide_rows(numbers, dtype, part, from, to),
    }
}

// The same row by row, however the numbers are kept.
fn push_wide_rows(
    numbers: &mut Numbers<i128>,
    dtype: &DataType,
    part: &Part,
    from: usize,
    to: usize,
) -> Result<(), AllocError>
    requires number { is_number dtype.now ≡ true }
    requires held { HoldsType dtype.now (part_cells part.now) }
    requires rows { (from ≤ to) × (to ≤ length (part_cells part.now)) }
    ensures { OnOk result (number_cells numbers.new ≡ number_cells numbers.old ++ take (to - from) (drop from (part_cells part.now))) }
{
    for row in from..to {
        push_option(numbers, whole_in(part.get(row)))?;
    }
    Ok(())
}

fn push_texts(texts: &mut Texts, part: &Part, from: usize, to: usize) -> Result<(), AllocError>
    requires held { HoldsType DataType.String (part_cells part.now) }
    requires rows { (from ≤ to) × (to ≤ length (part_cells part.now)) }
    ensures { OnOk result (text_cells texts.new ≡ text_cells texts.old ++ take (to - from) (drop from (part_cells part.now))) }
{
    match part {
        Part::Texts(more) => texts.append_range(more, from, to),
        Part::Packed(more) => texts.append_packed(more, from, to),
        _ => push_text_rows(texts, part, from, to),
    }
}

// The same row by row, however the texts are kept.
fn push_text_rows(texts: &mut Texts, part: &Part, from: usize, to: usize) -> Result<(), AllocError>
    requires held { HoldsType DataType.String (part_cells part.now) }
    requires rows { (from ≤ to) × (to ≤ length (part_cells part.now)) }
    ensures { OnOk result (text_cells texts.new ≡ text_cells texts.old ++ take (to - from) (drop from (part_cells part.now))) }
{
    for row in from..to {
        push_text(texts, part.get(row))?;
    }
    Ok(())
}

fn push_nulls(len: &mut usize, part: &Part, from: usize, to: usize) -> Result<(), AllocError>
    requires held { HoldsType DataType.Null (part_cells part.now) }
    requires rows { (from ≤ to) × (to ≤ length (part_cells part.now)) }
    ensures { OnOk result (replicate len.new None ≡ replicate len.old None ++ take (to - from) (drop from (part_cells part.now))) }
{
    match len.checked_add(to - from) {
        Some(more) => {
            *len = more;
            Ok(())
        }
        None => Err(AllocError),
    }
}
