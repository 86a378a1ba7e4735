//! Parts of a column, one behind the other.
ghost use Rattle.std.specs.Prelude.{◌≡◌, ◌<◌, ◌≤◌, ◌-◌, [], ◌++◌, false, length, take, drop, OnOk, IfOk, count_by, is_none, slice_get, unwrap_or, None};
ghost use Rattle.pl_frame.specs.Columns.{scalar_of, is_coded, HoldsType};
ghost use Rattle.pl_frame.specs.GatheredCells.{cells_so_far, SuitsType};
ghost use Rattle.pl_frame.specs.Parts.{part_cells};

use crate::column::Value;
use crate::data_type::DataType;
use crate::ends::{begin_of, last_end, thing_at};
use crate::gathered::Gathered;
use crate::part::Part;
use std::alloc::{AllocError, Global};
use std::marker::Model;

// Parts one behind the other, with the row at which each ends.
#[derive(Debug, Drop)]
pub(crate) struct Parts {
    parts: Vec<Part>,
    ends: Vec<usize>,
}

impl Model for Parts {
    ghost use Rattle.std.specs.Prelude.{◌≡◌, List, Option};
    ghost use Rattle.pl_frame.specs.Frame.{Scalar};
    ghost use Rattle.pl_frame.specs.Parts.{parts_cells, ends_from};

    ghost Value = { List (Option Scalar) };

    ghost view = { λ p. parts_cells p.parts.items };

    ghost invariant = { λ p. p.ends.items ≡ ends_from 0 p.parts.items };
}

impl Parts {
    // No parts, without taking memory.
    pub(crate) fn new(alloc: Global) -> Parts
        ensures { result ≡ [] }
    {
        Parts {
            parts: Vec::new(alloc),
            ends: Vec::new(alloc),
        }
    }

    // The number of rows, without taking memory.
    #[inline]
    pub(crate) fn len(&self) -> usize
        ensures { result ≡ length self.now }
    {
        last_end(&self.ends)
    }

    // Puts a part behind the others. Refuses only want of memory.
    pub(crate) fn push(&mut self, part: Part) -> Result<(), AllocError>
        ensures { OnOk result (self.new ≡ self.old ++ part_cells part) }
    {
        let Some(end) = self.len().checked_add(part.len()) else {
            return Err(AllocError);
        };
        self.ends.reserve(1)?;
        self.parts.reserve(1)?;
        self.ends.push_reserved(end);
        self.parts.push_reserved(part);
        Ok(())
    }

    // Puts other parts behind these. Refuses only want of memory.
    pub(crate) fn append(&mut self, other: Parts) -> Result<(), AllocError>
        ensures { OnOk result (self.new ≡ self.old ++ other) }
    {
        let Parts { parts, ends: _ } = other;
        for part in parts {
            self.push(part)?;
        }
        Ok(())
    }

    // How many values are null, without taking memory.
    pub(crate) fn null_count(&self) -> usize
        ensures { result ≡ count_by is_none self.now }
    {
        // `len` is called for its clause that the rows can be counted.
        let _len = self.len();
        let mut nulls = 0;
        for part in &self.parts {
            nulls += part.null_count();
        }
        nulls
    }

    // What a row holds, without taking memory.
    #[inline]
    pub(crate) fn get(&self, row: usize) -> Value<'_>
        requires { row < length self.now }
        ensures { scalar_of result ≡ unwrap_or (slice_get self.now row) None }
    {
        let at = thing_at(&self.ends, row);
        let begin = begin_of(&self.ends, at);
        self.parts[at].get(row - begin)
    }

    // Puts the cells from one row up to another behind others that are gathered. Refuses only want of memory.
    pub(crate) fn put_rows(
        &self,
        gathered: &mut Gathered,
        dtype: &DataType,
        from: usize,
        to: usize,
    ) -> Result<(), AllocError>
        requires suits { SuitsType dtype.now gathered.old }
        requires coded { is_coded dtype.now ≡ false }
        requires held { HoldsType dtype.now self.now }
        requires rows { (from ≤ to) × (to ≤ length self.now) }
        ensures suits { OnOk result (SuitsType dtype.now gathered.new) }
        ensures cells { OnOk result (cells_so_far dtype.now gathered.new ≡ cells_so_far dtype.now gathered.old ++ take (to - from) (drop from self.now)) }
    {
        let mut row = from;
        'rows: while row < to {
            let at = thing_at(&self.ends, row);
            let begin = begin_of(&self.ends, at);
            let end = self.ends[at].min(to);
            gathered.push_run(dtype, &self.parts[at], row - begin, end - begin)?;
            row = end;
        }
        Ok(())
    }

    // Equal parts. Refuses only want of memory.
    pub(crate) fn try_clone(&self) -> Result<Parts, AllocError>
        ensures { IfOk result (λ parts. parts ≡ self.now) }
    {
        let alloc = *self.ends.allocator();
        let mut copy = Parts::new(alloc);
        for part in &self.parts {
            copy.push(part.try_clone()?)?;
        }
        Ok(copy)
    }
}
