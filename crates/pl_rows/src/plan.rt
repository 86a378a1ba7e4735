//! How a range is read: by which dialect, which columns of which, under which options, and how much of it.
ghost use Rattle.std.specs.Prelude.{◌≡◌, ◌↔◌, IsTrue};
ghost use Rattle.pl_rows.specs.Plan.{AreRising};
ghost use Rattle.pl_rows.specs.Steps.{passes_more};

use pl_cells::null_values::NullValuesCompiled;
use pl_cells::utf8::CsvEncoding;
use pl_scan::dialect::Dialect;

/// Which columns of a schema are read.
#[derive(Clone, Copy)]
pub struct Projection<'a> {
    /// The places of these columns in the schema, rising.
    pub places: &'a [usize],
    /// How many columns the schema has.
    pub width: usize,
}

impl<'a> Projection<'a> {
    /// Whether the places rise and are places of the schema.
    pub fn is_valid(&self) -> bool
        ensures { IsTrue result ↔ AreRising 0 self.now.width self.now.places.now }
    {
        let mut next = 0;
        for place in self.places {
            if *place < next || *place >= self.width {
                return false;
            }
            next = *place + 1;
        }
        true
    }
}

/// How the fields of a row are read, beside what their buffers know.
#[derive(Clone, Copy)]
pub struct RowOptions<'a> {
    /// The texts that mean null, beside missing ones.
    pub null_values: Option<&'a NullValuesCompiled>,
    /// The encoding for which the buffers were made.
    pub encoding: CsvEncoding,
    /// Whether a missing text of a column of strings is null; else it is the empty text.
    pub missing_is_null: bool,
    /// Whether a cell without a value is null; else it is a fault.
    pub ignore_errors: bool,
    /// Whether more fields than columns are passed over; else they are a fault.
    pub truncate_ragged_lines: bool,
}

/// How a range is read.
#[derive(Clone, Copy)]
pub struct RangePlan<'a> {
    pub dialect: Dialect<'a>,
    pub projection: Projection<'a>,
    pub options: RowOptions<'a>,
    /// At most so many rows are read, where there is a limit.
    pub limit: Option<usize>,
    /// Whether the range is the last one; in any other a row that ends within a quoted field is not judged.
    pub last: bool,
}

impl<'a> RangePlan<'a> {
    /// Whether more fields than the schema has columns are passed over: where they may be, and where not all columns are read.
    #[inline]
    pub(crate) fn passes_more(&self) -> bool
        ensures { result ≡ passes_more self.now }
    {
        self.options.truncate_ragged_lines || self.projection.places.len() != self.projection.width
    }
}
