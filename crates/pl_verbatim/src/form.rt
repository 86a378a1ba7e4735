//! How rows are written that are written otherwise than they were read.
ghost use Rattle.std.specs.Prelude.{◌≡◌, true};
ghost use Rattle.pl_verbatim.specs.Nulls.{are_alike, AreStartsOf};

use pl_cells::null_values::NullValuesCompiled;

/// How the cells and lines of such rows are written.
#[derive(Drop)]
pub(crate) struct Form {
    // What stands between two cells.
    pub(crate) separator: u8,
    // Whether whole numbers and decimals stand between quotes.
    pub(crate) quotes_numbers: bool,
    // Whether other values do, and texts whatever they hold.
    pub(crate) quotes_values: bool,
    // What is written of a null.
    pub(crate) null: Vec<u8>,
    // What ends a line.
    pub(crate) terminator: Vec<u8>,
    // The texts that mean null, in each column the same.
    pub(crate) nulls: Option<NullValuesCompiled>,
    // For each byte, whether one of these begins with it.
    pub(crate) starts: [bool; 256],
    ghost alike: { are_alike nulls ≡ true },
    ghost begin: { AreStartsOf nulls starts },
}
