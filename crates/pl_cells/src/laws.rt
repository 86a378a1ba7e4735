//! Laws of buffers and null values: each function does nothing, and its contract is the law.
ghost use Rattle.pl_cells.specs.Laws.{CutsBack, AddsInTurn};
ghost use Rattle.pl_cells.specs.NullEqual.{NullValuesAreTold, CompiledAreTold};

/// Cells that were put at the end are taken away by a cut back to the number that stood there before.
pub fn cuts_back()
    ensures { CutsBack }
{}

/// Cells that are put at the end one list after another are put there at once.
pub fn adds_in_turn()
    ensures { AddsInTurn }
{}

/// `==` of null values tells whether two of them are one, and so does that of the null values of columns.
pub fn null_values_are_told()
    ensures values { NullValuesAreTold }
    ensures compiled { CompiledAreTold }
{}
