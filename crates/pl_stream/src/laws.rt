//! Laws of streams, each on a function without parameters.
ghost use Rattle.pl_stream.specs.Laws.{SettledRowsStay, SettledTextStays, CutsDoNotMatter};

/// The settled records of bytes are the first of those of every longer input that begins with these bytes.
#[tactic(auto, using(crate::proofs::SettledLaws::settled_rows_stay))]
pub fn settled_rows_stay()
    ensures { SettledRowsStay }
{}

/// And so is their text the front of that of those.
#[tactic(auto, using(crate::proofs::TextLaws::settled_text_stays))]
pub fn settled_text_stays()
    ensures { SettledTextStays }
{}

/// However an input is cut: what the settled text gains by each piece, and then what the text of the frame has behind it, are together the text
/// of the frame of the whole input.
#[tactic(auto, using(crate::proofs::TextLaws::cuts_do_not_matter))]
pub fn cuts_do_not_matter()
    ensures { CutsDoNotMatter }
{}
