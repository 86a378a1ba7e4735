//! The text of a frame, by definition alone: how a value is printed (`specs/ValueText.antt`), when a cell is quoted, and
//! what stands in a line (`specs/FrameText.antt`). What writes a frame and what reads it again stand on these, and so
//! neither stands on the other.
#![tactic(auto)]
