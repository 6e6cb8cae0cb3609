// Whether each pair falls (document 02, card 1), found while the commits are read. For each slot of the id table the line has a cell and a
// hint: the cell holds the child with the least pair among those read so far, so in the end a commit whose pair lies below its cell's lies below
// all its children; the hint is a place where the commit may be looked for first. Every function is total and safe on any numbers.
#![tactic(auto)]

mod cells;
mod lowering;
mod slots;

pub use cells::{all_low, clear_cells, hint_of, slot_after};
pub use lowering::lower_parents;
pub use slots::set_pair;
