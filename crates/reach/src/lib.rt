// The search: the commits that ids reach over the store's parent lines. It works in lent memory: the id table, and a run of the line that
// has the slots of all commits met, in the order in which they were met. What is met is marked VISIBLE, or in a second search HIDDEN. Every
// function is total and safe on any bytes and numbers.
#![tactic(auto)]

mod bits;
mod notes;
mod seek;

pub use notes::{note, note_list, note_parents};
pub use seek::{SeekError, search, search_from};
