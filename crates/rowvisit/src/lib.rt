// The parents of a commit from the commit-graph file, over lent memory (the lines of `next_by_topology` and `next_by_commit_date` in
// gix_traverse::commit::simple that go by a row): its whole list is judged, and then each id goes from the file to the buffers. Every function is
// total and safe on any bytes and numbers.
#![tactic(auto)]

mod ahead;
mod numbers;
mod plain;
mod row;

pub use plain::{PlainTaken, take_plain};
pub use row::{RowVisited, visit_cached};
