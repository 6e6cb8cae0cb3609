// The parents of a commit from the store, over lent memory (the lines of `next_by_topology` and `next_by_commit_date` in
// gix_traverse::commit::simple that go by a body). Every function is total and safe on any bytes and numbers.
#![tactic(auto)]

mod body;
mod taking;

pub use body::{BodyVisited, visit_body};
pub use taking::{BodyTaken, take_body};
