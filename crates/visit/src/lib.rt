// One step of a walk over lent memory: the next commit of the queue (the lines of `next_by_topology` and `next_by_commit_date` in
// gix_traverse::commit::simple). Every function is total and safe on any bytes and numbers.
#![tactic(auto)]

mod next;

pub use next::{Taken, end_body, next_by_topology_or_commit_date, noted, time_given};
