// One link to a parent, over lent memory: the parent is seen, and waits where its link is admitted (`insert_into_seen_and_next` and
// `insert_into_seen_and_queue` in gix_traverse::commit::simple). Every function is total and safe on any bytes and numbers.
#![tactic(auto)]

mod link;

pub use link::{
    admits, insert_into_seen_and_next_or_queue, insert_into_seen_and_next_or_queue_stored,
    insert_into_seen_and_queue_cached, insert_into_seen_and_queue_stored, only_first,
};
