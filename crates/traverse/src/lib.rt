// The walk over commits (gix_traverse::commit::simple): opened once, advanced call by call through one small record of counters, over
// memory that the caller lends.
#![tactic(auto)]

pub mod next;
pub mod open;

use state::Record;
use walk::{Answer, OpenAnswer};

// What an opening gives back: its outcome and numbers, and the record for the first call.
#[derive(Clone, Copy)]
pub struct Opened {
    pub answer: OpenAnswer,
    pub record: Record,
}

// What a call gives back: its answer, and the record for the next call.
#[derive(Clone, Copy)]
pub struct Out {
    pub answer: Answer,
    pub record: Record,
}
