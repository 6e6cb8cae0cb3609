// A whole walk at once: it is opened and called to its end, and the ids of the commits are set down, in order, in a buffer of the caller's.
// A walk call by call is in crate `traverse`.
#![tactic(auto)]

ghost use Rattle.std.specs.Prelude.{◌≡◌};
ghost use Rattle.opening.specs.Checks.{input_of};
ghost use Rattle.traverse.specs.Open.{lent_of};
ghost use Rattle.lister.specs.Says.{ListSays, listing_of};

use driver::Driven;
use state::Record;
use tally::Task;
use walk::{Outcome, Refusal, Settings};

// What a whole walk came to. The list is whole if the opening was accepted, no call was refused, and the buffer has room for all commits.
#[derive(Clone, Copy)]
pub struct Listing {
    // The outcome of the opening.
    pub outcome: Result<(), Refusal>,
    // How many commits were handed out, also those that the buffer had no room for.
    pub commits: usize,
    // How many calls were refused.
    pub refused: usize,
    // The first refusal of a call, or End where none was refused.
    pub reason: Outcome,
    // The record that the opening or the last call gave back: after an accepted opening every further call with it says end.
    pub record: Record,
}

// What the driver came to, as a listing.
fn listing_of(d: Driven) -> Listing
    ensures { result ≡ listing_of d }
{
    let outcome = d.outcome;
    let tally = d.tally;
    let reason = tally.reason;
    let record = d.record;
    Listing {
        outcome,
        commits: tally.commits,
        refused: tally.refused,
        reason,
        record,
    }
}

// Opens a walk and calls it to its end: the ids of all commits, in order, from the start of `ids`, as far as whole ids fit.
pub fn list(
    store: &[u8],
    graph: &[u8],
    tips: &[u8],
    hidden: &[u8],
    excluded: &[u8],
    settings: Settings,
    names: &mut [u8],
    marks: &mut [u8],
    levels: &mut [u32],
    times: &mut [i64],
    line: &mut [u32],
    parents: &mut [u8],
    ids: &mut [u8],
) -> Listing
    ensures { ListSays (input_of store.now graph.now tips.now hidden.now excluded.now settings) (lent_of names.old marks.old levels.old times.old line.old parents.old) ids.old result (lent_of names.new marks.new levels.new times.new line.new parents.new) ids.new }
{
    // No reading is withheld, and nothing is counted by terms.
    let embargoed = [0u8; 1];
    let terms = [0u32; 1];
    let mut counts = [0u64; 1];
    listing_of(driver::drive(
        Task::Ids,
        store,
        graph,
        tips,
        hidden,
        excluded,
        settings,
        names,
        marks,
        levels,
        times,
        line,
        parents,
        ids,
        &embargoed,
        &terms,
        &mut counts,
    ))
}
