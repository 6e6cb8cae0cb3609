// The walk's next call in the form of the Rust (gix_traverse::commit::simple: `Iterator::next` of `Simple`): it takes the record of counters by
// `&mut`. The call below it, `traverse::next::step`, takes the record and gives it back by value.
#![tactic(auto)]

ghost use Rattle.traverse.specs.Contract.{NextSays};
ghost use Rattle.traverse.specs.Open.{lent_of};
ghost use Rattle.traverse.specs.Next.{files_lent};

use state::Record;
use traverse::Out;
use walk::{Answer, Settings};

// One call: the record behind the reference becomes the record for the next call.
pub fn next(
    record: &mut Record,
    store: &[u8],
    graph: &[u8],
    hidden: &[u8],
    excluded: &[u8],
    settings: Settings,
    names: &mut [u8],
    marks: &mut [u8],
    levels: &mut [u32],
    times: &mut [i64],
    line: &mut [u32],
    parents: &mut [u8],
) -> Answer
    ensures { NextSays (files_lent store.now graph.now hidden.now excluded.now settings) «record».old (lent_of names.old marks.old levels.old times.old line.old parents.old) (record { answer = result; «record» = «record».new }) (lent_of names.new marks.new levels.new times.new line.new parents.new) }
{
    let out = traverse::next::step(
        *record, store, graph, hidden, excluded, settings, names, marks, levels, times, line,
        parents,
    );
    *record = out.record;
    out.answer
}

// A call as a caller of `next` makes it: the record lies in a local, and is lent for the call.
pub fn once(
    record: Record,
    store: &[u8],
    graph: &[u8],
    hidden: &[u8],
    excluded: &[u8],
    settings: Settings,
    names: &mut [u8],
    marks: &mut [u8],
    levels: &mut [u32],
    times: &mut [i64],
    line: &mut [u32],
    parents: &mut [u8],
) -> Out
    ensures { NextSays (files_lent store.now graph.now hidden.now excluded.now settings) «record» (lent_of names.old marks.old levels.old times.old line.old parents.old) result (lent_of names.new marks.new levels.new times.new line.new parents.new) }
{
    let mut r = record;
    let answer = next(
        &mut r, store, graph, hidden, excluded, settings, names, marks, levels, times, line,
        parents,
    );
    Out { answer, record: r }
}
