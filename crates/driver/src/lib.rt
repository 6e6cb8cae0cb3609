// A whole walk at once, for any task: it is opened and called to its end, and a step is folded over its answers. The one loop over calls that
// `lister` and `reports` are made of.
#![tactic(auto)]

ghost use Rattle.std.specs.Prelude.{◌≡◌, true, ◌+◌, ◌≤◌, ◌<◌};
ghost use Rattle.hash.specs.Bytes.{width_of};
ghost use Rattle.odb.specs.Store.{store_is_ok};
ghost use Rattle.opening.specs.Checks.{input_of};
ghost use Rattle.traverse.specs.Open.{lent_of};
ghost use Rattle.traverse.specs.Next.{files_lent};
ghost use Rattle.calendar.specs.Terms.{good_terms};
ghost use Rattle.tally.specs.Terms.{FewCounts};
ghost use Rattle.tally.specs.Tally.{Few};
ghost use Rattle.driver.specs.Walked.{most_calls};
ghost use Rattle.driver.specs.Says.{Drives, before_calls, went_on, CallsAll};

use state::Record;
use tally::{Tally, Task};
use traverse::Opened;
use walk::{Refusal, Settings};

// What a whole walk came to.
#[derive(Clone, Copy)]
pub struct Driven {
    // The outcome of the opening.
    pub outcome: Result<(), Refusal>,
    // What the answers came to.
    pub tally: Tally,
    // The record that the opening or the last call gave back.
    pub record: Record,
}

// Before any call.
fn before_calls(o: Opened) -> Driven
    ensures { result ≡ before_calls o }
{
    let answer = o.answer;
    let outcome = answer.outcome;
    let record = o.record;
    Driven {
        outcome,
        tally: tally::no_tally(),
        record,
    }
}

// After one call more.
fn went_on(d: Driven, t: Tally, record: Record) -> Driven
    ensures { result ≡ went_on d t «record» }
{
    let outcome = d.outcome;
    Driven {
        outcome,
        tally: t,
        record,
    }
}

// How many calls may follow an opening: document 01's P + 2, where P is the number of slots, and none if it was refused.
fn most_calls(o: Opened) -> usize
    requires { o.record.queue.cap ≤ 1048576 }
    ensures { result ≡ most_calls o.answer.outcome o.record.queue.cap }
{
    let answer = o.answer;
    let outcome = answer.outcome;
    let record = o.record;
    let queue = record.queue;
    match outcome {
        Ok(()) => queue.cap + 2,
        Err(_) => 0,
    }
}

// Calls until an answer says end or the task is done, n times at most; each answer is folded into the tally.
fn call_all(
    task: Task,
    n: usize,
    first: Driven,
    store: &[u8],
    graph: &[u8],
    hidden: &[u8],
    excluded: &[u8],
    settings: Settings,
    names: &mut [u8],
    marks: &mut [u8],
    levels: &mut [u32],
    times: &mut [i64],
    line: &mut [u32],
    parents: &mut [u8],
    ids: &mut [u8],
    embargoed: &[u8],
    terms: &[u32],
    counts: &mut [u64],
) -> Driven
    requires { (n ≤ 1048578) × Few 0 first.tally × (0 < n → store_is_ok (width_of settings.kind) store.now ≡ true) × (good_terms terms.now ≡ true) × FewCounts 0 counts.old }
    ensures { CallsAll task embargoed.now terms.now (files_lent store.now graph.now hidden.now excluded.now settings) n first (lent_of names.old marks.old levels.old times.old line.old parents.old) ids.old counts.old result (lent_of names.new marks.new levels.new times.new line.new parents.new) ids.new counts.new }
{
    let mut d = first;
    let mut left = n;
    // No range counts these calls: after each, its answer says how many are left, 0 at the end.
    while 0 < left {
        let record = d.record;
        let o = traverse::next::step(
            record, store, graph, hidden, excluded, settings, names, marks, levels, times, line,
            parents,
        );
        let answer = o.answer;
        let outcome = answer.outcome;
        let after = o.record;
        let had = d.tally;
        let kind = settings.kind;
        let t = tally::fold(
            kind, task, had, answer, store, ids, embargoed, terms, counts,
        );
        d = went_on(d, t, after);
        left = tally::calls_left(task, t, left, outcome);
    }
    d
}

// Opens a walk and calls it to its end, or to the end of its task. The ids are altered by the task Ids alone; the counts are set to 0, and counted
// up by the task Terms alone. Terms that are not a good list count as none. The task Feed withholds the readings of the embargoed ids.
pub fn drive(
    task: Task,
    store: &[u8],
    graph: &[u8],
    tips: &[u8],
    hidden: &[u8],
    excluded: &[u8],
    settings: Settings,
    names: &mut [u8],
    marks: &mut [u8],
    levels: &mut [u32],
    times: &mut [i64],
    line: &mut [u32],
    parents: &mut [u8],
    ids: &mut [u8],
    embargoed: &[u8],
    terms: &[u32],
    counts: &mut [u64],
) -> Driven
    ensures { Drives task embargoed.now terms.now (input_of store.now graph.now tips.now hidden.now excluded.now settings) (lent_of names.old marks.old levels.old times.old line.old parents.old) ids.old counts.old result (lent_of names.new marks.new levels.new times.new line.new parents.new) ids.new counts.new }
{
    let good = tally::terms::good_part(terms);
    tally::terms::clear(counts);
    let o = traverse::open::open(
        store, graph, tips, hidden, excluded, settings, names, marks, levels, times, line, parents,
    );
    call_all(
        task,
        most_calls(o),
        before_calls(o),
        store,
        graph,
        hidden,
        excluded,
        settings,
        names,
        marks,
        levels,
        times,
        line,
        parents,
        ids,
        embargoed,
        good,
        counts,
    )
}
