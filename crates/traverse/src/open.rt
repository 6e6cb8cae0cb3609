// An opening: all tests first, then the memory is emptied and the tips are let in, in list order.
ghost use Rattle.std.specs.Prelude.{ℕ, ◌≡◌, true, ◌&&◌, List};
ghost use Rattle.odb.specs.Store.{store_is_ok};
ghost use Rattle.walk.specs.Settings.{by_time, is_newest, newest_first};
ghost use Rattle.walk.specs.Lookup.{world_of};
ghost use Rattle.opening.specs.Checks.{input_of};
ghost use Rattle.state.specs.Reads.{closed_record};
ghost use Rattle.state.specs.Shapes.{fixed_of, fresh_record};
ghost use Rattle.state.specs.Steps.{mem};
ghost use Rattle.traverse.specs.Contract.{OpenSays};
ghost use Rattle.traverse.specs.Open.{lent_of, read_as, admission_of, Admits, TakesTip, TakesTips, Fills, Refuses, Accepts};
ghost use Rattle.hash.specs.Bytes.{width_of};

use super::Opened;
use commitgraph::Layout;
use date::Seconds;
use hash::Kind;
use reading::TipError;
use revwalk::queue::Queue;
use state::{Fixed, Record};
use walk::{CommitTimeOrder, OpenAnswer, Parents, Refusal, Settings, Sorting};

// Whether the queue keeps a time order: in the mode First it does not.
fn is_by_time(settings: Settings) -> bool
    ensures { result ≡ by_time settings }
{
    let parents = settings.parents;
    let sorting = settings.sorting;
    match parents {
        Parents::All => walk::is_timed(sorting),
        Parents::First => false,
    }
}

fn is_newest(order: CommitTimeOrder) -> bool
    ensures { result ≡ is_newest order }
{
    match order {
        CommitTimeOrder::NewestFirst => true,
        CommitTimeOrder::OldestFirst => false,
    }
}

// Whether an order takes the newest first.
fn takes_newest(sorting: Sorting) -> bool
    ensures { result ≡ newest_first sorting }
{
    match sorting {
        Sorting::BreadthFirst => false,
        Sorting::ByCommitTime(order) => is_newest(order),
        Sorting::ByCommitTimeCutoff { order, .. } => is_newest(order),
    }
}

// How a tip that was read comes in.
fn read_as(sorting: Sorting, read: Result<Seconds, TipError>) -> Option<Seconds>
    ensures { result ≡ read_as sorting read }
{
    match read {
        Ok(s) if walk::within_cutoff_time(sorting, s) => Some(s),
        _ => None,
    }
}

// How a tip comes in: under a time order it is read, from the store alone.
fn tip_admission(kind: Kind, store: &[u8], sorting: Sorting, id: &[u8]) -> Option<Seconds>
    ensures { store_is_ok (width_of kind) store.now ≡ true → (graph : List ℕ) → result ≡ admission_of (world_of (width_of kind) store.now graph) sorting id.now }
{
    if !walk::is_timed(sorting) {
        return Some(Seconds(0));
    }
    read_as(sorting, reading::read_tip(kind, store, id))
}

// A tip that is new waits in its slot, or is only seen.
fn add_to_queue(
    r: Record,
    times: &mut [i64],
    line: &mut [u32],
    seen: Option<usize>,
    how: Option<Seconds>,
) -> Record
    ensures { Admits r times.old times.new line.old line.new seen how result }
{
    let Some(slot) = seen else {
        return r;
    };
    match how {
        Some(s) => state::wait(r, times, line, slot, s),
        None => r,
    }
}

// One tip of the list: an excluded one and a repeat are passed over.
fn take_tip(
    kind: Kind,
    r: Record,
    names: &mut [u8],
    marks: &mut [u8],
    times: &mut [i64],
    line: &mut [u32],
    store: &[u8],
    excluded: &[u8],
    sorting: Sorting,
    id: &[u8],
) -> Record
    ensures { TakesTip (width_of kind) store.now excluded.now sorting (mem names.old marks.old times.old line.old) (mem names.new marks.new times.new line.new) id.now r result }
{
    if reading::is_among(kind, excluded, id) {
        return r;
    }
    let seen = state::see(r, names, marks, id);
    add_to_queue(
        r,
        times,
        line,
        seen,
        tip_admission(kind, store, sorting, id),
    )
}

// All tips, in list order (`filtered`, then `sorting`: each is tested, seen and queued where the order will want it).
fn filtered(
    kind: Kind,
    first: Record,
    names: &mut [u8],
    marks: &mut [u8],
    times: &mut [i64],
    line: &mut [u32],
    store: &[u8],
    tips: &[u8],
    excluded: &[u8],
    sorting: Sorting,
) -> Record
    ensures { TakesTips (width_of kind) store.now tips.now excluded.now sorting (mem names.old marks.old times.old line.old) (mem names.new marks.new times.new line.new) first result }
{
    let n = hash::ids_in(kind, tips.len());
    let mut r = first;
    for k in 0..n {
        let id = hash::nth(kind, tips, k);
        r = take_tip(
            kind, r, names, marks, times, line, store, excluded, sorting, id,
        );
    }
    r
}

// The record of a walk with these settings, before any tip.
fn first_record(settings: Settings, cap: usize, fixed: Fixed) -> Record
    ensures { result ≡ fresh_record (by_time settings) (by_time settings && newest_first settings.sorting) cap fixed }
{
    let sorting = settings.sorting;
    if is_by_time(settings) {
        return state::fresh_record(true, takes_newest(sorting), cap, fixed);
    }
    state::fresh_record(false, false, cap, fixed)
}

// What is found once, in the commit-graph file, for all calls.
fn fixed_for(kind: Kind, graph: &[u8]) -> Fixed
    ensures { result ≡ fixed_of kind graph.now }
{
    Fixed {
        layout: commitgraph::parse(kind, graph),
        kind,
    }
}

// Empties the memory and lets the tips in.
fn fill(
    store: &[u8],
    graph: &[u8],
    tips: &[u8],
    hidden: &[u8],
    excluded: &[u8],
    settings: Settings,
    names: &mut [u8],
    marks: &mut [u8],
    times: &mut [i64],
    line: &mut [u32],
) -> Record
    ensures { Fills (input_of store.now graph.now tips.now hidden.now excluded.now settings) (mem names.old marks.old times.old line.old) (mem names.new marks.new times.new line.new) result }
{
    let kind = settings.kind;
    let cap = opening::capacity(kind, store, graph, tips, hidden);
    state::start(marks, cap);
    let r = first_record(settings, cap, fixed_for(kind, graph));
    let sorting = settings.sorting;
    filtered(
        kind, r, names, marks, times, line, store, tips, excluded, sorting,
    )
}

// The record of a walk that is not open.
fn closed_record() -> Record
    ensures { result ≡ closed_record }
{
    Record {
        live: false,
        painted: false,
        failed: false,
        kept: false,
        fixed: Fixed {
            layout: Layout {
                fan: 0,
                ids: 0,
                rows: 0,
                edge: 0,
                edges: 0,
                count: 0,
                levels: false,
            },
            kind: Kind::Sha1,
        },
        queue: Queue {
            timed: false,
            newest: false,
            cap: 0,
            head: 0,
            count: 0,
            next: 0,
        },
        admitted: 0,
        struck: 0,
    }
}

// What a refused opening gives back: zeros, and the closed record.
fn refused_open(r: Refusal) -> Opened
    ensures { Refuses r result }
{
    Opened {
        answer: OpenAnswer {
            outcome: Err(r),
            admitted: 0,
            struck: 0,
            waiting: 0,
        },
        record: closed_record(),
    }
}

// What an accepted opening gives back.
fn accepted_open(r: Record) -> Opened
    ensures { Accepts r result }
{
    let q = r.queue;
    Opened {
        answer: OpenAnswer {
            outcome: Ok(()),
            admitted: r.admitted,
            struck: r.struck,
            waiting: q.count,
        },
        record: r,
    }
}

// Sets each position that a call may look for beside a slot to 0, so that no call reads memory that nobody has written to. (Any number would do:
// nothing is promised of levels.)
fn clear_notes(levels: &mut [u32]) {
    for slot in 0..levels.len() {
        levels[slot] = 0;
    }
}

// Opens a walk: a refused opening alters no lent byte.
pub fn open(
    store: &[u8],
    graph: &[u8],
    tips: &[u8],
    hidden: &[u8],
    excluded: &[u8],
    settings: Settings,
    names: &mut [u8],
    marks: &mut [u8],
    levels: &mut [u32],
    times: &mut [i64],
    line: &mut [u32],
    parents: &mut [u8],
) -> Opened
    ensures { OpenSays (input_of store.now graph.now tips.now hidden.now excluded.now settings) (lent_of names.old marks.old levels.old times.old line.old parents.old) result (lent_of names.new marks.new levels.new times.new line.new parents.new) }
{
    match opening::check(
        store,
        graph,
        tips,
        hidden,
        excluded,
        settings,
        names.len(),
        marks.len(),
        levels.len(),
        times.len(),
        line.len(),
        parents.len(),
    ) {
        Err(r) => refused_open(r),
        Ok(()) => {
            clear_notes(levels);
            accepted_open(fill(
                store, graph, tips, hidden, excluded, settings, names, marks, times, line,
            ))
        }
    }
}
