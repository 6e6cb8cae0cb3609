// One link to a parent (`insert_into_seen_and_next`, `insert_into_seen_and_queue`).
ghost use Rattle.std.specs.Prelude.{◌≡◌, true, false, pos};
ghost use Rattle.commitgraph.specs.Graph.{seconds_in};
ghost use Rattle.walk.specs.Settings.{only_first};
ghost use Rattle.reading.specs.Tip.{GivesSeconds};
ghost use Rattle.state.specs.declared.Record.{Record};
ghost use Rattle.state.specs.Shapes.{waiting_in};
ghost use Rattle.state.specs.Steps.{mem};
ghost use Rattle.links.specs.Link.{Admits, Enters, Visits, VisitsStored};
ghost use Rattle.hash.specs.Bytes.{width_of};

use commitgraph::{Layout, rows};
use date::Seconds;
use hash::Kind;
use state::{Record, Waiting};
use walk::{Parents, Settings};

// No place is noted from here on.
const MOST: usize = 4294967295;

// Whether a walk follows first parents alone.
pub fn only_first(settings: Settings) -> bool
    ensures { result ≡ only_first settings }
{
    let parents = settings.parents;
    match parents {
        Parents::All => false,
        Parents::First => true,
    }
}

// Whether the link to a parent that is not seen yet is admitted: it is not excluded, and not before the cutoff, which first parents ignore.
pub fn admits(excluded: &[u8], settings: Settings, id: &[u8], s: Seconds) -> bool
    ensures { Admits excluded.now settings id.now s.0 result }
{
    let kind = settings.kind;
    if reading::is_among(kind, excluded, id) {
        return false;
    }
    if only_first(settings) {
        return true;
    }
    let sorting = settings.sorting;
    walk::within_cutoff_time(sorting, s)
}

// A new parent waits in its slot, if its link is admitted.
fn insert_into_queue(
    w: Waiting,
    slot: usize,
    times: &mut [i64],
    line: &mut [u32],
    excluded: &[u8],
    settings: Settings,
    id: &[u8],
    s: Seconds,
) -> Waiting
    ensures { (r : Record) → Enters excluded.now settings (waiting_in r w) times.old times.new line.old line.new id.now s.0 slot (waiting_in r result) }
{
    if admits(excluded, settings, id, s) {
        return state::lengthen(w, times, line, slot, s);
    }
    w
}

// The seconds of a new parent in its own graph row, where commits wait by time; else they are not asked.
fn new_row_seconds(kind: Kind, graph: &[u8], l: Layout, parent: usize, timed: bool) -> Seconds
    ensures { timed ≡ true → result.0 ≡ seconds_in (width_of kind) graph.now l parent }
{
    if timed {
        // a copy that is made here and not for each link: `rows::seconds` is not compiled into its callers, and what goes to it by value stands in memory
        let own = Layout {
            fan: l.fan,
            ids: l.ids,
            rows: l.rows,
            edge: l.edge,
            edges: l.edges,
            count: l.count,
            levels: l.levels,
        };
        return rows::seconds(kind, graph, own, parent);
    }
    Seconds(0)
}

// Notes beside its slot where a new parent stands, its position in the commit-graph file or the number of its entry in the store: that is
// tried first when the parent leaves the queue. One more is set down, as an opening leaves 0 where nothing is noted. Nothing is promised of
// what is noted: a commit is looked up by its id.
fn note(levels: &mut [u32], slot: usize, place: usize) {
    if slot < levels.len() {
        if place < MOST {
            levels[slot] = (place + 1) as u32;
        }
    }
}

// Visits the parent at a position of the commit-graph file: its seconds are those of its own row.
pub fn insert_into_seen_and_queue_cached(
    r: Record,
    w: Waiting,
    names: &mut [u8],
    marks: &mut [u8],
    levels: &mut [u32],
    times: &mut [i64],
    line: &mut [u32],
    excluded: &[u8],
    settings: Settings,
    graph: &[u8],
    l: Layout,
    parent: usize,
    id: &[u8],
) -> Waiting
    ensures { Visits excluded.now settings (waiting_in r w) (mem names.old marks.old times.old line.old) (mem names.new marks.new times.new line.new) id.now (seconds_in (width_of settings.kind) graph.now l parent) (waiting_in r result) }
{
    let kind = settings.kind;
    // a known parent changes nothing, and what waits is handed back before anything of it is asked
    let Some(slot) = state::see(state::with_waiting(r, w), names, marks, id) else {
        return w;
    };
    let q = w.queue;
    let s = new_row_seconds(kind, graph, l, parent, q.timed);
    note(levels, slot, parent);
    insert_into_queue(w, slot, times, line, excluded, settings, id, s)
}

// A new parent waits in its slot, if its link is admitted, in a queue by time.
fn insert_into_heap(
    w: Waiting,
    slot: usize,
    times: &mut [i64],
    line: &mut [u32],
    excluded: &[u8],
    settings: Settings,
    id: &[u8],
    s: Seconds,
) -> Waiting
    requires { w.queue.timed ≡ true }
    ensures { (r : Record) → Enters excluded.now settings (waiting_in r w) times.old times.new line.old line.new id.now s.0 slot (waiting_in r result) }
{
    if admits(excluded, settings, id, s) {
        return state::lengthen_heap(w, times, line, slot, s);
    }
    w
}

// The same in a queue that is not by time, where no seconds are asked.
fn insert_into_ring(
    w: Waiting,
    slot: usize,
    times: &[i64],
    line: &mut [u32],
    excluded: &[u8],
    settings: Settings,
    id: &[u8],
) -> Waiting
    requires { w.queue.timed ≡ false }
    ensures { (r : Record) → Enters excluded.now settings (waiting_in r w) times.now times.now line.old line.new id.now (pos 0) slot (waiting_in r result) }
{
    if admits(excluded, settings, id, Seconds(0)) {
        return state::lengthen_ring(w, times, line, slot);
    }
    w
}

// What `insert_into_seen_and_queue_cached` does, for the call in place: that one is compiled once for all who call it, and what goes to it by value stands in
// memory; this one has one caller, and is compiled into it, with the heap and the ring apart.
pub fn insert_into_seen_and_next_or_queue(
    r: Record,
    w: Waiting,
    names: &mut [u8],
    marks: &mut [u8],
    levels: &mut [u32],
    times: &mut [i64],
    line: &mut [u32],
    excluded: &[u8],
    settings: Settings,
    graph: &[u8],
    l: Layout,
    parent: usize,
    id: &[u8],
) -> Waiting
    ensures { Visits excluded.now settings (waiting_in r w) (mem names.old marks.old times.old line.old) (mem names.new marks.new times.new line.new) id.now (seconds_in (width_of settings.kind) graph.now l parent) (waiting_in r result) }
{
    let kind = settings.kind;
    let Some(slot) = state::see(state::with_waiting(r, w), names, marks, id) else {
        return w;
    };
    note(levels, slot, parent);
    let q = w.queue;
    if q.timed {
        let s = new_row_seconds(kind, graph, l, parent, true);
        return insert_into_heap(w, slot, times, line, excluded, settings, id, s);
    }
    insert_into_ring(w, slot, times, line, excluded, settings, id)
}

// The seconds of a new parent in the store, where commits wait by time, and its entry is noted beside its slot; else they are not asked.
fn new_seconds(
    kind: Kind,
    store: &[u8],
    id: &[u8],
    timed: bool,
    levels: &mut [u32],
    slot: usize,
) -> Seconds
    ensures { timed ≡ true → GivesSeconds (width_of kind) store.now id.now result }
{
    if timed {
        let mut entry = 0;
        let s = reading::seconds_noting(kind, store, id, &mut entry);
        note(levels, slot, entry);
        return s;
    }
    Seconds(0)
}

// Visits a parent of a commit from the store: its seconds are those in the store, else 0.
pub fn insert_into_seen_and_queue_stored(
    r: Record,
    w: Waiting,
    names: &mut [u8],
    marks: &mut [u8],
    levels: &mut [u32],
    times: &mut [i64],
    line: &mut [u32],
    excluded: &[u8],
    settings: Settings,
    store: &[u8],
    id: &[u8],
) -> Waiting
    ensures { VisitsStored excluded.now settings store.now (waiting_in r w) (mem names.old marks.old times.old line.old) (mem names.new marks.new times.new line.new) id.now (waiting_in r result) }
{
    let kind = settings.kind;
    let Some(slot) = state::see(state::with_waiting(r, w), names, marks, id) else {
        return w;
    };
    let q = w.queue;
    let s = new_seconds(kind, store, id, q.timed, levels, slot);
    insert_into_queue(w, slot, times, line, excluded, settings, id, s)
}

// What `insert_into_seen_and_queue_stored` does, for the call in place (see `insert_into_seen_and_next_or_queue`).
pub fn insert_into_seen_and_next_or_queue_stored(
    r: Record,
    w: Waiting,
    names: &mut [u8],
    marks: &mut [u8],
    levels: &mut [u32],
    times: &mut [i64],
    line: &mut [u32],
    excluded: &[u8],
    settings: Settings,
    store: &[u8],
    id: &[u8],
) -> Waiting
    ensures { VisitsStored excluded.now settings store.now (waiting_in r w) (mem names.old marks.old times.old line.old) (mem names.new marks.new times.new line.new) id.now (waiting_in r result) }
{
    let kind = settings.kind;
    let Some(slot) = state::see(state::with_waiting(r, w), names, marks, id) else {
        return w;
    };
    let q = w.queue;
    if q.timed {
        let s = new_seconds(kind, store, id, true, levels, slot);
        if admits(excluded, settings, id, s) {
            return state::lengthen_heap(w, times, line, slot, s);
        }
        return w;
    }
    if admits(excluded, settings, id, Seconds(0)) {
        return state::lengthen_ring(w, times, line, slot);
    }
    w
}
