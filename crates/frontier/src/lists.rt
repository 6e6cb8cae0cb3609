// Painting over a list of commits: ids that stand in bytes, slots that stand in the line, and the parents of a commit.
ghost use Rattle.std.specs.Prelude.{◌≡◌, ◌+◌, ◌/◌, length, get_or};
ghost use Rattle.walk.specs.Painting.{mark_all};
ghost use Rattle.walk.specs.Opening.{list_ids};
ghost use Rattle.hashtable.specs.Table.{id_of};
ghost use Rattle.object.specs.Ids.{padded};
ghost use Rattle.reading.specs.Whole.{parent_count};
ghost use Rattle.frontier.specs.Paint.{lent};
ghost use Rattle.frontier.specs.Mark.{Takes, pass_to, LacksMarkAt};
ghost use Rattle.frontier.specs.Lists.{TakesAll, MarksRun, PassesAll};
ghost use Rattle.hash.specs.Bytes.{width_of};

use crate::marking::Marked;
use crate::{bits, marking, slots};
use commitgraph::Layout;
use hash::Kind;
use hashtable::table;
use hashtable::table::Slot;
use object::ObjectId;
use pending::Pending;
use reading::Commit;

// How many ids a list has.
fn id_count(kind: Kind, list: &[u8]) -> usize
    ensures { result ≡ length list.now / width_of kind }
{
    hash::ids_in(kind, list.len())
}

// Gives marks to each id of a list, in order.
pub fn mark_list(
    kind: Kind,
    names: &mut [u8],
    marks: &mut [u8],
    levels: &mut [u32],
    times: &mut [i64],
    line: &mut [u32],
    cap: usize,
    cache: Option<Layout>,
    graph: &[u8],
    store: &[u8],
    p: Pending,
    list: &[u8],
    bits: u8,
) -> Marked
    ensures { TakesAll (width_of kind) mark_all cache graph.now store.now cap (lent names.old marks.old levels.old times.old line.old) (lent names.new marks.new levels.new times.new line.new) p (list_ids (width_of kind) list.now) bits result }
{
    let n = id_count(kind, list);
    let mut q = p;
    for i in 0..n {
        let id = hash::nth(kind, list, i);
        q = marking::mark_one(
            kind, names, marks, levels, times, line, cap, cache, graph, store, q, id, bits,
        )?;
    }
    Ok(q)
}

// The slot at a place of the line, i places after `from`; 0 past the end.
fn slot_after(line: &[u32], from: usize, i: usize) -> u32
    ensures { result ≡ get_or line.now (from + i) 0 }
{
    if line.len() <= from {
        return 0;
    }
    if line.len() - from <= i {
        return 0;
    }
    line[from + i]
}

// The id in a slot, by value; zeros stand where `names` ends.
pub fn id_in(kind: Kind, names: &[u8], slot: u32) -> ObjectId
    ensures { result.bytes ≡ padded (id_of (width_of kind) names.now slot) }
{
    object::id_of(table::id_of(kind, names, slot as usize))
}

// Gives marks to the commits in the slots line[from..from + n), in order.
pub fn mark_run(
    kind: Kind,
    names: &mut [u8],
    marks: &mut [u8],
    levels: &mut [u32],
    times: &mut [i64],
    line: &mut [u32],
    cap: usize,
    cache: Option<Layout>,
    graph: &[u8],
    store: &[u8],
    p: Pending,
    from: usize,
    n: usize,
    bits: u8,
) -> Marked
    ensures { MarksRun (width_of kind) cache graph.now store.now cap (lent names.old marks.old levels.old times.old line.old) (lent names.new marks.new levels.new times.new line.new) p from n bits result }
{
    let mut q = p;
    for i in 0..n {
        let slot = slot_after(line, from, i);
        let id = id_in(kind, names, slot);
        q = marking::mark_one(
            kind,
            names,
            marks,
            levels,
            times,
            line,
            cap,
            cache,
            graph,
            store,
            q,
            object::id_slice(kind, &id.bytes),
            bits,
        )?;
    }
    Ok(q)
}

// Whether an id lacks one of the marks, by the slot that a search for it answered.
fn is_lacking(marks: &[u8], slot: Slot, bits: u8) -> bool
    ensures { LacksMarkAt marks.now slot bits result }
{
    match slot {
        Slot::Found(k) => bits::lacks_bits(bits, table::mark_of(marks, k)),
        Slot::Vacant(_) => bits::lacks_bits(bits, 0),
        Slot::Full => bits::lacks_bits(bits, 0),
    }
}

// Passes marks to parent k of a commit: it gets them and is queued, if it lacks one. Where it may stand is asked only then.
fn pass_one(
    kind: Kind,
    names: &mut [u8],
    marks: &mut [u8],
    levels: &mut [u32],
    times: &mut [i64],
    line: &mut [u32],
    cap: usize,
    cache: Option<Layout>,
    graph: &[u8],
    store: &[u8],
    p: Pending,
    id: &[u8],
    commit: Commit,
    k: usize,
    bits: u8,
) -> Marked
    ensures { Takes (width_of kind) pass_to cache graph.now store.now cap (lent names.old marks.old levels.old times.old line.old) (lent names.new marks.new levels.new times.new line.new) p id.now bits result }
{
    let slot = table::find_slot(kind, names, marks, cap, false, id);
    if is_lacking(marks, slot, bits) {
        let near = reading::parent_near(kind, commit, k, cache, graph);
        let added = slots::add_mark(kind, names, marks, id, slot, bits);
        marking::queue_added(
            kind, levels, times, line, cache, graph, store, p, id, near, added,
        )
    } else {
        Ok(p)
    }
}

// How many parents a commit has that was read.
fn parent_count(commit: Commit) -> usize
    ensures { result ≡ parent_count commit }
{
    match commit {
        Commit::Row { parents, .. } => parents,
        Commit::Body { parents, .. } => parents,
        Commit::Failed(_) => 0,
    }
}

// Passes marks to the parents of a commit, in order.
pub fn pass_to_parents(
    kind: Kind,
    names: &mut [u8],
    marks: &mut [u8],
    levels: &mut [u32],
    times: &mut [i64],
    line: &mut [u32],
    cap: usize,
    cache: Option<Layout>,
    graph: &[u8],
    store: &[u8],
    p: Pending,
    commit: Commit,
    bits: u8,
) -> Marked
    ensures { PassesAll (width_of kind) cache graph.now store.now cap (lent names.old marks.old levels.old times.old line.old) (lent names.new marks.new levels.new times.new line.new) p commit bits result }
{
    let n = parent_count(commit);
    let mut q = p;
    for i in 0..n {
        let id = reading::parent_of(kind, commit, i, cache, graph, store);
        q = pass_one(
            kind,
            names,
            marks,
            levels,
            times,
            line,
            cap,
            cache,
            graph,
            store,
            q,
            object::id_slice(kind, &id.bytes),
            commit,
            i,
            bits,
        )?;
    }
    Ok(q)
}
