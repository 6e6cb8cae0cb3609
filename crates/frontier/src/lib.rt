// The frontier (compute_hidden_frontier of gix_traverse::commit::simple): commits reachable both from the commits that wait and from the
// hidden tips. Painting works in lent memory: a slot's id, mark, generation and seconds, and a queue of slots. Every function is total
// and safe on any bytes and numbers.
#![tactic(auto)]

mod bits;
mod lists;
mod marking;
mod parents;
mod prepare;
mod slots;
mod turns;

ghost use Rattle.std.specs.Prelude.{◌≡◌, ◌*◌, ◌≤◌, length};
ghost use Rattle.walk.specs.Opening.{list_ids};
ghost use Rattle.frontier.specs.Paint.{lent};
ghost use Rattle.frontier.specs.Painted.{empty_in, MarksInputs, PaintsFrom, Paints};
ghost use Rattle.hash.specs.Bytes.{width_of};

use commitgraph::Layout;
use hash::Kind;
use hashtable::marks::{HIDDEN, VISIBLE};
pub use marking::{MarkError, Marked};
use pending::Pending;
use revwalk::queue::Queue;

// Painting's queue, empty, in line[base..end).
fn empty_queue(base: usize, end: usize) -> Pending
    ensures { result ≡ empty_in base end }
{
    Pending {
        base,
        low: base,
        high: base,
        start: end,
        end,
    }
}

// The marks that painting begins with: VISIBLE for the commits that wait, which stand in the n slots from line[2 * cap] on by rising id,
// and HIDDEN for the hidden tips. While the first get theirs the queue keeps clear of these slots.
fn mark_inputs(
    kind: Kind,
    names: &mut [u8],
    marks: &mut [u8],
    levels: &mut [u32],
    times: &mut [i64],
    line: &mut [u32],
    cap: usize,
    cache: Option<Layout>,
    graph: &[u8],
    store: &[u8],
    n: usize,
    hidden: &[u8],
) -> Marked
    requires { (5 * cap ≤ length line.old) × (n ≤ cap) }
    ensures { MarksInputs (width_of kind) cache graph.now store.now cap (lent names.old marks.old levels.old times.old line.old) (lent names.new marks.new levels.new times.new line.new) n (list_ids (width_of kind) hidden.now) result }
{
    let from = 2 * cap;
    let p = empty_queue(from + n, 5 * cap);
    let shown = lists::mark_run(
        kind, names, marks, levels, times, line, cap, cache, graph, store, p, from, n, VISIBLE,
    )?;
    let low = Pending {
        base: from,
        ..shown
    };
    lists::mark_list(
        kind, names, marks, levels, times, line, cap, cache, graph, store, low, hidden, HIDDEN,
    )
}

// Painting, where the commits that wait stand in the n slots from line[2 * cap] on by rising id.
fn paint_from(
    kind: Kind,
    names: &mut [u8],
    marks: &mut [u8],
    levels: &mut [u32],
    times: &mut [i64],
    line: &mut [u32],
    cap: usize,
    cache: Option<Layout>,
    graph: &[u8],
    store: &[u8],
    n: usize,
    hidden: &[u8],
) -> Marked
    requires { (5 * cap ≤ length line.old) × (n ≤ cap) }
    ensures { PaintsFrom (width_of kind) cache graph.now store.now cap (lent names.old marks.old levels.old times.old line.old) (lent names.new marks.new levels.new times.new line.new) n (list_ids (width_of kind) hidden.now) result }
{
    let both = mark_inputs(
        kind, names, marks, levels, times, line, cap, cache, graph, store, n, hidden,
    )?;
    let most = 4 * cap;
    turns::turns(
        kind, names, marks, levels, times, line, cap, cache, graph, store, both, most,
    )
}

// Paints: the commits that wait get VISIBLE, the hidden tips HIDDEN, and these marks go from parent to parent, with STALE where both have
// met. The frontier is every id that has both.
pub fn compute_hidden_frontier(
    kind: Kind,
    names: &mut [u8],
    marks: &mut [u8],
    levels: &mut [u32],
    times: &mut [i64],
    line: &mut [u32],
    cap: usize,
    cache: Option<Layout>,
    graph: &[u8],
    store: &[u8],
    waiting: Queue,
    hidden: &[u8],
) -> Marked
    ensures { Paints (width_of kind) cache graph.now store.now cap (lent names.old marks.old levels.old times.old line.old) (lent names.new marks.new levels.new times.new line.new) waiting (list_ids (width_of kind) hidden.now) result }
{
    let n = waiting.count;
    if line.len() / 5 < cap {
        return Err(MarkError::NoRoom);
    }
    if cap < n {
        return Err(MarkError::NoRoom);
    }
    prepare::wash(marks, cap);
    prepare::visible_inputs_sorted(kind, line, names, waiting, 2 * cap);
    paint_from(
        kind, names, marks, levels, times, line, cap, cache, graph, store, n, hidden,
    )
}
