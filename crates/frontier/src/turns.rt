// The turns of painting: the first of the queue leaves and passes its marks to its parents, while a queued commit lacks STALE.
ghost use Rattle.frontier.specs.Paint.{lent};
ghost use Rattle.frontier.specs.Turns.{TakesTurn, TakesTurns};
ghost use Rattle.hash.specs.Bytes.{width_of};

use crate::marking::Marked;
use crate::{bits, lists, parents};
use commitgraph::Layout;
use hash::Kind;
use hashtable::table;
use pending::Pending;

// One turn. STALE is passed where the commit has VISIBLE and HIDDEN, and it is not marked itself.
fn turn(
    kind: Kind,
    names: &mut [u8],
    marks: &mut [u8],
    levels: &mut [u32],
    times: &mut [i64],
    line: &mut [u32],
    cap: usize,
    cache: Option<Layout>,
    graph: &[u8],
    store: &[u8],
    p: Pending,
) -> Marked
    ensures { TakesTurn (width_of kind) cache graph.now store.now cap (lent names.old marks.old levels.old times.old line.old) (lent names.new marks.new levels.new times.new line.new) p result }
{
    let Some(t) = pending::pop(p, line, levels, times) else {
        return Ok(p);
    };
    let given = bits::passed_bits(table::mark_of(marks, t.slot as usize));
    let commit = parents::read_parents(
        kind,
        cache,
        graph,
        store,
        table::id_of(kind, names, t.slot as usize),
    );
    lists::pass_to_parents(
        kind, names, marks, levels, times, line, cap, cache, graph, store, t.pending, commit, given,
    )
}

// The turns, at most `most` of them.
pub fn turns(
    kind: Kind,
    names: &mut [u8],
    marks: &mut [u8],
    levels: &mut [u32],
    times: &mut [i64],
    line: &mut [u32],
    cap: usize,
    cache: Option<Layout>,
    graph: &[u8],
    store: &[u8],
    p: Pending,
    most: usize,
) -> Marked
    ensures { TakesTurns (width_of kind) cache graph.now store.now cap (lent names.old marks.old levels.old times.old line.old) (lent names.new marks.new levels.new times.new line.new) p most result }
{
    let mut q = p;
    for _i in 0..most {
        if !pending::any_lacking(q, line, marks) {
            return Ok(q);
        }
        q = turn(
            kind, names, marks, levels, times, line, cap, cache, graph, store, q,
        )?;
    }
    Ok(q)
}
