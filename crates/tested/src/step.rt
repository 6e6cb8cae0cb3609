// One commit of the line is read: its body once, its row beside it, its parents noted, and their cells lowered by its pair.
ghost use Rattle.std.specs.Prelude.{◌≡◌};
ghost use Rattle.object.specs.Header.{header};
ghost use Rattle.hashtable.specs.Table.{id_of};
ghost use Rattle.reading.specs.Stored.{GivesBody};
ghost use Rattle.judging.specs.Judge.{Judges};
ghost use Rattle.walk.specs.Lookup.{pair_of};
ghost use Rattle.tested.specs.Passes.{held, Takes, StepsRead, StepsIn, Steps};
ghost use Rattle.hash.specs.Bytes.{width_of};

use crate::ahead;
use commitgraph::Layout;
use date::Seconds;
use hash::Kind;
use hashtable::table;
use judging::Judged;
use object::ReadableHeader;
use walk::GenThenTime;

// Why the pass stops short: a commit is not readable; the commit-graph file is at odds with one, where the line has so many slots; or the lent
// memory is too small.
#[derive(Clone, Copy)]
pub enum StepError {
    Unreadable,
    AtOdds(usize),
    NoRoom,
}

// The body of the commit in a slot, a part of the store; empty where the store has none. It may stand under entry near.
fn body_in<'a>(kind: Kind, names: &[u8], slot: u32, store: &'a [u8], near: usize) -> &'a [u8]
    ensures { GivesBody (width_of kind) store.now (id_of (width_of kind) names.now slot) result.now }
{
    let id = table::id_of(kind, names, slot as usize);
    odb::body(store, odb::locate_near(kind, store, id, near))
}

// The commit in a slot, whose body has n parents and these seconds, beside its row.
fn judge_in(
    kind: Kind,
    names: &[u8],
    slot: u32,
    cache: Option<Layout>,
    graph: &[u8],
    store: &[u8],
    near: usize,
    body: &[u8],
    n: usize,
    seconds: Seconds,
) -> Option<Judged>
    ensures { Judges (width_of kind) cache graph.now store.now (id_of (width_of kind) names.now slot) body.now n seconds.0 result }
{
    let id = table::id_of(kind, names, slot as usize);
    judging::judge(kind, cache, graph, store, id, near, body, n, seconds)
}

// The commit in a slot has this pair and so many parents in its body: the parents are noted after the n of the line, the pair is set down, and
// their cells lowered. (The pair's two places are lines of memory that nothing has touched before. Set down first, noting would wait for them.)
fn take(
    kind: Kind,
    names: &mut [u8],
    marks: &mut [u8],
    levels: &mut [u32],
    times: &mut [i64],
    line: &mut [u32],
    cap: usize,
    from: usize,
    n: usize,
    slot: u32,
    pair: GenThenTime,
    body: &[u8],
    parents: usize,
    graph: &[u8],
    l: Layout,
    position: usize,
) -> Result<usize, StepError>
    ensures { Takes (width_of kind) cap from (held names.old marks.old levels.old times.old line.old) (held names.new marks.new levels.new times.new line.new) n slot (pair_of pair) (header (width_of kind) body.now) parents result }
{
    let grown = reach::note_parents(kind, names, marks, line, cap, false, from, n, body, parents);
    let Some(m) = grown else {
        return Err(StepError::NoRoom);
    };
    falling::set_pair(levels, times, slot, pair);
    falling::lower_parents(
        kind, names, marks, levels, times, line, cap, from, n, m, slot, body, parents, graph, l,
        position,
    );
    Ok(m)
}

// The commit in a slot, whose body has so many parents and these seconds: its row beside it says whether it is taken.
fn judge_and_take(
    kind: Kind,
    names: &mut [u8],
    marks: &mut [u8],
    levels: &mut [u32],
    times: &mut [i64],
    line: &mut [u32],
    cap: usize,
    from: usize,
    cache: Option<Layout>,
    graph: &[u8],
    store: &[u8],
    n: usize,
    slot: u32,
    near: usize,
    words: u32,
    body: &[u8],
    parents: usize,
    seconds: Seconds,
) -> Result<usize, StepError>
    ensures { StepsRead (width_of kind) cache graph.now store.now cap from (held names.old marks.old levels.old times.old line.old) (held names.new marks.new levels.new times.new line.new) n slot body.now parents seconds.0 result }
{
    let judged = judge_in(
        kind, names, slot, cache, graph, store, near, body, parents, seconds,
    );
    match judged {
        Some(found) => take(
            kind,
            names,
            marks,
            levels,
            times,
            line,
            cap,
            from,
            n,
            slot,
            found.pair,
            body,
            parents,
            graph,
            reading::layout_of(cache),
            ahead::kept_beside(words, found.position),
        ),
        None => Err(StepError::AtOdds(n)),
    }
}

// Reads the commit in a slot, which may stand under entry near. The words read ahead only come along.
fn read_in(
    kind: Kind,
    names: &mut [u8],
    marks: &mut [u8],
    levels: &mut [u32],
    times: &mut [i64],
    line: &mut [u32],
    cap: usize,
    from: usize,
    cache: Option<Layout>,
    graph: &[u8],
    store: &[u8],
    n: usize,
    slot: u32,
    near: usize,
    words: u32,
) -> Result<usize, StepError>
    ensures { StepsIn (width_of kind) cache graph.now store.now cap from (held names.old marks.old levels.old times.old line.old) (held names.new marks.new levels.new times.new line.new) n slot result }
{
    let body = body_in(kind, names, slot, store, near);
    match object::readable(kind, body) {
        Ok(ReadableHeader { parents, stamp }) => judge_and_take(
            kind,
            names,
            marks,
            levels,
            times,
            line,
            cap,
            from,
            cache,
            graph,
            store,
            n,
            slot,
            near,
            words,
            body,
            parents,
            stamp.seconds,
        ),
        Err(_) => Err(StepError::Unreadable),
    }
}

// Reads the commit at place k of the n: how many slots the line has then.
pub fn read_at(
    kind: Kind,
    names: &mut [u8],
    marks: &mut [u8],
    levels: &mut [u32],
    times: &mut [i64],
    line: &mut [u32],
    cap: usize,
    from: usize,
    cache: Option<Layout>,
    graph: &[u8],
    store: &[u8],
    n: usize,
    k: usize,
) -> Result<usize, StepError>
    ensures { Steps (width_of kind) cache graph.now store.now cap from (held names.old marks.old levels.old times.old line.old) (held names.new marks.new levels.new times.new line.new) n k result }
{
    let slot = falling::slot_after(line, from, k);
    let near = falling::hint_of(line, slot);
    let words = ahead::words_ahead(
        kind, names, marks, line, cap, from, n, k, cache, graph, store, near,
    );
    read_in(
        kind, names, marks, levels, times, line, cap, from, cache, graph, store, n, slot, near,
        words,
    )
}
