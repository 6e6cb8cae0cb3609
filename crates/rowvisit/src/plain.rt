// A plain row, whose parents, none, one or two, stand in the row itself: what most calls over a commit-graph file come to. For the call in place: each
// function has one caller, and is compiled into it.
ghost use Rattle.hash.specs.Bytes.{width_of};
ghost use Rattle.revwalk.specs.Queue.{Pops};
ghost use Rattle.state.specs.Shapes.{waiting_in};
ghost use Rattle.state.specs.Steps.{mem};
ghost use Rattle.rowvisit.specs.Numbers.{Numbers};
ghost use Rattle.rowvisit.specs.Row.{VisitsRowParent, VisitsRow};
ghost use Rattle.rowvisit.specs.Plain.{TakesFirst, TakesPlain};

use crate::row::{followed_count, set_parent};
use crate::{ahead, numbers};
use commitgraph::{Layout, Level, rows};
use date::Seconds;
use links::insert_into_seen_and_next_or_queue;
use revwalk::queue::{Popped, Queue, heap, ring};
use state::{Record, Waiting};
use walk::Settings;

// The first of the queue, with the seconds of its slot, was taken, and the parents of its row visited.
#[derive(Clone, Copy)]
struct Left {
    seconds: Seconds,
    after: Waiting,
}

// The same with the number of its parents and its level.
#[derive(Clone, Copy)]
pub struct PlainTaken {
    pub after: Waiting,
    pub parents: usize,
    pub level: Level,
    pub seconds: Seconds,
}

// Sets down and visits parent k of the row at a position.
fn visit_plain_parent(
    r: Record,
    w: Waiting,
    graph: &[u8],
    l: Layout,
    position: usize,
    first: u32,
    second: u32,
    k: usize,
    names: &mut [u8],
    marks: &mut [u8],
    levels: &mut [u32],
    times: &mut [i64],
    line: &mut [u32],
    parents: &mut [u8],
    excluded: &[u8],
    settings: Settings,
) -> Waiting
    requires { Numbers (width_of settings.kind) graph.now l position first second }
    ensures { VisitsRowParent excluded.now settings graph.now l position k (waiting_in r w) (mem names.old marks.old times.old line.old) (mem names.new marks.new times.new line.new) parents.old parents.new (waiting_in r result) }
{
    let kind = settings.kind;
    let parent = numbers::parent(kind, graph, l, position, first, second, k);
    let id = rows::id_at(kind, graph, l, parent);
    set_parent(kind, parents, k, id);
    insert_into_seen_and_next_or_queue(
        r, w, names, marks, levels, times, line, excluded, settings, graph, l, parent, id,
    )
}

// Sets down and visits the first n parents of the row at a position, whose list was found good before.
fn visit_plain_parents(
    r: Record,
    w: Waiting,
    graph: &[u8],
    l: Layout,
    position: usize,
    first: u32,
    second: u32,
    n: usize,
    names: &mut [u8],
    marks: &mut [u8],
    levels: &mut [u32],
    times: &mut [i64],
    line: &mut [u32],
    parents: &mut [u8],
    excluded: &[u8],
    settings: Settings,
) -> Waiting
    requires { Numbers (width_of settings.kind) graph.now l position first second }
    ensures { VisitsRow excluded.now settings graph.now l position n (waiting_in r w) (mem names.old marks.old times.old line.old) (mem names.new marks.new times.new line.new) parents.old parents.new (waiting_in r result) }
{
    let mut at = w;
    for k in 0..n {
        at = visit_plain_parent(
            r, at, graph, l, position, first, second, k, names, marks, levels, times, line,
            parents, excluded, settings,
        );
    }
    at
}

// Hands out the first slot of a queue: what `queue::pop` does, with the heap and the ring apart.
fn pop(q: Queue, line: &mut [u32], times: &[i64]) -> Option<Popped>
    ensures { Pops q times.now line.old line.new result }
{
    if q.timed {
        return heap::pop(q, line, times);
    }
    ring::pop(q, line)
}

// Takes the first of the queue, and visits the first n parents of the row at a position; where nothing waits, nothing is changed.
fn take_first(
    r: Record,
    graph: &[u8],
    l: Layout,
    position: usize,
    first: u32,
    second: u32,
    n: usize,
    names: &mut [u8],
    marks: &mut [u8],
    levels: &mut [u32],
    times: &mut [i64],
    line: &mut [u32],
    parents: &mut [u8],
    excluded: &[u8],
    settings: Settings,
) -> Option<Left>
    requires { Numbers (width_of settings.kind) graph.now l position first second }
    ensures { TakesFirst excluded.now settings graph.now l position n r names.old marks.old times.old line.old (mem names.new marks.new times.new line.new) levels.old levels.new parents.old parents.new result }
{
    let kind = settings.kind;
    let p = pop(r.queue, line, times)?;
    let queue = p.queue;
    let rest = Waiting {
        queue,
        admitted: r.admitted,
    };
    let seconds = revwalk::seconds_of(times, p.slot);
    ahead::look_ahead(kind, graph, l, first, names, marks, queue.cap, levels);
    Some(Left {
        seconds,
        after: visit_plain_parents(
            r, rest, graph, l, position, first, second, n, names, marks, levels, times, line,
            parents, excluded, settings,
        ),
    })
}

// Takes the first of the queue, and visits the parents of the row at a position, those that the mode follows, where that is a plain row; else nothing is
// changed.
pub fn take_plain(
    r: Record,
    graph: &[u8],
    l: Layout,
    position: usize,
    names: &mut [u8],
    marks: &mut [u8],
    levels: &mut [u32],
    times: &mut [i64],
    line: &mut [u32],
    parents: &mut [u8],
    excluded: &[u8],
    settings: Settings,
) -> Option<PlainTaken>
    ensures { TakesPlain excluded.now settings graph.now l position r names.old marks.old times.old line.old (mem names.new marks.new times.new line.new) levels.old levels.new parents.old parents.new result }
{
    let kind = settings.kind;
    let row = rows::row(kind, graph, l, position);
    let width = hash::width(kind);
    let first = hash::be32(row, width);
    let second = hash::be32(row, width + 4);
    let third = hash::be32(row, width + 8);
    let count = numbers::plain_count(l.count, first, second);
    if !numbers::is_plain(count, first, second) {
        return None;
    }
    let n = followed_count(settings, count);
    let Some(left) = take_first(
        r, graph, l, position, first, second, n, names, marks, levels, times, line, parents,
        excluded, settings,
    ) else {
        return None;
    };
    Some(PlainTaken {
        after: left.after,
        parents: n,
        level: numbers::level(l, third),
        seconds: left.seconds,
    })
}
