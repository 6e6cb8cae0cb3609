// One commit that is readable in the store beside its row in the commit-graph file (document 02, card 1): whether the file agrees, and the
// commit's pair. The body is read once and handed in. Every function is total and safe on any bytes and numbers.
#![tactic(auto)]

ghost use Rattle.std.specs.Prelude.{◌≡◌};
ghost use Rattle.judging.specs.Judge.{ComparesParents, ComparesRow, Judges};
ghost use Rattle.hash.specs.Bytes.{width_of};

use commitgraph::{Layout, Level, rows};
use date::Seconds;
use hash::Kind;
use reading::Commit;
use walk::GenThenTime;

// What a commit comes to, where the file agrees: its pair, and the position of its row.
#[derive(Clone, Copy)]
pub struct Judged {
    pub position: usize,
    pub pair: GenThenTime,
}

// Whether the first n parents of a row are those of a body, in order.
fn same_parents(kind: Kind, graph: &[u8], l: Layout, position: usize, body: &[u8], n: usize) -> bool
    ensures { ComparesParents (width_of kind) graph.now l position body.now n result }
{
    for k in 0..n {
        let id = reading::body_parent(kind, body, k);
        if !hash::same(
            reading::row_parent(kind, graph, l, position, k),
            object::id_slice(kind, &id.bytes),
        ) {
            return false;
        }
    }
    true
}

// Whether a row with so many parents and this time agrees with a body that has n parents and these seconds.
fn row_agrees(
    kind: Kind,
    graph: &[u8],
    l: Layout,
    position: usize,
    parents: usize,
    time: Seconds,
    body: &[u8],
    n: usize,
    seconds: Seconds,
) -> bool
    ensures { ComparesRow (width_of kind) graph.now l position parents time.0 body.now n seconds.0 result }
{
    if n != parents {
        return false;
    }
    if seconds != time {
        return false;
    }
    same_parents(kind, graph, l, position, body, n)
}

// A commit by its row, else by its body alone; none where the file is at odds with the store. (A commit that is readable in the store and cannot be
// read has a row with a corrupt list.) The row may stand at position near, and the body under that entry.
fn judge_row(
    kind: Kind,
    cache: Option<Layout>,
    graph: &[u8],
    store: &[u8],
    id: &[u8],
    near: usize,
    body: &[u8],
    n: usize,
    seconds: Seconds,
) -> Option<Judged>
    ensures { Judges (width_of kind) cache graph.now store.now id.now body.now n seconds.0 result }
{
    match reading::read_commit(kind, cache, graph, store, id, near) {
        Commit::Row {
            position,
            parents,
            pair,
        } => {
            let l = reading::layout_of(cache);
            if row_agrees(
                kind, graph, l, position, parents, pair.time, body, n, seconds,
            ) {
                return Some(Judged { position, pair });
            }
            None
        }
        Commit::Body { pair, .. } => Some(Judged {
            position: reading::NOWHERE,
            pair,
        }),
        Commit::Failed(_) => None,
    }
}

// A commit whose body has n parents and these seconds; none where the file is at odds with the store. Without a file there is nothing to agree with, and
// nothing more to read.
pub fn judge(
    kind: Kind,
    cache: Option<Layout>,
    graph: &[u8],
    store: &[u8],
    id: &[u8],
    near: usize,
    body: &[u8],
    n: usize,
    seconds: Seconds,
) -> Option<Judged>
    ensures { Judges (width_of kind) cache graph.now store.now id.now body.now n seconds.0 result }
{
    match cache {
        Some(_) => judge_row(kind, cache, graph, store, id, near, body, n, seconds),
        None => Some(Judged {
            position: reading::NOWHERE,
            pair: GenThenTime {
                generation: Level(rows::NO_GENERATION),
                time: seconds,
            },
        }),
    }
}
