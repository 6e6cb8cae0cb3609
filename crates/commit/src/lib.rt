// What the two files say of a commit (gix_traverse::commit): `find`, the commit-graph file before the commit store.
#![tactic(auto)]

ghost use Rattle.std.specs.Prelude.{◌≡◌};
ghost use Rattle.hash.specs.Bytes.{width_of};
ghost use Rattle.commit.specs.Find.{in_graph, in_store, FindsCommit, from_to, part_in_graph, part_in_store, part_of};

use commitgraph::{Layout, rows};
use hash::Kind;
use odb::Located;

// Which file has a commit, and where: the position of its row in the commit-graph file, and the row's bytes; or the bytes of its body in
// the commit store. Bytes are told by the first and the one after the last. (The Rust holds the references themselves; `part_of_graph`,
// `part_of_store` and `part` give them.)
#[derive(Clone, Copy)]
pub enum Either {
    CachedCommit {
        position: usize,
        start: usize,
        end: usize,
    },
    CommitRefIter {
        start: usize,
        end: usize,
    },
    Absent,
}

// The row at a position, as an answer.
fn in_graph(kind: Kind, graph: &[u8], l: Layout, position: usize) -> Either
    ensures { result ≡ in_graph (width_of kind) graph.now l position }
{
    Either::CachedCommit {
        position,
        start: rows::start(kind, graph, l, position),
        end: rows::end(kind, graph, l, position),
    }
}

// What the store has, as an answer.
fn in_store(at: Located) -> Either
    ensures { result ≡ in_store at }
{
    match at {
        Located::Body { start, end } => Either::CommitRefIter { start, end },
        Located::Absent => Either::Absent,
    }
}

// Which of the two files has a commit: the graph comes before the store. Its row may stand at position near, or its body under entry near,
// which is looked at first in each; on good files any other number gives the same answer.
pub fn find(
    kind: Kind,
    cache: Option<Layout>,
    graph: &[u8],
    store: &[u8],
    id: &[u8],
    near: usize,
) -> Either
    ensures { FindsCommit (width_of kind) cache graph.now store.now id.now result }
{
    match cache {
        Some(l) => match rows::lookup_near(kind, graph, l, id, near) {
            Some(p) => in_graph(kind, graph, l, p),
            None => in_store(odb::locate_near(kind, store, id, near)),
        },
        None => in_store(odb::locate_near(kind, store, id, near)),
    }
}

// The bytes of a file from start up to end, as far as they stand in it.
fn bytes(file: &[u8], start: usize, end: usize) -> &[u8]
    ensures { result.now ≡ from_to file.now start end }
{
    if end < start {
        return hash::part(file, start, 0);
    }
    hash::part(file, start, end - start)
}

// The row of the commit-graph file that an answer names: a part of the file itself and not a copy; empty where it names none there.
pub fn part_of_graph(at: Either, graph: &[u8]) -> &[u8]
    ensures { result.now ≡ part_in_graph at graph.now }
{
    match at {
        Either::CachedCommit { start, end, .. } => bytes(graph, start, end),
        Either::CommitRefIter { .. } => bytes(graph, 0, 0),
        Either::Absent => bytes(graph, 0, 0),
    }
}

// The body in the commit store that an answer names, likewise: the walk and the painting read a commit's body so.
pub fn part_of_store(at: Either, store: &[u8]) -> &[u8]
    ensures { result.now ≡ part_in_store at store.now }
{
    match at {
        Either::CachedCommit { .. } => bytes(store, 0, 0),
        Either::CommitRefIter { start, end } => bytes(store, start, end),
        Either::Absent => bytes(store, 0, 0),
    }
}

// The part of a file that an answer names: a row of the commit-graph file or a body of the commit store, whichever it is; empty where it
// names none. Both files are lent for one time, as the part is one's or the other's.
pub fn part<'a>(at: Either, graph: &'a [u8], store: &'a [u8]) -> &'a [u8]
    ensures { result.now ≡ part_of at graph.now store.now }
{
    match at {
        Either::CachedCommit { .. } => part_of_graph(at, graph),
        Either::CommitRefIter { .. } => part_of_store(at, store),
        Either::Absent => part_of_store(at, store),
    }
}
