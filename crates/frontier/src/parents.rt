// The parents of a commit that was read before: its row or its body is found again, and of it only the parents are asked.
ghost use Rattle.std.specs.Prelude.{◌≡◌};
ghost use Rattle.commitgraph.specs.Graph.{parents_in};
ghost use Rattle.reading.specs.Whole.{row_commit};
ghost use Rattle.reading.specs.declared.Commit.TheVariants.{Body};
ghost use Rattle.frontier.specs.Parents.{no_pair, lines_in, ReadsParents};
ghost use Rattle.hash.specs.Bytes.{width_of};

use commit::Either;
use commitgraph::{Layout, Level, parents};
use date::Seconds;
use hash::Kind;
use reading::{Commit, NOWHERE};
use walk::{GenThenTime, Refusal};

// A pair that says nothing.
fn no_pair() -> GenThenTime
    ensures { result ≡ no_pair }
{
    GenThenTime {
        generation: Level(0),
        time: Seconds(0),
    }
}

// The commit of the row at a position, without its pair.
fn row_parents(kind: Kind, graph: &[u8], l: Layout, position: usize) -> Commit
    ensures { result ≡ row_commit position no_pair (parents_in (width_of kind) graph.now l position) }
{
    match parents::parents(kind, graph, l, position) {
        Some(n) => Commit::Row {
            position,
            parents: n,
            pair: no_pair(),
        },
        None => Commit::Failed(Refusal::CommitUnreadable),
    }
}

// The commit of a body, which stands from start to end in the store, without its pair.
fn body_parents(kind: Kind, body: &[u8], start: usize, end: usize) -> Commit
    ensures { result ≡ Body start end (lines_in (width_of kind) body.now) no_pair }
{
    Commit::Body {
        start,
        end,
        parents: object::count_parents(kind, body, object::tree_size(kind)),
        pair: no_pair(),
    }
}

// One commit that was read before, without its pair: neither its level nor its author and committer lines are read again.
pub fn read_parents(
    kind: Kind,
    cache: Option<Layout>,
    graph: &[u8],
    store: &[u8],
    id: &[u8],
) -> Commit
    ensures { ReadsParents (width_of kind) cache graph.now store.now id.now result }
{
    let at = commit::find(kind, cache, graph, store, id, NOWHERE);
    match at {
        Either::CachedCommit { position, .. } => row_parents(
            kind,
            graph,
            reading::layout_of(cache),
            position,
        ),
        Either::CommitRefIter { start, end } => body_parents(
            kind,
            commit::part_of_store(at, store),
            start,
            end,
        ),
        Either::Absent => Commit::Failed(Refusal::CommitNotFound),
    }
}
