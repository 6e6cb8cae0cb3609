// What the walk and the painting read of one commit, in the commit-graph file and in the commit store. Every function is total and
// safe on any bytes.
#![tactic(auto)]

mod body;
mod ids;
mod row;
mod stored;
mod tip;

ghost use Rattle.std.specs.Prelude.{◌≡◌};
ghost use Rattle.object.specs.Header.{header};
ghost use Rattle.object.specs.Read.{reading_of};
ghost use Rattle.commitgraph.specs.Graph.{parents_in};
ghost use Rattle.reading.specs.Files.{cache_with, layout_under};
ghost use Rattle.reading.specs.Whole.{pair_in, row_commit, body_commit, ReadsCommit, place_of, GivesParent};
ghost use Rattle.hash.specs.Bytes.{width_of};

pub use body::{BodyEnd, BodyRead, body_parent, read_body};
use commit::Either;
use commitgraph::{Layout, Level, parents, rows};
use hash::Kind;
pub use ids::is_among;
use object::{HeaderError, ObjectId, ReadableHeader};
use odb::Located;
pub use row::{RowRead, collect_parents, level_shown, row_parent};
pub use stored::stored_body;
pub use tip::{TipError, read_tip, seconds_for, seconds_noting, zone_past};
use walk::{GenThenTime, Refusal};

// A commit that was read whole, as painting does: where it stands, how many parents it has, and its place in the painting's order; or why
// it cannot be read.
#[derive(Clone, Copy)]
pub enum Commit {
    Row {
        position: usize,
        parents: usize,
        pair: GenThenTime,
    },
    Body {
        start: usize,
        end: usize,
        parents: usize,
        pair: GenThenTime,
    },
    Failed(Refusal),
}

// No position in the commit-graph file and no number of an entry in the store: where no place of a commit is known.
pub const NOWHERE: usize = 4294967295;

// The commit-graph file as it is used, by the layout that its opening found: not at all where it is empty or was dropped.
pub fn cache_of(graph: &[u8], layout: Layout, kept: bool) -> Option<Layout>
    ensures { result ≡ cache_with graph.now layout kept }
{
    if kept {
        if graph.len() == 0 {
            return None;
        }
        return Some(layout);
    }
    None
}

// Where the chunks of the file stand; without a file all is 0.
pub fn layout_of(cache: Option<Layout>) -> Layout
    ensures { result ≡ layout_under cache }
{
    match cache {
        Some(l) => l,
        None => Layout {
            fan: 0,
            ids: 0,
            rows: 0,
            edge: 0,
            edges: 0,
            count: 0,
            levels: false,
        },
    }
}

// The commit of the row at a position.
fn row_commit(kind: Kind, graph: &[u8], l: Layout, position: usize) -> Commit
    ensures { result ≡ row_commit position (pair_in (width_of kind) graph.now l position) (parents_in (width_of kind) graph.now l position) }
{
    match parents::parents(kind, graph, l, position) {
        Some(n) => Commit::Row {
            position,
            parents: n,
            pair: GenThenTime {
                generation: rows::level(kind, graph, l, position),
                time: rows::seconds(kind, graph, l, position),
            },
        },
        None => Commit::Failed(Refusal::CommitUnreadable),
    }
}

// The commit of a body, which stands from start to end in the store.
fn body_commit(kind: Kind, body: &[u8], start: usize, end: usize) -> Commit
    ensures { result ≡ body_commit start end (reading_of (header (width_of kind) body.now)) }
{
    match object::readable(kind, body) {
        Ok(ReadableHeader { parents, stamp }) => {
            let time = stamp.seconds;
            Commit::Body {
                start,
                end,
                parents,
                pair: GenThenTime {
                    generation: Level(rows::NO_GENERATION),
                    time,
                },
            }
        }
        Err(HeaderError::Bad) => Commit::Failed(Refusal::CommitUnreadable),
        Err(HeaderError::Crowded) => Commit::Failed(Refusal::TooManyParents),
    }
}

// One commit, read whole: its graph row, else its body. It may stand at near, as `find` has it: a position in the commit-graph file or the
// number of an entry in the store, which is looked at first; on good files any other number gives the same answer.
pub fn read_commit(
    kind: Kind,
    cache: Option<Layout>,
    graph: &[u8],
    store: &[u8],
    id: &[u8],
    near: usize,
) -> Commit
    ensures { ReadsCommit (width_of kind) cache graph.now store.now id.now result }
{
    let at = commit::find(kind, cache, graph, store, id, near);
    match at {
        Either::CachedCommit { position, .. } => row_commit(
            kind,
            graph,
            layout_of(cache),
            position,
        ),
        Either::CommitRefIter { start, end } => body_commit(
            kind,
            commit::part_of_store(at, store),
            start,
            end,
        ),
        Either::Absent => Commit::Failed(Refusal::CommitNotFound),
    }
}

// Where parent k of a commit that `read_commit` gave may be looked at first: a row names its parents by their positions in the commit-graph
// file; of a body's parents no place is known.
pub fn parent_near(
    kind: Kind,
    commit: Commit,
    k: usize,
    cache: Option<Layout>,
    graph: &[u8],
) -> usize
    ensures { result ≡ place_of (width_of kind) cache graph.now commit k }
{
    match commit {
        Commit::Row { position, .. } => parents::parent(kind, graph, layout_of(cache), position, k),
        Commit::Body { .. } => NOWHERE,
        Commit::Failed(_) => NOWHERE,
    }
}

// The id of parent k of a commit that `read_commit` gave.
pub fn parent_of(
    kind: Kind,
    commit: Commit,
    k: usize,
    cache: Option<Layout>,
    graph: &[u8],
    store: &[u8],
) -> ObjectId
    ensures { GivesParent (width_of kind) cache graph.now store.now commit k result }
{
    match commit {
        Commit::Row { position, .. } => object::id_of(row_parent(
            kind,
            graph,
            layout_of(cache),
            position,
            k,
        )),
        Commit::Body { start, end, .. } => body_parent(
            kind,
            odb::body(store, Located::Body { start, end }),
            k,
        ),
        Commit::Failed(_) => ObjectId { bytes: [0u8; 32] },
    }
}
