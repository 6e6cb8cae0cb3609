// A next call's reading of a commit's row in the commit-graph file.
ghost use Rattle.std.specs.Prelude.{◌≡◌};
ghost use Rattle.commitgraph.specs.Graph.{parents_in};
ghost use Rattle.reading.specs.Row.{row_read_of, level_of, row_parent};
ghost use Rattle.walk.specs.Next.{level_shown};
ghost use Rattle.walk.specs.Given.{level_given};
ghost use Rattle.hash.specs.Bytes.{width_of};

use commitgraph::{Layout, Level, parents, rows};
use hash::Kind;

// What a row says of a commit: how many parents it has, and its level.
#[derive(Clone, Copy)]
pub struct RowRead {
    pub parents: usize,
    pub level: Level,
}

// A row's level as an answer shows it: none, where it is that of a commit without one, since the file's levels are not used.
pub fn level_shown(level: Level) -> Option<Level>
    ensures { result ≡ level_given (level_shown level.0) }
{
    if level.0 == rows::NO_GENERATION {
        return None;
    }
    Some(level)
}

// The parents of the row at a position (`collect_parents` in the Rust), none where the list is corrupt: the whole list is judged here, before any of them
// is set down.
pub fn collect_parents(kind: Kind, graph: &[u8], l: Layout, position: usize) -> Option<RowRead>
    ensures { result ≡ row_read_of (level_of (width_of kind) graph.now l position) (parents_in (width_of kind) graph.now l position) }
{
    match parents::parents(kind, graph, l, position) {
        Some(n) => Some(RowRead {
            parents: n,
            level: rows::level(kind, graph, l, position),
        }),
        None => None,
    }
}

// The id of parent k of the row at a position, by its place in the row's list: a part of the file.
pub fn row_parent<'a>(kind: Kind, graph: &'a [u8], l: Layout, position: usize, k: usize) -> &'a [u8]
    ensures { result.now ≡ row_parent (width_of kind) graph.now l position k }
{
    let parent = parents::parent(kind, graph, l, position, k);
    rows::id_at(kind, graph, l, parent)
}
