// The parents of a commit from the commit-graph file.
ghost use Rattle.state.specs.Shapes.{waiting_in};
ghost use Rattle.state.specs.Steps.{mem};
ghost use Rattle.rowvisit.specs.Numbers.{Numbers};
ghost use Rattle.rowvisit.specs.Row.{Follows, SetsParent, VisitsRowParent, VisitsRow, VisitsCached};
ghost use Rattle.hash.specs.Bytes.{width_of};

use crate::{ahead, numbers};
use commitgraph::{Layout, Level, rows};
use hash::Kind;
use links::{insert_into_seen_and_queue_cached, only_first};
use state::{Record, Waiting};
use walk::Settings;

// The parents of a row that were visited, how many they are, and the row's level.
#[derive(Clone, Copy)]
pub struct RowVisited {
    pub after: Waiting,
    pub parents: usize,
    pub level: Level,
}

// The most parents of a commit.
const MOST_PARENTS: usize = 256;

// Sets down the id of parent k in the bytes that are its place; a longer one is not set down.
pub(crate) fn set_parent(kind: Kind, parents: &mut [u8], k: usize, id: &[u8])
    ensures { SetsParent (width_of kind) k id.now parents.old parents.new }
{
    if k < MOST_PARENTS && id.len() <= hash::width(kind) {
        hash::set_nth(kind, parents, k, id);
    }
}

// Sets down and visits parent k of the row at a position: its id goes from the file to the buffers, its seconds are those of its own row.
fn visit_row_parent(
    r: Record,
    w: Waiting,
    graph: &[u8],
    l: Layout,
    position: usize,
    first: u32,
    second: u32,
    k: usize,
    names: &mut [u8],
    marks: &mut [u8],
    levels: &mut [u32],
    times: &mut [i64],
    line: &mut [u32],
    parents: &mut [u8],
    excluded: &[u8],
    settings: Settings,
) -> Waiting
    requires { Numbers (width_of settings.kind) graph.now l position first second }
    ensures { VisitsRowParent excluded.now settings graph.now l position k (waiting_in r w) (mem names.old marks.old times.old line.old) (mem names.new marks.new times.new line.new) parents.old parents.new (waiting_in r result) }
{
    let kind = settings.kind;
    let parent = numbers::parent(kind, graph, l, position, first, second, k);
    let id = rows::id_at(kind, graph, l, parent);
    set_parent(kind, parents, k, id);
    insert_into_seen_and_queue_cached(
        r, w, names, marks, levels, times, line, excluded, settings, graph, l, parent, id,
    )
}

// Sets down and visits the first n parents of the row at a position, whose list was found good before.
fn visit_row(
    r: Record,
    w: Waiting,
    graph: &[u8],
    l: Layout,
    position: usize,
    first: u32,
    second: u32,
    n: usize,
    names: &mut [u8],
    marks: &mut [u8],
    levels: &mut [u32],
    times: &mut [i64],
    line: &mut [u32],
    parents: &mut [u8],
    excluded: &[u8],
    settings: Settings,
) -> Waiting
    requires { Numbers (width_of settings.kind) graph.now l position first second }
    ensures { VisitsRow excluded.now settings graph.now l position n (waiting_in r w) (mem names.old marks.old times.old line.old) (mem names.new marks.new times.new line.new) parents.old parents.new (waiting_in r result) }
{
    let mut at = w;
    for k in 0..n {
        at = visit_row_parent(
            r, at, graph, l, position, first, second, k, names, marks, levels, times, line,
            parents, excluded, settings,
        );
    }
    at
}

// How many of n parents are followed.
pub(crate) fn followed_count(settings: Settings, n: usize) -> usize
    ensures { Follows settings n result }
{
    if only_first(settings) && 1 < n {
        return 1;
    }
    n
}

// The parents of the row at a position, those that the mode follows: the whole list is judged first. Where it is corrupt, nothing is set down,
// seen or queued.
pub fn visit_cached(
    r: Record,
    w: Waiting,
    graph: &[u8],
    l: Layout,
    position: usize,
    names: &mut [u8],
    marks: &mut [u8],
    levels: &mut [u32],
    times: &mut [i64],
    line: &mut [u32],
    parents: &mut [u8],
    excluded: &[u8],
    settings: Settings,
) -> Option<RowVisited>
    ensures { VisitsCached excluded.now settings graph.now l position r w (mem names.old marks.old times.old line.old) (mem names.new marks.new times.new line.new) levels.old levels.new parents.old parents.new result }
{
    let kind = settings.kind;
    let row = rows::row(kind, graph, l, position);
    let width = hash::width(kind);
    let first = hash::be32(row, width);
    let second = hash::be32(row, width + 4);
    let third = hash::be32(row, width + 8);
    match numbers::collect_parents(kind, graph, l, position, first, second, third) {
        Some(read) => {
            let n = followed_count(settings, read.parents);
            ahead::look_ahead(kind, graph, l, first, names, marks, r.queue.cap, levels);
            Some(RowVisited {
                after: visit_row(
                    r, w, graph, l, position, first, second, n, names, marks, levels, times, line,
                    parents, excluded, settings,
                ),
                parents: n,
                level: read.level,
            })
        }
        None => None,
    }
}
