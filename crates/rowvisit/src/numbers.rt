// A row's numbers, read once: its parents are told by the first two, so that neither the row nor the layout is looked at again for each of them. Each
// function has one caller, and is small, so that it is compiled into the loop over the parents.
ghost use Rattle.std.specs.Prelude.{◌≡◌, cond, true, ◌+◌, ◌*◌, ◌/◌, ◌<◌, min};
ghost use Rattle.hash.specs.Bytes.{u32_at, width_of};
ghost use Rattle.commitgraph.specs.Graph.{edge_in, no_generation, no_parent, parent_in, parents_in, row_in};
ghost use Rattle.reading.specs.Row.{level_of, row_read_of};
ghost use Rattle.rowvisit.specs.Numbers.{Numbers, PlainList};

use commitgraph::{Layout, Level, rows};
use hash::Kind;
use reading::RowRead;

// A parent that is none: the file's own number.
const NONE: u32 = 0x70000000;

// The bit that marks a pointer into EDGE, and in EDGE the last parent.
const TOP: u32 = 0x80000000;

fn wide(x: u32) -> usize
    ensures { (result ≡ x) × (result < 4294967296) }
{
    x as usize
}

// The place of number p, where numbers of 4 bytes stand from start on; len, the end of the file, where that is past it.
fn place(len: usize, start: usize, p: usize) -> usize
    ensures { result ≡ min (start + 4 * p) len }
{
    if len <= start {
        return len;
    }
    if (len - start) / 4 < p {
        return len;
    }
    start + 4 * p
}

// The entry of EDGE that is i past entry from.
fn edge(graph: &[u8], l: Layout, from: usize, i: usize) -> u32
    ensures { result ≡ edge_in graph.now l (from + i) }
{
    let list = place(graph.len(), l.edge, from);
    hash::be32(graph, place(graph.len(), list, i))
}

// The position of parent k of the row at a position, by the row's numbers (`commitgraph::parents::parent`, which reads them).
pub(crate) fn parent(
    kind: Kind,
    graph: &[u8],
    l: Layout,
    position: usize,
    first: u32,
    second: u32,
    k: usize,
) -> usize
    requires { Numbers (width_of kind) graph.now l position first second }
    ensures { result ≡ parent_in (width_of kind) graph.now l position k }
{
    if k == 0 {
        return wide(first);
    }
    if second < TOP {
        return wide(second);
    }
    wide(edge(graph, l, wide(second % TOP), k - 1) % TOP)
}

// How many parents a row has whose list does not go on in EDGE and is good, one or two; 0 of any other row.
pub(crate) fn plain_count(count: usize, first: u32, second: u32) -> usize
    ensures { PlainList count first second result }
{
    if first == NONE {
        return 0;
    }
    if count <= wide(first) {
        return 0;
    }
    if second == NONE {
        return 1;
    }
    if TOP <= second {
        return 0;
    }
    if count <= wide(second) {
        return 0;
    }
    2
}

// Whether a row's list stands in the row itself, of which plain_count told n parents: it has one or two, or none.
pub(crate) fn is_plain(n: usize, first: u32, second: u32) -> bool
    ensures { result ≡ true → n ≡ 0 → (first ≡ no_parent) × (second ≡ no_parent) }
{
    if n != 0 {
        return true;
    }
    if first != NONE {
        return false;
    }
    second == NONE
}

// The level of a row by its third number: that of a commit without a row, where the file's levels are not used.
pub(crate) fn level(l: Layout, third: u32) -> Level
    ensures { result.0 ≡ cond l.levels (third / 4) no_generation }
{
    if l.levels {
        return Level(third / 4);
    }
    Level(rows::NO_GENERATION)
}

// The parents of the row at a position (`collect_parents` in the Rust), by its numbers where one or two parents are listed in the row itself; any
// other list is read and judged by `reading`.
pub(crate) fn collect_parents(
    kind: Kind,
    graph: &[u8],
    l: Layout,
    position: usize,
    first: u32,
    second: u32,
    third: u32,
) -> Option<RowRead>
    requires { Numbers (width_of kind) graph.now l position first second × (third ≡ u32_at (row_in (width_of kind) graph.now l position) (width_of kind + 8)) }
    ensures { result ≡ row_read_of (level_of (width_of kind) graph.now l position) (parents_in (width_of kind) graph.now l position) }
{
    let n = plain_count(l.count, first, second);
    if n == 0 {
        return reading::collect_parents(kind, graph, l, position);
    }
    Some(RowRead {
        parents: n,
        level: level(l, third),
    })
}
