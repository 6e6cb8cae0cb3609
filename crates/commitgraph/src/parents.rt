// The parent lists of a commit-graph file. Total on any bytes and any layout.
ghost use Rattle.std.specs.Prelude.{◌≡◌, ◌+◌, ◌<◌};
ghost use Rattle.hash.specs.Bytes.{width_of};
ghost use Rattle.commitgraph.specs.Graph.{edge_in, edges_from, after_first, parents_in, parent_in, parent_list_of, counted_from};

use crate::{Layout, rows};
use hash::Kind;

// A parent that is none: the file's own number.
const NONE: u32 = 0x70000000;

// The bit that marks a pointer into EDGE, and in EDGE the last parent.
const TOP: u32 = 0x80000000;

// The entry of EDGE that is i past entry from. Each place is cut off at the end of the file, so that no sum of them is too large.
fn edge(graph: &[u8], l: Layout, from: usize, i: usize) -> u32
    ensures { result ≡ edge_in graph.now l (from + i) }
{
    let list = rows::place(graph.len(), l.edge, 4, from);
    hash::be32(graph, rows::place(graph.len(), list, 4, i))
}

// How many parents a row has whose list goes on in EDGE, at entry from: the first one, and one for each entry up to the last.
fn edges(graph: &[u8], l: Layout, from: usize) -> Option<usize>
    requires { from < 4294967296 }
    ensures { result ≡ counted_from 1 (edges_from graph.now l 255 from) }
{
    for i in 0..255 {
        if l.edges <= from + i {
            return None;
        }
        let v = edge(graph, l, from, i);
        if l.count <= rows::wide(v % TOP) {
            return None;
        }
        if TOP <= v {
            return Some(i + 2);
        }
    }
    None
}

// How many parents a row has whose first parent is good and whose second is b.
fn after_first(graph: &[u8], l: Layout, b: u32) -> Option<usize>
    ensures { result ≡ counted_from 1 (after_first graph.now l b) }
{
    if b == NONE {
        return Some(1);
    }
    if TOP <= b {
        return edges(graph, l, rows::wide(b % TOP));
    }
    if rows::wide(b) < l.count {
        return Some(2);
    }
    None
}

// How many parents the row at position p has, if its whole list is good.
pub fn parents(kind: Kind, graph: &[u8], l: Layout, p: usize) -> Option<usize>
    ensures { result ≡ parent_list_of (parents_in (width_of kind) graph.now l p) }
{
    let part = rows::numbers(kind, graph, l, p);
    let a = hash::be32(part, 0);
    let b = hash::be32(part, 4);
    if a == NONE {
        if b != NONE {
            return None;
        }
        return Some(0);
    }
    if l.count <= rows::wide(a) {
        return None;
    }
    after_first(graph, l, b)
}

// The position of parent k of a good list: the row's first parent, its second, or the entry of EDGE that is k - 1 past the one that
// the second points to.
pub fn parent(kind: Kind, graph: &[u8], l: Layout, p: usize, k: usize) -> usize
    ensures { result ≡ parent_in (width_of kind) graph.now l p k }
{
    let part = rows::numbers(kind, graph, l, p);
    if k == 0 {
        return rows::wide(hash::be32(part, 0));
    }
    let b = hash::be32(part, 4);
    if b < TOP {
        return rows::wide(b);
    }
    rows::wide(edge(graph, l, rows::wide(b % TOP), k - 1) % TOP)
}
