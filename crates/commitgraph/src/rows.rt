// The rows of a commit-graph file: the id, the level and the committer time at a position. Total on any bytes and any layout: what
// stands past the end of the file reads as zeros, and a part of the file ends where the file does.
ghost use Rattle.std.specs.Prelude.{◌≡◌, ◌+◌, ◌*◌, ◌<◌, ◌≤◌, min, get_or};
ghost use Rattle.hash.specs.Bytes.{at, width_of};
ghost use Rattle.commitgraph.specs.Graph.{id_in, ids_below, Looks, row_size, row_in, row_start, row_end, stated_level, levelled, level_in, seconds_in};

use crate::{Layout, Level};
use date::Seconds;
use hash::Kind;

// The level of a commit that has none, a number above all others in painting's order.
pub const NO_GENERATION: u32 = 0xFFFFFFFF;

// The size of a row: the tree's id and four u32.
pub(crate) fn size(w: usize) -> usize
    requires { w ≤ 32 }
    ensures { result ≡ row_size w }
{
    w + 16
}

// The place of thing p, where things of this width stand in a row from start on; len, the end of the file, where that is past it.
pub(crate) fn place(len: usize, start: usize, width: usize, p: usize) -> usize
    requires { 0 < width }
    ensures { result ≡ min (start + width * p) len }
{
    if len <= start {
        return len;
    }
    if (len - start) / width < p {
        return len;
    }
    start + width * p
}

// The functions over the width w are called with the width of each kind by name, so that the compiled code divides and multiplies by
// constants: they read each commit of a walk.

// The id at position p: a part of the file.
fn id_in(w: usize, graph: &[u8], l: Layout, p: usize) -> &[u8]
    requires { 0 < w }
    ensures { result.now ≡ id_in w graph.now l p }
{
    hash::part(graph, place(graph.len(), l.ids, w, p), w)
}

pub fn id_at<'a>(kind: Kind, graph: &'a [u8], l: Layout, p: usize) -> &'a [u8]
    ensures { result.now ≡ id_in (width_of kind) graph.now l p }
{
    match kind {
        Kind::Sha1 => id_in(hash::width(Kind::Sha1), graph, l, p),
        Kind::Sha256 => id_in(hash::width(Kind::Sha256), graph, l, p),
    }
}

// Where the row at position p starts in the file.
fn start_in(w: usize, len: usize, l: Layout, p: usize) -> usize
    requires { w ≤ 32 }
    ensures { result ≡ min (l.rows + row_size w * p) len }
{
    place(len, l.rows, size(w), p)
}

pub fn start(kind: Kind, graph: &[u8], l: Layout, p: usize) -> usize
    ensures { result ≡ row_start (width_of kind) graph.now l p }
{
    match kind {
        Kind::Sha1 => start_in(hash::width(Kind::Sha1), graph.len(), l, p),
        Kind::Sha256 => start_in(hash::width(Kind::Sha256), graph.len(), l, p),
    }
}

// Where it ends: the byte after its last.
pub fn end(kind: Kind, graph: &[u8], l: Layout, p: usize) -> usize
    ensures { result ≡ row_end (width_of kind) graph.now l p }
{
    let from = start(kind, graph, l, p);
    let size = size(hash::width(kind));
    if graph.len() - from < size {
        return graph.len();
    }
    from + size
}

// The row at position p: a part of the file.
fn row_in(w: usize, graph: &[u8], l: Layout, p: usize) -> &[u8]
    requires { w ≤ 32 }
    ensures { result.now ≡ row_in w graph.now l p }
{
    hash::part(graph, start_in(w, graph.len(), l, p), size(w))
}

pub fn row<'a>(kind: Kind, graph: &'a [u8], l: Layout, p: usize) -> &'a [u8]
    ensures { result.now ≡ row_in (width_of kind) graph.now l p }
{
    match kind {
        Kind::Sha1 => row_in(hash::width(Kind::Sha1), graph, l, p),
        Kind::Sha256 => row_in(hash::width(Kind::Sha256), graph, l, p),
    }
}

// Its four numbers, which stand after the tree's id.
fn numbers_in(w: usize, graph: &[u8], l: Layout, p: usize) -> &[u8]
    requires { w ≤ 32 }
    ensures { result.now ≡ at (row_in w graph.now l p) w 16 }
{
    hash::part(row_in(w, graph, l, p), w, 16)
}

pub(crate) fn numbers(kind: Kind, graph: &[u8], l: Layout, p: usize) -> &[u8]
    ensures { result.now ≡ at (row_in (width_of kind) graph.now l p) (width_of kind) 16 }
{
    match kind {
        Kind::Sha1 => numbers_in(hash::width(Kind::Sha1), graph, l, p),
        Kind::Sha256 => numbers_in(hash::width(Kind::Sha256), graph, l, p),
    }
}

// The level that the row at position p states: the high 30 bits of its third number.
fn stated_level(kind: Kind, graph: &[u8], l: Layout, p: usize) -> u32
    ensures { result ≡ stated_level (width_of kind) graph.now l p }
{
    hash::be32(numbers(kind, graph, l, p), 8) / 4
}

// Whether no row states level 0, by which older programs said that they had not computed it. What stands past the end of the file reads as 0, so
// that no more rows are looked at than stand in it.
pub(crate) fn has_levels(kind: Kind, graph: &[u8], l: Layout) -> bool
    ensures { result ≡ levelled (width_of kind) graph.now l l.count }
{
    let n = l.count;
    for i in 0..n {
        if stated_level(kind, graph, l, i) == 0 {
            return false;
        }
    }
    true
}

// The level of the row at position p in its pair: that of a commit without a row, where the file's levels are not used.
pub fn level(kind: Kind, graph: &[u8], l: Layout, p: usize) -> Level
    ensures { result.0 ≡ level_in (width_of kind) graph.now l p }
{
    if l.levels {
        return Level(stated_level(kind, graph, l, p));
    }
    Level(NO_GENERATION)
}

pub(crate) fn wide(x: u32) -> usize
    ensures { (result ≡ x) × (result < 4294967296) }
{
    x as usize
}

// The committer time at position p: 34 bits, of which the third number has the highest two.
pub fn seconds(kind: Kind, graph: &[u8], l: Layout, p: usize) -> Seconds
    ensures { result.0 ≡ seconds_in (width_of kind) graph.now l p }
{
    let part = numbers(kind, graph, l, p);
    let high = wide(hash::be32(part, 8) % 4);
    let low = wide(hash::be32(part, 12));
    Seconds((high * 4294967296 + low) as i64)
}

// How many ids begin with a byte below i, as the fan-out tells.
fn ids_below(graph: &[u8], l: Layout, i: usize) -> usize
    ensures { result ≡ ids_below graph.now l i }
{
    if i == 0 {
        return 0;
    }
    wide(hash::be32(graph, place(graph.len(), l.fan, 4, i - 1)))
}

fn first_byte(id: &[u8]) -> usize
    ensures { (result ≡ get_or id.now 0 0) × (result < 256) }
{
    hash::byte_at(id, 0) as usize
}

// The position of an id, looked for among the ids that begin with the same byte.
pub fn lookup(kind: Kind, graph: &[u8], l: Layout, id: &[u8]) -> Option<usize>
    ensures { Looks (width_of kind) graph.now l id.now result }
{
    let w = hash::width(kind);
    if id.len() != w {
        return None;
    }
    let b = first_byte(id);
    let lo = ids_below(graph, l, b);
    let hi = ids_below(graph, l, b + 1);
    if l.count < hi {
        return None;
    }
    let low = (b as u32) * 16777216;
    match idlist::find_between(graph, l.ids, w, lo, hi, low, low + 16777215, id) {
        Some(p) => Some(p),
        None => None,
    }
}

// The position of an id that may stand at position near: that position is looked at first.
pub fn lookup_near(kind: Kind, graph: &[u8], l: Layout, id: &[u8], near: usize) -> Option<usize>
    ensures { Looks (width_of kind) graph.now l id.now result }
{
    if near < l.count {
        if hash::same_id(kind, id_at(kind, graph, l, near), id) {
            return Some(near);
        }
    }
    lookup(kind, graph, l, id)
}
