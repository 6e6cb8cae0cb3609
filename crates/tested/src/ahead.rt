// Looking ahead. Nearly all the time of a pass was spent waiting for memory: a commit's row and id in the commit-graph file, its entry and body in the store and
// its slot are each a line of memory that no step before has touched. Where those of the next two commits stand is known before one is read: by the
// hints of the line, and past its end by the rows, which name the parents. So a word of each is read here, one reading right after another, and memory
// fetches them at once. The words decide nothing; hints are any numbers, so no other function needs to know of this.
ghost use Rattle.std.specs.Prelude.{◌≡◌, ◌+◌};
ghost use Rattle.odb.specs.Lookup.{entry_body};
ghost use Rattle.tested.specs.Ahead.{near_at, slot_words, place_words, start_of, home_words, body_words, row_words, words_at, words_ahead, kept_beside};
ghost use Rattle.hash.specs.Bytes.{width_of};

use commitgraph::{Layout, parents, rows};
use hash::Kind;
use hashtable::table;

// The hint of the slot d places after place k, where the line has n slots; past them another number.
fn near_after(line: &[u32], from: usize, n: usize, k: usize, d: usize, other: usize) -> usize
    ensures { result ≡ near_at line.now from n (k + d) other }
{
    if n <= k {
        return other;
    }
    if n - k <= d {
        return other;
    }
    falling::hint_of(line, falling::slot_after(line, from, k + d))
}

// The words of a slot's id and cell.
fn slot_words(kind: Kind, names: &[u8], line: &[u32], slot: u32) -> u32
    ensures { result ≡ slot_words (width_of kind) names.now line.now slot }
{
    let k = slot as usize;
    let id = table::id_of(kind, names, k);
    hash::be32(id, 0) ^ falling::slot_after(line, k, k)
}

// Those of the slot d places after place k: its hint stands beside its cell.
fn place_words(
    kind: Kind,
    names: &[u8],
    line: &[u32],
    from: usize,
    n: usize,
    k: usize,
    d: usize,
) -> u32
    ensures { result ≡ place_words (width_of kind) names.now line.now from n (k + d) }
{
    if n <= k {
        return 0;
    }
    if n - k <= d {
        return 0;
    }
    slot_words(kind, names, line, falling::slot_after(line, from, k + d))
}

fn wide(x: u32) -> usize
    ensures { result ≡ x }
{
    x as usize
}

// The slot where the search for an id begins: there, or a little after, the id will stand.
fn start_of(id: &[u8], cap: usize) -> usize
    ensures { result ≡ start_of id.now cap }
{
    if cap == 0 {
        return 0;
    }
    wide(hash::be32(id, 0)) % cap
}

fn word_of(x: u8) -> u32
    ensures { result ≡ x }
{
    x as u32
}

// The words of the mark and the cell of a slot that may be empty yet: both are cleared before the pass, which levels, times and names are not.
fn home_words(marks: &[u8], line: &[u32], slot: usize) -> u32
    ensures { result ≡ home_words marks.now line.now slot }
{
    word_of(table::mark_of(marks, slot)) ^ falling::slot_after(line, slot, slot)
}

// A word of each of the first four lines of memory of an entry's body; most bodies' headers end there.
fn body_words(kind: Kind, store: &[u8], entry: usize) -> u32
    ensures { result ≡ body_words (entry_body (width_of kind) store.now entry) }
{
    let body = odb::entry_bytes(kind, store, entry);
    hash::be32(body, 0) ^ hash::be32(body, 64) ^ hash::be32(body, 128) ^ hash::be32(body, 192)
}

// The words of the row, the id and the entry at a position.
fn row_words(kind: Kind, graph: &[u8], l: Layout, store: &[u8], position: usize) -> u32
    ensures { result ≡ row_words (width_of kind) graph.now l store.now position }
{
    let row = rows::row(kind, graph, l, position);
    let id = rows::id_at(kind, graph, l, position);
    let entry = odb::entry_id(kind, store, position);
    hash::be32(row, hash::width(kind)) ^ hash::be32(id, 0) ^ hash::be32(entry, 0)
}

// All of them, where the parent of the commit in hand stands at one position and the next commit at another.
fn words_at(
    kind: Kind,
    names: &[u8],
    marks: &[u8],
    line: &[u32],
    cap: usize,
    from: usize,
    n: usize,
    k: usize,
    graph: &[u8],
    l: Layout,
    store: &[u8],
    parent: usize,
    one: usize,
) -> u32
    ensures { result ≡ words_at (width_of kind) names.now marks.now line.now cap from n k graph.now l store.now parent one }
{
    let next = parents::parent(kind, graph, l, one, 0);
    let two = near_after(line, from, n, k, 2, next);
    let start = start_of(rows::id_at(kind, graph, l, parent), cap);
    let home = home_words(marks, line, start);
    let place = place_words(kind, names, line, from, n, k, 4);
    let body = body_words(kind, store, one);
    let row = row_words(kind, graph, l, store, two);
    home ^ place ^ (body ^ row) ^ hash::be32(rows::id_at(kind, graph, l, next), 0)
}

// The words ahead of the commit at place k of the n, which may stand at position near.
pub fn words_ahead(
    kind: Kind,
    names: &[u8],
    marks: &[u8],
    line: &[u32],
    cap: usize,
    from: usize,
    n: usize,
    k: usize,
    cache: Option<Layout>,
    graph: &[u8],
    store: &[u8],
    near: usize,
) -> u32
    ensures { result ≡ words_ahead (width_of kind) cache names.now marks.now line.now cap from n k graph.now store.now near }
{
    match cache {
        Some(l) => {
            let parent = parents::parent(kind, graph, l, near, 0);
            let one = near_after(line, from, n, k, 1, parent);
            words_at(
                kind, names, marks, line, cap, from, n, k, graph, l, store, parent, one,
            )
        }
        None => 0,
    }
}

// A position beside the words, so that the compiler doesn't leave their reading out: 0 where they come to 1, which costs a search at most.
pub fn kept_beside(words: u32, position: usize) -> usize
    ensures { result ≡ kept_beside words position }
{
    if words == 1 {
        return 0;
    }
    position
}
