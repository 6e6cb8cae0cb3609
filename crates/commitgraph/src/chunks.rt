// The layout of a commit-graph file: its header, its table of chunks, and the chunks themselves.
ghost use Rattle.std.specs.Prelude.{◌≡◌, true, false, ◌&&◌, cond, ℕ, suc, ◌+◌, ◌-◌, ◌*◌, ◌%◌, ◌<◌, ◌≤◌, length, eqb, ltb, leb, None, Some};
ghost use Rattle.hash.specs.Bytes.{u32_at, width_of};
ghost use Rattle.idlist.specs.IdList.{rising};
ghost use Rattle.commitgraph.specs.Graph.{hash_version, graph_head, chunk_count, chunk_id, chunk_offset, offsets_rise, chunks_of, chunk_in, chunk_start, chunk_size, OIDF, OIDL, CDAT, EDGE, table_ok, row_size, fan_at, graph_count, graph_ids, first_byte, fan_ok, Parts, graph_ok, places_of, layout_of};

use crate::{Layout, rows};
use hash::Kind;

// The ids of the chunks that are read.
const FAN_OUT: u32 = 0x4f494446;

const OBJECT_IDS: u32 = 0x4f49444c;

const COMMIT_DATA: u32 = 0x43444154;

const EXTRA_EDGES: u32 = 0x45444745;

// Where a chunk stands.
#[derive(Clone, Copy)]
struct Chunk {
    start: usize,
    size: usize,
}

fn wide(x: u32) -> usize
    ensures { (result ≡ x) × (result < 4294967296) }
{
    x as usize
}

fn wide_byte(x: u8) -> usize
    ensures { (result ≡ x) × (result < 256) }
{
    x as usize
}

fn wide_offset(x: u64) -> usize
    ensures { result ≡ x }
{
    x as usize
}

// The number of a hash function in a file's header.
fn hash_version(kind: Kind) -> u8
    ensures { result ≡ hash_version kind }
{
    match kind {
        Kind::Sha1 => 1,
        Kind::Sha256 => 2,
    }
}

// Whether the file starts with `CGPH`, version 1, the hash version of this kind, any number of chunks, base count 0.
pub fn has_header(kind: Kind, graph: &[u8]) -> bool
    ensures { result ≡ graph_head (hash_version kind) graph.now }
{
    if graph.len() < 8 {
        return false;
    }
    let want: [u8; 6] = [67, 71, 80, 72, 1, hash_version(kind)];
    if !hash::same(hash::part(graph, 0, 6), &want) {
        return false;
    }
    hash::byte_at(graph, 7) == 0
}

// The number of chunks.
fn chunk_count(graph: &[u8]) -> usize
    ensures { (result ≡ chunk_count graph.now) × (result < 256) }
{
    wide_byte(hash::byte_at(graph, 6))
}

// The id in row i of the table.
fn row_id(graph: &[u8], i: usize) -> u32
    requires { i < 256 }
    ensures { result ≡ chunk_id graph.now i }
{
    hash::be32(graph, 8 + 12 * i)
}

// The offset in row i of the table.
fn row_offset(graph: &[u8], i: usize) -> usize
    requires { i < 257 }
    ensures { result ≡ chunk_offset graph.now i }
{
    wide_offset(hash::be64(graph, 12 + 12 * i))
}

// How far it is from the offset in row i to the next row's, 0 where that is lower.
fn row_size(graph: &[u8], i: usize) -> usize
    requires { i < 256 }
    ensures { result ≡ chunk_offset graph.now (suc i) - chunk_offset graph.now i }
{
    let start = row_offset(graph, i);
    let end = row_offset(graph, i + 1);
    if end < start {
        return 0;
    }
    end - start
}

// The first row with an id among the first count rows; count where none has it.
fn find_row(graph: &[u8], id: u32, count: usize) -> usize
    requires { count < 256 }
    ensures { chunk_in graph.now id count ≡ cond (ltb result count) (Some result) None }
{
    for i in 0..count {
        if row_id(graph, i) == id {
            return i;
        }
    }
    count
}

// Where the first of the count chunks with an id starts; 0 where there is none.
fn find_start(graph: &[u8], id: u32, count: usize) -> usize
    requires { (count ≡ chunk_count graph.now) × (count < 256) }
    ensures { result ≡ chunk_start graph.now id }
{
    let i = find_row(graph, id, count);
    if i < count {
        return row_offset(graph, i);
    }
    0
}

// Where the first chunk with an id stands; zeros where there is none.
fn find_chunk(graph: &[u8], id: u32) -> Chunk
    ensures { (result.start ≡ chunk_start graph.now id) × (result.size ≡ chunk_size graph.now id) }
{
    let count = chunk_count(graph);
    let i = find_row(graph, id, count);
    if i < count {
        return Chunk {
            start: row_offset(graph, i),
            size: row_size(graph, i),
        };
    }
    Chunk { start: 0, size: 0 }
}

// The last entry of the fan-out that stands at a place: N.
fn last_entry(graph: &[u8], fan: usize) -> usize
    ensures { (result ≡ u32_at graph.now (fan + 1020)) × (result < 4294967296) }
{
    if graph.len() <= fan {
        return 0;
    }
    if graph.len() - fan <= 1020 {
        return 0;
    }
    wide(hash::be32(graph, fan + 1020))
}

// Where the chunks of a file stand. No row is looked at, so no level is used.
fn places(graph: &[u8]) -> Layout
    ensures { result ≡ places_of graph.now }
{
    let chunks = chunk_count(graph);
    let fan = find_start(graph, FAN_OUT, chunks);
    let ids = find_start(graph, OBJECT_IDS, chunks);
    let rows = find_start(graph, COMMIT_DATA, chunks);
    let edge = find_chunk(graph, EXTRA_EDGES);
    let count = last_entry(graph, fan);
    Layout {
        fan,
        ids,
        rows,
        edge: edge.start,
        edges: edge.size / 4,
        count: count,
        levels: false,
    }
}

// N, the number of commits in a file.
pub fn count(graph: &[u8]) -> usize
    ensures { (result ≡ graph_count graph.now) × (result < 4294967296) }
{
    last_entry(graph, find_start(graph, FAN_OUT, chunk_count(graph)))
}

// What is found of a file once: where its chunks stand, and whether its levels are used.
pub fn parse(kind: Kind, graph: &[u8]) -> Layout
    ensures { result ≡ layout_of (width_of kind) graph.now }
{
    let l = places(graph);
    let levels = rows::has_levels(kind, graph, l);
    Layout {
        fan: l.fan,
        ids: l.ids,
        rows: l.rows,
        edge: l.edge,
        edges: l.edges,
        count: l.count,
        levels: levels,
    }
}

// Whether the last row has id 0, the first offset is just past the table, and the last is where the checksum starts, w bytes before the
// file's end.
fn table_ends(w: usize, graph: &[u8], count: usize) -> bool
    requires { (count < 256) × (8 + 12 * (count + 1) + w ≤ length graph.now) }
    ensures { let g = graph.now in result ≡ (eqb (chunk_id g count) 0 && eqb (chunk_offset g 0) (8 + 12 * (count + 1)) && eqb (chunk_offset g count + w) (length g)) }
{
    if row_id(graph, count) != 0 {
        return false;
    }
    if row_offset(graph, 0) != 8 + 12 * (count + 1) {
        return false;
    }
    row_offset(graph, count) == graph.len() - w
}

// Whether the offsets of the first rows never fall, up to the next row's.
fn offsets_rise(graph: &[u8], count: usize) -> bool
    requires { count < 256 }
    ensures { result ≡ offsets_rise graph.now count }
{
    for i in 0..count {
        if row_offset(graph, i + 1) < row_offset(graph, i) {
            return false;
        }
    }
    true
}

// How many of the first rows have an id.
fn rows_of(graph: &[u8], id: u32, count: usize) -> usize
    requires { count < 256 }
    ensures { result ≡ chunks_of graph.now id count }
{
    let mut found = 0;
    for i in 0..count {
        if row_id(graph, i) == id {
            found += 1;
        }
    }
    found
}

// Whether each chunk stands as often as it must.
fn chunks_once(graph: &[u8], count: usize) -> bool
    requires { count < 256 }
    ensures { let g = graph.now in result ≡ (eqb (chunks_of g OIDF count) 1 && eqb (chunks_of g OIDL count) 1 && eqb (chunks_of g CDAT count) 1 && leb (chunks_of g EDGE count) 1) }
{
    if rows_of(graph, FAN_OUT, count) != 1 {
        return false;
    }
    if rows_of(graph, OBJECT_IDS, count) != 1 {
        return false;
    }
    if rows_of(graph, COMMIT_DATA, count) != 1 {
        return false;
    }
    rows_of(graph, EXTRA_EDGES, count) <= 1
}

// Whether the table of chunks is right.
fn has_table(w: usize, graph: &[u8]) -> bool
    requires { w ≤ 32 }
    ensures { result ≡ table_ok w graph.now }
{
    let count = chunk_count(graph);
    if graph.len() < 8 + 12 * (count + 1) + w {
        return false;
    }
    if !table_ends(w, graph, count) {
        return false;
    }
    if !offsets_rise(graph, count) {
        return false;
    }
    chunks_once(graph, count)
}

// Whether the chunks have the sizes that N tells.
fn has_sizes(w: usize, graph: &[u8]) -> bool
    requires { w ≤ 32 }
    ensures { let g = graph.now in result ≡ (eqb (chunk_size g OIDF) 1024 && eqb (chunk_size g OIDL) (w * graph_count g) && eqb (chunk_size g CDAT) (row_size w * graph_count g) && eqb (chunk_size g EDGE % 4) 0) }
{
    let fan = find_chunk(graph, FAN_OUT);
    let count = last_entry(graph, fan.start);
    if fan.size != 1024 {
        return false;
    }
    let ids = find_chunk(graph, OBJECT_IDS);
    if ids.size != w * count {
        return false;
    }
    let data = find_chunk(graph, COMMIT_DATA);
    if data.size != rows::size(w) * count {
        return false;
    }
    let edge = find_chunk(graph, EXTRA_EDGES);
    edge.size % 4 == 0
}

// Entry i of the fan-out.
fn fan_entry(graph: &[u8], fan: usize, i: usize) -> usize
    requires { (fan ≡ chunk_start graph.now OIDF) × (fan + 1024 ≤ length graph.now) × (i < 256) }
    ensures { result ≡ fan_at graph.now i }
{
    wide(hash::be32(graph, fan + 4 * i))
}

// Whether the 256 entries of the fan-out never fall. Where one does, it cannot count the ids.
fn fan_rises(w: usize, graph: &[u8], fan: usize) -> bool
    requires { (fan ≡ chunk_start graph.now OIDF) × (fan + 1024 ≤ length graph.now) }
    ensures { let g = graph.now in (result ≡ true → (i : ℕ) → i < 255 → fan_at g i ≤ fan_at g (suc i)) × (result ≡ false → fan_ok w g 256 ≡ false) }
{
    for i in 0..255 {
        if fan_entry(graph, fan, i + 1) < fan_entry(graph, fan, i) {
            return false;
        }
    }
    true
}

// The first byte of id k.
fn first_byte(w: usize, graph: &[u8], ids: usize, k: usize) -> usize
    requires { let g = graph.now in (ids ≡ chunk_start g OIDL) × (ids + w * k < length g) }
    ensures { (result ≡ first_byte w graph.now k) × (result < 256) }
{
    wide_byte(hash::byte_at(graph, ids + w * k))
}

// Whether entry b of the fan-out parts the ids: those before it begin with b at most, and those from it on with more. The ids rise, so one on
// each side tells. Where it does not, the fan-out cannot count them.
fn parts_at(w: usize, graph: &[u8], fan: usize, ids: usize, count: usize, b: usize) -> bool
    requires { let g = graph.now in (fan ≡ chunk_start g OIDF) × (fan + 1024 ≤ length g) × (ids ≡ chunk_start g OIDL) × (count ≡ graph_count g) × (ids + w * count ≤ length g) × (0 < w) × (b < 256) × (fan_at g b ≤ count) }
    ensures { let g = graph.now in (result ≡ true → Parts w g b) × (result ≡ false → (fan_ok w g 256 && rising (graph_ids w g) (graph_count g)) ≡ false) }
{
    let m = fan_entry(graph, fan, b);
    if m != 0 {
        if b < first_byte(w, graph, ids, m - 1) {
            return false;
        }
    }
    if m < count {
        return b < first_byte(w, graph, ids, m);
    }
    true
}

// Whether each entry of the fan-out, which never falls, parts the ids.
fn fan_parts(w: usize, graph: &[u8], fan: usize, ids: usize, count: usize) -> bool
    requires { let g = graph.now in (fan ≡ chunk_start g OIDF) × (fan + 1024 ≤ length g) × (ids ≡ chunk_start g OIDL) × (count ≡ graph_count g) × (ids + w * count ≤ length g) × (0 < w) × ((i : ℕ) → i < 255 → fan_at g i ≤ fan_at g (suc i)) }
    ensures { let g = graph.now in (result ≡ true → (b : ℕ) → b < 256 → Parts w g b) × (result ≡ false → (fan_ok w g 256 && rising (graph_ids w g) (graph_count g)) ≡ false) }
{
    for b in 0..256 {
        if !parts_at(w, graph, fan, ids, count, b) {
            return false;
        }
    }
    true
}

// Whether the fan-out, which never falls, counts the ids and the ids rise: one pass over the ids, one over the fan-out.
fn ids_fit(kind: Kind, graph: &[u8], fan: usize, ids: usize, count: usize) -> bool
    requires { let g = graph.now in (fan ≡ chunk_start g OIDF) × (fan + 1024 ≤ length g) × (ids ≡ chunk_start g OIDL) × (count ≡ graph_count g) × (ids + width_of kind * count ≤ length g) × ((i : ℕ) → i < 255 → fan_at g i ≤ fan_at g (suc i)) }
    ensures { let g = graph.now in result ≡ (fan_ok (width_of kind) g 256 && rising (graph_ids (width_of kind) g) (graph_count g)) }
{
    let w = hash::width(kind);
    if !idlist::is_rising(kind, graph, ids, w, count) {
        return false;
    }
    fan_parts(w, graph, fan, ids, count)
}

// Whether the layout of a file is right, after its header.
pub fn is_good(kind: Kind, graph: &[u8]) -> bool
    ensures { result ≡ graph_ok (width_of kind) graph.now }
{
    let w = hash::width(kind);
    if !has_table(w, graph) {
        return false;
    }
    if !has_sizes(w, graph) {
        return false;
    }
    let l = places(graph);
    if !fan_rises(w, graph, l.fan) {
        return false;
    }
    ids_fit(kind, graph, l.fan, l.ids, l.count)
}
