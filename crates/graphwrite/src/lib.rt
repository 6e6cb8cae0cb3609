// The commit-graph file of a store (git commit-graph write), version 1: the fan-out, the ids, the rows, the lists of over two parents, the checksum.
// Every public function is total and safe on any bytes.
#![tactic(auto)]

mod parts;
mod rows;

ghost use Rattle.std.specs.Prelude.{◌≡◌, ◌+◌, ◌*◌, ◌<◌, ◌≤◌, length};
ghost use Rattle.hash.specs.Bytes.{set_down, width_of};
ghost use Rattle.graphfile.specs.GraphFile.{edges_in, file_length, rows_end};
ghost use Rattle.graphplan.specs.StoreRows.{Writable, rows_of};
ghost use Rattle.graphplan.specs.Entries.{Holds};
ghost use Rattle.graphbytes.specs.Words.{front_length};
ghost use Rattle.graphwrite.specs.Writing.{file_of, Measures, Writes};

use hash::Kind;
use walk::Refusal;

// Where the rows end in a file whose fan-out starts at o.
fn rows_end(kind: Kind, o: usize, n: usize) -> usize
    requires { (o ≤ 68) × (n ≤ 1048576) }
    ensures { (result ≡ rows_end (width_of kind) o n) × (result ≤ 100000000) }
{
    let w = hash::width(kind);
    o + 1024 + w * n + (w + 16) * n
}

// How long a file of n rows and e entries of EDGE is.
fn file_length(kind: Kind, n: usize, e: usize) -> usize
    requires { (n ≤ 1048576) × (e ≤ 268435456) }
    ensures { result ≡ file_length (width_of kind) n e }
{
    let w = hash::width(kind);
    if e == 0 {
        return rows_end(kind, 56, n) + w;
    }
    rows_end(kind, 68, n) + 4 * e + w
}

// How long the file of a store is, or why there is none: 2, 4, 1, 18 or 19. The lent levels, one for each entry, are free afterwards, save after 2, 4
// and 1, which alter nothing.
pub fn graph_length(kind: Kind, store: &[u8], levels: &mut [u32]) -> Result<usize, Refusal>
    ensures { Measures (width_of kind) store.now levels.old levels.new result }
{
    let plan = graphplan::judge(kind, store, levels)?;
    Ok(file_length(kind, plan.rows, plan.edges))
}

// Where the fan-out starts: after the header and a table of three chunks, or of four.
fn front_length(e: usize) -> usize
    ensures { (result ≡ front_length e) × (result ≤ 68) }
{
    if e == 0 { 56 } else { 68 }
}

// The file of n rows and e entries of EDGE.
fn write_file(kind: Kind, store: &[u8], levels: &[u32], n: usize, e: usize, out: &mut [u8])
    requires { Writable (width_of kind) store.now n × Holds (width_of kind) store.now levels.now n × (e ≡ length (edges_in (rows_of (width_of kind) store.now))) × (n ≤ 1048576) × (e ≤ 268435456) × (file_length (width_of kind) n e ≤ length out.old) }
    ensures { out.new ≡ set_down out.old 0 (file_of kind store.now) }
{
    let o = front_length(e);
    let end = rows_end(kind, o, n);
    parts::write_front(kind, out, n, e);
    parts::write_fan(kind, store, n, out, o);
    parts::write_ids(kind, store, n, out, o + 1024);
    let rows = o + 1024 + hash::width(kind) * n;
    rows::write_rows(kind, store, levels, n, out, rows);
    rows::write_edges(kind, store, n, out, end);
    graphbytes::write_sum(kind, out, end + 4 * e);
}

// Writes the graph file of a store at the start of out, and gives the number of its bytes; no other byte of out is altered. Refused: 2, 4, 1, 18, 19, 20, in
// this order, and then no byte of out is. The lent levels, one for each entry, are free afterwards, save after 2, 4 and 1, which alter nothing.
pub fn write_graph(
    kind: Kind,
    store: &[u8],
    levels: &mut [u32],
    out: &mut [u8],
) -> Result<usize, Refusal>
    ensures { Writes kind store.now levels.old levels.new out.old out.new result }
{
    let plan = graphplan::judge(kind, store, levels)?;
    let len = file_length(kind, plan.rows, plan.edges);
    if out.len() < len {
        return Err(Refusal::ShortOutput);
    }
    write_file(kind, store, levels, plan.rows, plan.edges, out);
    Ok(len)
}
