// The rows of a commit-graph file and the lists of over two parents, from the bodies of a store.
ghost use Rattle.std.specs.Prelude.{◌≡◌, true, ◌+◌, ◌*◌, ◌-◌, ◌<◌, ◌≤◌, length, get_or};
ghost use Rattle.object.specs.Header.{header};
ghost use Rattle.commitgraph.specs.Graph.{row_size};
ghost use Rattle.graphfile.specs.GraphFile.{flat, words, first_of, second_of, edges_of, edges_in, row_bytes, data_from};
ghost use Rattle.hash.specs.Bytes.{set_down, width_of};
ghost use Rattle.odb.specs.Lookup.{entry_body};
ghost use Rattle.graphplan.specs.StoreRows.{Writable, tree_of, row_of, rows_of};
ghost use Rattle.graphplan.specs.Entries.{Holds};

use hash::Kind;

// The file's own number for a parent that is none, and the bit of a pointer into EDGE.
const NO_PARENT: usize = 0x70000000;

const TOP_BIT: usize = 0x80000000;

// The tree of entry k, set down at a place.
fn put_tree(kind: Kind, store: &[u8], k: usize, out: &mut [u8], at: usize)
    requires { (header (width_of kind) (entry_body (width_of kind) store.now k)).tree ≡ true }
    ensures { out.new ≡ set_down out.old at (tree_of (width_of kind) (entry_body (width_of kind) store.now k)) }
{
    let id = object::tree_id(kind, odb::entry_bytes(kind, store, k), 0).unwrap();
    hash::set_down(out, at, object::id_slice(kind, &id.bytes));
}

// The row's first parent of c.
fn first_of(kind: Kind, store: &[u8], n: usize, k: usize, c: usize) -> usize
    requires { Writable (width_of kind) store.now n × (k < n) × (c ≡ length (row_of (width_of kind) store.now k).parents) }
    ensures { result ≡ first_of (row_of (width_of kind) store.now k).parents }
{
    if c == 0 {
        return NO_PARENT;
    }
    levels::parent_at(kind, store, n, k, 0)
}

// The row's second parent of c: none, one, or where its list starts in EDGE.
fn second_of(kind: Kind, store: &[u8], n: usize, k: usize, c: usize, e: usize) -> usize
    requires { Writable (width_of kind) store.now n × (k < n) × (c ≡ length (row_of (width_of kind) store.now k).parents) × (e ≤ 268435456) }
    ensures { result ≡ second_of e (row_of (width_of kind) store.now k).parents }
{
    if c < 2 {
        return NO_PARENT;
    }
    if c == 2 {
        return levels::parent_at(kind, store, n, k, 1);
    }
    TOP_BIT + e
}

// The row of entry k, e entries of EDGE standing before its own; how many it has.
fn put_row(
    kind: Kind,
    store: &[u8],
    levels: &[u32],
    n: usize,
    k: usize,
    e: usize,
    out: &mut [u8],
    at: usize,
) -> usize
    requires { Writable (width_of kind) store.now n × Holds (width_of kind) store.now levels.now n × (k < n) × (e ≤ 268435456) × (at + row_size (width_of kind) ≤ length out.old) }
    ensures { (out.new ≡ set_down out.old at (row_bytes e (row_of (width_of kind) store.now k))) × (result ≡ length (edges_of (row_of (width_of kind) store.now k).parents)) }
{
    let Some(head) = graphplan::entry::head_of(kind, store, k) else {
        return 0;
    };
    put_tree(kind, store, k, out, at);
    let a = first_of(kind, store, n, k, head.parents);
    let b = second_of(kind, store, n, k, head.parents, e);
    let l = graphplan::entry::level_at(levels, k);
    graphbytes::put_four(
        out,
        at + hash::width(kind),
        a,
        b,
        l * 4 + head.seconds / 4294967296,
        head.seconds % 4294967296,
    );
    graphplan::entry::edges_of(head.parents)
}

// The rows.
pub(crate) fn write_rows(
    kind: Kind,
    store: &[u8],
    levels: &[u32],
    n: usize,
    out: &mut [u8],
    from: usize,
)
    requires { Writable (width_of kind) store.now n × Holds (width_of kind) store.now levels.now n × (from + row_size (width_of kind) * n ≤ length out.old) }
    ensures { out.new ≡ set_down out.old from (flat (data_from 0 (rows_of (width_of kind) store.now))) }
{
    let size = hash::width(kind) + 16;
    let mut p = from;
    let mut e: usize = 0;
    for k in 0usize..n {
        e += put_row(kind, store, levels, n, k, e, out, p);
        p += size;
    }
}

// The entry of EDGE for parent j of c: the last has the top bit.
fn edge_of(kind: Kind, store: &[u8], n: usize, k: usize, c: usize, j: usize) -> usize
    requires { Writable (width_of kind) store.now n × (k < n) × (c ≡ length (row_of (width_of kind) store.now k).parents) × (2 < c) × (1 ≤ j) × (j < c) }
    ensures { result ≡ get_or (edges_of (row_of (width_of kind) store.now k).parents) (j - 1) 0 }
{
    let v = levels::parent_at(kind, store, n, k, j);
    if j + 1 == c {
        return TOP_BIT + v;
    }
    v
}

// The list of entry k in EDGE, if it has over two parents; the place after it.
fn put_edges(kind: Kind, store: &[u8], n: usize, k: usize, out: &mut [u8], p: usize) -> usize
    requires { Writable (width_of kind) store.now n × (k < n) × (p + 4 * length (edges_of (row_of (width_of kind) store.now k).parents) ≤ length out.old) }
    ensures { (out.new ≡ set_down out.old p (flat (words (edges_of (row_of (width_of kind) store.now k).parents)))) × (result ≡ p + 4 * length (edges_of (row_of (width_of kind) store.now k).parents)) }
{
    let c = graphplan::entry::count_of(kind, store, k);
    if c <= 2 {
        return p;
    }
    let mut q = p;
    for j in 1usize..c {
        graphbytes::put_word(out, q, edge_of(kind, store, n, k, c, j));
        q += 4;
    }
    q
}

// The lists of over two parents, in row order.
pub(crate) fn write_edges(kind: Kind, store: &[u8], n: usize, out: &mut [u8], from: usize)
    requires { Writable (width_of kind) store.now n × (from + 4 * length (edges_in (rows_of (width_of kind) store.now)) ≤ length out.old) }
    ensures { out.new ≡ set_down out.old from (flat (words (edges_in (rows_of (width_of kind) store.now)))) }
{
    let mut p = from;
    for k in 0usize..n {
        p = put_edges(kind, store, n, k, out, p);
    }
}
