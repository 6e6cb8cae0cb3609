// Parts of a commit-graph file, each set down at its place in the output: numbers, the table of chunks, the fan-out, the ids.
ghost use Rattle.std.specs.Prelude.{◌≡◌, ◌+◌, ◌*◌, ◌<◌, ◌≤◌, length};
ghost use Rattle.hash.specs.Bytes.{set_down, width_of};
ghost use Rattle.commitgraph.specs.Graph.{hash_version};
ghost use Rattle.graphfile.specs.GraphFile.{flat, words, fan_from, ids_in, front_of};
ghost use Rattle.graphplan.specs.StoreRows.{Writable, rows_of};
ghost use Rattle.graphbytes.specs.Words.{front_start};

use hash::Kind;

const OIDF: usize = 0x4f494446;

const OIDL: usize = 0x4f49444c;

const CDAT: usize = 0x43444154;

const EDGE: usize = 0x45444745;

// The number of the kind in a file's header.
fn version(kind: Kind) -> u8
    ensures { result ≡ hash_version kind }
{
    match kind {
        Kind::Sha1 => 1,
        Kind::Sha256 => 2,
    }
}

// The header and the rows of the three chunks that every file has; o is where the fan-out starts.
fn put_front(kind: Kind, out: &mut [u8], chunks: u8, o: usize, n: usize)
    requires { (44 ≤ length out.old) × (o ≤ 68) × (n ≤ 1048576) }
    ensures { out.new ≡ set_down out.old 0 (front_start (hash_version kind) (width_of kind) chunks o n) }
{
    let head = [67, 71, 80, 72, 1, version(kind), chunks, 0];
    hash::set_down(out, 0, &head);
    graphbytes::put_chunk(out, 8, OIDF, o);
    graphbytes::put_chunk(out, 20, OIDL, o + 1024);
    graphbytes::put_chunk(out, 32, CDAT, o + 1024 + hash::width(kind) * n);
}

// The header and the whole table.
pub(crate) fn write_front(kind: Kind, out: &mut [u8], n: usize, e: usize)
    requires { (68 ≤ length out.old) × (n ≤ 1048576) × (e ≤ 268435456) }
    ensures { out.new ≡ set_down out.old 0 (front_of (hash_version kind) (width_of kind) n e) }
{
    if e == 0 {
        put_front(kind, out, 3, 56, n);
        graphbytes::put_chunk(out, 44, 0, super::rows_end(kind, 56, n));
        return;
    }
    let end = super::rows_end(kind, 68, n);
    put_front(kind, out, 4, 68, n);
    graphbytes::put_chunk(out, 44, EDGE, end);
    graphbytes::put_chunk(out, 56, 0, end + 4 * e);
}

// The fan-out: ids rise, so one pass over them passes each byte in turn.
pub(crate) fn write_fan(kind: Kind, store: &[u8], n: usize, out: &mut [u8], from: usize)
    requires { Writable (width_of kind) store.now n × (from + 1024 ≤ length out.old) }
    ensures { out.new ≡ set_down out.old from (flat (words (fan_from (rows_of (width_of kind) store.now) 0 256))) }
{
    let mut k: usize = 0;
    for i in 0usize..256 {
        k = graphplan::entry::past_byte(kind, store, n, k, i);
        graphbytes::put_word(out, from + 4 * i, k);
    }
}

// The ids.
pub(crate) fn write_ids(kind: Kind, store: &[u8], n: usize, out: &mut [u8], from: usize)
    requires { Writable (width_of kind) store.now n × (from + width_of kind * n ≤ length out.old) }
    ensures { out.new ≡ set_down out.old from (flat (ids_in (rows_of (width_of kind) store.now))) }
{
    let w = hash::width(kind);
    let mut p = from;
    for k in 0usize..n {
        hash::set_down(out, p, odb::entry_id(kind, store, k));
        p += w;
    }
}
