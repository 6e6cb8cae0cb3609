// Numbers and the checksum of a commit-graph file, each set down at its place in the output, where it fits.
// Every public function is total and safe on any bytes.
#![tactic(auto)]

ghost use Rattle.std.specs.Prelude.{◌≡◌, ◌++◌, ◌+◌, ◌%◌, ◌≤◌, length, take};
ghost use Rattle.hash.specs.Bytes.{set_down};
ghost use Rattle.commitid.specs.Name.{digest_of};
ghost use Rattle.graphfile.specs.GraphFile.{u32};
ghost use Rattle.graphbytes.specs.Words.{chunk_row, four_words};

use hash::Kind;

fn low_byte(x: usize) -> u8
    ensures { result ≡ x % 256 }
{
    (x % 256) as u8
}

// The low 32 bits of v, big-endian, at a place of out where they fit.
pub fn put_word(out: &mut [u8], i: usize, v: usize)
    ensures { out.new ≡ set_down out.old i (u32 v) }
{
    let w = [
        low_byte(v / 16777216),
        low_byte(v / 65536),
        low_byte(v / 256),
        low_byte(v),
    ];
    hash::set_down(out, i, &w);
}

// Two numbers, one after the other.
fn put_two(out: &mut [u8], i: usize, a: usize, b: usize)
    requires { i + 8 ≤ length out.old }
    ensures { out.new ≡ set_down out.old i (u32 a ++ u32 b) }
{
    put_word(out, i, a);
    put_word(out, i + 4, b);
}

// Four numbers, one after another, at a place of out where they fit.
pub fn put_four(out: &mut [u8], i: usize, a: usize, b: usize, c: usize, d: usize)
    ensures { out.new ≡ set_down out.old i (four_words a b c d) }
{
    let n = out.len();
    if n < 16 {
        return;
    }
    if n - 16 < i {
        return;
    }
    put_two(out, i, a, b);
    put_two(out, i + 8, c, d);
}

// A row of the table of chunks, at a place of out where it fits.
pub fn put_chunk(out: &mut [u8], i: usize, id: usize, offset: usize)
    ensures { out.new ≡ set_down out.old i (chunk_row id offset) }
{
    let n = out.len();
    if n < 12 {
        return;
    }
    if n - 12 < i {
        return;
    }
    put_word(out, i, id);
    put_two(out, i + 4, 0, offset);
}

// The digest of the first n bytes of s, set down at the start of sum.
fn put_digest(kind: Kind, s: &[u8], n: usize, sum: &mut [u8])
    ensures { sum.new ≡ set_down sum.old 0 (digest_of kind (take n s.now)) }
{
    commitid::set_digest(kind, &s[..0], hash::part(s, 0, n), sum, 0);
}

// The checksum of what stands before place p, set down there.
pub fn write_sum(kind: Kind, out: &mut [u8], p: usize)
    ensures { out.new ≡ set_down out.old p (digest_of kind (take p out.old)) }
{
    let mut sum = [0u8; 32];
    put_digest(kind, out, p, &mut sum);
    hash::set_down(out, p, object::id_slice(kind, &sum));
}
