// Ids compared where they stand, by words: eight bytes as one number, the first the lowest, are one load to the compiler.
ghost use Rattle.std.specs.Prelude.{◌≡◌, ◌+◌, ◌<◌, ◌≤◌, length};
ghost use Rattle.hash.specs.Bytes.{at, width_of};
ghost use Rattle.hash.specs.Decides.{Decides};
ghost use Rattle.hashtable.specs.Words.{Agree, half32, word64};

use hash::Kind;

fn wide(b: u8) -> u64
    ensures { (result ≡ b) × (result < 256) }
{
    b as u64
}

// Four bytes as one number, the first the lowest.
fn half(s: &[u8], i: usize) -> u64
    requires { i + 4 ≤ length s.now }
    ensures { (result ≡ half32 s.now i) × (result < 4294967296) }
{
    wide(s[i]) + wide(s[i + 1]) * 256 + wide(s[i + 2]) * 65536 + wide(s[i + 3]) * 16777216
}

// Eight bytes likewise.
fn word(s: &[u8], i: usize) -> u64
    requires { i + 8 ≤ length s.now }
    ensures { result ≡ word64 s.now i }
{
    half(s, i) + half(s, i + 4) * 4294967296
}

// Whether the first twenty bytes of an id stand at place i of names.
fn same_start(names: &[u8], i: usize, id: &[u8]) -> bool
    requires { (i + 20 ≤ length names.now) × (20 ≤ length id.now) }
    ensures { Decides result (Agree names.now i id.now 0 20) }
{
    if word(names, i) != word(id, 0) {
        return false;
    }
    if word(names, i + 8) != word(id, 8) {
        return false;
    }
    half(names, i + 16) == half(id, 16)
}

// Whether the twelve bytes after them, of a wider id, stand at place i.
fn same_rest(names: &[u8], i: usize, id: &[u8]) -> bool
    requires { (i + 12 ≤ length names.now) × (32 ≤ length id.now) }
    ensures { Decides result (Agree names.now i id.now 20 12) }
{
    if word(names, i) != word(id, 20) {
        return false;
    }
    half(names, i + 8) == half(id, 28)
}

// Whether the id stands at place i of names, where there is room for it.
pub(crate) fn same_at(kind: Kind, names: &[u8], i: usize, id: &[u8]) -> bool
    requires { (i + width_of kind ≤ length names.now) × (length id.now ≡ width_of kind) }
    ensures { Decides result (at names.now i (width_of kind) ≡ id.now) }
{
    if !same_start(names, i, id) {
        return false;
    }
    match kind {
        Kind::Sha1 => true,
        Kind::Sha256 => same_rest(names, i + 20, id),
    }
}
