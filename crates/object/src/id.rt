// Object ids by value.
ghost use Rattle.std.specs.Prelude.{◌≡◌, ◌≤◌, length};
ghost use Rattle.hash.specs.Bytes.{width_of, id_bytes};
ghost use Rattle.object.specs.Ids.{padded, id_in};

use crate::ObjectId;
use hash::Kind;

// The id that a slice with a whole id begins with. (So it tests no place, and is copied at once.)
fn whole_id(x: &[u8]) -> ObjectId
    requires { 32 ≤ length x.now }
    ensures { result.bytes ≡ padded x.now }
{
    let mut bytes = [0u8; 32];
    for i in 0..32 {
        bytes[i] = x[i];
    }
    ObjectId { bytes }
}

// The id of a slice that is a SHA-1 id, zeros after it. (Copied at once too: the width is a constant to the compiler.)
fn narrow_id(x: &[u8]) -> ObjectId
    requires { length x.now ≡ id_bytes }
    ensures { result.bytes ≡ padded x.now }
{
    let w = hash::width(Kind::Sha1);
    let mut bytes = [0u8; 32];
    for i in 0..w {
        bytes[i] = x[i];
    }
    ObjectId { bytes }
}

// The bytes of a slice that is no longer than an id, and zeros after them.
fn short_id(x: &[u8]) -> ObjectId
    requires { length x.now ≤ 32 }
    ensures { result.bytes ≡ padded x.now }
{
    let mut bytes = [0u8; 32];
    for i in 0..x.len() {
        bytes[i] = x[i];
    }
    ObjectId { bytes }
}

// The id that a slice begins with, by value; zeros stand where the slice ends.
pub fn id_of(x: &[u8]) -> ObjectId
    ensures { result.bytes ≡ padded x.now }
{
    if 32 <= x.len() {
        return whole_id(x);
    }
    if x.len() == hash::width(Kind::Sha1) {
        return narrow_id(x);
    }
    short_id(x)
}

// The id of this kind that stands in a value, as a slice of it.
pub fn id_slice<'a>(kind: Kind, bytes: &'a [u8; 32]) -> &'a [u8]
    ensures { result.now ≡ id_in (width_of kind) bytes.now }
{
    hash::id_at(kind, bytes, 0)
}
