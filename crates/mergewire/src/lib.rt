// Where two series part, for callers in other languages: the width of ids as a number, the tips as bytes, and the answer as an id and a number in lent slices. Every function
// is total on any bytes, numbers and lengths.
#![tactic(auto)]

ghost use Rattle.std.specs.Prelude.{◌≡◌, length};
ghost use Rattle.hash.specs.Bytes.{width_of};
ghost use Rattle.opening.specs.Checks.{lengths_of};
ghost use Rattle.reach.specs.Memory.{lent};
ghost use Rattle.wire.specs.Words.{kind_of};
ghost use Rattle.mergewire.specs.Wire.{parted_number, found, id_said, room_to_part, PutsBase, LibraryMergeBase};

use hash::Kind;
use object::ObjectId;
use walk::Refusal;

// The library's result where the tips or what an answer is set down in are too short: none of document 01's numbers.
const NO_ROOM: u32 = 101;

// Whether both tips are whole, and there is room for an id and a number.
fn can_part(kind: Kind, one: &[u8], other: &[u8], id: &[u8], numbers: &[u64]) -> bool
    ensures { result ≡ room_to_part (width_of kind) one.now other.now id.now numbers.now }
{
    let w = hash::width(kind);
    if one.len() < w {
        return false;
    }
    if other.len() < w {
        return false;
    }
    if id.len() < w {
        return false;
    }
    1 <= numbers.len()
}

fn wide(n: u8) -> u32
    ensures { result ≡ n }
{
    n as u32
}

// The number of what is said: 0, or the refusal's.
fn number(said: Result<Option<ObjectId>, Refusal>) -> u32
    ensures { result ≡ parted_number said }
{
    match said {
        Ok(_) => 0,
        Err(r) => wide(walk::number(r)),
    }
}

// 1 where there is a commit, else 0.
fn has_commit(said: Result<Option<ObjectId>, Refusal>) -> u64
    ensures { result ≡ found said }
{
    match said {
        Ok(Some(_)) => 1,
        _ => 0,
    }
}

// The commit's id; zeros where there is none, as a caller in C reads it.
fn id_said(said: Result<Option<ObjectId>, Refusal>) -> ObjectId
    ensures { result.bytes ≡ id_said said }
{
    match said {
        Ok(Some(id)) => id,
        _ => ObjectId { bytes: [0u8; 32] },
    }
}

// An answer set down, and its number.
fn put_base(
    kind: Kind,
    said: Result<Option<ObjectId>, Refusal>,
    id: &mut [u8],
    numbers: &mut [u64],
) -> u32
    ensures { PutsBase (width_of kind) said id.old id.new numbers.old numbers.new result }
{
    wire::put(numbers, &[has_commit(said)]);
    let x = id_said(said);
    hash::set_down(id, 0, object::id_slice(kind, &x.bytes));
    number(said)
}

// The call, its answer set down; without room for it, or with a tip that is no whole id, nothing is altered and the result is 101.
pub fn merge_base(
    width: u32,
    store: &[u8],
    one: &[u8],
    other: &[u8],
    names: &mut [u8],
    marks: &mut [u8],
    levels: &mut [u32],
    times: &[i64],
    line: &mut [u32],
    parents: &[u8],
    id: &mut [u8],
    numbers: &mut [u64],
) -> u32
    ensures { LibraryMergeBase (kind_of width) store.now one.now other.now (lengths_of (length names.old) (length marks.old) (length levels.old) (length times.now) (length line.old) (length parents.now)) (lent names.old marks.old line.old) (lent names.new marks.new line.new) levels.old levels.new id.old id.new numbers.old numbers.new result }
{
    let kind = wire::kind_of(width);
    if !can_part(kind, one, other, id, numbers) {
        return NO_ROOM;
    }
    let said = mergebase::merge_base(
        kind,
        store,
        object::id_of(one),
        object::id_of(other),
        names,
        marks,
        levels,
        times,
        line,
        parents,
    );
    put_base(kind, said, id, numbers)
}
