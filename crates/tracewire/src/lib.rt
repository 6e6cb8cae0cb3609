// Tracing by turns, for callers in other languages: the width of ids as a number, the start as bytes, and the answer as an id and two numbers in lent
// slices. Every function is total on any bytes, numbers and lengths.
#![tactic(auto)]

ghost use Rattle.std.specs.Prelude.{◌≡◌};
ghost use Rattle.hash.specs.Bytes.{width_of};
ghost use Rattle.wire.specs.Words.{kind_of};
ghost use Rattle.tracewire.specs.Wire.{prospect_number, prospect_kind, parent_number, id_said, room_to_trace, PutsTraced, LibraryTrace};

use hash::Kind;
use object::ObjectId;
use trace::Prospect;
use walk::Refusal;

// The library's result where the start or what an answer is set down in is too short: none of document 01's numbers.
const NO_ROOM: u32 = 101;

// Whether the start is whole, and there is room for an id and two numbers.
fn can_trace(kind: Kind, start: &[u8], id: &[u8], numbers: &[u64]) -> bool
    ensures { result ≡ room_to_trace (width_of kind) start.now id.now numbers.now }
{
    let w = hash::width(kind);
    if start.len() < w {
        return false;
    }
    if id.len() < w {
        return false;
    }
    2 <= numbers.len()
}

fn wide(n: u8) -> u32
    ensures { result ≡ n }
{
    n as u32
}

// The number of what is said: 0, or the refusal's.
fn number(said: Result<Prospect, Refusal>) -> u32
    ensures { result ≡ prospect_number said }
{
    match said {
        Ok(_) => 0,
        Err(r) => wide(walk::number(r)),
    }
}

// 0 not forced, 1 at the start, 2 by a parent.
fn sort_of(said: Result<Prospect, Refusal>) -> u64
    ensures { result ≡ prospect_kind said }
{
    match said {
        Ok(Prospect::AtStart) => 1,
        Ok(Prospect::Forced { .. }) => 2,
        _ => 0,
    }
}

// The number of the parent that forces, 0 where there is none.
fn parent_of(said: Result<Prospect, Refusal>) -> u64
    ensures { result ≡ parent_number said }
{
    match said {
        Ok(Prospect::Forced { number, .. }) => number as u64,
        _ => 0,
    }
}

// The id of the parent that forces; zeros where there is none, as a caller in C reads it.
fn id_said(said: Result<Prospect, Refusal>) -> ObjectId
    ensures { result.bytes ≡ id_said said }
{
    match said {
        Ok(Prospect::Forced { parent, .. }) => parent,
        _ => ObjectId { bytes: [0u8; 32] },
    }
}

// An answer set down, and its number.
fn put_traced(
    kind: Kind,
    said: Result<Prospect, Refusal>,
    id: &mut [u8],
    numbers: &mut [u64],
) -> u32
    ensures { PutsTraced (width_of kind) said id.old id.new numbers.old numbers.new result }
{
    wire::put(numbers, &[sort_of(said), parent_of(said)]);
    let x = id_said(said);
    hash::set_down(id, 0, object::id_slice(kind, &x.bytes));
    number(said)
}

// The moves as a number of this machine.
fn moves_of(d: u32) -> usize
    ensures { result ≡ d }
{
    d as usize
}

// The call, its answer set down; without room for it, or with a start that is no whole id, nothing is altered and the result is 101.
pub fn trace(
    width: u32,
    store: &[u8],
    start: &[u8],
    list: &[u8],
    d: u32,
    memo: &mut [u8],
    id: &mut [u8],
    numbers: &mut [u64],
) -> u32
    ensures { LibraryTrace (width_of (kind_of width)) store.now start.now list.now d memo.old memo.new id.old id.new numbers.old numbers.new result }
{
    let kind = wire::kind_of(width);
    if !can_trace(kind, start, id, numbers) {
        return NO_ROOM;
    }
    let said = trace::trace(kind, store, object::id_of(start), list, moves_of(d), memo);
    put_traced(kind, said, id, numbers)
}
