// The id table: open addressing with linear probing. A slot is empty (mark 0), live, or free to reuse (another mark that is not
// live). From the home of a live slot's id to the slot no slot is empty, so a search may stop at an empty one.
ghost use Rattle.std.specs.Prelude.{◌≡◌, ◌+◌, ◌<◌, get_or, set};
ghost use Rattle.hash.specs.Bytes.{width_of};
ghost use Rattle.hash.specs.Decides.{Decides};
ghost use Rattle.hashtable.specs.Table.{id_of, home_of, wrap, earlier, Sizes, Finds, Inserts, cleared};

use crate::marks::is_live;
use crate::words;
use hash::Kind;

// What a search for an id ends at: its slot; a slot that it may take; or neither, where all are taken. (As the entry of a map: an Option would
// lose one of the three.)
#[derive(Clone, Copy)]
pub enum Slot {
    Found(usize),
    Vacant(usize),
    Full,
}

// The id in a slot, fewer bytes where names ends.
pub fn id_of(kind: Kind, names: &[u8], slot: usize) -> &[u8]
    ensures { result.now ≡ id_of (width_of kind) names.now slot }
{
    hash::nth(kind, names, slot)
}

// The mark of a slot, 0 past the end.
pub fn mark_of(marks: &[u8], slot: usize) -> u8
    ensures { result ≡ get_or marks.now slot 0 }
{
    hash::byte_at(marks, slot)
}

// Gives a slot a mark; past the end nothing is changed.
pub fn set_mark(marks: &mut [u8], slot: usize, m: u8)
    ensures { marks.new ≡ set marks.old slot m }
{
    if slot < marks.len() {
        marks[slot] = m;
    }
}

// Empties the first cap slots.
pub fn clear(marks: &mut [u8], cap: usize)
    ensures { marks.new ≡ cleared cap marks.old }
{
    for slot in 0..marks.len() {
        if cap <= slot {
            return;
        }
        marks[slot] = 0;
    }
}

// Whether cap slots fit the two slices, cap is not 0 and the id has its width.
fn has_sizes(kind: Kind, names: &[u8], marks: &[u8], cap: usize, id: &[u8]) -> bool
    ensures { Decides result (Sizes (width_of kind) names.now marks.now cap id.now) }
{
    if cap == 0 {
        return false;
    }
    if id.len() != hash::width(kind) {
        return false;
    }
    if marks.len() < cap {
        return false;
    }
    cap <= hash::ids_in(kind, names.len())
}

fn wide(x: u32) -> usize
    ensures { result ≡ x }
{
    x as usize
}

// Where the search for an id begins.
fn home(id: &[u8], cap: usize) -> usize
    requires { 0 < cap }
    ensures { (result ≡ home_of id.now cap) × (result < cap) }
{
    wide(hash::be32(id, 0)) % cap
}

// The slot i steps after slot h, round the end.
fn around(cap: usize, h: usize, i: usize) -> usize
    requires { (h < cap) × (i < cap) }
    ensures { (result ≡ wrap cap (h + i)) × (result < cap) }
{
    if i < cap - h { h + i } else { i - (cap - h) }
}

// The slot a if it is one, else b.
fn first_of(cap: usize, a: usize, b: usize) -> usize
    ensures { result ≡ earlier cap a b }
{
    if a < cap { a } else { b }
}

// The slot that holds the id; else the first slot from the id's home on that is not live; else, or where the sizes are wrong, Full.
pub fn find_slot(
    kind: Kind,
    names: &[u8],
    marks: &[u8],
    cap: usize,
    painted: bool,
    id: &[u8],
) -> Slot
    ensures { Finds (width_of kind) painted names.now marks.now cap id.now result }
{
    if !has_sizes(kind, names, marks, cap, id) {
        return Slot::Full;
    }
    let h = home(id, cap);
    let mut spare = cap;
    for i in 0..cap {
        let k = around(cap, h, i);
        let m = marks[k];
        if m == 0 {
            return Slot::Vacant(first_of(cap, spare, k));
        }
        if is_live(painted, m) {
            if words::same_at(kind, names, hash::width(kind) * k, id) {
                return Slot::Found(k);
            }
        } else {
            spare = first_of(cap, spare, k);
        }
    }
    if spare < cap {
        return Slot::Vacant(spare);
    }
    Slot::Full
}

// Puts an id with a mark into the table, where it is not there and there is room: Found says that it was there, and Vacant that
// it is new, and stands in the slot that was vacant.
pub fn insert(
    kind: Kind,
    names: &mut [u8],
    marks: &mut [u8],
    cap: usize,
    painted: bool,
    id: &[u8],
    mark: u8,
) -> Slot
    ensures { Inserts (width_of kind) painted names.old marks.old names.new marks.new cap id.now mark result }
{
    let r = find_slot(kind, names, marks, cap, painted, id);
    match r {
        Slot::Found(k) => Slot::Found(k),
        Slot::Full => Slot::Full,
        Slot::Vacant(k) => {
            hash::set_nth(kind, names, k, id);
            marks[k] = mark;
            Slot::Vacant(k)
        }
    }
}
