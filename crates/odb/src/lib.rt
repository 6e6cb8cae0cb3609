// The commit store (gix_object::Find; document 01's book): bodies end to end, then one entry for each, then a trailer.
// Every public function is total and safe on any bytes. The functions below them take the width of an id and hold for any.
#![tactic(auto)]

mod numbered;

ghost use Rattle.std.specs.Prelude.{◌≡◌, ◌&&◌, ◌+◌, ◌*◌, ◌-◌, ◌<◌, ◌≤◌, eqb, length};
ghost use Rattle.hash.specs.Bytes.{u32_at, width_of};
ghost use Rattle.idlist.specs.IdList.{id_of};
ghost use Rattle.odb.specs.Store.{entry_size, start, entries, entry_ids, body_end, body_start, ends_rise, standing, standing_entries, store_is_ok};
ghost use Rattle.odb.specs.Lookup.{part_at, part_of, is_body, FindsEntry, Locates, TriesFind, NotesEntry};

use hash::Kind;
pub use numbered::{entry_bytes, entry_id};

// Where a body lies in the store: its first byte, and the byte after its last.
#[derive(Clone, Copy)]
pub enum Located {
    Body { start: usize, end: usize },
    Absent,
}

// Beside its id an entry has a u32. The trailer: two u32.
const END_BYTES: usize = 4;

const TRAILER_BYTES: usize = 8;

// No entry's number: a store has fewer entries than it says in 32 bits.
const NO_ENTRY: usize = 4294967295;

// A u32 as a place in the store.
fn wide(x: u32) -> usize
    ensures { (result ≡ x) × (result < 4294967296) }
{
    x as usize
}

// The number that stands some bytes before the end of the store.
fn from_end(store: &[u8], back: usize) -> usize
    ensures { (result ≡ u32_at store.now (length store.now - back)) × (result < 4294967296) }
{
    if store.len() < back {
        return wide(hash::be32(store, 0));
    }
    wide(hash::be32(store, store.len() - back))
}

// The trailer's start of the entries.
fn entries_start(store: &[u8]) -> usize
    ensures { (result ≡ start store.now) × (result < 4294967296) }
{
    from_end(store, TRAILER_BYTES)
}

// The trailer's number of entries.
fn entries_said(store: &[u8]) -> usize
    ensures { (result ≡ entries store.now) × (result < 4294967296) }
{
    from_end(store, 4)
}

// Whether the entries and the trailer fill the store from the start of the entries to its end.
fn stands(w: usize, store: &[u8]) -> bool
    requires { w ≤ 32 }
    ensures { result ≡ standing w store.now }
{
    if store.len() < TRAILER_BYTES {
        return false;
    }
    store.len() == entries_start(store) + (w + END_BYTES) * entries_said(store) + TRAILER_BYTES
}

// The number of entries, 0 where they do not stand in the store.
pub fn count(kind: Kind, store: &[u8]) -> usize
    ensures { result ≡ standing_entries (width_of kind) store.now }
{
    if stands(hash::width(kind), store) {
        entries_said(store)
    } else {
        0
    }
}

// The end of body k.
fn body_end(w: usize, store: &[u8], base: usize, k: usize) -> usize
    requires { (base ≡ start store.now) × (base + entry_size w * k + entry_size w ≤ length store.now) }
    ensures { result ≡ body_end w store.now k }
{
    wide(hash::be32(store, base + (w + END_BYTES) * k + w))
}

// The start of body k, which is the end of the one before it.
fn body_start(w: usize, store: &[u8], base: usize, k: usize) -> usize
    requires { (base ≡ start store.now) × (base + entry_size w * k ≤ length store.now) }
    ensures { result ≡ body_start w store.now k }
{
    if k == 0 {
        return 0;
    }
    body_end(w, store, base, k - 1)
}

// Whether the ends of the n entries never fall, and the last of them, 0 where there is none, is the start of the entries.
fn ends_rise(w: usize, store: &[u8], base: usize, n: usize) -> bool
    requires { (base ≡ start store.now) × (base + entry_size w * n ≤ length store.now) }
    ensures { result ≡ (ends_rise w store.now n && eqb (body_start w store.now n) base) }
{
    let mut last = 0;
    for k in 0..n {
        let end = body_end(w, store, base, k);
        if end < last {
            return false;
        }
        last = end;
    }
    last == base
}

// Whether the layout is whole: the entries stand in the store, their ids rise, their ends never fall, and the last end is
// the start of the entries.
pub fn is_good(kind: Kind, store: &[u8]) -> bool
    ensures { result ≡ store_is_ok (width_of kind) store.now }
{
    let w = hash::width(kind);
    if !stands(w, store) {
        return false;
    }
    let base = entries_start(store);
    let n = entries_said(store);
    if !idlist::is_rising(kind, store, base, w + END_BYTES, n) {
        return false;
    }
    ends_rise(w, store, base, n)
}

// The bytes from start to end, where they are a part of the store.
fn part_at(store: &[u8], start: usize, end: usize) -> Located
    ensures { result ≡ part_at store.now start end }
{
    if start <= end {
        if end <= store.len() {
            return Located::Body { start, end };
        }
    }
    Located::Absent
}

// Where the body of entry k lies, if it is a part of the store.
fn entry_body(w: usize, store: &[u8], base: usize, k: usize) -> Located
    requires { (base ≡ start store.now) × (base + entry_size w * k + entry_size w ≤ length store.now) }
    ensures { result ≡ part_at store.now (body_start w store.now k) (body_end w store.now k) }
{
    part_at(
        store,
        body_start(w, store, base, k),
        body_end(w, store, base, k),
    )
}

// The id of entry k, a part of the store.
fn id_of_entry(w: usize, store: &[u8], base: usize, k: usize) -> &[u8]
    requires { (base ≡ start store.now) × (base + entry_size w * k + entry_size w ≤ length store.now) }
    ensures { result.now ≡ id_of (entry_ids w store.now) k }
{
    hash::part(store, base + (w + END_BYTES) * k, w)
}

// The number of the entry under an id among the n that stand. Entry near is looked at first: where it is the one, nothing is searched.
fn find_entry(
    kind: Kind,
    store: &[u8],
    base: usize,
    n: usize,
    id: &[u8],
    near: usize,
) -> Option<usize>
    requires { (base ≡ start store.now) × (n ≡ standing_entries (width_of kind) store.now) × (length id.now ≡ width_of kind) }
    ensures { FindsEntry (width_of kind) store.now id.now result }
{
    let w = hash::width(kind);
    if near < n {
        if hash::same_id(kind, id_of_entry(w, store, base, near), id) {
            return Some(near);
        }
    }
    idlist::find(store, base, w + END_BYTES, 0, n, id)
}

// Where the body under an id lies, and the number of its entry, which is noted: there the body may be looked for first another time. What
// is found is the body of an entry under this id, in any bytes; where the ids do not rise it may be missed. Entry near is looked at first;
// where the ids rise any other number gives the same answer. Where no entry is found the number stays as it was.
fn locate_noting(kind: Kind, store: &[u8], id: &[u8], near: usize, entry: &mut usize) -> Located
    ensures { Locates (width_of kind) store.now id.now result × NotesEntry (width_of kind) store.now id.now entry.old entry.new }
{
    let w = hash::width(kind);
    if id.len() != w {
        return Located::Absent;
    }
    let base = entries_start(store);
    let n = count(kind, store);
    match find_entry(kind, store, base, n, id, near) {
        Some(k) => {
            *entry = k;
            entry_body(w, store, base, k)
        }
        None => Located::Absent,
    }
}

// The same without the number of the entry.
pub fn locate_near(kind: Kind, store: &[u8], id: &[u8], near: usize) -> Located
    ensures { Locates (width_of kind) store.now id.now result }
{
    let mut entry = 0;
    locate_noting(kind, store, id, near, &mut entry)
}

// The same, where no entry is known to be near.
pub fn locate(kind: Kind, store: &[u8], id: &[u8]) -> Located
    ensures { Locates (width_of kind) store.now id.now result }
{
    locate_near(kind, store, id, NO_ENTRY)
}

// The bytes that an answer names, a part of the store itself; empty where it names none.
pub fn body<'a>(store: &'a [u8], at: Located) -> &'a [u8]
    ensures { result.now ≡ part_of store.now at }
{
    match at {
        Located::Body { start, end } => {
            if start <= end {
                if end <= store.len() {
                    &store[start..end]
                } else {
                    &store[..0]
                }
            } else {
                &store[..0]
            }
        }
        Located::Absent => &store[..0],
    }
}

// Whether an answer names a body.
fn is_body(at: Located) -> bool
    ensures { result ≡ is_body at }
{
    match at {
        Located::Body { .. } => true,
        Located::Absent => false,
    }
}

// The body under an id, a part of the store itself and not a copy; found says whether there is one, and entry is set to the number of its
// entry, where the body may be looked for first another time. Where there is no entry it stays as it was.
pub fn try_find_noting<'a>(
    kind: Kind,
    store: &'a [u8],
    id: &[u8],
    found: &mut bool,
    entry: &mut usize,
) -> &'a [u8]
    ensures { TriesFind (width_of kind) store.now id.now found.new result.now × NotesEntry (width_of kind) store.now id.now entry.old entry.new }
{
    let at = locate_noting(kind, store, id, NO_ENTRY, entry);
    *found = is_body(at);
    body(store, at)
}

// The same without the entry.
pub fn try_find<'a>(kind: Kind, store: &'a [u8], id: &[u8], found: &mut bool) -> &'a [u8]
    ensures { TriesFind (width_of kind) store.now id.now found.new result.now }
{
    let at = locate(kind, store, id);
    *found = is_body(at);
    body(store, at)
}
