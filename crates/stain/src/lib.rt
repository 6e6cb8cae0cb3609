// The stains of card 8: each commit that both searches met stains its parents, but not itself. A stain is a 1 in the lent levels, at the slot
// of the id; names, marks and line stay as the searches left them. Every function is total and safe on any bytes and numbers.
#![tactic(auto)]

ghost use Rattle.std.specs.Prelude.{◌≡◌, get_or, eqb};
ghost use Rattle.hashtable.specs.Marks.{frontier};
ghost use Rattle.object.specs.Header.{header};
ghost use Rattle.reach.specs.Memory.{lent};
ghost use Rattle.hashtable.specs.Table.{cleared};
ghost use Rattle.stain.specs.Stain.{stained_at, StainsId, StainsParents, StainsCommit, StainsAt, StainsAll};
ghost use Rattle.hash.specs.Bytes.{width_of};

use hash::Kind;
use hashtable::marks::{has_hidden, has_visible};
use hashtable::table;
use hashtable::table::Slot;

// The slot at place k of the line; 0 past the end.
pub fn slot_at(line: &[u32], k: usize) -> u32
    ensures { result ≡ get_or line.now k 0 }
{
    if line.len() <= k {
        return 0;
    }
    line[k]
}

// Whether a mark has those of both searches.
pub fn has_both(m: u8) -> bool
    ensures { result ≡ frontier m }
{
    has_visible(m) && has_hidden(m)
}

// Whether a slot is stained; not past the end.
pub fn is_stained(levels: &[u32], slot: usize) -> bool
    ensures { result ≡ eqb (get_or levels.now slot 0) 1 }
{
    slot_at(levels, slot) == 1
}

// Takes the stains off the first cap slots.
pub fn clear(levels: &mut [u32], cap: usize)
    ensures { levels.new ≡ cleared cap levels.old }
{
    for slot in 0..levels.len() {
        if cap <= slot {
            return;
        }
        levels[slot] = 0;
    }
}

// Stains a slot, unless it is `own`; past the end nothing is changed.
fn stain_slot(levels: &mut [u32], slot: usize, own: usize)
    ensures { levels.new ≡ stained_at own slot levels.old }
{
    if slot == own {
        return;
    }
    if slot < levels.len() {
        levels[slot] = 1;
    }
}

// Stains an id of the table, unless it stands in the slot `own`.
fn stain_id(
    kind: Kind,
    names: &[u8],
    marks: &[u8],
    levels: &mut [u32],
    cap: usize,
    own: usize,
    id: &[u8],
)
    ensures { StainsId (width_of kind) names.now marks.now levels.old levels.new cap own id.now }
{
    let s = table::find_slot(kind, names, marks, cap, false, id);
    match s {
        Slot::Found(k) => stain_slot(levels, k, own),
        Slot::Vacant(_) => {}
        Slot::Full => {}
    }
}

// Stains the ids of the first `count` parent lines of a body, which a good tree line stands before, but not the slot `own`.
fn stain_parents(
    kind: Kind,
    names: &[u8],
    marks: &[u8],
    levels: &mut [u32],
    cap: usize,
    own: usize,
    body: &[u8],
    count: usize,
)
    ensures { StainsParents (width_of kind) (header (width_of kind) body.now) names.now marks.now levels.old levels.new cap own count }
{
    for i in 0..count {
        let id = reading::body_parent(kind, body, i);
        stain_id(
            kind,
            names,
            marks,
            levels,
            cap,
            own,
            object::id_slice(kind, &id.bytes),
        );
    }
}

// Stains the parents of the commit in the slot `own`, but not itself.
fn stain_commit(
    kind: Kind,
    names: &[u8],
    marks: &[u8],
    levels: &mut [u32],
    cap: usize,
    own: usize,
    store: &[u8],
)
    ensures { StainsCommit (width_of kind) store.now names.now marks.now levels.old levels.new cap own }
{
    let body = reading::stored_body(kind, store, table::id_of(kind, names, own));
    if let Ok(header) = object::readable(kind, body) {
        stain_parents(kind, names, marks, levels, cap, own, body, header.parents);
    }
}

// The same where the slot has both marks; else nothing is changed.
fn stain_at(
    kind: Kind,
    names: &[u8],
    marks: &[u8],
    levels: &mut [u32],
    cap: usize,
    own: usize,
    store: &[u8],
)
    ensures { StainsAt (width_of kind) store.now names.now marks.now levels.old levels.new cap own }
{
    let m = table::mark_of(marks, own);
    if has_both(m) {
        stain_commit(kind, names, marks, levels, cap, own, store);
    }
}

// Each commit of the line's first n that has both marks stains its parents, but not itself.
pub fn stain_all(
    kind: Kind,
    names: &[u8],
    marks: &[u8],
    levels: &mut [u32],
    line: &[u32],
    cap: usize,
    store: &[u8],
    n: usize,
)
    ensures { StainsAll (width_of kind) store.now (lent names.now marks.now line.now) levels.old levels.new cap n }
{
    for i in 0..n {
        let slot = slot_at(line, i);
        stain_at(kind, names, marks, levels, cap, slot as usize, store);
    }
}
