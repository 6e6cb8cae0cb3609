// An id is noted: unless it has the search's mark it gets it, and its slot enters the line.
ghost use Rattle.std.specs.Prelude.{◌≡◌, ◌+◌, ◌<◌};
ghost use Rattle.object.specs.Header.{header};
ghost use Rattle.walk.specs.Opening.{list_ids};
ghost use Rattle.reach.specs.Memory.{most_slots, fresh_at, Raises, MarksId, Puts, lent, Notes, NotesNext, NotesAll, NotesOne, NotesParents};
ghost use Rattle.hash.specs.Bytes.{width_of};

use crate::bits;
use hash::Kind;
use hashtable::table;
use hashtable::table::Slot;

// What came of an id: it was new to this search and stands in a slot; it was known; or there is no slot for it. An enum of three, and no Result
// of an Option: `note` goes on differently after each.
#[derive(Clone, Copy)]
pub enum Marking {
    Fresh(u32),
    Known,
    Full,
}

// A slot as the line holds it.
fn fresh(slot: usize) -> Marking
    ensures { slot < most_slots → result ≡ fresh_at slot }
{
    if slot < 4294967296 {
        return Marking::Fresh(slot as u32);
    }
    Marking::Full
}

// Gives the mark to a slot that lacks it.
fn raise(marks: &mut [u8], slot: usize, second: bool) -> Marking
    ensures { Raises second marks.old marks.new slot result }
{
    let m = table::mark_of(marks, slot);
    if bits::has_bit(second, m) {
        return Marking::Known;
    }
    table::set_mark(marks, slot, bits::with_bit(second, m));
    fresh(slot)
}

// Gives the mark to an id, which enters the table where it is not there.
fn mark_id(
    kind: Kind,
    names: &mut [u8],
    marks: &mut [u8],
    cap: usize,
    second: bool,
    id: &[u8],
) -> Marking
    ensures { MarksId (width_of kind) second names.old marks.old names.new marks.new cap id.now result }
{
    let first = bits::with_bit(second, 0);
    let s = table::insert(kind, names, marks, cap, false, id, first);
    match s {
        Slot::Found(k) => raise(marks, k, second),
        Slot::Vacant(k) => fresh(k),
        Slot::Full => Marking::Full,
    }
}

// Sets a slot down at the end of the line's n from `from` on.
fn put(line: &mut [u32], from: usize, n: usize, slot: u32) -> Option<usize>
    ensures { Puts line.old line.new from n slot result }
{
    if line.len() <= from {
        return None;
    }
    if line.len() - from <= n {
        return None;
    }
    line[from + n] = slot;
    Some(n + 1)
}

// Notes one id.
pub fn note(
    kind: Kind,
    names: &mut [u8],
    marks: &mut [u8],
    line: &mut [u32],
    cap: usize,
    second: bool,
    from: usize,
    n: usize,
    id: &[u8],
) -> Option<usize>
    ensures { Notes (width_of kind) second cap from (lent names.old marks.old line.old) (lent names.new marks.new line.new) n id.now result }
{
    let marked = mark_id(kind, names, marks, cap, second, id);
    match marked {
        Marking::Fresh(slot) => put(line, from, n, slot),
        Marking::Known => Some(n),
        Marking::Full => None,
    }
}

// The same after an answer: where there is no room, nothing is done.
pub fn note_next(
    kind: Kind,
    names: &mut [u8],
    marks: &mut [u8],
    line: &mut [u32],
    cap: usize,
    second: bool,
    from: usize,
    past: Option<usize>,
    id: &[u8],
) -> Option<usize>
    ensures { NotesNext (width_of kind) second cap from (lent names.old marks.old line.old) (lent names.new marks.new line.new) past id.now result }
{
    let n = past?;
    note(kind, names, marks, line, cap, second, from, n, id)
}

// Notes each id of a list, in order.
pub fn note_list(
    kind: Kind,
    names: &mut [u8],
    marks: &mut [u8],
    line: &mut [u32],
    cap: usize,
    second: bool,
    from: usize,
    past: Option<usize>,
    list: &[u8],
) -> Option<usize>
    ensures { NotesAll (width_of kind) second cap from (lent names.old marks.old line.old) (lent names.new marks.new line.new) past (list_ids (width_of kind) list.now) result }
{
    let count = hash::ids_in(kind, list.len());
    let mut r = past;
    for i in 0..count {
        let id = hash::nth(kind, list, i);
        r = note_next(kind, names, marks, line, cap, second, from, r, id);
    }
    r
}

// Notes parent k of a body after the n of the line.
fn note_one(
    kind: Kind,
    names: &mut [u8],
    marks: &mut [u8],
    line: &mut [u32],
    cap: usize,
    second: bool,
    from: usize,
    n: usize,
    body: &[u8],
    k: usize,
) -> Option<usize>
    ensures { NotesOne (width_of kind) second cap from (header (width_of kind) body.now) (lent names.old marks.old line.old) (lent names.new marks.new line.new) n k result }
{
    let id = reading::body_parent(kind, body, k);
    note(
        kind,
        names,
        marks,
        line,
        cap,
        second,
        from,
        n,
        object::id_slice(kind, &id.bytes),
    )
}

// Notes the parents of a commit after the n of the line, in order: the ids of the first `count` parent lines of its body, which a good tree line
// stands before. How many slots the line has is carried as a plain number: an answer that is carried from turn to turn is copied whole just after
// its parts were stored, and such a copy waits until every store before it has arrived in memory.
pub fn note_parents(
    kind: Kind,
    names: &mut [u8],
    marks: &mut [u8],
    line: &mut [u32],
    cap: usize,
    second: bool,
    from: usize,
    n: usize,
    body: &[u8],
    count: usize,
) -> Option<usize>
    ensures { NotesParents (width_of kind) second cap from (header (width_of kind) body.now) (lent names.old marks.old line.old) (lent names.new marks.new line.new) n count result }
{
    let mut have = n;
    for i in 0..count {
        have = note_one(kind, names, marks, line, cap, second, from, have, body, i)?;
    }
    Some(have)
}
