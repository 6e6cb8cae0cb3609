// The moves of a trace by turns (document 02, card 12): two functions that call each other, the cone to move and the bed to move, with one move
// fewer each time. A memo of any length remembers what each came to; what it has no cell for is found again. Every function is total and safe on any
// bytes and numbers.
#![tactic(auto)]

ghost use Rattle.std.specs.Prelude.{◌≡◌, true, false};
ghost use Rattle.object.specs.Ids.{id_in};
ghost use Rattle.odb.specs.Store.{standing_entries};
ghost use Rattle.walk.specs.Opening.{list_ids};
ghost use Rattle.moves.specs.Remembered.{Lists, Settles, Judges, FindsFirst};
ghost use Rattle.hash.specs.Bytes.{width_of};

use hash::Kind;
use object::ObjectId;
use reading::body_parent;

// Whether a commit is on the list, its entry being k of n. That is the cone's prospect without a move, and remembered as such.
fn is_listed(
    kind: Kind,
    store: &[u8],
    list: &[u8],
    memo: &mut [u8],
    n: usize,
    k: usize,
    id: &[u8],
) -> bool
    ensures { n ≡ standing_entries (width_of kind) store.now → Lists (width_of kind) store.now (list_ids (width_of kind) list.now) k id.now memo.old memo.new result }
{
    let known = memo::recall(memo, n, k, false, 0);
    if known != 0 {
        return known == 2;
    }
    let listed = reading::is_among(kind, list, id);
    memo::note(memo, n, k, false, 0, listed);
    listed
}

// What is settled without a move: 2 yes, 1 no, 0 where a move is to be made.
fn settled(
    kind: Kind,
    store: &[u8],
    list: &[u8],
    memo: &mut [u8],
    n: usize,
    k: usize,
    bed: bool,
    d: usize,
    id: &[u8],
) -> u8
    ensures { n ≡ standing_entries (width_of kind) store.now → Settles (width_of kind) store.now (list_ids (width_of kind) list.now) k bed d id.now memo.old memo.new result }
{
    let known = memo::recall(memo, n, k, bed, d);
    if known != 0 {
        return known;
    }
    if is_listed(kind, store, list, memo, n, k, id) {
        return 2;
    }
    if d == 0 {
        return 1;
    }
    0
}

// The cone to move: whether it forces the trace to the list within d moves. One parent from which the bed, to move then, cannot evade is enough.
#[cycle(bed_to_move_cone_to_move)]
pub fn cone_to_move(
    kind: Kind,
    store: &[u8],
    list: &[u8],
    memo: &mut [u8],
    d: usize,
    id: ObjectId,
) -> bool
    ensures { Judges (width_of kind) store.now (list_ids (width_of kind) list.now) false d (id_in (width_of kind) id.bytes) memo.old memo.new result }
{
    let n = odb::count(kind, store);
    let x = object::id_slice(kind, &id.bytes);
    let k = memo::entry_of(kind, store, n, x);
    let s = settled(kind, store, list, memo, n, k, false, d, x);
    if s != 0 {
        return s == 2;
    }
    let body = reading::stored_body(kind, store, x);
    let count = memo::parent_count(kind, body);
    for i in 0..count {
        if bed_to_move(kind, store, list, memo, d - 1, body_parent(kind, body, i)) {
            memo::note(memo, n, k, false, d, true);
            return true;
        }
    }
    memo::note(memo, n, k, false, d, false);
    false
}

// The bed to move: whether the cone forces the trace all the same. It does where there are parents, and from each of them it does, the cone to move.
#[cycle(bed_to_move_cone_to_move)]
pub fn bed_to_move(
    kind: Kind,
    store: &[u8],
    list: &[u8],
    memo: &mut [u8],
    d: usize,
    id: ObjectId,
) -> bool
    ensures { Judges (width_of kind) store.now (list_ids (width_of kind) list.now) true d (id_in (width_of kind) id.bytes) memo.old memo.new result }
{
    let n = odb::count(kind, store);
    let x = object::id_slice(kind, &id.bytes);
    let k = memo::entry_of(kind, store, n, x);
    let s = settled(kind, store, list, memo, n, k, true, d, x);
    if s != 0 {
        return s == 2;
    }
    let body = reading::stored_body(kind, store, x);
    let count = memo::parent_count(kind, body);
    for i in 0..count {
        if !cone_to_move(kind, store, list, memo, d - 1, body_parent(kind, body, i)) {
            memo::note(memo, n, k, true, d, false);
            return false;
        }
    }
    let forced = 0 < count;
    memo::note(memo, n, k, true, d, forced);
    forced
}

// The number of the first parent in header order from which the cone forces it, the bed to move with d moves left; the number of parents where there is
// none.
pub fn first_forcing(
    kind: Kind,
    store: &[u8],
    list: &[u8],
    memo: &mut [u8],
    d: usize,
    id: ObjectId,
) -> usize
    ensures { FindsFirst (width_of kind) store.now (list_ids (width_of kind) list.now) d (id_in (width_of kind) id.bytes) memo.old memo.new result }
{
    let x = object::id_slice(kind, &id.bytes);
    let body = reading::stored_body(kind, store, x);
    let count = memo::parent_count(kind, body);
    for i in 0..count {
        if bed_to_move(kind, store, list, memo, d, body_parent(kind, body, i)) {
            return i;
        }
    }
    count
}
