// Where two series part (document 02, cards 8 and 11; git's merge-base): of all best common ancestors of two tips the first, from the commit store
// alone. Two searches mark what each tip reaches, common commits stain their parents, and a common commit that is not stained is best. Every
// function is total and safe on any bytes and numbers.
#![tactic(auto)]

ghost use Rattle.std.specs.Prelude.{◌≡◌, ◌+◌, ◌/◌, length};
ghost use Rattle.hash.specs.Bytes.{Id, width_of};
ghost use Rattle.object.specs.Ids.{id_in};
ghost use Rattle.object.specs.Header.{parent_size};
ghost use Rattle.walk.specs.Opening.{list_ids};
ghost use Rattle.opening.specs.Checks.{lengths_of, checked_of};
ghost use Rattle.reach.specs.Memory.{lent};
ghost use Rattle.mergebase.specs.Parting.{early_refusal};
ghost use Rattle.mergebase.specs.Call.{MergeBaseSays};
ghost use Rattle.mergebase.specs.Memory.{PartsFrom, BestOf, PartsTips};

use hash::Kind;
use hashtable::table;
use object::ObjectId;
use walk::Refusal;

// The most bytes of the commit store.
const MOST_FILE: usize = 16777216;

// How many places two tips need without a graph, over a store of n bytes (document 01's P).
fn places(kind: Kind, n: usize) -> usize
    ensures { result ≡ 2 + n / parent_size (width_of kind) }
{
    2 + n / object::parent_size(kind)
}

// Refusals 2, 4 and 1, in order.
fn check(
    kind: Kind,
    store: &[u8],
    names: usize,
    marks: usize,
    levels: usize,
    times: usize,
    line: usize,
    parents: usize,
) -> Result<(), Refusal>
    ensures { (a b : Id) → length a ≡ width_of kind → length b ≡ width_of kind → result ≡ checked_of (early_refusal kind store.now a b (lengths_of names marks levels times line parents)) }
{
    if MOST_FILE < store.len() {
        return Err(Refusal::InputTooLarge);
    }
    if !odb::is_good(kind, store) {
        return Err(Refusal::CorruptStore);
    }
    if !opening::has_room(
        kind,
        places(kind, store.len()),
        names,
        marks,
        levels,
        times,
        line,
        parents,
    ) {
        return Err(Refusal::BufferTooSmall);
    }
    Ok(())
}

// The slot of the first best commit after both searches, the first of which met n; none where no commit has both marks.
fn best_of(
    kind: Kind,
    names: &[u8],
    marks: &[u8],
    levels: &mut [u32],
    line: &[u32],
    cap: usize,
    store: &[u8],
    n: usize,
) -> Result<Option<u32>, Refusal>
    ensures { BestOf (width_of kind) store.now (lent names.now marks.now line.now) levels.old cap n result }
{
    stain::clear(levels, cap);
    stain::stain_all(kind, names, marks, levels, line, cap, store, n);
    Ok(parting::choose(kind, names, marks, levels, line, store, n)?)
}

// The search from the other tip, after that from one, which met n.
fn part_from(
    kind: Kind,
    names: &mut [u8],
    marks: &mut [u8],
    levels: &mut [u32],
    line: &mut [u32],
    cap: usize,
    store: &[u8],
    other: &[u8],
    n: usize,
) -> Result<Option<u32>, Refusal>
    ensures { PartsFrom (width_of kind) store.now (lent names.old marks.old line.old) (lent names.new marks.new line.new) levels.old cap n (list_ids (width_of kind) other.now) result }
{
    reach::search_from(kind, names, marks, line, cap, true, cap, store, other)?;
    best_of(kind, names, marks, levels, line, cap, store, n)
}

// Both searches, in memory that has room for them.
fn part_tips(
    kind: Kind,
    names: &mut [u8],
    marks: &mut [u8],
    levels: &mut [u32],
    line: &mut [u32],
    cap: usize,
    store: &[u8],
    one: &[u8],
    other: &[u8],
) -> Result<Option<u32>, Refusal>
    ensures { PartsTips (width_of kind) store.now (lent names.old marks.old line.old) (lent names.new marks.new line.new) levels.old cap (list_ids (width_of kind) one.now) (list_ids (width_of kind) other.now) result }
{
    table::clear(marks, cap);
    let n = reach::search_from(kind, names, marks, line, cap, false, 0, store, one)?;
    part_from(kind, names, marks, levels, line, cap, store, other, n)
}

// The call: the first of the best of the commits that are reachable from both tips, none where no commit is, or why nothing is said. 2, 4 and 1 are
// tested first and alter nothing; after that the lent memory is free, and what is said is right.
pub fn merge_base(
    kind: Kind,
    store: &[u8],
    one: ObjectId,
    other: ObjectId,
    names: &mut [u8],
    marks: &mut [u8],
    levels: &mut [u32],
    times: &[i64],
    line: &mut [u32],
    parents: &[u8],
) -> Result<Option<ObjectId>, Refusal>
    ensures { MergeBaseSays kind store.now (id_in (width_of kind) one.bytes) (id_in (width_of kind) other.bytes) (lengths_of (length names.old) (length marks.old) (length levels.old) (length times.now) (length line.old) (length parents.now)) (lent names.old marks.old line.old) (lent names.new marks.new line.new) levels.old levels.new result }
{
    check(
        kind,
        store,
        names.len(),
        marks.len(),
        levels.len(),
        times.len(),
        line.len(),
        parents.len(),
    )?;
    let place = part_tips(
        kind,
        names,
        marks,
        levels,
        line,
        places(kind, store.len()),
        store,
        object::id_slice(kind, &one.bytes),
        object::id_slice(kind, &other.bytes),
    )?;
    let Some(slot) = place else {
        return Ok(None);
    };
    let id = table::id_of(kind, names, slot as usize);
    Ok(Some(object::id_of(id)))
}
