// The levels of the commits of a store (git: topological levels), by a depth-first search whose stack is threaded through the lent levels: no other
// memory, no recursion. A commit is known by the number of its entry.
#![tactic(auto)]

ghost use Rattle.std.specs.Prelude.{◌≡◌, true, ℕ, ◌+◌, ◌*◌, ◌-◌, ◌<◌, ◌≤◌, length, get_or, set, ltb};
ghost use Rattle.hash.specs.Bytes.{width_of};
ghost use Rattle.object.specs.Header.{tree_size, parent_size};
ghost use Rattle.odb.specs.Lookup.{entry_body, ids_rise};
ghost use Rattle.levels.specs.Levels.{Graph, larger};
ghost use Rattle.levels.specs.Search.{Turns, Levels, Cleared, Puts, Greatest, tag, back_of, most_nodes};
ghost use Rattle.levels.specs.StoreGraph.{lines_count, entry_of, store_graph, StoreLevels};

use hash::Kind;

// How the search stands after a turn: it goes on with an entry at hand (n: none), the entries below root having been met; all have their levels; there
// are no levels. Three ways, each with a step of its own: an Option in a Result would say no more.
#[derive(Clone, Copy)]
pub enum Turn {
    On { top: usize, root: usize },
    All,
    Unfit,
}

// Why the levels of a store are not set down.
#[derive(Clone, Copy)]
pub enum LevelsError {
    // No levels satisfy the rule, or a parent is no entry, or an entry has over 256.
    NoLevels,
    // Too few lent levels for the entries.
    Short,
    // The store's layout is broken.
    Torn,
}

const TAG: usize = 2147483648;

const MOST_NODES: usize = 1048576;

fn wide(x: u32) -> usize
    ensures { result ≡ x }
{
    x as usize
}

// Element k, 0 past the end.
fn word(s: &[u32], k: usize) -> usize
    ensures { (result ≡ get_or s.now k 0) × (result < 4294967296) }
{
    if k < s.len() { wide(s[k]) } else { 0 }
}

// Stores v, where it fits and there is such a place.
fn put(s: &mut [u32], k: usize, v: usize)
    ensures { Puts s.old s.new k v }
{
    if k < s.len() {
        if v < 4294967296 {
            s[k] = v as u32;
        }
    }
}

// Where parent line j stands in a body, the tree line being whole.
fn line_place(kind: Kind, j: usize) -> usize
    requires { j ≤ 256 }
    ensures { result ≡ tree_size (width_of kind) + parent_size (width_of kind) * j }
{
    object::tree_size(kind) + object::parent_size(kind) * j
}

// Entry k has a parent line j, where it has those before: it stands at its place. (Past the count a message may look like one. No count is ever
// taken: that would read the whole header again for each parent.)
fn has_parent(kind: Kind, store: &[u8], k: usize, j: usize) -> bool
    ensures { j ≤ lines_count (width_of kind) (entry_body (width_of kind) store.now k) → result ≡ ltb j (lines_count (width_of kind) (entry_body (width_of kind) store.now k)) }
{
    if 256 < j {
        return false;
    }
    let at = line_place(kind, j);
    object::is_parent_line(kind, odb::entry_bytes(kind, store, k), at)
}

// The number of the entry under an id, n where there is none: of a store whose ids rise, else one may be missed.
fn entry_of(kind: Kind, store: &[u8], n: usize, id: &[u8]) -> usize
    ensures { ids_rise (width_of kind) store.now ≡ true → result ≡ entry_of (width_of kind) store.now n id.now }
{
    let mut found = false;
    let mut entry = n;
    odb::try_find_noting(kind, store, id, &mut found, &mut entry);
    entry
}

// The number of the entry that is parent j of entry k, n where that parent is no entry.
pub fn parent_at(kind: Kind, store: &[u8], n: usize, k: usize, j: usize) -> usize
    ensures { ids_rise (width_of kind) store.now ≡ true → j < 256 → j < lines_count (width_of kind) (entry_body (width_of kind) store.now k) → result ≡ (store_graph (width_of kind) store.now n).parent k j }
{
    if 256 < j {
        return n;
    }
    let at = line_place(kind, j);
    let Some(id) = object::parent_line(kind, odb::entry_bytes(kind, store, k), at) else {
        return n;
    };
    entry_of(kind, store, n, object::id_slice(kind, &id.bytes))
}

// The greatest level among the first c parents of entry k.
fn greatest(kind: Kind, store: &[u8], levels: &[u32], n: usize, k: usize, c: usize) -> usize
    requires { ids_rise (width_of kind) store.now ≡ true }
    ensures { Greatest (store_graph (width_of kind) store.now n) levels.now k c result }
{
    let mut m: usize = 0;
    for i in 0usize..c {
        let p = parent_at(kind, store, n, k, i);
        let v = word(levels, p);
        let l = above(v);
        m = larger_of(m, l);
    }
    m
}

fn larger_of(a: usize, b: usize) -> usize
    ensures { result ≡ larger a b }
{
    if a < b { b } else { a }
}

// The level that a done entry holds.
fn above(v: usize) -> usize
    ensures { result ≡ v - tag }
{
    if v < TAG { 0 } else { v - TAG }
}

// The entry to go back to, and the number of the parent at hand.
fn back_of(v: usize) -> usize
    ensures { result ≡ back_of v }
{
    let b = v / 512;
    if b < 1 { 0 } else { b - 1 }
}

// A turn with no entry at hand: the next root goes on the path if it was not met.
fn next_root(levels: &mut [u32], n: usize, top: usize, root: usize) -> Turn
    requires { (n ≤ most_nodes) × (n ≤ length levels.old) × (n ≤ top) }
    ensures { (g : Graph) → g.nodes ≡ n → Turns g levels.old levels.new top root result }
{
    if n <= root {
        return Turn::All;
    }
    let w = word(levels, root);
    if w < 1 {
        put(levels, root, (n + 1) * 512);
        return Turn::On {
            top: root,
            root: root + 1,
        };
    }
    Turn::On {
        top,
        root: root + 1,
    }
}

// One turn: the entry at hand goes on by one parent, is done, or another goes on top of it.
fn take_turn(
    kind: Kind,
    store: &[u8],
    levels: &mut [u32],
    n: usize,
    top: usize,
    root: usize,
) -> Turn
    requires { (n ≤ most_nodes) × (n ≤ length levels.old) × (ids_rise (width_of kind) store.now ≡ true) }
    ensures { Turns (store_graph (width_of kind) store.now n) levels.old levels.new top root result }
{
    if n <= top {
        return next_root(levels, n, top, root);
    }
    let v = word(levels, top);
    let j = v % 512;
    if has_parent(kind, store, top, j) {
        if 256 <= j {
            return Turn::Unfit;
        }
        let p = parent_at(kind, store, n, top, j);
        if n <= p {
            return Turn::Unfit;
        }
        let w = word(levels, p);
        if w < 1 {
            put(levels, p, (top + 1) * 512);
            return Turn::On { top: p, root };
        }
        if w < TAG {
            return Turn::Unfit;
        }
        put(levels, top, v + 1);
        return Turn::On { top, root };
    }
    let m = greatest(kind, store, levels, n, top, j);
    put(levels, top, TAG + (m + 1));
    Turn::On {
        top: back_of(v),
        root,
    }
}

// Zeros in the first n places.
fn clear(levels: &mut [u32], n: usize)
    ensures { Cleared n levels.old levels.new }
{
    for i in 0usize..n {
        put(levels, i, 0);
    }
}

// The levels of the n entries of a store, set down in the lent levels with the tag, or that there are none: then the first n places are free.
fn search_levels(kind: Kind, store: &[u8], levels: &mut [u32], n: usize) -> Result<(), LevelsError>
    requires { ids_rise (width_of kind) store.now ≡ true }
    ensures { Levels (store_graph (width_of kind) store.now n) levels.old levels.new result }
{
    if levels.len() < n {
        return Err(LevelsError::Short);
    }
    if MOST_NODES < n {
        return Err(LevelsError::Short);
    }
    clear(levels, n);
    let mut top = n;
    let mut root: usize = 0;
    loop {
        match take_turn(kind, store, levels, n, top, root) {
            Turn::On { top: a, root: b } => {
                top = a;
                root = b;
            }
            Turn::All => return Ok(()),
            Turn::Unfit => return Err(LevelsError::NoLevels),
        }
    }
}

// The levels of a store's commits: where each entry's parents are entries, at most 256 of them, and levels exist that satisfy the rule, each entry's level is
// set down in its place with the tag 2^31 added.
pub fn find_levels(kind: Kind, store: &[u8], levels: &mut [u32]) -> Result<(), LevelsError>
    ensures { StoreLevels (width_of kind) store.now levels.old levels.new result }
{
    if !odb::is_good(kind, store) {
        return Err(LevelsError::Torn);
    }
    let n = odb::count(kind, store);
    search_levels(kind, store, levels, n)
}
