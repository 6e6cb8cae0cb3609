// The tests of an opening: document 01's refusals 1 to 8, in order 2 to 6, 1, 7, 8. No function here writes a byte, and each is total on
// any bytes and lengths.
#![tactic(auto)]

ghost use Rattle.std.specs.Prelude.{◌≡◌, List, [], ◌∷◌, ℕ, ◌/◌, ◌%◌, eqb, leb, length, None};
ghost use Rattle.object.specs.Header.{parent_size};
ghost use Rattle.walk.specs.Opening.{Input, list_ids, P, list_limit, sizes_ok, whole_ids, refusal, room_for, open_walk};
ghost use Rattle.opening.specs.Checks.{input_of, lengths_of, checked_of, checked_by, fault_of, TestsTips, ChecksTips};
ghost use Rattle.hash.specs.Bytes.{width_of};

use date::Seconds;
use hash::Kind;
use reading::TipError;
use walk::{Refusal, Settings, Sorting};

// The most bytes of the commit store and of the commit-graph file.
const MOST_FILE: usize = 16777216;

// The most ids of a list.
const MOST_IDS: usize = 1024;

// The most parents of a commit.
const MOST_PARENTS: usize = 256;

// Whether a list has at most the bytes of 1,024 ids.
fn list_fits(kind: Kind, list: &[u8]) -> bool
    ensures { result ≡ leb (length list.now) (list_limit (width_of kind)) }
{
    list.len() <= MOST_IDS * hash::width(kind)
}

// Whether the files and the lists have at most their sizes.
fn sizes_fit(
    kind: Kind,
    store: &[u8],
    graph: &[u8],
    tips: &[u8],
    hidden: &[u8],
    excluded: &[u8],
) -> bool
    ensures { (s : Settings) → s.kind ≡ kind → result ≡ sizes_ok (input_of store.now graph.now tips.now hidden.now excluded.now s) }
{
    if MOST_FILE < store.len() {
        return false;
    }
    if MOST_FILE < graph.len() {
        return false;
    }
    if !list_fits(kind, tips) {
        return false;
    }
    if !list_fits(kind, hidden) {
        return false;
    }
    list_fits(kind, excluded)
}

// Whether a list is of whole ids.
fn is_whole(kind: Kind, list: &[u8]) -> bool
    ensures { result ≡ eqb (length list.now % width_of kind) 0 }
{
    hash::whole(kind, list.len())
}

// Whether the lists are of whole ids.
fn lists_whole(kind: Kind, tips: &[u8], hidden: &[u8], excluded: &[u8]) -> bool
    ensures { (store graph : List ℕ) (s : Settings) → s.kind ≡ kind → result ≡ whole_ids (input_of store graph tips.now hidden.now excluded.now s) }
{
    if !is_whole(kind, tips) {
        return false;
    }
    if !is_whole(kind, hidden) {
        return false;
    }
    is_whole(kind, excluded)
}

// Refusals 2 to 6: the sizes, the lists, the layout of the store, and of the graph file, if one is lent, its header and its layout.
pub fn check_input(
    kind: Kind,
    store: &[u8],
    graph: &[u8],
    tips: &[u8],
    hidden: &[u8],
    excluded: &[u8],
) -> Result<(), Refusal>
    ensures { (s : Settings) → s.kind ≡ kind → result ≡ checked_of (refusal (input_of store.now graph.now tips.now hidden.now excluded.now s)) }
{
    if !sizes_fit(kind, store, graph, tips, hidden, excluded) {
        return Err(Refusal::InputTooLarge);
    }
    if !lists_whole(kind, tips, hidden, excluded) {
        return Err(Refusal::PartialId);
    }
    if !odb::is_good(kind, store) {
        return Err(Refusal::CorruptStore);
    }
    if graph.len() == 0 {
        return Ok(());
    }
    if !commitgraph::has_header(kind, graph) {
        return Err(Refusal::UnknownGraph);
    }
    if !commitgraph::is_good(kind, graph) {
        return Err(Refusal::CorruptGraph);
    }
    Ok(())
}

// The most parent lines that can stand in a store of n bytes.
fn lines_in(kind: Kind, n: usize) -> usize
    ensures { result ≡ n / parent_size (width_of kind) }
{
    n / object::parent_size(kind)
}

// How many places a walk needs (document 01's P).
pub fn capacity(kind: Kind, store: &[u8], graph: &[u8], tips: &[u8], hidden: &[u8]) -> usize
    ensures { (excluded : List ℕ) (s : Settings) → s.kind ≡ kind → result ≡ P (input_of store.now graph.now tips.now hidden.now excluded s) }
{
    hash::ids_in(kind, tips.len())
        + hash::ids_in(kind, hidden.len())
        + lines_in(kind, store.len())
        + commitgraph::count(graph)
}

// Refusal 1: whether every lent buffer has its size, for this many places. The lengths are in the buffers' own elements.
pub fn has_room(
    kind: Kind,
    cap: usize,
    names: usize,
    marks: usize,
    levels: usize,
    times: usize,
    line: usize,
    parents: usize,
) -> bool
    ensures { (i : Input) → i.settings.kind ≡ kind → cap ≡ P i → result ≡ room_for i (lengths_of names marks levels times line parents) }
{
    if hash::ids_in(kind, names) < cap {
        return false;
    }
    if marks < cap {
        return false;
    }
    if levels < cap {
        return false;
    }
    if times < cap {
        return false;
    }
    if line / 5 < cap {
        return false;
    }
    MOST_PARENTS * hash::width(kind) <= parents
}

// What is wrong with a tip that was read: the store lacks it, or its header is not good through committer.
fn tip_fault(read: Result<Seconds, TipError>) -> Result<(), Refusal>
    ensures { result ≡ fault_of read }
{
    match read {
        Ok(_) => Ok(()),
        Err(TipError::Missing) => Err(Refusal::TipNotFound),
        Err(TipError::Unreadable) => Err(Refusal::TipUnreadable),
    }
}

// The same of a tip in the store; one that is excluded is not read.
fn check_tip(kind: Kind, store: &[u8], excluded: &[u8], id: &[u8]) -> Result<(), Refusal>
    ensures { TestsTips (width_of kind) store.now (list_ids (width_of kind) excluded.now) (id.now ∷ []) result }
{
    if reading::is_among(kind, excluded, id) {
        return Ok(());
    }
    tip_fault(reading::read_tip(kind, store, id))
}

// The first fault of the tips, in list order. A repeated tip has the fault of its first place.
fn read_tips(kind: Kind, store: &[u8], tips: &[u8], excluded: &[u8]) -> Result<(), Refusal>
    ensures { TestsTips (width_of kind) store.now (list_ids (width_of kind) excluded.now) (list_ids (width_of kind) tips.now) result }
{
    let n = hash::ids_in(kind, tips.len());
    for k in 0..n {
        check_tip(kind, store, excluded, hash::nth(kind, tips, k))?;
    }
    Ok(())
}

// Refusals 7 and 8: under a time order each tip that is not excluded is in the store, with a header that is good through committer.
pub fn check_tips(
    kind: Kind,
    store: &[u8],
    tips: &[u8],
    excluded: &[u8],
    sorting: Sorting,
) -> Result<(), Refusal>
    ensures { ChecksTips (width_of kind) store.now tips.now excluded.now sorting result }
{
    if !walk::is_timed(sorting) {
        return Ok(());
    }
    read_tips(kind, store, tips, excluded)
}

// All tests of an opening, in order.
pub fn check(
    store: &[u8],
    graph: &[u8],
    tips: &[u8],
    hidden: &[u8],
    excluded: &[u8],
    settings: Settings,
    names: usize,
    marks: usize,
    levels: usize,
    times: usize,
    line: usize,
    parents: usize,
) -> Result<(), Refusal>
    ensures { let i = input_of store.now graph.now tips.now hidden.now excluded.now settings in result ≡ checked_by (open_walk i (room_for i (lengths_of names marks levels times line parents))) }
{
    let kind = settings.kind;
    check_input(kind, store, graph, tips, hidden, excluded)?;
    let cap = capacity(kind, store, graph, tips, hidden);
    if !has_room(kind, cap, names, marks, levels, times, line, parents) {
        return Err(Refusal::BufferTooSmall);
    }
    check_tips(kind, store, tips, excluded, settings.sorting)
}
