// A commit gets marks: it is read when it first gets one, and its slot is queued.
ghost use Rattle.std.specs.Prelude.{◌≡◌};
ghost use Rattle.frontier.specs.Paint.{lent};
ghost use Rattle.frontier.specs.Mark.{Learns, PlacesAdded, Queues, Takes, TakesAdded};
ghost use Rattle.walk.specs.Painting.{mark};
ghost use Rattle.hash.specs.Bytes.{width_of};

use crate::slots;
use crate::slots::Added;
use commitgraph::Layout;
use hash::Kind;
use hashtable::table;
use pending::Pending;
use reading::{Commit, NOWHERE};
use walk::Refusal;

// Why painting does not go on.
#[derive(Clone, Copy)]
pub enum MarkError {
    // A commit cannot be read.
    Stop(Refusal),
    // The lent memory is too small: an id has no slot in the table, or a slot no place in the queue.
    NoRoom,
}

// How a part of painting ends: it goes on with this queue, or it does not.
pub type Marked = Result<Pending, MarkError>;

// Reads a commit, which may stand at near, and sets down its generation and seconds in a slot.
fn learn(
    kind: Kind,
    levels: &mut [u32],
    times: &mut [i64],
    cache: Option<Layout>,
    graph: &[u8],
    store: &[u8],
    id: &[u8],
    near: usize,
    slot: u32,
) -> Result<u32, MarkError>
    ensures { Learns (width_of kind) cache graph.now store.now levels.old times.old levels.new times.new id.now slot result }
{
    let c = reading::read_commit(kind, cache, graph, store, id, near);
    match c {
        Commit::Row { pair, .. } => {
            slots::set_pair(levels, times, slot, pair);
            Ok(slot)
        }
        Commit::Body { pair, .. } => {
            slots::set_pair(levels, times, slot, pair);
            Ok(slot)
        }
        Commit::Failed(n) => Err(MarkError::Stop(n)),
    }
}

// Reads the commit of an id that gained marks, where these are the first. No promise speaks of near, where the commit may stand.
fn place(
    kind: Kind,
    levels: &mut [u32],
    times: &mut [i64],
    cache: Option<Layout>,
    graph: &[u8],
    store: &[u8],
    id: &[u8],
    near: usize,
    added: Added,
) -> Result<u32, MarkError>
    ensures { PlacesAdded (width_of kind) cache graph.now store.now levels.old times.old levels.new times.new id.now added result }
{
    match added {
        Added::New(k) => learn(kind, levels, times, cache, graph, store, id, near, k),
        Added::Known(k) => Ok(k),
        Added::Full => Err(MarkError::NoRoom),
    }
}

// Queues a slot by its pair.
fn queue_slot(p: Pending, line: &mut [u32], levels: &[u32], times: &[i64], slot: u32) -> Marked
    ensures { Queues levels.now times.now slot p line.old line.new result }
{
    pending::push(p, line, levels, times, slot).ok_or(MarkError::NoRoom)
}

// Queues a commit that gained marks in the table, as `added` says. The table is no part of it, so that the id is only handed on: where it
// is written into a slot too, the compiler sets its slice down anew for the reading, which then waits for the slot.
pub fn queue_added(
    kind: Kind,
    levels: &mut [u32],
    times: &mut [i64],
    line: &mut [u32],
    cache: Option<Layout>,
    graph: &[u8],
    store: &[u8],
    p: Pending,
    id: &[u8],
    near: usize,
    added: Added,
) -> Marked
    ensures { TakesAdded (width_of kind) cache graph.now store.now levels.old times.old line.old levels.new times.new line.new p id.now added result }
{
    let slot = place(kind, levels, times, cache, graph, store, id, near, added)?;
    queue_slot(p, line, levels, times, slot)
}

// Gives marks to a commit of which no place is known, and queues it.
pub fn mark_one(
    kind: Kind,
    names: &mut [u8],
    marks: &mut [u8],
    levels: &mut [u32],
    times: &mut [i64],
    line: &mut [u32],
    cap: usize,
    cache: Option<Layout>,
    graph: &[u8],
    store: &[u8],
    p: Pending,
    id: &[u8],
    bits: u8,
) -> Marked
    ensures { Takes (width_of kind) mark cache graph.now store.now cap (lent names.old marks.old levels.old times.old line.old) (lent names.new marks.new levels.new times.new line.new) p id.now bits result }
{
    let slot = table::find_slot(kind, names, marks, cap, false, id);
    let added = slots::add_mark(kind, names, marks, id, slot, bits);
    queue_added(
        kind, levels, times, line, cache, graph, store, p, id, NOWHERE, added,
    )
}
