// The end of painting (compute_hidden_frontier in gix_traverse::commit::simple): the frontier leaves the queue, and what left is struck;
// or painting was refused, or was not due. Every function is total and safe on any bytes and numbers.
#![tactic(auto)]

ghost use Rattle.std.specs.Prelude.{◌≡◌, cond, ◌+◌, ◌≤◌, length, get_or, set};
ghost use Rattle.hashtable.specs.Marks.{frontier};
ghost use Rattle.refill.specs.Painted.{Leaves, Fails, Skips};
ghost use Rattle.refill.specs.Inner.{empty_queue, Struck, Ends, RereadsSlot, Rereads, Drains, Enters, Refills, Sifts};
ghost use Rattle.hash.specs.Bytes.{width_of};

use hash::Kind;
use hashtable::marks::{has_hidden, has_visible};
use hashtable::table;
use revwalk::queue;
use revwalk::queue::Queue;
use state::Record;

// The largest number that a count may have here.
const MOST: usize = 4294967295;

fn wide(x: u32) -> usize
    ensures { result ≡ x }
{
    x as usize
}

// The queue with nothing in it.
fn emptied(q: Queue) -> Queue
    ensures { result ≡ empty_queue q }
{
    Queue {
        timed: q.timed,
        newest: q.newest,
        cap: q.cap,
        head: 0,
        count: 0,
        next: 0,
    }
}

// The number of commits that painting struck, where so many waited before and so many are left.
fn struck_after(struck: usize, old: usize, left: usize) -> usize
    ensures { Struck struck old left result }
{
    if MOST < struck {
        return struck;
    }
    if MOST < old {
        return struck;
    }
    if old < left {
        return struck;
    }
    struck + (old - left)
}

// The record after painting, with the queue that is left.
fn painted_with(r: Record, queue: Queue, failed: bool) -> Record
    ensures { Ends r queue failed result }
{
    let q = r.queue;
    let fixed = r.fixed;
    Record {
        live: r.live,
        painted: true,
        failed: failed,
        kept: r.kept,
        fixed: fixed,
        queue: queue,
        admitted: r.admitted,
        struck: struck_after(r.struck, q.count, queue.count),
    }
}

// Painting was refused: nothing waits any more, and all that waited is struck.
pub fn fail_painting(r: Record) -> Record
    ensures { Fails r result }
{
    painted_with(r, emptied(r.queue), true)
}

// Painting is not due: all is as it was.
pub fn skip_painting(r: Record) -> Record
    ensures { Skips r result }
{
    painted_with(r, r.queue, r.failed)
}

// The seconds of one slot are read again from the store.
fn read_slot(kind: Kind, store: &[u8], names: &[u8], times: &mut [i64], slot: u32)
    ensures { RereadsSlot (width_of kind) store.now names.now slot times.old times.new }
{
    let s = reading::seconds_for(kind, store, table::id_of(kind, names, wide(slot)));
    revwalk::set_seconds(times, slot, s);
}

// How many slots wait with seconds.
fn timed_count(q: Queue) -> usize
    ensures { result ≡ cond q.timed q.count 0 }
{
    if q.timed { q.count } else { 0 }
}

// The seconds of all waiting slots are read again from the store, where they wait by time: painting has written over them.
fn read_again(kind: Kind, q: Queue, store: &[u8], names: &[u8], times: &mut [i64], line: &[u32])
    ensures { Rereads (width_of kind) q store.now names.now line.now times.old times.new }
{
    let n = timed_count(q);
    for i in 0..n {
        read_slot(kind, store, names, times, queue::slot_at(q, line, i));
    }
}

// What stands at a place, 0 past the end.
fn slot_in(line: &[u32], k: usize) -> u32
    ensures { result ≡ get_or line.now k 0 }
{
    if k < line.len() { line[k] } else { 0 }
}

// Sets down a slot at a place; past the end nothing is changed.
fn put_slot(line: &mut [u32], k: usize, slot: u32)
    ensures { line.new ≡ set line.old k slot }
{
    if k < line.len() {
        line[k] = slot;
    }
}

// Takes all slots out of the queue and sets them down in order from a place on.
fn drain(q: Queue, times: &[i64], line: &mut [u32], base: usize)
    requires { base + q.count ≤ length line.old }
    ensures { Drains q times.now base line.old line.new }
{
    let n = q.count;
    let mut rest = q;
    for i in 0..n {
        let Some(p) = queue::pop(rest, line, times) else {
            return;
        };
        put_slot(line, base + i, p.slot);
        rest = p.queue;
    }
}

// Whether the id of a slot is in the frontier: its mark has both VISIBLE and HIDDEN.
fn in_frontier(marks: &[u8], slot: usize) -> bool
    ensures { result ≡ frontier (get_or marks.now slot 0) }
{
    let m = table::mark_of(marks, slot);
    if has_visible(m) { has_hidden(m) } else { false }
}

// A slot is queued again, unless it is in the frontier.
fn enter(q: Queue, marks: &[u8], times: &[i64], line: &mut [u32], slot: u32) -> Queue
    ensures { Enters q marks.now times.now slot line.old line.new result }
{
    if in_frontier(marks, wide(slot)) {
        return q;
    }
    queue::push(q, line, times, slot)
}

// Queues the slots that stand from a place on, without the frontier.
fn refill(q: Queue, marks: &[u8], times: &[i64], line: &mut [u32], base: usize, n: usize) -> Queue
    requires { base + n ≤ length line.old }
    ensures { Refills q marks.now times.now base n line.old line.new result }
{
    let mut longer = q;
    for i in 0..n {
        let slot = slot_in(line, base + i);
        longer = enter(longer, marks, times, line, slot);
    }
    longer
}

// The queue without the frontier, in the same order. The slots stand from line[2 * cap] on in between.
fn without_frontier(q: Queue, marks: &[u8], times: &[i64], line: &mut [u32]) -> Queue
    ensures { Sifts q marks.now times.now line.old line.new result }
{
    let cap = q.cap;
    let n = q.count;
    if line.len() / 5 < cap {
        return q;
    }
    if cap < n {
        return q;
    }
    let base = cap + cap;
    drain(q, times, line, base);
    refill(emptied(q), marks, times, line, base, n)
}

// Painting is done: the frontier leaves the queue, and what left is struck.
pub fn leave_frontier(
    r: Record,
    store: &[u8],
    names: &[u8],
    marks: &[u8],
    times: &mut [i64],
    line: &mut [u32],
) -> Record
    ensures { Leaves r store.now names.now marks.now times.old times.new line.old line.new result }
{
    let fixed = r.fixed;
    let kind = fixed.kind;
    let q = r.queue;
    read_again(kind, q, store, names, times, line);
    let left = without_frontier(q, marks, times, line);
    painted_with(r, left, false)
}
