// A binary heap of slots in line[0..n), and in line[cap..2 * cap) the number that each slot was given when it was queued.
ghost use Rattle.std.specs.Prelude.{◌≡◌, true, ◌<◌, ◌≤◌, length};
ghost use Rattle.revwalk.specs.Order.{at, seq_of, sooner, ahead, goes};
ghost use Rattle.revwalk.specs.Sift.{Rose, Chosen, Sank};
ghost use Rattle.revwalk.specs.Queue.{Unrooted, Pushes, PopsOf};

use super::{Popped, Queue};
use crate::seconds_of;
use date::Seconds;

// The number that a slot was given when it was queued, or 0 where there is no such slot.
fn seq_of(line: &[u32], cap: usize, slot: u32) -> u32
    ensures { result ≡ seq_of line.now cap slot }
{
    let i = slot as usize;
    if cap < line.len() {
        if i < line.len() - cap {
            line[cap + i]
        } else {
            0
        }
    } else {
        0
    }
}

// What slots are handed out by (gix_traverse's QueueKey): seconds, the newest first or the oldest.
#[derive(Clone, Copy)]
struct QueueKey {
    seconds: Seconds,
    newest: bool,
}

fn to_queue_key(seconds: Seconds, newest: bool) -> QueueKey
    ensures { result ≡ record { seconds = seconds; newest = newest } }
{
    QueueKey { seconds, newest }
}

// Whether a slot with key a is handed out strictly before one with key b, of two keys of one order.
fn is_sooner(a: QueueKey, b: QueueKey) -> bool
    ensures { result ≡ sooner a.newest a.seconds.0 b.seconds.0 }
{
    if a.newest {
        date::before(b.seconds, a.seconds)
    } else {
        date::before(a.seconds, b.seconds)
    }
}

// Whether slot a is handed out strictly before slot b by its seconds alone.
fn is_ahead(times: &[i64], newest: bool, a: u32, b: u32) -> bool
    ensures { result ≡ ahead newest times.now a b }
{
    let x = to_queue_key(seconds_of(times, a), newest);
    let y = to_queue_key(seconds_of(times, b), newest);
    is_sooner(x, y)
}

// Whether slot a is handed out before slot b.
fn is_before(line: &[u32], times: &[i64], cap: usize, newest: bool, a: u32, b: u32) -> bool
    ensures { result ≡ goes newest times.now cap line.now a b }
{
    if is_ahead(times, newest, a, b) {
        true
    } else if is_ahead(times, newest, b, a) {
        false
    } else {
        seq_of(line, cap, a) < seq_of(line, cap, b)
    }
}

// Puts x at the hole, or above it, with the slots that it goes before moved down.
fn sift_up(line: &mut [u32], times: &[i64], cap: usize, newest: bool, hole: usize, x: u32)
    requires { hole < length line.old }
    ensures { Rose (goes newest times.now cap) cap hole x line.old line.new }
{
    let mut i = hole;
    // From the hole to the place above it: these places are no range.
    while 0 < i {
        let p = (i - 1) / 2;
        let y = line[p];
        if !is_before(line, times, cap, newest, x, y) {
            line[i] = x;
            return;
        }
        line[i] = y;
        i = p;
    }
    line[i] = x;
}

// The child that goes first, of the places l and l + 1 that are below n.
fn first_child(line: &[u32], times: &[i64], cap: usize, newest: bool, n: usize, l: usize) -> usize
    requires { (l < n) × (n ≤ length line.now) }
    ensures { Chosen (goes newest times.now cap) cap n l line.now result }
{
    let r = l + 1;
    if r < n {
        if is_before(line, times, cap, newest, line[r], line[l]) {
            return r;
        }
    }
    l
}

// Leads the hole at 0 down to a place with none below it.
fn sink(line: &mut [u32], times: &[i64], cap: usize, newest: bool, n: usize) -> usize
    requires { (0 < n) × (n ≤ length line.old) }
    ensures { Sank (goes newest times.now cap) cap n line.old line.new result }
{
    let mut i = 0;
    // From the hole to one of the two places below it: these places are no range.
    while i < n / 2 {
        let c = first_child(line, times, cap, newest, n, 2 * i + 1);
        line[i] = line[c];
        i = c;
    }
    i
}

// Queues a slot, with the number `next`, which is above those of all slots in the queue.
pub(super) fn push(q: Queue, line: &mut [u32], times: &[i64], slot: u32) -> Queue
    requires { q.timed ≡ true }
    ensures { Pushes q times.now slot line.old line.new result }
{
    let cap = q.cap;
    let n = q.count;
    let next = q.next;
    let s = slot as usize;
    if line.len() / 2 < cap {
        return q;
    }
    if cap <= n {
        return q;
    }
    if cap <= s {
        return q;
    }
    if next == 4294967295 {
        return q;
    }
    line[cap + s] = next;
    sift_up(line, times, cap, q.newest, n, slot);
    Queue {
        count: n + 1,
        next: next + 1,
        ..q
    }
}

// Takes the root out of a heap of m + 1 slots: the hole goes down to a leaf, and the last slot goes in there and up to its place.
fn take_root(line: &mut [u32], times: &[i64], cap: usize, newest: bool, m: usize)
    requires { m < length line.old }
    ensures { Unrooted newest times.now cap m line.old line.new }
{
    if m == 0 {
        return;
    }
    let last = line[m];
    let hole = sink(line, times, cap, newest, m);
    sift_up(line, times, cap, newest, hole, last);
}

// Hands out the slot at the root, of a queue by time.
pub fn pop(q: Queue, line: &mut [u32], times: &[i64]) -> Option<Popped>
    ensures { PopsOf true q times.now line.old line.new result }
{
    let cap = q.cap;
    let n = q.count;
    if !q.timed {
        return None;
    }
    if line.len() / 2 < cap {
        return None;
    }
    if cap < n {
        return None;
    }
    if n == 0 {
        return None;
    }
    let top = line[0];
    let m = n - 1;
    // two calls, so that the compiler leaves it a function of its own, and this one is small enough to stand in its callers
    if q.newest {
        take_root(line, times, cap, true, m);
    } else {
        take_root(line, times, cap, false, m);
    }
    Some(Popped {
        slot: top,
        queue: Queue { count: m, ..q },
    })
}

// The slot at place i of the heap, 0 past the end.
pub(super) fn slot_at(line: &[u32], i: usize) -> u32
    ensures { result ≡ at line.now i }
{
    if i < line.len() { line[i] } else { 0 }
}
