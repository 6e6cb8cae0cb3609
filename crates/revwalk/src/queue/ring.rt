// A ring of slots in line[0..cap): the i-th of those that wait stands i places after head, and after place cap - 1 comes place 0.
ghost use Rattle.std.specs.Prelude.{◌≡◌, List, false, ◌+◌, ◌<◌, ◌≤◌, ℤ};
ghost use Rattle.hashtable.specs.Table.{wrap};
ghost use Rattle.revwalk.specs.Queue.{ring_at, Pushes, PutsBack, PopsOf};

use super::{Popped, Queue};

// The place that is i places after head.
fn place(cap: usize, head: usize, i: usize) -> usize
    requires { (head < cap) × (i ≤ cap) }
    ensures { (result ≡ wrap cap (head + i)) × (result < cap) }
{
    let rest = cap - head;
    if i < rest { head + i } else { i - rest }
}

// Queues a slot at the end.
pub(super) fn push(q: Queue, line: &mut [u32], slot: u32) -> Queue
    requires { q.timed ≡ false }
    ensures { (times : List ℤ) → Pushes q times slot line.old line.new result }
{
    let cap = q.cap;
    let head = q.head;
    let n = q.count;
    if line.len() / 2 < cap {
        return q;
    }
    if cap <= n {
        return q;
    }
    if cap <= head {
        return q;
    }
    let p = place(cap, head, n);
    line[p] = slot;
    Queue { count: n + 1, ..q }
}

// Puts a slot in front of all that wait: the place before head is the one cap - 1 places after it.
pub(super) fn put_front(q: Queue, line: &mut [u32], slot: u32) -> Queue
    requires { q.timed ≡ false }
    ensures { (times : List ℤ) → PutsBack q times slot line.old line.new result }
{
    let cap = q.cap;
    let head = q.head;
    let n = q.count;
    if line.len() / 2 < cap {
        return q;
    }
    if cap <= n {
        return q;
    }
    if cap <= head {
        return q;
    }
    let last = cap - 1;
    let p = place(cap, head, last);
    line[p] = slot;
    Queue {
        head: p,
        count: n + 1,
        ..q
    }
}

// Hands out the slot at head, of a queue that is not by time.
pub fn pop(q: Queue, line: &[u32]) -> Option<Popped>
    ensures { (times : List ℤ) → PopsOf false q times line.now line.now result }
{
    let cap = q.cap;
    let head = q.head;
    let n = q.count;
    if q.timed {
        return None;
    }
    if line.len() / 2 < cap {
        return None;
    }
    if n == 0 {
        return None;
    }
    if cap <= head {
        return None;
    }
    let p = place(cap, head, 1);
    Some(Popped {
        slot: line[head],
        queue: Queue {
            head: p,
            count: n - 1,
            ..q
        },
    })
}

// The i-th of the slots that wait, 0 where there is no such place.
pub(super) fn slot_at(cap: usize, head: usize, line: &[u32], i: usize) -> u32
    ensures { head < cap → i < cap → result ≡ ring_at line.now cap head i }
{
    if cap <= head {
        return 0;
    }
    if cap <= i {
        return 0;
    }
    let p = place(cap, head, i);
    if p < line.len() { line[p] } else { 0 }
}
