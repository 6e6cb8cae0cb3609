// The queue of the slots that wait (document 01's line), for every order of a walk. By time it is a heap in line[0..cap) with the number
// that each slot was queued under in line[cap..2 * cap); otherwise it is a ring in line[0..cap), first in, first out. A slot waits once.
// The queue's numbers go in by value and come back; a call that refuses changes nothing.
ghost use Rattle.std.specs.Prelude.{◌≡◌};
ghost use Rattle.revwalk.specs.Queue.{place_of, Pushes, PutsBack, Pops, ReadsSlot};

pub mod heap;
pub mod ring;

#[derive(Clone, Copy)]
pub struct Queue {
    // Whether slots go out by their seconds.
    pub timed: bool,
    // By seconds: the newest first, or the oldest.
    pub newest: bool,
    // How many slots there are.
    pub cap: usize,
    // Where the ring begins.
    pub head: usize,
    // How many slots wait.
    pub count: usize,
    // By seconds: the number that the next slot is queued under.
    pub next: u32,
}

// The slot that is handed out, and the queue that is left.
#[derive(Clone, Copy)]
pub struct Popped {
    pub slot: u32,
    pub queue: Queue,
}

// Queues a slot that does not wait yet: after those that wait with the same seconds, or at the end.
pub fn push(q: Queue, line: &mut [u32], times: &[i64], slot: u32) -> Queue
    ensures { Pushes q times.now slot line.old line.new result }
{
    if q.timed {
        heap::push(q, line, times, slot)
    } else {
        ring::push(q, line, slot)
    }
}

// Puts a slot back that was handed out: by time as if it were new, otherwise to the front.
pub fn put_back(q: Queue, line: &mut [u32], times: &[i64], slot: u32) -> Queue
    ensures { PutsBack q times.now slot line.old line.new result }
{
    if q.timed {
        heap::push(q, line, times, slot)
    } else {
        ring::put_front(q, line, slot)
    }
}

// Hands out the first slot; where it hands out none, the queue stays as it is.
pub fn pop(q: Queue, line: &mut [u32], times: &[i64]) -> Option<Popped>
    ensures { Pops q times.now line.old line.new result }
{
    if q.timed {
        heap::pop(q, line, times)
    } else {
        ring::pop(q, line)
    }
}

// The slot at the queue's first place, which is the one that a pop hands out, if it hands out any.
pub fn first(q: Queue, line: &[u32]) -> u32
    ensures { result ≡ place_of q line.now 0 }
{
    if q.timed {
        return heap::slot_at(line, 0);
    }
    if q.head < q.cap {
        return heap::slot_at(line, q.head);
    }
    heap::slot_at(line, q.head - q.cap)
}

// The slot at the i-th place of the queue's memory, to visit all that wait, in the order of their places.
pub fn slot_at(q: Queue, line: &[u32], i: usize) -> u32
    ensures { ReadsSlot q line.now i result }
{
    if q.timed {
        heap::slot_at(line, i)
    } else {
        ring::slot_at(q.cap, q.head, line, i)
    }
}
