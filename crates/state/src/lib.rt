// The walk's state in lent memory: the record of counters, the seen ids and the queue, and the small steps on them (the lines of
// `insert_into_seen_and_next` and `insert_into_seen_and_queue` in gix_traverse::commit::simple). Every function is total and safe on any
// bytes and numbers.
#![tactic(auto)]

ghost use Rattle.std.specs.Prelude.{◌≡◌, cond, get_or, set, pos};
ghost use Rattle.state.specs.Shapes.{fresh_record, requeued, waiting_in};
ghost use Rattle.state.specs.declared.Record.{Record};
ghost use Rattle.state.specs.Steps.{Sees, Waits, LengthensHeap, LengthensRing, Pops, Drops, Starts};

use commitgraph::Layout;
use date::Seconds;
use hash::Kind;
use hashtable::marks::SEEN;
use hashtable::table;
use hashtable::table::Slot;
use object::ObjectId;
use revwalk::queue;
use revwalk::queue::Queue;

// What an opening finds in the files and fixes for all calls, so that no call finds it again: where the chunks of the commit-graph file stand;
// and the kind of the ids that the walk's memory holds. (The order and the number of slots, which it fixes too, are the queue's own.)
#[derive(Clone, Copy)]
pub struct Fixed {
    pub layout: Layout,
    pub kind: Kind,
}

// What a call takes and gives back (document 01: one small record of counters).
#[derive(Clone, Copy)]
pub struct Record {
    // Whether the walk is open. A closed record is one fixed value.
    pub live: bool,
    // Whether painting is over, done or not due.
    pub painted: bool,
    // Whether painting was refused: the frontier then reads empty.
    pub failed: bool,
    // Whether the commit-graph file is still used.
    pub kept: bool,
    pub fixed: Fixed,
    // The queue's order and places; its `cap` is the number of slots, document 01's P.
    pub queue: Queue,
    // How many commits ever waited, and how many painting struck.
    pub admitted: usize,
    pub struck: usize,
}

// The commit that leaves the queue: its slot, its id, the seconds of its slot, and what waits after it, of a record that is otherwise as it was.
#[derive(Clone, Copy)]
pub struct Next {
    pub slot: u32,
    pub id: ObjectId,
    pub seconds: Seconds,
    pub rest: Waiting,
}

// The largest number that a slot or a count may have here.
const MOST: usize = 4294967295;

// The record of a walk that is opened, with no tip taken.
pub fn fresh_record(timed: bool, newest: bool, cap: usize, fixed: Fixed) -> Record
    ensures { result ≡ fresh_record timed newest cap fixed }
{
    Record {
        live: true,
        painted: false,
        failed: false,
        kept: true,
        fixed,
        queue: Queue {
            timed,
            newest,
            cap,
            head: 0,
            count: 0,
            next: 0,
        },
        admitted: 0,
        struck: 0,
    }
}

// Empties the memory of a walk that is opened.
pub fn start(marks: &mut [u8], cap: usize)
    ensures { Starts marks.old marks.new cap }
{
    table::clear(marks, cap);
}

// An id that is neither in the frontier nor seen is seen now, in a slot of its own, which is the answer.
pub fn see(r: Record, names: &mut [u8], marks: &mut [u8], id: &[u8]) -> Option<usize>
    ensures { Sees r names.old marks.old names.new marks.new id.now result }
{
    match table::insert(r.fixed.kind, names, marks, r.queue.cap, r.painted, id, SEEN) {
        Slot::Vacant(slot) => Some(slot),
        Slot::Found(_) | Slot::Full => None,
    }
}

// The record with another queue, the graph used or not, and another count of commits that ever waited.
fn with_queue(r: Record, queue: Queue, kept: bool, admitted: usize) -> Record
    ensures { result ≡ requeued r queue kept admitted }
{
    Record {
        queue,
        kept,
        admitted,
        ..r
    }
}

// Sets down the seconds of a slot, in a queue by time.
fn set_time(timed: bool, times: &mut [i64], slot: u32, s: Seconds)
    ensures { times.new ≡ cond timed (set times.old slot s.0) times.old }
{
    if timed {
        revwalk::set_seconds(times, slot, s);
    }
}

// What the visits of a call change of a record: its queue, and how many commits ever waited. It goes through them by itself, since a record that goes by
// value to a function that is not compiled into its caller is copied.
#[derive(Clone, Copy)]
pub struct Waiting {
    pub queue: Queue,
    pub admitted: usize,
}

// What waits in a record.
pub fn waiting_of(r: Record) -> Waiting
    ensures { waiting_in r result ≡ r }
{
    Waiting {
        queue: r.queue,
        admitted: r.admitted,
    }
}

// The record with these that wait.
pub fn with_waiting(r: Record, w: Waiting) -> Record
    ensures { result ≡ waiting_in r w }
{
    with_queue(r, w.queue, r.kept, w.admitted)
}

// The seen id in a slot is admitted: it waits with its seconds, in a queue by time.
pub fn lengthen_heap(
    w: Waiting,
    times: &mut [i64],
    line: &mut [u32],
    slot: usize,
    s: Seconds,
) -> Waiting
    ensures { LengthensHeap w times.old times.new line.old line.new slot s.0 result }
{
    let q = w.queue;
    let admitted = w.admitted;
    if !q.timed {
        return w;
    }
    if MOST < slot {
        return w;
    }
    if MOST < admitted {
        return w;
    }
    revwalk::set_seconds(times, slot as u32, s);
    let longer = queue::push(q, line, times, slot as u32);
    Waiting {
        queue: longer,
        admitted: admitted + 1,
    }
}

// The same in a queue that is not by time: no seconds are set down.
pub fn lengthen_ring(w: Waiting, times: &[i64], line: &mut [u32], slot: usize) -> Waiting
    ensures { LengthensRing w times.now line.old line.new slot result }
{
    let q = w.queue;
    let admitted = w.admitted;
    if q.timed {
        return w;
    }
    if MOST < slot {
        return w;
    }
    if MOST < admitted {
        return w;
    }
    let longer = queue::push(q, line, times, slot as u32);
    Waiting {
        queue: longer,
        admitted: admitted + 1,
    }
}

// The same in any queue, in one piece: as a choice of the two above it would be compiled into the loops of the call by value, which then keep less in registers.
pub fn lengthen(w: Waiting, times: &mut [i64], line: &mut [u32], slot: usize, s: Seconds) -> Waiting
    ensures { (r : Record) → Waits (waiting_in r w) times.old times.new line.old line.new slot s.0 (waiting_in r result) }
{
    let q = w.queue;
    let admitted = w.admitted;
    if MOST < slot {
        return w;
    }
    if MOST < admitted {
        return w;
    }
    set_time(q.timed, times, slot as u32, s);
    let longer = queue::push(q, line, times, slot as u32);
    Waiting {
        queue: longer,
        admitted: admitted + 1,
    }
}

// The same with the record, in which it waits.
pub fn wait(r: Record, times: &mut [i64], line: &mut [u32], slot: usize, s: Seconds) -> Record
    ensures { Waits r times.old times.new line.old line.new slot s.0 result }
{
    let longer = lengthen(waiting_of(r), times, line, slot, s);
    with_waiting(r, longer)
}

// Takes the first commit out of the queue; where none waits, all stays as it is.
pub fn pop(r: Record, names: &[u8], times: &[i64], line: &mut [u32]) -> Option<Next>
    ensures { Pops r names.now times.now line.old line.new result }
{
    let p = queue::pop(r.queue, line, times)?;
    Some(Next {
        slot: p.slot,
        id: object::id_of(table::id_of(r.fixed.kind, names, p.slot as usize)),
        seconds: revwalk::seconds_of(times, p.slot),
        rest: Waiting {
            queue: p.queue,
            admitted: r.admitted,
        },
    })
}

// A corrupt parent list: the commit-graph file is not used any more, and the commit in a slot goes back to the queue.
pub fn drop_graph(r: Record, times: &[i64], line: &mut [u32], slot: u32) -> Record
    ensures { Drops r times.now line.old line.new slot result }
{
    let longer = queue::put_back(r.queue, line, times, slot);
    with_queue(r, longer, false, r.admitted)
}
