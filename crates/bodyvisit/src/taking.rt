// The parents of a body for the call in place: what `body` does, with functions of one caller each, which are compiled into it.
ghost use Rattle.hash.specs.Bytes.{width_of};
ghost use Rattle.object.specs.Header.{header};
ghost use Rattle.revwalk.specs.Queue.{Pops};
ghost use Rattle.state.specs.Shapes.{waiting_in};
ghost use Rattle.state.specs.Steps.{mem};
ghost use Rattle.bodyvisit.specs.Body.{VisitsBodyParent, VisitsParents};
ghost use Rattle.bodyvisit.specs.InPlace.{TakesBodyHere};

use crate::body::{BodyVisited, parents_room};
use date::Seconds;
use links::{
    insert_into_seen_and_next_or_queue_stored, insert_into_seen_and_queue_stored, only_first,
};
use revwalk::queue::{Popped, Queue, heap, ring};
use state::{Record, Waiting};
use walk::Settings;

// The first of the queue was taken, with the seconds of its slot, and the parents of its body visited.
#[derive(Clone, Copy)]
pub struct BodyTaken {
    pub seconds: Seconds,
    pub visited: BodyVisited,
}

// Visits parent k of a body whose ids were set down, as `visit_body_parent` does: the branch that reads its line again is not the one that is compiled in.
fn visit_parent_here(
    r: Record,
    w: Waiting,
    store: &[u8],
    body: &[u8],
    k: usize,
    names: &mut [u8],
    marks: &mut [u8],
    levels: &mut [u32],
    times: &mut [i64],
    line: &mut [u32],
    parents: &[u8],
    excluded: &[u8],
    settings: Settings,
) -> Waiting
    ensures { VisitsBodyParent excluded.now settings store.now body.now parents.now k (waiting_in r w) (mem names.old marks.old times.old line.old) (mem names.new marks.new times.new line.new) (waiting_in r result) }
{
    let kind = settings.kind;
    if parents.len() < parents_room(kind) {
        let id = reading::body_parent(kind, body, k);
        return insert_into_seen_and_queue_stored(
            r,
            w,
            names,
            marks,
            levels,
            times,
            line,
            excluded,
            settings,
            store,
            object::id_slice(kind, &id.bytes),
        );
    }
    insert_into_seen_and_next_or_queue_stored(
        r,
        w,
        names,
        marks,
        levels,
        times,
        line,
        excluded,
        settings,
        store,
        hash::nth(kind, parents, k),
    )
}

// Visits the first n parents of a body, whose ids were set down, as `visit_parents` does.
fn visit_parents_here(
    r: Record,
    w: Waiting,
    store: &[u8],
    body: &[u8],
    n: usize,
    names: &mut [u8],
    marks: &mut [u8],
    levels: &mut [u32],
    times: &mut [i64],
    line: &mut [u32],
    parents: &[u8],
    excluded: &[u8],
    settings: Settings,
) -> Waiting
    ensures { VisitsParents excluded.now settings store.now body.now parents.now n (waiting_in r w) (mem names.old marks.old times.old line.old) (mem names.new marks.new times.new line.new) (waiting_in r result) }
{
    let mut at = w;
    for k in 0..n {
        at = visit_parent_here(
            r, at, store, body, k, names, marks, levels, times, line, parents, excluded, settings,
        );
    }
    at
}

// Hands out the first slot of a queue: what `queue::pop` does, with the heap and the ring apart.
fn pop(q: Queue, line: &mut [u32], times: &[i64]) -> Option<Popped>
    ensures { Pops q times.now line.old line.new result }
{
    if q.timed {
        return heap::pop(q, line, times);
    }
    ring::pop(q, line)
}

// Takes the first of the queue, sets down the parents of its body, the first alone where only that is followed, and then visits them; where nothing waits,
// nothing is changed.
pub fn take_body(
    r: Record,
    store: &[u8],
    body: &[u8],
    names: &mut [u8],
    marks: &mut [u8],
    levels: &mut [u32],
    times: &mut [i64],
    line: &mut [u32],
    parents: &mut [u8],
    excluded: &[u8],
    settings: Settings,
) -> Option<BodyTaken>
    ensures { TakesBodyHere excluded.now settings store.now (header (width_of settings.kind) body.now) r names.old marks.old times.old line.old (mem names.new marks.new times.new line.new) levels.old levels.new parents.old parents.new result }
{
    let kind = settings.kind;
    let p = pop(r.queue, line, times)?;
    let queue = p.queue;
    let rest = Waiting {
        queue,
        admitted: r.admitted,
    };
    let seconds = revwalk::seconds_of(times, p.slot);
    let read = reading::read_body(kind, body, only_first(settings), parents);
    let after = visit_parents_here(
        r,
        rest,
        store,
        body,
        read.parents,
        names,
        marks,
        levels,
        times,
        line,
        parents,
        excluded,
        settings,
    );
    Some(BodyTaken {
        seconds,
        visited: BodyVisited {
            after,
            parents: read.parents,
            ends: read.ends,
        },
    })
}
