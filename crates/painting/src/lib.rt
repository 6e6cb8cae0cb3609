// Painting as the first call of a walk does it (compute_hidden_frontier of gix_traverse::commit::simple): which of the waiting commits the
// hidden tips reach too. Every function is total and safe on any bytes and numbers.
#![tactic(auto)]

ghost use Rattle.state.specs.Steps.{mem};
ghost use Rattle.painting.specs.First.{Paints};
ghost use Rattle.painting.specs.Inner.{RefusesCall, Finishes};

use frontier::{MarkError, Marked};
use state::Record;
use walk::Refusal;

// Why the walk does not go on from painting.
#[derive(Clone, Copy)]
pub enum PaintError {
    // Painting was refused; the record after it, in which nothing waits.
    Refused { why: Refusal, after: Record },
    // The memory was seen to be touched.
    Touched,
}

// What painting comes to: the walk goes on with this record, or it does not.
pub type Painted = Result<Record, PaintError>;

// A refusal of a call: 9, 10 and 11 stay what they are, and nothing else comes of it.
fn call_refusal(n: Refusal) -> Refusal
    ensures { RefusesCall n result }
{
    let k = walk::number(n);
    if k < 9 {
        return Refusal::CommitUnreadable;
    }
    if 11 < k {
        return Refusal::CommitUnreadable;
    }
    n
}

// What the answer of painting comes to: the frontier leaves the queue; or the queue is emptied, and the refusal given.
fn finish_painting(
    a: Marked,
    r: Record,
    store: &[u8],
    names: &[u8],
    marks: &[u8],
    times: &mut [i64],
    line: &mut [u32],
) -> Painted
    ensures { Finishes a r store.now names.now marks.now times.old times.new line.old line.new result }
{
    match a {
        Ok(_) => Ok(refill::leave_frontier(r, store, names, marks, times, line)),
        Err(MarkError::Stop(n)) => Err(PaintError::Refused {
            why: call_refusal(n),
            after: refill::fail_painting(r),
        }),
        Err(MarkError::NoRoom) => Err(PaintError::Touched),
    }
}

// Paints, where there are hidden tips and commits that wait; the frontier leaves the queue.
pub fn compute_hidden_frontier(
    r: Record,
    graph: &[u8],
    store: &[u8],
    names: &mut [u8],
    marks: &mut [u8],
    levels: &mut [u32],
    times: &mut [i64],
    line: &mut [u32],
    hidden: &[u8],
) -> Painted
    ensures { Paints store.now graph.now hidden.now r (mem names.old marks.old times.old line.old) levels.old (mem names.new marks.new times.new line.new) result }
{
    let q = r.queue;
    let fixed = r.fixed;
    let kind = fixed.kind;
    if hash::ids_in(kind, hidden.len()) == 0 {
        return Ok(refill::skip_painting(r));
    }
    if q.count == 0 {
        return Ok(refill::skip_painting(r));
    }
    let cache = reading::cache_of(graph, fixed.layout, r.kept);
    let a = frontier::compute_hidden_frontier(
        kind, names, marks, levels, times, line, q.cap, cache, graph, store, q, hidden,
    );
    finish_painting(a, r, store, names, marks, times, line)
}
