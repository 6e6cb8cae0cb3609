// A next call: the first of a walk paints, and each takes the next commit of the queue. The record of counters comes and goes by value.
ghost use Rattle.std.specs.Prelude.{◌≡◌, false, length, None};
ghost use Rattle.walk.specs.declared.Outcome.TheVariants.{Refused};
ghost use Rattle.walk.specs.Given.{no_id};
ghost use Rattle.opening.specs.Checks.{lengths_of};
ghost use Rattle.visit.specs.Taking.{gave};
ghost use Rattle.traverse.specs.Contract.{NextSays};
ghost use Rattle.traverse.specs.Open.{lent_of};
ghost use Rattle.traverse.specs.Next.{files_lent, Whole, GivesBack, shut_with, stops, Goes};

use super::Out;
use hash::Kind;
use painting::PaintError;
use state::Record;
use visit::Taken;
use walk::{Answer, Info, Outcome, Refusal, Settings};

// Whether the record is open, and every lent buffer has its size for the record's places.
pub fn is_whole(
    kind: Kind,
    record: Record,
    names: &[u8],
    marks: &[u8],
    levels: &[u32],
    times: &[i64],
    line: &[u32],
    parents: &[u8],
) -> bool
    ensures { Whole kind «record» (lengths_of (length names.now) (length marks.now) (length levels.now) (length times.now) (length line.now) (length parents.now)) result }
{
    if !record.live {
        return false;
    }
    let q = record.queue;
    opening::has_room(
        kind,
        q.cap,
        names.len(),
        marks.len(),
        levels.len(),
        times.len(),
        line.len(),
        parents.len(),
    )
}

// What an answer without a commit says of one.
fn no_commit() -> Info
    ensures { result ≡ record { id = no_id; parents = 0; generation = None; time = None; zone = None } }
{
    Info {
        id: [0u8; 32],
        parents: 0,
        generation: None,
        time: None,
        zone: None,
    }
}

// The answer to a closed record, and to memory that is seen to be touched: refusal 12 with zeros, and the same record.
fn closed(r: Record) -> Out
    ensures { GivesBack (shut_with r) result }
{
    Out {
        answer: Answer {
            outcome: Outcome::Refused(Refusal::Closed),
            info: no_commit(),
            admitted: 0,
            struck: 0,
            waiting: 0,
        },
        record: r,
    }
}

// An answer that carries no id, level, seconds or parents, with the running numbers of a record.
fn bare(outcome: Outcome, r: Record) -> Out
    ensures { GivesBack (gave outcome no_id 0 None None None r) result }
{
    let q = r.queue;
    Out {
        answer: Answer {
            outcome,
            info: no_commit(),
            admitted: r.admitted,
            struck: r.struck,
            waiting: q.count,
        },
        record: r,
    }
}

// What a commit taken gives back.
fn after(t: Taken) -> Out
    ensures { GivesBack t result }
{
    let answer = t.answer;
    let r = t.after;
    Out { answer, record: r }
}

// What painting that does not go on gives back: its refusal, or the end where the memory was seen to be touched.
fn stopped(e: PaintError, r: Record) -> Out
    ensures { GivesBack (stops r e) result }
{
    match e {
        PaintError::Refused {
            why,
            after: painted,
        } => bare(Outcome::Refused(why), painted),
        PaintError::Touched => bare(Outcome::End, r),
    }
}

// The first call: it paints, and then the next commit is taken; a refusal in painting is given once. Memory that is seen to be touched ends the
// walk.
fn first_call(
    record: Record,
    store: &[u8],
    graph: &[u8],
    hidden: &[u8],
    excluded: &[u8],
    settings: Settings,
    names: &mut [u8],
    marks: &mut [u8],
    levels: &mut [u32],
    times: &mut [i64],
    line: &mut [u32],
    parents: &mut [u8],
) -> Out
    ensures { Goes false (files_lent store.now graph.now hidden.now excluded.now settings) «record» (lent_of names.old marks.old levels.old times.old line.old parents.old) result (lent_of names.new marks.new levels.new times.new line.new parents.new) }
{
    match painting::compute_hidden_frontier(
        record, graph, store, names, marks, levels, times, line, hidden,
    ) {
        Ok(r) => after(visit::next_by_topology_or_commit_date(
            r, graph, store, names, marks, levels, times, line, parents, excluded, settings,
        )),
        Err(e) => stopped(e, record),
    }
}

// One call: a closed record, and lent buffers below their size for it, give refusal 12 and alter nothing.
pub fn step(
    record: Record,
    store: &[u8],
    graph: &[u8],
    hidden: &[u8],
    excluded: &[u8],
    settings: Settings,
    names: &mut [u8],
    marks: &mut [u8],
    levels: &mut [u32],
    times: &mut [i64],
    line: &mut [u32],
    parents: &mut [u8],
) -> Out
    ensures { NextSays (files_lent store.now graph.now hidden.now excluded.now settings) «record» (lent_of names.old marks.old levels.old times.old line.old parents.old) result (lent_of names.new marks.new levels.new times.new line.new parents.new) }
{
    let kind = settings.kind;
    if !is_whole(kind, record, names, marks, levels, times, line, parents) {
        return closed(record);
    }
    if record.painted {
        return after(visit::next_by_topology_or_commit_date(
            record, graph, store, names, marks, levels, times, line, parents, excluded, settings,
        ));
    }
    first_call(
        record, store, graph, hidden, excluded, settings, names, marks, levels, times, line,
        parents,
    )
}
