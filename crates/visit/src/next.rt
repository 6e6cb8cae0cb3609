// The next commit of the queue.
ghost use Rattle.std.specs.Prelude.{◌≡◌, ◌+◌, ◌%◌, get_or, None};
ghost use Rattle.walk.specs.declared.Outcome.TheVariants.{Refused};
ghost use Rattle.walk.specs.Given.{no_id, level_given};
ghost use Rattle.walk.specs.Next.{level_shown};
ghost use Rattle.hash.specs.Bytes.{width_of};
ghost use Rattle.object.specs.Header.{header};
ghost use Rattle.object.specs.Ids.{padded, id_in};
ghost use Rattle.commit.specs.Find.{FindsCommit};
ghost use Rattle.reading.specs.Files.{cache_with};
ghost use Rattle.state.specs.Shapes.{waiting_in};
ghost use Rattle.state.specs.Steps.{mem};
ghost use Rattle.visit.specs.Taking.{gave, time_given, EndsBody, TakesBody, TakesStored, TakesCached, TakesNext};
ghost use Rattle.visit.specs.Plain.{Plain};

use bodyvisit::{BodyVisited, visit_body};
use commit::Either;
use commitgraph::{Layout, Level};
use date::Seconds;
use hash::Kind;
use object::ObjectId;
use odb::Located;
use reading::BodyEnd;
use state::{Next, Record, Waiting};
use walk::{Answer, Info, Outcome, Refusal, Settings};

// An answer, and the record after it.
#[derive(Clone, Copy)]
pub struct Taken {
    pub answer: Answer,
    pub after: Record,
}

// An id as an answer has it: zeros stand after it.
fn id_given(kind: Kind, id: ObjectId) -> ObjectId
    ensures { result.bytes ≡ padded (id_in (width_of kind) id.bytes) }
{
    object::id_of(object::id_slice(kind, &id.bytes))
}

// An answer with the running numbers of a record with these that wait, and that record after it: up to here they go beside each other, as a record that
// goes by value to a function that is not compiled into its caller is copied.
fn give(
    outcome: Outcome,
    id: ObjectId,
    parents: usize,
    generation: Option<Level>,
    time: Option<Seconds>,
    zone: Option<i64>,
    r: Record,
    w: Waiting,
) -> Taken
    ensures { result ≡ gave outcome id.bytes parents generation time zone (waiting_in r w) }
{
    let q = w.queue;
    let bytes = id.bytes;
    let info = Info {
        id: bytes,
        parents,
        generation,
        time,
        zone,
    };
    let answer = Answer {
        outcome,
        info,
        admitted: w.admitted,
        struck: r.struck,
        waiting: q.count,
    };
    Taken {
        answer,
        after: state::with_waiting(r, w),
    }
}

// A refusal, with the number of parents set down before it.
fn refuse(why: Refusal, parents: usize, r: Record, w: Waiting) -> Taken
    ensures { result ≡ gave (Refused why) no_id parents None None None (waiting_in r w) }
{
    give(
        Outcome::Refused(why),
        ObjectId { bytes: [0u8; 32] },
        parents,
        None,
        None,
        None,
        r,
        w,
    )
}

// The seconds that a commit was queued with, in a queue by time.
pub fn time_given(timed: bool, s: Seconds) -> Option<Seconds>
    ensures { result ≡ time_given timed s }
{
    if timed {
        return Some(s);
    }
    None
}

// The answer for a commit from its row, of which n parents were visited.
fn give_row(
    kind: Kind,
    r: Record,
    id: ObjectId,
    s: Seconds,
    n: usize,
    level: Level,
    after: Waiting,
) -> Taken
    ensures { result ≡ gave Outcome.Commit (padded (id_in (width_of kind) id.bytes)) n (level_given (level_shown level.0)) (time_given after.queue.timed s) None (waiting_in r after) }
{
    let q = after.queue;
    give(
        Outcome::Commit,
        id_given(kind, id),
        n,
        reading::level_shown(level),
        time_given(q.timed, s),
        None,
        r,
        after,
    )
}

// The answer after the parents of a body, with the zone of its committer line, which is read past all parents.
pub fn end_body(
    kind: Kind,
    r: Record,
    seen: BodyVisited,
    id: ObjectId,
    time: Option<Seconds>,
    body: &[u8],
) -> Taken
    ensures { EndsBody r seen (header (width_of kind) body.now) (id_in (width_of kind) id.bytes) time result }
{
    let ends = seen.ends;
    match ends {
        BodyEnd::Whole => give(
            Outcome::Commit,
            id_given(kind, id),
            seen.parents,
            None,
            time,
            reading::zone_past(kind, body, seen.parents),
            r,
            seen.after,
        ),
        BodyEnd::Unreadable => refuse(Refusal::CommitUnreadable, seen.parents, r, seen.after),
        BodyEnd::Crowded => refuse(Refusal::TooManyParents, seen.parents, r, seen.after),
    }
}

// The first commit, which has left the queue, from its body, a part of the store.
fn take_body(
    r: Record,
    first: Next,
    store: &[u8],
    body: &[u8],
    names: &mut [u8],
    marks: &mut [u8],
    levels: &mut [u32],
    times: &mut [i64],
    line: &mut [u32],
    parents: &mut [u8],
    excluded: &[u8],
    settings: Settings,
) -> Taken
    ensures { TakesBody excluded.now settings store.now (header (width_of settings.kind) body.now) (waiting_in r first.rest) (id_in (width_of settings.kind) first.id.bytes) first.seconds.0 (mem names.old marks.old times.old line.old) (mem names.new marks.new times.new line.new) parents.old parents.new result }
{
    let kind = settings.kind;
    let rest = first.rest;
    let q = rest.queue;
    let seen = visit_body(
        r, rest, store, body, names, marks, levels, times, line, parents, excluded, settings,
    );
    end_body(
        kind,
        r,
        seen,
        first.id,
        time_given(q.timed, first.seconds),
        body,
    )
}

// The end of the walk.
fn end_walk(r: Record) -> Taken
    ensures { result ≡ gave Outcome.End no_id 0 None None None r }
{
    give(
        Outcome::End,
        ObjectId { bytes: [0u8; 32] },
        0,
        None,
        None,
        None,
        r,
        state::waiting_of(r),
    )
}

fn wide(x: u32) -> usize
    ensures { result ≡ x }
{
    x as usize
}

// The place that a number beside a slot notes, one less than it: 0 notes none, and gives a number that is no place in either file.
fn place_noted(n: u32) -> usize
    ensures { result ≡ (n + 4294967295) % 4294967296 }
{
    (wide(n) + 4294967295) % 4294967296
}

// Where the commit in a slot may stand, as is noted beside the slot; nothing is noted past the end.
pub fn noted(levels: &[u32], slot: u32) -> usize
    ensures { result ≡ (get_or levels.now slot 0 + 4294967295) % 4294967296 }
{
    let i = wide(slot);
    if i < levels.len() {
        place_noted(levels[i])
    } else {
        place_noted(0)
    }
}

// The first commit of the queue, from the store alone.
fn take_stored(
    r: Record,
    store: &[u8],
    names: &mut [u8],
    marks: &mut [u8],
    levels: &mut [u32],
    times: &mut [i64],
    line: &mut [u32],
    parents: &mut [u8],
    excluded: &[u8],
    settings: Settings,
) -> Taken
    ensures { TakesStored excluded.now settings store.now r (mem names.old marks.old times.old line.old) (mem names.new marks.new times.new line.new) parents.old parents.new result }
{
    let kind = settings.kind;
    let Some(first) = state::pop(r, names, times, line) else {
        return end_walk(r);
    };
    let id = first.id;
    let near = noted(levels, first.slot);
    let at = odb::locate_near(kind, store, object::id_slice(kind, &id.bytes), near);
    match at {
        Located::Body { .. } => take_body(
            r,
            first,
            store,
            odb::body(store, at),
            names,
            marks,
            levels,
            times,
            line,
            parents,
            excluded,
            settings,
        ),
        Located::Absent => refuse(Refusal::CommitNotFound, 0, r, first.rest),
    }
}

// The first commit, which has left the queue, from its row at a position. A corrupt parent list drops the commit-graph file for good, and the
// call goes on from the store.
fn take_cached(
    r: Record,
    first: Next,
    graph: &[u8],
    l: Layout,
    position: usize,
    store: &[u8],
    names: &mut [u8],
    marks: &mut [u8],
    levels: &mut [u32],
    times: &mut [i64],
    line: &mut [u32],
    parents: &mut [u8],
    excluded: &[u8],
    settings: Settings,
) -> Taken
    ensures { TakesCached excluded.now settings graph.now l position store.now r first (mem names.old marks.old times.old line.old) (mem names.new marks.new times.new line.new) parents.old parents.new result }
{
    let kind = settings.kind;
    match rowvisit::visit_cached(
        r, first.rest, graph, l, position, names, marks, levels, times, line, parents, excluded,
        settings,
    ) {
        Some(row) => give_row(
            kind,
            r,
            first.id,
            first.seconds,
            row.parents,
            row.level,
            row.after,
        ),
        None => {
            let rest = state::with_waiting(r, first.rest);
            let back = state::drop_graph(rest, times, line, first.slot);
            take_stored(
                back, store, names, marks, levels, times, line, parents, excluded, settings,
            )
        }
    }
}

// Where a commit that has left the queue stands, looked up by `find` in the commit-graph file, while that is kept, and in the store; what is noted
// beside its slot is tried first.
fn look_up(
    l: Layout,
    kept: bool,
    id: ObjectId,
    slot: u32,
    graph: &[u8],
    store: &[u8],
    levels: &[u32],
    settings: Settings,
) -> Either
    ensures { FindsCommit (width_of settings.kind) (cache_with graph.now l kept) graph.now store.now (id_in (width_of settings.kind) id.bytes) result }
{
    let kind = settings.kind;
    let cache = reading::cache_of(graph, l, kept);
    let near = noted(levels, slot);
    commit::find(
        kind,
        cache,
        graph,
        store,
        object::id_slice(kind, &id.bytes),
        near,
    )
}

// The next commit of the queue: its parents are visited, and it is handed out. (One queue serves both orders, so this is the Rust's
// `next_by_topology` and its `next_by_commit_date`.)
pub fn next_by_topology_or_commit_date(
    r: Record,
    graph: &[u8],
    store: &[u8],
    names: &mut [u8],
    marks: &mut [u8],
    levels: &mut [u32],
    times: &mut [i64],
    line: &mut [u32],
    parents: &mut [u8],
    excluded: &[u8],
    settings: Settings,
) -> Taken
    ensures { TakesNext excluded.now settings graph.now store.now r (mem names.old marks.old times.old line.old) (mem names.new marks.new times.new line.new) parents.old parents.new result × Plain (width_of settings.kind) parents.old parents.new result.answer }
{
    let Some(top) = state::pop(r, names, times, line) else {
        return end_walk(r);
    };
    let l = r.fixed.layout;
    match look_up(l, r.kept, top.id, top.slot, graph, store, levels, settings) {
        Either::CachedCommit { position, .. } => take_cached(
            r, top, graph, l, position, store, names, marks, levels, times, line, parents,
            excluded, settings,
        ),
        Either::CommitRefIter { start, end } => take_body(
            r,
            top,
            store,
            commit::part_of_store(Either::CommitRefIter { start, end }, store),
            names,
            marks,
            levels,
            times,
            line,
            parents,
            excluded,
            settings,
        ),
        Either::Absent => refuse(Refusal::CommitNotFound, 0, r, top.rest),
    }
}
