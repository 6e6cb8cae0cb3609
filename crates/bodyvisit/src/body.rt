// The parents of a commit from the store.
ghost use Rattle.object.specs.Header.{header};
ghost use Rattle.state.specs.Shapes.{waiting_in};
ghost use Rattle.state.specs.Steps.{mem};
ghost use Rattle.bodyvisit.specs.Body.{VisitsBodyParent, VisitsParents, VisitsBody};
ghost use Rattle.hash.specs.Bytes.{width_of};
ghost use Rattle.std.specs.Prelude.{◌≡◌};
ghost use Rattle.walk.specs.Opening.{parents_room};

use hash::Kind;
use links::{insert_into_seen_and_queue_stored, only_first};
use reading::BodyEnd;
use state::{Record, Waiting};
use walk::Settings;

// The parents of a body that were visited, how many they are, and how its reading ended.
#[derive(Clone, Copy)]
pub struct BodyVisited {
    pub after: Waiting,
    pub parents: usize,
    pub ends: BodyEnd,
}

// The most parents of a readable commit.
const MOST_PARENTS: usize = 256;

// The bytes of as many ids as a commit may have parents.
pub(crate) fn parents_room(kind: Kind) -> usize
    ensures { result ≡ parents_room (width_of kind) }
{
    MOST_PARENTS * hash::width(kind)
}

// Visits parent k of a body whose ids were set down: its id goes from its place in `parents`, where that has room for as many as may be; else its line
// is read again.
fn visit_body_parent(
    r: Record,
    w: Waiting,
    store: &[u8],
    body: &[u8],
    k: usize,
    names: &mut [u8],
    marks: &mut [u8],
    levels: &mut [u32],
    times: &mut [i64],
    line: &mut [u32],
    parents: &[u8],
    excluded: &[u8],
    settings: Settings,
) -> Waiting
    ensures { VisitsBodyParent excluded.now settings store.now body.now parents.now k (waiting_in r w) (mem names.old marks.old times.old line.old) (mem names.new marks.new times.new line.new) (waiting_in r result) }
{
    let kind = settings.kind;
    if parents.len() < parents_room(kind) {
        let id = reading::body_parent(kind, body, k);
        return insert_into_seen_and_queue_stored(
            r,
            w,
            names,
            marks,
            levels,
            times,
            line,
            excluded,
            settings,
            store,
            object::id_slice(kind, &id.bytes),
        );
    }
    insert_into_seen_and_queue_stored(
        r,
        w,
        names,
        marks,
        levels,
        times,
        line,
        excluded,
        settings,
        store,
        hash::nth(kind, parents, k),
    )
}

// Visits the first n parents of a body, whose ids were set down.
fn visit_parents(
    r: Record,
    w: Waiting,
    store: &[u8],
    body: &[u8],
    n: usize,
    names: &mut [u8],
    marks: &mut [u8],
    levels: &mut [u32],
    times: &mut [i64],
    line: &mut [u32],
    parents: &[u8],
    excluded: &[u8],
    settings: Settings,
) -> Waiting
    ensures { VisitsParents excluded.now settings store.now body.now parents.now n (waiting_in r w) (mem names.old marks.old times.old line.old) (mem names.new marks.new times.new line.new) (waiting_in r result) }
{
    let mut at = w;
    for k in 0..n {
        at = visit_body_parent(
            r, at, store, body, k, names, marks, levels, times, line, parents, excluded, settings,
        );
    }
    at
}

// Sets down the parents of a body in the store, the first alone where only that is followed, and then visits them.
pub fn visit_body(
    r: Record,
    w: Waiting,
    store: &[u8],
    body: &[u8],
    names: &mut [u8],
    marks: &mut [u8],
    levels: &mut [u32],
    times: &mut [i64],
    line: &mut [u32],
    parents: &mut [u8],
    excluded: &[u8],
    settings: Settings,
) -> BodyVisited
    ensures { VisitsBody excluded.now settings store.now (header (width_of settings.kind) body.now) r w (mem names.old marks.old times.old line.old) (mem names.new marks.new times.new line.new) parents.old parents.new result }
{
    let kind = settings.kind;
    let read = reading::read_body(kind, body, only_first(settings), parents);
    let at = visit_parents(
        r,
        w,
        store,
        body,
        read.parents,
        names,
        marks,
        levels,
        times,
        line,
        parents,
        excluded,
        settings,
    );
    BodyVisited {
        after: at,
        parents: read.parents,
        ends: read.ends,
    }
}
