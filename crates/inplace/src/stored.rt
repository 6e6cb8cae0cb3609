// A next call in place from the commit store, where no commit-graph file is lent.
ghost use Rattle.std.specs.Prelude.{◌≡◌, [], length};
ghost use Rattle.hash.specs.Bytes.{width_of};
ghost use Rattle.object.specs.Header.{header};
ghost use Rattle.opening.specs.Checks.{lengths_of};
ghost use Rattle.traverse.specs.Open.{lent_of};
ghost use Rattle.wire.specs.Words.{record_of};
ghost use Rattle.inplace.specs.InPlace.{CanGo, GoesInPlace};
ghost use Rattle.inplace.specs.Stored.{PutsEnd, TakesBody};

use crate::{NOT_MADE, wide};
use bodyvisit::BodyVisited;
use date::Seconds;
use hash::Kind;
use hashtable::table;
use object::ObjectId;
use odb::Located;
use reading::BodyEnd;
use revwalk::queue;
use state::Record;
use walk::Settings;

// Sets down the answer for a body that cannot be read, or has too many parents: the whole answer by value, as such calls are rare.
fn put_taken(
    kind: Kind,
    record: Record,
    seen: BodyVisited,
    x: ObjectId,
    time: Option<Seconds>,
    body: &[u8],
    id: &mut [u8],
    numbers: &mut [u64],
    seconds: &mut [i64],
) -> u32
    ensures { PutsEnd (width_of kind) «record» seen (header (width_of kind) body.now) x.bytes time id.old id.new numbers.old numbers.new seconds.old seconds.new result }
{
    let taken = visit::end_body(kind, record, seen, x, time, body);
    wire::put_answer(kind, taken.answer, id, numbers, seconds)
}

// Sets down the answer after the parents of a body, with the zone of its committer line, which is read past all parents.
fn put_end(
    kind: Kind,
    record: Record,
    seen: BodyVisited,
    x: ObjectId,
    time: Option<Seconds>,
    body: &[u8],
    id: &mut [u8],
    numbers: &mut [u64],
    seconds: &mut [i64],
) -> u32
    ensures { PutsEnd (width_of kind) «record» seen (header (width_of kind) body.now) x.bytes time id.old id.new numbers.old numbers.new seconds.old seconds.new result }
{
    let ends = seen.ends;
    match ends {
        BodyEnd::Whole => {
            let after = seen.after;
            let q = after.queue;
            wire::put_commit(
                kind,
                object::id_slice(kind, &x.bytes),
                seen.parents,
                None,
                time,
                reading::zone_past(kind, body, seen.parents),
                after.admitted,
                record.struck,
                q.count,
                id,
                numbers,
                seconds,
            );
            0
        }
        BodyEnd::Unreadable => put_taken(kind, record, seen, x, time, body, id, numbers, seconds),
        BodyEnd::Crowded => put_taken(kind, record, seen, x, time, body, id, numbers, seconds),
    }
}

// Takes the first of the queue, which is x, from its body.
fn take_body(
    record: Record,
    x: ObjectId,
    body: &[u8],
    words: &mut [u64],
    store: &[u8],
    excluded: &[u8],
    settings: Settings,
    names: &mut [u8],
    marks: &mut [u8],
    levels: &mut [u32],
    times: &mut [i64],
    line: &mut [u32],
    parents: &mut [u8],
    id: &mut [u8],
    numbers: &mut [u64],
    seconds: &mut [i64],
) -> u32
    ensures { TakesBody excluded.now settings store.now body.now «record» x.bytes (lent_of names.old marks.old levels.old times.old line.old parents.old) (lent_of names.new marks.new levels.new times.new line.new parents.new) words.old words.new id.old id.new numbers.old numbers.new seconds.old seconds.new result }
{
    let kind = settings.kind;
    let Some(taken) = bodyvisit::take_body(
        record, store, body, names, marks, levels, times, line, parents, excluded, settings,
    ) else {
        return NOT_MADE;
    };
    let seen = taken.visited;
    let q = record.queue;
    let time = visit::time_given(q.timed, taken.seconds);
    let n = put_end(kind, record, seen, x, time, body, id, numbers, seconds);
    wire::put_waiting(words, seen.after);
    n
}

// One call in place with the record that the words stand for, where no commit-graph file is lent, and the store has the first of the queue.
pub(crate) fn take_stored(
    record: Record,
    words: &mut [u64],
    store: &[u8],
    excluded: &[u8],
    settings: Settings,
    names: &mut [u8],
    marks: &mut [u8],
    levels: &mut [u32],
    times: &mut [i64],
    line: &mut [u32],
    parents: &mut [u8],
    id: &mut [u8],
    numbers: &mut [u64],
    seconds: &mut [i64],
) -> u32
    requires { (CanGo «record» words.old settings (lengths_of (length names.old) (length marks.old) (length levels.old) (length times.old) (length line.old) (length parents.old))) × («record» ≡ record_of words.old) }
    ensures { GoesInPlace store.now [] excluded.now settings (lent_of names.old marks.old levels.old times.old line.old parents.old) (lent_of names.new marks.new levels.new times.new line.new parents.new) words.old words.new id.old id.new numbers.old numbers.new seconds.old seconds.new result }
{
    let kind = settings.kind;
    let fixed = record.fixed;
    let own = fixed.kind;
    let q = record.queue;
    let slot = queue::first(q, line);
    let x = object::id_of(table::id_of(own, names, wide(slot)));
    let near = visit::noted(levels, slot);
    let at = odb::locate_near(kind, store, object::id_slice(kind, &x.bytes), near);
    match at {
        Located::Body { .. } => take_body(
            record,
            x,
            odb::body(store, at),
            words,
            store,
            excluded,
            settings,
            names,
            marks,
            levels,
            times,
            line,
            parents,
            id,
            numbers,
            seconds,
        ),
        Located::Absent => NOT_MADE,
    }
}
