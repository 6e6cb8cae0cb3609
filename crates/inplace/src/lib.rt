// A next call in place (`next_by_topology` and `next_by_commit_date` in gix_traverse::commit::simple): the record's words are used where they stand, and the answer
// is set down as it is found. So it is where a commit-graph file is lent, of a commit with at most two parents whose row stands where its child's row said;
// and where none is, of a commit that the store has. That is what most calls come to; any other is left to the call that takes a record by value. Every
// function is total and safe on any bytes and numbers.
#![tactic(auto)]

mod stored;

ghost use Rattle.std.specs.Prelude.{◌≡◌, true, List, ℕ, ◌≤◌, ◌<◌, length};
ghost use Rattle.hash.specs.Bytes.{width_of};
ghost use Rattle.opening.specs.Checks.{lengths_of};
ghost use Rattle.traverse.specs.Open.{lent_of};
ghost use Rattle.wire.specs.Words.{record_of};
ghost use Rattle.inplace.specs.InPlace.{StandsAt, TakesRow, CanGo, GoesInPlace};

use commitgraph::{Layout, rows};
use hash::Kind;
use hashtable::table;
use revwalk::queue;
use state::Record;
use stored::take_stored;
use traverse::next::is_whole;
use walk::Settings;

// The result of a call that is not made in place, which is none of a call's own.
pub const NOT_MADE: u32 = 102;

// 1 where a test fails, else 0. Tests are added up, since with one branch for all of them the compiler sets what follows into one function.
fn failed(passed: bool) -> u32
    ensures { (result ≤ 1) × (result ≡ 0 → passed ≡ true) }
{
    if passed { 0 } else { 1 }
}

// Whether a call may be made in place: the words are just those of the record that they stand for, it is open and painted, every lent buffer has its size, the
// graph file is used, and something waits, as where nothing does the line's first place may never have been written.
fn can_go(
    record: Record,
    words: &[u64],
    settings: Settings,
    names: &[u8],
    marks: &[u8],
    levels: &[u32],
    times: &[i64],
    line: &[u32],
    parents: &[u8],
) -> bool
    ensures { result ≡ true → CanGo «record» words.now settings (lengths_of (length names.now) (length marks.now) (length levels.now) (length times.now) (length line.now) (length parents.now)) }
{
    let kind = settings.kind;
    let q = record.queue;
    let own = failed(wire::is_plain(words)) + failed(record.painted) + failed(record.kept);
    let whole = failed(is_whole(kind, record, names, marks, levels, times, line, parents));
    own + whole + failed(0 < q.count) == 0
}

// The record that words stand for: what `wire::decode` gives, which is compiled once for all who call it; this one is compiled into the call, and makes no copy.
fn record_in(words: &[u64]) -> Record
    ensures { result ≡ record_of words.now }
{
    Record {
        live: wire::flag(words, 0),
        painted: wire::flag(words, 1),
        failed: wire::flag(words, 2),
        kept: wire::flag(words, 3),
        fixed: wire::fixed_in(words),
        queue: wire::queue_of(words),
        admitted: wire::count(words, 10),
        struck: wire::count(words, 11),
    }
}

// Whether the row of an id stands at a position.
fn stands_at(kind: Kind, graph: &[u8], l: Layout, position: usize, id: &[u8]) -> bool
    ensures { result ≡ true → StandsAt (width_of kind) graph.now l position id.now }
{
    if position < l.count {
        return hash::same_id(kind, rows::id_at(kind, graph, l, position), id);
    }
    false
}

pub(crate) fn wide(x: u32) -> usize
    ensures { result ≡ x }
{
    x as usize
}

// Takes the first of the queue from its row at a position, where that is a plain row: its parents are visited, and its answer and what waits then are set down.
// Where it is not, nothing is altered.
fn take_row(
    record: Record,
    position: usize,
    words: &mut [u64],
    graph: &[u8],
    excluded: &[u8],
    settings: Settings,
    names: &mut [u8],
    marks: &mut [u8],
    levels: &mut [u32],
    times: &mut [i64],
    line: &mut [u32],
    parents: &mut [u8],
    id: &mut [u8],
    numbers: &mut [u64],
    seconds: &mut [i64],
) -> bool
    ensures { TakesRow excluded.now settings graph.now position «record» (lent_of names.old marks.old levels.old times.old line.old parents.old) (lent_of names.new marks.new levels.new times.new line.new parents.new) words.old words.new id.old id.new numbers.old numbers.new seconds.old seconds.new result }
{
    let kind = settings.kind;
    let fixed = record.fixed;
    let l = fixed.layout;
    match rowvisit::take_plain(
        record, graph, l, position, names, marks, levels, times, line, parents, excluded, settings,
    ) {
        Some(row) => {
            let after = row.after;
            let q = after.queue;
            wire::put_commit(
                kind,
                rows::id_at(kind, graph, l, position),
                row.parents,
                reading::level_shown(row.level),
                visit::time_given(q.timed, row.seconds),
                None,
                after.admitted,
                record.struck,
                q.count,
                id,
                numbers,
                seconds,
            );
            wire::put_waiting(words, after);
            true
        }
        None => false,
    }
}

// One call in place with the record that the words stand for, where the row of the queue's first stands at the position that is noted beside its slot.
fn take_first(
    record: Record,
    words: &mut [u64],
    graph: &[u8],
    excluded: &[u8],
    settings: Settings,
    names: &mut [u8],
    marks: &mut [u8],
    levels: &mut [u32],
    times: &mut [i64],
    line: &mut [u32],
    parents: &mut [u8],
    id: &mut [u8],
    numbers: &mut [u64],
    seconds: &mut [i64],
) -> u32
    requires { (0 < length graph.now) × (CanGo «record» words.old settings (lengths_of (length names.old) (length marks.old) (length levels.old) (length times.old) (length line.old) (length parents.old))) × («record» ≡ record_of words.old) }
    ensures { (store : List ℕ) → GoesInPlace store graph.now excluded.now settings (lent_of names.old marks.old levels.old times.old line.old parents.old) (lent_of names.new marks.new levels.new times.new line.new parents.new) words.old words.new id.old id.new numbers.old numbers.new seconds.old seconds.new result }
{
    let kind = settings.kind;
    let fixed = record.fixed;
    let l = fixed.layout;
    let own = fixed.kind;
    let q = record.queue;
    let slot = queue::first(q, line);
    let near = visit::noted(levels, slot);
    if !stands_at(kind, graph, l, near, table::id_of(own, names, wide(slot))) {
        return NOT_MADE;
    }
    if take_row(
        record, near, words, graph, excluded, settings, names, marks, levels, times, line, parents,
        id, numbers, seconds,
    ) {
        return 0;
    }
    NOT_MADE
}

// One call in place, where it can be made so: then its answer and the record for the next call are set down, and the result is the call's own number. Where not,
// nothing is altered.
pub fn next_by_topology_or_commit_date(
    words: &mut [u64],
    store: &[u8],
    graph: &[u8],
    excluded: &[u8],
    settings: Settings,
    names: &mut [u8],
    marks: &mut [u8],
    levels: &mut [u32],
    times: &mut [i64],
    line: &mut [u32],
    parents: &mut [u8],
    id: &mut [u8],
    numbers: &mut [u64],
    seconds: &mut [i64],
) -> u32
    ensures { GoesInPlace store.now graph.now excluded.now settings (lent_of names.old marks.old levels.old times.old line.old parents.old) (lent_of names.new marks.new levels.new times.new line.new parents.new) words.old words.new id.old id.new numbers.old numbers.new seconds.old seconds.new result }
{
    let record = record_in(words);
    if !can_go(
        record, words, settings, names, marks, levels, times, line, parents,
    ) {
        return NOT_MADE;
    }
    if graph.len() == 0 {
        return take_stored(
            record, words, store, excluded, settings, names, marks, levels, times, line, parents,
            id, numbers, seconds,
        );
    }
    take_first(
        record, words, graph, excluded, settings, names, marks, levels, times, line, parents, id,
        numbers, seconds,
    )
}
