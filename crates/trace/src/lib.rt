// Tracing by turns (document 02, card 12): whether the cone bench can force the trace from a run to a calibration within d moves, and its first
// forcing parent, from the commit store alone. The lent memo may have any length, also 0: the answer is the same. Every function is total and safe on
// any bytes and numbers.
#![tactic(auto)]

ghost use Rattle.std.specs.Prelude.{◌≡◌};
ghost use Rattle.object.specs.Ids.{id_in};
ghost use Rattle.walk.specs.Opening.{list_ids};
ghost use Rattle.opening.specs.Checks.{checked_of};
ghost use Rattle.trace.specs.Call.{early_refusal, TraceSays};
ghost use Rattle.trace.specs.Steps.{ForcedBy, Plays, Answers};
ghost use Rattle.hash.specs.Bytes.{width_of};

use hash::Kind;
use object::ObjectId;
use walk::Refusal;

// What is said of a start: the bed can evade; the start is on the list; or the cone forces it, by the parent of this number, counted from 0.
#[derive(Clone, Copy)]
pub enum Prospect {
    NotForced,
    AtStart,
    Forced { number: usize, parent: ObjectId },
}

// The most moves of a trace.
const MOST_MOVES: usize = 12;

// The most bytes of the commit store.
const MOST_FILE: usize = 16777216;

// The most ids of a list.
const MOST_IDS: usize = 1024;

// Refusals 25 and 2 to 4, in order.
fn check(kind: Kind, store: &[u8], list: &[u8], d: usize) -> Result<(), Refusal>
    ensures { result ≡ checked_of (early_refusal (width_of kind) store.now list.now d) }
{
    if MOST_MOVES < d {
        return Err(Refusal::TooManyMoves);
    }
    if MOST_FILE < store.len() {
        return Err(Refusal::InputTooLarge);
    }
    if MOST_IDS * hash::width(kind) < list.len() {
        return Err(Refusal::InputTooLarge);
    }
    if !hash::whole(kind, list.len()) {
        return Err(Refusal::PartialId);
    }
    if !odb::is_good(kind, store) {
        return Err(Refusal::CorruptStore);
    }
    Ok(())
}

// The answer where parent i is the first that forces; where there is no such parent, that none does.
fn forced_by(kind: Kind, store: &[u8], start: ObjectId, i: usize) -> Prospect
    ensures { ForcedBy (width_of kind) store.now (id_in (width_of kind) start.bytes) i result }
{
    let body = reading::stored_body(kind, store, object::id_slice(kind, &start.bytes));
    if memo::parent_count(kind, body) <= i {
        return Prospect::NotForced;
    }
    let id = reading::body_parent(kind, body, i);
    let parent = object::id_of(object::id_slice(kind, &id.bytes));
    Prospect::Forced { number: i, parent }
}

// The answer of the moves, with a memo that holds nothing false.
fn play(
    kind: Kind,
    store: &[u8],
    list: &[u8],
    memo: &mut [u8],
    d: usize,
    start: ObjectId,
) -> Prospect
    ensures { Plays (width_of kind) store.now (list_ids (width_of kind) list.now) d (id_in (width_of kind) start.bytes) memo.old result }
{
    if reading::is_among(kind, list, object::id_slice(kind, &start.bytes)) {
        return Prospect::AtStart;
    }
    if d == 0 {
        return Prospect::NotForced;
    }
    let i = moves::first_forcing(kind, store, list, memo, d - 1, start);
    forced_by(kind, store, start, i)
}

// Refusal 13 and the answer, each with the memo cleared first.
fn trace_checked(
    kind: Kind,
    store: &[u8],
    list: &[u8],
    memo: &mut [u8],
    d: usize,
    start: ObjectId,
) -> Result<Prospect, Refusal>
    ensures { Answers (width_of kind) store.now (list_ids (width_of kind) list.now) d (id_in (width_of kind) start.bytes) result }
{
    memo::clear(memo);
    if !withinreach::all_readable(kind, store, memo, d, start) {
        return Err(Refusal::UnreadableReach);
    }
    memo::clear(memo);
    Ok(play(kind, store, list, memo, d, start))
}

// The call: 25 and 2 to 4 are tested first and alter nothing; after that the memo is free.
pub fn trace(
    kind: Kind,
    store: &[u8],
    start: ObjectId,
    list: &[u8],
    d: usize,
    memo: &mut [u8],
) -> Result<Prospect, Refusal>
    ensures { TraceSays (width_of kind) store.now list.now d (id_in (width_of kind) start.bytes) memo.old memo.new result }
{
    check(kind, store, list, d)?;
    trace_checked(kind, store, list, memo, d, start)
}
