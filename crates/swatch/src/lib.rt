// The text that the program `swatches` prints (document 01): a walk in breadth order from one tip over a commit store, each commit's id and
// number of parents on a line, each refusal on a line, and `end`. The work is one function over lent memory, `list`.
#![tactic(auto)]

mod put;

ghost use Rattle.std.specs.Prelude.{◌≡◌, [], ◌-◌};
ghost use Rattle.opening.specs.Checks.{input_of};
ghost use Rattle.traverse.specs.Next.{files_lent};
ghost use Rattle.traverse.specs.Open.{lent_of};
ghost use Rattle.swatch.specs.Text.{breadth_all, empty_store, tips_in, store_in};
ghost use Rattle.swatch.specs.Contract.{ListsCall, ListsCalls, ListsStore, Lists};

use hash::Kind;
use state::Record;
use traverse::{next, open};
use walk::{Outcome, Parents, Refusal, Settings, Sorting};

// The most bytes of the input, and the fewest that `out` has.
const MOST: usize = 65536;

// The bytes of the tip that an input begins with.
const TIP_BYTES: usize = 20;

// What one call leaves: the record for the next call, the place after its line, and how many calls are left.
#[derive(Clone, Copy)]
struct Turn {
    record: Record,
    at: usize,
    left: usize,
}

// Breadth order, all parents, ids of 20 bytes.
fn breadth_all() -> Settings
    ensures { result ≡ breadth_all }
{
    Settings {
        sorting: Sorting::BreadthFirst,
        parents: Parents::All,
        kind: Kind::Sha1,
    }
}

// One of `left` calls: its line is put down at a place. `none` is the graph file, the hidden tips and the excluded ids.
fn list_call(
    record: Record,
    left: usize,
    store: &[u8],
    none: &[u8],
    names: &mut [u8],
    marks: &mut [u8],
    levels: &mut [u32],
    times: &mut [i64],
    line: &mut [u32],
    parents: &mut [u8],
    out: &mut [u8],
    at: usize,
) -> Turn
    ensures { ListsCall (files_lent store.now none.now none.now none.now breadth_all) left «record» (lent_of names.old marks.old levels.old times.old line.old parents.old) out.old at result (lent_of names.new marks.new levels.new times.new line.new parents.new) out.new }
{
    let o = next::step(
        record,
        store,
        none,
        none,
        none,
        breadth_all(),
        names,
        marks,
        levels,
        times,
        line,
        parents,
    );
    let a = o.answer;
    let outcome = a.outcome;
    let after = o.record;
    Turn {
        record: after,
        at: put::answer(Kind::Sha1, out, at, a),
        left: walk::calls_after(left, outcome),
    }
}

// At most this many calls, up to the first that says end; answers how many bytes their lines have.
fn list_calls(
    first: Record,
    calls: usize,
    store: &[u8],
    none: &[u8],
    names: &mut [u8],
    marks: &mut [u8],
    levels: &mut [u32],
    times: &mut [i64],
    line: &mut [u32],
    parents: &mut [u8],
    out: &mut [u8],
) -> usize
    ensures { ListsCalls (files_lent store.now none.now none.now none.now breadth_all) calls first (lent_of names.old marks.old levels.old times.old line.old parents.old) out.old (lent_of names.new marks.new levels.new times.new line.new parents.new) out.new result }
{
    let mut r = first;
    let mut at = 0;
    let mut left = calls;
    // No range counts these calls: after each, its answer says how many are left, 0 at the end.
    while 0 < left {
        let t = list_call(
            r, left, store, none, names, marks, levels, times, line, parents, out, at,
        );
        r = t.record;
        at = t.at;
        left = t.left;
    }
    at
}

// A part of s with no byte.
fn nothing(s: &[u8]) -> &[u8]
    ensures { result.now ≡ [] }
{
    &s[..0]
}

// Opens a walk from these tips over this store, and lists its answers.
fn list_store(
    store: &[u8],
    tips: &[u8],
    names: &mut [u8],
    marks: &mut [u8],
    levels: &mut [u32],
    times: &mut [i64],
    line: &mut [u32],
    parents: &mut [u8],
    out: &mut [u8],
) -> usize
    ensures { ListsStore (input_of store.now [] tips.now [] [] breadth_all) (lent_of names.old marks.old levels.old times.old line.old parents.old) out.old (lent_of names.new marks.new levels.new times.new line.new parents.new) out.new result }
{
    let none = nothing(store);
    let o = open::open(
        store,
        none,
        tips,
        none,
        none,
        breadth_all(),
        names,
        marks,
        levels,
        times,
        line,
        parents,
    );
    let a = o.answer;
    let outcome = a.outcome;
    match outcome {
        Err(r) => put::refusal(out, 0, r),
        Ok(()) => {
            let first = o.record;
            let calls = opening::capacity(Kind::Sha1, store, none, tips, none) + 2;
            list_calls(
                first, calls, store, none, names, marks, levels, times, line, parents, out,
            )
        }
    }
}

// The tips of an input: its first 20 bytes, fewer where it has fewer.
fn tips_in(input: &[u8]) -> &[u8]
    ensures { result.now ≡ tips_in input.now }
{
    hash::part(input, 0, TIP_BYTES)
}

// The store of an input: what follows its first 20 bytes; an empty store where it has fewer.
fn store_in<'a>(input: &'a [u8], empty: &'a [u8]) -> &'a [u8]
    ensures { empty.now ≡ empty_store → result.now ≡ store_in input.now }
{
    if input.len() < TIP_BYTES {
        return empty;
    }
    &input[TIP_BYTES..]
}

// The list of an input, a tip and a store: puts its text down at the start of `out`, and answers how many bytes it has. Where `out` has
// fewer than 65,536 bytes, nothing is altered.
pub fn list(
    input: &[u8],
    names: &mut [u8],
    marks: &mut [u8],
    levels: &mut [u32],
    times: &mut [i64],
    line: &mut [u32],
    parents: &mut [u8],
    out: &mut [u8],
) -> usize
    ensures { Lists input.now (lent_of names.old marks.old levels.old times.old line.old parents.old) out.old (lent_of names.new marks.new levels.new times.new line.new parents.new) out.new result }
{
    if out.len() < MOST {
        return 0;
    }
    if MOST < input.len() {
        return put::refusal(out, 0, Refusal::InputTooLarge);
    }
    let empty = [0u8; 8];
    list_store(
        store_in(input, &empty),
        tips_in(input),
        names,
        marks,
        levels,
        times,
        line,
        parents,
        out,
    )
}
