// The three tests, in their order.
ghost use Rattle.std.specs.Prelude.{◌≡◌, List, ℕ, ◌*◌, ◌<◌, length};
ghost use Rattle.opening.specs.Checks.{input_of, lengths_of};
ghost use Rattle.reach.specs.Memory.{most_slots, lent};
ghost use Rattle.tested.specs.Passes.{held};
ghost use Rattle.tested.specs.Whole.{Odds, TestsFrom, Tests};
ghost use Rattle.hash.specs.Bytes.{width_of};

use crate::along;
use crate::step::StepError;
use commitgraph::Layout;
use hash::Kind;
use hashtable::table;
use walk::{Refusal, Settings};

// Where the line of slots begins: behind a cell and a hint for each slot.
fn line_start(cap: usize) -> usize
    ensures { cap < most_slots → result ≡ 2 * cap }
{
    if cap < 4294967296 {
        return 2 * cap;
    }
    0
}

// The file is at odds with a commit: 14, unless another is not readable, which the search that goes on tells.
fn at_odds(
    kind: Kind,
    names: &mut [u8],
    marks: &mut [u8],
    line: &mut [u32],
    cap: usize,
    from: usize,
    store: &[u8],
    n: usize,
) -> Result<(), Refusal>
    ensures { Odds (width_of kind) cap from store.now (lent names.old marks.old line.old) n result }
{
    reach::search(kind, names, marks, line, cap, false, from, store, n)?;
    Err(Refusal::GraphAtOdds)
}

// The tests from the n slots that the line has to begin with.
fn test_from(
    kind: Kind,
    names: &mut [u8],
    marks: &mut [u8],
    levels: &mut [u32],
    times: &mut [i64],
    line: &mut [u32],
    cap: usize,
    from: usize,
    cache: Option<Layout>,
    graph: &[u8],
    store: &[u8],
    n: usize,
) -> Result<(), Refusal>
    ensures { TestsFrom (width_of kind) cache graph.now store.now cap from (held names.old marks.old levels.old times.old line.old) n result }
{
    match along::go_along(
        kind, names, marks, levels, times, line, cap, from, cache, graph, store, n,
    ) {
        Ok(m) => {
            if falling::all_low(levels, times, line, from, m) {
                return Ok(());
            }
            Err(Refusal::PairNotFalling)
        }
        Err(StepError::Unreadable) => Err(Refusal::UnreadableReach),
        Err(StepError::AtOdds(m)) => at_odds(kind, names, marks, line, cap, from, store, m),
        Err(StepError::NoRoom) => Err(Refusal::BufferTooSmall),
    }
}

// All three, in memory that is free to be used; 1 to 8 were tested before, so there is room.
pub fn test(
    kind: Kind,
    store: &[u8],
    graph: &[u8],
    tips: &[u8],
    hidden: &[u8],
    names: &mut [u8],
    marks: &mut [u8],
    levels: &mut [u32],
    times: &mut [i64],
    line: &mut [u32],
) -> Result<(), Refusal>
    ensures { (excluded : List ℕ) (s : Settings) (parents : ℕ) → s.kind ≡ kind → Tests (input_of store.now graph.now tips.now hidden.now excluded s) (lengths_of (length names.old) (length marks.old) (length levels.old) (length times.old) (length line.old) parents) result }
{
    let cap = opening::capacity(kind, store, graph, tips, hidden);
    let from = line_start(cap);
    let cache = reading::cache_of(graph, commitgraph::parse(kind, graph), true);
    table::clear(marks, cap);
    falling::clear_cells(line, from);
    let Some(n) = along::begin(kind, names, marks, line, cap, from, tips, hidden) else {
        return Err(Refusal::BufferTooSmall);
    };
    test_from(
        kind, names, marks, levels, times, line, cap, from, cache, graph, store, n,
    )
}
