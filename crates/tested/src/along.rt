// The pass along the line, until its end is read, or a commit is not readable, or the commit-graph file is at odds with one.
ghost use Rattle.std.specs.Prelude.{◌≡◌, false, ◌++◌, Some};
ghost use Rattle.walk.specs.Opening.{list_ids};
ghost use Rattle.reach.specs.Memory.{lent, NotesAll};
ghost use Rattle.tested.specs.Passes.{held, Goes};
ghost use Rattle.hash.specs.Bytes.{width_of};

use crate::step;
use crate::step::StepError;
use commitgraph::Layout;
use hash::Kind;

// Notes the ids of two lists, one after the other, in a line that has none.
pub fn begin(
    kind: Kind,
    names: &mut [u8],
    marks: &mut [u8],
    line: &mut [u32],
    cap: usize,
    from: usize,
    tips: &[u8],
    hidden: &[u8],
) -> Option<usize>
    ensures { NotesAll (width_of kind) false cap from (lent names.old marks.old line.old) (lent names.new marks.new line.new) (Some 0) (list_ids (width_of kind) tips.now ++ list_ids (width_of kind) hidden.now) result }
{
    let from_tips = reach::note_list(kind, names, marks, line, cap, false, from, Some(0), tips);
    reach::note_list(
        kind, names, marks, line, cap, false, from, from_tips, hidden,
    )
}

// The pass, over the n slots that the line has to begin with: how many it has with all that is reached.
pub fn go_along(
    kind: Kind,
    names: &mut [u8],
    marks: &mut [u8],
    levels: &mut [u32],
    times: &mut [i64],
    line: &mut [u32],
    cap: usize,
    from: usize,
    cache: Option<Layout>,
    graph: &[u8],
    store: &[u8],
    n: usize,
) -> Result<usize, StepError>
    ensures { Goes (width_of kind) cache graph.now store.now cap from (held names.old marks.old levels.old times.old line.old) (held names.new marks.new levels.new times.new line.new) n result }
{
    let mut count = n;
    let mut k = 0;
    // A `while`: the line grows as it is read, so the bound is no range's.
    while k < count {
        if cap <= k {
            return Err(StepError::NoRoom);
        }
        count = step::read_at(
            kind, names, marks, levels, times, line, cap, from, cache, graph, store, count, k,
        )?;
        k += 1;
    }
    Ok(count)
}
