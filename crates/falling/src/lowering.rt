// The cells of a commit's parents are lowered by it.
ghost use Rattle.std.specs.Prelude.{◌≡◌, true, ◌+◌, ◌<◌};
ghost use Rattle.object.specs.Header.{header};
ghost use Rattle.reach.specs.Memory.{most_slots};
ghost use Rattle.falling.specs.Cells.{slots_in, LowersTo, LowersFrom, LowersNew, LowersParents};
ghost use Rattle.hash.specs.Bytes.{width_of};

use crate::cells;
use commitgraph::{Layout, parents};
use hash::Kind;
use hashtable::table;
use hashtable::table::Slot;

// A position as a hint.
fn as_hint(position: usize) -> u32
    ensures { position < most_slots → result ≡ position }
{
    if position < 4294967296 {
        return position as u32;
    }
    0
}

// Lowers the cell of the slot that holds an id.
fn lower_to(
    kind: Kind,
    names: &[u8],
    marks: &[u8],
    levels: &[u32],
    times: &[i64],
    line: &mut [u32],
    cap: usize,
    child: u32,
    id: &[u8],
    hint: u32,
)
    ensures { LowersTo (width_of kind) (slots_in names.now marks.now levels.now times.now) cap child id.now line.old line.new }
{
    match table::find_slot(kind, names, marks, cap, false, id) {
        Slot::Found(k) => {
            if k < 4294967296 {
                cells::lower_at(levels, times, line, k as u32, child, hint);
            }
        }
        Slot::Vacant(_) => {}
        Slot::Full => {}
    }
}

// Lowers the cells of the first n parents of a body by the commit in slot `child`. Its row, where it has one, names their positions.
fn lower_from(
    kind: Kind,
    names: &[u8],
    marks: &[u8],
    levels: &[u32],
    times: &[i64],
    line: &mut [u32],
    cap: usize,
    child: u32,
    body: &[u8],
    n: usize,
    graph: &[u8],
    l: Layout,
    position: usize,
)
    ensures { LowersFrom (width_of kind) (slots_in names.now marks.now levels.now times.now) cap child (header (width_of kind) body.now) n line.old line.new }
{
    for k in 0..n {
        let id = reading::body_parent(kind, body, k);
        let hint = as_hint(parents::parent(kind, graph, l, position, k));
        lower_to(
            kind,
            names,
            marks,
            levels,
            times,
            line,
            cap,
            child,
            object::id_slice(kind, &id.bytes),
            hint,
        );
    }
}

// The same for c parents that were all new to the line, behind its first n: their slots are the last, and their cells have had no child.
fn lower_new(
    kind: Kind,
    line: &mut [u32],
    from: usize,
    n: usize,
    c: usize,
    child: u32,
    graph: &[u8],
    l: Layout,
    position: usize,
)
    ensures { LowersNew (width_of kind) from n c child line.old line.new }
{
    for k in 0..c {
        let hint = as_hint(parents::parent(kind, graph, l, position, k));
        let slot = cells::slot_past(line, from, n, k);
        cells::fill_at(line, slot, child, hint);
    }
}

// Whether a line of n slots that has m now has grown by c.
fn all_new(n: usize, m: usize, c: usize) -> bool
    ensures { result ≡ true → m ≡ n + c }
{
    if m < n {
        return false;
    }
    if m - n == c {
        return true;
    }
    false
}

// Lowers the cells of the c parents of a body by the commit in slot `child`, when they are noted: the line had n slots and has m now.
pub fn lower_parents(
    kind: Kind,
    names: &[u8],
    marks: &[u8],
    levels: &[u32],
    times: &[i64],
    line: &mut [u32],
    cap: usize,
    from: usize,
    n: usize,
    m: usize,
    child: u32,
    body: &[u8],
    c: usize,
    graph: &[u8],
    l: Layout,
    position: usize,
)
    ensures { LowersParents (width_of kind) (slots_in names.now marks.now levels.now times.now) cap from n m child (header (width_of kind) body.now) c line.old line.new }
{
    if all_new(n, m, c) {
        lower_new(kind, line, from, n, c, child, graph, l, position);
        return;
    }
    lower_from(
        kind, names, marks, levels, times, line, cap, child, body, c, graph, l, position,
    );
}
