// What the next calls will read, read before: along first parents, so that it comes from memory while this call goes on. Nothing is promised of it.
ghost use Rattle.std.specs.Prelude.{◌<◌, ◌≤◌};

use commitgraph::Layout;
use hash::Kind;

// In a file of fewer commits all is near at hand.
const MANY: usize = 2048;

// No chunk of a file begins past this, and what is added to a place here stays a number.
const FAR: usize = 4611686018427387904;

fn wide(x: u32) -> usize
    ensures { result < 4294967296 }
{
    x as usize
}

fn small(b: u8) -> u32
    ensures { result < 256 }
{
    b as u32
}

// The first four of eight bytes that were read as one number.
fn high(x: u64) -> u32 {
    (x / 4294967296) as u32
}

// How far past the first row the parents of row p stand.
fn parents_of(kind: Kind, p: usize) -> usize
    requires { p < 4294967296 }
    ensures { result < 1099511627776 }
{
    let w = hash::width(kind);
    (w + 16) * p + w
}

// How far past the first id the id of number p stands.
fn id_of(kind: Kind, p: usize) -> usize
    requires { p < 4294967296 }
    ensures { result < 1099511627776 }
{
    hash::width(kind) * p
}

// The number at a place, 0 past the end.
fn number(s: &[u8], i: usize) -> usize
    ensures { result < 4294967296 }
{
    wide(high(hash::head(s, i, 8)))
}

// The slot where an id is looked for first, and its mark: they are read.
fn read_slot(kind: Kind, id: usize, names: &[u8], marks: &[u8], cap: usize) -> u32
    ensures { result < 512 }
{
    if cap == 0 {
        return 0;
    }
    let home = id % cap;
    if 4294967296 <= home {
        return 0;
    }
    small(hash::byte_at(marks, home)) + small(hash::byte_at(names, id_of(kind, home)))
}

// Leaves a number beside a slot.
fn leave(levels: &mut [u32], slot: usize, x: u32) {
    if slot < levels.len() {
        levels[slot] = x;
    }
}

// Reads the row of the first parent that stands in position one, the slot of its own first parent, and the row and the id of the one after.
fn read_on(
    kind: Kind,
    graph: &[u8],
    rows: usize,
    ids: usize,
    one: usize,
    names: &[u8],
    marks: &[u8],
    cap: usize,
) -> u32
    requires { (rows ≤ 4611686018427387904) × (ids ≤ 4611686018427387904) × (one < 4294967296) }
    ensures { result < 1024 }
{
    let two = number(graph, rows + parents_of(kind, one));
    let slot = read_slot(
        kind,
        number(graph, ids + id_of(kind, two)),
        names,
        marks,
        cap,
    );
    let three = number(graph, rows + parents_of(kind, two));
    let row = small(hash::byte_at(graph, rows + parents_of(kind, three)));
    let id = small(hash::byte_at(graph, ids + id_of(kind, three)));
    slot + row + id
}

// Reads what a call after the next will need, where a commit's first parent is in position first. What is read must go
// somewhere, else the compiler leaves it out: beside the last slot, where any number only costs a search (`links`, what is noted beside a slot).
pub(crate) fn look_ahead(
    kind: Kind,
    graph: &[u8],
    l: Layout,
    first: u32,
    names: &[u8],
    marks: &[u8],
    cap: usize,
    levels: &mut [u32],
) {
    if l.count <= MANY {
        return;
    }
    if l.count <= wide(first) {
        return;
    }
    if FAR < l.rows {
        return;
    }
    if FAR < l.ids {
        return;
    }
    if levels.len() == 0 {
        return;
    }
    let x = read_on(kind, graph, l.rows, l.ids, wide(first), names, marks, cap);
    leave(levels, levels.len() - 1, x);
}
