// Painting's queue (gix_revwalk::PriorityQueue of GenThenTime), in memory that the caller lends; every function is total and safe on any
// bytes. It is two runs of `line`, each in the order in which its slots leave: the older run line[start..end) and the younger
// line[low..high). The greatest pair of generation and seconds leaves first, among equals the first queued; a slot may wait several
// times. A slot enters the younger run. Where that has no place left, which is after a few times the square root of the older run's
// length, it is merged into the older run. So an entering moves a few times sqrt(n) slots on average, and in a real history, which inserts
// near the front, few. Beside it the waiting ids by rising id, with which painting begins.
#![tactic(auto)]

ghost use Rattle.std.specs.Prelude.{◌≡◌, ◌+◌, ◌-◌, ◌<◌, ◌≤◌, ◌++◌, length};
ghost use Rattle.std.proofs.Math.Seq.{slice};
ghost use Rattle.hash.specs.Decides.{Decides};
ghost use Rattle.walk.specs.Lookup.{pair_of};
ghost use Rattle.pending.specs.Pending.{level_of, pair_at, ahead, not_above, stale_at, younger_in, older_in, fresh, shifted_in, Right, Room, Waits, Runs, Leaves, merged_in, Settles, Widens, OlderOnly, Enters, Pushes, Pops, Placed, put_in, Sorts};
ghost use Rattle.hash.specs.Bytes.{width_of};

use commitgraph::Level;
use hash::Kind;
use hashtable::table;
use walk::GenThenTime;

// Where the queue stands in `line`: line[base..end) is its own, with free places below the younger run and between the two.
#[derive(Clone, Copy)]
pub struct Pending {
    pub base: usize,
    pub low: usize,
    pub high: usize,
    pub start: usize,
    pub end: usize,
}

// What leaves the queue, and the queue without it.
#[derive(Clone, Copy)]
pub struct Taken {
    pub slot: u32,
    pub pending: Pending,
}

// The generation of a slot, 0 where there is no such slot.
fn level_of(levels: &[u32], slot: u32) -> Level
    ensures { result.0 ≡ level_of levels.now slot }
{
    let i = slot as usize;
    if i < levels.len() {
        Level(levels[i])
    } else {
        Level(0)
    }
}

// The pair of a slot.
fn pair_of(levels: &[u32], times: &[i64], slot: u32) -> GenThenTime
    ensures { pair_of result ≡ pair_at levels.now times.now slot }
{
    GenThenTime {
        generation: level_of(levels, slot),
        time: revwalk::seconds_of(times, slot),
    }
}

// Whether slot a leaves strictly before slot b: its pair is the greater one.
fn is_ahead(levels: &[u32], times: &[i64], a: u32, b: u32) -> bool
    ensures { result ≡ ahead levels.now times.now a b }
{
    walk::less(pair_of(levels, times, b), pair_of(levels, times, a))
}

// Puts a slot before the first of line[head..tail) that it goes strictly before; those in front of its place move down by one.
fn shift_in(line: &mut [u32], levels: &[u32], times: &[i64], head: usize, tail: usize, slot: u32)
    requires { (0 < head) × (head ≤ tail) × (tail ≤ length line.old) }
    ensures { line.new ≡ shifted_in (ahead levels.now times.now) line.old head tail slot }
{
    for i in head..tail {
        let y = line[i];
        if is_ahead(levels, times, slot, y) {
            line[i - 1] = slot;
            return;
        }
        line[i - 1] = y;
    }
    line[tail - 1] = slot;
}

// Whether the queue stands in the memory as it should.
fn is_right(p: Pending, line: &[u32]) -> bool
    ensures { Decides result (Right p line.now) }
{
    if p.low < p.base {
        return false;
    }
    if p.high < p.low {
        return false;
    }
    if p.start < p.high {
        return false;
    }
    if p.start - p.high < p.high - p.low {
        return false;
    }
    if p.end < p.start {
        return false;
    }
    p.end <= line.len()
}

// Whether there is room for one slot more.
fn has_room(p: Pending, line: &[u32]) -> bool
    ensures { Decides result (Room p line.now) }
{
    if !is_right(p, line) {
        return false;
    }
    let young = p.high - p.low;
    let old = p.end - p.start;
    young + old < p.end - p.base
}

// Whether a slot waits.
fn is_waiting(p: Pending, line: &[u32]) -> bool
    ensures { Decides result (Waits p line.now) }
{
    if !is_right(p, line) {
        return false;
    }
    if p.low < p.high {
        return true;
    }
    p.start < p.end
}

// Whether the first slot to leave is that of the older run line[a..end), not that of the younger line[b..high).
fn is_older_first(
    line: &[u32],
    levels: &[u32],
    times: &[i64],
    a: usize,
    end: usize,
    b: usize,
    high: usize,
) -> bool
    requires { Runs line.now a end b high }
    ensures { Leaves (ahead levels.now times.now) line.now a end b high result }
{
    if high <= b {
        return true;
    }
    if end <= a {
        return false;
    }
    !is_ahead(levels, times, line[b], line[a])
}

// Merges the younger run into the older one, whose start moves down by as many places.
fn merge(
    line: &mut [u32],
    levels: &[u32],
    times: &[i64],
    low: usize,
    high: usize,
    start: usize,
    end: usize,
)
    requires { (low ≤ high) × (high + (high - low) ≤ start) × (start ≤ end) × (end ≤ length line.old) }
    ensures { line.new ≡ merged_in (ahead levels.now times.now) line.old low high start end }
{
    let mut o = start - (high - low);
    let mut a = start;
    let mut b = low;
    // no counted range: how many slots the older run gives until the younger one is used up is told by their pairs
    while b < high {
        if is_older_first(line, levels, times, a, end, b, high) {
            line[o] = line[a];
            a += 1;
        } else {
            line[o] = line[b];
            b += 1;
        }
        o += 1;
    }
}

// About three to six times the square root of n: a power of two from 16 up to 1,048,576. (To merge costs more than to move, for each
// slot: so the younger run is that much longer than the square root, at which as many slots are merged as are moved.)
fn about_root(n: usize) -> usize {
    for k in 4u32..20 {
        let c = 1usize << k;
        if n / c <= c / 8 {
            return c;
        }
    }
    1048576
}

// Where an empty younger run begins: about the square root of the older run above `base`, half of the free room at most.
fn young_place(base: usize, start: usize, end: usize) -> usize
    requires { (base ≤ start) × (start ≤ end) }
    ensures { (base ≤ result) × (result ≤ start) }
{
    let most = (start - base) / 2;
    let root = about_root(end - start);
    if root < most {
        base + root
    } else {
        base + most
    }
}

// Merges the younger run into the older one, and gives the younger run an empty place.
fn settle(p: Pending, line: &mut [u32], levels: &[u32], times: &[i64]) -> Pending
    requires { Room p line.old }
    ensures { Settles levels.now times.now p line.old result line.new }
{
    merge(line, levels, times, p.low, p.high, p.start, p.end);
    let start = p.start - (p.high - p.low);
    let place = young_place(p.base, start, p.end);
    Pending {
        base: p.base,
        low: place,
        high: place,
        start,
        end: p.end,
    }
}

// Whether the younger run has a place for one slot more.
fn has_place(p: Pending) -> bool
    requires { (p.low ≤ p.high) × (p.high ≤ p.start) }
    ensures { Decides result (Widens p) }
{
    if p.low <= p.base {
        return false;
    }
    p.high - p.low < p.start - p.high
}

// A slot enters the younger run.
fn put_younger(p: Pending, line: &mut [u32], levels: &[u32], times: &[i64], slot: u32) -> Pending
    requires { Right p line.old × Widens p }
    ensures { Enters levels.now times.now slot p line.old result line.new }
{
    shift_in(line, levels, times, p.low, p.high, slot);
    Pending {
        low: p.low - 1,
        ..p
    }
}

// A slot enters the older run, where the younger one is empty.
fn put_older(p: Pending, line: &mut [u32], levels: &[u32], times: &[i64], slot: u32) -> Pending
    requires { Right p line.old × OlderOnly p }
    ensures { Enters levels.now times.now slot p line.old result line.new }
{
    shift_in(line, levels, times, p.start, p.end, slot);
    Pending {
        low: p.base,
        high: p.base,
        start: p.start - 1,
        ..p
    }
}

// A slot enters the queue, whose younger run has no place for it.
fn settle_and_put(p: Pending, line: &mut [u32], levels: &[u32], times: &[i64], slot: u32) -> Pending
    requires { Room p line.old }
    ensures { Enters levels.now times.now slot p line.old result line.new }
{
    let q = settle(p, line, levels, times);
    if has_place(q) {
        put_younger(q, line, levels, times, slot)
    } else {
        put_older(q, line, levels, times, slot)
    }
}

// A slot enters the queue; the answer is the queue then. Without room it is None, and nothing is changed.
pub fn push(
    p: Pending,
    line: &mut [u32],
    levels: &[u32],
    times: &[i64],
    slot: u32,
) -> Option<Pending>
    ensures { Pushes levels.now times.now slot p line.old result line.new }
{
    if !has_room(p, line) {
        return None;
    }
    if has_place(p) {
        Some(put_younger(p, line, levels, times, slot))
    } else {
        Some(settle_and_put(p, line, levels, times, slot))
    }
}

// The first slot leaves the queue, where one waits.
pub fn pop(p: Pending, line: &[u32], levels: &[u32], times: &[i64]) -> Option<Taken>
    ensures { Pops levels.now times.now p line.now result }
{
    if !is_waiting(p, line) {
        return None;
    }
    if is_older_first(line, levels, times, p.start, p.end, p.low, p.high) {
        Some(Taken {
            slot: line[p.start],
            pending: Pending {
                start: p.start + 1,
                ..p
            },
        })
    } else {
        Some(Taken {
            slot: line[p.low],
            pending: Pending {
                low: p.low + 1,
                ..p
            },
        })
    }
}

// Whether the mark of a slot has STALE.
fn is_stale(marks: &[u8], slot: u32) -> bool
    ensures { result ≡ stale_at marks.now slot }
{
    hashtable::marks::has_stale(hash::byte_at(marks, slot as usize))
}

// Whether a slot of line[from..to) lacks STALE: from the front up to the first that does.
fn lacking_in(line: &[u32], from: usize, to: usize, marks: &[u8]) -> bool
    ensures { result ≡ fresh (stale_at marks.now) (slice from to line.now) }
{
    for i in from..to {
        if line.len() <= i {
            return false;
        }
        if !is_stale(marks, line[i]) {
            return true;
        }
    }
    false
}

// Whether a waiting slot lacks STALE.
pub fn any_lacking(p: Pending, line: &[u32], marks: &[u8]) -> bool
    ensures { result ≡ fresh (stale_at marks.now) (younger_in p line.now ++ older_in p line.now) }
{
    if lacking_in(line, p.low, p.high, marks) {
        return true;
    }
    lacking_in(line, p.start, p.end, marks)
}

// Whether the id of slot a is not above that of slot b.
#[tactic(auto, using(hash::proofs::Ids::is_le_compare), unfolding(crate::specs::Pending::not_above))]
fn not_above(kind: Kind, names: &[u8], a: u32, b: u32) -> bool
    ensures { result ≡ not_above (width_of kind) names.now a b }
{
    let x = table::id_of(kind, names, a as usize);
    let y = table::id_of(kind, names, b as usize);
    hash::compare(x, y).is_le()
}

// The first place of line[from..to) before which a slot goes by its id.
fn place_by_id(kind: Kind, line: &[u32], names: &[u8], from: usize, to: usize, slot: u32) -> usize
    requires { (from ≤ to) × (to ≤ length line.now) }
    ensures { Placed (not_above (width_of kind) names.now) line.now from to slot result }
{
    for i in from..to {
        if not_above(kind, names, slot, line[i]) {
            return i;
        }
    }
    to
}

// Puts a slot at place k; line[k..to) moves up by one.
fn put_in(line: &mut [u32], k: usize, to: usize, slot: u32)
    requires { (k ≤ to) × (to < length line.old) }
    ensures { line.new ≡ put_in line.old k to slot }
{
    let mut x = slot;
    for i in k..to {
        let y = line[i];
        line[i] = x;
        x = y;
    }
    line[to] = x;
}

// Puts a slot into line[from..from + n), which rises by the slots' ids; the run is then one longer. Without room nothing is
// changed. All of the run may move, which is little: at most 1,024 ids, the tips of a walk, are ever sorted so.
pub fn insert_by_id(
    kind: Kind,
    line: &mut [u32],
    names: &[u8],
    from: usize,
    n: usize,
    slot: u32,
) -> bool
    ensures { Sorts (width_of kind) names.now slot from n line.old result line.new }
{
    if line.len() <= from {
        return false;
    }
    if line.len() - from <= n {
        return false;
    }
    let to = from + n;
    let k = place_by_id(kind, line, names, from, to, slot);
    put_in(line, k, to, slot);
    true
}
