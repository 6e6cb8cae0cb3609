// What painting begins with: marks without any of its own, and the waiting commits by rising id.
ghost use Rattle.std.specs.Prelude.{◌≡◌};
ghost use Rattle.frontier.specs.Prepare.{washed, Collects};
ghost use Rattle.hash.specs.Bytes.{width_of};

use hash::Kind;
use revwalk::queue;
use revwalk::queue::Queue;

// Takes VISIBLE, HIDDEN and STALE from the first cap slots. Before painting nothing reads these bits, so they may hold anything.
pub fn wash(marks: &mut [u8], cap: usize)
    ensures { marks.new ≡ washed cap marks.old }
{
    for slot in 0..marks.len() {
        if cap <= slot {
            return;
        }
        marks[slot] = marks[slot] / 8 * 8;
    }
}

// Sets down the slots that wait from `from` on, by rising id (`visible_inputs_sorted` in the Rust: no id waits twice).
pub fn visible_inputs_sorted(kind: Kind, line: &mut [u32], names: &[u8], q: Queue, from: usize)
    ensures { Collects (width_of kind) names.now line.old q from line.new }
{
    let n = q.count;
    for i in 0..n {
        let slot = queue::slot_at(q, line, i);
        pending::insert_by_id(kind, line, names, from, i, slot);
    }
}
