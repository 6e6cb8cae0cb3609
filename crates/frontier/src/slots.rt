// A slot of painting: the id that it holds gains marks, and its pair of generation and seconds is set down.
ghost use Rattle.std.specs.Prelude.{◌≡◌, ◌<◌, get_or, set};
ghost use Rattle.frontier.specs.Bits.{is_painted, with_bits};
ghost use Rattle.frontier.specs.Slots.{most_slots, added_at, AddsMarkAt};
ghost use Rattle.hash.specs.Bytes.{width_of};

use crate::bits;
use commitgraph::Level;
use date::Seconds;
use hash::Kind;
use hashtable::table;
use hashtable::table::Slot;
use walk::GenThenTime;

// The slot of an id that gained marks: it had none of painting's, or it had one; or there is no slot for it. (Of three cases each goes on
// otherwise, so no Option would say more plainly which it is.)
#[derive(Clone, Copy)]
pub enum Added {
    New(u32),
    Known(u32),
    Full,
}

// A slot number as the queue holds it.
fn narrow(slot: usize) -> u32
    ensures { slot < most_slots → result ≡ slot }
{
    if slot < 4294967296 { slot as u32 } else { 0 }
}

fn slot_added(known: bool, slot: usize) -> Added
    ensures { slot < most_slots → result ≡ added_at known slot }
{
    let k = narrow(slot);
    if known {
        Added::Known(k)
    } else {
        Added::New(k)
    }
}

// Adds marks to a slot, and says whether it had one of painting's.
fn raise(marks: &mut [u8], slot: usize, bits: u8) -> bool
    ensures { (result ≡ is_painted (get_or marks.old slot 0)) × (marks.new ≡ set marks.old slot (with_bits bits (get_or marks.old slot 0))) }
{
    let m = table::mark_of(marks, slot);
    table::set_mark(marks, slot, bits::with_bits(bits, m));
    bits::is_painted(m)
}

// Gives marks to an id in the slot that a search for it answered; where that is a vacant one, the id enters the table there.
pub fn add_mark(
    kind: Kind,
    names: &mut [u8],
    marks: &mut [u8],
    id: &[u8],
    s: Slot,
    bits: u8,
) -> Added
    ensures { AddsMarkAt (width_of kind) names.old marks.old names.new marks.new id.now s bits result }
{
    match s {
        Slot::Found(k) => slot_added(raise(marks, k, bits), k),
        Slot::Vacant(k) => {
            hash::set_nth(kind, names, k, id);
            table::set_mark(marks, k, bits::with_bits(bits, 0));
            slot_added(false, k)
        }
        Slot::Full => Added::Full,
    }
}

fn set_level(levels: &mut [u32], slot: u32, level: Level)
    ensures { levels.new ≡ set levels.old slot level.0 }
{
    let i = slot as usize;
    if i < levels.len() {
        levels[i] = level.0;
    }
}

// Sets down a commit's generation and seconds in a slot; past the end nothing is changed.
pub fn set_pair(levels: &mut [u32], times: &mut [i64], slot: u32, pair: GenThenTime)
    ensures { (levels.new ≡ set levels.old slot pair.generation.0) × (times.new ≡ set times.old slot pair.time.0) }
{
    set_level(levels, slot, pair.generation);
    revwalk::set_seconds(times, slot, pair.time);
}
