// The queue of a walk (gix_revwalk::PriorityQueue), in memory that the caller lends. A slot is a number below `cap`. Every function is
// total and safe on any bytes.
#![tactic(auto)]

ghost use Rattle.std.specs.Prelude.{◌≡◌, set};
ghost use Rattle.revwalk.specs.Order.{seconds_of};

use date::Seconds;

pub mod queue;

// The seconds of a slot, 0 where there is no such slot.
pub fn seconds_of(times: &[i64], slot: u32) -> Seconds
    ensures { result.0 ≡ seconds_of times.now slot }
{
    let i = slot as usize;
    if i < times.len() {
        Seconds(times[i])
    } else {
        Seconds(0)
    }
}

// Sets down the seconds of a slot; where there is no such slot nothing is changed.
pub fn set_seconds(times: &mut [i64], slot: u32, s: Seconds)
    ensures { times.new ≡ set times.old slot s.0 }
{
    let i = slot as usize;
    let t = s.0;
    if i < times.len() {
        times[i] = t;
    }
}
