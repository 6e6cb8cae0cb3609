// The pair of a slot: its generation stands in levels, its seconds in times.
ghost use Rattle.std.specs.Prelude.{◌≡◌, get_or, set};
ghost use Rattle.walk.specs.Lookup.{pair_of, lt_pair};
ghost use Rattle.falling.specs.Cells.{slot_pair};

use commitgraph::Level;
use walk::GenThenTime;

// The level of a slot; 0 past the end.
fn level_of(levels: &[u32], slot: u32) -> Level
    ensures { result.0 ≡ get_or levels.now slot 0 }
{
    let i = slot as usize;
    if i < levels.len() {
        Level(levels[i])
    } else {
        Level(0)
    }
}

// Sets down a level in a slot; past the end nothing is changed.
fn set_level(levels: &mut [u32], slot: u32, level: Level)
    ensures { levels.new ≡ set levels.old slot level.0 }
{
    let i = slot as usize;
    if i < levels.len() {
        levels[i] = level.0;
    }
}

// The pair of a slot.
fn pair_of(levels: &[u32], times: &[i64], slot: u32) -> GenThenTime
    ensures { pair_of result ≡ slot_pair levels.now times.now slot }
{
    GenThenTime {
        generation: level_of(levels, slot),
        time: revwalk::seconds_of(times, slot),
    }
}

// Sets down a pair in a slot; past the end nothing is changed.
pub fn set_pair(levels: &mut [u32], times: &mut [i64], slot: u32, pair: GenThenTime)
    ensures { (levels.new ≡ set levels.old slot pair.generation.0) × (times.new ≡ set times.old slot pair.time.0) }
{
    set_level(levels, slot, pair.generation);
    revwalk::set_seconds(times, slot, pair.time);
}

// Whether the pair of slot a lies below that of slot b.
pub fn is_below(levels: &[u32], times: &[i64], a: u32, b: u32) -> bool
    ensures { result ≡ lt_pair (slot_pair levels.now times.now a) (slot_pair levels.now times.now b) }
{
    walk::less(pair_of(levels, times, a), pair_of(levels, times, b))
}
