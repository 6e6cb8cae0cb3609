// The choice of cards 8 and 11: among the commits of the line that both searches met and that are not stained, the first: that with the
// greatest seconds, and among equals that with the smallest id. Every function is total and safe on any bytes and numbers.
#![tactic(auto)]

ghost use Rattle.std.specs.Prelude.{◌≡◌};
ghost use Rattle.hash.specs.Bytes.{lt_id, width_of};
ghost use Rattle.walk.specs.declared.Refusal.TheVariants.{TangledReach};
ghost use Rattle.parting.specs.Choice.{met_of, GoesFirst, TakesSooner, ChoosesNext, Chooses};

use hash::Kind;
use hashtable::table;
use stain::{has_both, is_stained, slot_at};
use walk::Refusal;

// Some commits are common, and none of these is best.
#[derive(Clone, Copy)]
pub struct Tangled;

impl From<Tangled> for Refusal {
    ghost from_gives = { λ _ r. r ≡ TangledReach };

    fn from(_e: Tangled) -> Refusal {
        Refusal::TangledReach
    }
}

// What the commits of the line come to: a best one stands in a slot, or none is common.
pub type Choice = Result<Option<u32>, Tangled>;

// A common commit is met that is not best.
fn met(past: Choice) -> Choice
    ensures { result ≡ met_of past }
{
    match past {
        Ok(None) => Err(Tangled),
        _ => past,
    }
}

// Whether an id is smaller than another.
#[tactic(auto, using(hash::proofs::Ids::is_lt_compare))]
fn is_smaller(x: &[u8], y: &[u8]) -> bool
    ensures { result ≡ lt_id x.now y.now }
{
    hash::compare(x, y).is_lt()
}

// Whether the commit in slot x goes before that in slot y: by greater seconds in the store, then by the smaller id.
fn goes_first(kind: Kind, names: &[u8], store: &[u8], x: u32, y: u32) -> bool
    ensures { GoesFirst (width_of kind) store.now names.now x y result }
{
    let a = table::id_of(kind, names, x as usize);
    let b = table::id_of(kind, names, y as usize);
    let s = reading::seconds_for(kind, store, a);
    let t = reading::seconds_for(kind, store, b);
    if t < s {
        return true;
    }
    if s < t {
        return false;
    }
    is_smaller(a, b)
}

// A best commit is met: it is chosen where it is the first so far.
fn sooner(kind: Kind, names: &[u8], store: &[u8], past: Choice, slot: u32) -> Choice
    ensures { TakesSooner (width_of kind) store.now names.now past slot result }
{
    if let Ok(Some(other)) = past {
        if !goes_first(kind, names, store, slot, other) {
            return past;
        }
    }
    Ok(Some(slot))
}

// The choice with the commit in one slot more.
fn choose_next(
    kind: Kind,
    names: &[u8],
    marks: &[u8],
    levels: &[u32],
    store: &[u8],
    past: Choice,
    slot: u32,
) -> Choice
    ensures { ChoosesNext (width_of kind) store.now names.now marks.now levels.now past slot result }
{
    let m = table::mark_of(marks, slot as usize);
    if !has_both(m) {
        return past;
    }
    if is_stained(levels, slot as usize) {
        return met(past);
    }
    sooner(kind, names, store, past, slot)
}

// The choice among the commits of the line's first n.
pub fn choose(
    kind: Kind,
    names: &[u8],
    marks: &[u8],
    levels: &[u32],
    line: &[u32],
    store: &[u8],
    n: usize,
) -> Choice
    ensures { Chooses (width_of kind) store.now names.now marks.now levels.now line.now n result }
{
    let mut r = Ok(None);
    for i in 0..n {
        let slot = slot_at(line, i);
        r = choose_next(kind, names, marks, levels, store, r, slot);
    }
    r
}
