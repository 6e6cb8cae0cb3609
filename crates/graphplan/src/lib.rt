// What is found of a store before its commit-graph file is written: whether there is one, and how many rows and entries of EDGE it has.
// Every public function is total and safe on any bytes.
#![tactic(auto)]

pub mod entry;

ghost use Rattle.std.specs.Prelude.{◌≡◌, cond, true, false, ◌≤◌};
ghost use Rattle.hash.specs.Bytes.{width_of};
ghost use Rattle.graphplan.specs.Refusing.{Plans, survey_of, plan_after, without_levels};

use hash::Kind;
use levels::LevelsError;
use walk::Refusal;

// What is to be written: how many rows, and how many entries of EDGE.
#[derive(Clone, Copy)]
pub struct Plan {
    pub rows: usize,
    pub edges: usize,
}

// The most bytes of a store.
const MOST_BYTES: usize = 16777216;

fn both(a: bool, b: bool) -> bool
    ensures { result ≡ cond a b false }
{
    if a { b } else { false }
}

// Reads the header of each of n entries: how many entries of EDGE they make, or that one is unreadable, or that all are readable and some seconds do not fit.
fn read_heads(kind: Kind, store: &[u8], n: usize) -> Result<usize, Refusal>
    requires { n ≤ 4294967296 }
    ensures { result ≡ survey_of (width_of kind) store.now n }
{
    let mut good = true;
    let mut e: usize = 0;
    for k in 0usize..n {
        let Some(head) = entry::head_of(kind, store, k) else {
            return Err(Refusal::UnfitStore);
        };
        e += entry::edges_of(head.parents);
        good = both(good, head.fits);
    }
    if good {
        Ok(e)
    } else {
        Err(Refusal::UnfitSeconds)
    }
}

// What is to be written of a store whose levels are found, or why nothing is.
fn planned(kind: Kind, store: &[u8], n: usize) -> Result<Plan, Refusal>
    requires { n ≤ 4294967296 }
    ensures { result ≡ plan_after n (survey_of (width_of kind) store.now n) }
{
    let edges = read_heads(kind, store, n)?;
    Ok(Plan { rows: n, edges })
}

// The refusal where a store's levels are not set down.
fn without_levels(e: LevelsError) -> Refusal
    ensures { result ≡ without_levels e }
{
    match e {
        LevelsError::Torn => Refusal::CorruptStore,
        LevelsError::Short => Refusal::BufferTooSmall,
        LevelsError::NoLevels => Refusal::UnfitStore,
    }
}

// Every test but that of the output's length. Nothing is written but the lent levels, and they only after 2, 4 and 1.
pub fn judge(kind: Kind, store: &[u8], levels: &mut [u32]) -> Result<Plan, Refusal>
    ensures { Plans (width_of kind) store.now levels.old levels.new result }
{
    if MOST_BYTES < store.len() {
        return Err(Refusal::InputTooLarge);
    }
    levels::find_levels(kind, store, levels).map_err(without_levels)?;
    planned(kind, store, odb::count(kind, store))
}
