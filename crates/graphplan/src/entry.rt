// What is read of one entry of a store for its row in a commit-graph file.
ghost use Rattle.std.specs.Prelude.{◌≡◌, ◌-◌, ◌<◌, length, get_or};
ghost use Rattle.hash.specs.Bytes.{width_of};
ghost use Rattle.levels.specs.Search.{tag};
ghost use Rattle.levels.specs.StoreGraph.{lines_in};
ghost use Rattle.odb.specs.Lookup.{entry_body};
ghost use Rattle.graphplan.specs.StoreRows.{fit_seconds};
ghost use Rattle.graphplan.specs.Entries.{edges_count, head_given, head_read, byte_of, Advanced};

use date::Seconds;
use hash::Kind;
use object::{HeaderError, ReadableHeader};

// What a readable header says for its row: the number of its parents, its seconds without their sign, and whether a row can hold them.
#[derive(Clone, Copy)]
pub struct Head {
    pub parents: usize,
    pub seconds: usize,
    pub fits: bool,
}

// The seconds from which on no row can hold them.
const MOST_SECONDS: u64 = 17179869184;

// The tag that the lent levels carry.
const TAG: usize = 2147483648;

fn wide(x: u64) -> usize
    ensures { result ≡ x }
{
    x as usize
}

// How many entries of EDGE a row of c parents has.
pub fn edges_of(c: usize) -> usize
    ensures { result ≡ edges_count c }
{
    if 2 < c { c - 1 } else { 0 }
}

// Whether a row can hold these seconds.
fn seconds_fit(s: Seconds) -> bool
    ensures { result ≡ fit_seconds s.0 }
{
    if date::is_negative(s) {
        return false;
    }
    date::magnitude(s) < MOST_SECONDS
}

fn head_given(r: Result<ReadableHeader, HeaderError>) -> Option<Head>
    ensures { result ≡ head_given r }
{
    match r {
        Ok(ReadableHeader { parents, stamp }) => {
            let s = stamp.seconds;
            Some(Head {
                parents,
                seconds: wide(date::magnitude(s)),
                fits: seconds_fit(s),
            })
        }
        Err(_) => None,
    }
}

// The header of entry k.
pub fn head_of(kind: Kind, store: &[u8], k: usize) -> Option<Head>
    ensures { result ≡ head_read (width_of kind) (entry_body (width_of kind) store.now k) }
{
    head_given(object::readable(kind, odb::entry_bytes(kind, store, k)))
}

// How many parents entry k has.
pub fn count_of(kind: Kind, store: &[u8], k: usize) -> usize
    ensures { result ≡ length (lines_in (width_of kind) (entry_body (width_of kind) store.now k)).ids }
{
    object::count_parents(
        kind,
        odb::entry_bytes(kind, store, k),
        object::tree_size(kind),
    )
}

fn wide_level(x: u32) -> usize
    ensures { (result ≡ x) × (result < 4294967296) }
{
    x as usize
}

// The level that the lent levels hold for entry k.
pub fn level_at(levels: &[u32], k: usize) -> usize
    ensures { (result ≡ get_or levels.now k 0 - tag) × (result < 4294967296) }
{
    if levels.len() <= k {
        return 0;
    }
    let v = wide_level(levels[k]);
    if v < TAG { 0 } else { v - TAG }
}

// The first byte of the id of entry k.
fn first_byte(kind: Kind, store: &[u8], k: usize) -> usize
    ensures { result ≡ byte_of (width_of kind) store.now k }
{
    hash::byte_at(odb::entry_id(kind, store, k), 0) as usize
}

// From entry k on, past those whose ids begin with a byte of at most x.
pub fn past_byte(kind: Kind, store: &[u8], n: usize, k: usize, x: usize) -> usize
    ensures { Advanced (byte_of (width_of kind) store.now) n k x result }
{
    for i in k..n {
        if x < first_byte(kind, store, i) {
            return i;
        }
    }
    n
}
