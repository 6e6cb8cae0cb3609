// A memo in lent memory of any length, also 0: for each entry of a store a row of cells, one for either bench and each number of moves left. A cell
// is 0 where nothing is known, 1 for no and 2 for yes. What has no cell is not remembered. And the commit at hand: its entry and its parents.
// Every function is total and safe on any bytes and numbers.
#![tactic(auto)]

ghost use Rattle.std.specs.Prelude.{◌≡◌, ◌+◌, ◌*◌, ◌<◌, ◌≤◌, length};
ghost use Rattle.object.specs.Header.{header};
ghost use Rattle.object.specs.Read.{reading_of};
ghost use Rattle.odb.specs.Store.{standing_entries};
ghost use Rattle.memo.specs.Cells.{row_cells, side_cells, cell_at, code_of, has_cell, recalled, noted, AllZero};
ghost use Rattle.memo.specs.AtHand.{parents_read, EntryOf};
ghost use Rattle.hash.specs.Bytes.{width_of};

use hash::Kind;

// The cells of a row, and of either bench in it: for 0 to 12 moves.
const ROW_CELLS: usize = 26;

const SIDE_CELLS: usize = 13;

// The cell of a bench in a row.
fn side(bed: bool, d: usize) -> usize
    requires { d < side_cells }
    ensures { (result ≡ cell_at 0 bed d) × (result < row_cells) }
{
    if bed { SIDE_CELLS + d } else { d }
}

// Whether there is a cell for entry k of n and d moves.
fn has_cell(len: usize, n: usize, k: usize, d: usize) -> bool
    ensures { result ≡ has_cell len n k d }
{
    if n <= k {
        return false;
    }
    if len / ROW_CELLS <= k {
        return false;
    }
    d < SIDE_CELLS
}

// What is known of entry k of n for a bench to move and d moves.
pub fn recall(memo: &[u8], n: usize, k: usize, bed: bool, d: usize) -> u8
    ensures { result ≡ recalled memo.now n k bed d }
{
    if !has_cell(memo.len(), n, k, d) {
        return 0;
    }
    memo[k * ROW_CELLS + side(bed, d)]
}

// The byte of an answer.
fn code(so: bool) -> u8
    ensures { result ≡ code_of so }
{
    if so { 2 } else { 1 }
}

// Remembers an answer, where there is a cell for it.
pub fn note(memo: &mut [u8], n: usize, k: usize, bed: bool, d: usize, so: bool)
    ensures { memo.new ≡ noted memo.old n k bed d so }
{
    if has_cell(memo.len(), n, k, d) {
        memo[k * ROW_CELLS + side(bed, d)] = code(so);
    }
}

// Forgets everything.
pub fn clear(memo: &mut [u8])
    ensures { AllZero memo.new }
{
    for i in 0..memo.len() {
        memo[i] = 0;
    }
}

// The number of the entry under an id, n where none is found.
pub fn entry_of(kind: Kind, store: &[u8], n: usize, id: &[u8]) -> usize
    ensures { EntryOf (width_of kind) store.now n id.now result }
{
    let mut found = false;
    let mut entry = n;
    odb::try_find_noting(kind, store, id, &mut found, &mut entry);
    entry
}

// The number of parents of a readable body; 0 of any other.
pub fn parent_count(kind: Kind, body: &[u8]) -> usize
    ensures { result ≡ parents_read (reading_of (header (width_of kind) body.now)) }
{
    match object::readable(kind, body) {
        Ok(header) => header.parents,
        Err(_) => 0,
    }
}
