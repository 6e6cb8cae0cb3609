// The cells of the slots, and the hints beside them: cell 2·s and hint 2·s + 1 of the line belong to slot s. A cell is 0, or one more than the slot
// of a child. The slots of the commits reached stand behind them, from place `from` on.
ghost use Rattle.std.specs.Prelude.{◌≡◌, true, ◌+◌, ◌*◌, ◌<◌, get_or, set, length};
ghost use Rattle.hashtable.specs.Table.{cleared};
ghost use Rattle.falling.specs.Cells.{most_child, slot_pair, lowered, low_at, is_low, SetsCell, FillsCell, AllLow};

use crate::slots;

// The slot at place k of the line's part that begins at `from`; 0 past the end.
pub fn slot_after(line: &[u32], from: usize, k: usize) -> u32
    ensures { result ≡ get_or line.now (from + k) 0 }
{
    if line.len() <= from {
        return 0;
    }
    if line.len() - from <= k {
        return 0;
    }
    line[from + k]
}

// The slot at place n + k of that part.
pub fn slot_past(line: &[u32], from: usize, n: usize, k: usize) -> u32
    ensures { result ≡ get_or line.now (from + n + k) 0 }
{
    if line.len() <= from {
        return 0;
    }
    let rest = line.len() - from;
    if rest <= n {
        return 0;
    }
    if rest - n <= k {
        return 0;
    }
    line[from + n + k]
}

// The line's number at a place; 0 past the end.
fn at(line: &[u32], k: usize) -> u32
    ensures { result ≡ get_or line.now k 0 }
{
    if line.len() <= k {
        return 0;
    }
    line[k]
}

// Where the commit in a slot may be looked for first. Any number will do.
pub fn hint_of(line: &[u32], slot: u32) -> usize
    ensures { result ≡ get_or line.now (2 * slot + 1) 0 }
{
    let k = slot as usize;
    at(line, 2 * k + 1) as usize
}

// Empties the first n numbers of the line.
pub fn clear_cells(line: &mut [u32], n: usize)
    ensures { line.new ≡ cleared n line.old }
{
    for k in 0..line.len() {
        if n <= k {
            return;
        }
        line[k] = 0;
    }
}

// What a cell holds once a child more is read: of the two the one with the lesser pair.
fn lower(levels: &[u32], times: &[i64], child: u32, cell: u32) -> u32
    ensures { child < most_child → result ≡ lowered levels.now times.now child cell }
{
    if child == 4294967295 {
        return cell;
    }
    if cell == 0 {
        return child + 1;
    }
    if slots::is_below(levels, times, child, cell - 1) {
        return child + 1;
    }
    cell
}

// Sets down a number; past the end nothing is changed.
fn set_at(line: &mut [u32], k: usize, x: u32)
    ensures { line.new ≡ set line.old k x }
{
    if k < line.len() {
        line[k] = x;
    }
}

// Lowers the cell of a slot by a child, and sets down its hint.
pub fn lower_at(levels: &[u32], times: &[i64], line: &mut [u32], slot: u32, child: u32, hint: u32)
    ensures { SetsCell levels.now times.now slot child hint line.old line.new }
{
    let k = slot as usize;
    let cell = lower(levels, times, child, at(line, 2 * k));
    set_at(line, 2 * k, cell);
    set_at(line, 2 * k + 1, hint);
}

// Sets down a child in the cell of a slot that has had none, and its hint: what stood there is not read.
pub fn fill_at(line: &mut [u32], slot: u32, child: u32, hint: u32)
    ensures { FillsCell slot child hint line.old line.new }
{
    if child == 4294967295 {
        return;
    }
    let k = slot as usize;
    set_at(line, 2 * k, child + 1);
    set_at(line, 2 * k + 1, hint);
}

// Whether the pair of a slot lies below that of its cell.
fn is_low(levels: &[u32], times: &[i64], line: &[u32], slot: u32) -> bool
    ensures { result ≡ is_low line.now levels.now times.now slot }
{
    let k = slot as usize;
    let cell = at(line, 2 * k);
    if cell == 0 {
        return true;
    }
    slots::is_below(levels, times, slot, cell - 1)
}

// Whether it does so for the n slots that stand from place `from` on.
pub fn all_low(levels: &[u32], times: &[i64], line: &[u32], from: usize, n: usize) -> bool
    ensures { AllLow line.now levels.now times.now from n result }
{
    for k in 0..n {
        if !is_low(levels, times, line, slot_after(line, from, k)) {
            return false;
        }
    }
    true
}
