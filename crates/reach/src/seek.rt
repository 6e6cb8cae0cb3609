// The search: commit by commit along the line its parents are noted, until the end of the line is read or a commit is not readable.
ghost use Rattle.std.specs.Prelude.{◌≡◌, ◌+◌, get_or};
ghost use Rattle.hashtable.specs.Table.{id_of};
ghost use Rattle.walk.specs.Opening.{list_ids};
ghost use Rattle.reading.specs.Stored.{GivesBody};
ghost use Rattle.reach.specs.Memory.{lent};
ghost use Rattle.reach.specs.Seek.{refusal_of, Reads, Seeks, SeeksFrom};
ghost use Rattle.hash.specs.Bytes.{width_of};

use crate::notes;
use hash::Kind;
use hashtable::table;
use walk::Refusal;

// Why a search stops short: a commit that is reached is not readable; or the lent memory is too small.
#[derive(Clone, Copy)]
pub enum SeekError {
    Unreadable,
    NoRoom,
}

impl From<SeekError> for Refusal {
    ghost from_gives = { λ e r. r ≡ refusal_of e };

    fn from(e: SeekError) -> Refusal {
        match e {
            SeekError::Unreadable => Refusal::UnreadableReach,
            SeekError::NoRoom => Refusal::BufferTooSmall,
        }
    }
}

// The slot at place k of the line's part that begins at `from`; 0 past the end.
fn slot_after(line: &[u32], from: usize, k: usize) -> u32
    ensures { result ≡ get_or line.now (from + k) 0 }
{
    if line.len() <= from {
        return 0;
    }
    if line.len() - from <= k {
        return 0;
    }
    line[from + k]
}

// The body of the commit in a slot, a part of the store; empty where the store has none.
fn body_in<'a>(kind: Kind, names: &[u8], slot: u32, store: &'a [u8]) -> &'a [u8]
    ensures { GivesBody (width_of kind) store.now (id_of (width_of kind) names.now slot) result.now }
{
    reading::stored_body(kind, store, table::id_of(kind, names, slot as usize))
}

// Reads the commit at place k of the n, and notes its parents: how many slots the line has then.
fn read_at(
    kind: Kind,
    names: &mut [u8],
    marks: &mut [u8],
    line: &mut [u32],
    cap: usize,
    second: bool,
    from: usize,
    store: &[u8],
    n: usize,
    k: usize,
) -> Result<usize, SeekError>
    ensures { Reads (width_of kind) second cap from store.now (lent names.old marks.old line.old) (lent names.new marks.new line.new) n k result }
{
    let slot = slot_after(line, from, k);
    let body = body_in(kind, names, slot, store);
    match object::readable(kind, body) {
        Ok(header) => notes::note_parents(
            kind,
            names,
            marks,
            line,
            cap,
            second,
            from,
            n,
            body,
            header.parents,
        )
        .ok_or(SeekError::NoRoom),
        Err(_) => Err(SeekError::Unreadable),
    }
}

// The search, over the n slots that the line has to begin with: how many it has with all that is reached.
pub fn search(
    kind: Kind,
    names: &mut [u8],
    marks: &mut [u8],
    line: &mut [u32],
    cap: usize,
    second: bool,
    from: usize,
    store: &[u8],
    n: usize,
) -> Result<usize, SeekError>
    ensures { Seeks (width_of kind) second cap from store.now (lent names.old marks.old line.old) (lent names.new marks.new line.new) n result }
{
    let mut count = n;
    let mut k = 0;
    // A `while`: the line grows as it is read, so the bound is no range's.
    while k < count {
        if cap <= k {
            return Err(SeekError::NoRoom);
        }
        count = read_at(kind, names, marks, line, cap, second, from, store, count, k)?;
        k += 1;
    }
    Ok(count)
}

// The search from the ids of a list, where nothing has its mark yet.
pub fn search_from(
    kind: Kind,
    names: &mut [u8],
    marks: &mut [u8],
    line: &mut [u32],
    cap: usize,
    second: bool,
    from: usize,
    store: &[u8],
    roots: &[u8],
) -> Result<usize, SeekError>
    ensures { SeeksFrom (width_of kind) second cap from store.now (lent names.old marks.old line.old) (lent names.new marks.new line.new) (list_ids (width_of kind) roots.now) result }
{
    let begun = notes::note_list(kind, names, marks, line, cap, second, from, Some(0), roots);
    let Some(n) = begun else {
        return Err(SeekError::NoRoom);
    };
    search(kind, names, marks, line, cap, second, from, store, n)
}
