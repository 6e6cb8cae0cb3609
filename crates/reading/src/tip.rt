// A commit's committer time and zone, from the store alone.
ghost use Rattle.std.specs.Prelude.{◌≡◌, true, ◌≤◌, length};
ghost use Rattle.odb.specs.Lookup.{NotesEntry};
ghost use Rattle.object.specs.Header.{header};
ghost use Rattle.reading.specs.Tip.{tip_stamp, ReadsTip, GivesSeconds};
ghost use Rattle.hash.specs.Bytes.{width_of};

use date::{Seconds, Stamp};
use hash::Kind;

// Why a tip has no seconds at the opening: the store lacks it, or its header is not good through the committer line.
#[derive(Clone, Copy)]
pub enum TipError {
    Missing,
    Unreadable,
}

// The seconds of a header as those of a tip.
fn tip_seconds(read: Option<Stamp>) -> Result<Seconds, TipError>
    ensures { result ≡ tip_stamp read }
{
    match read {
        Some(s) => Ok(s.seconds),
        None => Err(TipError::Unreadable),
    }
}

// A tip, read from the store alone: its body is a part of the store itself, not a copy. The number of its entry is noted.
fn read_tip_noting(
    kind: Kind,
    store: &[u8],
    id: &[u8],
    entry: &mut usize,
) -> Result<Seconds, TipError>
    ensures { ReadsTip (width_of kind) store.now id.now result × NotesEntry (width_of kind) store.now id.now entry.old entry.new }
{
    let mut found = false;
    let body = odb::try_find_noting(kind, store, id, &mut found, entry);
    if found {
        tip_seconds(object::stamp_only(kind, body))
    } else {
        Err(TipError::Missing)
    }
}

// The same without the entry.
pub fn read_tip(kind: Kind, store: &[u8], id: &[u8]) -> Result<Seconds, TipError>
    ensures { ReadsTip (width_of kind) store.now id.now result }
{
    let mut entry = 0;
    read_tip_noting(kind, store, id, &mut entry)
}

// The seconds of a commit in the store, 0 where the store has none. The number of its entry is noted, where it may be looked for first
// another time.
pub fn seconds_noting(kind: Kind, store: &[u8], id: &[u8], entry: &mut usize) -> Seconds
    ensures { GivesSeconds (width_of kind) store.now id.now result × NotesEntry (width_of kind) store.now id.now entry.old entry.new }
{
    read_tip_noting(kind, store, id, entry).unwrap_or(Seconds(0))
}

// The same without the entry.
pub fn seconds_for(kind: Kind, store: &[u8], id: &[u8]) -> Seconds
    ensures { GivesSeconds (width_of kind) store.now id.now result }
{
    read_tip(kind, store, id).unwrap_or(Seconds(0))
}

// The zone of a body whose tree line and first `known` parent lines are good, past all its parent lines: none where a line up to the
// committer's is bad.
pub fn zone_past(kind: Kind, body: &[u8], known: usize) -> Option<i64>
    ensures { (header (width_of kind) body.now).tree ≡ true → known ≤ length (header (width_of kind) body.now).ids → result ≡ (header (width_of kind) body.now).zone }
{
    match object::stamp_past(kind, body, known) {
        Some(stamp) => {
            let zone = stamp.zone;
            zone
        }
        None => None,
    }
}
