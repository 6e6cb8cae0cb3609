// What is readable within so many parent steps of a commit (document 02, card 12, refusal 13): one function that calls itself with one step fewer. A
// memo of any length remembers what it came to. It is total and safe on any bytes and numbers.
#![tactic(auto)]

ghost use Rattle.std.specs.Prelude.{◌≡◌};
ghost use Rattle.object.specs.Ids.{id_in};
ghost use Rattle.withinreach.specs.Remembered.{Reads};
ghost use Rattle.hash.specs.Bytes.{width_of};

use hash::Kind;
use object::{ObjectId, ReadableHeader};

// Whether every commit within d parent steps of a commit is readable, itself included. A commit that is absent is not.
pub fn all_readable(kind: Kind, store: &[u8], memo: &mut [u8], d: usize, id: ObjectId) -> bool
    ensures { Reads (width_of kind) store.now d (id_in (width_of kind) id.bytes) memo.old memo.new result }
{
    let n = odb::count(kind, store);
    let x = object::id_slice(kind, &id.bytes);
    let k = memo::entry_of(kind, store, n, x);
    let known = memo::recall(memo, n, k, false, d);
    if known != 0 {
        return known == 2;
    }
    let body = reading::stored_body(kind, store, x);
    let Ok(ReadableHeader { parents, .. }) = object::readable(kind, body) else {
        return false;
    };
    if d == 0 {
        memo::note(memo, n, k, false, d, true);
        return true;
    }
    for i in 0..parents {
        if !all_readable(
            kind,
            store,
            memo,
            d - 1,
            reading::body_parent(kind, body, i),
        ) {
            memo::note(memo, n, k, false, d, false);
            return false;
        }
    }
    memo::note(memo, n, k, false, d, true);
    true
}
