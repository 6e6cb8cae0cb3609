// A commit's body, from the store alone.
ghost use Rattle.std.specs.Prelude.{◌≡◌};
ghost use Rattle.hash.specs.Bytes.{width_of};
ghost use Rattle.reading.specs.Stored.{GivesBody};

use hash::Kind;

// The body of a commit, a part of the store itself and not a copy; empty where the store has none. (An empty body has no tree line, so what
// `object::readable` says of the body it says of the commit.)
pub fn stored_body<'a>(kind: Kind, store: &'a [u8], id: &[u8]) -> &'a [u8]
    ensures { GivesBody (width_of kind) store.now id.now result.now }
{
    odb::body(store, odb::locate(kind, store, id))
}
