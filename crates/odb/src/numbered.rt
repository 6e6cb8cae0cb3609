// The entries of a store by their number, counted from 0: parts of the store itself, empty where the store has no such entry.
ghost use Rattle.std.specs.Prelude.{◌≡◌};
ghost use Rattle.hash.specs.Bytes.{width_of};
ghost use Rattle.odb.specs.Lookup.{entry_id, entry_body};

use hash::Kind;

// The id of entry k.
pub fn entry_id(kind: Kind, store: &[u8], k: usize) -> &[u8]
    ensures { result.now ≡ entry_id (width_of kind) store.now k }
{
    if super::count(kind, store) <= k {
        return &store[..0];
    }
    let step = hash::width(kind) + super::END_BYTES;
    hash::id_at(kind, store, super::entries_start(store) + step * k)
}

// The body of entry k; empty too where it is no part of the store.
pub fn entry_bytes(kind: Kind, store: &[u8], k: usize) -> &[u8]
    ensures { result.now ≡ entry_body (width_of kind) store.now k }
{
    if super::count(kind, store) <= k {
        return &store[..0];
    }
    let base = super::entries_start(store);
    super::body(store, super::entry_body(hash::width(kind), store, base, k))
}
