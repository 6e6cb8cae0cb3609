// Lists of ids.
ghost use Rattle.std.specs.Prelude.{◌≡◌};
ghost use Rattle.hash.specs.Bytes.{among, width_of};
ghost use Rattle.walk.specs.Opening.{list_ids};

use hash::Kind;

// Whether an id is one of a list's; what is left of a list that does not hold whole ids is not looked at.
pub fn is_among(kind: Kind, list: &[u8], id: &[u8]) -> bool
    ensures { result ≡ among id.now (list_ids (width_of kind) list.now) }
{
    let n = hash::ids_in(kind, list.len());
    for k in 0..n {
        if hash::same(id, hash::nth(kind, list, k)) {
            return true;
        }
    }
    false
}
