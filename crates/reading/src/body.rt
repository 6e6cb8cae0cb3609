// A next call's reading of a commit's body, line by line, as crate `commititer` gives its lines.
ghost use Rattle.std.specs.Prelude.{◌≡◌, ◌&&◌, eqb};
ghost use Rattle.object.specs.Header.{header};
ghost use Rattle.commititer.specs.Token.{token_at, parents_place};
ghost use Rattle.reading.specs.Body.{most_read, parent_id_at, PutsParents, IsCrowded, EndsAfter, ReadsBody};
ghost use Rattle.hash.specs.Bytes.{width_of};

use commititer::Token;
use hash::Kind;
use object::ObjectId;

// How the reading of a body ends after its parents: the author line is good, or it is bad, or a parent line too many stands there.
#[derive(Clone, Copy)]
pub enum BodyEnd {
    Whole,
    Unreadable,
    Crowded,
}

// How many parents of a body are followed, and how its reading ends.
#[derive(Clone, Copy)]
pub struct BodyRead {
    pub parents: usize,
    pub ends: BodyEnd,
}

// The most parents of a commit.
const MOST_PARENTS: usize = 256;

// What stands after a tree line and k parent lines.
fn token_after(kind: Kind, body: &[u8], k: usize) -> Token
    ensures { result ≡ token_at (width_of kind) body.now (parents_place (width_of kind) k) }
{
    commititer::read_token(kind, body, commititer::parents_place(kind, k))
}

// The id of parent k of a body, which a good tree line stands before. Whoever asks knows how many parents there are, so no Option is given: zeros
// where no parent line stands.
pub fn body_parent(kind: Kind, body: &[u8], k: usize) -> ObjectId
    ensures { result.bytes ≡ parent_id_at (width_of kind) body.now k }
{
    if MOST_PARENTS <= k {
        return ObjectId { bytes: [0u8; 32] };
    }
    match token_after(kind, body, k) {
        Token::Parent(id) => id,
        _ => ObjectId { bytes: [0u8; 32] },
    }
}

// How many parents of a body are read at most: where only the first is followed, that alone.
fn most_read(first: bool) -> usize
    ensures { result ≡ most_read first }
{
    if first {
        return 1;
    }
    MOST_PARENTS
}

// Sets down the ids of a body's parents, which a good tree line stands before, end to end, and gives how many they are. Each line is read once,
// and its id decoded straight to its place.
fn put_parents(kind: Kind, body: &[u8], first: bool, out: &mut [u8]) -> usize
    ensures { PutsParents (width_of kind) first body.now out.old out.new result }
{
    let most = most_read(first);
    for k in 0..most {
        let place = commititer::parents_place(kind, k);
        if !commititer::put_parent(kind, body, place.at, out, k) {
            return k;
        }
    }
    most
}

// Whether another parent line stands after k of them, which are all that may be.
fn is_crowded(kind: Kind, body: &[u8], k: usize) -> bool
    ensures { IsCrowded (header (width_of kind) body.now) k result }
{
    if k < MOST_PARENTS {
        return false;
    }
    let place = commititer::parents_place(kind, k);
    commititer::is_parent(kind, body, place.at)
}

// How the reading of a body with k parents ends after them.
fn end_after(kind: Kind, body: &[u8], k: usize) -> BodyEnd
    ensures { EndsAfter (header (width_of kind) body.now) k result }
{
    if is_crowded(kind, body, k) {
        return BodyEnd::Crowded;
    }
    let place = commititer::parents_place(kind, k);
    if commititer::is_author(body, place.at) {
        return BodyEnd::Whole;
    }
    BodyEnd::Unreadable
}

// Whether the reading stops after n parents, where only the first is followed.
fn is_first(first: bool, n: usize) -> bool
    ensures { result ≡ (first && eqb n 1) }
{
    first && n == 1
}

// The parents of a body that are followed, all of them or the first alone: their ids are set down end to end in `out`, and how the reading ends is
// told. What stands past the ids is left as it is, on any bytes.
pub fn read_body(kind: Kind, body: &[u8], first: bool, out: &mut [u8]) -> BodyRead
    ensures { ReadsBody (width_of kind) first (header (width_of kind) body.now) out.old out.new result }
{
    if !commititer::is_tree(kind, body) {
        return BodyRead {
            parents: 0,
            ends: BodyEnd::Unreadable,
        };
    }
    let n = put_parents(kind, body, first, out);
    if is_first(first, n) {
        return BodyRead {
            parents: n,
            ends: BodyEnd::Whole,
        };
    }
    let ends = end_after(kind, body, n);
    BodyRead { parents: n, ends }
}
