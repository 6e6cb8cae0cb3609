// Digests by the kind of a repository's ids, and the id of a commit, which is the digest of its body behind a short header (gix_object::compute_hash).
// Bodies are read where they lie. Every public function is total.
#![tactic(auto)]

ghost use Rattle.std.specs.Prelude.{◌≡◌, ◌++◌, ◌+◌, ◌%◌, ◌≤◌, length, drop};
ghost use Rattle.hash.specs.Bytes.{eq_id, set_down};
ghost use Rattle.commitid.specs.Name.{digest_of, commit_header, commit_object, commit_id};

use hash::Kind;

// Whether an id is the digest of the bytes of head and then of body.
pub fn is_digest(kind: Kind, head: &[u8], body: &[u8], id: &[u8]) -> bool
    ensures { result ≡ eq_id (digest_of kind (head.now ++ body.now)) id.now }
{
    match kind {
        Kind::Sha1 => hash::same(&sha1_hash::sha1_of(head, body), id),
        Kind::Sha256 => hash::same(&sha256::sha256_of(head, body), id),
    }
}

// The digest of the bytes of head and then of body, set down at place i, where it fits; else nothing is changed.
pub fn set_digest(kind: Kind, head: &[u8], body: &[u8], out: &mut [u8], i: usize)
    ensures { out.new ≡ set_down out.old i (digest_of kind (head.now ++ body.now)) }
{
    match kind {
        Kind::Sha1 => hash::set_down(out, i, &sha1_hash::sha1_of(head, body)),
        Kind::Sha256 => hash::set_down(out, i, &sha256::sha256_of(head, body)),
    }
}

fn digit(x: usize) -> u8
    ensures { result ≡ 48 + x % 10 }
{
    48 + ((x % 10) as u8)
}

// `commit `, n in decimal and a zero byte, at the end of the 28 bytes b; where they start.
fn header(b: &mut [u8], n: usize) -> usize
    requires { length b.old ≡ 28 }
    ensures { (drop result b.new ≡ commit_header n) × (result ≤ 28) }
{
    b[27] = 0;
    let mut i = 27;
    let mut x = n;
    // The digits from the last on: how many there are shows only as the number grows shorter, so no range counts them.
    while 10 <= x {
        i -= 1;
        b[i] = digit(x);
        x /= 10;
    }
    i -= 1;
    b[i] = digit(x);
    i -= 7;
    hash::set_down(b, i, b"commit ");
    i
}

// Whether an id is that of the commit with this body.
pub fn is_commit_id(kind: Kind, body: &[u8], id: &[u8]) -> bool
    ensures { result ≡ eq_id (commit_id kind body.now) id.now }
{
    let mut head = [0u8; 28];
    let start = header(&mut head, body.len());
    is_digest(kind, &head[start..], body, id)
}

// The id of the commit with this body, set down at place i, where it fits; else nothing is changed.
pub fn set_commit_id(kind: Kind, body: &[u8], out: &mut [u8], i: usize)
    ensures { out.new ≡ set_down out.old i (commit_id kind body.now) }
{
    let mut head = [0u8; 28];
    let start = header(&mut head, body.len());
    set_digest(kind, &head[start..], body, out, i)
}
