// Header lines of one commit (gix_object::CommitRefIter): functions on the commit's bytes and a place, total on every input.
#![tactic(auto)]

mod id;
pub mod person;

ghost use Rattle.std.specs.Prelude.{◌≡◌, true, ◌+◌, ◌*◌, ◌/◌, ◌≤◌, ◌<◌, eqb, length, drop, Some};
ghost use Rattle.hash.specs.Bytes.{width_of};
ghost use Rattle.object.specs.Header.{tree_size, parent_size, is_some, strip, hex_val, hex_bytes, id_line, parent_word, parent_lines, most, author_line, after_author, stamp_of, header};
ghost use Rattle.object.specs.Read.{id_read, id_down, Decodes, tree_at, tree_id_at, parent_at, after_parents, stamp_read, reading_of};

use date::Stamp;
use hash::Kind;
pub use id::{id_of, id_slice};

// An object id by value, of either kind: zeros stand after it.
#[derive(Clone, Copy)]
pub struct ObjectId {
    pub bytes: [u8; 32],
}

// What a readable header gives: how many parents it has, and its committer reading.
#[derive(Clone, Copy)]
pub struct ReadableHeader {
    pub parents: usize,
    pub stamp: Stamp,
}

// Why a header is not readable: a bad line, or a good 257th parent line before any bad line.
#[derive(Clone, Copy)]
pub enum HeaderError {
    Bad,
    Crowded,
}

// The length of a tree line, newline included.
pub fn tree_size(kind: Kind) -> usize
    ensures { (result ≡ tree_size (width_of kind)) × (result ≤ 70) }
{
    2 * hash::width(kind) + 6
}

// The length of a parent line, newline included.
pub fn parent_size(kind: Kind) -> usize
    ensures { (result ≡ parent_size (width_of kind)) × (result ≤ 72) }
{
    2 * hash::width(kind) + 8
}

// The most parents of a readable commit.
const MOST_PARENTS: usize = 256;

// Whether the word stands at a place.
pub fn starts_with(body: &[u8], at: usize, word: &[u8]) -> bool
    ensures { result ≡ is_some (strip word.now (drop at body.now)) }
{
    hash::same(hash::part(body, at, word.len()), word)
}

// 0 for a hexadecimal digit in lower case, 1 for any other byte.
fn wrong_digit(x: u8) -> u8
    ensures { result ≡ hex_val x / 16 }
{
    if x < 48 {
        return 1;
    }
    if x <= 57 {
        return 0;
    }
    if x < 97 {
        return 1;
    }
    if x <= 102 {
        return 0;
    }
    1
}

// The value of a hexadecimal digit in lower case.
fn hex_value(x: u8) -> u8
    requires { hex_val x < 16 }
    ensures { result ≡ hex_val x }
{
    if x <= 57 { x - 48 } else { x - 87 }
}

// How many of the 2 w bytes at a place are no hexadecimal digit in lower case. It looks at all of them even after a wrong one: a loop with no
// early exit is compiled to instructions that test many bytes at once, and in a store hardly any digit is wrong.
fn wrong_in(w: usize, body: &[u8], at: usize) -> u8
    requires w_in_bounds { at + 2 * w ≤ length body.now }
    requires w_bound { w ≤ 32 }
    ensures { eqb result 0 ≡ is_some (hex_bytes w (drop at body.now)) }
{
    let mut wrong: u8 = 0;
    for i in 0..2 * w {
        wrong += wrong_digit(body[at + i]);
    }
    wrong
}

// The same for the digits of an id: each kind has a loop of its own, whose number of turns is known.
fn wrong_digits(kind: Kind, body: &[u8], at: usize) -> u8
    requires { at + 2 * width_of kind ≤ length body.now }
    ensures { eqb result 0 ≡ is_some (hex_bytes (width_of kind) (drop at body.now)) }
{
    match kind {
        Kind::Sha1 => wrong_in(hash::width(Kind::Sha1), body, at),
        Kind::Sha256 => wrong_in(hash::width(Kind::Sha256), body, at),
    }
}

// Decodes the id in 2 w digits at a place, none of them wrong, to the start of out. (So it tests none, and has no early exit either.)
fn decode_to(w: usize, body: &[u8], at: usize, out: &mut [u8])
    requires w_in_bounds { at + 2 * w ≤ length body.now }
    requires body_value { is_some (hex_bytes w (drop at body.now)) ≡ true }
    requires w_in_bounds_2 { w ≤ length out.old }
    ensures { Decodes w (drop at body.now) out.old out.new }
{
    for i in 0..w {
        out[i] = hex_value(body[at + 2 * i]) * 16 + hex_value(body[at + 2 * i + 1]);
    }
}

// The same id by value.
fn decode(w: usize, body: &[u8], at: usize) -> ObjectId
    requires w_in_bounds { at + 2 * w ≤ length body.now }
    requires body_value { is_some (hex_bytes w (drop at body.now)) ≡ true }
    requires w_bound { w ≤ 32 }
    ensures { Some result ≡ id_read (hex_bytes w (drop at body.now)) }
{
    let mut bytes = [0u8; 32];
    decode_to(w, body, at, &mut bytes);
    ObjectId { bytes }
}

fn decoded(kind: Kind, body: &[u8], at: usize) -> ObjectId
    requires kind_in_bounds { at + 2 * width_of kind ≤ length body.now }
    requires body_value { is_some (hex_bytes (width_of kind) (drop at body.now)) ≡ true }
    ensures { Some result ≡ id_read (hex_bytes (width_of kind) (drop at body.now)) }
{
    match kind {
        Kind::Sha1 => decode(hash::width(Kind::Sha1), body, at),
        Kind::Sha256 => decode(hash::width(Kind::Sha256), body, at),
    }
}

// Sets down the id in the digits at a place, none of them wrong, as number k of a list of ids, where it fits. It is decoded to an array of its own
// width first: the compiler can't tell that out is no part of body, and so would decode digit by digit.
fn put_decoded(kind: Kind, body: &[u8], at: usize, out: &mut [u8], k: usize)
    requires kind_in_bounds { at + 2 * width_of kind ≤ length body.now }
    requires body_value { is_some (hex_bytes (width_of kind) (drop at body.now)) ≡ true }
    ensures { out.new ≡ id_down (width_of kind) k (hex_bytes (width_of kind) (drop at body.now)) out.old }
{
    match kind {
        Kind::Sha1 => {
            let mut id = [0u8; 20];
            decode_to(hash::width(Kind::Sha1), body, at, &mut id);
            hash::set_nth(Kind::Sha1, out, k, &id);
        }
        Kind::Sha256 => {
            let mut id = [0u8; 32];
            decode_to(hash::width(Kind::Sha256), body, at, &mut id);
            hash::set_nth(Kind::Sha256, out, k, &id);
        }
    }
}

// Whether a line with a word, an id and a newline stands at a place.
fn is_id_line(kind: Kind, body: &[u8], at: usize, word: &[u8]) -> bool
    ensures { result ≡ is_some (id_line (width_of kind) word.now (drop at body.now)) }
{
    if body.len() < at {
        return false;
    }
    if body.len() - at < word.len() {
        return false;
    }
    let digits = at + word.len();
    let n = 2 * hash::width(kind);
    if body.len() - digits <= n {
        return false;
    }
    if body[digits + n] != 10 {
        return false;
    }
    if !starts_with(body, at, word) {
        return false;
    }
    wrong_digits(kind, body, digits) == 0
}

// The line with a word, an id and a newline at a place.
fn id_line(kind: Kind, body: &[u8], at: usize, word: &[u8]) -> Option<ObjectId>
    ensures { result ≡ id_read (id_line (width_of kind) word.now (drop at body.now)) }
{
    if is_id_line(kind, body, at, word) {
        Some(decoded(kind, body, at + word.len()))
    } else {
        None
    }
}

// The tree line at a place.
pub fn tree_line(kind: Kind, body: &[u8], at: usize) -> Option<usize>
    ensures { result ≡ tree_at (width_of kind) body.now at }
{
    if is_id_line(kind, body, at, b"tree ") {
        Some(at + tree_size(kind))
    } else {
        None
    }
}

// The id of the tree line at a place.
pub fn tree_id(kind: Kind, body: &[u8], at: usize) -> Option<ObjectId>
    ensures { result ≡ tree_id_at (width_of kind) body.now at }
{
    id_line(kind, body, at, b"tree ")
}

// The parent line at a place.
pub fn parent_line(kind: Kind, body: &[u8], at: usize) -> Option<ObjectId>
    ensures { result ≡ parent_at (width_of kind) body.now at }
{
    id_line(kind, body, at, b"parent ")
}

// Whether a good parent line stands at a place: its digits are tested, and no id is made of them.
pub fn is_parent_line(kind: Kind, body: &[u8], at: usize) -> bool
    ensures { result ≡ is_some (parent_at (width_of kind) body.now at) }
{
    is_id_line(kind, body, at, b"parent ")
}

// Sets down the id of the parent line at a place as number k of a list of ids, where it fits; where no good parent line stands there, nothing is
// changed.
pub fn put_parent(kind: Kind, body: &[u8], at: usize, out: &mut [u8], k: usize) -> bool
    ensures { (result ≡ is_some (id_line (width_of kind) parent_word (drop at body.now))) × (out.new ≡ id_down (width_of kind) k (id_line (width_of kind) parent_word (drop at body.now)) out.old) }
{
    let word = b"parent ";
    if !is_id_line(kind, body, at, word) {
        return false;
    }
    put_decoded(kind, body, at + word.len(), out, k);
    true
}

// The place after the parent lines at a place, uncounted.
pub fn after_parents(kind: Kind, body: &[u8], at: usize) -> usize
    ensures { result ≡ after_parents (width_of kind) body.now at }
{
    let size = parent_size(kind);
    let mut p = at;
    // Lines are passed as long as one stands there, and nothing is counted.
    while is_parent_line(kind, body, p) {
        p += size;
    }
    p
}

// The number of parent lines at a place, counted up to 256.
pub fn count_parents(kind: Kind, body: &[u8], at: usize) -> usize
    ensures { result ≡ length (parent_lines (width_of kind) most (drop at body.now)).ids }
{
    let size = parent_size(kind);
    let mut p = at;
    for n in 0..MOST_PARENTS {
        if !is_parent_line(kind, body, p) {
            return n;
        }
        p += size;
    }
    MOST_PARENTS
}

// The author line at a place and the committer line after it.
fn person_lines(body: &[u8], at: usize) -> Option<Stamp>
    ensures { result ≡ stamp_read (after_author (author_line (drop at body.now))) }
{
    let next = person::author_line(body, at)?;
    person::committer_line(body, next)
}

// A whole header: of a bad line and a good 257th parent line the earlier decides.
pub fn readable(kind: Kind, body: &[u8]) -> Result<ReadableHeader, HeaderError>
    ensures { result ≡ reading_of (header (width_of kind) body.now) }
{
    let Some(at) = tree_line(kind, body, 0) else {
        return Err(HeaderError::Bad);
    };
    let parents = count_parents(kind, body, at);
    let p = at + parent_size(kind) * parents;
    if is_parent_line(kind, body, p) {
        return Err(HeaderError::Crowded);
    }
    match person_lines(body, p) {
        Some(stamp) => Ok(ReadableHeader { parents, stamp }),
        None => Err(HeaderError::Bad),
    }
}

// The committer reading alone: parents are not counted.
pub fn stamp_only(kind: Kind, body: &[u8]) -> Option<Stamp>
    ensures { result ≡ stamp_read (stamp_of (width_of kind) body.now) }
{
    let at = tree_line(kind, body, 0)?;
    person_lines(body, after_parents(kind, body, at))
}

// The same where the tree line and so many parent lines are known to be good: these are not read again.
pub fn stamp_past(kind: Kind, body: &[u8], known: usize) -> Option<Stamp>
    ensures { (header (width_of kind) body.now).tree ≡ true → known ≤ length (header (width_of kind) body.now).ids → result ≡ stamp_read (stamp_of (width_of kind) body.now) }
{
    if MOST_PARENTS < known {
        return None;
    }
    let size = parent_size(kind);
    let at = tree_size(kind) + size * known;
    person_lines(body, after_parents(kind, body, at))
}
