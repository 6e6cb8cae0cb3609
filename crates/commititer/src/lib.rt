// The header lines of one commit one by one, as gix_object::CommitRefIter gives them: a struct of the commit's body, a place in it and the
// id kind. The place says which line may stand there, so that only tree, parents, author and committer in this order are good. The
// functions over the struct are thin; above them stand functions with plain parameters, for whoever reads a commit.
#![tactic(auto)]

ghost use Rattle.std.specs.Prelude.{ℕ, ◌+◌, ◌*◌, ◌<◌, min, ◌≡◌, drop};
ghost use Rattle.hash.specs.Bytes.{width_of};
ghost use Rattle.object.specs.Header.{author_line, committer_line};
ghost use Rattle.commititer.specs.Token.{
  here,
  author_told,
  committer_told,
  missing,
  token_of,
  is_done,
  ended,
  place_of,
  token_at,
  after_token,
  start,
  last,
  parents_place,
};
ghost use Rattle.commititer.specs.Tokens.{is_tree, is_parent, is_author, parent_down};

use date::Stamp;
use hash::Kind;
use object::{ObjectId, person};

// What stands at a place of a header: one of the four kinds of line, the committer's with its seconds and zone; a line that is not the one that may
// stand there, or is bad; or nothing more to read. It has what a walk over commits asks of a line and no more, so a tree's id and an
// author's bytes are left out.
#[derive(Clone, Copy)]
pub enum Token {
    Tree,
    Parent(ObjectId),
    Author,
    Committer(Stamp),
    Bad,
    End,
}

// Which line may stand at a place: the tree line; a parent line, else the author line; the committer line; none, since nothing more is read.
#[derive(Clone, Copy)]
pub enum State {
    Tree,
    Parents,
    Committer,
    Done,
}

// A place of a header.
#[derive(Clone, Copy)]
pub struct Place {
    pub at: usize,
    pub state: State,
}

// One commit's body, the place of the line that is read next, and the kind of the ids in it.
#[derive(Clone, Copy)]
pub struct CommitRefIter<'a> {
    pub data: &'a [u8],
    pub place: Place,
    pub kind: Kind,
}

// The token at a place where a line may stand and no good one does.
fn no_line(data: &[u8], at: usize) -> Token
    ensures { result ≡ missing «data».now at }
{
    if at < data.len() {
        Token::Bad
    } else {
        Token::End
    }
}

// The token where the tree line may stand.
fn tree_token(kind: Kind, data: &[u8], at: usize) -> Token
    ensures { result ≡ token_at (width_of kind) «data».now (here at State.Tree) }
{
    match object::tree_line(kind, data, at) {
        Some(_) => Token::Tree,
        None => no_line(data, at),
    }
}

// The token where the author line may stand, and no parent line does.
fn author_token(data: &[u8], at: usize) -> Token
    ensures { result ≡ token_of «data».now (here at State.Parents) (author_told (author_line (drop at «data».now))) }
{
    match person::author_line(data, at) {
        Some(_) => Token::Author,
        None => no_line(data, at),
    }
}

// The token where a parent line may stand, else the author line.
fn parent_token(kind: Kind, data: &[u8], at: usize) -> Token
    ensures { result ≡ token_at (width_of kind) «data».now (here at State.Parents) }
{
    match object::parent_line(kind, data, at) {
        Some(id) => Token::Parent(id),
        None => author_token(data, at),
    }
}

// The token where the committer line may stand.
fn committer_token(data: &[u8], at: usize) -> Token
    ensures { result ≡ token_of «data».now (here at State.Committer) (committer_told (committer_line (drop at «data».now))) }
{
    match person::committer_line(data, at) {
        Some(stamp) => Token::Committer(stamp),
        None => no_line(data, at),
    }
}

// The token that stands at a place.
fn token_at(data: &[u8], place: Place, kind: Kind) -> Token
    ensures { result ≡ token_at (width_of kind) «data».now place }
{
    let at = place.at;
    match place.state {
        State::Tree => tree_token(kind, data, at),
        State::Parents => parent_token(kind, data, at),
        State::Committer => committer_token(data, at),
        State::Done => Token::End,
    }
}

// The place where nothing more is read.
fn no_more(data: &[u8]) -> Place
    ensures { result ≡ ended «data».now }
{
    Place {
        at: data.len(),
        state: State::Done,
    }
}

// The place after the tree line, where it may stand.
fn after_tree(kind: Kind, data: &[u8], at: usize) -> Place
    ensures { result ≡ after_token (width_of kind) «data».now (here at State.Tree) }
{
    match object::tree_line(kind, data, at) {
        Some(next) => Place {
            at: next,
            state: State::Parents,
        },
        None => no_more(data),
    }
}

// The place after the author line, where it may stand and no parent line does.
fn after_author(data: &[u8], at: usize) -> Place
    ensures { result ≡ place_of «data».now (author_told (author_line (drop at «data».now))) }
{
    match person::author_line(data, at) {
        Some(next) => Place {
            at: next,
            state: State::Committer,
        },
        None => no_more(data),
    }
}

// The place after a parent line, else after the author line.
fn after_parent(kind: Kind, data: &[u8], at: usize) -> Place
    ensures { result ≡ after_token (width_of kind) «data».now (here at State.Parents) }
{
    if object::is_parent_line(kind, data, at) {
        return Place {
            at: at + object::parent_size(kind),
            state: State::Parents,
        };
    }
    after_author(data, at)
}

// The place after the token that stands at a place. The committer line is the last that is read, so it need not be looked at.
fn after_token(data: &[u8], place: Place, kind: Kind) -> Place
    ensures { result ≡ after_token (width_of kind) «data».now place }
{
    let at = place.at;
    match place.state {
        State::Tree => after_tree(kind, data, at),
        State::Parents => after_parent(kind, data, at),
        State::Committer | State::Done => no_more(data),
    }
}

// The token at the struct's place.
pub fn next<'a>(it: CommitRefIter<'a>) -> Token
    ensures { result ≡ token_at (width_of it.entry.kind) it.entry.data.now it.entry.place }
{
    token_at(it.data, it.place, it.kind)
}

// The struct at the place after its token.
pub fn advanced<'a>(it: CommitRefIter<'a>) -> CommitRefIter<'a>
    ensures { (result.data ≡ it.entry.data) × (result.place ≡ after_token (width_of it.entry.kind) it.entry.data.now it.entry.place) × (result.kind ≡ it.entry.kind) }
{
    let place = after_token(it.data, it.place, it.kind);
    CommitRefIter {
        data: it.data,
        place,
        kind: it.kind,
    }
}

// The token at a place of a body, read by the struct.
pub fn read_token(kind: Kind, data: &[u8], place: Place) -> Token
    ensures { result ≡ token_at (width_of kind) «data».now place }
{
    next(CommitRefIter { data, place, kind })
}

// The place after it, by the struct.
pub fn place_after(kind: Kind, data: &[u8], place: Place) -> Place
    ensures { result ≡ after_token (width_of kind) «data».now place }
{
    let it = advanced(CommitRefIter { data, place, kind });
    it.place
}

// Whether nothing more is read at a place.
pub fn is_done(place: Place) -> bool
    ensures { result ≡ is_done place.state }
{
    matches!(place.state, State::Done)
}

// The farthest place of a body.
const LAST: usize = 18446744073709551615;

// Where line k stands, of lines of this size that begin at `first`; the farthest place where that one is past it.
fn line_place(first: usize, size: usize, k: usize) -> usize
    requires { 0 < size }
    ensures { result ≡ min (first + size * k) last }
{
    if (LAST - first) / size < k {
        return LAST;
    }
    first + size * k
}

// The place after the tree line and k parent lines, where the next parent stands, or the author where there are no more; the farthest
// place where that one is past it. Each kind has a call of its own, so that the compiled code divides and multiplies by constants.
pub fn parents_place(kind: Kind, k: usize) -> Place
    ensures { result ≡ parents_place (width_of kind) k }
{
    let at = match kind {
        Kind::Sha1 => {
            line_place(
                object::tree_size(Kind::Sha1),
                object::parent_size(Kind::Sha1),
                k,
            )
        }
        Kind::Sha256 => {
            line_place(
                object::tree_size(Kind::Sha256),
                object::parent_size(Kind::Sha256),
                k,
            )
        }
    };
    Place {
        at,
        state: State::Parents,
    }
}

// Whether a tree stands at the start of a body.
pub fn is_tree(kind: Kind, data: &[u8]) -> bool
    ensures { result ≡ is_tree (token_at (width_of kind) «data».now start) }
{
    object::tree_line(kind, data, 0).is_some()
}

// Whether a parent stands at a place where parents may stand.
pub fn is_parent(kind: Kind, data: &[u8], at: usize) -> bool
    ensures { result ≡ is_parent (token_at (width_of kind) «data».now (here at State.Parents)) }
{
    object::is_parent_line(kind, data, at)
}

// Whether an author stands at such a place, whatever the kind of the ids.
pub fn is_author(data: &[u8], at: usize) -> bool
    ensures { (w : ℕ) → result ≡ is_author (token_at w «data».now (here at State.Parents)) }
{
    person::author_line(data, at).is_some()
}

// Sets down the id of the parent at such a place as number k of a list of ids, where it fits: its digits are decoded there, and no token is made.
// Where no parent stands nothing is changed.
pub fn put_parent(kind: Kind, data: &[u8], at: usize, out: &mut [u8], k: usize) -> bool
    ensures { (result ≡ is_parent (token_at (width_of kind) «data».now (here at State.Parents))) × (out.new ≡ parent_down (width_of kind) k (token_at (width_of kind) «data».now (here at State.Parents)) out.old) }
{
    object::put_parent(kind, data, at, out, k)
}
