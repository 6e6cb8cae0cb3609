// Prints the tokens of commits' headers, a line each, and an empty line after each commit. Standard input, up to 65,536 bytes of it, has a byte
// for the id kind, `1` or `2`, then a commit's body, then a zero byte, for each commit. Beside the good ones there are headers whose lines
// do not stand where they may.
#![tactic(auto)]

ghost use Rattle.std.specs.Prelude.{◌≤◌, length};

use commititer::{Place, State, Token};
use date::{Seconds, Stamp};
use hash::Kind;
use std::io;

fn text(rt: &impl Print, s: &[u8]) -> io::Result<()> {
    host::write_all(rt, s)
}

fn seconds(rt: &impl Print, s: Seconds) -> io::Result<()> {
    print!(rt; "{}", s.0)
}

// The committer's seconds, and its zone in signed minutes.
fn stamp(rt: &impl Print, s: Stamp) -> io::Result<()> {
    let time = s.seconds;
    seconds(rt, time)?;
    let zone = s.zone;
    match zone {
        Some(m) => {
            text(rt, b" zone ")?;
            seconds(rt, Seconds(m))
        }
        None => text(rt, b" zone none"),
    }
}

fn print(rt: &impl Print, kind: Kind, token: Token) -> io::Result<()> {
    match token {
        Token::Tree => text(rt, b"tree")?,
        Token::Parent(id) => {
            text(rt, b"parent ")?;
            host::print_bytes(rt, hash::part(&id.bytes, 0, hash::width(kind)))?;
        }
        Token::Author => text(rt, b"author")?,
        Token::Committer(s) => {
            text(rt, b"committer ")?;
            stamp(rt, s)?;
        }
        Token::Bad => text(rt, b"bad")?,
        Token::End => text(rt, b"end")?,
    }
    text(rt, b"\n")
}

// Every token from the start on, the end included.
fn tokens(rt: &impl Print, kind: Kind, body: &[u8]) -> io::Result<()> {
    let mut place = Place {
        at: 0,
        state: State::Tree,
    };
    // Token by token, until the reader says that it is done.
    while !commititer::is_done(place) {
        let token = commititer::read_token(kind, body, place);
        print(rt, kind, token)?;
        if matches!(token, Token::End) {
            return Ok(());
        }
        place = commititer::place_after(kind, body, place);
    }
    print(rt, kind, commititer::read_token(kind, body, place))
}

fn kind_of(b: u8) -> Kind {
    if b == 50 { Kind::Sha256 } else { Kind::Sha1 }
}

// The place of the first zero byte from a place on, or the end.
fn zero_from(s: &[u8], at: usize) -> usize
    requires { at ≤ length s.now }
    ensures { (at ≤ result) × (result ≤ length s.now) }
{
    for i in at..s.len() {
        if s[i] == 0 {
            return i;
        }
    }
    s.len()
}

fn commits(rt: &impl Print, s: &[u8]) -> io::Result<()> {
    let mut at = 0;
    // Each case says where the next one begins.
    while at < s.len() {
        let kind = kind_of(s[at]);
        let end = zero_from(s, at + 1);
        tokens(rt, kind, &s[at + 1..end])?;
        text(rt, b"\n")?;
        if end == s.len() {
            return Ok(());
        }
        at = end + 1;
    }
    Ok(())
}

fn main(rt: HostRuntime) -> io::Result<()> {
    let mut space = host::large_buffer();
    let n = host::read_input(&rt, &mut space)?;
    commits(&rt, &space[..n])
}
