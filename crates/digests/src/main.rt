// Runs the vectors of standard input: digests of a message lent in two parts, ids of commits, and checks of a store and a graph file.
// A case is what it asks (one byte) and two parts, each a big-endian u32 length and its bytes, and before it stands its own length, at most
// 65,536. tools/make_digests.py makes them.
#![tactic(auto)]

use hash::Kind;
use std::io;

fn hex(rt: &impl Print, s: &[u8]) -> io::Result<()> {
    host::print_bytes(rt, s)?;
    println!(rt;)
}

// The digest of both parts.
fn print_digest(rt: &impl Print, kind: Kind, head: &[u8], body: &[u8]) -> io::Result<()> {
    let mut out = [0u8; 32];
    commitid::set_digest(kind, head, body, &mut out, 0);
    hex(rt, hash::part(&out, 0, hash::width(kind)))
}

// The id of the commit with this body.
fn print_id(rt: &impl Print, kind: Kind, body: &[u8]) -> io::Result<()> {
    let mut out = [0u8; 32];
    commitid::set_commit_id(kind, body, &mut out, 0);
    hex(rt, hash::part(&out, 0, hash::width(kind)))
}

// The check of a store and a graph file: the refusal's number, and the entry's.
fn print_check(rt: &impl Print, kind: Kind, store: &[u8], graph: &[u8]) -> io::Result<()> {
    let r = fsck::check_names(kind, store, graph);
    println!(rt; "{} {}", fsck::number(r.outcome), r.entry)
}

fn case(rt: &impl Print, asked: u8, a: &[u8], b: &[u8]) -> io::Result<()> {
    match asked {
        1 => print_digest(rt, Kind::Sha1, a, b),
        2 => print_digest(rt, Kind::Sha256, a, b),
        3 => print_id(rt, Kind::Sha1, a),
        4 => print_id(rt, Kind::Sha256, a),
        5 => print_check(rt, Kind::Sha1, a, b),
        _ => print_check(rt, Kind::Sha256, a, b),
    }
}

fn wide(x: u32) -> usize {
    x as usize
}

// The bytes of s from place i on.
fn rest(s: &[u8], i: usize) -> &[u8] {
    hash::part(s, i, s.len())
}

// The part that stands at the front with its length before it, and what follows it.
fn front(s: &[u8]) -> &[u8] {
    hash::part(s, 4, wide(hash::be32(s, 0)))
}

fn after_front(s: &[u8]) -> &[u8] {
    rest(rest(s, 4), wide(hash::be32(s, 0)))
}

fn run_case(rt: &impl Print, input: &[u8]) -> io::Result<()> {
    let a = rest(input, 1);
    case(rt, hash::byte_at(input, 0), front(a), front(after_front(a)))
}

// How many bytes the next case has, 0 where the input ends.
fn next_size(rt: &impl Input) -> io::Result<usize> {
    let mut head = [0u8; 4];
    let got = host::read_input(rt, &mut head)?;
    if got < 4 {
        return Ok(0);
    }
    Ok(wide(hash::be32(&head, 0)))
}

// Reads and runs the next case, and answers whether there was one.
fn run_next(rt: &(impl Input + Print), space: &mut [u8]) -> io::Result<bool> {
    let n = next_size(rt)?;
    if n == 0 {
        return Ok(false);
    }
    if space.len() < n {
        return Ok(false);
    }
    let got = host::read_input(rt, &mut space[..n])?;
    if got < n {
        return Ok(false);
    }
    run_case(rt, &space[..n])?;
    Ok(true)
}

// A proved loop has to end, and nothing says that the input does. So the loop counts its turns, up to a number that no run uses up.
fn main(rt: HostRuntime) -> io::Result<()> {
    let mut space = host::large_buffer();
    for _ in 0..u64::MAX {
        if !run_next(&rt, &mut space)? {
            break;
        }
    }
    Ok(())
}
