// Traces by turns, for each case of standard input, and prints what is said: `not forced`, `at the start`, the number and the id of the first forcing parent,
// or the refusal's number. A case is the kind of ids (1 SHA-1, 2 SHA-256), a start, the moves, the length of the memo to lend and that of the list
// (big-endian u32s), the list and the commit store, and before it stands its own length, at most 65,536. tools/make_traces.py makes them.
#![tactic(auto)]

ghost use Rattle.std.specs.Prelude.{◌≤◌};

use hash::Kind;
use std::io;
use trace::Prospect;
use walk::Refusal;

fn text(rt: &impl Print, s: &[u8]) -> io::Result<()> {
    host::write_all(rt, s)
}

// An id in hexadecimal digits, two for each byte of its width.
fn id(rt: &impl Print, kind: Kind, s: &[u8]) -> io::Result<()> {
    host::print_bytes(rt, hash::part(s, 0, hash::width(kind)))
}

// A refusal by its number.
fn refusal(rt: &impl Print, r: Refusal) -> io::Result<()> {
    text(rt, b"refused ")?;
    host::print_decimal(rt, walk::number(r) as u64)
}

// An answer on a line.
fn print_traced(rt: &impl Print, kind: Kind, said: Result<Prospect, Refusal>) -> io::Result<()> {
    match said {
        Ok(Prospect::NotForced) => text(rt, b"not forced")?,
        Ok(Prospect::AtStart) => text(rt, b"at the start")?,
        Ok(Prospect::Forced { number, parent }) => {
            host::print_decimal(rt, number as u64)?;
            text(rt, b" ")?;
            id(rt, kind, &parent.bytes)?;
        }
        Err(r) => refusal(rt, r)?,
    }
    text(rt, b"\n")
}

fn wide(x: u32) -> usize {
    x as usize
}

// How many bytes of the memo are lent, at most the whole.
fn lent(n: u32, most: usize) -> usize
    ensures { result ≤ most }
{
    let n = wide(n);
    if most < n { most } else { n }
}

fn kind_of(b: u8) -> Kind {
    if b == 2 { Kind::Sha256 } else { Kind::Sha1 }
}

// Lends the memo, as long as the case says, to the call.
fn lend(
    rt: &impl Print,
    kind: Kind,
    start: &[u8],
    input: &[u8],
    memo: &mut [u8],
) -> io::Result<()> {
    let a = lent(hash::be32(input, 4), memo.len());
    let n = wide(hash::be32(input, 8));
    let rest = hash::part(input, 12, input.len());
    let traced = trace::trace(
        kind,
        hash::part(rest, n, rest.len()),
        object::id_of(start),
        hash::part(rest, 0, n),
        wide(hash::be32(input, 0)),
        &mut memo[..a],
    );
    print_traced(rt, kind, traced)
}

// A case, with a memo for 256 entries that nobody has cleared.
fn run_case(rt: &impl Print, input: &[u8]) -> io::Result<()> {
    let mut memo = [2u8; 6656];
    let kind = kind_of(hash::byte_at(input, 0));
    let rest = hash::part(input, 1, input.len());
    lend(
        rt,
        kind,
        hash::nth(kind, rest, 0),
        hash::part(rest, hash::width(kind), rest.len()),
        &mut memo,
    )
}

// How many bytes the next case has, 0 where the input ends.
fn next_size(rt: &impl Input) -> io::Result<usize> {
    let mut head = [0u8; 4];
    let got = host::read_input(rt, &mut head)?;
    if got < 4 {
        return Ok(0);
    }
    Ok(wide(hash::be32(&head, 0)))
}

// Reads and runs the next case, and answers whether there was one.
fn run_next(rt: &(impl Input + Print), space: &mut [u8]) -> io::Result<bool> {
    let n = next_size(rt)?;
    if n == 0 {
        return Ok(false);
    }
    if space.len() < n {
        return Ok(false);
    }
    let got = host::read_input(rt, &mut space[..n])?;
    if got < n {
        return Ok(false);
    }
    run_case(rt, &space[..n])?;
    Ok(true)
}

// A proved loop has to end, and nothing says that the input does. So the loop counts its turns, up to a number that no run uses up.
fn main(rt: HostRuntime) -> io::Result<()> {
    let mut space = host::large_buffer();
    for _ in 0..u64::MAX {
        if !run_next(&rt, &mut space)? {
            break;
        }
    }
    Ok(())
}
