// Finds where two tips part, for each case of standard input, and prints it: the commit's id, `none`, or the refusal's number.
// A case is the kind of ids (1 SHA-1, 2 SHA-256), two ids, the lengths of the six buffers to lend (big-endian u32s: names, marks, levels, times, line,
// parents) and the commit store, and before it stands its own length, at most 65,536. tools/make_partings.py makes them.
#![tactic(auto)]

ghost use Rattle.std.specs.Prelude.{◌≤◌};

use hash::Kind;
use object::ObjectId;
use std::io;
use walk::Refusal;

fn text(rt: &impl Print, s: &[u8]) -> io::Result<()> {
    host::write_all(rt, s)
}

// An id in hexadecimal digits, two for each byte of its width.
fn id(rt: &impl Print, kind: Kind, s: &[u8]) -> io::Result<()> {
    host::print_bytes(rt, hash::part(s, 0, hash::width(kind)))
}

// A refusal by its number.
fn refusal(rt: &impl Print, r: Refusal) -> io::Result<()> {
    text(rt, b"refused ")?;
    host::print_decimal(rt, walk::number(r) as u64)
}

// An answer on a line.
fn print_base(
    rt: &impl Print,
    kind: Kind,
    said: Result<Option<ObjectId>, Refusal>,
) -> io::Result<()> {
    match said {
        Ok(Some(commit)) => id(rt, kind, &commit.bytes)?,
        Ok(None) => text(rt, b"none")?,
        Err(r) => refusal(rt, r)?,
    }
    text(rt, b"\n")
}

fn wide(x: u32) -> usize {
    x as usize
}

// How many elements of a buffer are lent: the length at place k of the list, at most the whole.
fn lent(lengths: &[u8], k: usize, most: usize) -> usize
    ensures { result ≤ most }
{
    let n = wide(hash::be32(lengths, k));
    if most < n { most } else { n }
}

fn kind_of(b: u8) -> Kind {
    if b == 2 { Kind::Sha256 } else { Kind::Sha1 }
}

// What follows an id.
fn after_id(kind: Kind, s: &[u8]) -> &[u8] {
    hash::part(s, hash::width(kind), s.len())
}

// Lends the buffers, each as long as the list says, to the call.
fn lend(
    rt: &impl Print,
    kind: Kind,
    tips: &[u8],
    lengths: &[u8],
    store: &[u8],
    names: &mut [u8],
    marks: &mut [u8],
    levels: &mut [u32],
    times: &[i64],
    line: &mut [u32],
    parents: &[u8],
) -> io::Result<()> {
    let a = lent(lengths, 0, names.len());
    let b = lent(lengths, 4, marks.len());
    let c = lent(lengths, 8, levels.len());
    let d = lent(lengths, 12, times.len());
    let e = lent(lengths, 16, line.len());
    let f = lent(lengths, 20, parents.len());
    let said = mergebase::merge_base(
        kind,
        store,
        object::id_of(hash::nth(kind, tips, 0)),
        object::id_of(hash::nth(kind, tips, 1)),
        &mut names[..a],
        &mut marks[..b],
        &mut levels[..c],
        &times[..d],
        &mut line[..e],
        &parents[..f],
    );
    print_base(rt, kind, said)
}

// A case, in memory for 512 places of either kind.
fn run_case(rt: &impl Print, input: &[u8]) -> io::Result<()> {
    let mut names = [0u8; 16384];
    let mut marks = [0u8; 512];
    let mut levels = [0u32; 512];
    let times = [0i64; 512];
    let mut line = [0u32; 2560];
    let parents = [0u8; 8192];
    let kind = kind_of(hash::byte_at(input, 0));
    let tips = hash::part(input, 1, input.len());
    let rest = after_id(kind, after_id(kind, tips));
    lend(
        rt,
        kind,
        tips,
        hash::part(rest, 0, 24),
        hash::part(rest, 24, rest.len()),
        &mut names,
        &mut marks,
        &mut levels,
        &times,
        &mut line,
        &parents,
    )
}

// How many bytes the next case has, 0 where the input ends.
fn next_size(rt: &impl Input) -> io::Result<usize> {
    let mut head = [0u8; 4];
    let got = host::read_input(rt, &mut head)?;
    if got < 4 {
        return Ok(0);
    }
    Ok(wide(hash::be32(&head, 0)))
}

// Reads and runs the next case, and answers whether there was one.
fn run_next(rt: &(impl Input + Print), space: &mut [u8]) -> io::Result<bool> {
    let n = next_size(rt)?;
    if n == 0 {
        return Ok(false);
    }
    if space.len() < n {
        return Ok(false);
    }
    let got = host::read_input(rt, &mut space[..n])?;
    if got < n {
        return Ok(false);
    }
    run_case(rt, &space[..n])?;
    Ok(true)
}

// A proved loop has to end, and nothing says that the input does. So the loop counts its turns, up to a number that no run uses up.
fn main(rt: HostRuntime) -> io::Result<()> {
    let mut space = host::large_buffer();
    for _ in 0..u64::MAX {
        if !run_next(&rt, &mut space)? {
            break;
        }
    }
    Ok(())
}
