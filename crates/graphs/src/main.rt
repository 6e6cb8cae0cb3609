// Writes the graph file of each store of standard input, and prints a line for it: what is said of its length, what of its writing (the number of
// bytes, or `!` and the refusal's number), and the SHA-1 of the whole output as lent, which is filled with one byte before.
// A case is the kind of ids (one byte: 2 is SHA-256), how many levels and how many bytes of output to lend (big-endian u32s) and the commit store, and
// before it stands its own length, at most 65,536. tools/make_graphs.py makes them.
#![tactic(auto)]

ghost use Rattle.std.specs.Prelude.{◌≤◌};

use hash::Kind;
use std::io;
use walk::Refusal;

// The number of a file's bytes, or a refusal's.
fn print_written(rt: &impl Print, w: Result<usize, Refusal>) -> io::Result<()> {
    match w {
        Ok(n) => print!(rt; "{n} "),
        Err(r) => print!(rt; "!{} ", walk::number(r)),
    }
}

// The SHA-1 of some bytes, on the rest of the line.
fn print_digest(rt: &impl Print, s: &[u8]) -> io::Result<()> {
    let mut out = [0u8; 20];
    commitid::set_digest(Kind::Sha1, hash::part(s, 0, 0), s, &mut out, 0);
    host::print_bytes(rt, &out)?;
    println!(rt;)
}

fn wide(x: u32) -> usize {
    x as usize
}

// How many elements of a buffer are lent: the length at place k of the list, at most the whole.
fn lent(lengths: &[u8], k: usize, most: usize) -> usize
    ensures { result ≤ most }
{
    let n = wide(hash::be32(lengths, k));
    if most < n { most } else { n }
}

fn kind_of(b: u8) -> Kind {
    if b == 2 { Kind::Sha256 } else { Kind::Sha1 }
}

// Lends levels and output, each as long as the list says, to both calls.
fn write(
    rt: &impl Print,
    kind: Kind,
    lengths: &[u8],
    store: &[u8],
    levels: &mut [u32],
    out: &mut [u8],
) -> io::Result<()> {
    let a = lent(lengths, 0, levels.len());
    let b = lent(lengths, 4, out.len());
    print_written(rt, graphwrite::graph_length(kind, store, &mut levels[..a]))?;
    print_written(
        rt,
        graphwrite::write_graph(kind, store, &mut levels[..a], &mut out[..b]),
    )?;
    print_digest(rt, hash::part(out, 0, b))
}

// A case, in memory for 1,024 levels and 40,960 bytes.
fn run_case(rt: &impl Print, input: &[u8]) -> io::Result<()> {
    let mut levels = [7u32; 1024];
    let mut out = [92u8; 40960];
    write(
        rt,
        kind_of(hash::byte_at(input, 0)),
        hash::part(input, 1, 8),
        hash::part(input, 9, input.len()),
        &mut levels,
        &mut out,
    )
}

// How many bytes the next case has, 0 where the input ends.
fn next_size(rt: &impl Input) -> io::Result<usize> {
    let mut head = [0u8; 4];
    let got = host::read_input(rt, &mut head)?;
    if got < 4 {
        return Ok(0);
    }
    Ok(wide(hash::be32(&head, 0)))
}

// Reads and runs the next case, and answers whether there was one.
fn run_next(rt: &(impl Input + Print), space: &mut [u8]) -> io::Result<bool> {
    let n = next_size(rt)?;
    if n == 0 {
        return Ok(false);
    }
    if space.len() < n {
        return Ok(false);
    }
    let got = host::read_input(rt, &mut space[..n])?;
    if got < n {
        return Ok(false);
    }
    run_case(rt, &space[..n])?;
    Ok(true)
}

// A proved loop has to end, and nothing says that the input does. So the loop counts its turns, up to a number that no run uses up.
fn main(rt: HostRuntime) -> io::Result<()> {
    let mut space = host::large_buffer();
    for _ in 0..u64::MAX {
        if !run_next(&rt, &mut space)? {
            break;
        }
    }
    Ok(())
}
