// Makes the report of each case of standard input, and prints it: `whole` or `refused` and the number, then the report's numbers.
// A case is the reader's letter, the width of ids, the settings, the lengths of the six buffers to lend and the parts; before it stands its own length,
// at most 65,536. tools/make_reports.py says where each stands, and makes them.
#![tactic(auto)]

ghost use Rattle.std.specs.Prelude.{◌≤◌, ◌<◌};

use reports::{FeedReport, Reader};
use std::io;
use walk::{Refusal, Settings};

fn text(rt: &impl Print, s: &[u8]) -> io::Result<()> {
    host::write_all(rt, s)
}

// A number after a space.
fn print_number(rt: &impl Print, n: u64) -> io::Result<()> {
    text(rt, b" ")?;
    host::print_decimal(rt, n)
}

// A signed number after a space.
fn print_signed(rt: &impl Print, n: i64) -> io::Result<()> {
    let s = date::Seconds(n);
    if date::is_negative(s) {
        text(rt, b" -")?;
    } else {
        text(rt, b" ")?;
    }
    host::print_decimal(rt, date::magnitude(s))
}

fn print_outcome(rt: &impl Print, o: Result<(), Refusal>) -> io::Result<()> {
    match o {
        Ok(()) => text(rt, b"whole"),
        Err(r) => {
            text(rt, b"refused")?;
            print_number(rt, walk::number(r) as u64)
        }
    }
}

fn print_feed(rt: &impl Print, r: FeedReport) -> io::Result<()> {
    let o = r.outcome;
    print_outcome(rt, o)?;
    print_number(rt, r.both)?;
    print_number(rt, r.cone)?;
    print_number(rt, r.bed)?;
    print_number(rt, r.neither)?;
    print_number(rt, r.cone_sum)?;
    print_number(rt, r.bed_sum)?;
    print_signed(rt, r.difference)?;
    text(rt, b"\n")
}

fn wide(x: u32) -> usize
    ensures { result < 4294967296 }
{
    x as usize
}

// The number at a place of a case's head.
fn number_at(head: &[u8], at: usize) -> usize
    ensures { result < 4294967296 }
{
    wide(hash::be32(head, at))
}

// How many elements of a buffer are lent: the length at a place of the head, at most the whole.
fn lent(head: &[u8], at: usize, most: usize) -> usize
    ensures { result ≤ most }
{
    let n = number_at(head, at);
    if most < n { most } else { n }
}

// A number of 63 bits.
fn low(n: u64) -> i64 {
    (n % 9223372036854775808) as i64
}

// The width of ids and the settings of a case.
fn settings(head: &[u8]) -> Settings {
    wire::settings_of(
        hash::be32(head, 1),
        hash::be32(head, 5),
        hash::be32(head, 9),
        low(hash::be64(head, 17)),
        hash::be32(head, 13),
    )
}

// Who the report of a case is for.
fn reader(head: &[u8]) -> Reader {
    if 0 < head.len() && head[0] == b'o' {
        Reader::Outside
    } else {
        Reader::Shop
    }
}

// The feed report of a case.
fn run_feed(
    rt: &impl Print,
    input: &[u8],
    names: &mut [u8],
    marks: &mut [u8],
    levels: &mut [u32],
    times: &mut [i64],
    line: &mut [u32],
    parents: &mut [u8],
) -> io::Result<()> {
    let s = number_at(input, 49);
    let g = number_at(input, 53);
    let t = number_at(input, 57);
    let h = number_at(input, 61);
    let e = number_at(input, 65);
    let b = number_at(input, 69);
    print_feed(
        rt,
        reports::feed_report(
            hash::part(input, 73, s),
            hash::part(input, 73 + s, g),
            hash::part(input, 73 + s + g, t),
            hash::part(input, 73 + s + g + t, h),
            hash::part(input, 73 + s + g + t + h, e),
            settings(input),
            hash::part(input, 73 + s + g + t + h + e, b),
            reader(input),
            names,
            marks,
            levels,
            times,
            line,
            parents,
        ),
    )
}

// Lends the buffers, each as long as the head says, to the report.
fn lend(
    rt: &impl Print,
    input: &[u8],
    names: &mut [u8],
    marks: &mut [u8],
    levels: &mut [u32],
    times: &mut [i64],
    line: &mut [u32],
    parents: &mut [u8],
) -> io::Result<()> {
    let a = lent(input, 25, names.len());
    let b = lent(input, 29, marks.len());
    let c = lent(input, 33, levels.len());
    let d = lent(input, 37, times.len());
    let e = lent(input, 41, line.len());
    let f = lent(input, 45, parents.len());
    run_feed(
        rt,
        input,
        &mut names[..a],
        &mut marks[..b],
        &mut levels[..c],
        &mut times[..d],
        &mut line[..e],
        &mut parents[..f],
    )
}

// A case, in memory for 512 places of either kind.
fn run_case(rt: &impl Print, input: &[u8]) -> io::Result<()> {
    let mut names = [0u8; 16384];
    let mut marks = [0u8; 512];
    let mut levels = [0u32; 512];
    let mut times = [0i64; 512];
    let mut line = [0u32; 2560];
    let mut parents = [0u8; 8192];
    lend(
        rt,
        input,
        &mut names,
        &mut marks,
        &mut levels,
        &mut times,
        &mut line,
        &mut parents,
    )
}

// Reads and runs the next case, and answers whether there was one.
fn run_next(rt: &(impl Input + Print), space: &mut [u8]) -> io::Result<bool> {
    let mut head = [0u8; 4];
    let got = host::read_input(rt, &mut head)?;
    if got < 4 {
        return Ok(false);
    }
    let n = wide(hash::be32(&head, 0));
    if space.len() < n {
        return Ok(false);
    }
    let all = host::read_input(rt, &mut space[..n])?;
    if all < n {
        return Ok(false);
    }
    run_case(rt, &space[..n])?;
    Ok(true)
}

// A proved loop has to end, and nothing says that the input does. So the loop counts its turns, up to a number that no run uses up.
fn main(rt: HostRuntime) -> io::Result<()> {
    let mut space = host::large_buffer();
    for _ in 0..u64::MAX {
        if !run_next(&rt, &mut space)? {
            break;
        }
    }
    Ok(())
}
