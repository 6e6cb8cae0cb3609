// Prints the first day of each month of the calendar and of the one past it; then makes the report by terms of each case of standard input, and prints it: `whole`
// or `refused` and the number, the counts, among them two past the most terms, and the commits outside.
// A case is the width of ids, the settings and the parts; before it stands its own length, at most 65,536. tools/make_terms.py says where each stands, and
// makes them.
#![tactic(auto)]

ghost use Rattle.std.specs.Prelude.{◌<◌};

use std::io;
use termsreport::TermsReport;
use walk::{Refusal, Settings};

fn text(rt: &impl Print, s: &[u8]) -> io::Result<()> {
    host::write_all(rt, s)
}

// A number after a space.
fn print_number(rt: &impl Print, n: u64) -> io::Result<()> {
    text(rt, b" ")?;
    host::print_decimal(rt, n)
}

// The first day of every month, 12 a line.
fn print_days(rt: &impl Print) -> io::Result<()> {
    for m in 0..1561usize {
        print_number(rt, calendar::months::first_day(m))?;
        if m % 12 == 11 {
            text(rt, b"\n")?;
        }
    }
    text(rt, b"\n")
}

fn print_outcome(rt: &impl Print, o: Result<(), Refusal>) -> io::Result<()> {
    match o {
        Ok(()) => text(rt, b"whole"),
        Err(r) => {
            text(rt, b"refused")?;
            print_number(rt, walk::number(r) as u64)
        }
    }
}

fn print_counts(rt: &impl Print, counts: &[u64]) -> io::Result<()> {
    for i in 0..counts.len() {
        print_number(rt, counts[i])?;
    }
    Ok(())
}

fn print_report(rt: &impl Print, r: TermsReport, counts: &[u64]) -> io::Result<()> {
    let o = r.outcome;
    print_outcome(rt, o)?;
    print_counts(rt, counts)?;
    text(rt, b" outside")?;
    print_number(rt, r.outside)?;
    text(rt, b"\n")
}

fn wide(x: u32) -> usize
    ensures { result < 4294967296 }
{
    x as usize
}

// The number at a place of a case's head.
fn number_at(head: &[u8], at: usize) -> usize
    ensures { result < 4294967296 }
{
    wide(hash::be32(head, at))
}

// A number of 63 bits.
fn low(n: u64) -> i64 {
    (n % 9223372036854775808) as i64
}

// The width of ids and the settings of a case.
fn settings(head: &[u8]) -> Settings {
    wire::settings_of(
        hash::be32(head, 0),
        hash::be32(head, 4),
        hash::be32(head, 8),
        low(hash::be64(head, 16)),
        hash::be32(head, 12),
    )
}

// Where month i stands among the first 64.
fn place_of(i: usize) -> usize {
    if i < 64 { i * 4 } else { 0 }
}

// Reads as many months as there are places for them.
fn read_months(part: &[u8], months: &mut [u32]) {
    for i in 0..months.len() {
        months[i] = hash::be32(part, place_of(i));
    }
}

// The report of a case.
fn run_terms(
    rt: &impl Print,
    input: &[u8],
    months: &[u32],
    names: &mut [u8],
    marks: &mut [u8],
    levels: &mut [u32],
    times: &mut [i64],
    line: &mut [u32],
    parents: &mut [u8],
    counts: &mut [u64],
) -> io::Result<()> {
    let s = number_at(input, 24);
    let g = number_at(input, 28);
    let t = number_at(input, 32);
    let h = number_at(input, 36);
    let e = number_at(input, 40);
    let r = termsreport::terms_report(
        hash::part(input, 48, s),
        hash::part(input, 48 + s, g),
        hash::part(input, 48 + s + g, t),
        hash::part(input, 48 + s + g + t, h),
        hash::part(input, 48 + s + g + t + h, e),
        settings(input),
        months,
        names,
        marks,
        levels,
        times,
        line,
        parents,
        counts,
    );
    print_report(rt, r, counts)
}

// A case, in memory for 512 places of either kind.
fn run_in_memory(rt: &impl Print, input: &[u8], months: &[u32]) -> io::Result<()> {
    let mut names = [0u8; 16384];
    let mut marks = [0u8; 512];
    let mut levels = [0u32; 512];
    let mut times = [0i64; 512];
    let mut line = [0u32; 2560];
    let mut parents = [0u8; 8192];
    let mut counts = [7u64; 26];
    run_terms(
        rt,
        input,
        months,
        &mut names,
        &mut marks,
        &mut levels,
        &mut times,
        &mut line,
        &mut parents,
        &mut counts,
    )
}

// A case with the first n of these months, or with all.
fn run_first(rt: &impl Print, input: &[u8], months: &[u32], n: usize) -> io::Result<()> {
    if n < months.len() {
        run_in_memory(rt, input, &months[..n])?;
    } else {
        run_in_memory(rt, input, months)?;
    }
    Ok(())
}

// The months stand at the case's end.
fn run_case(rt: &impl Print, input: &[u8]) -> io::Result<()> {
    let m = number_at(input, 44);
    let mut months = [0u32; 64];
    if input.len() < m {
        return Ok(());
    }
    let part = hash::part(input, input.len() - m, m);
    read_months(part, &mut months);
    run_first(rt, input, &months, m / 4)
}

// Reads and runs the next case, and answers whether there was one.
fn run_next(rt: &(impl Input + Print), space: &mut [u8]) -> io::Result<bool> {
    let mut head = [0u8; 4];
    let got = host::read_input(rt, &mut head)?;
    if got < 4 {
        return Ok(false);
    }
    let n = wide(hash::be32(&head, 0));
    if space.len() < n {
        return Ok(false);
    }
    let all = host::read_input(rt, &mut space[..n])?;
    if all < n {
        return Ok(false);
    }
    run_case(rt, &space[..n])?;
    Ok(true)
}

// A proved loop has to end, and nothing says that the input does. So the loop counts its turns, up to a number that no run uses up.
fn main(rt: HostRuntime) -> io::Result<()> {
    print_days(&rt)?;
    let mut space = host::large_buffer();
    for _ in 0..u64::MAX {
        if !run_next(&rt, &mut space)? {
            break;
        }
    }
    Ok(())
}
