// Prints the two readings of commits' messages, cone and bed, a line for each commit: millimetres, `-` where there is none, or `! ` and the number of
// the refusal. Standard input, up to 65,536 bytes of it, has for each commit a byte that says how many bytes its body has, and then the body.
#![tactic(auto)]

ghost use Rattle.std.specs.Prelude.{◌≤◌};

use feed::Feed;
use std::io;
use walk::Refusal;

fn text(rt: &impl Print, s: &[u8]) -> io::Result<()> {
    host::write_all(rt, s)
}

fn number(rt: &impl Print, n: u64) -> io::Result<()> {
    host::print_decimal(rt, n)
}

fn reading(rt: &impl Print, r: Option<u64>) -> io::Result<()> {
    match r {
        Some(n) => number(rt, n),
        None => text(rt, b"-"),
    }
}

fn print(rt: &impl Print, read: Result<Feed, Refusal>) -> io::Result<()> {
    match read {
        Ok(f) => {
            let cone = f.cone;
            let bed = f.bed;
            reading(rt, cone)?;
            text(rt, b" ")?;
            reading(rt, bed)?;
        }
        Err(r) => {
            text(rt, b"! ")?;
            number(rt, walk::number(r) as u64)?;
        }
    }
    text(rt, b"\n")
}

// How many bytes a commit takes, its length's byte included.
fn wide(x: u8) -> usize
    ensures { 1 ≤ result }
{
    1 + x as usize
}

fn commits(rt: &impl Print, s: &[u8]) -> io::Result<()> {
    let mut at = 0;
    // Each case says where the next one begins.
    while at < s.len() {
        let n = wide(s[at]);
        let body = hash::part(s, at, n);
        print(rt, feed::read(hash::part(body, 1, n)))?;
        if s.len() - at <= n {
            return Ok(());
        }
        at += n;
    }
    Ok(())
}

fn main(rt: HostRuntime) -> io::Result<()> {
    let mut space = host::large_buffer();
    let n = host::read_input(&rt, &mut space)?;
    commits(&rt, &space[..n])
}
