// The cases of the program `swatches`: reads cases from standard input, each a title and an input with their lengths before them
// (big-endian u32), and prints each title and the list of its input. tools/make_swatches.py makes them.
#![tactic(auto)]

use std::io;

// Prints the list of an input.
fn print_list(
    rt: &impl Print,
    input: &[u8],
    names: &mut [u8],
    marks: &mut [u8],
    levels: &mut [u32],
    times: &mut [i64],
    line: &mut [u32],
    parents: &mut [u8],
    out: &mut [u8],
) -> io::Result<()> {
    let n = swatch::list(input, names, marks, levels, times, line, parents, out);
    host::write_all(rt, &out[..n])
}

// The same with memory of its own, as the program `swatches` has it.
fn print_input(rt: &impl Print, input: &[u8]) -> io::Result<()> {
    let mut names = [0u8; 27320];
    let mut marks = [0u8; 1366];
    let mut levels = [0u32; 1366];
    let mut times = [0i64; 1366];
    let mut line = [0u32; 6830];
    let mut parents = [0u8; 5120];
    let mut out = host::large_buffer();
    print_list(
        rt,
        input,
        &mut names,
        &mut marks,
        &mut levels,
        &mut times,
        &mut line,
        &mut parents,
        &mut out,
    )
}

fn wide(x: u32) -> usize {
    x as usize
}

// The number that stands next in the input, 0 where it ends.
fn next_size(rt: &impl Input) -> io::Result<usize> {
    let mut head = [0u8; 4];
    let got = host::read_input(rt, &mut head)?;
    if got < 4 {
        return Ok(0);
    }
    Ok(wide(hash::be32(&head, 0)))
}

// Reads the next part, which has its length before it, into the room; answers how many bytes were read, 0 where it has no room.
fn read_part(rt: &impl Input, room: &mut [u8]) -> io::Result<usize> {
    let n = next_size(rt)?;
    if room.len() < n {
        return Ok(0);
    }
    host::read_input(rt, &mut room[..n])
}

// Reads and runs the next case, and answers whether there was one.
fn run_next(rt: &(impl Input + Print), room: &mut [u8]) -> io::Result<bool> {
    let title = read_part(rt, room)?;
    if title == 0 {
        return Ok(false);
    }
    host::write_all(rt, hash::part(room, 0, title))?;
    host::write_all(rt, b"\n")?;
    let n = read_part(rt, room)?;
    print_input(rt, hash::part(room, 0, n))?;
    Ok(true)
}

// A proved loop has to end, and nothing says that the input does. So the loop counts its turns, up to a number that no run uses up.
// The room has one byte more than an input may have.
fn main(rt: HostRuntime) -> io::Result<()> {
    let mut room = [0u8; 65537];
    for _ in 0..u64::MAX {
        if !run_next(&rt, &mut room)? {
            break;
        }
    }
    Ok(())
}
