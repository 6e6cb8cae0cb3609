// The program of document 01's last run: reads a 20-byte tip and then a commit store from standard input, at most 65,536 bytes in all, and
// prints each commit of the walk, with its number of parents, each refusal, and `end`. The text is `swatch::list`'s.
#![tactic(auto)]

use std::io;

// Prints the list of an input.
fn print_list(
    rt: &impl Print,
    input: &[u8],
    names: &mut [u8],
    marks: &mut [u8],
    levels: &mut [u32],
    times: &mut [i64],
    line: &mut [u32],
    parents: &mut [u8],
    out: &mut [u8],
) -> io::Result<()> {
    let n = swatch::list(input, names, marks, levels, times, line, parents, out);
    host::write_all(rt, &out[..n])
}

// The room has one byte more than an input may have, so that a longer one is seen. A walk from one tip over at most 65,516 bytes of store has
// at most 1,365 places.
fn main(rt: HostRuntime) -> io::Result<()> {
    let mut room = [0u8; 65537];
    let n = host::read_input(&rt, &mut room)?;
    let mut names = [0u8; 27320];
    let mut marks = [0u8; 1366];
    let mut levels = [0u32; 1366];
    let mut times = [0i64; 1366];
    let mut line = [0u32; 6830];
    let mut parents = [0u8; 5120];
    let mut out = host::large_buffer();
    print_list(
        &rt,
        &room[..n],
        &mut names,
        &mut marks,
        &mut levels,
        &mut times,
        &mut line,
        &mut parents,
        &mut out,
    )
}
