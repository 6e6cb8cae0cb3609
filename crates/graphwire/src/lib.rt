// Writing graph files for callers in other languages: the width of ids and the length of the file as numbers. Every function is total on any
// bytes, numbers and lengths.
#![tactic(auto)]

ghost use Rattle.std.specs.Prelude.{◌≡◌};
ghost use Rattle.wire.specs.Words.{kind_of};
ghost use Rattle.graphwire.specs.Wire.{written_number, bytes_of, PutsLength, LibraryMeasures, LibraryWrites};

use walk::Refusal;

// The library's result where there is no room for the file's length: none of document 01's numbers.
const NO_ROOM: u32 = 101;

fn wide(n: u8) -> u32
    ensures { result ≡ n }
{
    n as u32
}

// The number of what is said: 0, or the refusal's.
fn number(w: Result<usize, Refusal>) -> u32
    ensures { result ≡ written_number w }
{
    match w {
        Ok(_) => 0,
        Err(r) => wide(walk::number(r)),
    }
}

// How many bytes the file has: 0 where there is none.
fn bytes_of(w: Result<usize, Refusal>) -> u64
    ensures { result ≡ bytes_of w }
{
    match w {
        Ok(n) => n as u64,
        Err(_) => 0,
    }
}

// What is said set down, and its number.
fn put_length(w: Result<usize, Refusal>, numbers: &mut [u64]) -> u32
    ensures { PutsLength w numbers.old numbers.new result }
{
    let x = [bytes_of(w)];
    wire::put(numbers, &x);
    number(w)
}

// How long the file of a store is, set down; without room for that nothing is altered and the result is 101.
pub fn graph_length(width: u32, store: &[u8], levels: &mut [u32], numbers: &mut [u64]) -> u32
    ensures { LibraryMeasures (kind_of width) store.now levels.old levels.new numbers.old numbers.new result }
{
    if numbers.len() == 0 {
        return NO_ROOM;
    }
    let w = graphwrite::graph_length(wire::kind_of(width), store, levels);
    put_length(w, numbers)
}

// The file of a store at the start of out, and its length set down; without room for that nothing is altered and the result is 101.
pub fn write_graph(
    width: u32,
    store: &[u8],
    levels: &mut [u32],
    out: &mut [u8],
    numbers: &mut [u64],
) -> u32
    ensures { LibraryWrites (kind_of width) store.now levels.old levels.new out.old out.new numbers.old numbers.new result }
{
    if numbers.len() == 0 {
        return NO_ROOM;
    }
    let w = graphwrite::write_graph(wire::kind_of(width), store, levels, out);
    put_length(w, numbers)
}
