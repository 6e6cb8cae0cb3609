// Prints what the readers find in two files of the folder it is run in: `store`, a commit store, and `graph`, a commit-graph file. For each
// commit of the graph file a line: its id, its level, seconds and number of parents there, and what the store has of it.
#![tactic(auto)]

ghost use Rattle.std.specs.Io.{ReadsAtMost};

use commitgraph::{Layout, parents, rows};
use date::Seconds;
use hash::Kind;
use object::{HeaderError, ReadableHeader};
use std::rt::Files;
use std::{fs, io};

fn text(rt: &impl Print, s: &[u8]) -> io::Result<()> {
    host::write_all(rt, s)
}

fn number(rt: &impl Print, n: usize) -> io::Result<()> {
    host::print_decimal(rt, n as u64)
}

fn seconds(rt: &impl Print, s: Seconds) -> io::Result<()> {
    print!(rt; "{}", s.0)
}

fn counted(rt: &impl Print, n: usize, s: Seconds) -> io::Result<()> {
    number(rt, n)?;
    text(rt, b" parents, ")?;
    seconds(rt, s)?;
    text(rt, b" seconds")
}

// What the store has under an id.
fn stored(rt: &impl Print, store: &[u8], id: &[u8]) -> io::Result<()> {
    let mut found = false;
    let body = odb::try_find(Kind::Sha1, store, id, &mut found);
    if !found {
        text(rt, b"absent")?;
        return Ok(());
    }
    match object::readable(Kind::Sha1, body) {
        Ok(ReadableHeader { parents: n, stamp }) => {
            let s = stamp.seconds;
            counted(rt, n, s)
        }
        Err(HeaderError::Bad) => text(rt, b"a bad header line"),
        Err(HeaderError::Crowded) => text(rt, b"over 256 parents"),
    }
}

// What the graph file has at a position.
fn listed(rt: &impl Print, graph: &[u8], l: Layout, p: usize) -> io::Result<()> {
    text(rt, b" level ")?;
    let level = rows::level(Kind::Sha1, graph, l, p);
    host::print_decimal(rt, level.0 as u64)?;
    text(rt, b"; graph: ")?;
    match parents::parents(Kind::Sha1, graph, l, p) {
        Some(n) => counted(rt, n, rows::seconds(Kind::Sha1, graph, l, p)),
        None => text(rt, b"a corrupt parent list"),
    }
}

fn commits(rt: &impl Print, graph: &[u8], l: Layout, store: &[u8]) -> io::Result<()> {
    for p in 0..l.count {
        host::print_bytes(rt, rows::id_at(Kind::Sha1, graph, l, p))?;
        listed(rt, graph, l, p)?;
        text(rt, b"; store: ")?;
        stored(rt, store, rows::id_at(Kind::Sha1, graph, l, p))?;
        text(rt, b"\n")?;
    }
    Ok(())
}

fn report(rt: &impl Print, graph: &[u8], store: &[u8]) -> io::Result<()> {
    if !odb::is_good(Kind::Sha1, store) {
        text(rt, b"the commit store's layout is broken\n")?;
        return Ok(());
    }
    text(rt, b"commit store: ")?;
    number(rt, odb::count(Kind::Sha1, store))?;
    text(rt, b" commits\n")?;
    if !commitgraph::has_header(Kind::Sha1, graph) {
        text(rt, b"this is no commit-graph file of version 1\n")?;
        return Ok(());
    }
    if !commitgraph::is_good(Kind::Sha1, graph) {
        text(rt, b"the commit-graph file's layout is broken\n")?;
        return Ok(());
    }
    let l = commitgraph::parse(Kind::Sha1, graph);
    text(rt, b"commit-graph file: ")?;
    number(rt, l.count)?;
    text(rt, b" commits\n")?;
    commits(rt, graph, l, store)
}

// Reads a file into the room; the number of its bytes, 0 where it cannot be opened.
fn load(rt: &(impl Files + Eprint), path: &str, space: &mut [u8]) -> io::Result<usize>
    ensures { ReadsAtMost result space.new }
{
    match fs::open(rt, path) {
        Ok(mut file) => host::read_full(&mut file, space),
        Err(e) => {
            eprintln!(rt; "{path}: {e}")?;
            Ok(0)
        }
    }
}

fn main(rt: HostRuntime) -> io::Result<()> {
    let mut first = host::large_buffer();
    let mut second = host::large_buffer();
    let n = load(&rt, "graph", &mut first)?;
    let m = load(&rt, "store", &mut second)?;
    report(&rt, &first[..n], &second[..m])
}
