// Runs the vectors of standard input, good and damaged stores, headers and graph files, and prints what the readers find.
// A case is a kind (one byte) and three parts, each a big-endian u32 length and its bytes, and before it
// stands its own length, at most 65,536. tools/make_vectors.py makes them.
#![tactic(auto)]

use commit::Either;
use commitgraph::{Layout, parents, rows};
use date::{Seconds, Stamp};
use hash::Kind;
use object::{HeaderError, ReadableHeader};
use odb::Located;
use std::io;

fn text(rt: &impl Print, s: &[u8]) -> io::Result<()> {
    host::write_all(rt, s)
}

fn number(rt: &impl Print, n: usize) -> io::Result<()> {
    host::print_decimal(rt, n as u64)
}

fn spaced(rt: &impl Print, n: usize) -> io::Result<()> {
    text(rt, b" ")?;
    number(rt, n)
}

fn seconds(rt: &impl Print, s: Seconds) -> io::Result<()> {
    print!(rt; "{}", s.0)
}

// A committer reading: the seconds, and the zone in signed minutes.
fn zone(rt: &impl Print, z: Option<i64>) -> io::Result<()> {
    text(rt, b" zone ")?;
    match z {
        Some(m) => seconds(rt, Seconds(m)),
        None => text(rt, b"none"),
    }
}

fn stamp(rt: &impl Print, s: Stamp) -> io::Result<()> {
    let time = s.seconds;
    let beside = s.zone;
    seconds(rt, time)?;
    zone(rt, beside)
}

fn hex(rt: &impl Print, s: &[u8]) -> io::Result<()> {
    host::print_bytes(rt, s)?;
    println!(rt;)
}

// ---- the commit store

fn store_id(rt: &impl Print, store: &[u8], id: &[u8]) -> io::Result<()> {
    match odb::locate(Kind::Sha1, store, id) {
        Located::Body { start, end } => {
            number(rt, start)?;
            let mut found = false;
            spaced(rt, odb::try_find(Kind::Sha1, store, id, &mut found).len())?;
            text(rt, b"\n")
        }
        Located::Absent => text(rt, b"absent\n"),
    }
}

fn store_ids(rt: &impl Print, store: &[u8], ids: &[u8]) -> io::Result<()> {
    let n = hash::ids_in(Kind::Sha1, ids.len());
    for k in 0..n {
        store_id(rt, store, hash::nth(Kind::Sha1, ids, k))?;
    }
    Ok(())
}

fn store_case(rt: &impl Print, store: &[u8], ids: &[u8]) -> io::Result<()> {
    if odb::is_good(Kind::Sha1, store) {
        text(rt, b"store good")?;
        spaced(rt, odb::count(Kind::Sha1, store))?;
        text(rt, b"\n")?;
        store_ids(rt, store, ids)?;
    } else {
        text(rt, b"store bad\n")?;
    }
    Ok(())
}

// ---- one commit's header

fn reading(rt: &impl Print, body: &[u8]) -> io::Result<()> {
    match object::readable(Kind::Sha1, body) {
        Ok(ReadableHeader { parents, stamp: s }) => {
            text(rt, b"readable")?;
            spaced(rt, parents)?;
            text(rt, b" ")?;
            stamp(rt, s)?;
            text(rt, b"\n")
        }
        Err(HeaderError::Bad) => text(rt, b"bad\n"),
        Err(HeaderError::Crowded) => text(rt, b"crowded\n"),
    }
}

fn parent_at(rt: &impl Print, body: &[u8], at: usize) -> io::Result<()> {
    if let Some(id) = object::parent_line(Kind::Sha1, body, at) {
        text(rt, b"parent ")?;
        hex(rt, object::id_slice(Kind::Sha1, &id.bytes))?;
    }
    Ok(())
}

// The first and the last parent line.
fn parent_lines(rt: &impl Print, body: &[u8]) -> io::Result<()> {
    let Some(at) = object::tree_line(Kind::Sha1, body, 0) else {
        return Ok(());
    };
    parent_at(rt, body, at)?;
    let after = object::after_parents(Kind::Sha1, body, at);
    let size = object::parent_size(Kind::Sha1);
    if at < after {
        if size <= after {
            parent_at(rt, body, after - size)?;
        }
    }
    Ok(())
}

fn header_case(rt: &impl Print, body: &[u8]) -> io::Result<()> {
    reading(rt, body)?;
    parent_lines(rt, body)?;
    text(rt, b"seconds ")?;
    match object::stamp_only(Kind::Sha1, body) {
        Some(s) => {
            stamp(rt, s)?;
            text(rt, b"\n")
        }
        None => text(rt, b"bad\n"),
    }
}

// ---- the commit-graph file

fn positions(rt: &impl Print, graph: &[u8], l: Layout, p: usize, n: usize) -> io::Result<()> {
    number(rt, n)?;
    for k in 0..n {
        spaced(rt, parents::parent(Kind::Sha1, graph, l, p, k))?;
    }
    text(rt, b"\n")
}

fn row(rt: &impl Print, graph: &[u8], l: Layout, p: usize) -> io::Result<()> {
    text(rt, b"at")?;
    spaced(rt, p)?;
    text(rt, b" level ")?;
    let level = rows::level(Kind::Sha1, graph, l, p);
    host::print_decimal(rt, level.0 as u64)?;
    text(rt, b" seconds ")?;
    seconds(rt, rows::seconds(Kind::Sha1, graph, l, p))?;
    text(rt, b" parents ")?;
    match parents::parents(Kind::Sha1, graph, l, p) {
        Some(n) => positions(rt, graph, l, p, n),
        None => text(rt, b"corrupt\n"),
    }
}

fn graph_id(rt: &impl Print, graph: &[u8], l: Layout, id: &[u8]) -> io::Result<()> {
    match rows::lookup(Kind::Sha1, graph, l, id) {
        Some(p) => row(rt, graph, l, p),
        None => text(rt, b"absent\n"),
    }
}

fn graph_ids(rt: &impl Print, graph: &[u8], l: Layout, ids: &[u8]) -> io::Result<()> {
    let n = hash::ids_in(Kind::Sha1, ids.len());
    for k in 0..n {
        graph_id(rt, graph, l, hash::nth(Kind::Sha1, ids, k))?;
    }
    Ok(())
}

fn graph_case(rt: &impl Print, graph: &[u8], ids: &[u8]) -> io::Result<()> {
    if !commitgraph::has_header(Kind::Sha1, graph) {
        text(rt, b"graph foreign\n")?;
        return Ok(());
    }
    if !commitgraph::is_good(Kind::Sha1, graph) {
        text(rt, b"graph torn\n")?;
        return Ok(());
    }
    let l = commitgraph::parse(Kind::Sha1, graph);
    text(rt, b"graph good")?;
    spaced(rt, l.count)?;
    text(rt, b"\n")?;
    graph_ids(rt, graph, l, ids)
}

// ---- find

fn found<'a>(rt: &impl Print, at: Either, graph: &'a [u8], store: &'a [u8]) -> io::Result<()> {
    match at {
        Either::CachedCommit { .. } => text(rt, b"graph ")?,
        Either::CommitRefIter { .. } => text(rt, b"store ")?,
        Either::Absent => text(rt, b"absent")?,
    }
    hex(rt, commit::part(at, graph, store))
}

// Each id is looked for with another position tried first: the answer does not depend on it.
fn find_ids<'a>(
    rt: &impl Print,
    cache: Option<Layout>,
    graph: &'a [u8],
    store: &'a [u8],
    ids: &[u8],
) -> io::Result<()> {
    let n = hash::ids_in(Kind::Sha1, ids.len());
    for k in 0..n {
        found(
            rt,
            commit::find(
                Kind::Sha1,
                cache,
                graph,
                store,
                hash::nth(Kind::Sha1, ids, k),
                k,
            ),
            graph,
            store,
        )?;
    }
    Ok(())
}

fn find_case<'a>(rt: &impl Print, graph: &'a [u8], store: &'a [u8], ids: &[u8]) -> io::Result<()> {
    let l = commitgraph::parse(Kind::Sha1, graph);
    if graph.len() == 0 {
        find_ids(rt, None, graph, store, ids)?;
    } else {
        find_ids(rt, Some(l), graph, store, ids)?;
    }
    Ok(())
}

// ---- the cases

fn wide(x: u32) -> usize {
    x as usize
}

// The bytes of s from place i on.
fn rest(s: &[u8], i: usize) -> &[u8] {
    hash::part(s, i, s.len())
}

// The part that stands at the front with its length before it, and what follows it.
fn front(s: &[u8]) -> &[u8] {
    hash::part(s, 4, wide(hash::be32(s, 0)))
}

fn after_front(s: &[u8]) -> &[u8] {
    rest(rest(s, 4), wide(hash::be32(s, 0)))
}

fn case<'a>(rt: &impl Print, kind: u8, a: &'a [u8], b: &'a [u8], c: &[u8]) -> io::Result<()> {
    match kind {
        1 => store_case(rt, a, b),
        2 => header_case(rt, a),
        3 => graph_case(rt, a, b),
        _ => find_case(rt, a, b, c),
    }
}

fn run_case(rt: &impl Print, input: &[u8]) -> io::Result<()> {
    let a = rest(input, 1);
    let b = after_front(a);
    let c = after_front(b);
    case(rt, hash::byte_at(input, 0), front(a), front(b), front(c))
}

// How many bytes the next case has, 0 where the input ends.
fn next_size(rt: &impl Input) -> io::Result<usize> {
    let mut head = [0u8; 4];
    let got = host::read_input(rt, &mut head)?;
    if got < 4 {
        return Ok(0);
    }
    Ok(wide(hash::be32(&head, 0)))
}

// Reads and runs the next case, and answers whether there was one.
fn run_next(rt: &(impl Input + Print), space: &mut [u8]) -> io::Result<bool> {
    let n = next_size(rt)?;
    if n == 0 {
        return Ok(false);
    }
    if space.len() < n {
        return Ok(false);
    }
    let got = host::read_input(rt, &mut space[..n])?;
    if got < n {
        return Ok(false);
    }
    run_case(rt, &space[..n])?;
    Ok(true)
}

// A proved loop has to end, and nothing says that the input does. So the loop counts its turns, up to a number that no run uses up.
fn main(rt: HostRuntime) -> io::Result<()> {
    let mut space = host::large_buffer();
    for _ in 0..u64::MAX {
        if !run_next(&rt, &mut space)? {
            break;
        }
    }
    Ok(())
}
