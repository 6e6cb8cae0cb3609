// Lists a history. From the folder that it is run in it reads `store`, a commit store, and `tips`, the ids to start from, end to end; and where
// they are there `graph`, git's commit-graph file, and `hidden`, the ids to hide with all that they reach. Each may have 65,536 bytes. The
// order is its first argument: `newest` (also where there is none), `oldest` or `breadth`.
// For each commit it prints a line: id, committer seconds, generation and number of parents, `-` where the walk has none; a line for each refusal
// with document 01's number and word; and last `end` with the walk's running numbers.
#![tactic(auto)]

ghost use Rattle.std.specs.Prelude.{◌<◌};
ghost use Rattle.std.specs.Io.{ReadsAtMost};

use commitgraph::Level;
use date::Seconds;
use hash::Kind;
use state::Record;
use std::io::{ErrorKind, Read};
use std::rt::Files;
use std::{fs, io};
use traverse::next::step;
use traverse::open::open;
use walk::{Answer, CommitTimeOrder, Outcome, Parents, Refusal, Settings, Sorting};

// More calls than any walk over these files takes to its end.
const MOST_CALLS: usize = 5000;

// ---- printing

// Bytes as they are.
fn text(rt: &impl Print, s: &[u8]) -> io::Result<()> {
    host::write_all(rt, s)
}

// A word and a number.
fn count(rt: &impl Print, word: &[u8], n: u64) -> io::Result<()> {
    text(rt, word)?;
    host::print_decimal(rt, n)
}

// An id in 40 hexadecimal digits.
fn id(rt: &impl Print, s: &[u8]) -> io::Result<()> {
    host::print_bytes(rt, hash::part(s, 0, 20))
}

// Seconds with their sign.
fn signed(rt: &impl Print, s: Seconds) -> io::Result<()> {
    if date::is_negative(s) {
        text(rt, b"-")?;
    }
    host::print_decimal(rt, date::magnitude(s))
}

// The seconds, which only a time order has.
fn seconds(rt: &impl Print, t: Option<Seconds>) -> io::Result<()> {
    text(rt, b" seconds ")?;
    match t {
        Some(s) => signed(rt, s),
        None => text(rt, b"-"),
    }
}

// The generation, which only a commit from the commit-graph file has.
fn generation(rt: &impl Print, g: Option<Level>) -> io::Result<()> {
    match g {
        Some(level) => count(rt, b" generation ", level.0 as u64),
        None => text(rt, b" generation -"),
    }
}

// Document 01's word for a refusal.
fn word(rt: &impl Print, r: Refusal) -> io::Result<()> {
    match r {
        Refusal::BufferTooSmall => text(rt, b" short memory"),
        Refusal::InputTooLarge => text(rt, b" oversize"),
        Refusal::PartialId => text(rt, b" ragged list"),
        Refusal::CorruptStore => text(rt, b" torn book"),
        Refusal::UnknownGraph => text(rt, b" foreign graph"),
        Refusal::CorruptGraph => text(rt, b" torn graph"),
        Refusal::TipNotFound => text(rt, b" lost tip"),
        Refusal::TipUnreadable => text(rt, b" blurred tip"),
        Refusal::CommitNotFound => text(rt, b" lost commit"),
        Refusal::CommitUnreadable => text(rt, b" blurred commit"),
        Refusal::TooManyParents => text(rt, b" crowded commit"),
        Refusal::Closed => text(rt, b" closed"),
        Refusal::UnreadableReach => text(rt, b" unreadable reach"),
        Refusal::GraphAtOdds => text(rt, b" graph at odds"),
        Refusal::PairNotFalling => text(rt, b" pair not falling"),
        Refusal::FalseName => text(rt, b" false name"),
        Refusal::FalseChecksum => text(rt, b" graph checksum false"),
        Refusal::UnfitStore => text(rt, b" unfit book"),
        Refusal::UnfitSeconds => text(rt, b" unfit seconds"),
        Refusal::ShortOutput => text(rt, b" short output"),
        Refusal::ReadingTwice => text(rt, b" reading given twice"),
        Refusal::ReadingUnreadable => text(rt, b" reading unreadable"),
        Refusal::TangledReach => text(rt, b" tangled reach"),
        Refusal::BadTerms => text(rt, b" bad term list"),
        Refusal::TooManyMoves => text(rt, b" too many moves"),
    }
}

// A refusal by document 01's number and word.
fn refusal(rt: &impl Print, r: Refusal) -> io::Result<()> {
    count(rt, b"refused ", walk::number(r) as u64)?;
    word(rt, r)?;
    text(rt, b"\n")
}

// A commit's line.
fn commit(rt: &impl Print, a: Answer) -> io::Result<()> {
    let info = a.info;
    id(rt, &info.id)?;
    seconds(rt, info.time)?;
    generation(rt, info.generation)?;
    count(rt, b" parents ", info.parents as u64)?;
    text(rt, b"\n")
}

// The last line: the numbers of commits that ever waited, that hiding struck, and that wait.
fn end(rt: &impl Print, a: Answer) -> io::Result<()> {
    count(rt, b"end admitted ", a.admitted as u64)?;
    count(rt, b" struck ", a.struck as u64)?;
    count(rt, b" waiting ", a.waiting as u64)?;
    text(rt, b"\n")
}

// A call's answer on a line.
fn print_answer(rt: &impl Print, a: Answer) -> io::Result<()> {
    let outcome = a.outcome;
    match outcome {
        Outcome::Commit => commit(rt, a),
        Outcome::End => end(rt, a),
        Outcome::Refused(r) => refusal(rt, r),
    }
}

// ---- the walk

// How many calls may follow an answer, of those that may come before it: none after the end.
fn left_after(o: Outcome, left: usize) -> usize
    requires { 0 < left }
    ensures { result < left }
{
    match o {
        Outcome::Commit => left - 1,
        Outcome::End => 0,
        Outcome::Refused(_) => left - 1,
    }
}

// Calls until the walk says end, and prints each answer.
fn calls(
    rt: &impl Print,
    first: Record,
    store: &[u8],
    graph: &[u8],
    hidden: &[u8],
    settings: Settings,
    names: &mut [u8],
    marks: &mut [u8],
    levels: &mut [u32],
    times: &mut [i64],
    line: &mut [u32],
    parents: &mut [u8],
) -> io::Result<()> {
    let mut r = first;
    let mut left = MOST_CALLS;
    // No range counts these calls: the answer of each says whether a next one is due.
    while 0 < left {
        let out = step(
            r, store, graph, hidden, b"", settings, names, marks, levels, times, line, parents,
        );
        let answer = out.answer;
        print_answer(rt, answer)?;
        let outcome = answer.outcome;
        left = left_after(outcome, left);
        r = out.record;
    }
    Ok(())
}

// Opens a walk over lent memory and lists it.
fn list_in(
    rt: &impl Print,
    store: &[u8],
    graph: &[u8],
    tips: &[u8],
    hidden: &[u8],
    settings: Settings,
    names: &mut [u8],
    marks: &mut [u8],
    levels: &mut [u32],
    times: &mut [i64],
    line: &mut [u32],
    parents: &mut [u8],
) -> io::Result<()> {
    let o = open(
        store, graph, tips, hidden, b"", settings, names, marks, levels, times, line, parents,
    );
    let answer = o.answer;
    let outcome = answer.outcome;
    match outcome {
        Ok(()) => calls(
            rt, o.record, store, graph, hidden, settings, names, marks, levels, times, line,
            parents,
        ),
        Err(r) => refusal(rt, r),
    }
}

// Lists in memory for P = 4,600 places. No files ask for more: 1,024 tips and as many hidden, 1,365 for a store of 65,536 bytes, and 1,150
// commits in a commit-graph file of that size.
fn list(
    rt: &impl Print,
    store: &[u8],
    graph: &[u8],
    tips: &[u8],
    hidden: &[u8],
    settings: Settings,
) -> io::Result<()> {
    let mut names = [0u8; 92000];
    let mut marks = [0u8; 4600];
    let mut levels = [0u32; 4600];
    let mut times = [0i64; 4600];
    let mut line = [0u32; 23000];
    let mut parents = [0u8; 5120];
    list_in(
        rt,
        store,
        graph,
        tips,
        hidden,
        settings,
        &mut names,
        &mut marks,
        &mut levels,
        &mut times,
        &mut line,
        &mut parents,
    )
}

// ---- the order

// The order of a word; no word is newest first.
fn order_of(word: &[u8]) -> Option<Sorting> {
    if word.len() == 0 || hash::same(word, b"newest") {
        return Some(Sorting::ByCommitTime(CommitTimeOrder::NewestFirst));
    }
    if hash::same(word, b"oldest") {
        return Some(Sorting::ByCommitTime(CommitTimeOrder::OldestFirst));
    }
    if hash::same(word, b"breadth") {
        return Some(Sorting::BreadthFirst);
    }
    None
}

// ---- the files

// A line on standard error: a name and what is wrong with it.
fn complain(err: &impl Print, name: &[u8], fault: &[u8]) -> io::Result<()> {
    host::write_all(err, name)?;
    host::write_all(err, fault)
}

// Whether an open file has bytes left.
fn has_more<R: Read>(file: &mut R) -> io::Result<bool> {
    let mut byte = [0u8; 1];
    let n = host::read_full(file, &mut byte)?;
    Ok(n == 1)
}

// Reads a file into the room and answers the number of its bytes. A file that is absent has none. Where it is needed, cannot be opened, or has
// more bytes than the room, `whole` is set to false and a line says so.
fn load(
    rt: &impl Files,
    err: &impl Print,
    path: &str,
    needed: bool,
    space: &mut [u8],
    whole: &mut bool,
) -> io::Result<usize>
    ensures { ReadsAtMost result space.new }
{
    match fs::open(rt, path) {
        Ok(mut file) => {
            let n = host::read_full(&mut file, space)?;
            if has_more(&mut file)? {
                complain(err, path.as_bytes(), b": more than 65,536 bytes\n")?;
                *whole = false;
            }
            Ok(n)
        }
        Err(e) => {
            if needed || e.kind() != ErrorKind::NotFound {
                println!(err; "{path}: {e}")?;
                *whole = false;
            }
            Ok(0)
        }
    }
}

// Reads the files and lists the history in an order.
fn list_files(rt: &(impl Files + Print), err: &impl Print, sorting: Sorting) -> io::Result<()> {
    let mut first = host::large_buffer();
    let mut second = host::large_buffer();
    let mut third = host::large_buffer();
    let mut fourth = host::large_buffer();
    let mut whole = true;
    let store = load(rt, err, "store", true, &mut first, &mut whole)?;
    let graph = load(rt, err, "graph", false, &mut second, &mut whole)?;
    let tips = load(rt, err, "tips", true, &mut third, &mut whole)?;
    let hidden = load(rt, err, "hidden", false, &mut fourth, &mut whole)?;
    if whole {
        let settings = Settings {
            sorting,
            parents: Parents::All,
            kind: Kind::Sha1,
        };
        list(
            rt,
            &first[..store],
            &second[..graph],
            &third[..tips],
            &fourth[..hidden],
            settings,
        )?;
    }
    Ok(())
}

fn main(rt: HostRuntime) -> io::Result<()> {
    let err = rt.stderr();
    let mut space = host::buffer();
    let n = host::argument(&rt, 1, &mut space);
    match order_of(&space[..n]) {
        Some(sorting) => list_files(&rt, &err, sorting),
        None => complain(
            &err,
            &space[..n],
            b": the orders are newest, oldest and breadth\n",
        ),
    }
}
