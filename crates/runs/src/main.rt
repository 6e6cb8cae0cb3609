// Runs the walks of standard input, one after the other, and prints every field of every answer, a line for each.
// A case is eleven bytes of settings, the last of which is 1 for a tested opening, and seven parts, each a big-endian u32 length and its bytes:
// title, commit store, commit-graph file, tips, hidden tips, excluded ids and the lengths of the six buffers to lend. Before it stands its own
// length, at most 65,536. tools/make_runs.py makes them.
#![tactic(auto)]

ghost use Rattle.std.specs.Prelude.{◌≤◌, ◌<◌};
ghost use Rattle.std.specs.Io.{ReadsAtMost};

use commitgraph::Level;
use date::Seconds;
use hash::Kind;
use opentested::open_tested;
use state::Record;
use std::io;
use traverse::next::step;
use traverse::open::open;
use traverse::{Opened, Out};
use walk::{Answer, CommitTimeOrder, OpenAnswer, Outcome, Parents, Refusal, Settings, Sorting};

// So many parents are printed one by one.
const FEW: usize = 8;

// The most parents of a commit.
const MOST_PARENTS: usize = 256;

// More calls than any walk of these buffers takes to its end.
const MOST_CALLS: usize = 2000;

// Bytes as they are.
fn text(rt: &impl Print, s: &[u8]) -> io::Result<()> {
    host::write_all(rt, s)
}

// A number in decimal digits.
fn number(rt: &impl Print, n: u64) -> io::Result<()> {
    host::print_decimal(rt, n)
}

// A word and a number.
fn count(rt: &impl Print, word: &[u8], n: usize) -> io::Result<()> {
    text(rt, word)?;
    number(rt, n as u64)
}

// ---- an answer's line

// An id in 40 hexadecimal digits.
fn id(rt: &impl Print, s: &[u8]) -> io::Result<()> {
    host::print_bytes(rt, hash::part(s, 0, 20))
}

// A refusal by document 01's number.
fn refusal(rt: &impl Print, r: Refusal) -> io::Result<()> {
    text(rt, b"refused ")?;
    number(rt, walk::number(r) as u64)
}

// What came of a call.
fn outcome(rt: &impl Print, o: Outcome) -> io::Result<()> {
    match o {
        Outcome::Commit => text(rt, b"commit"),
        Outcome::End => text(rt, b"end"),
        Outcome::Refused(r) => refusal(rt, r),
    }
}

// The generation, `-` where there is none.
fn generation(rt: &impl Print, g: Option<Level>) -> io::Result<()> {
    text(rt, b" generation ")?;
    match g {
        Some(level) => number(rt, level.0 as u64),
        None => text(rt, b"-"),
    }
}

// Seconds with their sign.
fn signed(rt: &impl Print, s: Seconds) -> io::Result<()> {
    if date::is_negative(s) {
        text(rt, b"-")?;
    }
    number(rt, date::magnitude(s))
}

// The seconds, `-` where there are none.
fn seconds(rt: &impl Print, t: Option<Seconds>) -> io::Result<()> {
    text(rt, b" seconds ")?;
    match t {
        Some(s) => signed(rt, s),
        None => text(rt, b"-"),
    }
}

// The zone in signed minutes, `-` where there is none.
fn zone(rt: &impl Print, z: Option<i64>) -> io::Result<()> {
    text(rt, b" zone ")?;
    match z {
        Some(m) => signed(rt, Seconds(m)),
        None => text(rt, b"-"),
    }
}

// The running numbers of a walk.
fn numbers(rt: &impl Print, admitted: usize, struck: usize, waiting: usize) -> io::Result<()> {
    count(rt, b" admitted ", admitted)?;
    count(rt, b" struck ", struck)?;
    count(rt, b" waiting ", waiting)
}

// The first n ids.
fn few(rt: &impl Print, ids: &[u8], n: usize) -> io::Result<()>
    requires { n ≤ 8 }
{
    for k in 0..n {
        text(rt, b" ")?;
        id(rt, hash::id_at(Kind::Sha1, ids, 20 * k))?;
    }
    Ok(())
}

// A byte as a number of 32 bits.
fn wide(b: u8) -> u32
    ensures { result < 256 }
{
    b as u32
}

// A number in which each byte and its place have a part.
fn checksum(s: &[u8]) -> u32 {
    let mut sum = 0;
    for i in 0..s.len() {
        sum = (sum * 31 + wide(s[i])) % 65521;
    }
    sum
}

// The first and the last of the first n ids, and the checksum of all n.
fn many(rt: &impl Print, ids: &[u8], n: usize) -> io::Result<()>
    requires { (0 < n) × (n ≤ 256) }
{
    text(rt, b" ")?;
    id(rt, ids)?;
    text(rt, b" to ")?;
    id(rt, hash::id_at(Kind::Sha1, ids, 20 * (n - 1)))?;
    text(rt, b" checksum ")?;
    number(rt, checksum(hash::part(ids, 0, 20 * n)) as u64)
}

// The ids that an answer counts, at the start of the buffer.
fn parents_of(rt: &impl Print, buffer: &[u8], n: usize) -> io::Result<()> {
    count(rt, b" parents ", n)?;
    if n <= FEW {
        few(rt, buffer, n)?;
    } else if n <= MOST_PARENTS {
        many(rt, buffer, n)?;
    }
    Ok(())
}

// A call's answer on a line.
fn print_answer(rt: &impl Print, a: Answer, parents: &[u8]) -> io::Result<()> {
    let given = a.outcome;
    outcome(rt, given)?;
    text(rt, b" ")?;
    let info = a.info;
    id(rt, &info.id)?;
    let level = info.generation;
    generation(rt, level)?;
    let time = info.time;
    seconds(rt, time)?;
    numbers(rt, a.admitted, a.struck, a.waiting)?;
    parents_of(rt, parents, info.parents)?;
    let beside = info.zone;
    zone(rt, beside)?;
    text(rt, b"\n")
}

// That a walk was opened, and how.
fn accepted(rt: &impl Print, tested: bool) -> io::Result<()> {
    text(rt, b"opened")?;
    if tested {
        text(rt, b" tested")?;
    }
    Ok(())
}

// An opening's answer on a line.
fn print_opening(rt: &impl Print, a: OpenAnswer, tested: bool) -> io::Result<()> {
    let o = a.outcome;
    match o {
        Ok(()) => accepted(rt, tested)?,
        Err(r) => refusal(rt, r)?,
    }
    numbers(rt, a.admitted, a.struck, a.waiting)?;
    text(rt, b"\n")
}

// ---- a walk

// How many calls are left after an answer, of those left before it: after the first end one, after a closed record's answer none.
fn left_after(o: Outcome, left: usize) -> usize
    requires { 0 < left }
    ensures { result < left }
{
    match o {
        Outcome::Commit => left - 1,
        Outcome::End => { if 1 < left { 1 } else { 0 } }
        Outcome::Refused(r) => { if walk::number(r) == 12 { 0 } else { left - 1 } }
    }
}

// One call, printed.
fn call(
    rt: &impl Print,
    r: Record,
    store: &[u8],
    graph: &[u8],
    hidden: &[u8],
    excluded: &[u8],
    settings: Settings,
    names: &mut [u8],
    marks: &mut [u8],
    levels: &mut [u32],
    times: &mut [i64],
    line: &mut [u32],
    parents: &mut [u8],
) -> io::Result<Out> {
    let out = step(
        r, store, graph, hidden, excluded, settings, names, marks, levels, times, line, parents,
    );
    print_answer(rt, out.answer, parents)?;
    Ok(out)
}

// Calls until the walk said end twice, or the record is closed.
fn calls(
    rt: &impl Print,
    first: Record,
    store: &[u8],
    graph: &[u8],
    hidden: &[u8],
    excluded: &[u8],
    settings: Settings,
    names: &mut [u8],
    marks: &mut [u8],
    levels: &mut [u32],
    times: &mut [i64],
    line: &mut [u32],
    parents: &mut [u8],
) -> io::Result<()> {
    let mut r = first;
    let mut left = MOST_CALLS;
    // No range counts these calls: the answer of each says whether a next one is due.
    while 0 < left {
        let out = call(
            rt, r, store, graph, hidden, excluded, settings, names, marks, levels, times, line,
            parents,
        )?;
        let answer = out.answer;
        let outcome = answer.outcome;
        left = left_after(outcome, left);
        r = out.record;
    }
    Ok(())
}

// Opens a walk, tested or not.
fn opened(
    tested: bool,
    store: &[u8],
    graph: &[u8],
    tips: &[u8],
    hidden: &[u8],
    excluded: &[u8],
    settings: Settings,
    names: &mut [u8],
    marks: &mut [u8],
    levels: &mut [u32],
    times: &mut [i64],
    line: &mut [u32],
    parents: &mut [u8],
) -> Opened {
    if tested {
        return open_tested(
            store, graph, tips, hidden, excluded, settings, names, marks, levels, times, line,
            parents,
        );
    }
    open(
        store, graph, tips, hidden, excluded, settings, names, marks, levels, times, line, parents,
    )
}

// Opens a walk and makes its calls.
fn walk_all(
    rt: &impl Print,
    tested: bool,
    store: &[u8],
    graph: &[u8],
    tips: &[u8],
    hidden: &[u8],
    excluded: &[u8],
    settings: Settings,
    names: &mut [u8],
    marks: &mut [u8],
    levels: &mut [u32],
    times: &mut [i64],
    line: &mut [u32],
    parents: &mut [u8],
) -> io::Result<()> {
    let o = opened(
        tested, store, graph, tips, hidden, excluded, settings, names, marks, levels, times, line,
        parents,
    );
    print_opening(rt, o.answer, tested)?;
    calls(
        rt, o.record, store, graph, hidden, excluded, settings, names, marks, levels, times, line,
        parents,
    )
}

// ---- the cases

// A number of 32 bits as a size.
fn size(x: u32) -> usize {
    x as usize
}

// The bytes of s from place i on.
fn rest(s: &[u8], i: usize) -> &[u8] {
    hash::part(s, i, s.len())
}

// The part that stands at the front with its length before it.
fn front(s: &[u8]) -> &[u8] {
    hash::part(s, 4, size(hash::be32(s, 0)))
}

// What follows the part at the front.
fn after_front(s: &[u8]) -> &[u8] {
    rest(rest(s, 4), size(hash::be32(s, 0)))
}

// The time order of a byte of settings: odd is newest first.
fn time_order(b: u8) -> CommitTimeOrder {
    if b % 2 == 1 {
        CommitTimeOrder::NewestFirst
    } else {
        CommitTimeOrder::OldestFirst
    }
}

// The order of a byte of settings.
fn sorting(b: u8, cutoff: Seconds) -> Sorting {
    if b == 0 {
        return Sorting::BreadthFirst;
    }
    if b < 3 {
        return Sorting::ByCommitTime(time_order(b));
    }
    Sorting::ByCommitTimeCutoff {
        order: time_order(b),
        seconds: cutoff,
    }
}

// Which parents a byte of settings follows.
fn mode(b: u8) -> Parents {
    if b == 0 { Parents::All } else { Parents::First }
}

// The signed number with these 64 bits.
fn signed_of(x: u64) -> i64 {
    if x < 9223372036854775808 {
        return x as i64;
    }
    !((18446744073709551615 - x) as i64)
}

// Whether a case is to be opened tested: its eleventh byte.
fn is_tested(s: &[u8]) -> bool {
    hash::byte_at(s, 10) == 1
}

// The settings of a case, its first ten bytes.
fn settings_of(s: &[u8]) -> Settings {
    Settings {
        sorting: sorting(hash::byte_at(s, 0), Seconds(signed_of(hash::be64(s, 1)))),
        parents: mode(hash::byte_at(s, 9)),
        kind: Kind::Sha1,
    }
}

// How many elements of a buffer are lent: the length at place k of the list, at most the whole.
fn lent(lengths: &[u8], k: usize, most: usize) -> usize
    ensures { result ≤ most }
{
    let n = size(hash::be32(lengths, k));
    if most < n { most } else { n }
}

// Lends the buffers, each as long as the list says, to a walk.
fn lend(
    rt: &impl Print,
    tested: bool,
    store: &[u8],
    graph: &[u8],
    tips: &[u8],
    hidden: &[u8],
    excluded: &[u8],
    settings: Settings,
    lengths: &[u8],
    names: &mut [u8],
    marks: &mut [u8],
    levels: &mut [u32],
    times: &mut [i64],
    line: &mut [u32],
    parents: &mut [u8],
) -> io::Result<()> {
    let a = lent(lengths, 0, names.len());
    let b = lent(lengths, 4, marks.len());
    let c = lent(lengths, 8, levels.len());
    let d = lent(lengths, 12, times.len());
    let e = lent(lengths, 16, line.len());
    let f = lent(lengths, 20, parents.len());
    walk_all(
        rt,
        tested,
        store,
        graph,
        tips,
        hidden,
        excluded,
        settings,
        &mut names[..a],
        &mut marks[..b],
        &mut levels[..c],
        &mut times[..d],
        &mut line[..e],
        &mut parents[..f],
    )
}

// Prints a case's title and runs its walk.
fn run_case(
    rt: &impl Print,
    case: &[u8],
    names: &mut [u8],
    marks: &mut [u8],
    levels: &mut [u32],
    times: &mut [i64],
    line: &mut [u32],
    parents: &mut [u8],
) -> io::Result<()> {
    let title = rest(case, 11);
    let store = after_front(title);
    let graph = after_front(store);
    let tips = after_front(graph);
    let hidden = after_front(tips);
    let excluded = after_front(hidden);
    let lengths = after_front(excluded);
    text(rt, b"# ")?;
    text(rt, front(title))?;
    text(rt, b"\n")?;
    lend(
        rt,
        is_tested(case),
        front(store),
        front(graph),
        front(tips),
        front(hidden),
        front(excluded),
        settings_of(case),
        front(lengths),
        names,
        marks,
        levels,
        times,
        line,
        parents,
    )
}

// How many bytes the next case has, 0 where the input ends.
fn next_size(rt: &impl Input) -> io::Result<usize> {
    let mut head = [0u8; 4];
    let got = host::read_input(rt, &mut head)?;
    if got < 4 {
        return Ok(0);
    }
    Ok(size(hash::be32(&head, 0)))
}

// Reads the next case, and answers its length, 0 where there is none.
fn read_case(rt: &impl Input, space: &mut [u8]) -> io::Result<usize>
    ensures { ReadsAtMost result space.new }
{
    let n = next_size(rt)?;
    if space.len() < n {
        return Ok(0);
    }
    let got = host::read_input(rt, &mut space[..n])?;
    if got < n {
        return Ok(0);
    }
    Ok(n)
}

// Reads and runs the next case, and answers whether there was one.
fn run_next(
    rt: &(impl Input + Print),
    space: &mut [u8],
    names: &mut [u8],
    marks: &mut [u8],
    levels: &mut [u32],
    times: &mut [i64],
    line: &mut [u32],
    parents: &mut [u8],
) -> io::Result<bool> {
    let n = read_case(rt, space)?;
    if n == 0 {
        return Ok(false);
    }
    run_case(rt, &space[..n], names, marks, levels, times, line, parents)?;
    Ok(true)
}

// A proved loop has to end, and nothing says that the input does. So the loop counts its turns, up to a number that no run uses up.
fn main(rt: HostRuntime) -> io::Result<()> {
    let mut space = host::large_buffer();
    let mut names = [0u8; 28000];
    let mut marks = [0u8; 1400];
    let mut levels = [0u32; 1400];
    let mut times = [0i64; 1400];
    let mut line = [0u32; 7000];
    let mut parents = [0u8; 5120];
    for _ in 0..u64::MAX {
        if !run_next(
            &rt,
            &mut space,
            &mut names,
            &mut marks,
            &mut levels,
            &mut times,
            &mut line,
            &mut parents,
        )? {
            break;
        }
    }
    Ok(())
}
