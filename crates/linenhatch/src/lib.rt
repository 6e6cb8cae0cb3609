// The walk for callers in C and Rust: every parameter is a number or a slice (a pointer and a length), and the walk's record stands as
// words in lent memory. bindings/c/linenhatch.h declares the functions for C. Each is total on any bytes, numbers and lengths. width is that of ids: 32
// is SHA-256, any other number SHA-1.
#![tactic(auto)]

ghost use Rattle.std.specs.Prelude.{ℕ, ◌≡◌, List, length};
ghost use Rattle.hash.specs.Bytes.{width_of};
ghost use Rattle.walk.specs.declared.Settings.{Settings};
ghost use Rattle.walk.specs.Opening.{P};
ghost use Rattle.opening.specs.Checks.{input_of, lengths_of};
ghost use Rattle.reach.specs.Memory.{lent};
ghost use Rattle.tracewire.specs.Wire.{LibraryTrace};
ghost use Rattle.mergewire.specs.Wire.{LibraryMergeBase};
ghost use Rattle.reportwire.specs.Feed.{reader_of, LibraryFeed};
ghost use Rattle.reportwire.specs.Terms.{LibraryTerms};
ghost use Rattle.graphwire.specs.Wire.{LibraryMeasures, LibraryWrites};
ghost use Rattle.traverse.specs.Open.{lent_of};
ghost use Rattle.traverse.specs.Next.{files_lent};
ghost use Rattle.wire.specs.Words.{kind_of};
ghost use Rattle.wire.specs.Numbers.{settings_of};
ghost use Rattle.linenhatch.specs.Library.{LibraryOpens, LibraryOpensTested, LibraryNext, LibraryChecks};

use inplace::NOT_MADE;

// The result where the record's words, or what an answer is set down in, are too short. Document 01 does not name these buffers, so it is
// none of its numbers: its 1 is said of the walk's own memory, and closes the record.
const NO_ROOM: u32 = 101;

// How many places a walk needs (document 01's P), so that a caller knows how much memory to lend.
pub fn linenhatch_places(
    width: u32,
    store: &[u8],
    graph: &[u8],
    tips: &[u8],
    hidden: &[u8],
) -> usize
    ensures { (excluded : List ℕ) (s : Settings) → s.kind ≡ kind_of width → result ≡ P (input_of store.now graph.now tips.now hidden.now excluded s) }
{
    opening::capacity(wire::kind_of(width), store, graph, tips, hidden)
}

// Opens a walk. The result is 0 where it is accepted, else document 01's number of the refusal; the record's words and the walk's running
// numbers are set down in every case, but where there is no room for them: then the result is 101, before all other tests, and nothing is
// altered.
pub fn linenhatch_open(
    width: u32,
    store: &[u8],
    graph: &[u8],
    tips: &[u8],
    hidden: &[u8],
    excluded: &[u8],
    sorting: u32,
    limited: u32,
    cutoff: i64,
    first: u32,
    names: &mut [u8],
    marks: &mut [u8],
    levels: &mut [u32],
    times: &mut [i64],
    line: &mut [u32],
    parents: &mut [u8],
    words: &mut [u64],
    numbers: &mut [u64],
) -> u32
    ensures { LibraryOpens (input_of store.now graph.now tips.now hidden.now excluded.now (settings_of width sorting limited cutoff first)) (lent_of names.old marks.old levels.old times.old line.old parents.old) (lent_of names.new marks.new levels.new times.new line.new parents.new) words.old words.new numbers.old numbers.new result }
{
    if !wire::can_open(words, numbers) {
        return NO_ROOM;
    }
    let settings = wire::settings_of(width, sorting, limited, cutoff, first);
    let o = traverse::open::open(
        store, graph, tips, hidden, excluded, settings, names, marks, levels, times, line, parents,
    );
    wire::encode(o.record, words);
    wire::put_open_answer(o.answer, numbers)
}

// Opens a walk whose history is tested (card 1): as `linenhatch_open`, and then 13, 14 or 15 where something that the tips and hidden tips
// reach cannot be read in the store, or the graph file is at odds with it, or a pair does not fall. What is accepted lists exactly what is
// to be listed.
pub fn linenhatch_open_tested(
    width: u32,
    store: &[u8],
    graph: &[u8],
    tips: &[u8],
    hidden: &[u8],
    excluded: &[u8],
    sorting: u32,
    limited: u32,
    cutoff: i64,
    first: u32,
    names: &mut [u8],
    marks: &mut [u8],
    levels: &mut [u32],
    times: &mut [i64],
    line: &mut [u32],
    parents: &mut [u8],
    words: &mut [u64],
    numbers: &mut [u64],
) -> u32
    ensures { LibraryOpensTested (input_of store.now graph.now tips.now hidden.now excluded.now (settings_of width sorting limited cutoff first)) (lent_of names.old marks.old levels.old times.old line.old parents.old) (lent_of names.new marks.new levels.new times.new line.new parents.new) words.old words.new numbers.old numbers.new result }
{
    if !wire::can_open(words, numbers) {
        return NO_ROOM;
    }
    let settings = wire::settings_of(width, sorting, limited, cutoff, first);
    let o = opentested::open_tested(
        store, graph, tips, hidden, excluded, settings, names, marks, levels, times, line, parents,
    );
    wire::encode(o.record, words);
    wire::put_open_answer(o.answer, numbers)
}

// One call: the result is 0 where a commit is handed out, 100 at the end, else document 01's number of the refusal. The answer stands in
// id, numbers, seconds and the start of parents, and the words are those of the record for the next call; after refusal 12 they are as they
// were. Where there is no room for the record or the answer the result is 101: no call is made, and nothing is altered.
pub fn linenhatch_next(
    width: u32,
    words: &mut [u64],
    store: &[u8],
    graph: &[u8],
    hidden: &[u8],
    excluded: &[u8],
    sorting: u32,
    limited: u32,
    cutoff: i64,
    first: u32,
    names: &mut [u8],
    marks: &mut [u8],
    levels: &mut [u32],
    times: &mut [i64],
    line: &mut [u32],
    parents: &mut [u8],
    id: &mut [u8],
    numbers: &mut [u64],
    seconds: &mut [i64],
) -> u32
    ensures { LibraryNext (files_lent store.now graph.now hidden.now excluded.now (settings_of width sorting limited cutoff first)) (lent_of names.old marks.old levels.old times.old line.old parents.old) (lent_of names.new marks.new levels.new times.new line.new parents.new) words.old words.new id.old id.new numbers.old numbers.new seconds.old seconds.new result }
{
    let settings = wire::settings_of(width, sorting, limited, cutoff, first);
    let kind = settings.kind;
    if !wire::can_call(kind, words, id, numbers, seconds) {
        return NO_ROOM;
    }
    let made = inplace::next_by_topology_or_commit_date(
        words, store, graph, excluded, settings, names, marks, levels, times, line, parents, id,
        numbers, seconds,
    );
    if made != NOT_MADE {
        return made;
    }
    let o = simple::once(
        wire::decode(words),
        store,
        graph,
        hidden,
        excluded,
        settings,
        names,
        marks,
        levels,
        times,
        line,
        parents,
    );
    let n = wire::put_answer(kind, o.answer, id, numbers, seconds);
    wire::put_record(n, o.record, words);
    n
}

// Checks names (document 02, card 2): the result is 0 where each commit of the store is under the digest of its body and the graph file, if one
// is lent, ends in the digest of the rest; else the number of the refusal. After 16 the first number is the entry's, counted from 0, else 0.
// Where there is no room for that number the result is 101: nothing is checked, and nothing is altered.
pub fn linenhatch_check_names(width: u32, store: &[u8], graph: &[u8], numbers: &mut [u64]) -> u32
    ensures { LibraryChecks (kind_of width) store.now graph.now numbers.old numbers.new result }
{
    if numbers.len() == 0 {
        return NO_ROOM;
    }
    let r = fsck::check_names(wire::kind_of(width), store, graph);
    let w = [r.entry as u64];
    wire::put(numbers, &w);
    let o = r.outcome;
    fsck::number(o)
}

// Tracing by turns (document 02, card 12): the result is 0 and the numbers 0 and 0 where the bed can evade, 1 and 0 where the start is on the list, 2 and the
// number of the first forcing parent, counted from 0, whose id is set down, where the cone forces it; else the result is the number of the refusal, with
// zeros. The memo may have any length, also 0; after 25 and 2 to 4 it is as it was. Where the start is shorter than an id, or there is no room for the
// answer, the result is 101: nothing is read, and nothing is altered.
pub fn linenhatch_trace(
    width: u32,
    store: &[u8],
    start: &[u8],
    list: &[u8],
    d: u32,
    memo: &mut [u8],
    id: &mut [u8],
    numbers: &mut [u64],
) -> u32
    ensures { LibraryTrace (width_of (kind_of width)) store.now start.now list.now d memo.old memo.new id.old id.new numbers.old numbers.new result }
{
    tracewire::trace(width, store, start, list, d, memo, id, numbers)
}

// Where two series part (document 02, cards 8 and 11): the result is 0, the first number 1 and the id that of the first best common commit; or
// 0, 0 and zeros where no commit is reachable from both; else the number of the refusal, 0 and zeros. After 2, 4 and 1 the lent memory is as it
// was. Where a tip is shorter than an id, or there is no room for the answer, the result is 101: nothing is read, and nothing is altered.
pub fn linenhatch_merge_base(
    width: u32,
    store: &[u8],
    one: &[u8],
    other: &[u8],
    names: &mut [u8],
    marks: &mut [u8],
    levels: &mut [u32],
    times: &[i64],
    line: &mut [u32],
    parents: &[u8],
    id: &mut [u8],
    numbers: &mut [u64],
) -> u32
    ensures { LibraryMergeBase (kind_of width) store.now one.now other.now (lengths_of (length names.old) (length marks.old) (length levels.old) (length times.now) (length line.old) (length parents.now)) (lent names.old marks.old line.old) (lent names.new marks.new line.new) levels.old levels.new id.old id.new numbers.old numbers.new result }
{
    mergewire::merge_base(
        width, store, one, other, names, marks, levels, times, line, parents, id, numbers,
    )
}

// How long the graph file of a store is (document 02, card 4): the result is 0 and the first number the file's bytes, else the number of the
// refusal, 2, 4, 1, 18 or 19, and 0. After 2, 4 and 1 the lent levels, one for each
// entry, are as they were. Where there is no room for the number the result is 101: nothing is read, and nothing is altered.
pub fn linenhatch_graph_length(
    width: u32,
    store: &[u8],
    levels: &mut [u32],
    numbers: &mut [u64],
) -> u32
    ensures { LibraryMeasures (kind_of width) store.now levels.old levels.new numbers.old numbers.new result }
{
    graphwire::graph_length(width, store, levels, numbers)
}

// Writes the graph file of a store (document 02, card 4) at the start of output: the result is 0 and the first number the file's bytes, and no
// other byte of output is altered; else the number of the refusal, as of the function above or then 20, and 0, and no byte of output is altered.
// Where there is no room for the number the result is 101: nothing is read, and nothing is altered.
pub fn linenhatch_write_graph(
    width: u32,
    store: &[u8],
    levels: &mut [u32],
    output: &mut [u8],
    numbers: &mut [u64],
) -> u32
    ensures { LibraryWrites (kind_of width) store.now levels.old levels.new output.old output.new numbers.old numbers.new result }
{
    graphwire::write_graph(width, store, levels, output, numbers)
}

// The feed report of a whole walk (document 02, cards 5 and 10): the result is 0, six numbers are the commits with both readings, the cone's alone,
// the bed's alone and neither, and the sums of all readings of the cone and of the bed, and the signed number is the sum of cone less bed over those
// with both; else the number of the refusal, and zeros. Where outside is 0 the report is for the shop's reader, who sees all; with any other number it is
// for an outside one, and each embargoed id counts as a commit with neither reading. The list of embargoed ids is one for 2 and 3, for both. After 1
// to 8 the lent memory is as it was. Where there is no room for the numbers the result is 101: nothing is read, and nothing is altered.
pub fn linenhatch_feed(
    width: u32,
    store: &[u8],
    graph: &[u8],
    tips: &[u8],
    hidden: &[u8],
    excluded: &[u8],
    sorting: u32,
    limited: u32,
    cutoff: i64,
    first: u32,
    embargoed: &[u8],
    outside: u32,
    names: &mut [u8],
    marks: &mut [u8],
    levels: &mut [u32],
    times: &mut [i64],
    line: &mut [u32],
    parents: &mut [u8],
    numbers: &mut [u64],
    difference: &mut [i64],
) -> u32
    ensures { LibraryFeed (reader_of outside) embargoed.now (input_of store.now graph.now tips.now hidden.now excluded.now (settings_of width sorting limited cutoff first)) (lent_of names.old marks.old levels.old times.old line.old parents.old) (lent_of names.new marks.new levels.new times.new line.new parents.new) numbers.old numbers.new difference.old difference.new result }
{
    reportwire::feed(
        width, store, graph, tips, hidden, excluded, sorting, limited, cutoff, first, embargoed,
        outside, names, marks, levels, times, line, parents, numbers, difference,
    )
}

// How many commits of a whole walk lie in each term (document 02, card 9): the result is 0, counts has a number for each two months and 0 in every place past
// them, and the first number is that of the commits outside all; else the number of the refusal, 24 before all else, and zeros. After 24 and 1 to 8 the lent
// memory is as it was. Where there is no room for the counts or the number the result is 101: nothing is read, and nothing is altered.
pub fn linenhatch_terms(
    width: u32,
    store: &[u8],
    graph: &[u8],
    tips: &[u8],
    hidden: &[u8],
    excluded: &[u8],
    sorting: u32,
    limited: u32,
    cutoff: i64,
    first: u32,
    months: &[u32],
    names: &mut [u8],
    marks: &mut [u8],
    levels: &mut [u32],
    times: &mut [i64],
    line: &mut [u32],
    parents: &mut [u8],
    counts: &mut [u64],
    numbers: &mut [u64],
) -> u32
    ensures { LibraryTerms (input_of store.now graph.now tips.now hidden.now excluded.now (settings_of width sorting limited cutoff first)) months.now (lent_of names.old marks.old levels.old times.old line.old parents.old) (lent_of names.new marks.new levels.new times.new line.new parents.new) counts.old counts.new numbers.old numbers.new result }
{
    reportwire::terms::terms(
        width, store, graph, tips, hidden, excluded, sorting, limited, cutoff, first, months,
        names, marks, levels, times, line, parents, counts, numbers,
    )
}
