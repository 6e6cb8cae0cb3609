// The library for callers in C: each function of the crate `linenhatch` under its own name, with the same clauses. bindings/c/linenhatch.h declares
// them; the archive that is made of this crate is liblinenhatch.a.
#![tactic(auto)]

ghost use Rattle.std.specs.Prelude.{ℕ, ◌≡◌, List, length};
ghost use Rattle.hash.specs.Bytes.{width_of};
ghost use Rattle.walk.specs.declared.Settings.{Settings};
ghost use Rattle.walk.specs.Opening.{P};
ghost use Rattle.opening.specs.Checks.{input_of, lengths_of};
ghost use Rattle.reach.specs.Memory.{lent};
ghost use Rattle.tracewire.specs.Wire.{LibraryTrace};
ghost use Rattle.mergewire.specs.Wire.{LibraryMergeBase};
ghost use Rattle.reportwire.specs.Feed.{reader_of, LibraryFeed};
ghost use Rattle.reportwire.specs.Terms.{LibraryTerms};
ghost use Rattle.graphwire.specs.Wire.{LibraryMeasures, LibraryWrites};
ghost use Rattle.traverse.specs.Open.{lent_of};
ghost use Rattle.traverse.specs.Next.{files_lent};
ghost use Rattle.wire.specs.Words.{kind_of};
ghost use Rattle.wire.specs.Numbers.{settings_of};
ghost use Rattle.linenhatch.specs.Library.{LibraryOpens, LibraryOpensTested, LibraryNext, LibraryChecks};

// `linenhatch::linenhatch_places`.
#[unsafe(no_mangle)]
pub extern "C" fn linenhatch_places(
    width: u32,
    store: &[u8],
    graph: &[u8],
    tips: &[u8],
    hidden: &[u8],
) -> usize
    ensures { (excluded : List ℕ) (s : Settings) → s.kind ≡ kind_of width → result ≡ P (input_of store.now graph.now tips.now hidden.now excluded s) }
{
    linenhatch::linenhatch_places(width, store, graph, tips, hidden)
}

// `linenhatch::linenhatch_open`.
#[unsafe(no_mangle)]
pub extern "C" fn linenhatch_open(
    width: u32,
    store: &[u8],
    graph: &[u8],
    tips: &[u8],
    hidden: &[u8],
    excluded: &[u8],
    sorting: u32,
    limited: u32,
    cutoff: i64,
    first: u32,
    names: &mut [u8],
    marks: &mut [u8],
    levels: &mut [u32],
    times: &mut [i64],
    line: &mut [u32],
    parents: &mut [u8],
    words: &mut [u64],
    numbers: &mut [u64],
) -> u32
    ensures { LibraryOpens (input_of store.now graph.now tips.now hidden.now excluded.now (settings_of width sorting limited cutoff first)) (lent_of names.old marks.old levels.old times.old line.old parents.old) (lent_of names.new marks.new levels.new times.new line.new parents.new) words.old words.new numbers.old numbers.new result }
{
    linenhatch::linenhatch_open(
        width, store, graph, tips, hidden, excluded, sorting, limited, cutoff, first, names, marks,
        levels, times, line, parents, words, numbers,
    )
}

// `linenhatch::linenhatch_open_tested`.
#[unsafe(no_mangle)]
pub extern "C" fn linenhatch_open_tested(
    width: u32,
    store: &[u8],
    graph: &[u8],
    tips: &[u8],
    hidden: &[u8],
    excluded: &[u8],
    sorting: u32,
    limited: u32,
    cutoff: i64,
    first: u32,
    names: &mut [u8],
    marks: &mut [u8],
    levels: &mut [u32],
    times: &mut [i64],
    line: &mut [u32],
    parents: &mut [u8],
    words: &mut [u64],
    numbers: &mut [u64],
) -> u32
    ensures { LibraryOpensTested (input_of store.now graph.now tips.now hidden.now excluded.now (settings_of width sorting limited cutoff first)) (lent_of names.old marks.old levels.old times.old line.old parents.old) (lent_of names.new marks.new levels.new times.new line.new parents.new) words.old words.new numbers.old numbers.new result }
{
    linenhatch::linenhatch_open_tested(
        width, store, graph, tips, hidden, excluded, sorting, limited, cutoff, first, names, marks,
        levels, times, line, parents, words, numbers,
    )
}

// `linenhatch::linenhatch_next`.
#[unsafe(no_mangle)]
pub extern "C" fn linenhatch_next(
    width: u32,
    words: &mut [u64],
    store: &[u8],
    graph: &[u8],
    hidden: &[u8],
    excluded: &[u8],
    sorting: u32,
    limited: u32,
    cutoff: i64,
    first: u32,
    names: &mut [u8],
    marks: &mut [u8],
    levels: &mut [u32],
    times: &mut [i64],
    line: &mut [u32],
    parents: &mut [u8],
    id: &mut [u8],
    numbers: &mut [u64],
    seconds: &mut [i64],
) -> u32
    ensures { LibraryNext (files_lent store.now graph.now hidden.now excluded.now (settings_of width sorting limited cutoff first)) (lent_of names.old marks.old levels.old times.old line.old parents.old) (lent_of names.new marks.new levels.new times.new line.new parents.new) words.old words.new id.old id.new numbers.old numbers.new seconds.old seconds.new result }
{
    linenhatch::linenhatch_next(
        width, words, store, graph, hidden, excluded, sorting, limited, cutoff, first, names,
        marks, levels, times, line, parents, id, numbers, seconds,
    )
}

// `linenhatch::linenhatch_check_names`.
#[unsafe(no_mangle)]
pub extern "C" fn linenhatch_check_names(
    width: u32,
    store: &[u8],
    graph: &[u8],
    numbers: &mut [u64],
) -> u32
    ensures { LibraryChecks (kind_of width) store.now graph.now numbers.old numbers.new result }
{
    linenhatch::linenhatch_check_names(width, store, graph, numbers)
}

// `linenhatch::linenhatch_trace`.
#[unsafe(no_mangle)]
pub extern "C" fn linenhatch_trace(
    width: u32,
    store: &[u8],
    start: &[u8],
    list: &[u8],
    d: u32,
    memo: &mut [u8],
    id: &mut [u8],
    numbers: &mut [u64],
) -> u32
    ensures { LibraryTrace (width_of (kind_of width)) store.now start.now list.now d memo.old memo.new id.old id.new numbers.old numbers.new result }
{
    linenhatch::linenhatch_trace(width, store, start, list, d, memo, id, numbers)
}

// `linenhatch::linenhatch_merge_base`.
#[unsafe(no_mangle)]
pub extern "C" fn linenhatch_merge_base(
    width: u32,
    store: &[u8],
    one: &[u8],
    other: &[u8],
    names: &mut [u8],
    marks: &mut [u8],
    levels: &mut [u32],
    times: &[i64],
    line: &mut [u32],
    parents: &[u8],
    id: &mut [u8],
    numbers: &mut [u64],
) -> u32
    ensures { LibraryMergeBase (kind_of width) store.now one.now other.now (lengths_of (length names.old) (length marks.old) (length levels.old) (length times.now) (length line.old) (length parents.now)) (lent names.old marks.old line.old) (lent names.new marks.new line.new) levels.old levels.new id.old id.new numbers.old numbers.new result }
{
    linenhatch::linenhatch_merge_base(
        width, store, one, other, names, marks, levels, times, line, parents, id, numbers,
    )
}

// `linenhatch::linenhatch_graph_length`.
#[unsafe(no_mangle)]
pub extern "C" fn linenhatch_graph_length(
    width: u32,
    store: &[u8],
    levels: &mut [u32],
    numbers: &mut [u64],
) -> u32
    ensures { LibraryMeasures (kind_of width) store.now levels.old levels.new numbers.old numbers.new result }
{
    linenhatch::linenhatch_graph_length(width, store, levels, numbers)
}

// `linenhatch::linenhatch_write_graph`.
#[unsafe(no_mangle)]
pub extern "C" fn linenhatch_write_graph(
    width: u32,
    store: &[u8],
    levels: &mut [u32],
    output: &mut [u8],
    numbers: &mut [u64],
) -> u32
    ensures { LibraryWrites (kind_of width) store.now levels.old levels.new output.old output.new numbers.old numbers.new result }
{
    linenhatch::linenhatch_write_graph(width, store, levels, output, numbers)
}

// `linenhatch::linenhatch_feed`.
#[unsafe(no_mangle)]
pub extern "C" fn linenhatch_feed(
    width: u32,
    store: &[u8],
    graph: &[u8],
    tips: &[u8],
    hidden: &[u8],
    excluded: &[u8],
    sorting: u32,
    limited: u32,
    cutoff: i64,
    first: u32,
    embargoed: &[u8],
    outside: u32,
    names: &mut [u8],
    marks: &mut [u8],
    levels: &mut [u32],
    times: &mut [i64],
    line: &mut [u32],
    parents: &mut [u8],
    numbers: &mut [u64],
    difference: &mut [i64],
) -> u32
    ensures { LibraryFeed (reader_of outside) embargoed.now (input_of store.now graph.now tips.now hidden.now excluded.now (settings_of width sorting limited cutoff first)) (lent_of names.old marks.old levels.old times.old line.old parents.old) (lent_of names.new marks.new levels.new times.new line.new parents.new) numbers.old numbers.new difference.old difference.new result }
{
    linenhatch::linenhatch_feed(
        width, store, graph, tips, hidden, excluded, sorting, limited, cutoff, first, embargoed,
        outside, names, marks, levels, times, line, parents, numbers, difference,
    )
}

// `linenhatch::linenhatch_terms`.
#[unsafe(no_mangle)]
pub extern "C" fn linenhatch_terms(
    width: u32,
    store: &[u8],
    graph: &[u8],
    tips: &[u8],
    hidden: &[u8],
    excluded: &[u8],
    sorting: u32,
    limited: u32,
    cutoff: i64,
    first: u32,
    months: &[u32],
    names: &mut [u8],
    marks: &mut [u8],
    levels: &mut [u32],
    times: &mut [i64],
    line: &mut [u32],
    parents: &mut [u8],
    counts: &mut [u64],
    numbers: &mut [u64],
) -> u32
    ensures { LibraryTerms (input_of store.now graph.now tips.now hidden.now excluded.now (settings_of width sorting limited cutoff first)) months.now (lent_of names.old marks.old levels.old times.old line.old parents.old) (lent_of names.new marks.new levels.new times.new line.new parents.new) counts.old counts.new numbers.old numbers.new result }
{
    linenhatch::linenhatch_terms(
        width, store, graph, tips, hidden, excluded, sorting, limited, cutoff, first, months,
        names, marks, levels, times, line, parents, counts, numbers,
    )
}
