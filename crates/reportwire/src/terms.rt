// The report of a whole walk by terms, for callers in other languages.
ghost use Rattle.std.specs.Prelude.{◌≡◌};
ghost use Rattle.opening.specs.Checks.{input_of};
ghost use Rattle.traverse.specs.Open.{lent_of};
ghost use Rattle.wire.specs.Numbers.{settings_of};
ghost use Rattle.reportwire.specs.Terms.{room_for_terms, PutsOutside, LibraryTerms};

use termsreport::TermsReport;

// Whether there is room for a report by terms: a count for each two months, and a number for the commits outside.
fn can_count(months: &[u32], counts: &[u64], numbers: &[u64]) -> bool
    ensures { result ≡ room_for_terms months.now counts.now numbers.now }
{
    if counts.len() < months.len() / 2 {
        return false;
    }
    1 <= numbers.len()
}

// The commits outside all terms set down, and the report's number.
fn put_outside(r: TermsReport, numbers: &mut [u64]) -> u32
    ensures { PutsOutside r numbers.old numbers.new result }
{
    let w = [r.outside];
    wire::put(numbers, &w);
    let o = r.outcome;
    super::number(o)
}

// The report of a whole walk by terms, set down: a count for each term, 0 in every place of counts past them, and the commits outside all; without room
// for it nothing is altered and the result is 101.
pub fn terms(
    width: u32,
    store: &[u8],
    graph: &[u8],
    tips: &[u8],
    hidden: &[u8],
    excluded: &[u8],
    sorting: u32,
    limited: u32,
    cutoff: i64,
    first: u32,
    months: &[u32],
    names: &mut [u8],
    marks: &mut [u8],
    levels: &mut [u32],
    times: &mut [i64],
    line: &mut [u32],
    parents: &mut [u8],
    counts: &mut [u64],
    numbers: &mut [u64],
) -> u32
    ensures { LibraryTerms (input_of store.now graph.now tips.now hidden.now excluded.now (settings_of width sorting limited cutoff first)) months.now (lent_of names.old marks.old levels.old times.old line.old parents.old) (lent_of names.new marks.new levels.new times.new line.new parents.new) counts.old counts.new numbers.old numbers.new result }
{
    if !can_count(months, counts, numbers) {
        return super::NO_ROOM;
    }
    let settings = wire::settings_of(width, sorting, limited, cutoff, first);
    let r = termsreport::terms_report(
        store, graph, tips, hidden, excluded, settings, months, names, marks, levels, times, line,
        parents, counts,
    );
    put_outside(r, numbers)
}
