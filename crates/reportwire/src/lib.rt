// Reports over a whole walk for callers in other languages: the width of ids and the settings as numbers, and a report's numbers in lent slices. Every
// function is total on any bytes, numbers and lengths.
#![tactic(auto)]

pub mod terms;

ghost use Rattle.std.specs.Prelude.{◌≡◌};
ghost use Rattle.opening.specs.Checks.{input_of};
ghost use Rattle.traverse.specs.Open.{lent_of};
ghost use Rattle.wire.specs.Numbers.{settings_of};
ghost use Rattle.reportwire.specs.Feed.{reported_number, feed_words, room_for_feed, reader_of, PutsFeed, LibraryFeed};

use reports::{FeedReport, Reader};
use walk::Refusal;

// The library's result where there is no room for a report: none of document 01's numbers.
const NO_ROOM: u32 = 101;

// How many numbers a feed report has.
const FEED_NUMBERS: usize = 6;

fn wide(n: u8) -> u32
    ensures { result ≡ n }
{
    n as u32
}

// The number of what is said: 0, or the refusal's.
fn number(o: Result<(), Refusal>) -> u32
    ensures { result ≡ reported_number o }
{
    match o {
        Ok(()) => 0,
        Err(r) => wide(walk::number(r)),
    }
}

// Whether there is room for a feed report: six numbers, and a signed one.
fn can_feed(numbers: &[u64], difference: &[i64]) -> bool
    ensures { result ≡ room_for_feed numbers.now difference.now }
{
    if numbers.len() < FEED_NUMBERS {
        return false;
    }
    1 <= difference.len()
}

// A feed report's numbers.
fn feed_words(r: FeedReport) -> [u64; 6]
    ensures { result ≡ feed_words r }
{
    [r.both, r.cone, r.bed, r.neither, r.cone_sum, r.bed_sum]
}

// A feed report set down, and its number.
fn put_feed(r: FeedReport, numbers: &mut [u64], difference: &mut [i64]) -> u32
    ensures { PutsFeed r numbers.old numbers.new difference.old difference.new result }
{
    let w = feed_words(r);
    wire::put(numbers, &w);
    wire::put_seconds(r.difference, difference);
    let o = r.outcome;
    number(o)
}

// Who a report is for.
fn reader_of(outside: u32) -> Reader
    ensures { result ≡ reader_of outside }
{
    if outside == 0 {
        Reader::Shop
    } else {
        Reader::Outside
    }
}

// The feed report of a whole walk for a reader, set down; without room for it nothing is altered and the result is 101.
pub fn feed(
    width: u32,
    store: &[u8],
    graph: &[u8],
    tips: &[u8],
    hidden: &[u8],
    excluded: &[u8],
    sorting: u32,
    limited: u32,
    cutoff: i64,
    first: u32,
    embargoed: &[u8],
    outside: u32,
    names: &mut [u8],
    marks: &mut [u8],
    levels: &mut [u32],
    times: &mut [i64],
    line: &mut [u32],
    parents: &mut [u8],
    numbers: &mut [u64],
    difference: &mut [i64],
) -> u32
    ensures { LibraryFeed (reader_of outside) embargoed.now (input_of store.now graph.now tips.now hidden.now excluded.now (settings_of width sorting limited cutoff first)) (lent_of names.old marks.old levels.old times.old line.old parents.old) (lent_of names.new marks.new levels.new times.new line.new parents.new) numbers.old numbers.new difference.old difference.new result }
{
    if !can_feed(numbers, difference) {
        return NO_ROOM;
    }
    let settings = wire::settings_of(width, sorting, limited, cutoff, first);
    let reader = reader_of(outside);
    let r = reports::feed_report(
        store, graph, tips, hidden, excluded, settings, embargoed, reader, names, marks, levels,
        times, line, parents,
    );
    put_feed(r, numbers, difference)
}
