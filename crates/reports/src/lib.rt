// Reports over a whole walk (document 02, cards 5 and 10): the readings of its commits, counted and added up, for the shop's reader and for an
// outside one, from whom the readings of embargoed ids are withheld.
#![tactic(auto)]

ghost use Rattle.std.specs.Prelude.{◌≡◌, leb, pos, ◌-ℤ◌, length, ◌<◌};
ghost use Rattle.hash.specs.Bytes.{width_of};
ghost use Rattle.walk.specs.Opening.{list_limit};
ghost use Rattle.opening.specs.Checks.{input_of, checked_of};
ghost use Rattle.traverse.specs.Open.{lent_of};
ghost use Rattle.tally.specs.Feeds.{LowFeeds};
ghost use Rattle.reports.specs.Report.{refused_report, whole_report, withheld, embargo_fault, report_after, report_of, FeedSays};

use driver::Driven;
use hash::Kind;
use tally::Task;
use tally::feeds::Feeds;
use walk::{Outcome, Refusal, Settings};

// Who a report is for.
#[derive(Clone, Copy)]
pub enum Reader {
    // The shop's reader, who sees all.
    Shop,
    // An outside reader, from whom the readings of embargoed commits are withheld.
    Outside,
}

// The feed report; zeros where it is refused.
#[derive(Clone, Copy)]
pub struct FeedReport {
    pub outcome: Result<(), Refusal>,
    // How many commits have both readings, the cone's alone, the bed's alone, and neither.
    pub both: u64,
    pub cone: u64,
    pub bed: u64,
    pub neither: u64,
    // The sums of all readings of the cone, and of the bed, in millimetres.
    pub cone_sum: u64,
    pub bed_sum: u64,
    // Over the commits with both readings: cone less bed.
    pub difference: i64,
}

// A refused report.
fn refused_report(r: Refusal) -> FeedReport
    ensures { result ≡ refused_report r }
{
    FeedReport {
        outcome: Err(r),
        both: 0,
        cone: 0,
        bed: 0,
        neither: 0,
        cone_sum: 0,
        bed_sum: 0,
        difference: 0,
    }
}

// One sum less another.
fn less(a: u64, b: u64) -> i64
    requires { (a < 4611686018427387904) × (b < 4611686018427387904) }
    ensures { result ≡ pos a -ℤ pos b }
{
    (a as i64) - (b as i64)
}

// A whole report.
fn whole_report(f: Feeds) -> FeedReport
    requires { LowFeeds f }
    ensures { result ≡ whole_report f }
{
    FeedReport {
        outcome: Ok(()),
        both: f.both,
        cone: f.cone,
        bed: f.bed,
        neither: f.neither,
        cone_sum: f.cone_sum,
        bed_sum: f.bed_sum,
        difference: less(f.paired_cone, f.paired_bed),
    }
}

// The report of a walk whose opening was accepted, by its first refusal.
fn report_after(reason: Outcome, f: Feeds) -> FeedReport
    requires { LowFeeds f }
    ensures { result ≡ report_after reason f }
{
    match reason {
        Outcome::Refused(r) => refused_report(r),
        Outcome::Commit => whole_report(f),
        Outcome::End => whole_report(f),
    }
}

// What the driver came to, as a report.
fn report_of(d: Driven) -> FeedReport
    requires { LowFeeds d.tally.feeds }
    ensures { result ≡ report_of d }
{
    let outcome = d.outcome;
    let tally = d.tally;
    let reason = tally.reason;
    let feeds = tally.feeds;
    match outcome {
        Err(r) => refused_report(r),
        Ok(()) => report_after(reason, feeds),
    }
}

// The most ids of a list.
const MOST_IDS: usize = 1024;

// Whether a list has at most the bytes of 1,024 ids.
fn list_fits(kind: Kind, list: &[u8]) -> bool
    ensures { result ≡ leb (length list.now) (list_limit (width_of kind)) }
{
    list.len() <= MOST_IDS * hash::width(kind)
}

// Refusals 2 and 3 of the embargoed list, in their places among the opening's. 3 comes after every 2, so with a list that is not of whole ids the others
// are tested for 2: by the opening's own tests, with this list in the place of the excluded ids, where they end with 2 or 3.
fn check_embargoed(
    kind: Kind,
    store: &[u8],
    graph: &[u8],
    tips: &[u8],
    hidden: &[u8],
    excluded: &[u8],
    embargoed: &[u8],
) -> Result<(), Refusal>
    ensures { (s : Settings) → s.kind ≡ kind → result ≡ checked_of (embargo_fault (input_of store.now graph.now tips.now hidden.now excluded.now s) embargoed.now) }
{
    if !list_fits(kind, embargoed) {
        return Err(Refusal::InputTooLarge);
    }
    if hash::whole(kind, embargoed.len()) {
        return Ok(());
    }
    if !list_fits(kind, excluded) {
        return Err(Refusal::InputTooLarge);
    }
    opening::check_input(kind, store, graph, tips, hidden, embargoed)
}

// The ids whose readings a reader is not given.
fn withheld(embargoed: &[u8], reader: Reader) -> &[u8]
    ensures { result.now ≡ withheld reader embargoed.now }
{
    match reader {
        Reader::Shop => &embargoed[..0],
        Reader::Outside => embargoed,
    }
}

// The feed report of a whole walk, for a reader. A refusal of 1 to 8, which the embargoed list has a part in for either reader, alters no lent byte; else
// all lent memory is free afterwards.
pub fn feed_report(
    store: &[u8],
    graph: &[u8],
    tips: &[u8],
    hidden: &[u8],
    excluded: &[u8],
    settings: Settings,
    embargoed: &[u8],
    reader: Reader,
    names: &mut [u8],
    marks: &mut [u8],
    levels: &mut [u32],
    times: &mut [i64],
    line: &mut [u32],
    parents: &mut [u8],
) -> FeedReport
    ensures { FeedSays reader embargoed.now (input_of store.now graph.now tips.now hidden.now excluded.now settings) (lent_of names.old marks.old levels.old times.old line.old parents.old) result (lent_of names.new marks.new levels.new times.new line.new parents.new) }
{
    let kind = settings.kind;
    // No id is set down, and nothing is counted by terms.
    let mut ids = [0u8; 1];
    let terms = [0u32; 1];
    let mut counts = [0u64; 1];
    match check_embargoed(kind, store, graph, tips, hidden, excluded, embargoed) {
        Err(r) => refused_report(r),
        Ok(()) => report_of(driver::drive(
            Task::Feed,
            store,
            graph,
            tips,
            hidden,
            excluded,
            settings,
            names,
            marks,
            levels,
            times,
            line,
            parents,
            &mut ids,
            withheld(embargoed, reader),
            &terms,
            &mut counts,
        )),
    }
}
