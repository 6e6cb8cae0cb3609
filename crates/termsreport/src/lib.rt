// The report of a whole walk by terms (document 02, card 9): how many of its commits lie in each term, and how many outside all.
#![tactic(auto)]

ghost use Rattle.std.specs.Prelude.{◌≡◌, length};
ghost use Rattle.opening.specs.Checks.{input_of};
ghost use Rattle.traverse.specs.Open.{lent_of};
ghost use Rattle.termsreport.specs.Terms.{refused_terms, whole_terms, terms_by, kept_by, report_of, settled, TermsSays};

use driver::Driven;
use tally::Task;
use walk::{Outcome, Refusal, Settings};

// The report by terms, beside its counts.
#[derive(Clone, Copy)]
pub struct TermsReport {
    pub outcome: Result<(), Refusal>,
    // How many commits lie outside all terms or have no readable seconds in the store; 0 where the report is refused.
    pub outside: u64,
}

// A refused report.
fn refused_terms(r: Refusal) -> TermsReport
    ensures { result ≡ refused_terms r }
{
    TermsReport {
        outcome: Err(r),
        outside: 0,
    }
}

// A whole report.
fn whole_terms(outside: u64) -> TermsReport
    ensures { result ≡ whole_terms outside }
{
    TermsReport {
        outcome: Ok(()),
        outside,
    }
}

// The report of a walk whose opening was accepted, by its first refusal, which leaves no counts.
fn settle_by(reason: Outcome, outside: u64, counts: &mut [u64]) -> TermsReport
    ensures { (result ≡ terms_by reason outside) × (counts.new ≡ kept_by reason counts.old) }
{
    match reason {
        Outcome::Refused(r) => {
            tally::terms::clear(counts);
            refused_terms(r)
        }
        Outcome::Commit => whole_terms(outside),
        Outcome::End => whole_terms(outside),
    }
}

// What the driver came to, as a report.
fn settle(d: Driven, counts: &mut [u64]) -> TermsReport
    ensures { (result ≡ report_of d) × (counts.new ≡ settled d counts.old) }
{
    let outcome = d.outcome;
    let tally = d.tally;
    let reason = tally.reason;
    match outcome {
        Err(r) => refused_terms(r),
        Ok(()) => settle_by(reason, tally.outside, counts),
    }
}

// The report of a whole walk by terms: a count for each term, as far as there are places, and zeros past them. After a refusal all counts are 0;
// 24 and 1 to 8 alter no other lent byte, else all lent memory is free afterwards.
pub fn terms_report(
    store: &[u8],
    graph: &[u8],
    tips: &[u8],
    hidden: &[u8],
    excluded: &[u8],
    settings: Settings,
    terms: &[u32],
    names: &mut [u8],
    marks: &mut [u8],
    levels: &mut [u32],
    times: &mut [i64],
    line: &mut [u32],
    parents: &mut [u8],
    counts: &mut [u64],
) -> TermsReport
    ensures { TermsSays (input_of store.now graph.now tips.now hidden.now excluded.now settings) terms.now (lent_of names.old marks.old levels.old times.old line.old parents.old) counts.old result (lent_of names.new marks.new levels.new times.new line.new parents.new) counts.new }
{
    if calendar::bad_terms(terms) {
        tally::terms::clear(counts);
        return refused_terms(Refusal::BadTerms);
    }
    // No id is set down, and no reading is withheld.
    let mut ids = [0u8; 1];
    let embargoed = [0u8; 1];
    let d = driver::drive(
        Task::Terms,
        store,
        graph,
        tips,
        hidden,
        excluded,
        settings,
        names,
        marks,
        levels,
        times,
        line,
        parents,
        &mut ids,
        &embargoed,
        terms,
        counts,
    );
    settle(d, counts)
}
