// What a whole walk is called for, and what its answers come to: the step that is folded over them.
#![tactic(auto)]

pub mod feeds;
pub mod terms;

ghost use Rattle.std.specs.Prelude.{◌≡◌, true, ◌↔◌, ◌+◌, ◌≤◌, ◌<◌, None};
ghost use Rattle.hash.specs.Bytes.{width_of};
ghost use Rattle.object.specs.Ids.{id_in};
ghost use Rattle.odb.specs.Store.{store_is_ok};
ghost use Rattle.walk.specs.Opening.{list_ids};
ghost use Rattle.walk.specs.declared.Outcome.TheVariants.{Commit};
ghost use Rattle.tally.specs.Feeds.{no_reading, feed_at, feed_for, SmallIn};
ghost use Rattle.tally.specs.Terms.{term_of, counts_at, FewCounts};
ghost use Rattle.tally.specs.Tally.{commits_after, refused_after, reason_or, reason_after, no_tally, counted, read_in, fed_by, ids_after, placed, placed_by, counts_after, step_of, ids_by, counts_by, Low, Ready, is_refusal, halted, calls_left};

use feed::Feed;
use feeds::Feeds;
use hash::Kind;
use walk::{Answer, Outcome, Refusal};

// What a whole walk is called for.
#[derive(Clone, Copy)]
pub enum Task {
    // The ids of all commits, set down in the caller's buffer.
    Ids,
    // The feed report, which ends at the first refusal or faulty commit.
    Feed,
    // The report by terms, which ends at the first refusal.
    Terms,
}

// What the answers so far came to.
#[derive(Clone, Copy)]
pub struct Tally {
    // How many commits were handed out, but for those that the task finds faulty.
    pub commits: usize,
    // How many calls were refused, and how many commits were faulty.
    pub refused: usize,
    // The first of these refusals, or End where there is none.
    pub reason: Outcome,
    // The readings of the commits, where the task is the feed report.
    pub feeds: Feeds,
    // How many commits lie outside all terms, where the task is the report by terms.
    pub outside: u64,
}

// Before any call.
pub fn no_tally() -> Tally
    ensures { result ≡ no_tally }
{
    Tally {
        commits: 0,
        refused: 0,
        reason: Outcome::End,
        feeds: feeds::no_feeds(),
        outside: 0,
    }
}

// How many commits were handed out, after a call more.
fn commits_after(n: usize, outcome: Outcome) -> usize
    requires { n ≤ 4294967296 }
    ensures { result ≡ commits_after n outcome }
{
    match outcome {
        Outcome::Commit => n + 1,
        Outcome::End => n,
        Outcome::Refused(_) => n,
    }
}

// How many calls were refused, after a call more.
fn refused_after(n: usize, outcome: Outcome) -> usize
    requires { n ≤ 4294967296 }
    ensures { result ≡ refused_after n outcome }
{
    match outcome {
        Outcome::Commit => n,
        Outcome::End => n,
        Outcome::Refused(_) => n + 1,
    }
}

// The first refusal, or else this outcome.
fn reason_or(first: Outcome, outcome: Outcome) -> Outcome
    ensures { result ≡ reason_or first outcome }
{
    match first {
        Outcome::Commit => outcome,
        Outcome::End => outcome,
        Outcome::Refused(_) => first,
    }
}

// The first refusal, after a call more.
fn reason_after(first: Outcome, outcome: Outcome) -> Outcome
    ensures { result ≡ reason_after first outcome }
{
    match outcome {
        Outcome::Commit => first,
        Outcome::End => first,
        Outcome::Refused(_) => reason_or(first, outcome),
    }
}

// A tally with one call more, and these readings.
fn count(t: Tally, outcome: Outcome, f: Feeds) -> Tally
    requires { Low t }
    ensures { result ≡ counted t outcome f }
{
    let first = t.reason;
    Tally {
        commits: commits_after(t.commits, outcome),
        refused: refused_after(t.refused, outcome),
        reason: reason_after(first, outcome),
        feeds: f,
        outside: t.outside,
    }
}

// Sets down the id of a commit that was handed out, behind the n ids before it, where it fits.
fn set_down_commit(kind: Kind, ids: &mut [u8], n: usize, answer: Answer)
    requires { n ≤ 4294967296 }
    ensures { ids.new ≡ ids_after (width_of kind) ids.old n answer.outcome answer.info.id }
{
    let outcome = answer.outcome;
    let info = answer.info;
    match outcome {
        Outcome::Commit => hash::set_nth(kind, ids, n, object::id_slice(kind, &info.id)),
        Outcome::End => {}
        Outcome::Refused(_) => {}
    }
}

// The readings of a body, where one was found.
fn read_in(found: bool, body: &[u8]) -> Result<Feed, Refusal>
    ensures { result ≡ read_in found body.now }
{
    if found {
        feed::read(body)
    } else {
        no_reading()
    }
}

// Neither reading.
fn no_reading() -> Result<Feed, Refusal>
    ensures { result ≡ no_reading }
{
    Ok(Feed {
        cone: None,
        bed: None,
    })
}

// The readings of a commit, by its body in the store.
fn feed_at(kind: Kind, store: &[u8], id: &[u8]) -> Result<Feed, Refusal>
    ensures { (store_is_ok (width_of kind) store.now ≡ true → result ≡ feed_at (width_of kind) store.now id.now) × SmallIn result }
{
    let mut found = false;
    let body = odb::try_find(kind, store, id, &mut found);
    read_in(found, body)
}

// The readings of a commit; those of an embargoed one are withheld.
fn feed_for(kind: Kind, embargoed: &[u8], store: &[u8], id: &[u8]) -> Result<Feed, Refusal>
    ensures { (store_is_ok (width_of kind) store.now ≡ true → result ≡ feed_for (width_of kind) (list_ids (width_of kind) embargoed.now) store.now id.now) × SmallIn result }
{
    if reading::is_among(kind, embargoed, id) {
        no_reading()
    } else {
        feed_at(kind, store, id)
    }
}

// A tally with a commit more that has these readings.
fn add_commit(t: Tally, read: Result<Feed, Refusal>) -> Tally
    requires { Low t × SmallIn read }
    ensures { result ≡ fed_by t Commit read }
{
    let had = t.feeds;
    match read {
        Ok(f) => count(t, Outcome::Commit, feeds::plus(had, feeds::feeds_of(f))),
        Err(r) => count(t, Outcome::Refused(r), had),
    }
}

// A tally with an answer more, for the feed report.
fn feed_step(kind: Kind, t: Tally, answer: Answer, embargoed: &[u8], store: &[u8]) -> Tally
    requires { Low t }
    ensures { store_is_ok (width_of kind) store.now ≡ true → result ≡ fed_by t answer.outcome (feed_for (width_of kind) (list_ids (width_of kind) embargoed.now) store.now (id_in (width_of kind) answer.info.id)) }
{
    let outcome = answer.outcome;
    let info = answer.info;
    let had = t.feeds;
    match outcome {
        Outcome::Commit => add_commit(
            t,
            feed_for(kind, embargoed, store, object::id_slice(kind, &info.id)),
        ),
        Outcome::End => t,
        Outcome::Refused(_) => count(t, outcome, had),
    }
}

// A tally with an answer more, for the ids, which are set down where they fit.
fn ids_step(kind: Kind, t: Tally, answer: Answer, ids: &mut [u8]) -> Tally
    requires { Low t }
    ensures { (result ≡ counted t answer.outcome t.feeds) × (ids.new ≡ ids_after (width_of kind) ids.old t.commits answer.outcome answer.info.id) }
{
    let outcome = answer.outcome;
    let had = t.feeds;
    set_down_commit(kind, ids, t.commits, answer);
    count(t, outcome, had)
}

// A tally with a commit more that lies outside all terms.
fn one_outside(t: Tally) -> Tally
    requires { Low t }
    ensures { result ≡ placed t None }
{
    let reason = t.reason;
    let had = t.feeds;
    Tally {
        commits: t.commits + 1,
        refused: t.refused,
        reason,
        feeds: had,
        outside: t.outside + 1,
    }
}

// A tally with a commit more of this term, which is counted there.
fn place(t: Tally, spot: Option<usize>, counts: &mut [u64]) -> Tally
    requires { Low t }
    ensures { (result ≡ placed t spot) × (FewCounts 4294967296 counts.old → counts.new ≡ counts_at counts.old spot) }
{
    let had = t.feeds;
    match spot {
        Some(k) => {
            terms::bump(counts, k);
            count(t, Outcome::Commit, had)
        }
        None => one_outside(t),
    }
}

// A tally with an answer more, for the report by terms.
fn terms_step(
    kind: Kind,
    t: Tally,
    answer: Answer,
    store: &[u8],
    terms: &[u32],
    counts: &mut [u64],
) -> Tally
    requires { Low t }
    ensures { Ready (width_of kind) terms.now store.now t counts.old → (result ≡ placed_by t answer.outcome (term_of (width_of kind) terms.now store.now (id_in (width_of kind) answer.info.id))) × (counts.new ≡ counts_after counts.old answer.outcome (term_of (width_of kind) terms.now store.now (id_in (width_of kind) answer.info.id))) }
{
    let outcome = answer.outcome;
    let info = answer.info;
    let had = t.feeds;
    match outcome {
        Outcome::Commit => place(
            t,
            terms::term_of(kind, terms, store, object::id_slice(kind, &info.id)),
            counts,
        ),
        Outcome::End => t,
        Outcome::Refused(_) => count(t, outcome, had),
    }
}

// What an answer more comes to, where one more fits each number.
fn fold_low(
    kind: Kind,
    task: Task,
    t: Tally,
    answer: Answer,
    store: &[u8],
    ids: &mut [u8],
    embargoed: &[u8],
    terms: &[u32],
    counts: &mut [u64],
) -> Tally
    requires { Low t }
    ensures { Ready (width_of kind) terms.now store.now t counts.old → (result ≡ step_of (width_of kind) task embargoed.now terms.now store.now t answer.outcome answer.info.id) × (ids.new ≡ ids_by (width_of kind) task ids.old t.commits answer.outcome answer.info.id) × (counts.new ≡ counts_by (width_of kind) task terms.now store.now counts.old answer.outcome answer.info.id) }
{
    match task {
        Task::Ids => ids_step(kind, t, answer, ids),
        Task::Feed => feed_step(kind, t, answer, embargoed, store),
        Task::Terms => terms_step(kind, t, answer, store, terms, counts),
    }
}

// Whether one more fits each number.
fn is_low(t: Tally) -> bool
    ensures { (result ≡ true) ↔ Low t }
{
    let f = t.feeds;
    if 4294967296 < t.commits {
        return false;
    }
    if 4294967296 < t.refused {
        return false;
    }
    if 4294967296 < t.outside {
        return false;
    }
    feeds::is_low(f)
}

// The step: what an answer more comes to. Numbers that one more might not fit are left as they are; no walk comes to them.
pub fn fold(
    kind: Kind,
    task: Task,
    t: Tally,
    answer: Answer,
    store: &[u8],
    ids: &mut [u8],
    embargoed: &[u8],
    terms: &[u32],
    counts: &mut [u64],
) -> Tally
    ensures { Ready (width_of kind) terms.now store.now t counts.old → (result ≡ step_of (width_of kind) task embargoed.now terms.now store.now t answer.outcome answer.info.id) × (ids.new ≡ ids_by (width_of kind) task ids.old t.commits answer.outcome answer.info.id) × (counts.new ≡ counts_by (width_of kind) task terms.now store.now counts.old answer.outcome answer.info.id) }
{
    if is_low(t) {
        fold_low(kind, task, t, answer, store, ids, embargoed, terms, counts)
    } else {
        t
    }
}

// Whether an outcome is a refusal.
fn is_refusal(outcome: Outcome) -> bool
    ensures { result ≡ is_refusal outcome }
{
    match outcome {
        Outcome::Commit => false,
        Outcome::End => false,
        Outcome::Refused(_) => true,
    }
}

// Whether the task ends with this tally: a report ends at its first refusal.
fn is_halted(task: Task, t: Tally) -> bool
    ensures { result ≡ halted task t }
{
    let reason = t.reason;
    match task {
        Task::Ids => false,
        Task::Feed => is_refusal(reason),
        Task::Terms => is_refusal(reason),
    }
}

// How many of some calls may follow one that came out so.
pub fn calls_left(task: Task, t: Tally, left: usize, outcome: Outcome) -> usize
    ensures { result ≡ calls_left task t left outcome }
{
    if is_halted(task, t) {
        0
    } else {
        walk::calls_after(left, outcome)
    }
}
