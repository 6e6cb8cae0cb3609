// The walk's settings, answers and refusals (gix_traverse::commit: `Sorting`, `Parents`, `Info`); specs/ says what a walk is.
#![tactic(auto)]

ghost use Rattle.std.specs.Prelude.{◌≡◌, ltb, ◌-◌};
ghost use Rattle.walk.specs.Given.{calls_after};
ghost use Rattle.walk.specs.Refusals.{number_of};
ghost use Rattle.walk.specs.Lookup.{pair_of, lt_pair};
ghost use Rattle.walk.specs.Settings.{timed, cutoff_of, not_before};

use commitgraph::Level;
use date::Seconds;
use hash::Kind;

// Which of two commits a time order takes first (document 01: newest, oldest).
#[derive(Clone, Copy)]
pub enum CommitTimeOrder {
    NewestFirst,
    OldestFirst,
}

// The order of a walk (document 01: breadth order, time order, a cutoff).
#[derive(Clone, Copy)]
pub enum Sorting {
    BreadthFirst,
    ByCommitTime(CommitTimeOrder),
    ByCommitTimeCutoff {
        order: CommitTimeOrder,
        seconds: Seconds,
    },
}

// Which parents a walk follows (document 01: the mode).
#[derive(Clone, Copy)]
pub enum Parents {
    All,
    First,
}

// The settings of a walk, and the kind of the ids that its files and lists hold (document 02, card 13).
#[derive(Clone, Copy)]
pub struct Settings {
    pub sorting: Sorting,
    pub parents: Parents,
    pub kind: Kind,
}

// A commit's place in the painting's order (document 01: the pair of level and seconds).
#[derive(Clone, Copy, PartialEq, Eq, PartialOrd, Ord)]
pub struct GenThenTime {
    pub generation: Level,
    pub time: Seconds,
}

// Why an opening or a call is refused; `number` gives its number in document 01's table, which document 02's cards go on with.
#[derive(Clone, Copy)]
pub enum Refusal {
    BufferTooSmall,
    InputTooLarge,
    PartialId,
    CorruptStore,
    UnknownGraph,
    CorruptGraph,
    TipNotFound,
    TipUnreadable,
    CommitNotFound,
    CommitUnreadable,
    TooManyParents,
    Closed,
    UnreadableReach,
    GraphAtOdds,
    PairNotFalling,
    FalseName,
    FalseChecksum,
    UnfitStore,
    UnfitSeconds,
    ShortOutput,
    ReadingTwice,
    ReadingUnreadable,
    TangledReach,
    BadTerms,
    TooManyMoves,
}

// What a call gives: a commit, the end, or a refusal. (No Option of a Result: each of the three comes with the same numbers, which stand in `Answer`.)
#[derive(Clone, Copy)]
pub enum Outcome {
    Commit,
    End,
    Refused(Refusal),
}

// What an answer says of a commit (gix_traverse::commit::Info). Its id has the width of its kind, and zeros stand after it. The parents' ids
// stand at the start of the lent buffer `parents`; here is their number. In a refusal and at the end all else is zeros and none.
#[derive(Clone, Copy)]
pub struct Info {
    pub id: [u8; 32],
    pub parents: usize,
    pub generation: Option<Level>,
    pub time: Option<Seconds>,
    // The minutes by which the committer's clock is ahead of UTC, where the commit came from the store.
    pub zone: Option<i64>,
}

// The answer of a call: its outcome, what it says of a commit, and the walk's running numbers.
#[derive(Clone, Copy)]
pub struct Answer {
    pub outcome: Outcome,
    pub info: Info,
    pub admitted: usize,
    pub struck: usize,
    pub waiting: usize,
}

// The answer of an opening: its outcome and the walk's running numbers.
#[derive(Clone, Copy)]
pub struct OpenAnswer {
    pub outcome: Result<(), Refusal>,
    pub admitted: usize,
    pub struck: usize,
    pub waiting: usize,
}

// The number of a refusal.
pub fn number(r: Refusal) -> u8
    ensures { result ≡ number_of r }
{
    match r {
        Refusal::BufferTooSmall => 1,
        Refusal::InputTooLarge => 2,
        Refusal::PartialId => 3,
        Refusal::CorruptStore => 4,
        Refusal::UnknownGraph => 5,
        Refusal::CorruptGraph => 6,
        Refusal::TipNotFound => 7,
        Refusal::TipUnreadable => 8,
        Refusal::CommitNotFound => 9,
        Refusal::CommitUnreadable => 10,
        Refusal::TooManyParents => 11,
        Refusal::Closed => 12,
        Refusal::UnreadableReach => 13,
        Refusal::GraphAtOdds => 14,
        Refusal::PairNotFalling => 15,
        Refusal::FalseName => 16,
        Refusal::FalseChecksum => 17,
        Refusal::UnfitStore => 18,
        Refusal::UnfitSeconds => 19,
        Refusal::ShortOutput => 20,
        Refusal::ReadingTwice => 21,
        Refusal::ReadingUnreadable => 22,
        Refusal::TangledReach => 23,
        Refusal::BadTerms => 24,
        Refusal::TooManyMoves => 25,
    }
}

fn one_less(n: usize) -> usize
    ensures { result ≡ n - 1 }
{
    if n == 0 { 0 } else { n - 1 }
}

// How many of some calls may follow one that came out so: none after the end.
pub fn calls_after(left: usize, outcome: Outcome) -> usize
    ensures { result ≡ calls_after left outcome }
{
    match outcome {
        Outcome::Commit => one_less(left),
        Outcome::End => 0,
        Outcome::Refused(_) => one_less(left),
    }
}

// Whether an order is a time order.
pub fn is_timed(sorting: Sorting) -> bool
    ensures { result ≡ timed sorting }
{
    match sorting {
        Sorting::BreadthFirst => false,
        Sorting::ByCommitTime(_) => true,
        Sorting::ByCommitTimeCutoff { .. } => true,
    }
}

// Whether these seconds are not before the order's cutoff (`Sorting::cutoff_time`), where it has one.
pub fn within_cutoff_time(sorting: Sorting, s: Seconds) -> bool
    ensures { result ≡ not_before (cutoff_of sorting) s.0 }
{
    match sorting {
        Sorting::BreadthFirst => true,
        Sorting::ByCommitTime(_) => true,
        Sorting::ByCommitTimeCutoff { seconds, .. } => !date::before(s, seconds),
    }
}

// Whether a comes after b in the painting's order: generations are set against generations, then seconds against seconds.
pub fn less(a: GenThenTime, b: GenThenTime) -> bool
    ensures { result ≡ lt_pair (pair_of a) (pair_of b) }
{
    a < b
}
