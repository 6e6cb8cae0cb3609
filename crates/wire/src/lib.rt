// A walk's record, settings and answers as plain numbers in lent slices, for callers in other languages. Every function is total on any
// numbers and lengths.
#![tactic(auto)]

ghost use Rattle.std.specs.Prelude.{◌≡◌, ◌%◌, ◌≤◌, true, get_or, set, length, eqb};
ghost use Rattle.hash.specs.Bytes.{width_of, set_down};
ghost use Rattle.object.specs.Ids.{id_in, padded};
ghost use Rattle.walk.specs.Given.{outcome_number, open_number, level_value, seconds_value, zone_value};
ghost use Rattle.wire.specs.Words.{kind_of, width_word, bit_of, words_of, record_of, record_words, queue_of, fixed_in, Encodes, PutsRecord, PutsWaiting, answer_words, has_level, has_seconds, has_zone, room_to_open, room_to_call};
ghost use Rattle.wire.specs.Numbers.{time_order, sorting_of, parents_of, settings_of, PutsOpenAnswer, PutsAnswer, commit_given};

use commitgraph::{Layout, Level};
use date::Seconds;
use hash::Kind;
use revwalk::queue::Queue;
use state::{Fixed, Record, Waiting};
use walk::{Answer, CommitTimeOrder, OpenAnswer, Outcome, Parents, Refusal, Settings, Sorting};

// How many words a record has.
const RECORD_WORDS: usize = 20;

// How many numbers an opening's answer has, and a call's.
const OPEN_NUMBERS: usize = 3;

const CALL_NUMBERS: usize = 8;

// Document 01's number of the refusal "closed".
const CLOSED: u32 = 12;

// The number of the end, which is no refusal's.
const END: u32 = 100;

// The kind of ids of a width: 32 is SHA-256, any other number SHA-1.
pub fn kind_of(width: u32) -> Kind
    ensures { result ≡ kind_of width }
{
    if width == 32 {
        Kind::Sha256
    } else {
        Kind::Sha1
    }
}

// Whether there is room for the record's words and an opening's numbers.
pub fn can_open(words: &[u64], numbers: &[u64]) -> bool
    ensures { result ≡ room_to_open words.now numbers.now }
{
    if words.len() < RECORD_WORDS {
        return false;
    }
    OPEN_NUMBERS <= numbers.len()
}

// Whether there is room for the record's words, and for a call's id, numbers and seconds.
pub fn can_call(kind: Kind, words: &[u64], id: &[u8], numbers: &[u64], seconds: &[i64]) -> bool
    ensures { result ≡ room_to_call (width_of kind) words.now id.now numbers.now seconds.now }
{
    if words.len() < RECORD_WORDS {
        return false;
    }
    if id.len() < hash::width(kind) {
        return false;
    }
    if numbers.len() < CALL_NUMBERS {
        return false;
    }
    2 <= seconds.len()
}

fn bit(b: bool) -> u64
    ensures { result ≡ bit_of b }
{
    if b { 1 } else { 0 }
}

fn long(n: usize) -> u64
    ensures { result ≡ n }
{
    n as u64
}

fn long32(n: u32) -> u64
    ensures { result ≡ n }
{
    n as u64
}

fn size(x: u64) -> usize
    ensures { result ≡ x }
{
    x as usize
}

// The word at a place, 0 past the end.
fn word(words: &[u64], k: usize) -> u64
    ensures { result ≡ get_or words.now k 0 }
{
    if k < words.len() { words[k] } else { 0 }
}

// Whether the word at a place is 1.
pub fn flag(words: &[u64], k: usize) -> bool
    ensures { result ≡ eqb (get_or words.now k 0) 1 }
{
    word(words, k) == 1
}

pub fn count(words: &[u64], k: usize) -> usize
    ensures { result ≡ get_or words.now k 0 }
{
    size(word(words, k))
}

// The low 32 bits of the word at a place.
fn low(words: &[u64], k: usize) -> u32
    ensures { result ≡ get_or words.now k 0 % 4294967296 }
{
    (word(words, k) % 4294967296) as u32
}

// Words set down at the start of a slice, where they fit; else nothing is changed.
pub fn put(out: &mut [u64], x: &[u64])
    ensures { out.new ≡ set_down out.old 0 x.now }
{
    if out.len() < x.len() {
        return;
    }
    for k in 0..x.len() {
        out[k] = x[k];
    }
}

// The word of the kind of ids, which `kind_of` reads: 0 for SHA-1, so that a closed record is zeros alone.
fn width_word(kind: Kind) -> u64
    ensures { result ≡ width_word kind }
{
    match kind {
        Kind::Sha1 => 0,
        Kind::Sha256 => 32,
    }
}

// The words of a record.
pub fn words_of(r: Record) -> [u64; 20]
    ensures { result ≡ words_of r }
{
    let q = r.queue;
    let fixed = r.fixed;
    let l = fixed.layout;
    let kind = fixed.kind;
    [
        bit(r.live),
        bit(r.painted),
        bit(r.failed),
        bit(r.kept),
        bit(q.timed),
        bit(q.newest),
        long(q.cap),
        long(q.head),
        long(q.count),
        long32(q.next),
        long(r.admitted),
        long(r.struck),
        long(l.fan),
        long(l.ids),
        long(l.rows),
        long(l.edge),
        long(l.edges),
        long(l.count),
        bit(l.levels),
        width_word(kind),
    ]
}

// A record set down as words.
pub fn encode(r: Record, words: &mut [u64])
    ensures { Encodes r words.old words.new }
{
    let w = words_of(r);
    put(words, &w);
}

// The record that a call gives back, set down as words. Refusal 12 alters nothing: after it the words stay as they are.
pub fn put_record(n: u32, r: Record, words: &mut [u64])
    ensures { PutsRecord n r words.old words.new }
{
    if n != CLOSED {
        encode(r, words);
    }
}

pub fn queue_of(words: &[u64]) -> Queue
    ensures { result ≡ queue_of words.now }
{
    Queue {
        timed: flag(words, 4),
        newest: flag(words, 5),
        cap: count(words, 6),
        head: count(words, 7),
        count: count(words, 8),
        next: low(words, 9),
    }
}

pub fn fixed_in(words: &[u64]) -> Fixed
    ensures { result ≡ fixed_in words.now }
{
    Fixed {
        layout: Layout {
            fan: count(words, 12),
            ids: count(words, 13),
            rows: count(words, 14),
            edge: count(words, 15),
            edges: count(words, 16),
            count: count(words, 17),
            levels: flag(words, 18),
        },
        kind: kind_of(low(words, 19)),
    }
}

// The record that words stand for.
pub fn decode(words: &[u64]) -> Record
    ensures { result ≡ record_of words.now }
{
    Record {
        live: flag(words, 0),
        painted: flag(words, 1),
        failed: flag(words, 2),
        kept: flag(words, 3),
        fixed: fixed_in(words),
        queue: queue_of(words),
        admitted: count(words, 10),
        struck: count(words, 11),
    }
}

// The bits of either word: no smaller than each, so that a test of the one number tests both.
fn either(x: u64, y: u64) -> u64
    ensures { (x ≤ result) × (y ≤ result) }
{
    x | y
}

// 1 where a word is over the most that it may be, else 0.
fn over(x: u64, most: u64) -> u64
    ensures { (result ≤ 1) × (result ≡ 0 → x ≤ most) }
{
    if most < x { 1 } else { 0 }
}

// 1 where a word is no kind's, else 0: of what reads as SHA-1, 0 alone is its word.
fn no_kind(x: u64) -> u64
    ensures { (result ≤ 1) × (result ≡ 0 → width_word (kind_of (x % 4294967296)) ≡ x) }
{
    if x == 32 { 0 } else { over(x, 0) }
}

// Whether words are those that their record has: a yes or no is 0 or 1, and what counts only in part is no larger than its part. The tests
// are put together, so that they cost one branch.
pub fn is_plain(words: &[u64]) -> bool
    ensures { result ≡ true → (record_words ≤ length words.now) × (set_down words.now 0 (words_of (record_of words.now)) ≡ words.now) }
{
    if words.len() < RECORD_WORDS {
        return false;
    }
    let state = either(either(words[0], words[1]), either(words[2], words[3]));
    let bits = either(state, either(either(words[4], words[5]), words[18]));
    let numbers = either(over(words[9], 4294967295), no_kind(words[19]));
    either(over(bits, 1), numbers) == 0
}

// What waits, set down in the words of its record where they stand: the words beside it are not written again.
pub fn put_waiting(words: &mut [u64], w: Waiting)
    ensures { PutsWaiting w words.old words.new }
{
    if words.len() < RECORD_WORDS {
        return;
    }
    let q = w.queue;
    words[4] = bit(q.timed);
    words[5] = bit(q.newest);
    words[6] = long(q.cap);
    words[7] = long(q.head);
    words[8] = long(q.count);
    words[9] = long32(q.next);
    words[10] = long(w.admitted);
}

// A time order, with a cutoff or without.
fn time_order(order: CommitTimeOrder, limited: u32, cutoff: Seconds) -> Sorting
    ensures { result ≡ time_order order limited cutoff.0 }
{
    if limited == 0 {
        return Sorting::ByCommitTime(order);
    }
    Sorting::ByCommitTimeCutoff {
        order: order,
        seconds: cutoff,
    }
}

// The order with a number: 1 is newest first, 2 oldest first, any other breadth order, which has no cutoff.
fn sorting_of(sorting: u32, limited: u32, cutoff: Seconds) -> Sorting
    ensures { result ≡ sorting_of sorting limited cutoff.0 }
{
    if sorting == 1 {
        return time_order(CommitTimeOrder::NewestFirst, limited, cutoff);
    }
    if sorting == 2 {
        return time_order(CommitTimeOrder::OldestFirst, limited, cutoff);
    }
    Sorting::BreadthFirst
}

fn parents_of(first: u32) -> Parents
    ensures { result ≡ parents_of first }
{
    if first == 0 {
        return Parents::All;
    }
    Parents::First
}

// The settings with these numbers: the width of ids, the order's, whether there is a cutoff, the cutoff, and whether only first parents are followed.
pub fn settings_of(width: u32, sorting: u32, limited: u32, cutoff: i64, first: u32) -> Settings
    ensures { result ≡ settings_of width sorting limited cutoff first }
{
    Settings {
        sorting: sorting_of(sorting, limited, Seconds(cutoff)),
        parents: parents_of(first),
        kind: kind_of(width),
    }
}

fn wide(n: u8) -> u32
    ensures { result ≡ n }
{
    n as u32
}

// The number of an opening's outcome: 0 where it is accepted, else document 01's number of the refusal.
fn open_number(o: Result<(), Refusal>) -> u32
    ensures { result ≡ open_number o }
{
    match o {
        Ok(()) => 0,
        Err(r) => wide(walk::number(r)),
    }
}

// The number of a call's outcome: 0 for a commit, 100 for the end, else document 01's number of the refusal.
fn call_number(o: Outcome) -> u32
    ensures { result ≡ outcome_number o }
{
    match o {
        Outcome::Commit => 0,
        Outcome::End => END,
        Outcome::Refused(r) => wide(walk::number(r)),
    }
}

// An opening's answer: its numbers set down, and the number of its outcome.
pub fn put_open_answer(a: OpenAnswer, numbers: &mut [u64]) -> u32
    ensures { PutsOpenAnswer a numbers.old numbers.new result }
{
    let w = [long(a.admitted), long(a.struck), long(a.waiting)];
    put(numbers, &w);
    let o = a.outcome;
    open_number(o)
}

fn has_level(g: Option<Level>) -> u64
    ensures { result ≡ has_level g }
{
    match g {
        Some(_) => 1,
        None => 0,
    }
}

// A generation, 0 where there is none.
fn level_value(g: Option<Level>) -> u64
    ensures { result ≡ level_value g }
{
    match g {
        Some(l) => long32(l.0),
        None => 0,
    }
}

fn has_seconds(t: Option<Seconds>) -> u64
    ensures { result ≡ has_seconds t }
{
    match t {
        Some(_) => 1,
        None => 0,
    }
}

// Seconds, 0 where there are none.
fn seconds_value(t: Option<Seconds>) -> Seconds
    ensures { result.0 ≡ seconds_value t }
{
    match t {
        Some(s) => s,
        None => Seconds(0),
    }
}

// Seconds set down at the start of a slice, if it has a place.
pub fn put_seconds(s: i64, out: &mut [i64])
    ensures { out.new ≡ set out.old 0 s }
{
    if 0 < out.len() {
        out[0] = s;
    }
}

fn has_zone(z: Option<i64>) -> u64
    ensures { result ≡ has_zone z }
{
    match z {
        Some(_) => 1,
        None => 0,
    }
}

// The minutes of a zone, 0 where there is none.
fn zone_value(z: Option<i64>) -> i64
    ensures { result ≡ zone_value z }
{
    match z {
        Some(m) => m,
        None => 0,
    }
}

// A zone set down behind the seconds, if there is a place.
fn put_zone(m: i64, out: &mut [i64])
    ensures { out.new ≡ set out.old 1 m }
{
    if 1 < out.len() {
        out[1] = m;
    }
}

// The numbers of a call's answer.
fn answer_words(a: Answer) -> [u64; 8]
    ensures { result ≡ answer_words a }
{
    let info = a.info;
    let g = info.generation;
    let t = info.time;
    let z = info.zone;
    [
        long(a.admitted),
        long(a.struck),
        long(a.waiting),
        long(info.parents),
        has_level(g),
        level_value(g),
        has_seconds(t),
        has_zone(z),
    ]
}

// A call's answer: its id, numbers and seconds set down, and the number of its outcome.
pub fn put_answer(
    kind: Kind,
    a: Answer,
    id: &mut [u8],
    numbers: &mut [u64],
    seconds: &mut [i64],
) -> u32
    ensures { PutsAnswer (width_of kind) a id.old id.new numbers.old numbers.new seconds.old seconds.new result }
{
    let w = answer_words(a);
    put(numbers, &w);
    let info = a.info;
    let x = info.id;
    hash::set_down(id, 0, object::id_slice(kind, &x));
    let t = info.time;
    let s = seconds_value(t);
    put_seconds(s.0, seconds);
    let z = info.zone;
    put_zone(zone_value(z), seconds);
    let o = a.outcome;
    call_number(o)
}

// The id in the value of some bytes, set down at the start of a slice, where it fits. Bytes of the kind's width are that id: no value is made of them.
fn put_id(kind: Kind, x: &[u8], id: &mut [u8])
    ensures { id.new ≡ set_down id.old 0 (id_in (width_of kind) (padded x.now)) }
{
    if x.len() == hash::width(kind) {
        hash::set_down(id, 0, x);
        return;
    }
    let whole = object::id_of(x);
    hash::set_down(id, 0, object::id_slice(kind, &whole.bytes));
}

// The answer of a commit that is handed out, from what it is made of: no value of an answer is made for it.
pub fn put_commit(
    kind: Kind,
    x: &[u8],
    parents: usize,
    g: Option<Level>,
    t: Option<Seconds>,
    z: Option<i64>,
    admitted: usize,
    struck: usize,
    waiting: usize,
    id: &mut [u8],
    numbers: &mut [u64],
    seconds: &mut [i64],
)
    ensures { PutsAnswer (width_of kind) (commit_given x.now parents g t z admitted struck waiting) id.old id.new numbers.old numbers.new seconds.old seconds.new 0 }
{
    let w = [
        long(admitted),
        long(struck),
        long(waiting),
        long(parents),
        has_level(g),
        level_value(g),
        has_seconds(t),
        has_zone(z),
    ];
    put(numbers, &w);
    put_id(kind, x, id);
    let s = seconds_value(t);
    put_seconds(s.0, seconds);
    put_zone(zone_value(z), seconds);
}
