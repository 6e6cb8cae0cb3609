// The two readings in a commit's message (document 02, card 5): what cone and bed were fed, in millimetres. Every function is total and safe on
// any bytes.
#![tactic(auto)]

ghost use Rattle.std.specs.Prelude.{◌≡◌, ◌-◌, ◌≤◌, ◌<◌, ◌^◌, length, drop};
ghost use Rattle.actor.specs.Person.{digit};
ghost use Rattle.feed.specs.Feed.{message_of, lines_of, decimal, at_most, millimetres, told_by, twice, unreadable, reading_in, judged, feed_of};
ghost use Rattle.feed.specs.Passing.{number_read, line_length, another, with_line, pass_line, pass_lines, nothing_yet};

use hash::part;
use walk::Refusal;

// Both of them.
#[derive(Clone, Copy)]
pub struct Feed {
    pub cone: Option<u64>,
    pub bed: Option<u64>,
}

// What the lines with one start tell: there is none, one is read, one can't be read, there are more.
#[derive(Clone, Copy)]
enum Told {
    Nothing,
    Millimetres(u64),
    Unreadable,
    Twice,
}

// The same for both starts.
#[derive(Clone, Copy)]
struct Lines {
    cone: Told,
    bed: Told,
}

// The most digits of a reading, and the most millimetres.
const MOST_DIGITS: usize = 10;

const MOST_MILLIMETRES: u64 = 1000000000;

// Where the message begins: after the first newline that is the first byte of its line; at the end where there is none.
fn message_at(body: &[u8]) -> usize
    ensures { (result ≤ length body.now) × (drop result body.now ≡ message_of body.now) }
{
    let mut fresh = true;
    let mut i = 0;
    while i < body.len() {
        let ends = body[i] == 10;
        if ends {
            if fresh {
                return i + 1;
            }
        }
        fresh = ends;
        i += 1;
    }
    i
}

// The length of the line in front: it ends at its newline or where the bytes end.
fn line_length(b: &[u8]) -> usize
    ensures { result ≡ line_length b.now }
{
    let mut i = 0;
    while i < b.len() {
        if b[i] == 10 {
            return i;
        }
        i += 1;
    }
    i
}

fn is_digit(x: u8) -> bool
    ensures { result ≡ digit x }
{
    48 <= x && x <= 57
}

fn digit_value(x: u8) -> u64
    requires { (48 ≤ x) × (x ≤ 57) }
    ensures { (result ≡ x - 48) × (result ≤ 9) }
{
    (x - 48) as u64
}

// The value of decimal digits, few enough for 64 bits.
fn digits_value(b: &[u8]) -> Option<u64>
    requires { length b.now ≤ 10 }
    ensures { result ≡ number_read (decimal 0 b.now) }
{
    let mut value: u64 = 0;
    for i in 0..b.len() {
        let x = b[i];
        if !is_digit(x) {
            return None;
        }
        value = value * 10 + digit_value(x);
    }
    Some(value)
}

// A value of at most 1,000,000,000.
fn bounded(value: u64) -> Told
    ensures { result ≡ told_by (at_most value) }
{
    if MOST_MILLIMETRES < value {
        return Told::Unreadable;
    }
    Told::Millimetres(value)
}

// What a line tells by the bytes after its start: 1 to 10 digits, at most 1,000,000,000.
fn told_by(text: &[u8]) -> Told
    ensures { result ≡ told_by (millimetres text.now) }
{
    if text.len() == 0 {
        return Told::Unreadable;
    }
    if MOST_DIGITS < text.len() {
        return Told::Unreadable;
    }
    match digits_value(text) {
        None => Told::Unreadable,
        Some(value) => bounded(value),
    }
}

// One line more with the same start.
fn add(told: Told, text: &[u8]) -> Told
    ensures { result ≡ another told text.now }
{
    match told {
        Told::Nothing => told_by(text),
        Told::Millimetres(_) => Told::Twice,
        Told::Unreadable => Told::Twice,
        Told::Twice => Told::Twice,
    }
}

// One line of the message, which may have the start.
fn with_line(told: Told, line: &[u8], start: &[u8]) -> Told
    ensures { result ≡ with_line told start.now line.now }
{
    if !object::starts_with(line, 0, start) {
        return told;
    }
    add(told, part(line, start.len(), line.len()))
}

// One line of the message.
fn pass_line(lines: Lines, line: &[u8]) -> Lines
    ensures { result ≡ pass_line lines line.now }
{
    let cone = lines.cone;
    let bed = lines.bed;
    Lines {
        cone: with_line(cone, line, b"Cone-feed: "),
        bed: with_line(bed, line, b"Bed-feed: "),
    }
}

// All lines of a message that begins at a place.
fn pass_lines(body: &[u8], at: usize) -> Lines
    ensures { result ≡ pass_lines nothing_yet (lines_of (drop at body.now)) }
{
    let mut lines = Lines {
        cone: Told::Nothing,
        bed: Told::Nothing,
    };
    let mut p = at;
    while p < body.len() {
        let rest = part(body, p, body.len());
        let n = line_length(rest);
        lines = pass_line(lines, part(rest, 0, n));
        p = p + n + 1;
    }
    lines
}

fn is_twice(told: Told) -> bool
    ensures { result ≡ twice told }
{
    match told {
        Told::Nothing => false,
        Told::Millimetres(_) => false,
        Told::Unreadable => false,
        Told::Twice => true,
    }
}

fn is_unreadable(told: Told) -> bool
    ensures { result ≡ unreadable told }
{
    match told {
        Told::Nothing => false,
        Told::Millimetres(_) => false,
        Told::Unreadable => true,
        Told::Twice => false,
    }
}

fn reading_in(told: Told) -> Option<u64>
    ensures { result ≡ reading_in told }
{
    match told {
        Told::Nothing => None,
        Told::Millimetres(n) => Some(n),
        Told::Unreadable => None,
        Told::Twice => None,
    }
}

// What both starts tell together: given twice goes before unreadable.
fn judge(cone: Told, bed: Told) -> Result<Feed, Refusal>
    ensures { result ≡ judged cone bed }
{
    if is_twice(cone) {
        return Err(Refusal::ReadingTwice);
    }
    if is_twice(bed) {
        return Err(Refusal::ReadingTwice);
    }
    if is_unreadable(cone) {
        return Err(Refusal::ReadingUnreadable);
    }
    if is_unreadable(bed) {
        return Err(Refusal::ReadingUnreadable);
    }
    Ok(Feed {
        cone: reading_in(cone),
        bed: reading_in(bed),
    })
}

// The two readings of a commit.
pub fn read(body: &[u8]) -> Result<Feed, Refusal>
    ensures { result ≡ feed_of body.now }
{
    let lines = pass_lines(body, message_at(body));
    let cone = lines.cone;
    let bed = lines.bed;
    judge(cone, bed)
}
