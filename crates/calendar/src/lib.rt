// The calendar in UTC and the terms of a school (document 02, card 9). A term is lent as two months, its first and its last, counted from
// January 1970; a list of terms as its months one after the other. Every public function is total on any numbers.
#![tactic(auto)]

pub mod months;

ghost use Rattle.std.specs.Prelude.{◌≡◌, true, not, ◌+◌, ◌*◌, ◌/◌, ◌≤◌, ◌<◌, length, get_or, leb};
ghost use Rattle.calendar.specs.Months.{first_day, tabled};
ghost use Rattle.calendar.specs.Terms.{fits, rise, good_terms, term_at, first_month, last_month};
ghost use Rattle.calendar.specs.Search.{Begun};

use date::Seconds;

const DAY: u64 = 86400;

fn month(x: u32) -> usize
    ensures { (result ≡ x) × (result < 4294967296) }
{
    x as usize
}

// Whether a term may stand after terms that end before the month `free`.
fn is_fit(free: usize, first: usize, last: usize) -> bool
    ensures { result ≡ fits free first last }
{
    if first < free {
        return false;
    }
    if last < first {
        return false;
    }
    last < 1560
}

// Whether the months stand in pairs, and each pair is a term after the one before.
fn are_rising(terms: &[u32]) -> bool
    ensures { result ≡ rise 0 terms.now }
{
    let n = terms.len() / 2;
    let mut free = 0usize;
    for k in 0..n {
        let first = month(terms[k * 2]);
        let last = month(terms[k * 2 + 1]);
        if !is_fit(free, first, last) {
            return false;
        }
        free = last + 1;
    }
    terms.len() == n * 2
}

// Whether a list of terms is to be refused (24): over 24 terms, a month without its other, a term that ends before it starts, a month past
// the table, or a term that does not start after the one before has ended.
pub fn bad_terms(terms: &[u32]) -> bool
    ensures { result ≡ not (good_terms terms.now) }
{
    if 48 < terms.len() {
        return true;
    }
    !are_rising(terms)
}

// How many terms have begun on a day, where they rise: halved until one number is left.
fn begun(terms: &[u32], day: u64) -> usize
    ensures { Begun terms.now day result }
{
    let mut low = 0usize;
    let mut high = terms.len() / 2;
    // The terms lie as pairs of numbers in one slice, as a caller in C lends them, and no search of the library looks through pairs.
    while low < high {
        let mid = low + (high - low) / 2;
        if months::first_day(month(terms[mid * 2])) <= day {
            low = mid + 1;
        } else {
            high = mid;
        }
    }
    low
}

// The number of the term that has these seconds, or the number of terms where none has them.
pub fn term_at(terms: &[u32], seconds: i64) -> usize
    ensures { (result ≤ length terms.now / 2) × (good_terms terms.now ≡ true → result ≡ term_at terms.now seconds) }
{
    let n = terms.len() / 2;
    let s = Seconds(seconds);
    if date::is_negative(s) {
        return n;
    }
    let day = date::magnitude(s) / DAY;
    let k = begun(terms, day);
    if k == 0 {
        return n;
    }
    // The one that began last is the only one that may have the day.
    if day < months::first_day(month(terms[k * 2 - 1]) + 1) {
        return k - 1;
    }
    n
}
