// The bytes of a line that names a person (gix_actor::SignatureRef): the email, the seconds and the zone. Functions on the bytes between the
// line's word and its newline, total on every input.
#![tactic(auto)]

ghost use Rattle.std.specs.Prelude.{◌≡◌, ◌+◌, ◌-◌, ◌<◌, ◌≤◌, length, drop, pos, neg_ℤ};
ghost use Rattle.actor.specs.Person.{
  first_of,
  last_of,
  has_email,
  digit,
  digits,
  number,
  signed,
  spaced,
  line_seconds,
  two_digits,
  clock,
  clock_text,
  by_sign,
  zone_text,
  spaced_zone,
  line_zone,
  stamped,
};
ghost use Rattle.actor.specs.Read.{seconds_read, stamp_read};

use date::{Seconds, Stamp};
use hash::{byte_at, part};

// The place of the first such byte.
pub fn first_of(b: &[u8], byte: u8) -> Option<usize>
    ensures { result ≡ first_of byte b.now }
{
    b.iter().position(|x| *x == byte)
}

// The place of the last such byte.
fn last_of(b: &[u8], byte: u8) -> Option<usize>
    ensures { result ≡ last_of byte b.now }
{
    b.iter().rposition(|x| *x == byte)
}

// What stands from a place on.
#[tactic(auto, using(hash::proofs::Bytes::at_rest))]
pub fn tail(b: &[u8], at: usize) -> &[u8]
    ensures { result.now ≡ drop at b.now }
{
    part(b, at, b.len())
}

// Whether `<` and later `>` stand in a line.
#[tactic(auto, using(crate::proofs::Places::first_below), unfolding(crate::specs::Person::has_email))]
pub fn has_email(b: &[u8]) -> bool
    ensures { result ≡ has_email b.now }
{
    match first_of(b, b'<') {
        Some(k) => first_of(tail(b, k + 1), b'>').is_some(),
        None => false,
    }
}

fn is_digit(x: u8) -> bool
    ensures { result ≡ digit x }
{
    b'0' <= x && x <= b'9'
}

fn digit_value(x: u8) -> u64
    requires { (48 ≤ x) × (x ≤ 57) }
    ensures { (result ≡ x - 48) × (result ≤ 9) }
{
    (x - b'0') as u64
}

// At most 18 digits, then a space or the end.
#[tactic(auto, using(crate::proofs::Numbers::at_space, crate::proofs::Numbers::at_other, crate::proofs::Numbers::at_many, crate::proofs::Numbers::at_end, crate::proofs::Numbers::digit_bounds))]
fn digits_value(b: &[u8]) -> Option<u64>
    ensures { result ≡ digits 18 0 b.now }
{
    let mut value: u64 = 0;
    for (i, x) in b.iter().enumerate() {
        if *x == b' ' {
            return Some(value);
        }
        if 18 <= i || !is_digit(*x) {
            return None;
        }
        value = value * 10 + digit_value(*x);
    }
    Some(value)
}

// 1 to 18 digits, then a space or the end.
#[tactic(auto, using(crate::proofs::Numbers::number_none, crate::proofs::Numbers::number_digits))]
fn read_number(b: &[u8]) -> Option<u64>
    ensures { result ≡ number b.now }
{
    if is_digit(byte_at(b, 0)) {
        digits_value(b)
    } else {
        None
    }
}

fn after_zero(value: u64) -> Seconds
    requires { value < 1000000000000000000 }
    ensures { result.0 ≡ pos value }
{
    Seconds(value as i64)
}

fn before_zero(value: u64) -> Seconds
    requires { value < 1000000000000000000 }
    ensures { result.0 ≡ neg_ℤ (pos value) }
{
    Seconds(-(value as i64))
}

// An optional minus sign, and a number.
#[tactic(auto, using(crate::proofs::Numbers::signed_minus, crate::proofs::Numbers::signed_plain, crate::proofs::Numbers::number_small))]
fn signed_number(b: &[u8]) -> Option<Seconds>
    ensures { result ≡ seconds_read (signed b.now) }
{
    if byte_at(b, 0) == b'-' {
        let value = read_number(tail(b, 1))?;
        Some(before_zero(value))
    } else {
        let value = read_number(b)?;
        Some(after_zero(value))
    }
}

// One space, and a signed number.
#[tactic(auto, using(crate::proofs::Numbers::spaced_yes, crate::proofs::Numbers::spaced_no))]
fn spaced_number(b: &[u8]) -> Option<Seconds>
    ensures { result ≡ seconds_read (spaced b.now) }
{
    if byte_at(b, 0) == b' ' {
        signed_number(tail(b, 1))
    } else {
        None
    }
}

// Two of a zone's four digits.
fn two_digits(x: u8, y: u8) -> Option<u64>
    ensures { result ≡ two_digits x y }
{
    if is_digit(x) && is_digit(y) {
        Some(digit_value(x) * 10 + digit_value(y))
    } else {
        None
    }
}

// The minutes of hours and minutes on a clock.
fn clock_value(hours: u64, minutes: u64) -> Option<u64>
    ensures { result ≡ clock hours minutes }
{
    if hours <= 14 && minutes < 60 {
        Some(hours * 60 + minutes)
    } else {
        None
    }
}

// The four digits after a zone's sign.
#[tactic(auto, unfolding(crate::specs::Person::clock_text))]
fn clock_text(b: &[u8]) -> Option<u64>
    ensures { result ≡ clock_text b.now }
{
    let hours = two_digits(byte_at(b, 1), byte_at(b, 2))?;
    let minutes = two_digits(byte_at(b, 3), byte_at(b, 4))?;
    clock_value(hours, minutes)
}

// Minutes with a sign before them.
fn signed_zone(sign: u8, value: u64) -> Option<i64>
    requires { value < 1000000000000000000 }
    ensures { result ≡ by_sign sign value }
{
    match sign {
        b'+' => Some(after_zero(value).0),
        b'-' => Some(before_zero(value).0),
        _ => None,
    }
}

// A zone that takes all of the bytes.
#[tactic(auto, using(crate::proofs::Zones::text_small), unfolding(crate::specs::Person::zone_text))]
fn zone_text(b: &[u8]) -> Option<i64>
    ensures { result ≡ zone_text b.now }
{
    if b.len() != 5 {
        return None;
    }
    let value = clock_text(b)?;
    signed_zone(byte_at(b, 0), value)
}

// The zone after the seconds and one space.
#[tactic(auto, using(crate::proofs::Places::first_below), unfolding(crate::specs::Person::spaced_zone))]
fn spaced_zone(b: &[u8]) -> Option<i64>
    ensures { result ≡ spaced_zone b.now }
{
    let p = first_of(b, b' ')?;
    zone_text(tail(b, p + 1))
}

// Seconds and zone after the `>` at a place: no zone makes a line bad.
fn stamp_after(b: &[u8], k: usize) -> Option<Stamp>
    requires { k < length b.now }
    ensures { result ≡ stamp_read (stamped (spaced (drop (k + 1) b.now)) (spaced_zone (drop (k + 2) b.now))) }
{
    let seconds = spaced_number(tail(b, k + 1))?;
    let zone = spaced_zone(tail(b, k + 2));
    Some(Stamp { seconds, zone })
}

// Seconds and zone of a committer line's bytes: they stand after the last `>`.
#[tactic(auto, using(crate::proofs::Places::last_below), unfolding(crate::specs::Person::line_seconds, crate::specs::Person::line_zone))]
pub fn line_stamp(b: &[u8]) -> Option<Stamp>
    ensures { result ≡ stamp_read (stamped (line_seconds b.now) (line_zone b.now)) }
{
    let k = last_of(b, b'>')?;
    stamp_after(b, k)
}
