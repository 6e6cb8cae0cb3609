// Text put down at a place of a slice, where it fits. Each function answers the place after its text.
ghost use Rattle.std.specs.Prelude.{◌≡◌, [], ◌∷◌, ◌+◌, ◌/◌, ◌%◌, ◌<◌};
ghost use Rattle.hash.specs.Bytes.{width_of};
ghost use Rattle.swatch.specs.Text.{hex_digit, hex, decimal, commit_line, refusal_line, end_line, line_given};
ghost use Rattle.swatch.specs.Contract.{Puts};

use hash::Kind;
use walk::{Answer, Outcome, Refusal};

// One byte.
fn byte(out: &mut [u8], at: usize, b: u8) -> usize
    ensures { Puts out.old at (b ∷ []) out.new result }
{
    if at < out.len() {
        out[at] = b;
        return at + 1;
    }
    at
}

// ---- an id in hexadecimal

fn hex_digit(d: u8) -> u8
    requires { d < 16 }
    ensures { result ≡ hex_digit d }
{
    if d < 10 { 48 + d } else { 87 + d }
}

// A byte as two digits.
fn hex_byte(out: &mut [u8], at: usize, b: u8) -> usize
    ensures { Puts out.old at (hex (b ∷ [])) out.new result }
{
    let next = byte(out, at, hex_digit(b / 16));
    byte(out, next, hex_digit(b % 16))
}

fn hex_id(out: &mut [u8], at: usize, id: &[u8]) -> usize
    ensures { Puts out.old at (hex id.now) out.new result }
{
    let mut next = at;
    for i in 0..id.len() {
        next = hex_byte(out, next, id[i]);
    }
    next
}

// ---- a number in decimal

fn digit(d: usize) -> u8
    requires { d < 10 }
    ensures { result ≡ 48 + d }
{
    48 + d as u8
}

// The last two digits.
fn tens(out: &mut [u8], at: usize, n: usize) -> usize
    ensures { Puts out.old at ((48 + n / 10 % 10) ∷ (48 + n % 10) ∷ []) out.new result }
{
    let next = byte(out, at, digit(n / 10 % 10));
    byte(out, next, digit(n % 10))
}

// The last three digits.
fn hundreds(out: &mut [u8], at: usize, n: usize) -> usize
    ensures { Puts out.old at ((48 + n / 100 % 10) ∷ (48 + n / 10 % 10) ∷ (48 + n % 10) ∷ []) out.new result }
{
    let next = byte(out, at, digit(n / 100 % 10));
    tens(out, next, n)
}

// A number below a thousand.
fn number(out: &mut [u8], at: usize, n: usize) -> usize
    ensures { n < 1000 → Puts out.old at (decimal n) out.new result }
{
    if n < 10 {
        return byte(out, at, digit(n));
    }
    if n < 100 {
        return tens(out, at, n);
    }
    hundreds(out, at, n)
}

// ---- lines

// The line of a refusal.
pub(crate) fn refusal(out: &mut [u8], at: usize, r: Refusal) -> usize
    ensures { Puts out.old at (refusal_line r) out.new result }
{
    let mark = byte(out, at, 33);
    let space = byte(out, mark, 32);
    let after = number(out, space, walk::number(r) as usize);
    byte(out, after, 10)
}

// The line of a commit with this many parents.
fn commit(out: &mut [u8], at: usize, id: &[u8], parents: usize) -> usize
    ensures { parents < 1000 → Puts out.old at (commit_line id.now parents) out.new result }
{
    let next = hex_id(out, at, id);
    let space = byte(out, next, 32);
    let after = number(out, space, parents);
    byte(out, after, 10)
}

// The last line.
fn end(out: &mut [u8], at: usize) -> usize
    ensures { Puts out.old at end_line out.new result }
{
    let e = byte(out, at, 101);
    let n = byte(out, e, 110);
    let d = byte(out, n, 100);
    byte(out, d, 10)
}

// The line of an answer.
pub(crate) fn answer(kind: Kind, out: &mut [u8], at: usize, a: Answer) -> usize
    ensures { a.info.parents < 1000 → Puts out.old at (line_given (width_of kind) a.outcome a.info.id a.info.parents) out.new result }
{
    let outcome = a.outcome;
    let info = a.info;
    match outcome {
        Outcome::Commit => commit(out, at, object::id_slice(kind, &info.id), info.parents),
        Outcome::End => end(out, at),
        Outcome::Refused(r) => refusal(out, at, r),
    }
}
