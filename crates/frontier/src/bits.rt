// Painting's marks: the bits VISIBLE, HIDDEN and STALE of a slot's byte.
ghost use Rattle.std.specs.Prelude.{◌≡◌, not, ◌&&◌};
ghost use Rattle.hashtable.specs.Marks.{visible, hidden};
ghost use Rattle.frontier.specs.Bits.{is_painted, add_visible, add_hidden, add_stale, with_bits, lacks_bits, passed_bits};

use hashtable::marks::{has_hidden, has_stale, has_visible, with_hidden, with_stale, with_visible};

// Whether a mark has one of the three.
pub fn is_painted(m: u8) -> bool
    ensures { result ≡ is_painted m }
{
    if has_visible(m) {
        return true;
    }
    if has_hidden(m) {
        return true;
    }
    has_stale(m)
}

fn add_visible(bits: u8, m: u8) -> u8
    ensures { result ≡ add_visible bits m }
{
    if has_visible(bits) {
        with_visible(m)
    } else {
        m
    }
}

fn add_hidden(bits: u8, m: u8) -> u8
    ensures { result ≡ add_hidden bits m }
{
    if has_hidden(bits) { with_hidden(m) } else { m }
}

fn add_stale(bits: u8, m: u8) -> u8
    ensures { result ≡ add_stale bits m }
{
    if has_stale(bits) { with_stale(m) } else { m }
}

// A mark with each of the three that `bits` has; SEEN is as it was.
pub fn with_bits(bits: u8, m: u8) -> u8
    ensures { result ≡ with_bits bits m }
{
    add_stale(bits, add_hidden(bits, add_visible(bits, m)))
}

// Whether a mark that is wanted is not there.
fn is_missing(wanted: bool, there: bool) -> bool
    ensures { result ≡ wanted && not there }
{
    if wanted { !there } else { false }
}

// Whether a mark lacks one of the three that `bits` has.
pub fn lacks_bits(bits: u8, m: u8) -> bool
    ensures { result ≡ lacks_bits bits m }
{
    if is_missing(has_visible(bits), has_visible(m)) {
        return true;
    }
    if is_missing(has_hidden(bits), has_hidden(m)) {
        return true;
    }
    is_missing(has_stale(bits), has_stale(m))
}

// Whether a mark has both VISIBLE and HIDDEN.
fn has_both(m: u8) -> bool
    ensures { result ≡ visible m && hidden m }
{
    if has_visible(m) { has_hidden(m) } else { false }
}

// What a commit with this mark passes to its parents: its own marks, and STALE where it has both VISIBLE and HIDDEN.
pub fn passed_bits(m: u8) -> u8
    ensures { result ≡ passed_bits m }
{
    if has_both(m) {
        with_stale(m % 8)
    } else {
        m % 8
    }
}
