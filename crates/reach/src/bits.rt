// The two marks of a search: VISIBLE, and HIDDEN for a second one.
ghost use Rattle.std.specs.Prelude.{◌≡◌};
ghost use Rattle.reach.specs.Memory.{has_bit, with_bit};

use hashtable::marks::{has_hidden, has_visible, with_hidden, with_visible};

// Whether a mark has the bit of this search.
pub fn has_bit(second: bool, m: u8) -> bool
    ensures { result ≡ has_bit second m }
{
    if second {
        has_hidden(m)
    } else {
        has_visible(m)
    }
}

// A mark with the bit of this search; all else is as it was.
pub fn with_bit(second: bool, m: u8) -> u8
    ensures { result ≡ with_bit second m }
{
    if second {
        with_hidden(m)
    } else {
        with_visible(m)
    }
}
