// Committer time (gix_date): seconds since 1970, signed, and the zone beside them.
#![tactic(auto)]

ghost use Rattle.std.specs.Prelude.{◌≡◌, pos, nat_abs};
ghost use Rattle.std.specs.Int.Signed.{lt_z};

// Document 01's seconds. Compared only with seconds, never with a generation.
#[derive(Clone, Copy, PartialEq, Eq, PartialOrd, Ord)]
pub struct Seconds(pub i64);

// What a committer line says of its time. The seconds count from 1970 in every zone, so no order looks at the zone.
#[derive(Clone, Copy, PartialEq, Eq)]
pub struct Stamp {
    pub seconds: Seconds,
    pub zone: Option<i64>,
}

// Whether a lies before b.
pub fn before(a: Seconds, b: Seconds) -> bool
    ensures { result ≡ lt_z a.0 b.0 }
{
    a < b
}

// Whether a time lies before 1970.
pub fn is_negative(s: Seconds) -> bool
    ensures { result ≡ lt_z s.0 (pos 0) }
{
    s < Seconds(0)
}

// How many seconds a time lies before or after 1970.
pub fn magnitude(s: Seconds) -> u64
    ensures { result ≡ nat_abs s.0 }
{
    s.0.unsigned_abs()
}
