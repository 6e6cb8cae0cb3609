// The numbers of a feed report, added up commit by commit.
ghost use Rattle.std.specs.Prelude.{◌≡◌, true, ◌↔◌, ◌≤◌, None, Some};
ghost use Rattle.tally.specs.Feeds.{no_feeds, plus, feeds_of, LowFeeds};

use feed::Feed;

// What the readings of some commits come to, in millimetres.
#[derive(Clone, Copy)]
pub struct Feeds {
    // How many commits have both readings, the cone's alone, the bed's alone, and neither.
    pub both: u64,
    pub cone: u64,
    pub bed: u64,
    pub neither: u64,
    // The sums of all readings of the cone, and of the bed.
    pub cone_sum: u64,
    pub bed_sum: u64,
    // The same over the commits with both readings.
    pub paired_cone: u64,
    pub paired_bed: u64,
}

// No commit.
pub(crate) fn no_feeds() -> Feeds
    ensures { result ≡ no_feeds }
{
    Feeds {
        both: 0,
        cone: 0,
        bed: 0,
        neither: 0,
        cone_sum: 0,
        bed_sum: 0,
        paired_cone: 0,
        paired_bed: 0,
    }
}

// One commit with the cone's reading.
fn with_cone(cone: u64, bed: Option<u64>) -> Feeds
    ensures { result ≡ feeds_of (Some cone) bed }
{
    match bed {
        Some(b) => Feeds {
            both: 1,
            cone: 0,
            bed: 0,
            neither: 0,
            cone_sum: cone,
            bed_sum: b,
            paired_cone: cone,
            paired_bed: b,
        },
        None => Feeds {
            both: 0,
            cone: 1,
            bed: 0,
            neither: 0,
            cone_sum: cone,
            bed_sum: 0,
            paired_cone: 0,
            paired_bed: 0,
        },
    }
}

// One commit without the cone's reading.
fn without_cone(bed: Option<u64>) -> Feeds
    ensures { result ≡ feeds_of None bed }
{
    match bed {
        Some(b) => Feeds {
            both: 0,
            cone: 0,
            bed: 1,
            neither: 0,
            cone_sum: 0,
            bed_sum: b,
            paired_cone: 0,
            paired_bed: 0,
        },
        None => Feeds {
            both: 0,
            cone: 0,
            bed: 0,
            neither: 1,
            cone_sum: 0,
            bed_sum: 0,
            paired_cone: 0,
            paired_bed: 0,
        },
    }
}

// One commit with these readings.
pub(crate) fn feeds_of(f: Feed) -> Feeds
    ensures { result ≡ feeds_of f.cone f.bed }
{
    let cone = f.cone;
    let bed = f.bed;
    match cone {
        Some(c) => with_cone(c, bed),
        None => without_cone(bed),
    }
}

// Whether four numbers are no greater than another.
fn are_low(a: u64, b: u64, c: u64, d: u64, most: u64) -> bool
    ensures { (result ≡ true) ↔ ((a ≤ most) × (b ≤ most) × (c ≤ most) × (d ≤ most)) }
{
    if most < a {
        return false;
    }
    if most < b {
        return false;
    }
    if most < c {
        return false;
    }
    if most < d {
        return false;
    }
    true
}

// Whether the numbers of one commit more fit.
pub(crate) fn is_low(f: Feeds) -> bool
    ensures { (result ≡ true) ↔ LowFeeds f }
{
    if are_low(f.both, f.cone, f.bed, f.neither, 4294967296) {
        are_low(
            f.cone_sum,
            f.bed_sum,
            f.paired_cone,
            f.paired_bed,
            4294967296000000000,
        )
    } else {
        false
    }
}

// The commits of both.
pub(crate) fn plus(a: Feeds, b: Feeds) -> Feeds
    requires { LowFeeds a × LowFeeds b }
    ensures { result ≡ plus a b }
{
    Feeds {
        both: a.both + b.both,
        cone: a.cone + b.cone,
        bed: a.bed + b.bed,
        neither: a.neither + b.neither,
        cone_sum: a.cone_sum + b.cone_sum,
        bed_sum: a.bed_sum + b.bed_sum,
        paired_cone: a.paired_cone + b.paired_cone,
        paired_bed: a.paired_bed + b.paired_bed,
    }
}
