// Words of 32 bits: the operations of FIPS 180-4 that both digests use, and their bytes.
ghost use Rattle.std.specs.Prelude.{◌≡◌};
ghost use Rattle.digest.specs.Words.{choose, majority, word_bytes};

// The bits of y where x has a 1, else those of z (Ch).
pub fn choice(x: u32, y: u32, z: u32) -> u32
    ensures { result ≡ choose x y z }
{
    (x & y) ^ (!x & z)
}

// The bits that two of the three words have (Maj).
pub fn most(x: u32, y: u32, z: u32) -> u32
    ensures { result ≡ majority x y z }
{
    (x & y) ^ (x & z) ^ (y & z)
}

// The bytes of a word, the highest first.
pub fn word_bytes(x: u32) -> [u8; 4]
    ensures { result ≡ word_bytes x }
{
    [
        ((x >> 24) % 256) as u8,
        ((x >> 16) % 256) as u8,
        ((x >> 8) % 256) as u8,
        (x % 256) as u8,
    ]
}
