// SHA-256 (FIPS 180-4): a block compressed into the state, and the blocks of a message one after the other.
// A message is lent in two parts, the second right after the first, and neither is copied. Every public function is total.
#![tactic(auto)]

ghost use Rattle.std.specs.Prelude.{◌≡◌, ◌<◌, ◌++◌, take};
ghost use Rattle.digest.specs.Blocks.{made, folds, block_count};
ghost use Rattle.digest.specs.Words.{add32, rotr};
ghost use Rattle.sha256.specs.Sha256.{word256, schedule256, sigma_a, sigma_e, small_a, small_e, sum_e, sum_a, turn256, compress256, first256, bytes256, sha256};

use std::num::wrapping_add_u32;

// The eight words of the state.
#[derive(Clone, Copy)]
pub struct Eight {
    pub a: u32,
    pub b: u32,
    pub c: u32,
    pub d: u32,
    pub e: u32,
    pub f: u32,
    pub g: u32,
    pub h: u32,
}

// The constants of the rounds.
const K: [u32; 64] = [
    0x428a2f98, 0x71374491, 0xb5c0fbcf, 0xe9b5dba5, 0x3956c25b, 0x59f111f1, 0x923f82a4, 0xab1c5ed5,
    0xd807aa98, 0x12835b01, 0x243185be, 0x550c7dc3, 0x72be5d74, 0x80deb1fe, 0x9bdc06a7, 0xc19bf174,
    0xe49b69c1, 0xefbe4786, 0x0fc19dc6, 0x240ca1cc, 0x2de92c6f, 0x4a7484aa, 0x5cb0a9dc, 0x76f988da,
    0x983e5152, 0xa831c66d, 0xb00327c8, 0xbf597fc7, 0xc6e00bf3, 0xd5a79147, 0x06ca6351, 0x14292967,
    0x27b70a85, 0x2e1b2138, 0x4d2c6dfc, 0x53380d13, 0x650a7354, 0x766a0abb, 0x81c2c92e, 0x92722c85,
    0xa2bfe8a1, 0xa81a664b, 0xc24b8b70, 0xc76c51a3, 0xd192e819, 0xd6990624, 0xf40e3585, 0x106aa070,
    0x19a4c116, 0x1e376c08, 0x2748774c, 0x34b0bcb5, 0x391c0cb3, 0x4ed8aa4a, 0x5b9cca4f, 0x682e6ff3,
    0x748f82ee, 0x78a5636f, 0x84c87814, 0x8cc70208, 0x90befffa, 0xa4506ceb, 0xbef9a3f7, 0xc67178f2,
];

fn rotate_right(x: u32, n: u32) -> u32
    requires { (0 < n) × (n < 32) }
    ensures { result ≡ rotr n x }
{
    (x >> n) | (x << (32 - n))
}

fn sigma_a(x: u32) -> u32
    ensures { result ≡ sigma_a x }
{
    rotate_right(x, 2) ^ rotate_right(x, 13) ^ rotate_right(x, 22)
}

fn sigma_e(x: u32) -> u32
    ensures { result ≡ sigma_e x }
{
    rotate_right(x, 6) ^ rotate_right(x, 11) ^ rotate_right(x, 25)
}

fn small_a(x: u32) -> u32
    ensures { result ≡ small_a x }
{
    rotate_right(x, 7) ^ rotate_right(x, 18) ^ (x >> 3)
}

fn small_e(x: u32) -> u32
    ensures { result ≡ small_e x }
{
    rotate_right(x, 17) ^ rotate_right(x, 19) ^ (x >> 10)
}

// A word of the schedule, of four before it.
fn mixed(x: u32, y: u32, z: u32, v: u32) -> u32
    ensures { result ≡ add32 (add32 (add32 (small_e x) y) (small_a z)) v }
{
    let p = wrapping_add_u32(small_e(x), y);
    let q = wrapping_add_u32(p, small_a(z));
    wrapping_add_u32(q, v)
}

// The words of a block, the first of its schedule.
fn first_words(block: [u32; 16]) -> [u32; 64]
    ensures { take 16 result ≡ made (word256 block) 16 }
{
    let mut w = [0u32; 64];
    for t in 0..16 {
        w[t] = block[t];
    }
    w
}

// The words of a block's schedule.
fn schedule(block: [u32; 16]) -> [u32; 64]
    ensures { result ≡ schedule256 block }
{
    let mut w = first_words(block);
    for t in 16..64 {
        w[t] = mixed(w[t - 2], w[t - 7], w[t - 15], w[t - 16]);
    }
    w
}

// The two sums of a round.
fn sum_e(s: Eight, k: u32, w: u32) -> u32
    ensures { result ≡ sum_e s k w }
{
    let x = wrapping_add_u32(s.h, sigma_e(s.e));
    let y = wrapping_add_u32(x, digest::choice(s.e, s.f, s.g));
    wrapping_add_u32(wrapping_add_u32(y, k), w)
}

fn sum_a(s: Eight) -> u32
    ensures { result ≡ sum_a s }
{
    wrapping_add_u32(sigma_a(s.a), digest::most(s.a, s.b, s.c))
}

// A round, of the constant k and the word w of the schedule.
fn turned(s: Eight, k: u32, w: u32) -> Eight
    ensures { result ≡ turn256 s k w }
{
    let x = sum_e(s, k, w);
    let y = sum_a(s);
    Eight {
        a: wrapping_add_u32(x, y),
        b: s.a,
        c: s.b,
        d: s.c,
        e: wrapping_add_u32(s.d, x),
        f: s.e,
        g: s.f,
        h: s.g,
    }
}

// A block compressed into the state h.
fn compress(h: Eight, block: [u32; 16]) -> Eight
    ensures { result ≡ compress256 h block }
{
    let w = schedule(block);
    let mut v = h;
    let k = K;
    // Eight rounds a turn: the words need not move from one variable to the next.
    for j in 0..8 {
        let t = j * 8;
        v = turned(v, k[t], w[t]);
        v = turned(v, k[t + 1], w[t + 1]);
        v = turned(v, k[t + 2], w[t + 2]);
        v = turned(v, k[t + 3], w[t + 3]);
        v = turned(v, k[t + 4], w[t + 4]);
        v = turned(v, k[t + 5], w[t + 5]);
        v = turned(v, k[t + 6], w[t + 6]);
        v = turned(v, k[t + 7], w[t + 7]);
    }
    Eight {
        a: wrapping_add_u32(h.a, v.a),
        b: wrapping_add_u32(h.b, v.b),
        c: wrapping_add_u32(h.c, v.c),
        d: wrapping_add_u32(h.d, v.d),
        e: wrapping_add_u32(h.e, v.e),
        f: wrapping_add_u32(h.f, v.f),
        g: wrapping_add_u32(h.g, v.g),
        h: wrapping_add_u32(h.h, v.h),
    }
}

// The state after all blocks of the message.
fn folded(head: &[u8], body: &[u8]) -> Eight
    ensures { result ≡ folds compress256 (head.now ++ body.now) (block_count (head.now ++ body.now)) first256 }
{
    let mut h = Eight {
        a: 0x6a09e667,
        b: 0xbb67ae85,
        c: 0x3c6ef372,
        d: 0xa54ff53a,
        e: 0x510e527f,
        f: 0x9b05688c,
        g: 0x1f83d9ab,
        h: 0x5be0cd19,
    };
    let n = digest::count(head, body);
    for i in 0..n {
        h = compress(h, digest::block_words(head, body, i));
    }
    h
}

// The bytes of the state.
fn written(s: Eight) -> [u8; 32]
    ensures { result ≡ bytes256 s }
{
    let mut out = [0u8; 32];
    hash::set_down(&mut out, 0, &digest::word_bytes(s.a));
    hash::set_down(&mut out, 4, &digest::word_bytes(s.b));
    hash::set_down(&mut out, 8, &digest::word_bytes(s.c));
    hash::set_down(&mut out, 12, &digest::word_bytes(s.d));
    hash::set_down(&mut out, 16, &digest::word_bytes(s.e));
    hash::set_down(&mut out, 20, &digest::word_bytes(s.f));
    hash::set_down(&mut out, 24, &digest::word_bytes(s.g));
    hash::set_down(&mut out, 28, &digest::word_bytes(s.h));
    out
}

// The digest of the bytes of head and then of body.
pub fn sha256_of(head: &[u8], body: &[u8]) -> [u8; 32]
    ensures { result ≡ sha256 (head.now ++ body.now) }
{
    written(folded(head, body))
}
