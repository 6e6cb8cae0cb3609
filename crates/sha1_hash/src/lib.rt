// SHA-1 (FIPS 180-4): a block compressed into the state, and the blocks of a message one after the other.
// A message is lent in two parts, the second right after the first, and neither is copied. Every public function is total.
#![tactic(auto)]

ghost use Rattle.std.specs.Prelude.{◌≡◌, ◌<◌, ◌++◌, length, take};
ghost use Rattle.digest.specs.Blocks.{times, made, folds, block_count};
ghost use Rattle.digest.specs.Words.{rotl, parity};
ghost use Rattle.sha1_hash.specs.declared.Five.{Five};
ghost use Rattle.sha1_hash.specs.Sha1.{word1, schedule1, turn1, round1, compress1, first1, bytes1, sha1};

use std::num::wrapping_add_u32;

// The five words of the state.
#[derive(Clone, Copy)]
pub struct Five {
    pub a: u32,
    pub b: u32,
    pub c: u32,
    pub d: u32,
    pub e: u32,
}

fn rotate_left(x: u32, n: u32) -> u32
    requires { (0 < n) × (n < 32) }
    ensures { result ≡ rotl n x }
{
    (x << n) | (x >> (32 - n))
}

// The bits that one or three of the words have (Parity).
fn odd(x: u32, y: u32, z: u32) -> u32
    ensures { result ≡ parity x y z }
{
    x ^ y ^ z
}

// The words of a block, the first of its schedule.
fn first_words(block: [u32; 16]) -> [u32; 80]
    ensures { take 16 result ≡ made (word1 block) 16 }
{
    let mut w = [0u32; 80];
    for t in 0..16 {
        w[t] = block[t];
    }
    w
}

// The words of a block's schedule.
fn schedule(block: [u32; 16]) -> [u32; 80]
    ensures { result ≡ schedule1 block }
{
    let mut w = first_words(block);
    for t in 16..80 {
        w[t] = rotate_left(w[t - 3] ^ w[t - 8] ^ w[t - 14] ^ w[t - 16], 1);
    }
    w
}

// A round, of the mixed words f, the constant k and the word w of the schedule.
fn turned(s: Five, f: u32, k: u32, w: u32) -> Five
    ensures { result ≡ turn1 s f k w }
{
    let x = wrapping_add_u32(rotate_left(s.a, 5), f);
    let y = wrapping_add_u32(wrapping_add_u32(x, s.e), k);
    Five {
        a: wrapping_add_u32(y, w),
        b: s.a,
        c: rotate_left(s.b, 30),
        d: s.c,
        e: s.d,
    }
}

// The first 20 rounds.
fn choice_rounds(h: Five, w: &[u32]) -> Five
    requires { length w.now ≡ 80 }
    ensures { result ≡ times (round1 w.now) 20 h }
{
    let mut v = h;
    for t in 0..20 {
        v = turned(v, digest::choice(v.b, v.c, v.d), 0x5a827999, w[t]);
    }
    v
}

// 20 rounds more, after the first 20 of any state.
fn parity_rounds(s: Five, w: &[u32]) -> Five
    requires { length w.now ≡ 80 }
    ensures { (h : Five) → s ≡ times (round1 w.now) 20 h → result ≡ times (round1 w.now) 40 h }
{
    let mut v = s;
    for t in 20..40 {
        v = turned(v, odd(v.b, v.c, v.d), 0x6ed9eba1, w[t]);
    }
    v
}

// 20 rounds more, after the first 40.
fn majority_rounds(s: Five, w: &[u32]) -> Five
    requires { length w.now ≡ 80 }
    ensures { (h : Five) → s ≡ times (round1 w.now) 40 h → result ≡ times (round1 w.now) 60 h }
{
    let mut v = s;
    for t in 40..60 {
        v = turned(v, digest::most(v.b, v.c, v.d), 0x8f1bbcdc, w[t]);
    }
    v
}

// The last 20 rounds.
fn last_rounds(s: Five, w: &[u32]) -> Five
    requires { length w.now ≡ 80 }
    ensures { (h : Five) → s ≡ times (round1 w.now) 60 h → result ≡ times (round1 w.now) 80 h }
{
    let mut v = s;
    for t in 60..80 {
        v = turned(v, odd(v.b, v.c, v.d), 0xca62c1d6, w[t]);
    }
    v
}

// A block compressed into the state h.
fn compress(h: Five, block: [u32; 16]) -> Five
    ensures { result ≡ compress1 h block }
{
    let w = schedule(block);
    let first = choice_rounds(h, &w);
    let second = parity_rounds(first, &w);
    let third = majority_rounds(second, &w);
    let v = last_rounds(third, &w);
    Five {
        a: wrapping_add_u32(h.a, v.a),
        b: wrapping_add_u32(h.b, v.b),
        c: wrapping_add_u32(h.c, v.c),
        d: wrapping_add_u32(h.d, v.d),
        e: wrapping_add_u32(h.e, v.e),
    }
}

// The state after all blocks of the message.
fn folded(head: &[u8], body: &[u8]) -> Five
    ensures { result ≡ folds compress1 (head.now ++ body.now) (block_count (head.now ++ body.now)) first1 }
{
    let mut h = Five {
        a: 0x67452301,
        b: 0xefcdab89,
        c: 0x98badcfe,
        d: 0x10325476,
        e: 0xc3d2e1f0,
    };
    let n = digest::count(head, body);
    for i in 0..n {
        h = compress(h, digest::block_words(head, body, i));
    }
    h
}

// The bytes of the state.
fn written(s: Five) -> [u8; 20]
    ensures { result ≡ bytes1 s }
{
    let mut out = [0u8; 20];
    hash::set_down(&mut out, 0, &digest::word_bytes(s.a));
    hash::set_down(&mut out, 4, &digest::word_bytes(s.b));
    hash::set_down(&mut out, 8, &digest::word_bytes(s.c));
    hash::set_down(&mut out, 12, &digest::word_bytes(s.d));
    hash::set_down(&mut out, 16, &digest::word_bytes(s.e));
    out
}

// The digest of the bytes of head and then of body.
pub fn sha1_of(head: &[u8], body: &[u8]) -> [u8; 20]
    ensures { result ≡ sha1 (head.now ++ body.now) }
{
    written(folded(head, body))
}
