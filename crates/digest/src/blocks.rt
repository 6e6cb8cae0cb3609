// The blocks of a padded message that is lent in two parts.
ghost use Rattle.std.specs.Prelude.{◌≡◌, ◌++◌, ◌+◌, ◌*◌, ◌/◌, ◌<◌, ◌≤◌, length};
ghost use Rattle.hash.specs.Bytes.{at, set_down};
ghost use Rattle.digest.specs.Blocks.{filled, bit_length, padding, padded, words_of, block_count, block_words};

use crate::words;

// How many blocks a message of l bytes has.
fn count_for(l: usize) -> usize
    ensures { result ≡ (l + length (padding l)) / 64 }
{
    l / 64 + (l % 64 + 72) / 64
}

// How many blocks a message has.
pub fn count(head: &[u8], body: &[u8]) -> usize
    ensures { result ≡ block_count (head.now ++ body.now) }
{
    count_for(head.len() + body.len())
}

// The 64 bytes of the message at place i, zeros where it ends.
fn message_at(head: &[u8], body: &[u8], i: usize) -> [u8; 64]
    ensures { result ≡ filled (at (head.now ++ body.now) i 64) }
{
    let mut b = [0u8; 64];
    let n = head.len();
    if n <= i {
        hash::set_down(&mut b, 0, hash::part(body, i - n, 64));
        return b;
    }
    let x = hash::part(head, i, 64);
    let k = x.len();
    hash::set_down(&mut b, 0, x);
    hash::set_down(&mut b, k, hash::part(body, 0, 64 - k));
    b
}

// The length of a message in bits, in the last 8 bytes of a block.
fn set_length(b: &mut [u8; 64], l: usize)
    ensures { b.new ≡ set_down b.old 56 (bit_length l) }
{
    let high = words::word_bytes(((l / 536870912) % 4294967296) as u32);
    let low = words::word_bytes(((l % 536870912) * 8) as u32);
    hash::set_down(b, 56, &high);
    hash::set_down(b, 60, &low);
}

// Block i of the padded message.
fn block_at(head: &[u8], body: &[u8], i: usize) -> [u8; 64]
    requires { i < length (padded (head.now ++ body.now)) / 64 }
    ensures { result ≡ at (padded (head.now ++ body.now)) (i * 64) 64 }
{
    let l = head.len() + body.len();
    if l / 64 < i {
        let mut b = [0u8; 64];
        set_length(&mut b, l);
        return b;
    }
    let mut b = message_at(head, body, i * 64);
    if i < l / 64 {
        return b;
    }
    let k = l % 64;
    b[k] = 128;
    if k < 56 {
        set_length(&mut b, l);
    }
    b
}

// The words of a block; a byte past its end counts as 0.
fn words_of(s: &[u8]) -> [u32; 16]
    ensures { result ≡ words_of s.now }
{
    let mut w = [0u32; 16];
    for t in 0..16 {
        w[t] = hash::be32(s, t * 4);
    }
    w
}

// The words of block i of the padded message: read where it lies if all of it lies in body, else put together; zeros past the last block.
pub fn block_words(head: &[u8], body: &[u8], i: usize) -> [u32; 16]
    ensures { result ≡ block_words (head.now ++ body.now) i }
{
    let n = head.len();
    let l = n + body.len();
    if i < l / 64 {
        if n <= i * 64 {
            let a = i * 64 - n;
            let e = a + 64;
            return words_of(&body[a..e]);
        }
    }
    if count_for(l) <= i {
        return [0u32; 16];
    }
    let b = block_at(head, body, i);
    words_of(&b)
}
