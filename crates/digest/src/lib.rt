// What the digests of FIPS 180-4 share: operations on words, and the blocks of a padded message.
// A message is lent in two parts, the second right after the first, and neither is copied. Every public function is total.
#![tactic(auto)]

mod blocks;
mod words;

pub use blocks::{block_words, count};
pub use words::{choice, most, word_bytes};
