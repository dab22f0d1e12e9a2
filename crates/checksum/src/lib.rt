#![tactic(auto)]

// The checksum of a flash block, over a run of bytes that begins anywhere in an image. The bytes are one long polynomial
// over two elements, and its remainder is taken a word of eight bytes at a time; 33999 is what 16 shifts make FFFF.
mod block;
mod bytewise;
mod folding;
mod runs;

ghost use Rattle.std.specs.Prelude.{◌≡◌};
ghost use Rattle.checksum.specs.Crc.{crc_from, checksum_of};

use crate::block::of_block;
use crate::bytewise::take_bytes;
use crate::folding::{fold, remainder};
use crate::runs::of_run;
use words::loads::big8;

// The running value after a run of any length: whole words, then the rest byte by byte.
fn of_words(bytes: &[u8]) -> u16
    ensures { result ≡ crc_from 65535 bytes.now }
{
    let (words, rest) = bytes.as_chunks::<8>();
    let mut a: u64 = 33999;
    for word in words {
        a = fold::<64>(a) ^ big8(word, 0);
    }
    take_bytes(rest, fold::<16>(remainder(a).into()) as u16)
}

// The checksum of these bytes; that of a run of 62, which a block of an image has, and of one that ends as a slot's 110 do, by quicker
// ways. For a block of an image, lend the part that begins there.
#[tactic(auto, unfolding(crate::specs::Crc::checksum_of))]
pub fn checksum(bytes: &[u8]) -> u16
    ensures { result ≡ checksum_of bytes.now }
{
    if let Some(block) = bytes.as_array() {
        return of_block(block);
    }
    if 38 <= bytes.len() && bytes.len() % 8 == 6 {
        return !of_run(bytes);
    }
    !of_words(bytes)
}
