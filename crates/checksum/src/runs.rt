// Runs of whole words of eight bytes with six bytes behind them, as the 110 bytes under a slot's checksum. The words are loaded little
// endian and taken four at a time, as a block's are.
ghost use Rattle.std.specs.Prelude.{◌≡◌, ◌≤◌, ◌%◌, length};
ghost use Rattle.checksum.specs.Crc.{crc_from};

use crate::block::Four;
use words::loads::{little6_of8, little8};

// The running value after such a run of 38 bytes or more. To start from FFFF is to start from 0 with the
// first two bytes inverted.
pub fn of_run(bytes: &[u8]) -> u16
    requires { (38 ≤ length bytes.now) × (length bytes.now % 8 ≡ 6) }
    ensures { result ≡ crc_from 65535 bytes.now }
{
    let (words, _) = bytes.as_chunks::<8>();
    let first = Four::load(bytes);
    let mut f = Four {
        a: first.a ^ 65535,
        ..first
    };
    for word in &words[4..] {
        f = f.take_word(little8(word, 0));
    }
    f.take_word(little6_of8(bytes, bytes.len() - 8)).remainder()
}
