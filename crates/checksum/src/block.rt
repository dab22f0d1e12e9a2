// The 62 bytes of a block, in words loaded little endian: the powers of P used here shift by whole bytes, which words in that
// order do as well, the other way round. P^16 = x^256 + x^192 + x^80 + 1, so the word that a step moves out at the top of four
// comes back in three places, and no step waits long for the one before.
ghost use Rattle.std.specs.Prelude.{◌≡◌, ◌≤◌, length};
ghost use Rattle.std.specs.Int.Bits.{bit_xor};
ghost use Rattle.words.specs.LittleEndian.{Little};
ghost use Rattle.checksum.specs.Crc.{shifts, checksum_of};
ghost use Rattle.checksum.specs.Polynomial.{rem, rem_little, rem_two, rem_three, rem_of};

use crate::folding::{fold, remainder};
use words::loads::{little6_of8, little8};

// A polynomial of 256 digits, the highest in a.
#[derive(Clone, Copy)]
pub struct Four {
    pub a: u64,
    pub b: u64,
    pub c: u64,
    pub d: u64,
}

impl Four {
    // The first four words of these bytes.
    pub fn load(bytes: &[u8]) -> Four
        requires { 32 ≤ length bytes.now }
        ensures a { Little 8 bytes.now 0 result.a }
        ensures b { Little 8 bytes.now 8 result.b }
        ensures c { Little 8 bytes.now 16 result.c }
        ensures d { Little 8 bytes.now 24 result.d }
    {
        Four {
            a: little8(bytes, 0),
            b: little8(bytes, 8),
            c: little8(bytes, 16),
            d: little8(bytes, 24),
        }
    }

    // Four words that take a fifth behind them, folded into four.
    pub fn take_word(self, e: u64) -> Four
        ensures { rem_of result ≡ bit_xor (shifts 64 (rem_of self)) (rem_little 8 e) }
    {
        Four {
            a: self.b ^ self.a,
            b: self.c ^ (self.a << 48),
            c: self.d ^ (self.a >> 16),
            d: e ^ self.a,
        }
    }

    // The remainder of the four words.
    pub fn remainder(self) -> u16
        ensures { result ≡ rem_of self }
    {
        let (t, u) = fold128(self.a, self.b, self.c);
        let (v, w) = fold128(t, u, self.d);
        remainder(fold::<64>(v.swap_bytes()) ^ w.swap_bytes())
    }
}

// Three words folded into two, by P^8 = x^128 + x^96 + x^40 + 1.
fn fold128(a: u64, b: u64, c: u64) -> (u64, u64)
    ensures { rem_two result.0 result.1 ≡ rem_three a b c }
{
    let q = a ^ (a << 32);
    (b ^ (q >> 32) ^ (q << 24), c ^ (q >> 40) ^ q)
}

// The checksum of 62 bytes: seven words, and six bytes that 16 shifts stand behind. 18825 in the first of them does what FFFF at the
// start and the inversion at the end do to 62 bytes, whatever they are.
pub fn of_block(bytes: &[u8; 62]) -> u16
    ensures { result ≡ checksum_of bytes.now }
{
    let first = Four::load(bytes);
    Four {
        a: first.a ^ 18825,
        ..first
    }
    .take_word(little8(bytes, 32))
    .take_word(little8(bytes, 40))
    .take_word(little8(bytes, 48))
    .take_word(little6_of8(bytes, 54))
    .remainder()
}
