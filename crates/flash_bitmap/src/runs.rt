// Runs of equal bytes.
ghost use Rattle.std.specs.Prelude.{◌≤◌, length};
ghost use Rattle.flash_bitmap.specs.EqualRun.{WholeRun};

// Eight times the byte 1: times a byte, it is the word that has that byte in all its places.
const ONES: u64 = 0x0101010101010101;

// How far the run of bytes `byte` goes from `at` on, at the most to `end`: eight at a time, then one by one. The place is the answer,
// so it is counted here: an iterator over eights would have to be turned back into it.
pub fn run_end(s: &[u8], at: usize, end: usize, byte: u8) -> usize
    requires { (at ≤ end) × (end ≤ length s.now) }
    ensures { WholeRun s.now byte at end result }
{
    let word = u64::from(byte) * ONES;
    let mut i = at;
    while 8 <= end - i && words::loads::little8(s, i) == word {
        i += 8;
    }
    while i < end && s[i] == byte {
        i += 1;
    }
    i
}
