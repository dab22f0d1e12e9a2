#![tactic(auto)]

// Runs of bytes and two-byte numbers. The definitions and laws in specs/ and proofs/ serve every format.
pub mod byte_list;
pub mod loads;

ghost use Rattle.std.specs.Prelude.{◌≡◌, ◌+◌, ◌<◌, length};
ghost use Rattle.words.specs.Words as bytes;

// The two-byte number at place i.
#[tactic(auto, unfolding(crate::specs::Words::word))]
pub fn word(s: &[u8], i: usize) -> usize
    requires { i + 1 < length s.now }
    ensures { (result ≡ bytes.word s.now i) × (result < 65536) }
{
    usize::from(u16::from_le_bytes([s[i], s[i + 1]]))
}
