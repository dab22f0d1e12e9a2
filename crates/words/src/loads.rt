// Eight bytes of a run as one number: each is one load.
ghost use Rattle.std.specs.Prelude.{◌≡◌, ◌+◌, ◌<◌, ◌≤◌, length};
ghost use Rattle.words.specs.BigEndian.{Big};
ghost use Rattle.words.specs.LittleEndian.{Little};

// The eight bytes from a place, big endian.
pub fn big8(s: &[u8], at: usize) -> u64
    requires { at + 8 ≤ length s.now }
    ensures { Big 8 s.now at result }
{
    u64::from_be_bytes(*s[at..at + 8].as_array().unwrap())
}

// The eight bytes from a place, little endian.
pub fn little8(s: &[u8], at: usize) -> u64
    requires { at + 8 ≤ length s.now }
    ensures { Little 8 s.now at result }
{
    u64::from_le_bytes(*s[at..at + 8].as_array().unwrap())
}

// The last six of the eight bytes from a place, little endian: one load and a shift, where six alone are two loads.
#[tactic(auto, using(crate::proofs::LittleLaws::without_two))]
pub fn little6_of8(s: &[u8], at: usize) -> u64
    requires { at + 8 ≤ length s.now }
    ensures { Little 6 s.now (at + 2) result }
{
    little8(s, at) >> 16
}
