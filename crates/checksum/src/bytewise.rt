// The running value byte by byte, for what is no whole word.
ghost use Rattle.std.specs.Prelude.{◌≡◌};
ghost use Rattle.checksum.specs.Crc as sum;

// One shift left, with 4129 added by exclusive or where the top bit falls out.
#[tactic(auto, unfolding(crate::specs::Crc::shift))]
fn shift(n: u16) -> u16
    ensures { result ≡ sum.shift n }
{
    if 32768 <= n { (n << 1) ^ 4129 } else { n << 1 }
}

// The running value n with the byte b taken into its top half. The eight shifts are a loop: written out by hand they are several
// times slower.
#[tactic(auto, unfolding(crate::specs::Crc::take_byte, crate::specs::Crc::shifts))]
fn take_byte(n: u16, b: u8) -> u16
    ensures { result ≡ sum.take_byte n b }
{
    let mut v = n ^ (u16::from(b) << 8);
    for _ in 0..8u8 {
        v = shift(v);
    }
    v
}

// The running value `start` with these bytes taken into it.
#[tactic(auto, using(crate::proofs::CrcLaws::crc_is_fold))]
pub fn take_bytes(bytes: &[u8], start: u16) -> u16
    ensures { result ≡ sum.crc_from start bytes.now }
{
    bytes.iter().fold(start, |n, b| take_byte(n, *b))
}
