// Many shifts at once. P = x^16 + x^12 + x^5 + 1, and over two elements (a + b)^2 = a^2 + b^2, so P^2 = x^32 + x^24 + x^10 + 1
// and P^4 = x^64 + x^48 + x^20 + 1 have four terms too. A word of W digits shifted left by W is divided by the power of P
// of that degree, P^n: q is the quotient, and the two high terms of the power give it back from the word; what is left is q
// times the other three, kept to W digits.
ghost use Rattle.std.specs.Prelude.{◌≡◌, ◌<◌, ◌^◌, ◌⊎◌};
ghost use Rattle.checksum.specs.Crc.{shifts};
ghost use Rattle.checksum.specs.Polynomial.{rem};

// W shifts of a polynomial of W digits.
pub fn fold<const W: u32>(a: u64) -> u64
    requires width { (W ≡ 16) ⊎ ((W ≡ 32) ⊎ (W ≡ 64)) }
    requires fits { a < 2 ^ W }
    ensures shifted { rem W result ≡ shifts W (rem W a) }
    ensures fits { result < 2 ^ W }
{
    let n = W / 16;
    let t = a ^ (a >> (4 * n));
    let q = t ^ (t >> (8 * n)) ^ (a >> (11 * n));
    (q ^ (q << (5 * n)) ^ (q << (12 * n))) & (u64::MAX >> (64 - W))
}

// The remainder of a polynomial of 64 digits: its high half is folded onto the low one, twice.
pub fn remainder(a: u64) -> u16
    ensures { result ≡ rem 64 a }
{
    let h = fold::<32>(a >> 32) ^ (a % 4294967296);
    (fold::<16>(h >> 16) ^ (h % 65536)) as u16
}
