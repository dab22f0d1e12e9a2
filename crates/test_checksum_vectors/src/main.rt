#![tactic(auto)]

// Prints the checksums of a fixed set of runs, a line each: the family, the length or the block, the checksum in hex.
// tests/vectors/checksum.py makes the same lines from Python's own CRC; they are the file stdout beside src/.
use std::{array, io};

fn print_line(rt: &impl Print, family: &str, number: usize, sum: u16) -> io::Result<()> {
    println!(rt; "{family} {number} {sum:04x}")
}

// The first n bytes, for n from 0 to 300: no bytes, less than a block, and more than 256.
fn print_lengths(rt: &impl Print, family: &str, bytes: &[u8; 512]) -> io::Result<()> {
    for n in 0..301 {
        print_line(rt, family, n, checksum::checksum(&bytes[..n]))?;
    }
    Ok(())
}

// The first 62 bytes of each block of 64: runs of a user block's length that begin inside a larger buffer.
fn print_blocks(rt: &impl Print, family: &str, bytes: &[u8; 512]) -> io::Result<()> {
    let (blocks, _) = bytes.as_chunks::<64>();
    for (k, block) in blocks.iter().enumerate() {
        print_line(rt, family, k, checksum::checksum(&block[..62]))?;
    }
    Ok(())
}

// The remainders here narrow by `as`, since `From` never does.
fn rising_bytes() -> [u8; 512] {
    array::from_fn(|i| (i % 256) as u8)
}

fn next_random(x: u32) -> u32 {
    ((u64::from(x) * 1103515245 + 12345) % 2147483648) as u32
}

// Pseudo-random bytes: x starts at 1; each byte moves x on to (x * 1103515245 + 12345) % 2^31 and is x / 65536 % 256.
fn random_bytes() -> [u8; 512] {
    let mut x = 1;
    array::from_fn(|_| {
        x = next_random(x);
        (x / 65536 % 256) as u8
    })
}

fn main(rt: HostRuntime) -> io::Result<()> {
    let random = random_bytes();
    print_lengths(&rt, "zero", &[0; 512])?;
    print_lengths(&rt, "ff", &[255; 512])?;
    print_lengths(&rt, "rising", &rising_bytes())?;
    print_lengths(&rt, "random", &random)?;
    print_blocks(&rt, "block", &random)
}
