// User blocks, each read from the part of the image that it is, and the search for a number's contents.
ghost use Rattle.std.specs.Prelude.{◌≡◌, true, None, ◌≤◌, MatchOption};
ghost use Rattle.flash_model.specs.UserBlock as model;
ghost use Rattle.flash_model.specs.Measures.{capacity, legal_number};
ghost use Rattle.flash_model.specs.Partition.{block_at, holder};
ghost use Rattle.flash_partition.specs.Search.{found_up_to, any_numbered, NextNumbered};

use crate::opened::Partition;
use flash_measures::{BLOCK_BYTES, Image};
use words::word;

// Whether the block that this part is has a right checksum.
pub fn right_checksum(part: &[u8; 64]) -> bool
    ensures { result ≡ model.right_checksum part.now }
{
    word(part, 62) == usize::from(checksum::checksum(&part[0..62]))
}

// The part that block k is, of any image that has measures, sound or not.
pub fn block_at(image: Image<'_>, k: usize) -> &[u8; 64]
    requires { k ≤ capacity image.m.size }
    ensures { result.now ≡ block_at image.entry.bytes.now k }
{
    let at = image.m.start(k);
    let end = at + BLOCK_BYTES;
    image.bytes[at..end].as_array().unwrap()
}

impl<'a> Partition<'a> {
    // The part of the image that block k is.
    pub fn block(self, k: usize) -> &'a [u8; 64]
        requires { k ≤ capacity self.log.m.size }
        ensures { result.now ≡ block_at self.entry.image.now k }
    {
        let measured = Image {
            bytes: self.image,
            m: self.log.m,
        };
        block_at(measured, k)
    }

    // Whether one of the eight blocks up to k has the number. The loop has no early exit: all eight are tested.
    fn any_of_eight(self, k: usize, number: usize) -> bool
        requires { (8 ≤ k) × (k ≤ capacity self.log.m.size) }
        ensures { result ≡ any_numbered self.entry.image.now number k 8 }
    {
        let mut any = false;
        for j in 0..8 {
            any |= word(self.block(k - j), 0) == number;
        }
        any
    }

    // From `top` down, the block where the search goes on: eights none of which has the number are passed. What is left of a range
    // by eights, turned round, would have to be worked out again, so the loop counts down.
    fn pass_eights(self, top: usize, number: usize) -> usize
        requires { top ≤ capacity self.log.m.size }
        ensures { (result ≤ top) × (found_up_to self.entry.image.now number top ≡ found_up_to self.entry.image.now number result) }
    {
        let mut k = top;
        while 8 <= k {
            if self.any_of_eight(k, number) {
                return k;
            }
            k -= 8;
        }
        k
    }

    // The highest block up to `top` that has the number: looked for one by one only where one of eight has it.
    fn highest_with_number(self, top: usize, number: usize) -> Option<usize>
        requires { top ≤ capacity self.log.m.size }
        ensures { MatchOption result (found_up_to self.entry.image.now number top ≡ None) (NextNumbered self.entry.image.now number top) }
    {
        for k in (1..self.pass_eights(top, number) + 1).rev() {
            if word(self.block(k), 0) == number {
                return Some(k);
            }
        }
        None
    }

    // The block that holds the contents of a number, which callers have tested, searched from the highest used block down. A checksum
    // is worked only for the number asked.
    pub fn find(self, number: usize) -> Option<usize>
        requires { legal_number self.log.m.size number ≡ true }
        ensures { result ≡ holder self.entry.image.now number }
    {
        let mut top = self.log.used;
        while let Some(at) = self.highest_with_number(top, number) {
            if right_checksum(self.block(at)) {
                return Some(at);
            }
            top = at - 1;
        }
        None
    }
}
