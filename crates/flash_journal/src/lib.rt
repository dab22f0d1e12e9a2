#![tactic(auto)]

// The journal that a partition is: one block written behind the used ones, and its bitmap bit cleared. An image that is written comes
// with its measures beside it: `OpenedLog` of flash_partition says why. A number is a `usize` as in every call, so its bound is asked.
ghost use Rattle.std.specs.Prelude.{◌≡◌, false, ◌≤◌, ◌<◌, length};
ghost use Rattle.flash_model.specs.Measures.{capacity};
ghost use Rattle.flash_model.specs.UserBlock.{new_block};
ghost use Rattle.flash_model.specs.Partition.{allocated};
ghost use Rattle.flash_model.specs.Update as model;
ghost use Rattle.flash_measures.specs.HasMeasures.{HasMeasures};

use checksum::checksum;
use flash_bitmap::clear_bit;
use flash_measures::{BLOCK_BYTES, Measures};

// Number, payload and checksum, over all 64 bytes of the part. The checksum is that of the part's own first 62 bytes.
// It is lent as a slice: of a part of the image that was lent as an array, nothing is known when it is back.
fn write_block(part: &mut [u8], number: usize, page: &[u8; 60])
    requires { (length part.old ≡ 64) × (number < 65536) }
    ensures { part.new ≡ new_block number page.now }
{
    part[0..2].copy_from_slice(&(number as u16).to_le_bytes());
    part[2..62].copy_from_slice(page);
    let sum = checksum(&part[0..62]);
    part[62..64].copy_from_slice(&sum.to_le_bytes());
}

// Block k of the image gets number, payload and checksum.
pub fn write_block_at(image: &mut [u8], m: Measures, k: usize, number: usize, page: &[u8; 60])
    requires has_measures { HasMeasures image.old m.size }
    requires k_bound { (k ≤ capacity m.size) × (number < 65536) }
    ensures { image.new ≡ model.with_block image.old k (new_block number page.now) }
{
    let at = m.start(k);
    let end = at + BLOCK_BYTES;
    write_block(&mut image[at..end], number, page);
}

// The free block k gets number, payload and checksum, and its bit is cleared.
pub fn append(image: &mut [u8], m: Measures, k: usize, number: usize, page: &[u8; 60])
    requires has_measures { HasMeasures image.old m.size }
    requires le_k { (1 ≤ k) × (k ≤ capacity m.size) × (allocated image.old k ≡ false) }
    requires number_bound { number < 65536 }
    ensures { image.new ≡ model.appended image.old k (new_block number page.now) }
{
    write_block_at(image, m, k, number, page);
    clear_bit(image, m, k);
}
