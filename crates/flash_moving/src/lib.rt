#![tactic(auto)]

// Blocks of a rising list, moved down to 1, 2, 3 and on; then FF, and the bits of what stands there. An image that is written comes
// with its measures beside it: `OpenedLog` of flash_partition says why.
ghost use Rattle.std.specs.Prelude.{◌≡◌, ◌++◌, ◌+◌, ◌-◌, ◌*◌, ◌≤◌, length, take, replicate};
ghost use Rattle.flash_model.specs.Measures.{capacity};
ghost use Rattle.flash_model.specs.Partition.{block_at};
ghost use Rattle.flash_model.specs.Update as model;
ghost use Rattle.flash_measures.specs.HasMeasures.{HasMeasures};
ghost use Rattle.flash_moving.specs.Moving.{RisingBlocks, AllMoved};

use flash_bitmap::clear_bits;
use flash_measures::{BLOCK_BYTES, Measures};

// Block `from` copied over block `to`, which is not above it. Where no lower block was dropped it stands there already.
#[tactic(auto, using(crate::proofs::MoveLaws::block_itself), unfolding(flash_model::specs::Partition::block_at, flash_model::specs::Update::with_block))]
fn move_block(image: &mut [u8], from: usize, to: usize)
    requires { (to ≤ from) × (from * 64 + 64 ≤ length image.old) }
    ensures { image.new ≡ model.with_block image.old to (block_at image.old from) }
{
    if from == to {
        return;
    }
    let start = from * BLOCK_BYTES;
    image.copy_within(start..start + BLOCK_BYTES, to * BLOCK_BYTES);
}

// The listed blocks, which rise, moved down to 1, 2, 3 and on. The answer is the next block to fill.
pub fn keep_blocks(image: &mut [u8], kept: &[u16]) -> usize
    requires { RisingBlocks 1 (length image.old) kept.now }
    ensures { AllMoved kept.now image.old image.new result }
{
    for (i, &from) in kept.iter().enumerate() {
        move_block(image, usize::from(from), i + 1);
    }
    kept.len() + 1
}

// FF from block `next` to the end, but for the bits of the blocks below it.
pub fn blank_rest(image: &mut [u8], m: Measures, next: usize)
    requires has_measures { HasMeasures image.old m.size }
    requires le_next { (1 ≤ next) × (next ≤ capacity m.size + 1) }
    ensures { image.new ≡ model.bits_cleared (take (next * 64) image.old ++ replicate (m.size - next * 64) 255) (next - 1) }
{
    let at = m.start(next);
    image[at..].fill(255);
    clear_bits(image, m, next - 1);
}
