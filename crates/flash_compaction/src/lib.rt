#![tactic(auto)]

// The compaction, in place: document 01's long way. The image comes with its log beside it: `OpenedLog` says why. Marks and the list of
// what is kept lie in arrays of fixed size: there is no heap.
ghost use Rattle.std.specs.Prelude.{◌≡◌, [], ◌∷◌, ◌++◌, ◌≤◌};
ghost use Rattle.flash_model.specs.Measures.{top_number};
ghost use Rattle.flash_model.specs.UserBlock.{new_block};
ghost use Rattle.flash_model.specs.Update as model;
ghost use Rattle.flash_partition.specs.Usable.{Usable};
ghost use Rattle.flash_listing.specs.BlockTests.{kept_blocks};
ghost use Rattle.flash_moving.specs.Moving.{AllMoved};

use flash_journal::write_block_at;
use flash_listing::list_kept;
use flash_measures::NUMBERS;
use flash_moving::{blank_rest, keep_blocks};
use flash_partition::opened::{OpenedLog, Partition};

// The contents of each number that has no mark, moved down to 1, 2, 3 and on. The answer is the next block to fill.
fn keep_contents(image: &mut [u8], log: OpenedLog, marks: &mut [u8; NUMBERS]) -> usize
    requires { Usable image.old log }
    ensures { AllMoved (kept_blocks marks.old image.old log.used) image.old image.new result }
{
    let mut kept = [0u16; NUMBERS];
    let p = Partition {
        image: &image[..],
        log,
    };
    let count = list_kept(p, marks, &mut kept);
    keep_blocks(image, &kept[NUMBERS - count..])
}

// Every number's contents kept, and no other block.
pub fn erase(image: &mut [u8], log: OpenedLog)
    requires { Usable image.old log }
    ensures { image.new ≡ model.erased image.old }
{
    let mut marks = [0u8; NUMBERS];
    let next = keep_contents(image, log, &mut marks);
    blank_rest(image, log.m, next);
}

// Every other number's contents kept, then the new block. The saved number has a mark beforehand, so that no copy of it is
// kept: there is room.
pub fn compact(image: &mut [u8], log: OpenedLog, number: usize, page: &[u8; 60])
    requires usable { Usable image.old log }
    requires number_bound { number ≤ top_number log.m.size }
    ensures { image.new ≡ model.compacted image.old (model.other_holders image.old number ++ new_block number page.now ∷ []) }
{
    let mut marks = [0u8; NUMBERS];
    marks[number] = 1;
    let next = keep_contents(image, log, &mut marks);
    write_block_at(image, log.m, next, number, page);
    blank_rest(image, log.m, next + 1);
}
