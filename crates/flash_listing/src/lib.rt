#![tactic(auto)]

// One pass over the used blocks for whatever looks at all numbers.
pub mod places;

ghost use Rattle.std.specs.Prelude.{◌≡◌, true, false, ◌+◌, ◌≤◌, ◌<◌, length, set};
ghost use Rattle.flash_model.specs.Measures.{capacity};
ghost use Rattle.flash_model.specs.UserBlock.{number};
ghost use Rattle.flash_model.specs.Partition.{block_at, live, lowest_live};
ghost use Rattle.flash_listing.specs.BlockTests.{is_new, mark, lowered};
ghost use Rattle.flash_listing.specs.Passing.{PassAt, PassedTo, Passed, whole, pass_ended, AllListed};

use flash_measures::NUMBERS;
use flash_partition::blocks::right_checksum;
use flash_partition::opened::Partition;
use words::word;

// Whether the block that the part is may hold the contents of its number: that is below `end` and has no mark. No checksum is
// worked for one that may not.
#[tactic(auto, unfolding(crate::specs::BlockTests::is_new, flash_model::specs::UserBlock::number))]
fn is_new(part: &[u8; 64], end: usize, marks: &[u8]) -> bool
    requires { end ≤ length marks.now }
    ensures { result ≡ is_new end part.now marks.now }
{
    let number = word(part, 0);
    number < end && marks[number] == 0
}

// Marks the number of the block that the part is, which has no mark, if the checksum is right. The mark, 1 or 0, is stored in
// any case: no branch waits for the checksum. The answer is how many numbers were marked.
#[tactic(auto, unfolding(crate::specs::BlockTests::mark, flash_model::specs::UserBlock::number))]
fn mark_number(part: &[u8; 64], marks: &mut [u8]) -> usize
    requires { number part.now < length marks.old }
    ensures value { (result ≡ mark part.now) × (result ≤ 1) }
    ensures marks_after { marks.new ≡ set marks.old (number part.now) result }
{
    let mark = u8::from(right_checksum(part));
    marks[word(part, 0)] = mark;
    usize::from(mark)
}

// Passes over blocks from `from` downwards as long as they are not new. The answer is where the pass stands then.
fn pass_known(p: Partition<'_>, marks: &[u8], from: usize) -> usize
    requires { PassAt marks.now p from }
    ensures passed { PassedTo marks.now p.entry from result }
    ensures stops { 0 < result → is_new (capacity p.entry.log.m.size) (block_at p.entry.image.now result) marks.now ≡ true }
{
    let end = p.log.m.capacity();
    for below in (0..from).rev() {
        if is_new(p.block(below + 1), end, marks) {
            return below + 1;
        }
    }
    0
}

// Where a pass stands: the blocks up to `at` are still to come, and `count` numbers were marked.
#[derive(Clone, Copy)]
struct Progress {
    at: usize,
    count: usize,
}

// Marks the numbers of blocks downwards as long as they are new, and counts them. Where the blocks are listed, each is stored in front
// of the list, which begins with it if its number is marked: the store comes behind the checksum; in front of it the pass took longer.
fn mark_run<const LISTED: bool>(
    p: Partition<'_>,
    marks: &mut [u8],
    kept: &mut [u16],
    reached: Progress,
) -> Progress
    requires pass_at { (0 < reached.at) × PassAt marks.old p reached.at }
    requires bound { reached.count + reached.at ≤ p.log.used }
    requires room { LISTED ≡ true → capacity p.log.m.size ≤ length kept.old }
    ensures lower { result.at < reached.at }
    ensures passed { Passed LISTED p.entry marks.old kept.old reached marks.new kept.new result }
    ensures stops { 0 < result.at → is_new (capacity p.entry.log.m.size) (block_at p.entry.image.now (result.at + 1)) marks.new ≡ false }
{
    let end = p.log.m.capacity();
    let mut count = reached.count;
    for at in (0..reached.at).rev() {
        let part = p.block(at + 1);
        if !is_new(part, end, &marks[..]) {
            return Progress { at, count };
        }
        let marked = mark_number(part, marks);
        if LISTED {
            kept[kept.len() - count - 1] = (at + 1) as u16;
        }
        count += marked;
    }
    Progress { at: 0, count }
}

// Passes all used blocks by such runs, and answers how many numbers were marked. Blocks go in falling order, so the first of a number
// that has a right checksum is the one, and no checksum is worked for an older copy.
fn pass<const LISTED: bool>(p: Partition<'_>, marks: &mut [u8], kept: &mut [u16]) -> usize
    requires long { capacity p.log.m.size ≤ length marks.old }
    requires room { LISTED ≡ true → capacity p.log.m.size ≤ length kept.old }
    ensures { Passed LISTED p.entry marks.old kept.old (whole p.entry) marks.new kept.new (pass_ended result) }
{
    let mut reached = Progress {
        at: p.log.used,
        count: 0,
    };
    while 0 < reached.at {
        reached = mark_run::<LISTED>(p, marks, kept, reached);
        reached.at = pass_known(p, &marks[..], reached.at);
    }
    reached.count
}

// How many numbers have contents.
pub fn count_live(p: Partition<'_>) -> usize
    ensures { result ≡ live p.entry.image.now }
{
    let mut marks = [0u8; NUMBERS];
    pass::<false>(p, &mut marks, &mut [])
}

// Lists at the end of `kept`, rising, the physical block of the contents of each number that has no mark, and counts
// these. The place in front of the list is written too. Then each number that has contents has a mark.
pub fn list_kept(p: Partition<'_>, marks: &mut [u8], kept: &mut [u16]) -> usize
    requires { (capacity p.log.m.size ≤ length marks.old) × (capacity p.log.m.size ≤ length kept.old) }
    ensures { AllListed p.entry.image.now marks.old kept.old p.entry.log.used marks.new kept.new result }
{
    pass::<true>(p, marks, kept)
}

// The lower of `best` and the number of the block that this part is, if that is not below the start and the checksum is
// right, which is worked only where the number would be the new best. One comparison decides that, since a number below the start is
// a large one when the start is taken away: two took longer where numbers stand in any order.
#[tactic(auto, unfolding(crate::specs::BlockTests::lowered, flash_model::specs::UserBlock::number))]
fn lower(part: &[u8; 64], start: usize, best: usize) -> usize
    requires { start ≤ best }
    ensures { result ≡ lowered start part.now best }
{
    let number = word(part, 0);
    if number.wrapping_sub(start) < best - start && right_checksum(part) {
        return number;
    }
    best
}

// The lowest live number not below the start. None is lower than the start itself, so the pass ends where that is found. `best` is the
// number below which others are still looked for: an Option in its place took up to twice as long.
pub fn next_number(p: Partition<'_>, start: usize) -> Option<usize>
    ensures { result ≡ lowest_live p.entry.image.now start }
{
    let end = p.log.m.capacity();
    if end <= start {
        return None;
    }
    let mut best = end;
    for k in 1..p.log.used + 1 {
        best = lower(p.block(k), start, best);
        if best == start {
            break;
        }
    }
    (best < end).then_some(best)
}
