// Walks along a chain, with one fewer block left at each step.
ghost use Rattle.std.specs.Prelude.{◌≡◌, cond, ◌≤◌, ◌<◌};
ghost use Rattle.card_model.specs.Layout.{table_of};
ghost use Rattle.card_model.specs.Table.{link_at};
ghost use Rattle.card_model.specs.Files.{chain};
ghost use Rattle.card_chains.specs.declared.walking.Finding.TheVariants.{Broken};
ghost use Rattle.card_chains.specs.Marks.{Walkable, Walked};
ghost use Rattle.card_chains.specs.Steps.{block_after};

use card_model::{LENGTH, Link};
use card_table::{classify, fat_entry};

// What the walk along a chain found: no block that was marked before, one that was, or a bad chain.
#[derive(Clone, Copy, Debug, PartialEq, Eq)]
pub(crate) enum Finding {
    Apart,
    Shared,
    Broken,
}

// What the table says of a block.
#[tactic(auto, unfolding(card_model::specs::Table::link_at))]
pub(crate) fn link_at(card: &[u8; LENGTH], block: usize) -> Link
    requires { block < 256 }
    ensures { result ≡ link_at (table_of card.now) block }
{
    classify(fat_entry(card, block))
}

// What a walk answers where its chain ends, or meets another one.
fn ended(good: bool, found: Finding) -> Finding
    ensures { result ≡ cond good found Broken }
{
    if good { found } else { Finding::Broken }
}

// From `block` on, with `left` blocks left: the first entries each name the next block, and the last one is FFFA. Each block is
// marked with what is left where it is tested, and a walk ends where it meets a mark, so no block is tested twice. If an earlier
// walk made the mark, the chain from there is good, and no chain has two lengths. If this one did, fewer are left now, and it never
// ends.
pub(crate) fn walk(card: &[u8; LENGTH], marks: &mut [u8; 200], block: usize, left: usize) -> Finding
    requires block_bound { (block < 200) × (left ≤ 200) }
    requires walkable { Walkable (table_of card.now) marks.old left block }
    ensures { Walked (table_of card.now) (chain (table_of card.now) left block) marks.old result marks.new }
{
    if left == 0 {
        return Finding::Broken; // no block is left
    }
    let mark = usize::from(marks[block]);
    if mark != 0 {
        return ended(mark == left, Finding::Shared);
    }
    marks[block] = left as u8;
    match link_at(card, block) {
        Link::Next(n) => walk(card, marks, n, left - 1),
        Link::Last => ended(left == 1, Finding::Apart),
        _ => Finding::Broken,
    }
}

// The block that `left` steps over the table lead to.
#[tactic(auto, using(crate::proofs::StepLaws::after_none, crate::proofs::StepLaws::after_next, crate::proofs::StepLaws::after_last, crate::proofs::WalkLaws::step_below))]
pub fn block_after(card: &[u8; LENGTH], block: usize, left: usize) -> usize
    requires { block < 200 }
    ensures { (result ≡ block_after (table_of card.now) block left) × (result < 200) }
{
    if left == 0 {
        return block;
    }
    match link_at(card, block) {
        Link::Next(n) => block_after(card, n, left - 1),
        _ => block,
    }
}
