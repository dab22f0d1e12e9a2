#![tactic(auto, using(crate::proofs::PutLaws::puts, crate::proofs::ChainLaws::chains), unfolding(words::specs::Words::word_bytes, card_model::specs::Layout::card_length, card_model::specs::Table::link_at, card_updates::specs::Parts::with_link, card_updates::specs::Write::with_block))]

// The blocks of a file: their bytes and their table entries, written where they stand on the card.
ghost use Rattle.std.specs.Prelude.{◌≡◌, List, ℕ, ◌*◌, ◌≤◌, ◌<◌, length, get_or};
ghost use Rattle.card_model.specs.Layout.{table_of};
ghost use Rattle.card_updates.specs.Parts.{with_link};
ghost use Rattle.card_updates.specs.Delete.{freed};
ghost use Rattle.card_updates.specs.Write.{link_to, with_block, with_blocks};
ghost use Rattle.card_files.specs.Chain.{SoundChain};

use card_model::{LENGTH, Link};
use card_table::{classify, fat_entry, fat_place};

const FREE_ENTRY: u16 = 0xFFFC;

const LAST_ENTRY: u16 = 0xFFFA;

// Gives block b another table entry.
fn set_link(card: &mut [u8; LENGTH], b: usize, e: u16)
    requires { b < 256 }
    ensures { card.new ≡ with_link card.old b e }
{
    let at = fat_place(b);
    card[at..at + 2].copy_from_slice(&e.to_le_bytes());
}

// Block b gets its bytes and its table entry.
fn write_block(card: &mut [u8; LENGTH], b: usize, bytes: &[u8; 512], link: u16)
    requires { b < 200 }
    ensures { card.new ≡ with_block card.old b bytes.now link }
{
    let at = b * 512;
    card[at..at + 512].copy_from_slice(bytes);
    set_link(card, b, link);
}

// What the table says of the block before these.
fn link_to(rest: &[u8]) -> u16
    ensures { result ≡ link_to rest.now }
{
    rest.first().map_or(LAST_ENTRY, |b| u16::from(*b))
}

// The blocks get the data in this order, 512 bytes each, and each names the next.
pub fn write_blocks(card: &mut [u8; LENGTH], blocks: &[u8], content: &[u8])
    requires content_len { (length blocks.now ≤ 200) × (length content.now ≡ length blocks.now * 512) }
    requires by_index { (j : ℕ) → j < length blocks.now → get_or blocks.now j 0 < 200 }
    ensures { card.new ≡ with_blocks card.old blocks.now content.now }
{
    let (contents, _) = content.as_chunks::<512>();
    for (j, (b, bytes)) in blocks.iter().zip(contents).enumerate() {
        write_block(card, usize::from(*b), bytes, link_to(&blocks[j + 1..]));
    }
}

// The blocks of a chain become free, with one fewer block left at each step. Nothing is promised where there is no such chain.
pub fn free_chain(card: &mut [u8; LENGTH], block: usize, left: usize)
    requires { block < 200 }
    ensures { (blocks : List ℕ) → SoundChain (table_of card.old) left block blocks → card.new ≡ freed card.old blocks }
{
    if left == 0 {
        return;
    }
    let e = fat_entry(card, block);
    set_link(card, block, FREE_ENTRY);
    if let Link::Next(n) = classify(e) {
        free_chain(card, n, left - 1);
    }
}
