// One directory entry, read from its own 32 bytes: its fields and the tests of row 26.
ghost use Rattle.std.specs.Prelude.{◌≡◌, ◌+◌, ◌≤◌, ◌<◌};
ghost use Rattle.card_model.specs.Layout.{card_length, entry_place, directory_of};
ghost use Rattle.card_model.specs.Entries as model;

use card_model::{CopyProtection, LENGTH};
use words::word;

// Where entry i begins.
#[tactic(auto, unfolding(card_model::specs::Layout::card_length, card_model::specs::Layout::entry_place, card_model::specs::Layout::entry_block, card_model::specs::Layout::entry_byte))]
pub fn entry_place(i: usize) -> usize
    requires { i < 208 }
    ensures { (result ≡ entry_place i) × (result + 32 ≤ card_length) }
{
    (253 - i / 16) * 512 + 32 * (i % 16)
}

// The bytes of entry i.
#[tactic(auto, unfolding(card_model::specs::Layout::card_length))]
pub fn entry_at(card: &[u8; LENGTH], i: usize) -> &[u8; 32]
    requires { i < 208 }
    ensures { result.now ≡ model.entry_at (directory_of card.now) i }
{
    let at = entry_place(i);
    card[at..at + 32].as_array().unwrap()
}

#[tactic(auto, unfolding(card_model::specs::Entries::is_used, card_model::specs::Entries::kind))]
pub fn is_used(entry: &[u8; 32]) -> bool
    ensures { result ≡ model.is_used entry.now }
{
    entry[0] != 0
}

#[tactic(auto, unfolding(card_model::specs::Entries::is_data, card_model::specs::Entries::kind))]
fn is_data(entry: &[u8; 32]) -> bool
    ensures { result ≡ model.is_data entry.now }
{
    entry[0] == 0x33
}

#[tactic(auto, unfolding(card_model::specs::Entries::is_game, card_model::specs::Entries::kind))]
pub fn is_game(entry: &[u8; 32]) -> bool
    ensures { result ≡ model.is_game entry.now }
{
    entry[0] == 0xCC
}

// What the copy flag says: FF is protected, anything else may be copied.
#[tactic(auto, unfolding(card_model::specs::Entries::protection_of, card_model::specs::Entries::is_protected, card_model::specs::Entries::flag))]
pub fn protection(entry: &[u8; 32]) -> CopyProtection
    ensures { result ≡ model.protection_of entry.now }
{
    if entry[1] == 0xFF {
        CopyProtection::Protected
    } else {
        CopyProtection::Copyable
    }
}

#[tactic(auto, unfolding(card_model::specs::Entries::first_block))]
pub fn first_block(entry: &[u8; 32]) -> usize
    ensures { result ≡ model.first_block entry.now }
{
    word(entry, 0x02)
}

#[tactic(auto, unfolding(card_model::specs::Entries::name_of))]
pub fn name_of(entry: &[u8; 32]) -> &[u8; 12]
    ensures { result.now ≡ model.name_of entry.now }
{
    entry[4..16].as_array().unwrap()
}

#[tactic(auto, unfolding(card_model::specs::Entries::size))]
pub fn size(entry: &[u8; 32]) -> usize
    ensures { result ≡ model.size entry.now }
{
    word(entry, 0x18)
}

#[tactic(auto, unfolding(card_model::specs::Entries::header_offset))]
pub fn header_offset(entry: &[u8; 32]) -> usize
    ensures { result ≡ model.header_offset entry.now }
{
    word(entry, 0x1a)
}

#[tactic(auto, unfolding(card_model::specs::Entries::wrong_kind))]
fn wrong_kind(entry: &[u8; 32]) -> bool
    ensures { result ≡ model.wrong_kind entry.now }
{
    !(is_data(entry) | is_game(entry))
}

#[tactic(auto, unfolding(card_model::specs::Entries::wrong_first))]
fn wrong_first(entry: &[u8; 32]) -> bool
    ensures { result ≡ model.wrong_first entry.now }
{
    first_block(entry) >= 200
}

#[tactic(auto, unfolding(card_model::specs::Entries::wrong_size))]
fn wrong_size(entry: &[u8; 32]) -> bool
    ensures { result ≡ model.wrong_size entry.now }
{
    !(1..=200).contains(&size(entry))
}

#[tactic(auto, unfolding(card_model::specs::Entries::wrong_offset))]
fn wrong_offset(entry: &[u8; 32]) -> bool
    ensures { result ≡ model.wrong_offset entry.now }
{
    is_data(entry) & (header_offset(entry) >= size(entry))
}

// Refusal 26's test.
#[tactic(auto, unfolding(card_model::specs::Entries::wrong_entry))]
pub(crate) fn wrong_entry(entry: &[u8; 32]) -> bool
    ensures { result ≡ model.wrong_entry entry.now }
{
    is_used(entry)
        && (wrong_kind(entry) || wrong_first(entry) || wrong_size(entry) || wrong_offset(entry))
}
