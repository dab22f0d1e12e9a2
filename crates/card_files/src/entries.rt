#![tactic(auto, using(crate::proofs::PutLaws::puts, crate::proofs::EntryLaws::entries, crate::proofs::UnusedLaws::unused), unfolding(words::specs::Words::word_bytes, card_model::specs::Layout::card_length))]

// The directory's entries: the lowest unused one, an entry filled, an entry cleared.
ghost use Rattle.std.specs.Prelude.{◌≡◌, true, List, ℕ, ◌<◌, length, replicate};
ghost use Rattle.std.specs.Prelude.{Some};
ghost use Rattle.words.specs.Lists.{is_some};
ghost use Rattle.card_model.specs.Layout.{entry_place};
ghost use Rattle.card_directory.specs.Listed.{Listed};
ghost use Rattle.card_updates.specs.Parts.{with_part};
ghost use Rattle.card_updates.specs.Write.{lowest_unused};
ghost use Rattle.card_files.specs.Entry.{head_of, tail_of, entry_with};

use card_directory::entry::entry_place;
use card_model::LENGTH;

// The fields of an entry that are numbers.
#[derive(Clone, Copy)]
pub struct EntryNumbers {
    pub kind: u8,
    pub flag: u8,
    pub first: u16,
    pub size: u16,
    pub offset: u16,
}

// The lowest unused entry, of any directory that has this list and an unused entry.
pub fn lowest_unused(used: &[u8]) -> usize
    ensures { (directory : List (List ℕ)) → Listed directory 208 used.now (length used.now) → is_some (lowest_unused directory) ≡ true → lowest_unused directory ≡ Some result }
{
    for (i, e) in used.iter().enumerate() {
        if usize::from(*e) != i {
            return i;
        }
    }
    used.len()
}

impl EntryNumbers {
    // The first four bytes of the entry: kind, flag, first block.
    fn head(self) -> [u8; 4]
        ensures { result ≡ head_of self }
    {
        let [low, high] = self.first.to_le_bytes();
        [self.kind, self.flag, low, high]
    }

    // Its last eight bytes: size, header offset, and the reserved ones.
    fn tail(self) -> [u8; 8]
        ensures { result ≡ tail_of self }
    {
        let [size_low, size_high] = self.size.to_le_bytes();
        let [offset_low, offset_high] = self.offset.to_le_bytes();
        [size_low, size_high, offset_low, offset_high, 0, 0, 0, 0]
    }
}

// All 32 bytes of an entry.
fn entry_bytes(name: &[u8; 12], time: &[u8; 8], numbers: EntryNumbers) -> [u8; 32]
    ensures { result ≡ entry_with numbers name.now time.now }
{
    let mut entry = [0; 32];
    entry[..4].copy_from_slice(&numbers.head());
    entry[4..16].copy_from_slice(name);
    entry[16..24].copy_from_slice(time);
    entry[24..].copy_from_slice(&numbers.tail());
    entry
}

// Fills entry i of the card.
pub fn put_entry(
    card: &mut [u8; LENGTH],
    i: usize,
    name: &[u8; 12],
    time: &[u8; 8],
    numbers: EntryNumbers,
)
    requires { i < 208 }
    ensures { card.new ≡ with_part card.old (entry_place i) (entry_with numbers name.now time.now) }
{
    let at = entry_place(i);
    card[at..at + 32].copy_from_slice(&entry_bytes(name, time, numbers));
}

// Entry i becomes 32 zeros.
pub fn clear_entry(card: &mut [u8; LENGTH], i: usize)
    requires { i < 208 }
    ensures { card.new ≡ with_part card.old (entry_place i) (replicate 32 0) }
{
    let at = entry_place(i);
    card[at..at + 32].fill(0);
}
