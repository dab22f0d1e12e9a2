#![tactic(auto)]

// Refusal 29, by hash: each slot leads to the last listed entry whose name falls into it, and each entry to the one before it in its
// slot. The tables hold bytes, which are half as long as Options: 0 is none and k + 1 is number k, as `checked_sub(1)` reads them.
ghost use Rattle.std.specs.Prelude.{◌≡◌, ℕ, ◌+◌, ◌≤◌, ◌<◌, length, Some};
ghost use Rattle.verdicts.specs.Rows.{result_verdict};
ghost use Rattle.card_model.specs.Layout.{directory_of};
ghost use Rattle.card_model.specs.Entries.{name_row};
ghost use Rattle.card_names.specs.Slots as hash;

use card_directory::entry::{entry_at, name_of};
use card_directory::opened_directory::Directory;
use verdicts::{CardError, Place, Rule};

// The parts of a name in one. Each is rotated by another amount, so that digits that differ at the same place of two parts do not
// cancel.
fn mixed(a: u32, b: u32, c: u32) -> u32
    ensures { result ≡ hash.mixed a b c }
{
    a ^ b.rotate_left(9) ^ c.rotate_left(19)
}

// Four bytes as a number.
fn quad(name: &[u8; 12], i: usize) -> u32
    requires { i + 4 ≤ 12 }
    ensures { result ≡ hash.quad name.now i }
{
    u32::from_le_bytes(*name[i..i + 4].as_array().unwrap())
}

// The slot of a name, by one multiplication: the middle of the product depends on every bit, so that similar names seldom have
// the same slot. The factor is below 2^30, so that the product fits.
#[tactic(auto, unfolding(crate::specs::Slots::slot_of))]
fn slot_of(name: &[u8; 12]) -> usize
    ensures { (result ≡ hash.slot_of name.now) × (result < 2048) }
{
    let parts = mixed(quad(name, 0), quad(name, 4), quad(name, 8));
    747796405 * (parts as usize) / 16777216 % 2048
}

// The last listed entry of this name, from the last one of its slot on back.
fn find_back(
    directory: Directory<'_>,
    next: &[u8; 208],
    start: Option<u8>,
    name: &[u8; 12],
) -> Option<usize>
    requires within { hash.up_to start ≤ length directory.used.now }
    requires chained { hash.Chained (directory_of directory.card.now) directory.used.now next.now (hash.up_to start) }
    requires in_slot { (j : ℕ) → start ≡ Some j → hash.slot_at (directory_of directory.card.now) directory.used.now j ≡ hash.slot_of name.now }
    ensures { hash.LastOf (hash.name_at (directory_of directory.entry.card.now) directory.entry.used.now) name.now (hash.up_to start) result }
{
    let mut at = start;
    while let Some(k) = at {
        let k = usize::from(k);
        if name_of(entry_at(directory.card, usize::from(directory.used[k]))) == name {
            return Some(k);
        }
        at = next[k].checked_sub(1);
    }
    None
}

// The refusal at the first entry whose name is taken, from the list of the used entries.
pub fn name_row(directory: Directory<'_>) -> Result<(), CardError>
    ensures { result_verdict result ≡ name_row (directory_of directory.entry.card.now) }
{
    let mut slots = [0u8; 2048];
    let mut next = [0u8; 208];
    for (j, &i) in directory.used.iter().enumerate() {
        let i = usize::from(i);
        let name = name_of(entry_at(directory.card, i));
        let slot = slot_of(name);
        let earlier = slots[slot];
        if find_back(directory, &next, earlier.checked_sub(1), name).is_some() {
            return Err(Rule::SameName.at(Place::Entry(i)));
        }
        next[j] = earlier;
        slots[slot] = (j + 1) as u8;
    }
    Ok(())
}
