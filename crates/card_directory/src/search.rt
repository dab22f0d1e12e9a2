// The searches along the list of the used entries: by number and by name.
ghost use Rattle.std.specs.Prelude.{◌≡◌, ℕ, ◌<◌, Bool, List, length, slice_index};
ghost use Rattle.std.specs.List.{find};
ghost use Rattle.card_model.specs.Layout.{directory_of};
ghost use Rattle.card_model.specs.Calls.{first_used, entry_named};
ghost use Rattle.card_directory.specs.Listed.{Listed, TestsListed};

use crate::entry::{entry_at, name_of};
use crate::opened_directory::Directory;

// The first number of the list that passes a test.
pub fn find_used<F: Fn(usize) -> bool>(used: &[u8], passes: F) -> Option<usize>
    requires { (j : ℕ) → j < length used.now → F.pre passes (slice_index used.now j) }
    ensures { (p : ℕ → Bool) → TestsListed (F.post passes) p used.now → result ≡ find p used.now }
{
    for number in used {
        let i = usize::from(*number);
        if passes(i) {
            return Some(i);
        }
    }
    None
}

// The first used entry from `start` on, of any directory that has this list.
pub fn first_used(used: &[u8], start: usize) -> Option<usize>
    ensures { (directory : List (List ℕ)) → Listed directory 208 used.now (length used.now) → result ≡ first_used directory start }
{
    find_used(used, |i| start <= i)
}

// The entry of this name. Arrays are compared, since a comparison of slices is a call for each entry.
pub fn find_named(directory: Directory<'_>, name: &[u8]) -> Option<usize>
    ensures { result ≡ entry_named (directory_of directory.entry.card.now) name.now }
{
    let Ok(name) = <&[u8; 12]>::try_from(name) else {
        return None;
    };
    find_used(
        directory.used,
        |i| name_of(entry_at(directory.card, i)) == name,
    )
}
