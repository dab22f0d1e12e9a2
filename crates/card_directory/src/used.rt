// The list of the used entries: the rows go over the list alone.
ghost use Rattle.std.specs.Prelude.{◌≡◌, length};
ghost use Rattle.verdicts.specs.Rows.{result_verdict};
ghost use Rattle.card_model.specs.Layout.{directory_of};
ghost use Rattle.card_model.specs.Entries.{entry_row};
ghost use Rattle.card_directory.specs.Listed.{Listed};

use crate::entry::{entry_at, is_used, wrong_entry};
use crate::opened_directory::Directory;
use crate::search::find_used;
use card_model::LENGTH;
use verdicts::{CardError, Place, Rule};

// Memory for the numbers of the used entries.
pub type UsedEntries = [u8; 208];

// Lists the used entries in memory that is lent, and gives the part that is the list. Each entry is put behind the list and counted where
// it is used: no step depends on a branch.
pub fn list_used<'a>(card: &[u8; LENGTH], numbers: &'a mut UsedEntries) -> &'a [u8]
    ensures { Listed (directory_of card.now) 208 result.now (length result.now) }
{
    let mut count = 0;
    for i in 0..208 {
        numbers[count] = i as u8;
        count += usize::from(is_used(entry_at(card, i)));
    }
    &numbers[..count]
}

// Refusal 26, of the first wrong entry of the list.
pub fn entry_row(directory: Directory<'_>) -> Result<(), CardError>
    ensures { result_verdict result ≡ entry_row (directory_of directory.entry.card.now) }
{
    match find_used(directory.used, |i| wrong_entry(entry_at(directory.card, i))) {
        Some(i) => Err(Rule::DirectoryEntry.at(Place::Entry(i))),
        None => Ok(()),
    }
}
