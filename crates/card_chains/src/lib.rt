#![tactic(auto)]

// The chains of a card's files: refusals 27 and 28, and the orphans. No block is walked twice: it is tested and marked in the
// same step, and a walk that meets a mark knows the rest.
pub mod walking;

ghost use Rattle.std.specs.Prelude.{◌≡◌, false, ℕ, ◌<◌, OnOk};
ghost use Rattle.verdicts.specs.Rows.{result_verdict};
ghost use Rattle.card_model.specs.Layout.{table_of, directory_of};
ghost use Rattle.card_model.specs.Entries.{wrong_entry};
ghost use Rattle.card_model.specs.Files.{files_before, orphans};
ghost use Rattle.card_model.specs.Sound.{entry_on};
ghost use Rattle.card_chains.specs.Marks.{no_marks, MarkedFiles};
ghost use Rattle.card_chains.specs.Rows.{chain_rows};

use crate::walking::{Finding, link_at, walk};
use card_directory::entry::{entry_at, first_block, size};
use card_directory::opened_directory::Directory;
use card_model::LENGTH;
use card_table::free_or_damaged;
use verdicts::{CardError, Place, Rule};

// Refusals 27 and 28, over the list of the used entries. A bad chain anywhere comes before a shared block, so the first entry that
// shares one is kept and the pass goes on.
pub fn walk_files(directory: Directory<'_>, marks: &mut [u8; 200]) -> Result<(), CardError>
    requires unmarked { marks.old ≡ no_marks }
    requires by_index { (i : ℕ) → i < 208 → wrong_entry (entry_on directory.card.now i) ≡ false }
    ensures value { result_verdict result ≡ chain_rows (table_of directory.entry.card.now) (directory_of directory.entry.card.now) }
    ensures marked_files { OnOk result (MarkedFiles (table_of directory.entry.card.now) (files_before (table_of directory.entry.card.now) (directory_of directory.entry.card.now) 208) marks.new) }
{
    let card = directory.card;
    let mut shared = None;
    for &i in directory.used {
        let i = usize::from(i);
        let entry = entry_at(card, i);
        match walk(card, marks, first_block(entry), size(entry)) {
            Finding::Broken => return Err(Rule::Chain.at(Place::Entry(i))),
            Finding::Shared => shared = shared.or(Some(i)),
            Finding::Apart => {}
        }
    }
    match shared {
        Some(i) => Err(Rule::SharedBlock.at(Place::Entry(i))),
        None => Ok(()),
    }
}

// How many user blocks are in use but in no file. The count is as wide as an entry and every block adds to it, so eight go in one
// step; `filter` and `count` took eight times as long.
pub fn count_orphans(card: &[u8; LENGTH], marks: &[u8; 200]) -> usize
    requires { MarkedFiles (table_of card.now) (files_before (table_of card.now) (directory_of card.now) 208) marks.now }
    ensures { result ≡ orphans (table_of card.now) (directory_of card.now) }
{
    let mut orphans: u16 = 0;
    for b in 0..200 {
        orphans += u16::from((marks[b] == 0) & !free_or_damaged(link_at(card, b)));
    }
    usize::from(orphans)
}
