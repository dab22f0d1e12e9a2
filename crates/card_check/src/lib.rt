#![tactic(auto)]

// Opening a card: every call begins with it, and the rows 20 to 30 are put together here and nowhere else.
ghost use Rattle.std.specs.Prelude.{◌≡◌, replicate, IfOk};
ghost use Rattle.verdicts.specs.Rows.{result_verdict};
ghost use Rattle.card_model.specs.Layout.{directory_of};
ghost use Rattle.card_model.specs.Calls.{verdict_of, entry_named};
ghost use Rattle.card_chains.specs.Marks.{no_marks};
ghost use Rattle.card_check.specs.Opening.{OpenCard};

use card_chains::walk_files;
use card_directory::opened_directory::Directory;
use card_directory::search::find_named;
use card_directory::used::{UsedEntries, entry_row, list_used};
use card_games::game_row;
use card_model::LENGTH;
use card_names::name_row;
use card_table::table_verdict;
use verdicts::{CardError, Place, Rule};

// Memory that a caller lends for what an opening finds: it is too long to be handed out by value.
#[derive(Drop)]
pub struct Lists {
    used: UsedEntries,
    marks: [u8; 200],
}

impl Lists {
    #[tactic(auto, unfolding(card_chains::specs::Marks::no_marks))]
    pub fn new() -> Lists
        ensures { (result.used ≡ replicate 208 0) × (result.marks ≡ no_marks) }
    {
        Lists {
            used: [0; 208],
            marks: [0; 200],
        }
    }
}

// A card that no row refuses, with its used entries listed and the blocks of its files marked.
#[derive(Clone, Copy)]
pub struct Opened<'a> {
    pub card: &'a [u8; LENGTH],
    pub used: &'a [u8],
    pub marks: &'a [u8; 200],
    ghost is_open: { OpenCard card.now used.now marks.now },
}

// Refusals 21 to 30, of a card of the right length.
#[tactic(auto, using(crate::proofs::RowLaws::rows), unfolding(card_chains::specs::Marks::no_marks))]
fn open_right_length<'a>(
    card: &'a [u8; LENGTH],
    lists: &'a mut Lists,
) -> Result<Opened<'a>, CardError>
    ensures verdict { result_verdict result ≡ verdict_of card.now }
    ensures opened { IfOk result (λ o. o.card.now ≡ card.now) }
{
    table_verdict(card)?;
    let used = list_used(card, &mut lists.used);
    let directory = Directory { card, used };
    entry_row(directory)?;
    let marks = &mut lists.marks;
    marks.fill(0);
    walk_files(directory, marks)?;
    name_row(directory)?;
    game_row(directory)?;
    Ok(Opened { card, used, marks })
}

// Refusals 20 to 30. The length is tested before all that asks for it.
#[tactic(auto, using(crate::proofs::RowLaws::wrong_length))]
pub fn open<'a>(card: &'a [u8], lists: &'a mut Lists) -> Result<Opened<'a>, CardError>
    ensures verdict { result_verdict result ≡ verdict_of card.now }
    ensures opened { IfOk result (λ o. o.card.now ≡ card.now) }
{
    match <&[u8; LENGTH]>::try_from(card) {
        Ok(card) => open_right_length(card, lists),
        Err(_) => Err(Rule::CardLength.at(Place::Whole)),
    }
}

impl Opened<'_> {
    // The entry of this name.
    pub fn named(&self, name: &[u8]) -> Option<usize>
        ensures { result ≡ entry_named (directory_of self.now.card.now) name.now }
    {
        let directory = Directory {
            card: self.card,
            used: self.used,
        };
        find_named(directory, name)
    }
}
