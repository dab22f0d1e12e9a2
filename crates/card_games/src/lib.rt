#![tactic(auto)]

// The game rule: refusal 30, over the list of the used entries.
ghost use Rattle.std.specs.Prelude.{◌≡◌, true, ◌+◌, ◌≤◌, ◌<◌};
ghost use Rattle.words.specs.Lists.{any_of, is_some, numbers_from};
ghost use Rattle.verdicts.specs.Rows.{result_verdict};
ghost use Rattle.card_model.specs.Layout.{table_of, directory_of};
ghost use Rattle.card_model.specs.Table.{link_at};
ghost use Rattle.card_model.specs.Entries as model;
ghost use Rattle.card_model.specs.Files.{chain, or_empty, rising, breaks_game_rule, game_row};
ghost use Rattle.card_games.specs.Rules.{GoodChains, leads_to};

use card_directory::entry::{entry_at, first_block, is_game, size};
use card_directory::opened_directory::Directory;
use card_directory::search::find_used;
use card_model::{LENGTH, Link};
use card_table::{classify, fat_entry};
use verdicts::{CardError, Place, Rule};

// The most blocks of a game.
const MOST: usize = 128;

// Whether an entry before i is a game.
fn game_before(card: &[u8; LENGTH], i: usize) -> bool
    requires { i ≤ 208 }
    ensures { result ≡ any_of (λ j. model.is_game (model.entry_at (directory_of card.now) j)) (numbers_from 0 i) }
{
    (0..i).any(|j| is_game(entry_at(card, j)))
}

// Whether the table leads from block b to the one above it.
#[tactic(auto, unfolding(card_model::specs::Table::link_at))]
fn leads_up(card: &[u8; LENGTH], b: usize) -> bool
    requires { b < 200 }
    ensures { result ≡ leads_to (link_at (table_of card.now) b) (b + 1) }
{
    classify(fat_entry(card, b)) == Link::Next(b + 1)
}

// Whether each block of the chain from block 0 leads to the one above it.
fn rises(card: &[u8; LENGTH], blocks: usize) -> bool
    requires most { blocks ≤ 200 }
    requires chained { is_some (chain (table_of card.now) blocks 0) ≡ true }
    ensures { result ≡ rising (or_empty (chain (table_of card.now) blocks 0)) }
{
    (1..blocks).all(|next| leads_up(card, next - 1))
}

fn breaks_game_rule(card: &[u8; LENGTH], i: usize) -> bool
    requires below { i < 208 }
    requires good_chains { GoodChains (table_of card.now) (directory_of card.now) }
    ensures { result ≡ breaks_game_rule (table_of card.now) (directory_of card.now) i }
{
    let entry = entry_at(card, i);
    if !is_game(entry) {
        return false;
    }
    if game_before(card, i) || first_block(entry) != 0 {
        return true;
    }
    let blocks = size(entry);
    MOST < blocks || !rises(card, blocks)
}

// The refusal at the first listed entry that breaks the rule.
pub fn game_row(directory: Directory<'_>) -> Result<(), CardError>
    requires { GoodChains (table_of directory.card.now) (directory_of directory.card.now) }
    ensures { result_verdict result ≡ game_row (table_of directory.entry.card.now) (directory_of directory.entry.card.now) }
{
    match find_used(directory.used, |i| breaks_game_rule(directory.card, i)) {
        Some(i) => Err(Rule::Game.at(Place::Entry(i))),
        None => Ok(()),
    }
}
