#![tactic(auto)]

// The root block and the table of a card: refusals 21 to 25, the table's entries and their classes.
ghost use Rattle.std.specs.Prelude.{◌≡◌, ℕ, Bool, ◌+◌, ◌≤◌, ◌<◌};
ghost use Rattle.verdicts.specs.Rows.{rule_number, result_verdict};
ghost use Rattle.card_model.specs.Layout.{card_length, root_of, fat_place, table_of};
ghost use Rattle.card_model.specs.Table.{magic_row, fields_row, right_fields, fat_entry, link_of, system_entry, free_or_damaged, is_bad, system_row, hidden_row, user_row};
ghost use Rattle.card_model.specs.Calls.{table_rows};
ghost use Rattle.card_table.specs.Regions.{Tests, range_row};

use card_model::{LENGTH, Link};
use verdicts::{CardError, Place, Rule};
use words::word;

const ROOT: usize = 130560;

const TABLE: usize = 130048;

// Where the table's entry of a block begins.
#[tactic(auto, unfolding(card_model::specs::Layout::card_length, card_model::specs::Layout::fat_place))]
pub fn fat_place(b: usize) -> usize
    requires { b < 256 }
    ensures { (result ≡ fat_place b) × (result + 2 ≤ card_length) }
{
    TABLE + 2 * b
}

// The table's entry of a block, in one load: from a part of its own.
#[tactic(auto, using(crate::proofs::TableLaws::entry_word), unfolding(card_model::specs::Layout::card_length))]
pub fn fat_entry(card: &[u8; LENGTH], b: usize) -> usize
    requires { b < 256 }
    ensures { (result ≡ fat_entry (table_of card.now) b) × (result < 65536) }
{
    let at = fat_place(b);
    word(&card[at..at + 2], 0)
}

// The class of a table entry.
#[tactic(auto, unfolding(card_model::specs::Table::link_of))]
pub fn classify(e: usize) -> Link
    ensures { result ≡ link_of e }
{
    match e {
        0xFFFC => Link::Free,
        0xFFFF => Link::Damaged,
        0xFFFA => Link::Last,
        0..=199 => Link::Next(e),
        _ => Link::Bad,
    }
}

pub fn free_or_damaged(link: Link) -> bool
    ensures { result ≡ free_or_damaged link }
{
    matches!(link, Link::Free | Link::Damaged)
}

fn is_bad(link: Link) -> bool
    ensures { result ≡ is_bad link }
{
    matches!(link, Link::Bad)
}

// What the table has to say of a system block.
#[tactic(auto, unfolding(card_model::specs::Table::system_entry))]
fn system_entry(b: usize) -> usize
    requires { 1 ≤ b }
    ensures { result ≡ system_entry b }
{
    if (b == 255) | ((b == 254) | (b == 241)) {
        return 0xFFFA;
    }
    b - 1
}

// The refusal of the first wrong block of a range, which is looked for only where there is one. The first loop has no early exit:
// several entries go in one step.
fn blocks_row<F: Fn(usize) -> bool>(
    rule: Rule,
    from: usize,
    to: usize,
    wrong: F,
) -> Result<(), CardError>
    requires { (b : ℕ) → from ≤ b → b < to → F.pre wrong b }
    ensures { (p : ℕ → Bool) → Tests (F.post wrong) p from to → result_verdict result ≡ range_row (rule_number rule) p from to }
{
    let mut any = false;
    for b in from..to {
        any |= wrong(b);
    }
    if any {
        for b in from..to {
            if wrong(b) {
                return Err(rule.at(Place::Block(b)));
            }
        }
    }
    Ok(())
}

fn system_row(card: &[u8; LENGTH]) -> Result<(), CardError>
    ensures { result_verdict result ≡ system_row (table_of card.now) }
{
    blocks_row(
        Rule::SystemEntry,
        241,
        256,
        |b| fat_entry(card, b) != system_entry(b),
    )
}

fn hidden_row(card: &[u8; LENGTH]) -> Result<(), CardError>
    ensures { result_verdict result ≡ hidden_row (table_of card.now) }
{
    blocks_row(
        Rule::HiddenEntry,
        200,
        241,
        |b| !free_or_damaged(classify(fat_entry(card, b))),
    )
}

fn user_row(card: &[u8; LENGTH]) -> Result<(), CardError>
    ensures { result_verdict result ≡ user_row (table_of card.now) }
{
    blocks_row(
        Rule::UserEntry,
        0,
        200,
        |b| is_bad(classify(fat_entry(card, b))),
    )
}

#[tactic(auto, unfolding(card_model::specs::Table::right_fields))]
fn right_fields(root: &[u8; 512]) -> bool
    ensures { result ≡ right_fields root.now }
{
    (word(root, 0x46) == 254)
        & (word(root, 0x48) == 1)
        & (word(root, 0x4a) == 253)
        & (word(root, 0x4c) == 13)
        & (word(root, 0x50) == 200)
}

// Arrays are compared, since a comparison of slices is a call.
#[tactic(auto, using(crate::proofs::TableLaws::magic_tested))]
fn magic_row(root: &[u8; 512]) -> Result<(), CardError>
    ensures { result_verdict result ≡ magic_row root.now }
{
    if root[0..16].as_array().unwrap() != &[0x55u8; 16] {
        return Err(Rule::RootMagic.at(Place::Block(255)));
    }
    Ok(())
}

#[tactic(auto, unfolding(card_model::specs::Table::fields_row))]
fn fields_row(root: &[u8; 512]) -> Result<(), CardError>
    ensures { result_verdict result ≡ fields_row root.now }
{
    if !right_fields(root) {
        return Err(Rule::RootFields.at(Place::Block(255)));
    }
    Ok(())
}

#[tactic(auto, unfolding(card_model::specs::Layout::root_of, card_model::specs::Layout::block_at))]
fn root_block(card: &[u8; LENGTH]) -> &[u8; 512]
    ensures { result.now ≡ root_of card.now }
{
    card[ROOT..LENGTH].as_array().unwrap()
}

// Refusals 21 to 25. The table is read where it stands.
#[tactic(auto, using(crate::proofs::TableLaws::row_refused, crate::proofs::TableLaws::row_passed), unfolding(card_model::specs::Calls::table_rows))]
pub fn table_verdict(card: &[u8; LENGTH]) -> Result<(), CardError>
    ensures { result_verdict result ≡ table_rows (root_of card.now) (table_of card.now) }
{
    let root = root_block(card);
    magic_row(root)?;
    fields_row(root)?;
    system_row(card)?;
    hidden_row(card)?;
    user_row(card)
}
