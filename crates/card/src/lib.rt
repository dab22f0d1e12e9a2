#![tactic(auto)]

// Memory cards of 128 KiB: check, list, read, write and delete, on a card lent by the caller.
//
// Every call begins by opening the card (`card_check::open`), and where it is refused nothing has changed. No call asks anything of what
// it is lent.
ghost use Rattle.std.specs.Prelude.{◌≡◌, ℕ, ◌*◌, ◌<◌, ◌≤◌, length, get_or, Some, Ok, IfOk};
ghost use Rattle.verdicts.specs.Rows.{result_verdict};
ghost use Rattle.card_model.specs.Layout.{directory_of};
ghost use Rattle.card_model.specs.Calls.{check_of, listed_entry, list_of, index_row, read_verdict, left_by, read_buffer};
ghost use Rattle.card_model.specs.Results.{check_answer, list_answer};
ghost use Rattle.card_model.specs.Sound.{NoRowRefuses, UsedEntry};
ghost use Rattle.card_updates.specs.Delete.{delete_verdict, deleted, without_file};
ghost use Rattle.card_updates.specs.Write.{given_file, data_rows, taken_row, with_file, write_verdict, written};

use card_chains::count_orphans;
use card_chains::walking::block_after;
use card_check::{Lists, Opened, open};
use card_directory::entry;
use card_directory::search::first_used;
use card_files::blocks::{free_chain, write_blocks};
use card_files::entries::{EntryNumbers, clear_entry, lowest_unused, put_entry};
use card_files::free::list_free;
use card_model::{LENGTH, ListedEntry};
use verdicts::{CardError, Place, Rule};

// How many orphans a sound card has.
#[tactic(auto, using(crate::proofs::AnswerLaws::checks))]
pub fn check(card: &[u8]) -> Result<usize, CardError>
    ensures { check_answer result ≡ check_of card.now }
{
    let mut lists = Lists::new();
    let sound = open(card, &mut lists)?;
    Ok(count_orphans(sound.card, sound.marks))
}

// Entry i, from its own bytes.
#[tactic(auto, unfolding(card_model::specs::Calls::listed_entry, card_model::specs::Entries::kind, card_model::specs::Entries::flag, card_model::specs::Entries::name_of, card_model::specs::Entries::time_of))]
fn listing_of(i: usize, found: &[u8; 32]) -> ListedEntry
    ensures { list_answer (Ok result) ≡ listed_entry i found.now }
{
    ListedEntry {
        entry: i,
        kind: found[0],
        flag: found[1],
        protection: entry::protection(found),
        first: entry::first_block(found),
        size: entry::size(found),
        offset: entry::header_offset(found),
        name: *found[4..16].as_array().unwrap(),
        time: *found[16..24].as_array().unwrap(),
    }
}

// The first used entry from `from` on; 31 where there is none.
#[tactic(auto, using(crate::proofs::AnswerLaws::lists))]
pub fn list(card: &[u8], from: usize) -> Result<ListedEntry, CardError>
    ensures { list_answer result ≡ list_of card.now from }
{
    let mut lists = Lists::new();
    let opened = open(card, &mut lists)?;
    let i = first_used(opened.used, from).ok_or(Rule::NoFile.at(Place::Whole))?;
    Ok(listing_of(i, entry::entry_at(opened.card, i)))
}

// Refusal 32 of a read from the file of entry i, or its block.
#[tactic(auto, using(crate::proofs::ReadLaws::first_below, crate::proofs::ReadLaws::in_file))]
fn read_block(
    card: &[u8; LENGTH],
    i: usize,
    index: usize,
    block: &mut [u8; 512],
) -> Result<(), CardError>
    requires { NoRowRefuses card.now × UsedEntry card.now i }
    ensures value { result_verdict result ≡ index_row (directory_of card.now) index (Some i) }
    ensures block_after { block.new ≡ left_by (result_verdict result) card.now index (Some i) block.old }
{
    let found = entry::entry_at(card, i);
    if entry::size(found) <= index {
        return Err(Rule::BlockIndex.at(Place::Whole));
    }
    let at = block_after(card, entry::first_block(found), index) * 512;
    block.copy_from_slice(&card[at..at + 512]);
    Ok(())
}

// Reads a block of the file of this name into the buffer; past the check it refuses 33, 31 and 32, in this order.
#[tactic(auto, using(crate::proofs::ReadLaws::reads))]
pub fn read(card: &[u8], name: &[u8], index: usize, block: &mut [u8]) -> Result<(), CardError>
    ensures value { result_verdict result ≡ read_verdict card.now name.now index block.old }
    ensures block_after { block.new ≡ read_buffer card.now name.now index block.old }
{
    let mut lists = Lists::new();
    let opened = open(card, &mut lists)?;
    if name.len() != 12 || block.len() != 512 {
        return Err(Rule::Lengths.at(Place::Whole));
    }
    let i = opened.named(name).ok_or(Rule::NoFile.at(Place::Whole))?;
    read_block(opened.card, i, index, block.as_mut_array().unwrap())
}

// What is given of a data file in numbers. Any flag is taken; an offset that isn't below the size is refused.
#[derive(Clone, Copy)]
pub struct DataNumbers {
    pub flag: u8,
    pub offset: usize,
}

// A data file of 1 to 200 whole blocks, with the numbers of its entry.
#[derive(Clone, Copy)]
struct DataFile<'a> {
    name: &'a [u8; 12],
    time: &'a [u8; 8],
    content: &'a [u8],
    flag: u8,
    size: u16,
    offset: u16,
    ghost whole_blocks: { length content.now ≡ size * 512 },
    ghost few: { (1 ≤ size) × (size ≤ 200) × (offset < size) },
}

// Refusals 33 and 26 of a data file, which look at nothing of the card.
#[tactic(auto, unfolding(card_updates::specs::Write::data_rows, card_updates::specs::Write::bad_lengths))]
fn data_file<'a>(
    name: &'a [u8],
    time: &'a [u8],
    numbers: DataNumbers,
    content: &'a [u8],
) -> Result<DataFile<'a>, CardError>
    ensures verdict { result_verdict result ≡ data_rows (given_file numbers.flag name.now time.now content.now) numbers.offset }
    ensures file { IfOk result (λ f. (given_file f.flag f.name.now f.time.now f.content.now ≡ given_file numbers.flag name.now time.now content.now) × (f.offset ≡ numbers.offset)) }
{
    let wrong_length = Rule::Lengths.at(Place::Whole);
    let Ok(name) = <&[u8; 12]>::try_from(name) else {
        return Err(wrong_length);
    };
    let Ok(time) = <&[u8; 8]>::try_from(time) else {
        return Err(wrong_length);
    };
    let size = content.len() / 512;
    if content.len() % 512 != 0 || size == 0 || 200 < size {
        return Err(wrong_length);
    }
    if size <= numbers.offset {
        return Err(Rule::DirectoryEntry.at(Place::Whole));
    }
    // By `as`, since `From` never narrows: both numbers are at most 200.
    Ok(DataFile {
        name,
        time,
        content,
        flag: numbers.flag,
        size: size as u16,
        offset: numbers.offset as u16,
    })
}

// Refusal 29: the entry that has the name.
#[tactic(auto, unfolding(card_updates::specs::Write::taken_row))]
fn taken_row(opened: &Opened<'_>, name: &[u8]) -> Result<(), CardError>
    ensures { result_verdict result ≡ taken_row (directory_of opened.now.card.now) name.now }
{
    match opened.named(name) {
        Some(i) => Err(Rule::SameName.at(Place::Entry(i))),
        None => Ok(()),
    }
}

// The file goes into these blocks and into entry i.
#[tactic(auto, unfolding(card_updates::specs::Write::with_file))]
fn put_file(card: &mut [u8; LENGTH], i: usize, blocks: &[u8], file: DataFile<'_>)
    requires in_directory { i < 208 }
    requires of_its_size { length blocks.now ≡ file.size }
    requires user_blocks { (j : ℕ) → j < length blocks.now → get_or blocks.now j 0 < 200 }
    ensures { card.new ≡ with_file card.old 0x33 (given_file file.entry.flag file.entry.name.now file.entry.time.now file.entry.content.now) file.entry.offset blocks.now i }
{
    write_blocks(card, blocks, file.content);
    let numbers = EntryNumbers {
        kind: 0x33,
        flag: file.flag,
        first: u16::from(blocks[0]),
        size: file.size,
        offset: file.offset,
    };
    put_entry(card, i, file.name, file.time, numbers);
}

// Writes a data file; past the check it refuses 33, 26, 29 and 34, in this order.
#[tactic(auto, using(crate::proofs::WriteLaws::writes), unfolding(card_model::specs::Layout::card_length))]
pub fn write(
    card: &mut [u8],
    name: &[u8],
    time: &[u8],
    numbers: DataNumbers,
    content: &[u8],
) -> Result<(), CardError>
    ensures value { result_verdict result ≡ write_verdict card.old (given_file numbers.flag name.now time.now content.now) numbers.offset }
    ensures card_after { card.new ≡ written card.old (given_file numbers.flag name.now time.now content.now) numbers.offset }
{
    let mut lists = Lists::new();
    let opened = open(card, &mut lists)?;
    let file = data_file(name, time, numbers, content)?;
    taken_row(&opened, name)?;
    let size = usize::from(file.size);
    let free = list_free(opened.card);
    let blocks = free.as_slice();
    if blocks.len() < size {
        return Err(Rule::NoRoom.at(Place::Whole));
    }
    let i = lowest_unused(opened.used);
    let card = card.as_mut_array().unwrap();
    put_file(card, i, &blocks[..size], file);
    Ok(())
}

// Takes the file of entry i off the card: its chain becomes free and its entry zeros. The bytes of its blocks stay.
#[tactic(auto, using(crate::proofs::ReadLaws::first_below, crate::proofs::DeleteLaws::file_chained), unfolding(card_updates::specs::Delete::without_file))]
fn remove_file(card: &mut [u8; LENGTH], i: usize)
    requires { NoRowRefuses card.old × UsedEntry card.old i }
    ensures { card.new ≡ without_file card.old i }
{
    let found = entry::entry_at(card, i);
    let first = entry::first_block(found);
    let size = entry::size(found);
    free_chain(card, first, size);
    clear_entry(card, i);
}

// Deletes the file of this name, data or game; past the check it refuses 33 and 31, in this order.
#[tactic(auto, using(crate::proofs::DeleteLaws::deletes), unfolding(card_model::specs::Layout::card_length))]
pub fn delete(card: &mut [u8], name: &[u8]) -> Result<(), CardError>
    ensures value { result_verdict result ≡ delete_verdict card.old name.now }
    ensures card_after { card.new ≡ deleted card.old name.now }
{
    let mut lists = Lists::new();
    let opened = open(card, &mut lists)?;
    if name.len() != 12 {
        return Err(Rule::Lengths.at(Place::Whole));
    }
    let i = opened.named(name).ok_or(Rule::NoFile.at(Place::Whole))?;
    let card = card.as_mut_array().unwrap();
    remove_file(card, i);
    Ok(())
}
