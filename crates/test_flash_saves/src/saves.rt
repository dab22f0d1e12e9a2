// Accepted saves: two writers, and both ways, by append and by compaction; and idle ones.
use flash::{read, save};
use std::io;
use test_printing::{print_answer, print_pages, print_report};
use test_scenarios::pages::{format, page_of, save_numbers, save_round, save_rounds, save_seen};

// Both read number 24 before either saves it.
pub(crate) fn two_writers(rt: &impl Print, image: &mut [u8; 32768]) -> io::Result<()> {
    format(image, 3, 1);
    save_rounds(image, 3, 24, 1);
    let mut first = [0; 60];
    let mut second = [0; 60];
    print_answer(rt, "first writer reads", read(image, 3, 24, &mut first))?;
    print_answer(rt, "second writer reads", read(image, 3, 24, &mut second))?;
    print_answer(rt, "first writer saves", save_seen(image, 3, 24, &first, 2))?;
    let late = save_seen(image, 3, 24, &second, 3);
    print_answer(rt, "second writer saves", late)?;
    print_pages(rt, "page of the first writer", image, 24..25, 2)?;
    second_try(rt, image)
}

// The second writer was told, reads again and saves.
fn second_try(rt: &impl Print, image: &mut [u8; 32768]) -> io::Result<()> {
    let mut second = [0; 60];
    let told = read(image, 3, 24, &mut second);
    print_answer(rt, "second writer reads again", told)?;
    let saved = save_seen(image, 3, 24, &second, 3);
    print_answer(rt, "second writer saves again", saved)?;
    print_pages(rt, "page of the second writer", image, 24..25, 3)
}

// Every number is live, so a further save is a compaction that drops the saved number's old copy.
pub(crate) fn all_live(rt: &impl Print, image: &mut [u8; 32768]) -> io::Result<()> {
    format(image, 3, 1);
    println!(rt; "numbers saved: {}", save_numbers(image, 3, 510, 1))?;
    print_report(rt, "all live", image, 3)?;
    print_answer(rt, "save number 24 again", save_round(image, 3, 24, 2))?;
    print_report(rt, "after the compaction", image, 3)?;
    all_kept(rt, image)
}

// Number 24 has its new page, every other number its old one.
fn all_kept(rt: &impl Print, image: &[u8]) -> io::Result<()> {
    print_pages(rt, "number 24", image, 24..25, 2)?;
    print_pages(rt, "numbers below 24", image, 0..24, 1)?;
    print_pages(rt, "numbers above 24", image, 25..510, 1)
}

// Every block holds a copy of number 24.
fn fill_with_copies(rt: &impl Print, image: &mut [u8; 32768]) -> io::Result<()> {
    format(image, 3, 1);
    println!(rt; "number 24 saved: {}", save_rounds(image, 3, 24, 510))
}

// A save of it leaves one copy.
pub(crate) fn stale_copies_saved(rt: &impl Print, image: &mut [u8; 32768]) -> io::Result<()> {
    fill_with_copies(rt, image)?;
    print_report(rt, "stale copies", image, 3)?;
    print_answer(rt, "save number 24 again", save_round(image, 3, 24, 511))?;
    print_report(rt, "after the compaction", image, 3)?;
    print_pages(rt, "number 24", image, 24..25, 511)
}

// So does an erase.
pub(crate) fn stale_copies_erased(rt: &impl Print, image: &mut [u8; 32768]) -> io::Result<()> {
    fill_with_copies(rt, image)?;
    print_answer(rt, "erase", flash::erase(image, 3))?;
    print_report(rt, "after the erase", image, 3)?;
    print_pages(rt, "number 24", image, 24..25, 510)
}

// Blocks 1 and 2 hold number 24, and block 3, the lowest free one, begins at byte 192.
pub(crate) fn spoiled_block(rt: &impl Print, image: &mut [u8; 32768]) -> io::Result<()> {
    format(image, 3, 1);
    println!(rt; "number 24 saved: {}", save_rounds(image, 3, 24, 2))?;
    image[209] = 254;
    print_report(rt, "block 3 spoiled", image, 3)?;
    print_answer(rt, "save number 7", save_round(image, 3, 7, 1))?;
    print_report(rt, "after the compaction", image, 3)?;
    println!(rt; "spoiled byte: {}", image[209])?;
    after_spoiled(rt, image)
}

// The compaction kept both numbers and left block 3 free and clean, so an append takes it.
fn after_spoiled(rt: &impl Print, image: &mut [u8; 32768]) -> io::Result<()> {
    print_pages(rt, "number 24", image, 24..25, 2)?;
    print_pages(rt, "number 7", image, 7..8, 1)?;
    print_answer(rt, "save number 8", save_round(image, 3, 8, 1))?;
    print_report(rt, "after the append", image, 3)
}

// What a save of number 24 answers whose page is that of the round and is there already, and the report after it.
fn print_idle_save(rt: &impl Print, image: &mut [u8], round: usize) -> io::Result<()> {
    let saved = save_seen(image, 3, 24, &page_of(24, round), round);
    print_answer(rt, "save the page that is there", saved)?;
    print_report(rt, "after the idle save", image, 3)
}

// With a block to append to, and with that spoiled, where another page must compact.
pub(crate) fn idle_saves(rt: &impl Print, image: &mut [u8; 32768]) -> io::Result<()> {
    format(image, 3, 1);
    println!(rt; "number 24 saved: {}", save_rounds(image, 3, 24, 2))?;
    print_report(rt, "saved twice", image, 3)?;
    print_idle_save(rt, image, 2)?;
    image[209] = 254;
    print_report(rt, "block 3 spoiled", image, 3)?;
    print_idle_save(rt, image, 2)?;
    not_idle(rt, image)
}

// The page of an old copy is written, and so is one byte throughout where nothing is.
fn not_idle(rt: &impl Print, image: &mut [u8; 32768]) -> io::Result<()> {
    let before_it = save_seen(image, 3, 24, &page_of(24, 2), 1);
    print_answer(rt, "save the page before it", before_it)?;
    print_report(rt, "after the compaction", image, 3)?;
    for byte in [0, 255] {
        print!(rt; "save {byte} throughout ")?;
        let saved = save(image, 3, usize::from(byte), &[], &[byte; 60]);
        print_answer(rt, "where nothing is", saved)?;
    }
    print_report(rt, "after the appends", image, 3)
}

// With no block free.
pub(crate) fn idle_in_full(rt: &impl Print, image: &mut [u8; 32768]) -> io::Result<()> {
    format(image, 3, 1);
    println!(rt; "numbers saved: {}", save_numbers(image, 3, 510, 1))?;
    print_report(rt, "all live", image, 3)?;
    print_idle_save(rt, image, 1)
}
