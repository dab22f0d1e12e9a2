// Listings, saves and erases that are refused, each beside the nearest that is not.
use flash::save;
use std::io;
use test_printing::{print_answer, print_next_live, print_report, print_unchanged};
use test_scenarios::pages::{format, page_of, save_round, save_rounds};

pub(crate) fn next_numbers(rt: &impl Print, image: &mut [u8; 32768]) -> io::Result<()> {
    format(image, 3, 1);
    print_next_live(rt, image, 3, 0)?;
    save_rounds(image, 3, 24, 1);
    save_rounds(image, 3, 7, 1);
    for from in [0, 7, 8, 25, 510] {
        print_next_live(rt, image, 3, from)?;
    }
    Ok(())
}

pub(crate) fn other_partition(rt: &impl Print, image: &mut [u8; 32768]) -> io::Result<()> {
    format(image, 3, 1);
    save_rounds(image, 3, 24, 1);
    print_next_live(rt, image, 2, 0)?;
    print_report(rt, "report of partition 2", image, 2)?;
    print_answer(rt, "save of partition 2", save_round(image, 2, 24, 2))?;
    print_answer(rt, "erase of partition 2", flash::erase(image, 2))?;
    print_report(rt, "report", image, 3)
}

pub(crate) fn save_buffers(rt: &impl Print, image: &mut [u8; 32768]) -> io::Result<()> {
    format(image, 3, 1);
    let page = page_of(24, 1);
    let short = [0; 59];
    print_answer(rt, "save 59 bytes", save(image, 3, 24, &page, &short))?;
    let expecting = save(image, 3, 24, &short, &page);
    print_answer(rt, "save expecting 59 bytes", expecting)?;
    let numbered = save(image, 3, 510, &page, &short);
    print_answer(rt, "save 59 bytes, number 510", numbered)?;
    print_report(rt, "report", image, 3)
}

// Number 24 is in round 2. What the saves expect is the page of round 1, nothing, and a page for a number without any.
pub(crate) fn expected_pages(rt: &impl Print, image: &mut [u8; 32768]) -> io::Result<()> {
    format(image, 3, 1);
    save_rounds(image, 3, 24, 2);
    let before = *image;
    let stale = save_round(image, 3, 24, 2);
    print_answer(rt, "save expecting a stale page", stale)?;
    print_answer(rt, "save expecting nothing", save_round(image, 3, 24, 1))?;
    let elsewhere = save_round(image, 3, 25, 2);
    print_answer(rt, "save expecting a page where nothing is", elsewhere)?;
    print_unchanged(rt, "image", &before, image)?;
    print_answer(rt, "save expecting the page", save_round(image, 3, 24, 3))?;
    print_unchanged(rt, "image", &before, image)
}
