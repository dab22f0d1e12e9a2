// Reads that are refused, each beside the nearest that is not.
use flash::read;
use std::io;
use test_printing::{print_answer, print_unchanged};
use test_scenarios::pages::{format, save_rounds};

// Two lines: what a read answers, and whether it changed the page.
fn read_page(
    rt: &impl Print,
    label: &str,
    image: &[u8],
    partition: u8,
    number: usize,
) -> io::Result<()> {
    let before = [0; 60];
    let mut page = before;
    print_answer(rt, label, read(image, partition, number, &mut page))?;
    print_unchanged(rt, "page", &before, &page)
}

// Number 24 is live.
pub(crate) fn page_reads(rt: &impl Print, image: &mut [u8; 32768]) -> io::Result<()> {
    format(image, 3, 1);
    save_rounds(image, 3, 24, 1);
    read_page(rt, "read number 25", image, 3, 25)?;
    read_page(rt, "read number 510", image, 3, 510)?;
    read_page(rt, "read of partition 2", image, 2, 24)?;
    read_page(rt, "read number 24", image, 3, 24)
}

pub(crate) fn short_reads(rt: &impl Print, image: &mut [u8; 32768]) -> io::Result<()> {
    format(image, 3, 1);
    save_rounds(image, 3, 24, 1);
    for number in [24, 25, 510] {
        print!(rt; "read number {number} ")?;
        print_answer(rt, "into 59 bytes", read(image, 3, number, &mut [0; 59]))?;
    }
    Ok(())
}
