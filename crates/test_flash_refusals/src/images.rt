// Images that are refused, and numbers, each beside the nearest thing that is not.
use flash::check;
use std::io;
use test_printing::{print_answer, print_report};
use test_scenarios::pages::{format, save_round};

pub(crate) fn lengths(rt: &impl Print) -> io::Result<()> {
    let mut longest = [0; 16385];
    for length in 16383..=16385 {
        let image = &mut longest[..length];
        format(image, 2, 1);
        print!(rt; "length {length} ")?;
        print_answer(rt, "check", check(image, 2))?;
    }
    Ok(())
}

pub(crate) fn versions(rt: &impl Print, image: &mut [u8; 32768]) -> io::Result<()> {
    for version in 1..=2 {
        format(image, 3, version);
        print!(rt; "version {version} ")?;
        print_answer(rt, "check", check(image, 3))?;
    }
    Ok(())
}

pub(crate) fn headers(rt: &impl Print, image: &mut [u8; 32768]) -> io::Result<()> {
    format(image, 3, 1);
    print_answer(rt, "wrong number check", check(image, 2))?;
    image[15] = b'-';
    print_answer(rt, "wrong magic check", check(image, 3))?;
    print_answer(rt, "wrong number and magic check", check(image, 2))
}

// The bitmap begins at byte 32704. There BF allocates block 2 while block 1 is free.
pub(crate) fn bitmap(rt: &impl Print, image: &mut [u8; 32768]) -> io::Result<()> {
    format(image, 3, 1);
    for byte in [0x7F, 0xBF] {
        image[32704] = byte;
        print!(rt; "bitmap {byte:02X} ")?;
        print_answer(rt, "check", check(image, 3))?;
    }
    Ok(())
}

pub(crate) fn top_number(rt: &impl Print, image: &mut [u8; 32768]) -> io::Result<()> {
    format(image, 3, 1);
    print_answer(rt, "save number 509", save_round(image, 3, 509, 1))?;
    print_answer(rt, "save number 510", save_round(image, 3, 510, 1))?;
    print_report(rt, "report", image, 3)
}
