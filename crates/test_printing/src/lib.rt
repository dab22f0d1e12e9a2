#![tactic(auto)]

// Lines that the programs on flash partitions print, and what they tell of an image.
use flash::Counts;
use flash_model::FlashError;
use std::ops::Range;
use std::{fmt, io};
use test_scenarios::pages::first_different;

// What a report tells: its counts, or its refusal.
#[derive(Clone, Copy)]
pub struct Report(Result<Counts, FlashError>);

impl Report {
    pub fn of(image: &[u8], partition: u8) -> Report {
        Report(flash::report(image, partition))
    }
}

impl fmt::Display for Report {
    fn fmt<W: fmt::Write>(&self, f: &mut fmt::Formatter<W>) -> fmt::Result {
        match self.0 {
            Ok(c) => write!(
                f,
                "version {} user {} used {} live {}",
                c.version, c.capacity, c.used, c.live
            ),
            Err(refused) => write!(f, "{refused}"),
        }
    }
}

// Whether numbers read back as the pages of a round: the first that doesn't.
#[derive(Clone, Copy)]
pub struct ReadBack(Option<usize>);

impl ReadBack {
    pub fn of(image: &[u8], partition: u8, numbers: Range<usize>, round: usize) -> ReadBack {
        ReadBack(first_different(image, partition, numbers, round))
    }
}

impl fmt::Display for ReadBack {
    fn fmt<W: fmt::Write>(&self, f: &mut fmt::Formatter<W>) -> fmt::Result {
        match self.0 {
            None => write!(f, "whole"),
            Some(n) => write!(f, "different {n}"),
        }
    }
}

fn adler_step(sum: u32, byte: u8) -> u32 {
    let low = (sum % 65536 + u32::from(byte)) % 65521;
    let high = (sum / 65536 + low) % 65521;
    high * 65536 + low
}

// Adler-32 over the whole image, so that another program can tell whether it has the same bytes.
pub fn adler(image: &[u8]) -> u32 {
    image.iter().fold(1, |sum, byte| adler_step(sum, *byte))
}

// A line: the label and what a call answered, 0 or the refusal's number.
pub fn print_answer(
    rt: &impl Print,
    label: &str,
    answer: Result<(), FlashError>,
) -> io::Result<()> {
    let number = answer.err().map_or(0, u8::from);
    println!(rt; "{label}: {number}")
}

// A line: the label, and whether two runs of bytes are the same.
pub fn print_unchanged(
    rt: &impl Print,
    label: &str,
    before: &[u8],
    after: &[u8],
) -> io::Result<()> {
    let told = if before == after {
        "unchanged"
    } else {
        "changed"
    };
    println!(rt; "{label}: {told}")
}

// A line: the lowest live number from `from` on.
pub fn print_next_live(
    rt: &impl Print,
    image: &[u8],
    partition: u8,
    from: usize,
) -> io::Result<()> {
    print!(rt; "next live of partition {partition} from {from}: ")?;
    match flash::next_live(image, partition, from) {
        Ok(n) => println!(rt; "number {n}"),
        Err(refused) => println!(rt; "{refused}"),
    }
}

// A line: the label, the report, and the sum of the image.
pub fn print_report(rt: &impl Print, label: &str, image: &[u8], partition: u8) -> io::Result<()> {
    let report = Report::of(image, partition);
    println!(rt; "{label}: {report} image {:08x}", adler(image))
}

// A line: the label, and whether those numbers of partition 3 read back.
pub fn print_pages(
    rt: &impl Print,
    label: &str,
    image: &[u8],
    numbers: Range<usize>,
    round: usize,
) -> io::Result<()> {
    println!(rt; "{label}: {}", ReadBack::of(image, 3, numbers, round))
}
