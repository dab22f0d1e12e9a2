// One partition from empty to full, saved over and erased. Each stage is a line.
use std::io;
use test_printing::{ReadBack, Report, adler, print_answer};
use test_scenarios::pages::{format, save_numbers};

// The numbers below this are saved again. On a full partition more of them would take long.
const AGAIN: usize = 100;

// The pages that a stage leaves: the numbers below AGAIN have those of the round, the rest to below `end` those of round 1.
#[derive(Clone, Copy)]
struct Pages {
    end: usize,
    round: usize,
}

// How many live numbers a walk by next_live meets. It also stops at a number that is no longer below `end`.
fn count_by_walk(image: &[u8], partition: u8, end: usize) -> usize {
    let mut from = 0;
    for live in 0..end {
        match flash::next_live(image, partition, from) {
            Ok(n) if n < end => from = n + 1,
            _ => return live,
        }
    }
    end
}

// A line: length, stage, the report's counts, the walk's count, and whether the numbers read back.
fn print_stage(
    rt: &impl Print,
    stage: &str,
    image: &[u8],
    partition: u8,
    pages: Pages,
) -> io::Result<()> {
    println!(rt;
        "length {} {stage}: {} walked {} first {AGAIN} {} rest {} image {:08x}",
        image.len(),
        Report::of(image, partition),
        count_by_walk(image, partition, 2000),
        ReadBack::of(image, partition, 0..AGAIN, pages.round),
        ReadBack::of(image, partition, AGAIN..pages.end, 1),
        adler(image)
    )
}

// Some numbers saved twice, by appends: the erase drops their stale copies.
fn run_sparse(rt: &impl Print, image: &mut [u8], partition: u8) -> io::Result<()> {
    format(image, partition, 1);
    save_numbers(image, partition, AGAIN, 1);
    save_numbers(image, partition, AGAIN, 2);
    let twice = Pages {
        end: AGAIN,
        round: 2,
    };
    print_stage(rt, "saved twice", image, partition, twice)?;
    print_answer(rt, "erase", flash::erase(image, partition))?;
    print_stage(rt, "saved twice, erased", image, partition, twice)
}

// Every number saved, then some saved over: each of those saves is a compaction.
fn run_full(rt: &impl Print, image: &mut [u8], partition: u8, capacity: usize) -> io::Result<()> {
    format(image, partition, 1);
    save_numbers(image, partition, capacity, 1);
    let once = Pages {
        end: capacity,
        round: 1,
    };
    print_stage(rt, "filled", image, partition, once)?;
    save_numbers(image, partition, AGAIN, 2);
    let over = Pages { round: 2, ..once };
    print_stage(rt, "saved over", image, partition, over)?;
    print_answer(rt, "erase", flash::erase(image, partition))?;
    print_stage(rt, "saved over, erased", image, partition, over)
}

fn run(rt: &impl Print, image: &mut [u8], partition: u8, capacity: usize) -> io::Result<()> {
    run_sparse(rt, image, partition)?;
    run_full(rt, image, partition, capacity)
}

pub(crate) fn lengths(rt: &impl Print) -> io::Result<()> {
    run(rt, &mut [0; 16384], 2, 254)?;
    run(rt, &mut [0; 32768], 3, 510)?;
    run(rt, &mut [0; 65536], 4, 1021)
}
