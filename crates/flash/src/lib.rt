#![tactic(auto, using(crate::proofs::AnswerLaws::error_refuses), unfolding(flash_model::specs::Calls::code_of, flash_model::specs::Calls::accepted, flash_model::specs::Calls::reply_to, flash_model::specs::Calls::after, flash_model::specs::Calls::read_rows, flash_model::specs::Partition::version, flash_pages::specs::Rows::read_buffer))]

// System flash partitions: check, report, next live block, read, save and erase, on an image lent by the caller.
//
// Every call answers what it gives, or a refusal of document 01's table, and then nothing has changed.
// No call asks anything of what it is lent.
ghost use Rattle.std.specs.Prelude.{[], ◌∷◌};
ghost use Rattle.flash_model.specs.Errors.{result_code, number_answer};
ghost use Rattle.flash_model.specs.Calls.{Answered, code_answer, Call.on_page, Call.on_whole, PageCall.read, PageCall.save, WholeCall.check, WholeCall.report, WholeCall.next_live, WholeCall.erase};
ghost use Rattle.flash.specs.Answers.{report_answer};

use flash_listing::{count_live, next_number};
use flash_model::FlashError;
use flash_partition::opening::open;

// What a report counts.
#[derive(Clone, Copy, Debug, PartialEq, Eq)]
pub struct Counts {
    pub version: u8,
    pub capacity: usize,
    pub used: usize,
    pub live: usize,
}

// Whether the image is a sound partition of this number.
pub fn check(image: &[u8], partition: u8) -> Result<(), FlashError>
    ensures { Answered image.now (on_whole (check partition)) image.now (code_answer (result_code result) []) }
{
    open(image, partition)?;
    Ok(())
}

// Version, capacity, how many user blocks are allocated, and how many numbers have contents.
pub fn report(image: &[u8], partition: u8) -> Result<Counts, FlashError>
    ensures { Answered image.now (on_whole (report partition)) image.now (report_answer result) }
{
    let p = open(image, partition)?;
    let live = count_live(p);
    Ok(Counts {
        version: p.image[17],
        capacity: p.log.m.capacity(),
        used: p.log.used,
        live,
    })
}

// The lowest live number not below `from`.
pub fn next_live(image: &[u8], partition: u8, from: usize) -> Result<usize, FlashError>
    ensures { Answered image.now (on_whole (next_live partition from)) image.now (number_answer result []) }
{
    let p = open(image, partition)?;
    next_number(p, from).ok_or(FlashError::NothingThere)
}

// Reads the contents of a number into the page.
pub fn read(image: &[u8], partition: u8, number: usize, page: &mut [u8]) -> Result<(), FlashError>
    ensures { Answered image.now (on_page (read partition number page.old)) image.now (code_answer (result_code result) (page.new ∷ [])) }
{
    let p = open(image, partition)?;
    flash_pages::read_page(p, number, page)
}

// Saves a page as the contents of a number, if what the writer expects is still there.
pub fn save(
    image: &mut [u8],
    partition: u8,
    number: usize,
    expected: &[u8],
    page: &[u8],
) -> Result<(), FlashError>
    ensures { Answered image.old (on_page (save partition number expected.now page.now)) image.new (code_answer (result_code result) (expected.now ∷ page.now ∷ [])) }
{
    let log = open(image, partition)?.log;
    flash_pages::save_page(image, log, number, expected, page)
}

// Compacts the partition: one block is left for each live number.
pub fn erase(image: &mut [u8], partition: u8) -> Result<(), FlashError>
    ensures { Answered image.old (on_whole (erase partition)) image.new (code_answer (result_code result) []) }
{
    let log = open(image, partition)?.log;
    flash_compaction::erase(image, log);
    Ok(())
}
