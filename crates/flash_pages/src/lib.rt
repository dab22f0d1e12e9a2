#![tactic(auto)]

// Reads and saves of one page, on a partition that refusals 1 to 5 don't apply to.
ghost use Rattle.std.specs.Prelude.{◌≡◌, true, cond, eqb, IfOk, option_copied};
ghost use Rattle.flash_model.specs.Errors.{result_code};
ghost use Rattle.flash_model.specs.Measures.{legal_number};
ghost use Rattle.flash_model.specs.UserBlock.{payload};
ghost use Rattle.flash_model.specs.Partition.{row, contents};
ghost use Rattle.flash_model.specs.Update.{append_block, page_written, saved};
ghost use Rattle.flash_model.specs.Calls.{changed_since, wrong_lengths, read_rows, save_rows};
ghost use Rattle.flash_partition.specs.Usable.{Usable};
ghost use Rattle.flash_pages.specs.Rows.{read_buffer, can_append};

use flash_model::FlashError;
use flash_partition::opened::{OpenedLog, Partition};

// The page of a block.
#[tactic(auto, unfolding(flash_model::specs::UserBlock::payload))]
pub fn payload(block: &[u8; 64]) -> &[u8; 60]
    ensures { result.now ≡ payload block.now }
{
    block[2..62].as_array().unwrap()
}

// The page that is the contents of a number, which callers have tested, if there are any.
#[tactic(auto, using(crate::proofs::ReadLaws::holder_high), unfolding(flash_model::specs::Partition::contents))]
pub fn contents<'a>(p: Partition<'a>, number: usize) -> Option<&'a [u8; 60]>
    requires { legal_number p.log.m.size number ≡ true }
    ensures { option_copied result ≡ contents p.entry.image.now number }
{
    let k = p.find(number)?;
    Some(payload(p.block(k)))
}

// Reads the contents of a number into the page: refusals 6, 8 and 7.
#[tactic(auto, unfolding(flash_model::specs::Calls::read_rows, crate::specs::Rows::read_buffer))]
pub fn read_page(p: Partition<'_>, number: usize, page: &mut [u8]) -> Result<(), FlashError>
    ensures code { result_code result ≡ read_rows p.entry.image.now number page.old }
    ensures page_after { page.new ≡ read_buffer p.entry.image.now number page.old }
{
    if !p.log.m.legal_number(number) {
        return Err(FlashError::LogicalNumber);
    }
    if page.len() != 60 {
        return Err(FlashError::BufferLength);
    }
    let Some(there) = contents(p, number) else {
        return Err(FlashError::NothingThere);
    };
    page.copy_from_slice(there);
    Ok(())
}

// The page as 60 bytes: refusal 8 where it has another length, or where what is expected has neither 0 nor 60.
#[tactic(auto, unfolding(flash_model::specs::Calls::wrong_lengths))]
pub fn whole_page<'a>(expected: &[u8], page: &'a [u8]) -> Result<&'a [u8; 60], FlashError>
    ensures code { result_code result ≡ row 8 (wrong_lengths expected.now page.now) 0 }
    ensures page { IfOk result (λ whole. whole.now ≡ page.now) }
{
    let Ok(whole) = <&[u8; 60]>::try_from(page) else {
        return Err(FlashError::BufferLength);
    };
    if !matches!(expected.len(), 0 | 60) {
        return Err(FlashError::BufferLength);
    }
    Ok(whole)
}

// Whether the contents of the number are what is expected, 0 bytes being nothing: refusal 9 where they are not.
#[tactic(auto, unfolding(flash_model::specs::Calls::changed_since))]
fn check_seen(p: Partition<'_>, number: usize, expected: &[u8]) -> Result<(), FlashError>
    requires { legal_number p.log.m.size number ≡ true }
    ensures { result_code result ≡ row 9 (changed_since p.entry.image.now number expected.now) 0 }
{
    let changed = match contents(p, number) {
        Some(there) => &there[..] != expected,
        None => !expected.is_empty(),
    };
    if changed {
        return Err(FlashError::Changed);
    }
    Ok(())
}

// Whether a free user block exists and the lowest free one holds 64 bytes of FF.
#[tactic(auto, using(crate::proofs::StoreRules::append_full, crate::proofs::StoreRules::append_blank_block))]
fn can_append(p: Partition<'_>) -> bool
    ensures { result ≡ can_append (append_block p.entry.image.now) }
{
    p.log.used < p.log.m.capacity() && *p.block(p.log.used + 1) == [255u8; 64]
}

// Writes a page that isn't the contents yet: an append where it can be had, else a compaction.
fn write_page(image: &mut [u8], log: OpenedLog, number: usize, page: &[u8; 60])
    requires usable { Usable image.old log }
    requires number_value { legal_number log.m.size number ≡ true }
    ensures { image.new ≡ page_written image.old number page.now }
{
    if can_append(Partition { image, log }) {
        flash_journal::append(image, log.m, log.used + 1, number, page);
    } else {
        flash_compaction::compact(image, log, number, page);
    }
}

// Saves a page as the contents of a number: refusals 6, 8 and 9. A page that is there already changes nothing.
#[tactic(auto, unfolding(flash_model::specs::Calls::save_rows, flash_model::specs::Calls::changed_since, flash_model::specs::Update::saved))]
pub fn save_page(
    image: &mut [u8],
    log: OpenedLog,
    number: usize,
    expected: &[u8],
    page: &[u8],
) -> Result<(), FlashError>
    requires { Usable image.old log }
    ensures code { result_code result ≡ save_rows image.old number expected.now page.now }
    ensures image_after { image.new ≡ cond (eqb (save_rows image.old number expected.now page.now) 0) (saved image.old number page.now) image.old }
{
    if !log.m.legal_number(number) {
        return Err(FlashError::LogicalNumber);
    }
    let page = whole_page(expected, page)?;
    check_seen(Partition { image, log }, number, expected)?;
    // Where a save isn't refused, what was found is what is expected.
    if expected != &page[..] {
        write_page(image, log, number, page);
    }
    Ok(())
}
