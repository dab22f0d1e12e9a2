// Reads and saves of a slot's data blocks, on a partition that refusals 1 to 5 don't apply to.
ghost use Rattle.std.specs.Prelude.{◌≡◌, true, cond, ◌≤◌, eqb, IfOk};
ghost use Rattle.flash_model.specs.Errors.{result_code};
ghost use Rattle.flash_model.specs.Measures.{legal_number};
ghost use Rattle.flash_model.specs.Slots.{data_number, valid_slot};
ghost use Rattle.flash_model.specs.Calls.{slot_rows, slot_read_rows, slot_save_rows};
ghost use Rattle.flash_model.specs.Update.{saved};
ghost use Rattle.slots.specs.SlotUsable.{SlotUsable};
ghost use Rattle.slots.specs.SlotAnswers.{data_buffer};

use crate::DataBlock;
use crate::headers::right_header;
use crate::numbers::{SLOTS, slot_number};
use crate::opening::SlotPartition;
use flash_model::FlashError;
use flash_pages::{contents, read_page, save_page, whole_page};
use flash_partition::opened::{OpenedLog, Partition};

// Whether the slot is valid. Its two lines are like those of `Places::product`: one function for both, with a closure for where the
// contents come from, would have a contract longer than they are.
#[tactic(auto, using(crate::proofs::HeaderLaws::slot_legal), unfolding(flash_model::specs::Slots::valid_slot, flash_model::specs::Slots::slot_header))]
fn valid_slot(slots: SlotPartition<'_>, slot: usize) -> bool
    requires { slot ≤ 99 }
    ensures { result ≡ valid_slot slots.entry.partition.image.now slot }
{
    let Some(first) = contents(slots.partition, slot_number(slot, 0)) else {
        return false;
    };
    let Some(second) = contents(slots.partition, slot_number(slot, 1)) else {
        return false;
    };
    right_header(first, second)
}

// The logical number of a data block: refusals 42 where the slot is above 99 or not valid, and 43 where the block is neither 0 nor 1.
#[tactic(auto, using(crate::proofs::HeaderLaws::slot_legal), unfolding(flash_model::specs::Slots::no_slot, flash_model::specs::Slots::no_block, flash_model::specs::Slots::data_number))]
#[inline(always)]
fn data_number(slots: SlotPartition<'_>, at: DataBlock) -> Result<usize, FlashError>
    ensures code { result_code result ≡ slot_rows slots.entry.partition.image.now at.slot at.block 0 }
    ensures number { IfOk result (λ n. (n ≡ data_number at.slot at.block) × (legal_number slots.entry.partition.log.m.size n ≡ true)) }
{
    if SLOTS <= at.slot || !valid_slot(slots, at.slot) {
        return Err(FlashError::NoSlot);
    }
    if 1 < at.block {
        return Err(FlashError::NoDataBlock);
    }
    Ok(slot_number(at.slot, 2 + at.block))
}

// Reads a data block into the page: refusals 8, 42, 43 and 7.
#[tactic(auto, unfolding(flash_model::specs::Calls::slot_read_rows, flash_model::specs::Calls::read_rows, crate::specs::SlotAnswers::data_buffer, flash_pages::specs::Rows::read_buffer))]
pub(crate) fn read_data(
    slots: SlotPartition<'_>,
    at: DataBlock,
    page: &mut [u8],
) -> Result<(), FlashError>
    ensures code { result_code result ≡ slot_read_rows slots.entry.partition.image.now at.slot at.block page.old }
    ensures page_after { page.new ≡ data_buffer slots.entry.partition.image.now at.slot at.block page.old }
{
    if page.len() != 60 {
        return Err(FlashError::BufferLength);
    }
    let number = data_number(slots, at)?;
    read_page(slots.partition, number, page)
}

// Saves a page as a data block: refusals 8, 42, 43 and 9. `SlotUsable` is asked here, since a struct that holds the image as `&mut` isn't
// told what it leaves (docs/PROOF_NOTES.md, Today's forms).
#[tactic(auto, unfolding(flash_model::specs::Calls::slot_save_rows, flash_model::specs::Calls::save_rows))]
pub(crate) fn save_data(
    image: &mut [u8],
    log: OpenedLog,
    at: DataBlock,
    expected: &[u8],
    page: &[u8],
) -> Result<(), FlashError>
    requires { SlotUsable image.old log }
    ensures code { result_code result ≡ slot_save_rows image.old at.slot at.block expected.now page.now }
    ensures image_after { image.new ≡ cond (eqb (slot_save_rows image.old at.slot at.block expected.now page.now) 0) (saved image.old (data_number at.slot at.block) page.now) image.old }
{
    whole_page(expected, page)?;
    let partition = Partition { image, log };
    let number = data_number(SlotPartition { partition }, at)?;
    save_page(image, log, number, expected, page)
}
