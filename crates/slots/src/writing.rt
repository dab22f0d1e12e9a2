// A claim, on a partition that refusals 1 to 5 don't apply to.
ghost use Rattle.std.specs.Prelude.{◌≡◌, ◌++◌, ◌≤◌, length, IfOk, Some};
ghost use Rattle.flash_model.specs.Errors.{result_code};
ghost use Rattle.flash_model.specs.Partition.{refusal, contents};
ghost use Rattle.flash_model.specs.Slots.{claimed_slot, page_bytes};
ghost use Rattle.flash_model.specs.Calls.{claim_rows, after_page, PageCall.save};
ghost use Rattle.slots.specs.SlotUsable.{SlotUsable};
ghost use Rattle.slots.specs.SlotAnswers.{claimed_image};

use crate::headers::{product_of, right_header};
use crate::numbers::slot_number;
use crate::opening::{SLOT_PARTITION, SlotPartition};
use crate::searches::{Searched, search};
use flash_model::FlashError;
use flash_pages::{contents, save_page};
use flash_partition::opened::{OpenedLog, Partition};
use flash_partition::opening::open;

// Saves a page as the contents of a number, with what stands there as expected. The image is opened anew, since the save before
// may have changed which blocks are used.
#[tactic(auto, using(crate::proofs::HeaderLaws::slot_legal), unfolding(flash_model::specs::Calls::after_page))]
fn save_over(image: &mut [u8], number: usize, page: &[u8; 60])
    requires image_value { refusal image.old 3 ≡ 0 }
    requires size_value { length image.old ≡ 32768 }
    requires number_bound { number ≤ 423 }
    ensures { image.new ≡ after_page image.old (save 3 number (page_bytes (contents image.old number)) page.now) }
{
    let Ok(p) = open(image, SLOT_PARTITION) else {
        return;
    };
    let log = p.log;
    let there = contents(p, number).copied();
    let expected: &[u8] = match &there {
        Some(seen) => seen,
        None => &[],
    };
    let _ = save_page(image, log, number, expected, page);
}

// The slot with this header's product number, or else the lowest that is not valid, where the two blocks are saved in order: refusals
// 8, 41 and 40 where there is none. `SlotUsable` is asked for the reason given at `save_data`.
#[tactic(auto, unfolding(flash_model::specs::Calls::claim_rows, flash_model::specs::Slots::claimed_slot, flash_model::specs::Calls::calls_made, flash_model::specs::Slots::written_slot, crate::specs::SlotAnswers::claimed_image))]
pub(crate) fn claim_slot(
    image: &mut [u8],
    log: OpenedLog,
    first: &[u8],
    second: &[u8],
) -> Result<usize, FlashError>
    requires { SlotUsable image.old log }
    ensures code { result_code result ≡ claim_rows image.old first.now second.now }
    ensures slot { IfOk result (λ slot. claimed_slot image.old (first.now ++ second.now) ≡ Some slot) }
    ensures image_after { image.new ≡ claimed_image image.old first.now second.now }
{
    let (Ok(first), Ok(second)) = (<&[u8; 60]>::try_from(first), <&[u8; 60]>::try_from(second))
    else {
        return Err(FlashError::BufferLength);
    };
    if !right_header(first, second) {
        return Err(FlashError::SlotHeader);
    }
    let partition = Partition { image, log };
    match search(SlotPartition { partition }, product_of(first)) {
        Searched::Has(slot) => Ok(slot),
        Searched::Full => Err(FlashError::NoFreeSlot),
        Searched::Free(slot) => {
            save_over(image, slot_number(slot, 0), first);
            save_over(image, slot_number(slot, 1), second);
            Ok(slot)
        }
    }
}
