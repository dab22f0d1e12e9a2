#![tactic(auto, using(crate::proofs::AnswerLaws::error_refuses), unfolding(flash_model::specs::Calls::code_of, flash_model::specs::Calls::accepted, flash_model::specs::Calls::reply_to, flash_model::specs::Calls::after, flash_model::specs::Calls::slot_read_rows, crate::specs::SlotAnswers::data_buffer, crate::specs::SlotAnswers::claimed_image))]

// Game slots of partition 3: find, list, claim, and reads and saves of a slot's two data blocks, on an image lent by the caller.
//
// Every call answers what it gives, or a refusal of document 01's table or of document 02's order 4, and then nothing has changed.
// No call asks anything of what it is lent.
mod data;
mod headers;
mod numbers;
mod opening;
mod searches;
mod writing;

ghost use Rattle.std.specs.Prelude.{[], ◌∷◌};
ghost use Rattle.flash_model.specs.Errors.{result_code, number_answer};
ghost use Rattle.flash_model.specs.Calls.{Answered, code_answer, Call.on_page, Call.on_whole, Call.on_pages, PageCall.slot_read, PageCall.slot_save, WholeCall.slot_find, WholeCall.slot_list, CompoundCall.claim};

use crate::opening::open_slots;
use flash_model::FlashError;

// A slot's data block, 0 or 1.
#[derive(Clone, Copy)]
pub struct DataBlock {
    pub slot: usize,
    pub block: usize,
}

// The lowest valid slot with this product number.
pub fn find(image: &[u8], partition: u8, product: &[u8]) -> Result<usize, FlashError>
    ensures { Answered image.now (on_whole (slot_find partition product.now)) image.now (number_answer result (product.now ∷ [])) }
{
    let slots = open_slots(image, partition)?;
    searches::find_product(slots, product)
}

// The lowest valid slot not below `from`.
pub fn list(image: &[u8], partition: u8, from: usize) -> Result<usize, FlashError>
    ensures { Answered image.now (on_whole (slot_list partition from)) image.now (number_answer result []) }
{
    let slots = open_slots(image, partition)?;
    searches::next_valid(slots, from).ok_or(FlashError::NothingThere)
}

// The slot that has this header's product number, or else the lowest one that is not valid, which then has this header.
pub fn claim(
    image: &mut [u8],
    partition: u8,
    first: &[u8],
    second: &[u8],
) -> Result<usize, FlashError>
    ensures { Answered image.old (on_pages (claim partition first.now second.now)) image.new (number_answer result (first.now ∷ second.now ∷ [])) }
{
    let log = open_slots(image, partition)?.partition.log;
    writing::claim_slot(image, log, first, second)
}

// Reads a slot's data block into the page.
pub fn read(image: &[u8], partition: u8, at: DataBlock, page: &mut [u8]) -> Result<(), FlashError>
    ensures { Answered image.now (on_page (slot_read partition at.slot at.block page.old)) image.now (code_answer (result_code result) (page.new ∷ [])) }
{
    let slots = open_slots(image, partition)?;
    data::read_data(slots, at, page)
}

// Saves a page as a slot's data block, if what the writer expects is still there.
pub fn save(
    image: &mut [u8],
    partition: u8,
    at: DataBlock,
    expected: &[u8],
    page: &[u8],
) -> Result<(), FlashError>
    ensures { Answered image.old (on_page (slot_save partition at.slot at.block expected.now page.now)) image.new (code_answer (result_code result) (expected.now ∷ page.now ∷ [])) }
{
    let log = open_slots(image, partition)?.partition.log;
    data::save_data(image, log, at, expected, page)
}
