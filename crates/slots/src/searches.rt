// The searches over all slots: one pass over the blocks finds the place of every number, then each header is looked at once.
ghost use Rattle.std.specs.Prelude.{◌≡◌, ◌<◌, IfOk, Some, option_copied};
ghost use Rattle.flash_model.specs.Errors.{result_code};
ghost use Rattle.flash_model.specs.Partition.{contents};
ghost use Rattle.flash_model.specs.Calls.{find_rows};
ghost use Rattle.flash_model.specs.Slots.{product_slot, free_slot, lowest_valid};
ghost use Rattle.slots.specs.SlotUsable.{SlotPlaces};
ghost use Rattle.slots.specs.SlotAnswers.{searched_of};
ghost use Rattle.slots.specs.SlotHeaders.{slot_product};

use crate::headers::{product_of, right_header};
use crate::numbers::{SLOTS, slot_number};
use crate::opening::SlotPartition;
use flash_listing::places::find_places;
use flash_model::FlashError;
use flash_pages::payload;
use flash_partition::opened::Partition;

// How many logical numbers a partition with slots has.
const SLOT_PARTITION_NUMBERS: usize = 510;

// What a search for a product number finds: a slot that has it, else the lowest one that is not valid, else neither.
#[derive(Clone, Copy)]
pub(crate) enum Searched {
    Has(usize),
    Free(usize),
    Full,
}

// A partition with slots, and for each logical number the block that holds its contents, 0 where there are none. The list is lent by
// the search: it is too long to be handed out by value.
#[derive(Clone, Copy)]
struct Places<'a> {
    partition: Partition<'a>,
    blocks: &'a [u16; SLOT_PARTITION_NUMBERS],
    ghost found: { SlotPlaces partition.image.now partition.log.m.size blocks.now },
}

impl<'a> Places<'a> {
    // All places, in one pass over the blocks.
    #[tactic(auto, using(crate::proofs::HeaderLaws::slot_capacity))]
    fn of(slots: SlotPartition<'a>, blocks: &'a mut [u16; SLOT_PARTITION_NUMBERS]) -> Places<'a>
        ensures { result.partition.image.now ≡ slots.entry.partition.image.now }
    {
        find_places(slots.partition, blocks);
        Places {
            partition: slots.partition,
            blocks,
        }
    }

    // The contents of a number, if there are any.
    fn contents(self, number: usize) -> Option<&'a [u8; 60]>
        requires { number < 510 }
        ensures { option_copied result ≡ contents self.entry.partition.image.now number }
    {
        match self.blocks[number] {
            0 => None,
            k => Some(payload(self.partition.block(usize::from(k)))),
        }
    }

    // The product number of a slot, where it is valid.
    #[tactic(auto, unfolding(flash_model::specs::Slots::slot_header))]
    fn product(self, slot: usize) -> Option<&'a [u8; 10]>
        requires { slot < 100 }
        ensures { option_copied result ≡ slot_product self.entry.partition.image.now slot }
    {
        let first = self.contents(slot_number(slot, 0))?;
        let second = self.contents(slot_number(slot, 1))?;
        right_header(first, second).then_some(product_of(first))
    }
}

// The lowest slot with the product number, and the lowest that is not valid where no slot has it.
pub(crate) fn search(slots: SlotPartition<'_>, product: &[u8; 10]) -> Searched
    ensures { result ≡ searched_of (product_slot slots.entry.partition.image.now product.now) (free_slot slots.entry.partition.image.now) }
{
    let mut blocks = [0u16; SLOT_PARTITION_NUMBERS];
    let places = Places::of(slots, &mut blocks);
    let mut free = None;
    for slot in 0..SLOTS {
        match places.product(slot) {
            Some(found) if found == product => return Searched::Has(slot),
            Some(_) => {}
            None => free = free.or(Some(slot)),
        }
    }
    match free {
        Some(slot) => Searched::Free(slot),
        None => Searched::Full,
    }
}

// The lowest valid slot with the product number: refusals 8, and 7 where there is none.
#[tactic(auto, unfolding(flash_model::specs::Calls::find_rows))]
pub(crate) fn find_product(slots: SlotPartition<'_>, product: &[u8]) -> Result<usize, FlashError>
    ensures code { result_code result ≡ find_rows slots.entry.partition.image.now product.now }
    ensures slot { IfOk result (λ slot. product_slot slots.entry.partition.image.now product.now ≡ Some slot) }
{
    let Ok(product) = <&[u8; 10]>::try_from(product) else {
        return Err(FlashError::BufferLength);
    };
    match search(slots, product) {
        Searched::Has(slot) => Ok(slot),
        _ => Err(FlashError::NothingThere),
    }
}

// The lowest valid slot not below `from`.
pub(crate) fn next_valid(slots: SlotPartition<'_>, from: usize) -> Option<usize>
    ensures { result ≡ lowest_valid slots.entry.partition.image.now from }
{
    let mut blocks = [0u16; SLOT_PARTITION_NUMBERS];
    let places = Places::of(slots, &mut blocks);
    (from..SLOTS).find(|slot| places.product(*slot).is_some())
}
