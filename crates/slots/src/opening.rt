// What every slot call begins with: refusals 1 to 5, where the length is 32,768 bytes and the number named 3.
ghost use Rattle.std.specs.Prelude.{◌≡◌, IfOk, OnOk};
ghost use Rattle.flash_model.specs.Errors.{result_code};
ghost use Rattle.flash_model.specs.Slots.{slot_refusal};
ghost use Rattle.slots.specs.SlotUsable.{SlotUsable};

use flash_model::FlashError;
use flash_partition::opened::Partition;
use flash_partition::opening::open;

const SLOT_BYTES: usize = 32768;

// The number of the partition that has slots.
pub(crate) const SLOT_PARTITION: u8 = 3;

// A partition that refusals 1 to 5 of a slot call don't apply to.
#[derive(Clone, Copy)]
pub(crate) struct SlotPartition<'a> {
    pub partition: Partition<'a>,
    ghost has_slots: { SlotUsable partition.image.now partition.log },
}

// Where another number is named, 2 still comes before 3.
#[tactic(auto, unfolding(flash_model::specs::Slots::slot_refusal, flash_model::specs::Slots::slot_size, flash_model::specs::Slots::slot_partition))]
pub(crate) fn open_slots(image: &[u8], partition: u8) -> Result<SlotPartition<'_>, FlashError>
    ensures code { result_code result ≡ slot_refusal image.now partition }
    ensures image { IfOk result (λ s. s.partition.image.now ≡ image.now) }
    ensures named { OnOk result (partition ≡ 3) }
{
    if image.len() != SLOT_BYTES {
        return Err(FlashError::ImageLength);
    }
    match open(image, partition) {
        Ok(opened) if partition == SLOT_PARTITION => Ok(SlotPartition { partition: opened }),
        Err(error) if partition == SLOT_PARTITION => Err(error),
        Err(FlashError::Magic) => Err(FlashError::Magic),
        _ => Err(FlashError::PartitionNumber),
    }
}
