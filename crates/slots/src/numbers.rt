// Which logical numbers a slot is.
ghost use Rattle.std.specs.Prelude.{◌≡◌, ◌≤◌};
ghost use Rattle.flash_model.specs.Slots.{slot_number};

pub(crate) const SLOTS: usize = 100;

// The logical number of a slot's block: 0 and 1 are its header, 2 and 3 its data blocks.
#[tactic(auto, unfolding(flash_model::specs::Slots::slot_number))]
pub(crate) fn slot_number(slot: usize, block: usize) -> usize
    requires { (slot ≤ 99) × (block ≤ 3) }
    ensures { (result ≡ slot_number slot block) × (result ≤ 423) }
{
    24 + 4 * slot + block
}
