// The place of every number's contents, in an area lent for them.
ghost use Rattle.std.specs.Prelude.{◌≡◌, ◌≤◌, ◌<◌, length};
ghost use Rattle.flash_model.specs.Measures.{capacity};
ghost use Rattle.flash_listing.specs.NumberPlaces.{entered, PlacesOf};

use flash_partition::blocks::right_checksum;
use flash_partition::opened::Partition;
use words::word;

// Enters block k, which the part is, as the place of its number, if that is below `end` and has none, and the checksum is right. No
// checksum is worked for an older copy.
#[tactic(auto, unfolding(crate::specs::NumberPlaces::entered, crate::specs::BlockTests::is_new, flash_model::specs::UserBlock::number))]
fn enter(part: &[u8; 64], k: usize, end: usize, places: &mut [u16])
    requires { (end ≤ length places.old) × (k < 65536) }
    ensures { places.new ≡ entered end part.now k places.old }
{
    let number = word(part, 0);
    if number < end && places[number] == 0 && right_checksum(part) {
        places[number] = k as u16;
    }
}

// For every logical number the physical block that holds its contents, 0 where there are none (block 0 is the header), in one pass over
// the used blocks: two bytes a number, as the area that request 14 will have lent. Blocks go in falling order, so the first of a number that has a right checksum is the one. Further places stay.
pub fn find_places(p: Partition<'_>, places: &mut [u16])
    requires { capacity p.log.m.size ≤ length places.old }
    ensures { PlacesOf p.entry.image.now (capacity p.entry.log.m.size) places.old places.new }
{
    let end = p.log.m.capacity();
    places[..end].fill(0);
    for k in (1..p.log.used + 1).rev() {
        enter(p.block(k), k, end, places);
    }
}
