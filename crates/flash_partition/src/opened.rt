// An opened partition.
ghost use Rattle.flash_partition.specs.Usable.{Usable};

use flash_measures::Measures;

// What the opening of a sound partition found: its measures, and how many user blocks are allocated. A function that writes takes it
// beside the image, with what is known of both as a clause: a struct that holds the image as `&mut` with a ghost field was tried, and
// its maker isn't told what the image holds when it is let go.
#[derive(Clone, Copy)]
pub struct OpenedLog {
    pub m: Measures,
    pub used: usize,
}

// An image that refusals 1 to 5 don't apply to, with what its opening found.
#[derive(Clone, Copy)]
pub struct Partition<'a> {
    pub image: &'a [u8],
    pub log: OpenedLog,
    ghost usable: { Usable image.now log },
}
