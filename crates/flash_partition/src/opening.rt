// What every call on a partition begins with: refusals 1 to 5.
ghost use Rattle.std.specs.Prelude.{◌≡◌, IfOk};
ghost use Rattle.flash_model.specs.Errors.{result_code};
ghost use Rattle.flash_model.specs.Partition.{refusal};
ghost use Rattle.flash_partition.specs.OpenAnswers.{header_refusal};

use crate::opened::{OpenedLog, Partition};
use flash_measures::{Image, Measures};
use flash_model::FlashError;

// The image with its measures, where refusals 1 to 4 don't apply.
fn open_header(image: &[u8], partition: u8) -> Result<Image<'_>, FlashError>
    ensures code { result_code result ≡ header_refusal image.now partition }
    ensures image { IfOk result (λ measured. measured.bytes.now ≡ image.now) }
{
    let m = Measures::try_from(image.len())?;
    if !image.starts_with(b"KATANA_FLASH____") {
        return Err(FlashError::Magic);
    }
    if image[16] != partition {
        return Err(FlashError::PartitionNumber);
    }
    if 1 < image[17] {
        return Err(FlashError::Version);
    }
    Ok(Image { bytes: image, m })
}

// The lowest free block, and no allocated one behind it: on a sound partition the allocated blocks are those from 1 to the
// count. That is tested here and nowhere else.
pub fn open(image: &[u8], partition: u8) -> Result<Partition<'_>, FlashError>
    ensures code { result_code result ≡ refusal image.now partition }
    ensures image { IfOk result (λ p. p.image.now ≡ image.now) }
{
    let measured = open_header(image, partition)?;
    let m = measured.m;
    let Some(free) = flash_bitmap::lowest_free(measured) else {
        let log = OpenedLog {
            m,
            used: m.capacity(),
        };
        return Ok(Partition { image, log });
    };
    let None = flash_bitmap::lowest_allocated(measured, free) else {
        return Err(FlashError::Sequence);
    };
    let log = OpenedLog { m, used: free - 1 };
    Ok(Partition { image, log })
}
