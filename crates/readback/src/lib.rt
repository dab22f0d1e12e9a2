#![tactic(auto)]

// Demand 3 on the running calls, for one list of them: a writer saves, others make five calls, and the writer reads its own page back.
// Any other list is the theorem's (`Demand3.runs-as-store`).
ghost use Rattle.std.specs.Prelude.{[], ◌∷◌, ◌≢◌};
ghost use Rattle.flash_model.specs.Errors.{result_code};
ghost use Rattle.flash_model.specs.Calls.{Answered, code_answer, Call.on_page, PageCall.read};
ghost use Rattle.readback.specs.OwnPage.{OwnSave, OwnPageBack, image_before};

use flash::{check, erase, next_live, read, report, save};
use flash_model::FlashError;

// Saves a page; others check, save another number, count, look for the next live number and erase; then the number is read
// back. The answer is the read's.
pub fn save_and_read_back(
    image: &mut [u8],
    partition: u8,
    number: usize,
    expected: &[u8],
    page: &[u8],
    other: usize,
    others: &[u8],
    back: &mut [u8],
) -> Result<(), FlashError>
    ensures answered { Answered (image_before image.old partition number expected.now page.now other others.now) (on_page (read partition number back.old)) image.new (code_answer (result_code result) (back.new ∷ [])) }
    ensures own_page_back { OwnSave image.old partition number expected.now page.now back.old → other ≢ number → OwnPageBack image.old number page.now image.new (result_code result) back.new }
{
    // Whatever is refused, the others go on.
    let _ = save(image, partition, number, expected, page);
    let _ = check(image, partition);
    let _ = save(image, partition, other, page, others);
    let _ = report(image, partition);
    let _ = next_live(image, partition, number);
    let _ = erase(image, partition);
    read(image, partition, number, back)
}
