#![tactic(auto)]

// The public calls for programs in C and Rust. include/galtuyeg.h declares them, with the structs under C's names.
//
// Nothing is asked of what a caller lends but that each pointer is good for its length and that a buffer which a call writes
// overlaps no other, which is C's side of a slice. Where a call is refused, every value but the code and the place is 0.
// C's u64 becomes usize by `as`: `From` has nothing between the two.
pub mod answers;

ghost use Rattle.std.specs.Prelude.{◌≡◌, [], ◌∷◌};
ghost use Rattle.flash_model.specs.Calls.{Answered, code_answer, reply_to, after, Call.on_page, Call.on_whole, Call.on_pages, PageCall.read, PageCall.save, PageCall.slot_read, PageCall.slot_save, WholeCall.check, WholeCall.report, WholeCall.next_live, WholeCall.erase, WholeCall.slot_find, WholeCall.slot_list, CompoundCall.claim};
ghost use Rattle.card_model.specs.Calls.{check_of, list_of, read_verdict, read_buffer};
ghost use Rattle.card_updates.specs.Delete.{delete_verdict, deleted};
ghost use Rattle.card_updates.specs.Write.{given_file, write_verdict, written};
ghost use Rattle.capi.specs.Interface.{version_number};
ghost use Rattle.capi.specs.Structs.{report_of, next_live_of, slot_of, card_check_of, card_entry_of, card_verdict_of};

use answers::{
    CardCheckAnswer, CardEntryAnswer, CardVerdictAnswer, NextLiveAnswer, ReportAnswer, SlotAnswer,
    card_check_of, card_entry_of, card_verdict_of, code_of, next_live_of, report_of, slot_of,
};
use card::DataNumbers;
use slots::DataBlock;

const INTERFACE_VERSION: u32 = 5;

#[unsafe(no_mangle)]
pub extern "C" fn galtuyeg_version() -> u32
    ensures { result ≡ version_number }
{
    INTERFACE_VERSION
}

#[unsafe(no_mangle)]
pub extern "C" fn galtuyeg_flash_check(image: &[u8], partition: u8) -> u32
    ensures { Answered image.now (on_whole (check partition)) image.now (code_answer result []) }
{
    code_of(flash::check(image, partition))
}

#[unsafe(no_mangle)]
pub extern "C" fn galtuyeg_flash_report(image: &[u8], partition: u8) -> ReportAnswer
    ensures { result ≡ report_of (reply_to image.now (on_whole (report partition))) }
{
    report_of(flash::report(image, partition))
}

#[unsafe(no_mangle)]
pub extern "C" fn galtuyeg_flash_next_live(image: &[u8], partition: u8, from: u64) -> NextLiveAnswer
    ensures { result ≡ next_live_of (reply_to image.now (on_whole (next_live partition from))) }
{
    next_live_of(flash::next_live(image, partition, from as usize))
}

#[unsafe(no_mangle)]
pub extern "C" fn galtuyeg_flash_read(
    image: &[u8],
    partition: u8,
    number: u64,
    page: &mut [u8],
) -> u32
    ensures { Answered image.now (on_page (read partition number page.old)) image.now (code_answer result (page.new ∷ [])) }
{
    code_of(flash::read(image, partition, number as usize, page))
}

#[unsafe(no_mangle)]
pub extern "C" fn galtuyeg_flash_save(
    image: &mut [u8],
    partition: u8,
    number: u64,
    expected: &[u8],
    page: &[u8],
) -> u32
    ensures { Answered image.old (on_page (save partition number expected.now page.now)) image.new (code_answer result (expected.now ∷ page.now ∷ [])) }
{
    let saved = flash::save(image, partition, number as usize, expected, page);
    code_of(saved)
}

#[unsafe(no_mangle)]
pub extern "C" fn galtuyeg_flash_erase(image: &mut [u8], partition: u8) -> u32
    ensures { Answered image.old (on_whole (erase partition)) image.new (code_answer result []) }
{
    code_of(flash::erase(image, partition))
}

#[unsafe(no_mangle)]
pub extern "C" fn galtuyeg_slot_find(image: &[u8], partition: u8, product: &[u8]) -> SlotAnswer
    ensures { result ≡ slot_of (reply_to image.now (on_whole (slot_find partition product.now))) }
{
    slot_of(slots::find(image, partition, product))
}

#[unsafe(no_mangle)]
pub extern "C" fn galtuyeg_slot_list(image: &[u8], partition: u8, from: u64) -> SlotAnswer
    ensures { result ≡ slot_of (reply_to image.now (on_whole (slot_list partition from))) }
{
    slot_of(slots::list(image, partition, from as usize))
}

#[unsafe(no_mangle)]
pub extern "C" fn galtuyeg_slot_claim(
    image: &mut [u8],
    partition: u8,
    first: &[u8],
    second: &[u8],
) -> SlotAnswer
    ensures value { result ≡ slot_of (reply_to image.old (on_pages (claim partition first.now second.now))) }
    ensures image_after { image.new ≡ after image.old (on_pages (claim partition first.now second.now)) }
{
    slot_of(slots::claim(image, partition, first, second))
}

#[unsafe(no_mangle)]
pub extern "C" fn galtuyeg_slot_read(
    image: &[u8],
    partition: u8,
    slot: u64,
    block: u64,
    page: &mut [u8],
) -> u32
    ensures { Answered image.now (on_page (slot_read partition slot block page.old)) image.now (code_answer result (page.new ∷ [])) }
{
    let at = DataBlock {
        slot: slot as usize,
        block: block as usize,
    };
    code_of(slots::read(image, partition, at, page))
}

#[unsafe(no_mangle)]
pub extern "C" fn galtuyeg_slot_save(
    image: &mut [u8],
    partition: u8,
    slot: u64,
    block: u64,
    expected: &[u8],
    page: &[u8],
) -> u32
    ensures { Answered image.old (on_page (slot_save partition slot block expected.now page.now)) image.new (code_answer result (expected.now ∷ page.now ∷ [])) }
{
    let at = DataBlock {
        slot: slot as usize,
        block: block as usize,
    };
    code_of(slots::save(image, partition, at, expected, page))
}

#[unsafe(no_mangle)]
pub extern "C" fn galtuyeg_card_check(card: &[u8]) -> CardCheckAnswer
    ensures { result ≡ card_check_of (check_of card.now) }
{
    card_check_of(card::check(card))
}

#[unsafe(no_mangle)]
pub extern "C" fn galtuyeg_card_list(card: &[u8], from: u64) -> CardEntryAnswer
    ensures { result ≡ card_entry_of (list_of card.now from) }
{
    card_entry_of(card::list(card, from as usize))
}

#[unsafe(no_mangle)]
pub extern "C" fn galtuyeg_card_read(
    card: &[u8],
    name: &[u8],
    index: u64,
    block: &mut [u8],
) -> CardVerdictAnswer
    ensures value { result ≡ card_verdict_of (read_verdict card.now name.now index block.old) }
    ensures block_after { block.new ≡ read_buffer card.now name.now index block.old }
{
    card_verdict_of(card::read(card, name, index as usize, block))
}

#[unsafe(no_mangle)]
pub extern "C" fn galtuyeg_card_write(
    card: &mut [u8],
    name: &[u8],
    flag: u8,
    time: &[u8],
    offset: u64,
    content: &[u8],
) -> CardVerdictAnswer
    ensures value { result ≡ card_verdict_of (write_verdict card.old (given_file flag name.now time.now content.now) offset) }
    ensures card_after { card.new ≡ written card.old (given_file flag name.now time.now content.now) offset }
{
    let numbers = DataNumbers {
        flag,
        offset: offset as usize,
    };
    card_verdict_of(card::write(card, name, time, numbers, content))
}

#[unsafe(no_mangle)]
pub extern "C" fn galtuyeg_card_delete(card: &mut [u8], name: &[u8]) -> CardVerdictAnswer
    ensures value { result ≡ card_verdict_of (delete_verdict card.old name.now) }
    ensures card_after { card.new ≡ deleted card.old name.now }
{
    card_verdict_of(card::delete(card, name))
}
