// The structs that C receives by value, and how they are made of the calls' answers. A C struct holds no enum. A usize becomes C's u64
// by `as`: `From` has nothing between the two.
ghost use Rattle.std.specs.Prelude.{ℕ, ◌≡◌, List, []};
ghost use Rattle.std.specs.declared.result.Result.TheVariants.{Ok};
ghost use Rattle.verdicts.specs.Rows.{place_number, error_verdict, result_verdict};
ghost use Rattle.flash.specs.Answers.{report_answer};
ghost use Rattle.flash_model.specs.Errors.{error_number, result_code, number_answer};
ghost use Rattle.card_model.specs.Results.{check_answer, list_answer};
ghost use Rattle.capi.specs.Structs.{report_of, next_live_of, slot_of, card_check_of, card_entry_of, card_verdict_of, kind_of, protected_number};

use card_model::{CopyProtection, ListedEntry};
use flash::Counts;
use flash_model::FlashError;
use verdicts::{CardError, Place};

#[repr(C)]
#[derive(Clone, Copy)]
pub struct ReportAnswer {
    pub code: u64,
    pub version: u64,
    pub capacity: u64,
    pub used: u64,
    pub live: u64,
}

#[repr(C)]
#[derive(Clone, Copy)]
pub struct NextLiveAnswer {
    pub code: u64,
    pub number: u64,
}

#[repr(C)]
#[derive(Clone, Copy)]
pub struct SlotAnswer {
    pub code: u64,
    pub slot: u64,
}

#[repr(C)]
#[derive(Clone, Copy)]
pub struct CardCheckAnswer {
    pub code: u64,
    pub place_kind: u64,
    pub place: u64,
    pub orphans: u64,
}

// `kind` is C's `type`.
#[repr(C)]
#[derive(Clone, Copy)]
pub struct CardEntryAnswer {
    pub code: u64,
    pub place_kind: u64,
    pub place: u64,
    pub entry: u64,
    pub kind: u64,
    pub flag: u64,
    pub copy_protected: u64,
    pub first: u64,
    pub size: u64,
    pub offset: u64,
    pub name: [u8; 12],
    pub time: [u8; 8],
}

#[repr(C)]
#[derive(Clone, Copy)]
pub struct CardVerdictAnswer {
    pub code: u64,
    pub place_kind: u64,
    pub place: u64,
}

// A refusal of a partition as C's number.
fn flash_code(error: FlashError) -> u64
    ensures { result ≡ error_number error }
{
    u64::from(u8::from(error))
}

// The code of a call that hands back nothing else.
pub fn code_of(answer: Result<(), FlashError>) -> u32
    ensures { result ≡ result_code answer }
{
    match answer {
        Ok(()) => 0,
        Err(error) => u32::from(u8::from(error)),
    }
}

#[tactic(auto, unfolding(crate::specs::Structs::report_of))]
pub fn report_of(answer: Result<Counts, FlashError>) -> ReportAnswer
    ensures { result ≡ report_of (report_answer answer) }
{
    match answer {
        Ok(counts) => ReportAnswer {
            code: 0,
            version: u64::from(counts.version),
            capacity: counts.capacity as u64,
            used: counts.used as u64,
            live: counts.live as u64,
        },
        Err(error) => ReportAnswer {
            code: flash_code(error),
            version: 0,
            capacity: 0,
            used: 0,
            live: 0,
        },
    }
}

// This and `slot_of` are two functions since C has a struct for each.
#[tactic(auto, unfolding(crate::specs::Structs::next_live_of))]
pub fn next_live_of(answer: Result<usize, FlashError>) -> NextLiveAnswer
    ensures { result ≡ next_live_of (number_answer answer []) }
{
    match answer {
        Ok(number) => NextLiveAnswer {
            code: 0,
            number: number as u64,
        },
        Err(error) => NextLiveAnswer {
            code: flash_code(error),
            number: 0,
        },
    }
}

// The buffers that the call was lent play no part in what C receives.
#[tactic(auto, unfolding(crate::specs::Structs::slot_of))]
pub fn slot_of(answer: Result<usize, FlashError>) -> SlotAnswer
    ensures { (lent : List (List ℕ)) → result ≡ slot_of (number_answer answer lent) }
{
    match answer {
        Ok(slot) => SlotAnswer {
            code: 0,
            slot: slot as u64,
        },
        Err(error) => SlotAnswer {
            code: flash_code(error),
            slot: 0,
        },
    }
}

fn place_kind(place: Place) -> u64
    ensures { result ≡ kind_of place }
{
    match place {
        Place::Whole => 0,
        Place::Block(_) => 1,
        Place::Entry(_) => 2,
    }
}

fn place_number(place: Place) -> u64
    ensures { result ≡ place_number place }
{
    match place {
        Place::Whole => 0,
        Place::Block(block) => block as u64,
        Place::Entry(entry) => entry as u64,
    }
}

pub fn copy_protected(protection: CopyProtection) -> u64
    ensures { result ≡ protected_number protection }
{
    match protection {
        CopyProtection::Protected => 1,
        CopyProtection::Copyable => 0,
    }
}

// Why a call on a card was refused, and where.
#[tactic(auto, unfolding(crate::specs::Structs::card_verdict_of))]
fn card_refusal(error: CardError) -> CardVerdictAnswer
    ensures { result ≡ card_verdict_of (error_verdict error) }
{
    CardVerdictAnswer {
        code: u64::from(u8::from(error.rule)),
        place_kind: place_kind(error.place),
        place: place_number(error.place),
    }
}

#[tactic(auto, unfolding(crate::specs::Structs::card_verdict_of))]
pub fn card_verdict_of(answer: Result<(), CardError>) -> CardVerdictAnswer
    ensures { result ≡ card_verdict_of (result_verdict answer) }
{
    match answer {
        Ok(()) => CardVerdictAnswer {
            code: 0,
            place_kind: 0,
            place: 0,
        },
        Err(error) => card_refusal(error),
    }
}

#[tactic(auto, unfolding(crate::specs::Structs::card_check_of, crate::specs::Structs::card_verdict_of))]
pub fn card_check_of(answer: Result<usize, CardError>) -> CardCheckAnswer
    ensures { result ≡ card_check_of (check_answer answer) }
{
    match answer {
        Ok(orphans) => CardCheckAnswer {
            code: 0,
            place_kind: 0,
            place: 0,
            orphans: orphans as u64,
        },
        Err(error) => {
            let refused = card_refusal(error);
            CardCheckAnswer {
                code: refused.code,
                place_kind: refused.place_kind,
                place: refused.place,
                orphans: 0,
            }
        }
    }
}

// A listed entry under C's names.
#[tactic(auto, unfolding(crate::specs::Structs::card_entry_of))]
fn entry_of(listed: ListedEntry) -> CardEntryAnswer
    ensures { result ≡ card_entry_of (list_answer (Ok listed)) }
{
    let name = listed.name;
    let time = listed.time;
    CardEntryAnswer {
        code: 0,
        place_kind: 0,
        place: 0,
        entry: listed.entry as u64,
        kind: u64::from(listed.kind),
        flag: u64::from(listed.flag),
        copy_protected: copy_protected(listed.protection),
        first: listed.first as u64,
        size: listed.size as u64,
        offset: listed.offset as u64,
        name,
        time,
    }
}

#[tactic(auto, unfolding(crate::specs::Structs::card_entry_of, crate::specs::Structs::card_verdict_of))]
pub fn card_entry_of(answer: Result<ListedEntry, CardError>) -> CardEntryAnswer
    ensures { result ≡ card_entry_of (list_answer answer) }
{
    match answer {
        Ok(listed) => entry_of(listed),
        Err(error) => {
            let refused = card_refusal(error);
            CardEntryAnswer {
                code: refused.code,
                place_kind: refused.place_kind,
                place: refused.place,
                entry: 0,
                kind: 0,
                flag: 0,
                copy_protected: 0,
                first: 0,
                size: 0,
                offset: 0,
                name: [0; 12],
                time: [0; 8],
            }
        }
    }
}
