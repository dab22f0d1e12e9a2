#![tactic(auto)]

// What a system flash partition means: definitions in specs/, theorems about them in proofs/. Here stands only the type that both the
// definitions and the calls use.
ghost use Rattle.std.specs.Prelude.{◌≡◌, ◌++◌, Some, codes};
ghost use Rattle.std.specs.Fmt.{decimal};
ghost use Rattle.flash_model.specs.Errors.{error_number};

use std::fmt;

// Why a call on a partition is refused: the rows of document 01's table from 1 to 9, and those of document 02's order 4.
#[derive(Clone, Copy, Debug, PartialEq, Eq)]
pub enum FlashError {
    ImageLength,
    Magic,
    PartitionNumber,
    Version,
    Sequence,
    LogicalNumber,
    NothingThere,
    BufferLength,
    Changed,
    NoFreeSlot,
    SlotHeader,
    NoSlot,
    NoDataBlock,
}

// The number that the papers give it.
impl From<FlashError> for u8 {
    ghost from_gives = { λ e number. number ≡ error_number e };

    fn from(error: FlashError) -> u8 {
        match error {
            FlashError::ImageLength => 1,
            FlashError::Magic => 2,
            FlashError::PartitionNumber => 3,
            FlashError::Version => 4,
            FlashError::Sequence => 5,
            FlashError::LogicalNumber => 6,
            FlashError::NothingThere => 7,
            FlashError::BufferLength => 8,
            FlashError::Changed => 9,
            FlashError::NoFreeSlot => 40,
            FlashError::SlotHeader => 41,
            FlashError::NoSlot => 42,
            FlashError::NoDataBlock => 43,
        }
    }
}

// As the programs print it: the word and the number.
impl fmt::Display for FlashError {
    ghost output = { λ e. Some (codes "refused " ++ decimal (error_number e)) };

    fn fmt<W: fmt::Write>(&self, f: &mut fmt::Formatter<W>) -> fmt::Result {
        write!(f, "refused {}", u8::from(*self))
    }
}
