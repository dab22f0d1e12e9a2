#![tactic(auto)]

// What a memory card means: definitions and theorems in specs/, their proofs in proofs/. Here stand only the types that both the
// definitions and the calls use, and a card's length.

// The bytes of a card.
pub const LENGTH: usize = 131072;

// What the table says of a block: document 01, "FFFC is free, FFFF damaged, FFFA last, and 0 to 199 the next block".
#[derive(Clone, Copy, Debug, PartialEq, Eq)]
pub enum Link {
    Free,
    Damaged,
    Last,
    Next(usize),
    Bad,
}

// What an entry's copy flag says of its file: source 003, "0xff: Copy Protected", "Other: Copyable".
#[derive(Clone, Copy, Debug, PartialEq, Eq)]
pub enum CopyProtection {
    Protected,
    Copyable,
}

// What a listing gives: a used entry's number and fields, the flag as it stands and what it says.
#[derive(Clone, Copy)]
pub struct ListedEntry {
    pub entry: usize,
    pub kind: u8,
    pub flag: u8,
    pub protection: CopyProtection,
    pub first: usize,
    pub size: usize,
    pub offset: usize,
    pub name: [u8; 12],
    pub time: [u8; 8],
}
