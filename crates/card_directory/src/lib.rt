#![tactic(auto)]

// The directory of a card: its entries one by one, the list of the used ones with refusal 26, and the searches along it.
//
// An entry's number (below 208) and a block's (below 200) are a `usize` with its bound in the clause: every use of a type of their own
// would take the number out again.
pub mod entry;
pub mod opened_directory;
pub mod search;
pub mod used;
