#![tactic(auto)]

// Files put onto a card and taken off it. The card is one that was opened, so nothing of it is tested here.
pub mod blocks;
pub mod entries;
pub mod free;
