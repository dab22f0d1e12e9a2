#![tactic(auto)]

// Reading a partition: its refusals, and where contents are.
pub mod blocks;
pub mod opened;
pub mod opening;
