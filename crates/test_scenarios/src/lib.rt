#![tactic(auto)]

// What the programs that run the flash calls share: formatted images, and pages that are saved and read back.
pub mod pages;
