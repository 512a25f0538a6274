// The entry of a run.
#![tactic(auto)]

pub mod entry;
pub mod sector;
