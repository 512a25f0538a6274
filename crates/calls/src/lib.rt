// The calls: which refusal each is given, what those that look for a table find, and what those that are done record and show.
#![tactic(auto)]

pub mod admit;
pub mod basic;
pub mod effects;

// What a call that shows a table finds: how many sectors are recorded, and the block of the table to show.
#[derive(Clone, Copy)]
pub struct Plan {
    pub recorded: u32,
    pub block: u32,
}
