// The listing of a disc: its text form, in and out, on slices.
#![tactic(auto)]

pub mod form;
pub mod list;
pub mod text;
