// The findings of a file, and its mended copy.
#![tactic(auto)]

pub mod copy;
pub mod findings;
mod holds;
