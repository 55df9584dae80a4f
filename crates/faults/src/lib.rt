// What is wrong with a file: a function for each finding, which answers whether it is there. Three stand elsewhere: 1 in mend, 9 in tfm, 18 in judge.
#![tactic(auto)]

pub mod characters;
pub mod header;
pub mod steps;
