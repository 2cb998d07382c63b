//! Which bytes the program prints for which input.
#![tactic(auto)]

pub mod answer;
mod pack;
pub mod print;
