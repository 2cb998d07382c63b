//! Which bytes the program `why` prints for which input.
#![tactic(auto)]

pub mod print;
