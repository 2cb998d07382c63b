//! Which bytes the program `set` prints for which input.
#![tactic(auto)]

pub mod first;
pub mod pack;
pub mod tags;
