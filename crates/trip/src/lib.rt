//! What ties the crates together: theorems about their definitions, and a function that writes, reads and compares.
#![tactic(auto)]

mod compare;
pub mod round_trip;
