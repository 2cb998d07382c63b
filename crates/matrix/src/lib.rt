//! The matrix that a pack's numbers are: cell lookup, and whether it can be used.
#![tactic(auto)]

pub mod lookup;
pub mod usable;
