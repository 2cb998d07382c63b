//! The form of a pack and its plan: what the writer refuses before the pack's length is known, and where each element
//! goes.
#![tactic(auto)]

mod check;
pub mod pack;
pub mod places;
pub mod zero;
