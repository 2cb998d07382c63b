//! The elements of an SDCC-FLP pack: where each starts, which slots its Bit Vector marks present, one number of it, and
//! one slot.
#![tactic(auto)]

pub mod head;
pub mod number;
pub mod present;
pub mod slot;
