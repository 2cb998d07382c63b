//! ST 1201.5's mapping over any range: what a range and a length decide, worked out once, and what a code then reads
//! as.
#![tactic(auto)]

pub mod decode;
mod floor;
pub mod mapping;
pub mod range;
