//! Packs inside an ST 0601 set: its items, its tags, and the parts of the caller's memory that its packs are.
#![tactic(auto)]

pub mod handed;
pub mod item;
pub mod pack;
pub mod part;
pub mod set;
pub mod tag;
