//! The slots of a pack: elements 3 and 5, in the form that the plan has chosen. All that can be refused is refused
//! before the first store.
#![tactic(auto)]

mod code;
mod full;
mod marked;
mod planned;
pub mod write;
