//! Why a pack is refused: the rule, its place and its numbers; and where the parts of one that is accepted stand.
#![tactic(auto)]

pub mod explain;
mod place;
pub mod slot;
pub mod spans;
