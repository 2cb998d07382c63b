//! The slots of a pack with mapped codes, their correlations and states, into lent memory, a word of bytes to a code.
#![tactic(auto)]

mod coded;
mod mapped;
mod states;
pub mod store;
mod values;
