//! A request: which form a line has, and what its fields say.
#![tactic(auto)]

mod fields;
mod form;
pub mod limits;
pub mod request;
pub mod states;
