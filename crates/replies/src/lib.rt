//! A reply to a request: a form, and the values that its letters stand for.
#![tactic(auto)]

pub mod forms;
pub mod kind;
pub mod mapped;
pub mod numeric;
pub mod outcome;
pub mod pack;
pub mod put;
pub mod refusal;
pub mod reply;
pub mod set;
