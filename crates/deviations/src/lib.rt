//! The deviations of a pack, IEEE or, where a range is lent, in mapped form: how they are read, worked out once, and
//! one of them.
#![tactic(auto)]

pub mod form;
pub mod number;
