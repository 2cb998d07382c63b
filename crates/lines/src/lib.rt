//! The lines that the program prints, each put on a page.
#![tactic(auto)]

pub mod line;
pub mod refusal;
pub mod values;
