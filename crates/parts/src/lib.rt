//! The parts of a pack that is accepted, each as a part of its text.
#![tactic(auto)]

pub mod element;
pub mod slot;
