//! The header of a NumPy .npy file: written, and held to a file.
#![tactic(auto)]

pub mod check;
pub mod header;
