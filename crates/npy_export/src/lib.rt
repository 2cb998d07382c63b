//! A matrix as a NumPy .npy file.
#![tactic(auto)]

pub mod export;
mod write;
