//! The matrix of a NumPy .npy file; and what export and import make of each other.
#![tactic(auto)]

mod entry;
pub mod import;
mod pairs;
mod store;
