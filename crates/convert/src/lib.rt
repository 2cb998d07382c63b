//! Which bytes the programs `to_npy` and `to_pack` write for which input, and to which stream.
#![tactic(auto)]

pub mod file;
pub mod pack;
pub mod stream;
