//! The writer of SDCC-FLP packs: `encode_sdcc_flp_mode2`, and the one that takes no Clen.
#![tactic(auto)]

mod elements;
pub mod write;
