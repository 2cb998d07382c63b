//! The reader of SDCC-FLP packs: `decode_sdcc_flp`.
#![tactic(auto)]

mod fill;
mod plain;
pub mod read;
mod store;
