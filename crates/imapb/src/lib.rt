//! ST 1201.5 IMAPB for the range -1 to 1: mapped values and special codes of 1 to 8 bytes.
#![tactic(auto)]

pub mod code_length;
pub mod decode;
pub mod encode;
pub mod mapping;
pub mod special;
