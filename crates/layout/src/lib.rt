//! The layout of an SDCC-FLP pack: its type and limits, Parse Control, the size check, peek, and the slots of the
//! triangle.
#![tactic(auto)]

pub mod control;
pub mod header;
pub mod pack;
pub mod rule;
pub mod size;
pub mod triangle;
