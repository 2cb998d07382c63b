//! What stands behind a reply: bytes, the lines of a pack, and whether lent memory was touched.
#![tactic(auto)]

pub mod bytes;
pub mod lines;
pub mod pack;
pub mod touched;
pub mod written;
