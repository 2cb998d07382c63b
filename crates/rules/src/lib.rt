//! The rules of a pack in their order, a) to l): everything that can be refused, decided before an entry is written.
#![tactic(auto)]

pub mod decide;
pub mod judge;
mod opened;
pub mod rooms;
mod turns;
