//! What there is to tell of a pack, as text: why it is refused, or where its parts stand.
#![tactic(auto)]

pub mod account;
mod slots;
