//! Why a pack is refused, as text: the rule, its place and the refusal, and a sentence in plain words.
#![tactic(auto)]

pub mod reason;
mod sentence;
mod table;
