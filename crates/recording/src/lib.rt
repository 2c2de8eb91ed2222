//! The recorder's work on values: lines out of a text, and a block's bytes cut into packets.
#![tactic(auto)]

pub mod cut;
pub mod lines;
