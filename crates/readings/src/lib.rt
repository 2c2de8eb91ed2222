//! The furnace's readings: as lines of text, and as octets of a block.
#![tactic(auto)]

pub mod line;
pub mod number;
pub mod octets;
pub mod reading;
