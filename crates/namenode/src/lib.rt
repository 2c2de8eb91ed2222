//! The namenode as the writer sees it: three requests by their acts, and a block's entry as their meaning.
#![tactic(auto)]

pub mod meaning;
pub mod protocol;
