//! A chain of one node over one buffer of the caller's: what a recorder keeps when there is no cluster, and what a test looks into.
#![tactic(auto)]

pub mod calls;
pub mod make;
pub mod pending;
pub mod state;
pub mod steps;
