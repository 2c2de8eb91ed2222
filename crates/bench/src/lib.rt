//! A chain of up to eight nodes in memory, each with a replica of its own: what a test runs a writer against.
#![tactic(auto)]

pub mod calls;
pub mod make;
pub mod nodes;
pub mod replicas;
pub mod state;
