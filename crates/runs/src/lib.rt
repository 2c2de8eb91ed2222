//! Runs of calls on a writer, and the law that holds of every run.
#![tactic(auto)]

pub mod client;
pub mod command;
pub mod law;
