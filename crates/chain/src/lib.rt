//! A pipeline of datanodes as its writer sees it: a link by its acts, and a chain as a link with a meaning.
#![tactic(auto)]

pub mod client;
pub mod link;
pub mod meaning;
