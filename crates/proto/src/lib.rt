//! What requests are made of: datanodes, tokens, blocks and the header that all requests begin with, and the form that these must have.
#![tactic(auto)]

pub mod block;
pub mod datanode;
pub mod fixed;
pub mod form;
mod rules;
pub mod token;
