//! The two requests that the writer sends to a datanode, and what the far end reads of the first.
#![tactic(auto)]

ghost use Rattle.request.specs.SetupLaw.{RequestsReadBack};

pub mod parts;
pub mod send;
pub mod setup;
pub mod stage;
pub mod targets;
pub mod transfer_block;
pub mod write_block;

/// Every request that sets up a pipeline is read at the far end as what it asks for.
pub fn requests_read_back()
    ensures { RequestsReadBack }
{}
