//! What a datanode answers: the acknowledgement of a packet by a whole pipeline, and the response to a request.
#![tactic(auto)]

pub mod ack;
pub mod laws;
pub mod packed;
pub mod response;
pub mod tally;
pub mod write;
