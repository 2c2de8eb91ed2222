//! A pipeline's datanodes: the table of them, the survivors of a failure, the two requests sent and their responses judged, a namenode's
//! list read, and a datanode added.
#![tactic(auto)]

pub mod add_datanode;
pub mod channel;
pub mod nodes;
pub mod offer;
pub mod reply;
pub mod set_up;
pub mod survivors;
pub mod transfer;
pub mod write_request;
