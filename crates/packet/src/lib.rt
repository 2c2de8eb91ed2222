//! What a packet of a block is: how many bytes it takes, the sums of its chunks, its header, and the frame that carries it.
#![tactic(auto)]

pub mod frame;
pub mod header;
pub mod read;
pub mod size;
pub mod sums;
