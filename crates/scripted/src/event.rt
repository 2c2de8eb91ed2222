//! What the chain and the namenode were handed.
use std::fmt;

/// A request of the namenode.
#[derive(Clone, Copy)]
pub enum Method {
    GetAdditionalDatanode,
    UpdateBlockForPipeline,
    UpdatePipeline,
}

/// The namenode's name of the request.
impl fmt::Display for Method {
    fn fmt<W: fmt::Write>(&self, f: &mut fmt::Formatter<W>) -> fmt::Result {
        match self {
            Method::GetAdditionalDatanode => write!(f, "getAdditionalDatanode"),
            Method::UpdateBlockForPipeline => write!(f, "updateBlockForPipeline"),
            Method::UpdatePipeline => write!(f, "updatePipeline"),
        }
    }
}

/// Something that happened at the chain or at the namenode.
#[derive(Drop)]
pub enum Event {
    /// A request was sent to the datanode at that address: its operation's code, and all its octets.
    Request {
        address: String,
        code: u8,
        octets: Vec<u8>,
    },
    /// A frame was sent on the connection of that number, from 1 on.
    Frame {
        connection: u64,
        octets: Vec<u8>,
    },
    /// The namenode was asked.
    Asked {
        method: Method,
        message: Vec<u8>,
    },
    /// The namenode refused.
    Refused,
}

/// An event with its turn.
#[derive(Drop)]
pub struct Noted {
    pub turn: u64,
    pub event: Event,
}
