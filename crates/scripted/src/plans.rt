//! What the chain and the namenode of a script answer, first in first out.
use crate::opening::NodeRow;
use std::alloc::{AllocError, Global};
use std::collections::VecDeque;

/// What comes of a request to a datanode.
#[derive(Drop)]
pub enum Reply {
    /// The connection is closed without a response.
    Lost,
    /// A response, without the length that stands before it on the wire.
    Response(Vec<u8>),
}

/// The plans of the chain.
#[derive(Drop)]
pub struct LinkPlans {
    pub setups: VecDeque<Reply>,
    pub transfers: VecDeque<Reply>,
    /// The addresses of the datanodes that are down.
    pub down: Vec<String>,
}

impl LinkPlans {
    pub fn new(heap: Global) -> LinkPlans {
        LinkPlans {
            setups: VecDeque::new(heap),
            transfers: VecDeque::new(heap),
            down: Vec::new(heap),
        }
    }

    // Puts more plans behind these.
    pub(crate) fn add(&mut self, mut more: LinkPlans) -> Result<(), AllocError> {
        self.setups.append(&mut more.setups)?;
        self.transfers.append(&mut more.transfers)?;
        self.down.append(&mut more.down)
    }
}

/// A list of datanodes, with the token for them.
#[derive(Drop)]
pub struct OfferedList {
    pub rows: Vec<NodeRow>,
    pub token: Vec<u8>,
}

/// A generation stamp, with the token for it.
#[derive(Drop)]
pub struct GivenStamp {
    pub stamp: u64,
    pub token: Vec<u8>,
}

/// The plans of the namenode. A `None` refuses, as an empty queue does.
#[derive(Drop)]
pub struct NamenodePlans {
    pub lists: VecDeque<Option<OfferedList>>,
    pub stamps: VecDeque<Option<GivenStamp>>,
    pub updates: VecDeque<bool>,
}

impl NamenodePlans {
    pub fn new(heap: Global) -> NamenodePlans {
        NamenodePlans {
            lists: VecDeque::new(heap),
            stamps: VecDeque::new(heap),
            updates: VecDeque::new(heap),
        }
    }

    // Puts more plans behind these.
    pub(crate) fn add(&mut self, mut more: NamenodePlans) -> Result<(), AllocError> {
        self.lists.append(&mut more.lists)?;
        self.stamps.append(&mut more.stamps)?;
        self.updates.append(&mut more.updates)
    }
}
