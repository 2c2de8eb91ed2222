//! What a test looks at of a chain in memory.
use bench::state::Bench;
use chain::link::Link;
use spool::state::Spool;

/// A chain whose datanodes can be looked at.
pub trait Nodes: Link {
    /// The bytes that the first datanode keeps.
    fn kept(&self) -> &[u8];

    /// How many packets it has taken and not answered.
    fn pending(&self) -> usize;

    /// How many datanodes there are behind it.
    fn replicas(&self) -> usize;

    /// The bytes of one of them.
    fn replica(&self, i: usize) -> Option<&[u8]>;
}

impl Nodes for Spool {
    fn kept(&self) -> &[u8] {
        Spool::kept(self)
    }

    fn pending(&self) -> usize {
        Spool::pending(self)
    }

    fn replicas(&self) -> usize {
        0
    }

    fn replica(&self, _i: usize) -> Option<&[u8]> {
        None
    }
}

impl Nodes for Bench {
    fn kept(&self) -> &[u8] {
        Bench::kept(self)
    }

    fn pending(&self) -> usize {
        Bench::pending(self)
    }

    fn replicas(&self) -> usize {
        Bench::replicas(self)
    }

    fn replica(&self, i: usize) -> Option<&[u8]> {
        Bench::replica(self, i)
    }
}
