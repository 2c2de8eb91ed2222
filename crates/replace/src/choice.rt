//! Which datanode replaces a failed one, and which one the block is copied from.
ghost use Rattle.std.specs.Prelude.{◌≡◌};
ghost use Rattle.replace.specs.Choice.{same_address, any_same, first_new, choice_of};

use proto::datanode::Datanode;
use std::error::Error;
use std::fmt;

/// Why a list of datanodes offers no replacement.
#[derive(Clone, Copy, Debug, PartialEq, Eq)]
pub enum NoChoice {
    /// Each of its datanodes was in the old pipeline.
    NewNode,
    /// The new datanode is alone, so that there is none to copy the block from.
    Source,
}

impl fmt::Display for NoChoice {
    fn fmt<W: fmt::Write>(&self, f: &mut fmt::Formatter<W>) -> fmt::Result {
        match self {
            Self::NewNode => write!(f, "the list has no new datanode"),
            Self::Source => write!(f, "there is no datanode to copy the block from"),
        }
    }
}

impl Error for NoChoice {}

// Two datanodes are the same where they have the same address: ip and port.
fn same_address(a: &Datanode, b: &Datanode) -> bool
    ensures { result ≡ same_address a.now b.now }
{
    a.xfer_port() == b.xfer_port() && a.ip_addr() == b.ip_addr()
}

/// Whether one of `nodes` has the ip and port of `node`.
pub fn any_same(nodes: &[Datanode], node: &Datanode) -> bool
    ensures { result ≡ any_same nodes.now node.now }
{
    nodes.iter().any(|old| same_address(old, node))
}

/// The position of the first datanode of `list` whose ip and port none of `old` has.
pub fn first_new(list: &[Datanode], old: &[Datanode]) -> Option<usize>
    ensures { result ≡ first_new 0 list.now old.now }
{
    list.iter().position(|node| !any_same(old, node))
}

/// The position of the new datanode and that of its source, which is the one before it, or position 1 where it is the first.
pub fn choose(list: &[Datanode], old: &[Datanode]) -> Result<(usize, usize), NoChoice>
    ensures { result ≡ choice_of list.now old.now }
{
    let new = first_new(list, old).ok_or(NoChoice::NewNode)?;
    if new > 0 {
        Ok((new, new - 1))
    } else if list.len() > 1 {
        Ok((new, 1))
    } else {
        Err(NoChoice::Source)
    }
}
