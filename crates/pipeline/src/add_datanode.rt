//! A datanode added to a pipeline that lost one: asked for at the namenode, chosen from its list, and given a copy of the block.
ghost use Rattle.std.specs.Prelude.{◌≡◌, vec_capacity};
ghost use Rattle.pipeline.specs.declared.add_datanode.NoDatanode.TheVariants as no;
ghost use Rattle.pipeline.specs.Adding.{unchosen, uncopied};

use crate::channel::Channel;
use crate::nodes::NodeTable;
use crate::offer::read_offer;
use crate::reply::ReplyError;
use chain::link::Link;
use namenode::protocol::{NamenodeProtocol, Refused};
use proto::block::{ClientOperationHeader, ExtendedBlock};
use proto::datanode::Datanode;
use proto::fixed::Fixed;
use replace::choice::{NoChoice, choose};
use std::fmt;

/// Why no datanode could be added. One list, and no errors of choosing and copying within it: the interface names these seven side by side.
#[derive(Clone, Copy, Debug, PartialEq, Eq)]
pub enum NoDatanode {
    /// The namenode refused.
    Namenode,
    /// Its list is not in form.
    List,
    /// Each datanode of its list was in the old pipeline.
    NoNewNode,
    /// The new datanode is alone in the list, so that there is none to copy the block from.
    NoSource,
    /// The request for the copy was lost.
    Lost,
    /// The response to it cannot be read.
    Undecodable,
    /// The response to it has another status than SUCCESS, or none.
    Status,
}

impl fmt::Display for NoDatanode {
    fn fmt<W: fmt::Write>(&self, f: &mut fmt::Formatter<W>) -> fmt::Result {
        match self {
            NoDatanode::Namenode => write!(f, "the namenode refused"),
            NoDatanode::List => write!(f, "the namenode's list is not in form"),
            NoDatanode::NoNewNode => write!(f, "the namenode's list has no new datanode"),
            NoDatanode::NoSource => write!(f, "there is no datanode to copy the block from"),
            NoDatanode::Lost => write!(f, "the request for the copy was lost"),
            NoDatanode::Undecodable => write!(f, "the response to the copy cannot be read"),
            NoDatanode::Status => write!(f, "the response to the copy is not SUCCESS"),
        }
    }
}

impl From<Refused> for NoDatanode {
    ghost from_gives = { λ _ e. e ≡ no.Namenode };

    fn from(_: Refused) -> NoDatanode {
        NoDatanode::Namenode
    }
}

impl From<NoChoice> for NoDatanode {
    ghost from_gives = { λ why e. e ≡ unchosen why };

    fn from(why: NoChoice) -> NoDatanode {
        match why {
            NoChoice::NewNode => NoDatanode::NoNewNode,
            NoChoice::Source => NoDatanode::NoSource,
        }
    }
}

impl From<ReplyError> for NoDatanode {
    ghost from_gives = { λ why e. e ≡ uncopied why };

    fn from(why: ReplyError) -> NoDatanode {
        match why {
            ReplyError::Lost => NoDatanode::Lost,
            ReplyError::Undecodable => NoDatanode::Undecodable,
            ReplyError::Status => NoDatanode::Status,
        }
    }
}

impl<'a, L: Link> Channel<'a, L> {
    ghost use Rattle.replace.specs.Choice.{choice_of};
    ghost use Rattle.pipeline.specs.Channels.{channel_view, SameLoans};
    ghost use Rattle.pipeline.specs.Adding.{Copies, Adds, Within};

    // Chooses a new datanode of the list and has its source copy the block to it.
    fn copy_to_new<'b>(
        &mut self,
        header: ClientOperationHeader<'b>,
        list: &'b [Datanode],
        old: &[Datanode],
    ) -> Result<(usize, usize), NoDatanode>
        ensures acts { Copies L.Link header.entry list.now (choice_of list.now old.now)
            (channel_view self.old) result (channel_view self.new) }
        ensures same { SameLoans self.old self.new }
    {
        let (new, source) = choose(list, old)?;
        self.transfer(header, &list[source], &list[new])?;
        Ok((new, source))
    }

    /// Adds a datanode to a pipeline of the datanodes `left`, after those that are `gone`; `old` are all that it had. The namenode is asked
    /// once and its list is read into `list`. The first datanode there that is none of `old` is the new one, and the one before it, or the
    /// second where it is first, copies the block to it. Answers the places of the two in `list`.
    // The writer goes on with the list and the channel, so that the capacity and the loans stay is said too.
    pub fn add_datanode<N: NamenodeProtocol>(
        &mut self,
        namenode: &mut N,
        block: ExtendedBlock,
        client_name: &Fixed<64>,
        old: &[Datanode],
        left: &[Datanode],
        gone: &[Datanode],
        list: &mut NodeTable,
    ) -> Result<(usize, usize), NoDatanode>
        ensures acts { Adds L.Link N.NamenodeProtocol block client_name.now
            old.now left.now gone.now list.old.rows.items list.new.rows.items
            (channel_view self.old) namenode.old result (channel_view self.new) namenode.new }
        ensures same { SameLoans self.old self.new }
        ensures within { Within list.new.rows.items result }
        ensures capacity { vec_capacity list.new.rows ≡ vec_capacity list.old.rows }
    {
        namenode.get_additional_datanode(block.num_bytes, left, gone)?;
        let token = read_offer(namenode, list).ok_or(NoDatanode::List)?;
        let header = ClientOperationHeader {
            block,
            token: &token,
            client_name,
        };
        self.copy_to_new(header, list.as_slice(), old)
    }
}
