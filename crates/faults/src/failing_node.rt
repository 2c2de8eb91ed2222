//! A pipeline one of whose datanodes fails, once, at a packet of the user's choice.
ghost use Rattle.std.specs.Prelude.{◌≡◌, Some, None, Option};
ghost use Rattle.ack.specs.Verdicts.{passes};
ghost use Rattle.chain.specs.Acts.{Answered};
ghost use Rattle.packet.specs.Frame.{Packet};
ghost use Rattle.packet.specs.Reading.{Reads};
ghost use Rattle.faults.specs.declared.failing_node.Failure.TheVariants.{Ahead};
ghost use Rattle.faults.specs.Fails.{Puts, Nexts, Refuses, due, numbered, once_put};
ghost use Rattle.std.proofs.Common.{rules};

use crate::answer::{ANSWER_LEN, ERROR, NODES, SUCCESS};
use ack::ack::passing;
use ack::write::write_ack;
use chain::link::{Link, LinkLost};
use chain::meaning::Chain;
use packet::read::read_frame;
use proto::datanode::Datanode;

/// Whether the failure is to come.
#[derive(Clone, Copy, Debug, PartialEq, Eq)]
pub(crate) enum Failure {
    /// The packet has not been put yet.
    Ahead,
    /// The packet is pending.
    Due,
    Past,
}

impl Failure {
    // What it is when a frame was put, which is that of the packet or not.
    fn once_put(self, here: bool) -> Failure
        ensures { result ≡ once_put self here }
    {
        match self {
            Failure::Ahead if here => Failure::Due,
            other => other,
        }
    }
}

/// A pipeline as `inner` is, but for one answer: when it is the turn of the packet of a chosen number, the datanode at `position` says that it
/// failed. `nodes` are the pipeline's datanodes, each of which answers.
#[derive(Drop)]
pub struct FailingNode<C> {
    pub(crate) inner: C,
    pub(crate) packet: u64,
    pub(crate) position: usize,
    pub(crate) nodes: usize,
    pub(crate) failure: Failure,
    /// How many packets were answered for.
    pub(crate) answered: u64,
}

impl<C> FailingNode<C> {
    /// The datanode at `position` of `nodes` fails at the packet of that number.
    pub fn at_packet(inner: C, packet: u64, position: usize, nodes: usize) -> FailingNode<C>
        ensures { result ≡ record {
          inner = inner;
          packet = packet;
          position = position;
          nodes = nodes;
          failure = Ahead;
          answered = 0;
        } }
    {
        FailingNode {
            inner,
            packet,
            position,
            nodes,
            failure: Failure::Ahead,
            answered: 0,
        }
    }

    /// The pipeline itself.
    pub fn inner(&self) -> &C
        ensures { result.now ≡ self.now.inner }
    {
        &self.inner
    }
}

// Whether a frame is that of the packet of this number.
fn has_number(frame: &[u8], seqno: u64) -> bool
    ensures { (p : Option Packet) × (Reads frame.now p × (result ≡ numbered p seqno)) }
{
    match read_frame(frame) {
        Some(read) => read.packet.seqno == seqno,
        None => false,
    }
}

// An answer in which one node says that it failed, and the others that they have the packet. It is looked at before it is used, so that none
// is which passes.
fn make_refusal(
    out: &mut [u8; ANSWER_LEN],
    seqno: u64,
    position: usize,
    nodes: usize,
) -> Option<&[u8]>
    ensures { elim result [ Some x ↦ passes x.now ≡ None | None ↦ Unit {0} ] }
{
    let mut replies = [SUCCESS; NODES];
    *replies.get_mut(position)? = ERROR;
    let len = write_ack(out, seqno, replies.get(0..nodes)?)?;
    let made = out.get(0..len)?;
    match passing(made) {
        Some(_) => None,
        None => Some(made),
    }
}

// The answer to the packet whose turn it is.
fn refuse(
    answer: &mut [u8],
    seqno: u64,
    position: usize,
    nodes: usize,
) -> Result<Option<usize>, LinkLost>
    ensures { Answered Refuses answer.old answer.new result }
{
    let mut out = [0u8; ANSWER_LEN];
    let made = make_refusal(&mut out, seqno, position, nodes).ok_or(LinkLost)?;
    let len = made.len();
    if answer.len() < len {
        return Err(LinkLost);
    }
    answer[0..len].copy_from_slice(made);
    Ok(Some(len))
}

impl<C> FailingNode<C> {
    // Whether it is the turn of the packet at which the datanode fails.
    fn is_due(&self) -> bool
        ensures { result ≡ due self.now }
    {
        match self.failure {
            Failure::Due => self.answered >= self.packet,
            Failure::Ahead | Failure::Past => false,
        }
    }
}

impl<C: Link> Link for FailingNode<C> {
    ghost sets = { λ a node request least came b.
        C.Link.sets a.inner node request least came b.inner };

    ghost puts = { λ a frame taken b. Puts C.Link a frame taken b };

    ghost nexts = { λ a came b. Nexts C.Link a came b };

    ghost transfers = { λ a node request came b.
        C.Link.transfers a.inner node request came b.inner };

    fn set_up(
        &mut self,
        node: &Datanode,
        request: &[u8],
        least: u64,
        answer: &mut [u8],
    ) -> Result<usize, LinkLost> {
        self.inner.set_up(node, request, least, answer)
    }

    fn put(&mut self, frame: &[u8]) -> Result<(), LinkLost> {
        self.inner.put(frame)?;
        let here = has_number(frame, self.packet);
        self.failure = self.failure.once_put(here);
        Ok(())
    }

    fn next(&mut self, answer: &mut [u8]) -> Result<Option<usize>, LinkLost> {
        if self.is_due() {
            self.failure = Failure::Past;
            return refuse(answer, self.packet, self.position, self.nodes);
        }
        let came = self.inner.next(answer)?;
        if came.is_some() {
            self.answered = self.answered.saturating_add(1);
        }
        Ok(came)
    }

    fn transfer(
        &mut self,
        node: &Datanode,
        request: &[u8],
        answer: &mut [u8],
    ) -> Result<usize, LinkLost> {
        self.inner.transfer(node, request, answer)
    }
}

impl<C: Chain> Chain for FailingNode<C> {
    ghost seen = { λ a. C.Chain.seen a.inner };

    ghost setting = { Prim.search rules };

    ghost putting = { Prim.search rules };

    ghost answering = { Prim.search rules };

    ghost transferring = { Prim.search rules };
}
