//! A pipeline that loses what it is sent, and sends what nobody asked for.
ghost use Rattle.std.specs.Prelude.{◌≡◌, None, Option};
ghost use Rattle.packet.specs.Frame.{Packet};
ghost use Rattle.packet.specs.Reading.{Reads};
ghost use Rattle.chain.specs.Acts.{Replied};
ghost use Rattle.faults.specs.Links.{due, last_in, last_after_set_up, FailsToSet, FailsToTransfer, Sets, Puts, Nexts, Transfers};
ghost use Rattle.faults.specs.Meaning.{setting, putting, answering, transferring};
ghost use Rattle.std.proofs.Common.{rules};

use crate::chance::Chance;
use crate::stray::stray;
use crate::watched::Watched;
use chain::link::{Link, LinkLost};
use chain::meaning::Chain;
use packet::read::read_frame;
use proto::datanode::Datanode;
use request::setup::Setup;

/// Responses that are not good: another status, none, a wire type that a status does not have, a number without an end.
const RESPONSES: [&[u8]; 4] = [b"\x08\x01", b"\x08\x05", b"\x0a\x00", b"\x08\x80"];

/// A response that is not looked at has room here.
const UNREAD_LEN: usize = 512;

/// A pipeline as `inner` is, in which once in `rarity` acts, as chance has it, something goes wrong: a request, a response, a frame or the link
/// is lost, a response is not good, or an answer comes that confirms nothing.
#[derive(Drop)]
pub struct FaultyLink<C> {
    pub(crate) inner: C,
    pub(crate) chance: Chance,
    pub(crate) rarity: u64,
    /// How many datanodes the pipeline has.
    pub(crate) nodes: usize,
    /// The number of the packet that the pipeline has taken as the last.
    pub(crate) last: Option<u64>,
}

impl<C> FaultyLink<C> {
    pub fn over(inner: C, chance: Chance, rarity: u64) -> FaultyLink<C>
        ensures { result ≡ record {
          inner = inner;
          chance = chance;
          rarity = rarity;
          nodes = 1;
          last = None;
        } }
    {
        FaultyLink {
            inner,
            chance,
            rarity,
            nodes: 1,
            last: None,
        }
    }

    /// The pipeline itself.
    pub fn inner(&self) -> &C
        ensures { result.now ≡ self.now.inner }
    {
        &self.inner
    }

    /// The number of the packet that was marked as the last, where the pipeline has taken one since it was set up.
    pub fn last(&self) -> Option<u64>
        ensures { result ≡ self.now.last }
    {
        self.last
    }

    // The pipeline is another one from now on.
    fn begin(&mut self, request: &[u8])
        ensures inner { self.new.inner ≡ self.old.inner }
        ensures last { self.new.last ≡ None }
    {
        self.nodes = nodes_in(request);
        self.last = None;
    }

    // Notes a packet that was taken.
    fn note(&mut self, frame: &[u8])
        ensures inner { self.new.inner ≡ self.old.inner }
        ensures last { (p : Option Packet)
            × (Reads frame.now p × (self.new.last ≡ last_in p self.old.last)) }
    {
        if let Some(read) = read_frame(frame) {
            if read.packet.last {
                self.last = Some(read.packet.seqno);
            }
        }
    }

    // Whether something goes wrong now.
    fn is_due(&mut self) -> bool
        ensures value { result ≡ due self.old }
        ensures inner { self.new.inner ≡ self.old.inner }
        ensures last { self.new.last ≡ self.old.last }
    {
        self.chance.one_in(self.rarity)
    }

    // A response that is not good, where one is to come in the place of the one that came, and not the loss of all.
    fn bad_response(&mut self) -> Option<&'static [u8]>
        ensures inner { self.new.inner ≡ self.old.inner }
        ensures last { self.new.last ≡ self.old.last }
    {
        if self.chance.one_in(2) {
            return None;
        }
        let at = self.chance.below(RESPONSES.len() as u64) as usize;
        RESPONSES.get(at).copied()
    }
}

// How many datanodes a request sets up.
fn nodes_in(request: &[u8]) -> usize {
    Setup::read(request).map_or(1, |setup| setup.pipeline_size as usize)
}

impl<C: Link> FaultyLink<C> {
    // A set up that is lost, or whose response is not good though the pipeline is set up.
    fn fail_set_up(
        &mut self,
        node: &Datanode,
        request: &[u8],
        least: u64,
        answer: &mut [u8],
    ) -> Result<usize, LinkLost>
        ensures { Replied
            (λ came. FailsToSet C.Link self.old node.now request.now least came self.new
            × (self.new.last ≡ last_after_set_up came self.old.last))
            answer.old answer.new result }
    {
        let bad = self.bad_response().ok_or(LinkLost)?;
        let len = bad.len();
        if answer.len() < len {
            return Err(LinkLost);
        }
        let mut unread = [0u8; UNREAD_LEN];
        self.inner.set_up(node, request, least, &mut unread)?;
        self.begin(request);
        answer[0..len].copy_from_slice(bad);
        Ok(len)
    }

    // The same of a transfer.
    fn fail_transfer(
        &mut self,
        node: &Datanode,
        request: &[u8],
        answer: &mut [u8],
    ) -> Result<usize, LinkLost>
        ensures { Replied
            (λ came. FailsToTransfer C.Link self.old node.now request.now came self.new)
            answer.old answer.new result }
    {
        let bad = self.bad_response().ok_or(LinkLost)?;
        let len = bad.len();
        if answer.len() < len {
            return Err(LinkLost);
        }
        let mut unread = [0u8; UNREAD_LEN];
        self.inner.transfer(node, request, &mut unread)?;
        answer[0..len].copy_from_slice(bad);
        Ok(len)
    }
}

impl<C: Watched> Link for FaultyLink<C> {
    ghost sets = { λ a node request least came b. Sets C.Link a node request least came b };

    ghost puts = { λ a frame taken b. Puts C.Link a frame taken b };

    ghost nexts = { λ a came b. Nexts C.Link C.Chain.seen a came b };

    ghost transfers = { λ a node request came b. Transfers C.Link a node request came b };

    fn set_up(
        &mut self,
        node: &Datanode,
        request: &[u8],
        least: u64,
        answer: &mut [u8],
    ) -> Result<usize, LinkLost> {
        if self.is_due() {
            return self.fail_set_up(node, request, least, answer);
        }
        let len = self.inner.set_up(node, request, least, answer)?;
        self.begin(request);
        Ok(len)
    }

    fn put(&mut self, frame: &[u8]) -> Result<(), LinkLost> {
        if self.is_due() {
            return Err(LinkLost);
        }
        self.inner.put(frame)?;
        self.note(frame);
        Ok(())
    }

    fn next(&mut self, answer: &mut [u8]) -> Result<Option<usize>, LinkLost> {
        if self.is_due() {
            let awaited = self.inner.awaited();
            return stray(&mut self.chance, awaited, self.nodes, answer);
        }
        self.inner.next(answer)
    }

    fn transfer(
        &mut self,
        node: &Datanode,
        request: &[u8],
        answer: &mut [u8],
    ) -> Result<usize, LinkLost> {
        if self.is_due() {
            return self.fail_transfer(node, request, answer);
        }
        self.inner.transfer(node, request, answer)
    }
}

impl<C: Watched> Chain for FaultyLink<C> {
    ghost seen = { λ a. C.Chain.seen a.inner };

    ghost setting = { setting C.Link C.Chain.seen C.Chain.setting };

    ghost putting = { putting C.Link C.Chain.seen C.Chain.putting };

    ghost answering = { answering C.Link C.Chain.seen C.Chain.answering };

    ghost transferring = { transferring C.Link C.Chain.seen C.Chain.transferring };
}
