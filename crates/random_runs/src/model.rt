//! What a block must be like, known from what its calls answered and from nothing else.
use crate::cluster::STAMP;
use crate::nodes::Nodes;
use ack::tally::FailedNodes;
use anyhow::{Context, bail, ensure};
use namenode::protocol::NamenodeProtocol;
use runs::command::{Command, Outcome};
use writer::beat::Beat;
use writer::cause::Cause;
use writer::heed::Heeded;
use writer::recover::Recovered;
use writer::refusal::Refusal;

/// What the writer is in the midst of.
#[derive(Clone, Copy)]
pub enum Phase {
    Whole,
    Broken(FailedNodes),
    Complete,
    Closed,
}

/// A block by what its user was told.
#[derive(Drop)]
pub struct Model {
    /// The bytes that the block had, and those that writes have taken, joined.
    pub bytes: Vec<u8>,
    /// How many packets were told as confirmed: the next one has this number.
    pub confirmed: u64,
    pub finished: bool,
    pub phase: Phase,
    pub nodes: Nodes,
    pub stamp: u64,
}

impl Model {
    /// A block that has these bytes already, on the first datanodes.
    pub fn new(bytes: Vec<u8>, nodes: usize) -> Model {
        Model {
            bytes,
            confirmed: 0,
            finished: false,
            phase: Phase::Whole,
            nodes: Nodes::first(nodes),
            stamp: STAMP,
        }
    }

    pub fn is_over(&self) -> bool {
        matches!(self.phase, Phase::Complete | Phase::Closed)
    }

    pub fn is_broken(&self) -> bool {
        matches!(self.phase, Phase::Broken(_))
    }

    /// So many of the block's bytes may be missing from what the pipeline has: those of the packet being filled, which has `capacity` at most.
    pub fn may_lack(&self, capacity: usize) -> usize {
        match self.phase {
            Phase::Whole if self.finished => 0,
            Phase::Whole => capacity,
            Phase::Complete => 0,
            Phase::Broken(_) | Phase::Closed => self.bytes.len(),
        }
    }

    /// The refusal that a call must get for what the writer is in the midst of.
    pub fn refusal(&self, command: &Command<'_>) -> Option<Refusal> {
        match (self.phase, command) {
            (Phase::Closed, _) => Some(Refusal::Closed),
            (Phase::Complete, _) => Some(Refusal::Complete),
            (Phase::Whole, Command::Recover(_)) => Some(Refusal::Whole),
            (Phase::Broken(_), Command::Recover(_)) => None,
            (Phase::Broken(_), _) => Some(Refusal::Broken),
            (Phase::Whole, Command::Write(_) | Command::Beat(_) | Command::Finish)
                if self.finished => { Some(Refusal::Finished) }
            (Phase::Whole, _) => None,
        }
    }

    // The pipeline is broken where a frame was lost: that counts against the first datanode.
    fn put(&mut self, lost: bool) {
        if lost {
            self.phase = Phase::Broken(Cause::Link.failed_nodes());
        }
    }

    fn confirm(&mut self, seqno: u64) -> anyhow::Result<()> {
        ensure!(
            seqno == self.confirmed,
            "another packet than the next is confirmed"
        );
        self.confirmed = self.confirmed.saturating_add(1);
        Ok(())
    }

    fn heed(&mut self, heeded: Heeded) -> anyhow::Result<()> {
        match heeded {
            Heeded::Nothing | Heeded::HeartBeat => {}
            Heeded::Confirmed(seqno) => self.confirm(seqno)?,
            Heeded::Complete(seqno) => {
                ensure!(self.finished, "a block that is not finished is complete");
                self.confirm(seqno)?;
                self.phase = Phase::Complete;
            }
            Heeded::Broken(cause) => self.phase = Phase::Broken(cause.failed_nodes()),
        }
        Ok(())
    }

    // The list that the namenode offered has the survivors and one datanode that is new, at the position that is told; its source stands before it.
    fn replace<N: NamenodeProtocol>(
        &mut self,
        left: Nodes,
        choice: (usize, usize),
        namenode: &N,
    ) -> anyhow::Result<()> {
        let (new, source) = choice;
        let list = Nodes::offered(namenode);
        let letter = list.at(new).context("the new datanode is not on the list")?;
        ensure!(!self.nodes.has(letter), "the new datanode is an old one");
        ensure!(
            source == new.checked_sub(1).unwrap_or(1),
            "the source is not the datanode before the new one"
        );
        ensure!(
            list.len() == left.len().saturating_add(1),
            "the list does not have one datanode more"
        );
        self.nodes = list;
        Ok(())
    }

    fn recover<N: NamenodeProtocol>(
        &mut self,
        recovered: Recovered,
        namenode: &N,
    ) -> anyhow::Result<()> {
        let Phase::Broken(failed) = self.phase else {
            bail!("a pipeline that is not broken is mended");
        };
        let left = self.nodes.without(failed);
        match recovered.choice {
            Some(choice) => self.replace(left, choice, namenode)?,
            None => self.nodes = left,
        }
        self.stamp = recovered.stamp;
        self.phase = Phase::Whole;
        self.put(recovered.put_lost);
        Ok(())
    }

    /// Takes in what a call came to.
    pub fn take<N: NamenodeProtocol>(
        &mut self,
        command: &Command<'_>,
        outcome: Outcome,
        namenode: &N,
    ) -> anyhow::Result<()> {
        match outcome {
            Outcome::Wrote(Ok(written)) => {
                let Command::Write(bytes) = *command else {
                    bail!("another call is answered");
                };
                let taken = bytes
                    .get(0..written.taken)
                    .context("more is taken than was given")?;
                self.bytes.extend_from_slice(taken)?;
                self.put(written.put_lost);
            }
            Outcome::Heard(Ok(heeded)) => self.heed(heeded)?,
            Outcome::Beaten(Ok(beat)) => self.put(beat == Beat::Lost),
            Outcome::Ended(Ok(ended)) => {
                self.finished = true;
                self.put(ended.put_lost);
            }
            Outcome::Recovered(Ok(recovered)) => self.recover(recovered, namenode)?,
            _ => {}
        }
        if let Some(refusal) = outcome.refusal() {
            self.refused(refusal);
        }
        Ok(())
    }

    // Refusals 8 to 16 close the writer.
    fn refused(&mut self, refusal: Refusal) {
        if (8..=16).contains(&u8::from(refusal)) {
            self.phase = Phase::Closed;
        }
    }
}
