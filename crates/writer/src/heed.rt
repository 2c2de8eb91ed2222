//! An answer heeded.
ghost use Rattle.std.specs.Prelude.{◌≡◌, ◌<◌, true};
ghost use Rattle.ack.specs.declared.ack.Verdict.TheVariants.{Failed};
ghost use Rattle.ack.specs.declared.tally.FailedNodes.{FailedNodes};
ghost use Rattle.ack.specs.Failures.{IsTallied};
ghost use Rattle.writer.specs.declared.admit.Call.TheVariants as call;
ghost use Rattle.writer.specs.declared.state.kind.State.TheVariants.{Complete, Closed};
ghost use Rattle.writer.specs.Admits.{refusal_for, lengths_of};
ghost use Rattle.writer.specs.Calls.{listener_of, UnlessRefused};
ghost use Rattle.writer.specs.States.{listens, ended};
ghost use Rattle.writer.specs.Views.{view_of, with_state, without_first};
ghost use Rattle.writer.specs.Heeding.{awaits, if_last, decided, answer_of, view_after, Heeds};

use crate::admit::{Call, Lengths};
use crate::cause::Cause;
use crate::refusal::Refusal;
use crate::state::Writer;
use crate::state::kind::State;
use ack::ack::Verdict;
use chain::link::Link;
use held::table::HeldTable;
use sending::ask::{AskError, ask};

/// What an answer means, or that none came or the link was lost. None of the five is an error: the call was acted on.
#[derive(Clone, Copy, Debug, PartialEq, Eq)]
pub enum Heeded {
    /// No answer has come yet.
    Nothing,
    /// A heartbeat was answered.
    HeartBeat,
    /// That packet is confirmed.
    Confirmed(u64),
    /// That packet is confirmed, and it was the last: the block is complete.
    Complete(u64),
    /// The pipeline is broken.
    Broken(Cause),
}

/// What a state and what was heard come to. It is stated apart from what is done about it.
#[derive(Clone, Copy)]
pub enum Decision {
    Wait,
    Beat,
    Break(Cause),
    Close(Refusal),
    Confirm(u64),
    Complete(u64),
}

impl Writer {
    // Whether the packet of that number is the first held one.
    fn awaits(&self, seqno: u64) -> bool
        ensures { result ≡ awaits (view_of self.now) seqno }
    {
        self.count > 0 && seqno == self.first
    }

    // A packet that all nodes have.
    fn on_packet(&self, seqno: u64, is_last: bool) -> Decision
        ensures { result ≡ if_last (view_of self.now) seqno is_last }
    {
        if !self.awaits(seqno) {
            return Decision::Close(Refusal::Unexpected);
        }
        if is_last {
            return Decision::Complete(seqno);
        }
        Decision::Confirm(seqno)
    }

    // What the writer's state and what was heard decide together.
    fn decide(&self, heard: Result<Option<Verdict>, AskError>) -> Decision
        ensures { result ≡ decided (view_of self.now) heard }
    {
        match (self.state, heard) {
            (State::Streaming, Ok(Some(Verdict::Packet(seqno)))) => { self.on_packet(seqno, false) }
            (State::Finishing, Ok(Some(Verdict::Packet(seqno)))) => {
                self.on_packet(seqno, self.count == 1)
            }
            (State::Streaming | State::Finishing, Ok(None)) => Decision::Wait,
            (State::Streaming | State::Finishing, Err(AskError::Lost)) => Decision::Break(
                Cause::Link,
            ),
            (State::Streaming | State::Finishing, Err(AskError::Undecodable(error))) => {
                Decision::Break(Cause::Decoding(error))
            }
            (State::Streaming | State::Finishing, Ok(Some(Verdict::Failed(nodes)))) => {
                Decision::Break(Cause::Replies(nodes))
            }
            (State::Streaming | State::Finishing, Ok(Some(Verdict::HeartBeat))) => {
                Decision::Beat
            }
            (State::Streaming | State::Finishing, Ok(Some(Verdict::UnknownSeqno))) => {
                Decision::Close(Refusal::UnknownSeqno)
            }
            (State::Broken { .. } | State::Complete | State::Closed, _) => Decision::Wait,
        }
    }

    // The first held packet is held no more.
    fn drop_first(&mut self)
        requires { 0 < self.old.count }
        ensures { view_of self.new ≡ without_first (view_of self.old) }
    {
        let at = (self.first % self.terms.slots as u64) as usize;
        let len = self.held.len_at(at) as u64;
        self.first += 1;
        self.count -= 1;
        self.waiting -= len;
    }

    /// Closes the writer. What it holds and fills stays as it is.
    pub(crate) fn close_by(&mut self, refusal: Refusal) -> Refusal
        ensures value { result ≡ refusal }
        ensures view { view_of self.new ≡ with_state Closed (view_of self.old) }
    {
        self.state = State::Closed;
        refusal
    }

    // The last packet is confirmed.
    fn complete(&mut self)
        requires count_nonzero { 0 < self.old.count }
        requires state_value { ended self.old.state ≡ true }
        ensures { view_of self.new ≡ with_state Complete (without_first (view_of self.old)) }
    {
        self.drop_first();
        self.state = State::Complete;
    }

    // Does what was decided.
    fn hear(&mut self, heard: Result<Option<Verdict>, AskError>) -> Result<Heeded, Refusal>
        requires listens { listens self.old.state ≡ true }
        requires tallied { (f : FailedNodes) → heard ≡ Ok (Some (Failed f)) → IsTallied f }
        ensures result { result ≡ answer_of (decided (view_of self.old) heard) }
        ensures view { let v = view_of self.old in
            view_of self.new ≡ view_after v (decided v heard) }
    {
        match self.decide(heard) {
            Decision::Wait => Ok(Heeded::Nothing),
            Decision::Beat => Ok(Heeded::HeartBeat),
            Decision::Break(cause) => {
                self.break_by(cause);
                Ok(Heeded::Broken(cause))
            }
            Decision::Close(refusal) => Err(self.close_by(refusal)),
            Decision::Confirm(seqno) => {
                self.drop_first();
                Ok(Heeded::Confirmed(seqno))
            }
            Decision::Complete(seqno) => {
                self.complete();
                Ok(Heeded::Complete(seqno))
            }
        }
    }

    // Asks the link once, and does what its answer decides.
    fn ask_link<L: Link>(&mut self, link: &mut L, answer: &mut [u8]) -> Result<Heeded, Refusal>
        requires { listens self.old.state ≡ true }
        ensures { Heeds L.Link (listener_of self.old link.old answer.old) result
            (listener_of self.new link.new answer.new) }
    {
        let heard = ask(link, answer);
        self.hear(heard)
    }

    /// Asks the pipeline once for an answer, and does what it says.
    pub fn heed<L: Link>(
        &mut self,
        link: &mut L,
        store: &[u8],
        frame: &[u8],
        request: &[u8],
        answer: &mut [u8],
    ) -> Result<Heeded, Refusal>
        ensures { let lengths = lengths_of store.now frame.now request.now answer.old in
            let before = listener_of self.old link.old answer.old in
            let after = listener_of self.new link.new answer.new in
            UnlessRefused (refusal_for (view_of self.old) call.Heed lengths)
            (Heeds L.Link) before result after }
    {
        self.admit(Call::Heed, Lengths::of(store, frame, request, answer))?;
        self.ask_link(link, answer)
    }
}
