//! The end of a block.
ghost use Rattle.std.specs.Prelude.{◌≡◌, ◌+◌, ◌<◌, ◌≤◌, not, length, ◌==◌};
ghost use Rattle.std.specs.Result.{result_err};
ghost use Rattle.writer.specs.declared.admit.Call.TheVariants as call;
ghost use Rattle.writer.specs.declared.state.kind.State.TheVariants.{Streaming};
ghost use Rattle.writer.specs.Admits.{lengths_of};
ghost use Rattle.writer.specs.Calls.{streamer_of, UnlessRefused};
ghost use Rattle.writer.specs.Sizes.{Suffice};
ghost use Rattle.writer.specs.Views.{view_of};
ghost use Rattle.writer.specs.Finishing.{closing_packets, finish_refusal, unsent_last, Ends, Empties, EndsIf, Finishes};

use crate::admit::{Call, Lengths};
use crate::cause::Cause;
use crate::refusal::Refusal;
use crate::state::Writer;
use crate::state::kind::State;
use chain::link::{Link, LinkLost};

/// What the end of a block came to.
#[derive(Clone, Copy, Debug, PartialEq, Eq)]
pub struct Finished {
    /// Whether a frame was lost, so that the pipeline is broken. No error: the packets are held, and a recovery puts them again.
    pub put_lost: bool,
}

impl Writer {
    // Whether a finish is to be acted on: the closing packets need places too.
    fn admit_finish(&self, lengths: Lengths) -> Result<(), Refusal>
        ensures { result_err result ≡ finish_refusal (view_of self.now) lengths }
    {
        self.admit(Call::Finish, lengths)?;
        let packets = if self.filling == 0 { 1 } else { 2 };
        if self.count + packets >= self.terms.slots {
            return Err(Refusal::Places);
        }
        Ok(())
    }

    // Hands over the empty last packet.
    // Room for the packets that end the block was looked at once, by `admit_finish`, which refuses where there is none.
    fn end<L: Link>(&mut self, link: &mut L, store: &[u8], frame: &mut [u8]) -> Finished
        requires state_value { self.old.state ≡ Streaming }
        requires buffers { Suffice self.old.terms store.now frame.old }
        requires filling_value { self.old.filling ≡ 0 }
        requires count_bound { self.old.count + 1 < self.old.terms.slots }
        ensures { Ends L.Link (streamer_of self.old store.now frame.old link.old) result
            (streamer_of self.new store.now frame.new link.new) }
    {
        self.state = State::Finishing;
        let put = self.hand_over(link, store, frame);
        Finished {
            put_lost: put.is_err(),
        }
    }

    // Holds the last packet, which is not sent, since the one before it was lost.
    // The numbers are asked to stay within the length: no type says that the last packet is not counted yet.
    fn hold_last(&mut self, seqno: u64)
        requires filling_value { self.old.filling ≡ 0 }
        requires count_bound { self.old.count + 1 < self.old.terms.slots }
        requires initial_len_bound { self.old.first + self.old.count + self.old.terms.initial_len
            ≤ self.old.len }
        ensures { view_of self.new ≡ unsent_last seqno (view_of self.old) }
    {
        self.state = State::Broken {
            cause: Cause::Put(seqno),
            finished: true,
        };
        self.hold();
    }

    // Hands over the packet being filled, and then the last one.
    fn empty<L: Link>(&mut self, link: &mut L, store: &[u8], frame: &mut [u8]) -> Finished
        requires state_value { self.old.state ≡ Streaming }
        requires buffers { Suffice self.old.terms store.now frame.old }
        requires filling_nonzero { 0 < self.old.filling }
        requires count_bound { self.old.count + 2 < self.old.terms.slots }
        ensures { Empties L.Link (streamer_of self.old store.now frame.old link.old) result
            (streamer_of self.new store.now frame.new link.new) }
    {
        let seqno = self.first + self.count as u64;
        match self.hand_over(link, store, frame) {
            Ok(()) => self.end(link, store, frame),
            Err(LinkLost) => {
                self.hold_last(seqno);
                Finished { put_lost: true }
            }
        }
    }

    fn end_block<L: Link>(&mut self, link: &mut L, store: &[u8], frame: &mut [u8]) -> Finished
        requires state_value { self.old.state ≡ Streaming }
        requires buffers { Suffice self.old.terms store.now frame.old }
        requires self_bound { self.old.count + closing_packets (view_of self.old)
            < self.old.terms.slots }
        ensures { EndsIf L.Link (self.old.filling == 0)
            (streamer_of self.old store.now frame.old link.old) result
            (streamer_of self.new store.now frame.new link.new) }
    {
        if self.filling == 0 {
            return self.end(link, store, frame);
        }
        self.empty(link, store, frame)
    }

    /// Hands over the packet being filled, if it has data, and the empty last packet. After a loss the last one is held and not sent.
    pub fn finish<L: Link>(
        &mut self,
        link: &mut L,
        store: &[u8],
        frame: &mut [u8],
        request: &[u8],
        answer: &[u8],
    ) -> Result<Finished, Refusal>
        ensures { let lengths = lengths_of store.now frame.old request.now answer.now in
            let before = streamer_of self.old store.now frame.old link.old in
            let after = streamer_of self.new store.now frame.new link.new in
            UnlessRefused (finish_refusal (view_of self.old) lengths)
            (Finishes L.Link) before result after }
    {
        self.admit_finish(Lengths::of(store, frame, request, answer))?;
        Ok(self.end_block(link, store, frame))
    }
}
