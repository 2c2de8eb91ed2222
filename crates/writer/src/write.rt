//! Bytes taken, and full packets handed over.
ghost use Rattle.std.specs.Prelude.{◌≡◌, ◌≤◌, length};
ghost use Rattle.writer.specs.declared.admit.Call.TheVariants as call;
ghost use Rattle.writer.specs.declared.state.kind.State.TheVariants.{Streaming};
ghost use Rattle.writer.specs.Admits.{refusal_for, lengths_of};
ghost use Rattle.writer.specs.Calls.{streamer_of, UnlessRefused};
ghost use Rattle.writer.specs.Sizes.{Suffice};
ghost use Rattle.writer.specs.Views.{view_of};
ghost use Rattle.writer.specs.Writing.{Turns, Writes, Wrote};

use crate::admit::{Call, Lengths};
use crate::refusal::Refusal;
use crate::state::Writer;
use chain::link::{Link, LinkLost};

/// What a turn of a write came to.
#[derive(Clone, Copy)]
pub enum Turned {
    /// Nothing can be done.
    Stopped,
    /// So many bytes were taken.
    Poured(usize),
    /// A full packet was handed over.
    Handed,
    /// A full packet was handed over, and its frame was lost.
    Lost,
}

/// What a write came to.
#[derive(Clone, Copy, Debug, PartialEq, Eq)]
pub struct Written {
    /// How many bytes were taken.
    pub taken: usize,
    /// Whether a frame was lost, so that the pipeline is broken. No error: what was taken counts all the same.
    pub put_lost: bool,
}

impl Writer {
    // One turn: a full packet is handed over while there is a slot for the next, and one that is not full takes bytes.
    fn turn<L: Link>(
        &mut self,
        link: &mut L,
        store: &mut [u8],
        frame: &mut [u8],
        bytes: &[u8],
    ) -> Turned
        requires state_value { self.old.state ≡ Streaming }
        requires buffers { Suffice self.old.terms store.old frame.old }
        ensures { Turns L.Link bytes.now (streamer_of self.old store.old frame.old link.old) result
            (streamer_of self.new store.new frame.new link.new) }
    {
        if self.filling < self.packet_capacity() {
            if self.room_for(bytes.len()) == 0 {
                return Turned::Stopped;
            }
            return Turned::Poured(self.take_in(store, bytes));
        }
        if self.count + 1 >= self.terms.slots {
            return Turned::Stopped;
        }
        match self.hand_over(link, store, frame) {
            Ok(()) => Turned::Handed,
            Err(LinkLost) => Turned::Lost,
        }
    }

    // Turn by turn, until nothing can be done or a frame is lost.
    fn pour<L: Link>(
        &mut self,
        link: &mut L,
        store: &mut [u8],
        frame: &mut [u8],
        bytes: &[u8],
    ) -> Written
        requires state_value { self.old.state ≡ Streaming }
        requires buffers { Suffice self.old.terms store.old frame.old }
        ensures { Writes L.Link (streamer_of self.old store.old frame.old link.old) bytes.now
            result.taken result.put_lost (streamer_of self.new store.new frame.new link.new) }
    {
        // A place that runs along: how many bytes a turn takes is known after it alone, and their number is what the write answers.
        let mut taken = 0;
        'turns: loop {
            match self.turn(link, store, frame, &bytes[taken..]) {
                Turned::Stopped => {
                    return Written {
                        taken,
                        put_lost: false,
                    };
                }
                Turned::Poured(n) => taken += n,
                Turned::Handed => {}
                Turned::Lost => {
                    return Written {
                        taken,
                        put_lost: true,
                    };
                }
            }
        }
    }

    /// Takes bytes as far as slots and block reach, and hands over each packet that is full while there is a slot for the next.
    pub fn write<L: Link>(
        &mut self,
        link: &mut L,
        store: &mut [u8],
        frame: &mut [u8],
        request: &[u8],
        answer: &[u8],
        bytes: &[u8],
    ) -> Result<Written, Refusal>
        ensures { let lengths = lengths_of store.old frame.old request.now answer.now in
            let before = streamer_of self.old store.old frame.old link.old in
            let after = streamer_of self.new store.new frame.new link.new in
            UnlessRefused (refusal_for (view_of self.old) call.Write lengths)
            (Wrote L.Link bytes.now) before result after }
    {
        self.admit(Call::Write, Lengths::of(store, frame, request, answer))?;
        Ok(self.pour(link, store, frame, bytes))
    }
}
