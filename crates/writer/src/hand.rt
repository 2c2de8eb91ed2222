//! A packet handed over: held, and its frame put.
ghost use Rattle.std.specs.Prelude.{◌≡◌, ◌+◌, ◌<◌, ◌≤◌, length, take, drop, if◌then◌else◌, is_ok};
ghost use Rattle.packet.specs.Frame.{octets_of, over};
ghost use Rattle.writer.specs.declared.cause.Cause.TheVariants.{Put};
ghost use Rattle.ack.specs.Failures.{IsTallied};
ghost use Rattle.writer.specs.Causes.{failed_in};
ghost use Rattle.writer.specs.Sizes.{Suffice};
ghost use Rattle.writer.specs.States.{ended, last_ones};
ghost use Rattle.writer.specs.Views.{view_of, next_of, with_held, broken_by, outgoing};

use crate::cause::Cause;
use crate::state::Writer;
use crate::state::kind::State;
use chain::link::{Link, LinkLost};
use packet::frame::WritePacket;
use packet::size::PacketSize;
use sending::put::put_packet;

// So many bytes of the store, from there on.
pub(crate) fn bytes_at(store: &[u8], from: usize, len: usize) -> &[u8]
    requires { from + len ≤ length store.now }
    ensures { result.now ≡ take len (drop from store.now) }
{
    &store[from..from + len]
}

impl State {
    /// Whether the last packet is handed over.
    pub(crate) fn has_ended(&self) -> bool
        ensures { result ≡ ended self.now }
    {
        match *self {
            State::Finishing | State::Complete => true,
            State::Broken { finished, .. } => finished,
            State::Streaming | State::Closed => false,
        }
    }
}

impl Writer {
    /// Breaks the pipeline.
    pub(crate) fn break_by(&mut self, cause: Cause)
        requires state_value { last_ones self.old.state ≡ (if ended self.old.state then 1 else 0) }
        requires tallied { IsTallied (failed_in cause) }
        ensures { view_of self.new ≡ broken_by cause (view_of self.old) }
    {
        let finished = self.state.has_ended();
        self.state = State::Broken { cause, finished };
    }

    // Puts the frame of the packet being filled.
    fn put_outgoing<L: Link>(
        &self,
        link: &mut L,
        store: &[u8],
        frame: &mut [u8],
    ) -> Result<(), LinkLost>
        requires buffers { Suffice self.now.terms store.now frame.old }
        ensures put { L.Link.puts link.old (octets_of (outgoing (view_of self.now) store.now))
            (is_ok result) link.new }
        ensures frame { frame.new ≡ over (outgoing (view_of self.now) store.now) frame.old }
    {
        let packet = WritePacket {
            offset: self.len - self.filling as u64,
            seqno: self.first + self.count as u64,
            last: self.state.has_ended(),
            data: bytes_at(store, self.slot_start(), self.filling),
        };
        put_packet(link, packet, self.terms.size.chunk_size(), frame)
    }

    /// Hands the packet being filled over: it is held, the next one begins, and its frame is put. Where the frame was lost the pipeline is
    /// broken.
    // What `hold` asks for is asked for here too: a turn and a finish look at it before they hand a packet over.
    pub(crate) fn hand_over<L: Link>(
        &mut self,
        link: &mut L,
        store: &[u8],
        frame: &mut [u8],
    ) -> Result<(), LinkLost>
        requires buffers { Suffice self.old.terms store.now frame.old }
        requires count_bound { self.old.count + 1 < self.old.terms.slots }
        requires initial_len_bound { self.old.first + self.old.count + 1
            + self.old.terms.initial_len
            ≤ self.old.len + last_ones self.old.state }
        requires state_value { last_ones self.old.state ≡ (if ended self.old.state then 1 else 0) }
        ensures put { L.Link.puts link.old (octets_of (outgoing (view_of self.old) store.now))
            (is_ok result) link.new }
        ensures frame { frame.new ≡ over (outgoing (view_of self.old) store.now) frame.old }
        ensures view { view_of self.new ≡ (if is_ok result then with_held (view_of self.old)
            else broken_by (Put (next_of (view_of self.old))) (with_held (view_of self.old))) }
    {
        let seqno = self.first + self.count as u64;
        let put = self.put_outgoing(link, store, frame);
        self.hold();
        if put.is_err() {
            self.break_by(Cause::Put(seqno));
        }
        put
    }
}
