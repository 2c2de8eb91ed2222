//! A heartbeat, so that a pipeline without packets is not given up.
ghost use Rattle.std.specs.Prelude.{◌≡◌, ◌+◌, ◌≤◌, length};
ghost use Rattle.writer.specs.declared.admit.Call.TheVariants as call;
ghost use Rattle.writer.specs.declared.state.kind.State.TheVariants.{Streaming};
ghost use Rattle.writer.specs.Admits.{refusal_for, lengths_of};
ghost use Rattle.writer.specs.Calls.{streamer_of, UnlessRefused};
ghost use Rattle.writer.specs.Sizes.{frame_room};
ghost use Rattle.writer.specs.Views.{view_of};
ghost use Rattle.writer.specs.Beating.{is_due, PutsBeat, BeatsIf, Beats};

use crate::admit::{Call, Lengths};
use crate::cause::Cause;
use crate::refusal::Refusal;
use crate::state::Writer;
use chain::link::{Link, LinkLost};
use packet::frame::WritePacket;
use packet::header::HEART_BEAT_SEQNO;
use packet::size::PacketSize;
use sending::put::put_packet;

/// A heartbeat is put when so many seconds have passed.
pub const HEARTBEAT_INTERVAL_SECONDS: u64 = 30;

/// What came of a beat. None of the three is an error: the call was acted on.
#[derive(Clone, Copy, Debug, PartialEq, Eq)]
pub enum Beat {
    /// It is not time yet.
    Idle,
    /// A heartbeat was put.
    Put,
    /// A heartbeat was lost, and the pipeline is broken.
    Lost,
}

impl Writer {
    // Whether a heartbeat is due. A clock that went back is not past anything.
    fn is_due(&self, time: u64) -> bool
        ensures { result ≡ is_due (view_of self.now) time }
    {
        time >= self.beaten && time - self.beaten >= HEARTBEAT_INTERVAL_SECONDS
    }

    // Puts a heartbeat.
    fn put_beat<L: Link>(
        &mut self,
        link: &mut L,
        store: &[u8],
        frame: &mut [u8],
        time: u64,
    ) -> Result<Beat, Refusal>
        requires state_value { self.old.state ≡ Streaming }
        requires frame_len { frame_room self.old.terms ≤ length frame.old }
        ensures { PutsBeat L.Link time (streamer_of self.old store.now frame.old link.old) result
            (streamer_of self.new store.now frame.new link.new) }
    {
        let packet = WritePacket {
            offset: 0,
            seqno: HEART_BEAT_SEQNO,
            last: false,
            data: &[],
        };
        let put = put_packet(link, packet, self.terms.size.chunk_size(), frame);
        self.beaten = time;
        match put {
            Ok(()) => Ok(Beat::Put),
            Err(LinkLost) => {
                self.break_by(Cause::Put(HEART_BEAT_SEQNO));
                Ok(Beat::Lost)
            }
        }
    }

    /// Puts a heartbeat if it is time, which is told in seconds.
    pub fn beat<L: Link>(
        &mut self,
        link: &mut L,
        store: &[u8],
        frame: &mut [u8],
        request: &[u8],
        answer: &[u8],
        time: u64,
    ) -> Result<Beat, Refusal>
        ensures { let lengths = lengths_of store.now frame.old request.now answer.now in
            let before = streamer_of self.old store.now frame.old link.old in
            let after = streamer_of self.new store.now frame.new link.new in
            UnlessRefused (refusal_for (view_of self.old) call.Beat lengths)
            (Beats L.Link time) before result after }
    {
        self.admit(Call::Beat, Lengths::of(store, frame, request, answer))?;
        self.beat_if_due(link, store, frame, time)
    }

    fn beat_if_due<L: Link>(
        &mut self,
        link: &mut L,
        store: &[u8],
        frame: &mut [u8],
        time: u64,
    ) -> Result<Beat, Refusal>
        requires state_value { self.old.state ≡ Streaming }
        requires frame_len { frame_room self.old.terms ≤ length frame.old }
        ensures { BeatsIf L.Link (is_due (view_of self.old) time) time
            (streamer_of self.old store.now frame.old link.old) result
            (streamer_of self.new store.now frame.new link.new) }
    {
        if !self.is_due(time) {
            return Ok(Beat::Idle);
        }
        self.put_beat(link, store, frame, time)
    }
}
