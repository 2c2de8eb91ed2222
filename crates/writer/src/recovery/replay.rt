//! Held packets put again.
ghost use Rattle.std.specs.Prelude.{◌≡◌, ◌+◌, ◌-◌, ◌<◌, ◌≤◌, length, is_ok};
ghost use Rattle.packet.specs.Frame.{octets_of, over};
ghost use Rattle.held.specs.Slots.{sizes_of, size_at, last_at};
ghost use Rattle.writer.specs.Sizes.{capacity, Suffice};
ghost use Rattle.writer.specs.Stages.{ReplaysOn};
ghost use Rattle.writer.specs.Views.{view_of, held_packet, least_of};

use crate::hand::bytes_at;
use crate::recovery::{Replayed, SetUp};
use crate::state::Writer;
use crate::state::kind::State;
use chain::link::{Link, LinkLost};
use held::table::HeldTable;
use packet::frame::WritePacket;
use packet::size::PacketSize;
use sending::put::put_packet;

impl Writer {
    // How many bytes the packet of that number has in its slot.
    fn held_len(&self, seqno: u64) -> usize
        ensures value { result
            ≡ size_at self.now.terms.slots (sizes_of self.now.held.records.items) seqno }
        ensures within { result ≤ capacity self.now.terms }
    {
        let at = (seqno % self.terms.slots as u64) as usize;
        self.held.len_at(at)
    }

    // Puts the frame of a held packet.
    fn put_held<L: Link>(
        &self,
        link: &mut L,
        store: &[u8],
        frame: &mut [u8],
        seqno: u64,
        offset: u64,
        last: bool,
    ) -> Result<(), LinkLost>
        requires buffers { Suffice self.now.terms store.now frame.old }
        ensures put { L.Link.puts link.old
            (octets_of (held_packet (view_of self.now) store.now offset seqno last))
            (is_ok result) link.new }
        ensures frame { frame.new
            ≡ over (held_packet (view_of self.now) store.now offset seqno last) frame.old }
    {
        let packet = WritePacket {
            offset,
            seqno,
            last,
            data: bytes_at(store, self.slot_of(seqno), self.held_len(seqno)),
        };
        put_packet(link, packet, self.terms.size.chunk_size(), frame)
    }
}

// Whether the packet at that place of the held ones is the block's last.
fn is_last(finished: bool, i: usize, count: usize) -> bool
    requires { i < count }
    ensures { result ≡ last_at finished (count - i - 1) }
{
    finished && i + 1 == count
}

impl SetUp {
    /// Puts all held packets again, by number. One that is lost ends this.
    // `least` is asked to be this writer's: with the held packets' bytes it stays within the block's length, so that no offset wraps.
    pub(crate) fn replay<L: Link>(
        self,
        link: &mut L,
        writer: &Writer,
        store: &[u8],
        frame: &mut [u8],
    ) -> Replayed
        requires least_value { self.least ≡ least_of (view_of writer.now) }
        requires buffers { Suffice writer.now.terms store.now frame.old }
        ensures { ReplaysOn L.Link (view_of writer.now) store.now self frame.old link.old
            result frame.new link.new }
    {
        let SetUp { least, stamp } = self;
        let finished = writer.state.has_ended();
        let mut offset = least;
        // By the place among the held packets: their number, their slot and the block's end follow from it.
        'packets: for i in 0..writer.count {
            let seqno = writer.first + i as u64;
            let last = is_last(finished, i, writer.count);
            let put = writer.put_held(link, store, frame, seqno, offset, last);
            if put.is_err() {
                return Replayed {
                    stamp,
                    replayed: i,
                    lost: Some(seqno),
                };
            }
            offset += writer.held_len(seqno) as u64;
        }
        Replayed {
            stamp,
            replayed: writer.count,
            lost: None,
        }
    }
}
