//! What the spool does at each call, apart from the messages.
ghost use Rattle.std.specs.Prelude.{◌≡◌, ◌+◌, ◌<◌, ◌≤◌, ◌∷◌, length, Some, vec_len};
ghost use Rattle.std.specs.VecDeque.{deque_len};
ghost use Rattle.spool.specs.Spools.{spool_view, sets_up, rebuilt_to, with_pending, takes, packet_of, confirms_first};

use crate::pending::Pending;
use crate::state::{PENDING, Spool};
use packet::read::Frame;
use packet::sums::sums_match;
use request::setup::Setup;

impl Spool {
    // Keeps the first bytes, and forgets what is pending.
    pub(crate) fn rebuild(&mut self, least: usize, nodes: u64, chunk: u32)
        requires { (least ≤ self.old.kept) × (nodes ≤ 8) }
        ensures { spool_view self.new ≡ rebuilt_to (spool_view self.old) least nodes chunk }
    {
        self.bytes.truncate(least);
        self.pending.clear();
        self.kept = least;
        self.nodes = nodes;
        self.chunk = chunk;
    }

    // Whether a set up is for as many nodes as may be, over chunks whose size has 32 bits, and with no more bytes than are kept.
    pub(crate) fn sets_up(&self, setup: Setup, least: u64) -> bool
        ensures { result ≡ sets_up (spool_view self.now) (Some setup) least }
    {
        setup.pipeline_size > 0
            && setup.pipeline_size <= self.most
            && setup.chunk_size <= 0xffff_ffff
            && least <= self.kept as u64
    }

    // Whether a packet begins at the end of what is there, has right sums, and finds a place and room.
    pub(crate) fn takes(&self, frame: Frame<'_>) -> bool
        ensures { result ≡ takes (spool_view self.now) (packet_of frame.entry) }
    {
        let packet = frame.packet;
        packet.offset == self.bytes.len() as u64
            && sums_match(frame.sums, packet.data, self.chunk)
            && self.pending.len() < PENDING
            && self.bytes.len() <= self.limit
            && packet.data.len() <= self.limit - self.bytes.len()
    }

    // Adds a packet to those that wait.
    pub(crate) fn hold(&mut self, frame: Frame<'_>)
        requires { (deque_len self.old.pending < 128)
            × (vec_len self.old.bytes + length frame.packet.«data».now ≤ self.old.limit) }
        ensures { spool_view self.new ≡ with_pending (spool_view self.old) (packet_of frame.entry) }
    {
        let packet = frame.packet;
        let waiting = Pending {
            seqno: packet.seqno,
            last: packet.last,
            len: packet.data.len(),
        };
        let _ = self.pending.push_back(waiting);
        let _ = self.bytes.extend_from_slice(packet.data);
    }

    /// Confirms the first packet, where one waits. A link that hears its answers elsewhere calls it, as `next` does.
    pub fn confirm(&mut self)
        ensures { spool_view self.new ≡ confirms_first (spool_view self.old) }
    {
        if let Some(first) = self.pending.pop_front() {
            self.kept += first.len;
        }
    }
}
