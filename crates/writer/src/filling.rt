//! The packet being filled: bytes taken in, and the packet held.
ghost use Rattle.std.specs.Prelude.{◌≡◌, ◌+◌, ◌*◌, ◌%◌, ◌<◌, ◌≤◌, false, length, take};
ghost use borrow.Rule.Slice.PartMut.{put_mid};
ghost use Rattle.writer.specs.Sizes.{capacity, room_at};
ghost use Rattle.writer.specs.States.{ended, last_ones};
ghost use Rattle.writer.specs.Views.{view_of, with_bytes, with_held, slot_start};
ghost use Rattle.writer.specs.Writing.{amount};

use crate::state::Writer;
use crate::terms::Terms;
use held::table::HeldTable;
use packet::size::PacketSize;

impl Writer {
    /// How many bytes the packet being filled has room for.
    pub(crate) fn packet_capacity(&self) -> usize
        ensures { result ≡ room_at self.now.terms (self.now.first + self.now.count) }
    {
        self.terms.capacity_at(self.first + self.count as u64)
    }

    // Where the slot of the packet of that number begins.
    pub(crate) fn slot_of(&self, seqno: u64) -> usize
        ensures value { result ≡ (seqno % self.now.terms.slots) * capacity self.now.terms }
        ensures within { result + capacity self.now.terms ≤ self.now.terms.store_len }
    {
        let at = (seqno % self.terms.slots as u64) as usize;
        at * self.terms.size.capacity()
    }

    // Where the slot of the packet being filled begins.
    pub(crate) fn slot_start(&self) -> usize
        ensures value { result ≡ slot_start (view_of self.now) }
        ensures within { result + capacity self.now.terms ≤ self.now.terms.store_len }
    {
        self.slot_of(self.first + self.count as u64)
    }

    /// How many of `n` bytes the packet and the block have room for.
    pub(crate) fn room_for(&self, n: usize) -> usize
        ensures value { result ≡ amount (view_of self.now) n }
        ensures within { (result ≤ n)
            × (self.now.filling + result
            ≤ room_at self.now.terms (self.now.first + self.now.count))
            × (self.now.len + result ≤ self.now.terms.block_size) }
    {
        let room = self.packet_capacity() - self.filling;
        let left = (self.terms.block_size - self.len) as usize;
        n.min(room).min(left)
    }

    /// Takes as many of the bytes as the packet and the block have room for.
    pub(crate) fn take_in(&mut self, store: &mut [u8], bytes: &[u8]) -> usize
        requires store_len { length store.old ≡ self.old.terms.store_len }
        requires state_value { ended self.old.state ≡ false }
        ensures taken { result ≡ amount (view_of self.old) (length bytes.now) }
        ensures view { view_of self.new ≡ with_bytes result (view_of self.old) }
        ensures lies { store.new ≡ put_mid (slot_start (view_of self.old) + self.old.filling) result
            store.old (take result bytes.now) }
    {
        let n = self.room_for(bytes.len());
        let from = self.slot_start() + self.filling;
        store[from..from + n].copy_from_slice(&bytes[0..n]);
        self.filling += n;
        self.len += n as u64;
        n
    }

    /// Holds the packet being filled, and begins the next.
    // Room for one packet more is asked for (`count_bound`), and is no invariant: a writer whose store is full is one too, and waits.
    // So are numbers within the length (`initial_len_bound`): the packet has bytes or is the last, which its call knows and no type says.
    pub(crate) fn hold(&mut self)
        requires count_bound { self.old.count + 1 < self.old.terms.slots }
        requires initial_len_bound { self.old.first + self.old.count + 1
            + self.old.terms.initial_len
            ≤ self.old.len + last_ones self.old.state }
        ensures { view_of self.new ≡ with_held (view_of self.old) }
    {
        let seqno = self.first + self.count as u64;
        let at = (seqno % self.terms.slots as u64) as usize;
        self.held.note(at, self.filling);
        self.waiting += self.filling as u64;
        self.count += 1;
        self.filling = 0;
    }
}
