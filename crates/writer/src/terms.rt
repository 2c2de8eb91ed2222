//! What is settled at the opening of a block, and stays.
ghost use Rattle.std.specs.Prelude.{◌≡◌};
ghost use Rattle.writer.specs.Sizes.{capacity, room_at};

use packet::size::PacketSize;
use proto::fixed::Fixed;
use replace::datanode::ReplaceDatanodeOnFailure;

#[derive(Clone, Copy)]
pub struct Terms {
    pub size: PacketSize,
    /// How many slots the store has.
    pub slots: usize,
    pub store_len: usize,
    pub block_size: u64,
    /// How many bytes the block had when it was opened.
    pub initial_len: u64,
    pub replication: u32,
    pub replace: ReplaceDatanodeOnFailure,
    pub pool_id: Fixed<64>,
    pub block_id: u64,
    pub client_name: Fixed<64>,
}

impl Terms {
    /// How many bytes packet `seqno` takes. The first one of an append only ends the chunk that was begun.
    pub fn capacity_at(self, seqno: u64) -> usize
        ensures { result ≡ room_at self seqno }
    {
        if seqno == 0 {
            return self.size.first_capacity(self.initial_len);
        }
        self.size.capacity()
    }
}
