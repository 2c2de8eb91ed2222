//! The table of held packets. A packet's number says which record and which slot of the caller's store are its own.
ghost use Rattle.std.specs.Prelude.{◌≡◌, ◌<◌, length, replicate, IfOk, vec_len, slice_index, slice_index_or, slice_set};

use std::alloc::{AllocError, Global};

/// The most packets that a store has slots for.
pub const SLOTS: usize = 101;

/// What is known of a held packet besides its slot: how many of the slot's bytes are its own. Its number, its offset and whether it is the
/// last follow from those before it.
#[derive(Clone, Copy, Debug, PartialEq, Eq)]
pub struct HeldPacket {
    pub len: usize,
}

/// A record for each slot that a store may have.
#[derive(Drop)]
// A record stands at the number of the packet's slot in the caller's store.
pub struct HeldTable {
    pub records: Vec<HeldPacket>,
    ghost table: { vec_len records ≡ 101 },
}

impl HeldTable {
    ghost use Rattle.std.specs.Borrow.{sem, follows};
    ghost use Rattle.std.specs.Vec.{with_item};
    ghost use Rattle.held.specs.Slots.{sizes_of};
    ghost use Rattle.held.specs.contracts.table.HeldTable.{the_row};
    ghost use Rattle.held.specs.contracts.table.HeldPacket.{the_row as packet-row};

    /// A table with a record for each slot that there may be. This alone takes memory.
    pub fn new(heap: Global) -> Result<HeldTable, AllocError>
        ensures { IfOk result (λ t. sizes_of t.records.items ≡ replicate 101 0) }
    {
        let records = vec![in heap; HeldPacket { len: 0 }; SLOTS]?;
        Ok(HeldTable { records })
    }

    /// One record, lent to be changed.
    pub fn record(&mut self, i: usize) -> &mut HeldPacket
        requires { i < vec_len self.old.records }
        ensures* follows { sem 𝓛 (follows the_row packet-row
            self.entry.ghost_name result.ghost_name
            (λ w. record { records = with_item self.old.records i w; table = self.old.table })) }
        ensures value { result.now ≡ slice_index_or self.old.records.items i result.now }
    {
        &mut self.records[i]
    }

    /// Notes how many bytes the packet of that slot has. A slot past the last changes nothing.
    pub fn note(&mut self, i: usize, len: usize)
        ensures { sizes_of self.new.records.items
            ≡ slice_set (sizes_of self.old.records.items) i len }
    {
        if i < self.records.len() {
            self.record(i).len = len;
        }
    }

    /// How many bytes the packet of that slot has. A slot past the last has none.
    pub fn len_at(&self, i: usize) -> usize
        ensures { result ≡ slice_index (sizes_of self.now.records.items) i }
    {
        match self.records.get(i) {
            Some(record) => record.len,
            None => 0,
        }
    }
}
