//! What can be seen of a bench's nodes.
ghost use Rattle.std.specs.Prelude.{◌≡◌, ◌<◌, ◌≤◌, length, take, Some, None};
ghost use Rattle.spool.specs.Spools.{spool_view, first_number};

use crate::state::Bench;

impl Bench {
    /// The bytes that all nodes have confirmed.
    pub fn kept(&self) -> &[u8]
        ensures { result.now
            ≡ take (spool_view self.now.lead).kept (spool_view self.now.lead).bytes }
    {
        self.lead.kept()
    }

    /// How many packets wait for their confirmation.
    pub fn pending(&self) -> usize
        ensures { result ≡ length (spool_view self.now.lead).pending }
    {
        self.lead.pending()
    }

    /// The number of the first packet that waits.
    pub fn first(&self) -> Option<u64>
        ensures { result ≡ first_number (spool_view self.now.lead).pending }
    {
        self.lead.first()
    }

    /// How many nodes have a replica.
    pub fn replicas(&self) -> usize
        ensures { result ≡ length self.now.mirrors.items }
    {
        self.mirrors.len()
    }

    /// What a node behind the first holds, pending packets with it: the same as the first one.
    pub fn replica(&self, i: usize) -> Option<&[u8]>
        ensures { elim result [
          | Some x ↦ (i < length self.now.mirrors.items)
              × (x.now ≡ (spool_view self.now.lead).bytes)
          | None ↦ length self.now.mirrors.items ≤ i
        ] }
    {
        let replica = self.mirrors.get(i)?;
        Some(replica.as_slice())
    }
}
