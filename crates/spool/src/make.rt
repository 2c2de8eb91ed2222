//! A spool made over a buffer of the caller's, and what can be seen of it.
ghost use Rattle.std.specs.Prelude.{◌≡◌, [], length, take, min, IfOk, vec_capacity};
ghost use Rattle.spool.specs.Spools.{spool_view, fresh, first_number};

use crate::state::{NODES, PENDING, Spool};
use std::alloc::{AllocError, Global};
use std::collections::VecDeque;

impl Spool {
    /// The first of at most `most` nodes, and of no more than eight. It keeps the bytes of `buffer`, and never more than the buffer has room
    /// for. What it holds besides, a number of bytes for each packet that waits, is taken here, so that no call allocates later.
    pub fn over(heap: Global, buffer: Vec<u8>, most: u64) -> Result<Spool, AllocError>
        ensures { IfOk result
            (λ s. spool_view s ≡ fresh buffer.items (vec_capacity buffer) (min most 8)) }
    {
        let pending = VecDeque::with_capacity(heap, PENDING)?;
        let kept = buffer.len();
        let limit = buffer.capacity();
        Ok(Spool {
            bytes: buffer,
            pending,
            kept,
            limit,
            most: most.min(NODES),
            nodes: 0,
            chunk: 0,
        })
    }

    /// The bytes that are confirmed.
    pub fn kept(&self) -> &[u8]
        ensures { result.now ≡ take self.now.kept self.now.bytes.items }
    {
        let all = self.bytes.as_slice();
        &all[0..self.kept]
    }

    /// How many bytes there is room for in all.
    pub fn limit(&self) -> usize
        ensures { result ≡ self.now.limit }
    {
        self.limit
    }

    /// The number of the first packet that waits.
    pub fn first(&self) -> Option<u64>
        ensures { result ≡ first_number self.now.pending.items }
    {
        Some(self.pending.front()?.seqno)
    }

    /// How many packets wait for their confirmation.
    pub fn pending(&self) -> usize
        ensures { result ≡ length self.now.pending.items }
    {
        self.pending.len()
    }
}
