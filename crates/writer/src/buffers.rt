//! The four buffers that a writer's calls are lent.
ghost use Rattle.std.specs.Prelude.{◌≡◌, ◌*◌, ◌≤◌, None, IfOk, vec_len};
ghost use Rattle.packet.specs.Sizes.{capacity_of, frame_capacity_of};
ghost use Rattle.writer.specs.declared.opening.Opening.{Opening};
ghost use Rattle.writer.specs.Admits.{lengths_of};
ghost use Rattle.writer.specs.Opening.{by_buffers};

use crate::admit::MESSAGE_LEN;
use held::table::SLOTS;
use packet::size::PacketSize;
use std::alloc::{AllocError, Global};

/// A writer uses so many slots of its store at most.
pub const MOST_SLOTS: usize = SLOTS;

/// What the calls of one writer are lent: the store that its packets lie in, the frame that is put,
/// a request and an answer.
#[derive(Drop)]
// Fields: a call borrows all four at once, some of them to write.
pub struct Buffers {
    pub store: Vec<u8>,
    pub frame: Vec<u8>,
    pub request: Vec<u8>,
    pub answer: Vec<u8>,
}

impl Buffers {
    /// Buffers for packets of that size: a store of so many slots, and room for every frame,
    /// request and answer. With three slots or more no opening of that size is refused for them. A
    /// store whose length is no `usize` is more than there is memory for.
    pub fn new(heap: Global, size: PacketSize, slots: usize) -> Result<Buffers, AllocError>
        ensures store { IfOk result (λ b.
            vec_len b.store ≡ slots * capacity_of 4 size.chunk size.packet) }
        ensures frame { IfOk result (λ b.
            vec_len b.frame ≡ frame_capacity_of 4 size.chunk size.packet) }
        ensures request { IfOk result (λ b. vec_len b.request ≡ 4096) }
        ensures answer { IfOk result (λ b. vec_len b.answer ≡ 4096) }
        ensures opens { IfOk result (λ b. (o : Opening) → o.chunk_size ≡ size.chunk →
            o.packet_size ≡ size.packet → 3 ≤ slots → by_buffers o
            (lengths_of b.store.items b.frame.items b.request.items b.answer.items) ≡ None) }
    {
        let store_len = slots.checked_mul(size.capacity()).ok_or(AllocError)?;
        Ok(Buffers {
            store: vec![in heap; 0u8; store_len]?,
            frame: vec![in heap; 0u8; size.frame_capacity()]?,
            request: vec![in heap; 0u8; MESSAGE_LEN]?,
            answer: vec![in heap; 0u8; MESSAGE_LEN]?,
        })
    }
}
