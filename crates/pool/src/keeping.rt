//! How the block's entry is made, read and replaced. Only the making takes memory.
ghost use Rattle.std.specs.Prelude.{◌≡◌, ◌≤◌, map, length, is_ok, IfOk, if◌then◌else◌, vec_len, vec_capacity, nat_le};
ghost use Rattle.proto.specs.Messages.{octets_in, id_of};
ghost use Rattle.namenode.specs.Entries.{entry_for};
ghost use Rattle.pool.specs.Books.{book_of, stamp_after, room_for, accepts, with_entry};

use crate::book::{Book, PLACES};
use namenode::protocol::Refused;
use proto::datanode::Datanode;
use proto::token::Token;
use std::alloc::{AllocError, Global};

// Puts these datanodes in place of those that were kept.
pub(crate) fn refill(kept: &mut Vec<Datanode>, nodes: &[Datanode])
    requires { length nodes.now ≤ vec_capacity kept.old }
    ensures items { kept.new.items ≡ nodes.now }
    ensures len { vec_len kept.new ≡ length nodes.now }
    ensures capacity { vec_capacity kept.old ≤ vec_capacity kept.new }
{
    kept.clear();
    let _ = kept.extend_from_slice(nodes);
}

// Whether there is room for so many datanodes.
fn has_room(nodes: &[Datanode]) -> bool
    ensures ids { result ≡ room_for (map id_of nodes.now) }
    ensures count { result ≡ nat_le (length nodes.now) 8 }
{
    nodes.len() <= PLACES
}

impl Book {
    pub(crate) fn new(
        heap: Global,
        stamp: u64,
        size: u64,
        nodes: &[Datanode],
        token: Token,
    ) -> Result<Book, AllocError>
        ensures { IfOk result (λ b. book_of b ≡ record {
          entry = entry_for stamp size nodes.now;
          token = octets_in token.message;
        }) }
    {
        let mut kept = Vec::with_capacity(heap, PLACES)?;
        kept.extend_from_slice(nodes)?;
        Ok(Book {
            stamp,
            size,
            nodes: kept,
            token,
        })
    }

    // The stamp after the entry's, where there is one.
    pub(crate) fn next_stamp(&self) -> Option<u64>
        ensures { result ≡ stamp_after (book_of self.now).entry.stamp }
    {
        self.stamp.checked_add(1)
    }

    // Replaces the entry, where there is room for its datanodes.
    pub(crate) fn update(
        &mut self,
        stamp: u64,
        size: u64,
        nodes: &[Datanode],
    ) -> Result<(), Refused>
        ensures answer { is_ok result ≡ accepts (entry_for stamp size nodes.now) }
        ensures after { book_of self.new
            ≡ (if is_ok result
            then with_entry (book_of self.old) (entry_for stamp size nodes.now)
            else book_of self.old) }
    {
        if !has_room(nodes) {
            return Err(Refused);
        }
        refill(&mut self.nodes, nodes);
        self.stamp = stamp;
        self.size = size;
        Ok(())
    }

    pub(crate) fn token(&self) -> &[u8]
        ensures { result.now ≡ (book_of self.now).token }
    {
        self.token.as_bytes()
    }
}
