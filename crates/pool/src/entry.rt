//! What can be seen of a namenode's block.
ghost use Rattle.std.specs.Prelude.{◌≡◌};
ghost use Rattle.namenode.specs.Entries.{entry_for};
ghost use Rattle.pool.specs.Books.{book_of};

use crate::memory::MemoryNamenode;
use proto::datanode::Datanode;

/// The block's generation stamp, its length, and the datanodes that have it.
#[derive(Clone, Copy)]
pub struct BlockEntry<'a> {
    pub stamp: u64,
    pub size: u64,
    pub nodes: &'a [Datanode],
}

impl<S> MemoryNamenode<S> {
    /// The entry as it stands.
    pub fn entry(&self) -> BlockEntry<'_>
        ensures { entry_for result.stamp result.size result.nodes.now
            ≡ (book_of self.now.book).entry }
    {
        BlockEntry {
            stamp: self.book.stamp,
            size: self.book.size,
            nodes: &self.book.nodes,
        }
    }
}
