//! A namenode that keeps the entry of one block.
ghost use Rattle.std.specs.Prelude.{◌≡◌, [], Some, IfOk};
ghost use Rattle.proto.specs.Messages.{octets_in};
ghost use Rattle.namenode.specs.Entries.{entry_for, row_of};
ghost use Rattle.pool.specs.Books.{book_of, offer_with, row_for};
ghost use Rattle.pool.specs.Houses.{house_of, Stamps, Updates};
ghost use Rattle.pool.specs.Pools.{pool_of};
ghost use Rattle.std.proofs.Common.{rules};

use crate::book::Book;
use crate::spare_datanodes::SpareDatanodes;
use crate::spares::{NoSpares, Spares};
use namenode::meaning::Namenode;
use namenode::protocol::{NamenodeProtocol, Offered, Refused};
use proto::datanode::Datanode;
use proto::token::Token;
use std::alloc::{AllocError, Global};

/// A namenode of one block, with what it has to offer.
#[derive(Drop)]
pub struct MemoryNamenode<S> {
    pub(crate) book: Book,
    spares: S,
}

/// A namenode of one block, for a cluster that has no datanode more to give.
pub type House = MemoryNamenode<NoSpares>;

/// A namenode of one block, which has datanodes to spare.
pub type Pool = MemoryNamenode<SpareDatanodes>;

impl MemoryNamenode<NoSpares> {
    /// A namenode that has the block at this stamp and length on these datanodes. This alone takes memory.
    pub fn new(
        heap: Global,
        stamp: u64,
        size: u64,
        nodes: &[Datanode],
        token: Token,
    ) -> Result<House, AllocError>
        ensures { IfOk result (λ h. house_of h ≡ record {
          entry = entry_for stamp size nodes.now;
          token = octets_in token.message;
        }) }
    {
        Ok(MemoryNamenode {
            book: Book::new(heap, stamp, size, nodes, token)?,
            spares: NoSpares,
        })
    }
}

impl MemoryNamenode<SpareDatanodes> {
    /// A namenode that has the block at this stamp and length on these datanodes, and these to spare. This alone takes memory.
    pub fn new(
        heap: Global,
        stamp: u64,
        size: u64,
        nodes: &[Datanode],
        token: Token,
        spares: &[Datanode],
    ) -> Result<Pool, AllocError>
        ensures { IfOk result (λ p. pool_of p ≡ record {
          book = record {
            entry = entry_for stamp size nodes.now;
            token = octets_in token.message;
          };
          spares = spares.now;
          offered = [];
        }) }
    {
        let book = Book::new(heap, stamp, size, nodes, token)?;
        let spares = SpareDatanodes::new(heap, spares)?;
        Ok(MemoryNamenode { book, spares })
    }
}

// A datanode as it is handed out.
fn hand_out(node: &Datanode) -> Offered<'_>
    ensures { row_of (Some result) ≡ Some (row_for node.now) }
{
    Offered {
        info: node.info(),
        storage_id: node.storage_id(),
        storage_type: node.storage_type() as u64,
    }
}

impl<S: Spares> NamenodeProtocol for MemoryNamenode<S> {
    ghost offer = { λ n. offer_with (book_of n.book).token (S.handed n.spares) };

    ghost token = { λ n. (book_of n.book).token };

    ghost lists = { λ a asked came b.
        S.lists a.spares (book_of a.book) asked came (book_of b.book) b.spares };

    ghost stamps = { λ a size came b.
        Stamps (book_of a.book) came (book_of b.book) × S.stays a.spares b.spares };

    ghost updates = { λ a new accepted b.
        Updates (book_of a.book) new accepted (book_of b.book) × S.stays a.spares b.spares };

    fn get_additional_datanode(
        &mut self,
        size: u64,
        survivors: &[Datanode],
        failed: &[Datanode],
    ) -> Result<(), Refused> {
        self.spares.list(size, survivors, failed)
    }

    fn offered_len(&self) -> usize {
        self.spares.offered().len()
    }

    fn offered(&self, position: usize) -> Option<Offered<'_>> {
        Some(hand_out(self.spares.offered().get(position)?))
    }

    // This namenode has one token, which comes with lists and with stamps.
    fn offered_token(&self) -> &[u8] {
        self.book.token()
    }

    fn update_block_for_pipeline(&mut self, _size: u64) -> Result<u64, Refused> {
        self.book.next_stamp().ok_or(Refused)
    }

    fn stamp_token(&self) -> &[u8] {
        self.book.token()
    }

    fn update_pipeline(
        &mut self,
        stamp: u64,
        size: u64,
        nodes: &[Datanode],
    ) -> Result<(), Refused> {
        self.book.update(stamp, size, nodes)
    }
}

impl<S: Spares> Namenode for MemoryNamenode<S> {
    ghost entry = { λ n. (book_of n.book).entry };

    ghost listing = { Prim.search rules };

    ghost stamping = { Prim.search rules };

    ghost updating = { Prim.search rules };
}
