//! The three requests of a writer to its namenode, by the namenode's own acts. Each may be refused at any time.
ghost use Rattle.std.specs.Prelude.{◌≡◌, ℕ, Bool, List, length, Option, is_ok};
ghost use Rattle.namenode.specs.Entries.{Entry, Ask, Offer, Lists, Stamps, ask_for, entry_for, row_at, row_of};

use proto::datanode::Datanode;
use std::error::Error;
use std::fmt;

/// The namenode refused.
#[derive(Clone, Copy, Debug, PartialEq, Eq)]
pub struct Refused;

impl fmt::Display for Refused {
    fn fmt<W: fmt::Write>(&self, f: &mut fmt::Formatter<W>) -> fmt::Result {
        write!(f, "the namenode refused")
    }
}

impl Error for Refused {}

/// A datanode as the namenode hands it out. Whether it is in form is for the writer to look at, so its storage's type is any number.
#[derive(Clone, Copy)]
pub struct Offered<'a> {
    pub info: &'a [u8],
    pub storage_id: &'a [u8],
    pub storage_type: u64,
}

pub trait NamenodeProtocol: Sized {
    /// The list of datanodes and the token that were handed out last.
    ghost offer: { Self → Offer };

    /// The token that came with the last stamp.
    ghost token: { Self → List ℕ };

    /// What was asked, and the offer if one came.
    ghost lists: { Self → Ask → Option Offer → Self → Type 0 };

    /// The block's length, and the stamp and token if they came.
    ghost stamps: { Self → ℕ → Option (ℕ × List ℕ) → Self → Type 0 };

    /// The entry asked for, and whether it was accepted.
    ghost updates: { Self → Entry → Bool → Self → Type 0 };

    /// Asks for a list of datanodes with one more than those that are left.
    fn get_additional_datanode(
        &mut self,
        size: u64,
        survivors: &[Datanode],
        failed: &[Datanode],
    ) -> Result<(), Refused>
        ensures { Lists
            (λ came. lists self.old (ask_for size survivors.now failed.now) came self.new)
            (offer self.new) (is_ok result) };

    /// How many datanodes the list has.
    fn offered_len(&self) -> usize
        ensures { result ≡ length (offer self.now).rows };

    /// The datanode at a position of the list.
    fn offered(&self, position: usize) -> Option<Offered<'_>>
        ensures { row_of result ≡ row_at (offer self.now).rows position };

    /// The token that came with the list.
    fn offered_token(&self) -> &[u8]
        ensures { result.now ≡ (offer self.now).token };

    /// Asks for a new generation stamp.
    fn update_block_for_pipeline(&mut self, size: u64) -> Result<u64, Refused>
        ensures { Stamps (λ came. stamps self.old size came self.new) (token self.new) result };

    /// The token that came with the stamp.
    fn stamp_token(&self) -> &[u8]
        ensures { result.now ≡ token self.now };

    /// Tells where the block now is, at which stamp and length.
    fn update_pipeline(&mut self, stamp: u64, size: u64, nodes: &[Datanode]) -> Result<(), Refused>
        ensures { updates self.old (entry_for stamp size nodes.now) (is_ok result) self.new };
}
