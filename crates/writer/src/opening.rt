//! What a block is opened with, and what is refused of it.
ghost use Rattle.std.specs.Prelude.{◌≡◌};
ghost use Rattle.std.specs.Result.{result_err};
ghost use Rattle.writer.specs.Opening.{by_length, by_count, by_buffers, by_texts};

use crate::admit::Lengths;
use crate::refusal::Refusal;
use packet::size::PacketSize;
use proto::form::is_text;
use replace::datanode::ReplaceDatanodeOnFailure;

/// The block size is below this, so that every place in the block is a signed number.
const BLOCK_LIMIT: u64 = 0x8000_0000_0000_0000;

/// A block to be written, as it comes from outside: nothing of it has been looked at.
#[derive(Clone, Copy)]
pub struct Opening<'a> {
    pub path: &'a [u8],
    pub pool_id: &'a [u8],
    pub block_id: u64,
    /// The block's generation stamp.
    pub stamp: u64,
    /// How many bytes the block has already: above 0 it is appended.
    pub initial_len: u64,
    /// How many bytes the block may have.
    pub block_size: u64,
    pub chunk_size: u32,
    pub packet_size: u32,
    pub replication: u32,
    pub replace: ReplaceDatanodeOnFailure,
    /// Each datanode as a `DatanodeInfoProto`, with its storage's name and type at the same place of the next two. Three lists, as they come
    /// from outside: uneven ones are refused with a number of their own.
    pub infos: &'a [&'a [u8]],
    pub storage_ids: &'a [&'a [u8]],
    pub storage_types: &'a [u8],
    /// A `TokenProto`.
    pub token: &'a [u8],
    pub client_name: &'a [u8],
    /// The time in seconds.
    pub time: u64,
}

impl<'a> Opening<'a> {
    // Whether the block has room for what it has, and its places are numbers.
    pub(crate) fn by_length(self) -> Result<(), Refusal>
        ensures { result_err result ≡ by_length self.entry }
    {
        if self.block_size < self.initial_len || self.block_size >= BLOCK_LIMIT {
            return Err(Refusal::Length);
        }
        Ok(())
    }

    // Whether there are one to eight datanodes, and as many storages.
    pub(crate) fn by_count(self) -> Result<(), Refusal>
        ensures { result_err result ≡ by_count self.entry }
    {
        let count = self.infos.len();
        if count < 1
            || count > 8
            || self.storage_ids.len() != count
            || self.storage_types.len() != count
        {
            return Err(Refusal::Nodes);
        }
        Ok(())
    }

    // Whether the path and the two names are texts.
    pub(crate) fn has_texts(self) -> bool
        ensures { result ≡ by_texts self.entry }
    {
        is_text(self.path, 255) && is_text(self.pool_id, 64) && is_text(self.client_name, 64)
    }

    // Whether the store has three slots at least, and the other buffers suffice.
    pub(crate) fn by_buffers(self, size: PacketSize, lengths: Lengths) -> Result<(), Refusal>
        requires { (size.chunk ≡ self.chunk_size) × (size.packet ≡ self.packet_size) }
        ensures { result_err result ≡ by_buffers self.entry lengths }
    {
        if lengths.store < 3 * size.capacity() {
            return Err(Refusal::Store);
        }
        if !lengths.suffices(size) {
            return Err(Refusal::Buffer);
        }
        Ok(())
    }
}
