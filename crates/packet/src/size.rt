//! The sizes that a block is written with.
ghost use Rattle.std.specs.Prelude.{◌≡◌, ◌+◌, ◌*◌, ◌<◌, ◌≤◌, false};
ghost use Rattle.packet.specs.Sizes.{chunks_of, chunk_size_refused, packet_size_refused};

pub mod settings;

/// A chunk size and a packet size that were accepted, and how many chunks a packet has by them.
#[derive(Clone, Copy, Debug, PartialEq, Eq)]
pub struct PacketSize {
    chunk: u32,
    packet: u32,
    count: u32,
    ghost counted: { count ≡ chunks_of 4 chunk packet },
    ghost bounds: { (0 < chunk) × (chunk ≤ 1_048_576) × (0 < count) × (count ≤ 16_777_216) },
    ghost accepted: { (chunk_size_refused chunk ≡ false)
        × (packet_size_refused 4 chunk packet ≡ false) },
}

impl PacketSize {
    /// The least sizes that there are: packets of one byte.
    pub fn least() -> PacketSize
        ensures { (result.chunk ≡ 1) × (result.packet ≡ 0) }
    {
        PacketSize {
            chunk: 1,
            packet: 0,
            count: 1,
        }
    }

    /// How many bytes a chunk has.
    pub fn chunk_size(&self) -> u32
        ensures { result ≡ self.now.chunk }
    {
        self.chunk
    }

    /// How many chunks a packet has.
    pub fn chunks(&self) -> u32
        ensures { result ≡ chunks_of 4 self.now.chunk self.now.packet }
    {
        self.count
    }
}
