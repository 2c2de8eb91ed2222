//! Packet arithmetic.
ghost use Rattle.std.specs.Prelude.{◌≡◌};
ghost use Rattle.packet.specs.Accepted.{settings, settings_of};
ghost use Rattle.packet.specs.Sizes.{capacity_of, first_capacity_of, frame_capacity_of};

use crate::size::PacketSize;
use std::error::Error;
use std::fmt;

/// The octets kept for the lengths and the header of a frame.
pub const MAX_PACKET_HEADER_SIZE: u32 = 33;

/// The octets of a chunk's sum.
pub const CHECKSUM_BYTES: u32 = 4;

const MAX_CHUNK_SIZE: u32 = 1_048_576;

const MAX_PACKET_SIZE: u32 = 16_777_216;

/// The setting that is refused.
#[derive(Clone, Copy, Debug, PartialEq, Eq)]
pub enum SizeError {
    /// A chunk size of 0, or above 1,048,576.
    Chunk,
    /// A packet size other than 0 that leaves no room for one chunk with its sum, or one above 16,777,216.
    Packet,
}

impl fmt::Display for SizeError {
    fn fmt<W: fmt::Write>(&self, f: &mut fmt::Formatter<W>) -> fmt::Result {
        match self {
            SizeError::Chunk => write!(f, "the chunk size is out of range"),
            SizeError::Packet => write!(f, "the packet size is out of range"),
        }
    }
}

impl Error for SizeError {}

impl PacketSize {
    /// Accepts the two sizes, or says which is refused. A packet size of 0 leaves it open: a packet then has one chunk.
    // The 0 is HDFS's own way to leave the size open.
    pub fn new(chunk_size: u32, packet_size: u32) -> Result<PacketSize, SizeError>
        ensures { settings result ≡ settings_of 4 chunk_size packet_size }
    {
        if chunk_size == 0 || chunk_size > MAX_CHUNK_SIZE {
            return Err(SizeError::Chunk);
        }
        let chunk_on_wire = chunk_size + CHECKSUM_BYTES;
        if packet_size == 0 {
            return Ok(PacketSize {
                chunk: chunk_size,
                packet: 0,
                count: 1,
            });
        }
        if packet_size < MAX_PACKET_HEADER_SIZE + chunk_on_wire || packet_size > MAX_PACKET_SIZE {
            return Err(SizeError::Packet);
        }
        Ok(PacketSize {
            chunk: chunk_size,
            packet: packet_size,
            count: (packet_size - MAX_PACKET_HEADER_SIZE) / chunk_on_wire,
        })
    }

    /// How many bytes a packet takes.
    pub fn capacity(&self) -> usize
        ensures { result ≡ capacity_of 4 self.now.chunk self.now.packet }
    {
        self.count as usize * self.chunk as usize
    }

    /// How many bytes the first packet takes, of a block that has `initial_length` bytes when it is opened.
    /// Where these leave a chunk begun, the first packet is the rest of that chunk.
    pub fn first_capacity(&self, initial_length: u64) -> usize
        ensures { result ≡ first_capacity_of 4 self.now.chunk self.now.packet initial_length }
    {
        let begun = initial_length % self.chunk as u64;
        if begun == 0 {
            return self.capacity();
        }
        self.chunk as usize - begun as usize
    }

    /// How many octets hold every frame.
    pub fn frame_capacity(&self) -> usize
        ensures { result ≡ frame_capacity_of 4 self.now.chunk self.now.packet }
    {
        let chunk_on_wire = self.chunk as usize + CHECKSUM_BYTES as usize;
        MAX_PACKET_HEADER_SIZE as usize + self.count as usize * chunk_on_wire
    }
}
