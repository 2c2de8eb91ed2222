//! One reading of the furnace's instruments.

/// The octets of a reading in a block.
pub const RECORD_LEN: usize = 52;

/// What the instruments showed at one time.
#[derive(Clone, Copy, Debug, PartialEq, Eq)]
pub struct Reading {
    /// Milliseconds since 1970.
    pub time: u64,
    /// The weights of the four batches, in grams.
    pub weights: [u32; 4],
    /// The positions of the six burners, in per mille.
    pub burners: [u16; 6],
    /// The temperatures at eight places of the crown, in tenths of a degree Celsius.
    pub crowns: [u16; 8],
}
