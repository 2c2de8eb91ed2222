//! The messages of the namenode's requests, field by field.
use std::alloc::{AllocError, Global};
use wire::varint::EncodedVarint;

/// A message being written.
#[derive(Drop)]
pub struct Message {
    octets: Vec<u8>,
}

impl Message {
    pub fn new(heap: Global) -> Message {
        Message {
            octets: Vec::new(heap),
        }
    }

    pub fn into_octets(self) -> Vec<u8> {
        let Message { octets } = self;
        octets
    }

    fn varint(&mut self, value: u64) -> Result<(), AllocError> {
        self.octets
            .extend_from_slice(EncodedVarint::of(value).as_slice())
    }

    /// A number, as a varint.
    pub fn number(&mut self, tag: u8, value: u64) -> Result<(), AllocError> {
        self.varint(u64::from(tag) * 8)?;
        self.varint(value)
    }

    /// Octets, after their length: a text, or a message.
    pub fn part(&mut self, tag: u8, bytes: &[u8]) -> Result<(), AllocError> {
        self.varint(u64::from(tag) * 8 + 2)?;
        self.varint(bytes.len() as u64)?;
        self.octets.extend_from_slice(bytes)
    }
}
