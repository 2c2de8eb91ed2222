//! The block that a request speaks of, and the header that all requests begin with.
ghost use Rattle.proto.specs.Messages.{block_fields, header_fields};

use crate::fixed::Fixed;
use crate::token::Token;
use wire::encode::{Bytes, Message, Nested, Then, Uint};

/// `ExtendedBlockProto`: a block of a pool, at a generation stamp, with the bytes it has.
#[derive(Clone, Copy)]
pub struct ExtendedBlock {
    pub pool_id: Fixed<64>,
    pub block_id: u64,
    pub generation_stamp: u64,
    pub num_bytes: u64,
}

// A macro, as `header_parts`: Rattle has no `impl Trait` as a result, and the parts' type written out is long.
macro_rules! block_parts {
    ($block:expr) => {
        Then(
            Then(Bytes { tag: 1, bytes: $block.pool_id.as_slice() }, Uint { tag: 2, value: $block.block_id }),
            Then(Uint { tag: 3, value: $block.generation_stamp }, Uint { tag: 4, value: $block.num_bytes }),
        )
    };
}

impl Message for ExtendedBlock {
    ghost fields = { block_fields };

    fn encoded_len(&self) -> usize {
        block_parts!(self).encoded_len()
    }

    fn encode(&self, out: &mut [u8]) {
        block_parts!(self).encode(out)
    }
}

/// `ClientOperationHeaderProto`: the block, the token that gives access to it, and who asks.
#[derive(Clone, Copy)]
pub struct ClientOperationHeader<'a> {
    pub block: ExtendedBlock,
    pub token: &'a Token,
    pub client_name: &'a Fixed<64>,
}

macro_rules! header_parts {
    ($header:expr) => {
        Then(
            Nested {
                tag: 1,
                message: Then(Nested { tag: 1, message: $header.block }, Bytes { tag: 2, bytes: $header.token.as_bytes() }),
            },
            Bytes { tag: 2, bytes: $header.client_name.as_slice() },
        )
    };
}

impl<'a> Message for ClientOperationHeader<'a> {
    ghost fields = { header_fields };

    fn encoded_len(&self) -> usize {
        header_parts!(self).encoded_len()
    }

    fn encode(&self, out: &mut [u8]) {
        header_parts!(self).encode(out)
    }
}
