//! The response of a datanode to a request, `BlockOpResponseProto` of datatransfer.proto.
ghost use Rattle.std.specs.Prelude.{◌≡◌};
ghost use Rattle.ack.specs.Responses.{merge_status, no_status, response_of, is_success};
ghost use Rattle.std.proofs.Common.{rules};

use wire::decode::{Merge, decode};
use wire::field::{DecodeError, Fault, Field};

/// A response: its status, where it gave one. Nothing else of it counts.
#[derive(Clone, Copy, Debug, PartialEq, Eq)]
pub struct BlockOpResponse {
    // A number, since a datanode may send a status that datatransfer.proto does not list.
    pub status: Option<u32>,
}

impl BlockOpResponse {
    /// Reads a response. The last status counts.
    pub fn read(input: &[u8]) -> Result<BlockOpResponse, DecodeError>
        ensures { result ≡ response_of input.now }
    {
        decode::<BlockOpResponse>(input)
    }

    /// Whether the request was granted: a status was given, and it is SUCCESS.
    pub fn is_good(&self) -> bool
        ensures { result ≡ is_success self.now.status }
    {
        matches!(self.status, Some(0))
    }
}

impl Merge for BlockOpResponse {
    ghost none = { no_status };

    ghost merges = { merge_status };

    ghost size = { λ _. 0 };

    ghost starts = { Prim.search rules };

    fn empty() -> BlockOpResponse {
        BlockOpResponse { status: None }
    }

    fn merge_field(self, field: Field<'_>) -> Result<BlockOpResponse, Fault> {
        match field {
            Field::Varint { tag: 1, value, .. } => Ok(BlockOpResponse {
                status: Some((value % 0x1_0000_0000) as u32),
            }),
            Field::Part { tag: 1, .. }
            | Field::Fixed64 { tag: 1, .. }
            | Field::Fixed32 { tag: 1, .. } => Err(Fault::WireType),
            _ => Ok(self),
        }
    }
}
