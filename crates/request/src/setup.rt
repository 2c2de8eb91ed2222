//! What the far end reads of a request that sets up a pipeline.
ghost use Rattle.std.specs.Prelude.{◌≡◌};
ghost use Rattle.request.specs.Setups.{message_of, no_setup, merge_setup, setup_of, merge_number, merge_part, refuses, seen_part};
ghost use Rattle.wire.specs.Read.{wire};
ghost use Rattle.std.proofs.Common.{rules};

use crate::send::Request;
use crate::write_block::WriteBlock;
use wire::decode::{Merge, decode};
use wire::field::{Fault, Field};
use wire::find::find;
use wire::varint::read_varint;

/// The numbers of an `OpWriteBlockProto` that a pipeline is set up by. Numbers, since a far end may be sent a stage or a type that is not listed.
#[derive(Clone, Copy, Debug, PartialEq, Eq)]
pub struct Setup {
    pub stage: u64,
    pub pipeline_size: u64,
    pub min_bytes: u64,
    pub max_bytes: u64,
    pub latest_stamp: u64,
    pub stamp: u64,
    pub checksum_type: u64,
    pub chunk_size: u64,
}

impl Setup {
    /// The set up that a whole request asks for, where the octets are such a request.
    // Whatever is wrong with a request, a far end takes it for lost.
    pub fn read(request: &[u8]) -> Option<Setup>
        ensures { result ≡ setup_of request.now }
    {
        decode(message_of(request, WriteBlock::CODE)?).ok()
    }

    fn number(self, tag: u32, value: u64) -> Result<Setup, Fault>
        ensures { result ≡ merge_number self tag value }
    {
        match tag {
            1 | 9 => Err(Fault::WireType),
            4 => Ok(Setup {
                stage: value,
                ..self
            }),
            5 => Ok(Setup {
                pipeline_size: value,
                ..self
            }),
            6 => Ok(Setup {
                min_bytes: value,
                ..self
            }),
            7 => Ok(Setup {
                max_bytes: value,
                ..self
            }),
            8 => Ok(Setup {
                latest_stamp: value,
                ..self
            }),
            _ => Ok(self),
        }
    }

    fn part(self, tag: u32, bytes: &[u8]) -> Result<Setup, Fault>
        ensures { result ≡ merge_part self tag bytes.now }
    {
        match tag {
            1 => {
                let block: &[u8] = find(find(bytes, 1), 1);
                Ok(Setup {
                    stamp: find(block, 3),
                    ..self
                })
            }
            4..=8 => Err(Fault::WireType),
            9 => Ok(Setup {
                checksum_type: find(bytes, 1),
                chunk_size: find(bytes, 2),
                ..self
            }),
            _ => Ok(self),
        }
    }

    // A number of fixed width, which none of these fields is.
    fn fixed(self, tag: u32) -> Result<Setup, Fault>
        ensures { result ≡ refuses self tag }
    {
        match tag {
            1 | 4..=9 => Err(Fault::WireType),
            _ => Ok(self),
        }
    }
}

impl Merge for Setup {
    ghost none = { no_setup };

    ghost merges = { merge_setup };

    ghost size = { λ _. 0 };

    ghost starts = { Prim.search rules };

    fn empty() -> Setup {
        Setup {
            stage: 0,
            pipeline_size: 0,
            min_bytes: 0,
            max_bytes: 0,
            latest_stamp: 0,
            stamp: 0,
            checksum_type: 0,
            chunk_size: 0,
        }
    }

    fn merge_field(self, field: Field<'_>) -> Result<Setup, Fault> {
        match field {
            Field::Varint { tag, value, .. } => self.number(tag, value),
            Field::Part { tag, bytes, .. } => self.part(tag, bytes),
            Field::Fixed64 { tag, .. } | Field::Fixed32 { tag, .. } => self.fixed(tag),
        }
    }
}

// The message of a request behind version 28 and that code, a request kind's own constant, as long as its length says.
fn message_of(request: &[u8], code: u8) -> Option<&[u8]>
    ensures { seen_part result ≡ message_of code request.now }
{
    let [0, 28, found, ..] = request else {
        return None;
    };
    if *found != code {
        return None;
    }
    let (size, from) = read_varint(request, 3).ok()?;
    if size != (request.len() - from) as u64 {
        return None;
    }
    Some(&request[from..])
}
