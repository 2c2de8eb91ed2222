//! The answer of a pipeline to a packet, `PipelineAckProto` of datatransfer.proto.
ghost use Rattle.std.specs.Prelude.{◌≡◌, ◌+◌, ◌^◌, ◌<◌, ◌≤◌, length, IfOk, if◌then◌else◌, Ok, Err};
ghost use Rattle.wire.specs.Fields.{varint, part};
ghost use Rattle.wire.specs.declared.field.Fault.TheVariants.{WireType};
ghost use Rattle.ack.specs.Acks.{zigzag, is_ack_tag};
ghost use Rattle.ack.specs.Reading.{no_ack, merges_ack, ack_size, ack_read};
ghost use Rattle.ack.specs.Verdicts.{verdict_of, verdict_on, passes};
ghost use Rattle.std.proofs.Common.{rules};

use crate::packed::{Repeated, Skipped, push_packed};
use crate::tally::{FailedNodes, Replies};
use wire::decode::{Merge, decode};
use wire::field::{DecodeError, Fault, Field};

// Sequence numbers are signed: these are -1 and -2.
const HEART_BEAT_SEQNO: u64 = 0xffff_ffff_ffff_ffff;

const UNKNOWN_SEQNO: u64 = 0xffff_ffff_ffff_fffe;

/// A pipeline's answer: its number, as 64 bits, and its nodes' replies.
#[derive(Clone, Copy, Debug, PartialEq, Eq)]
pub struct PipelineAck {
    pub seqno: u64,
    pub replies: Replies,
}

/// What an answer means for the writer.
#[derive(Clone, Copy, Debug, PartialEq, Eq)]
pub enum Verdict {
    /// Some nodes failed, whatever the answer's number.
    Failed(FailedNodes),
    /// A heartbeat was answered.
    HeartBeat,
    /// The nodes do not know what they answer.
    UnknownSeqno,
    /// All nodes have that packet.
    Packet(u64),
}

// The number that a zigzag varint stands for, as 64 bits.
fn unzigzag(value: u64) -> u64
    ensures { result ≡ zigzag value }
{
    if value % 2 == 0 {
        value / 2
    } else {
        u64::MAX - value / 2
    }
}

impl PipelineAck {
    // A varint: the number, one reply, or what says nothing.
    fn merge_varint(self, tag: u32, value: u64) -> PipelineAck
        requires { ack_size self + 1 < 2 ^ 64 }
        ensures value { Ok result ≡ merges_ack self (varint tag value) }
        ensures bound { ack_size result ≤ ack_size self + 1 }
    {
        match tag {
            1 => PipelineAck {
                seqno: unzigzag(value),
                ..self
            },
            2 => PipelineAck {
                replies: self.replies.push(value),
                ..self
            },
            _ => self,
        }
    }

    // A part: packed replies, or packed flags, which are read for their faults alone.
    fn merge_part(self, tag: u32, bytes: &[u8]) -> Result<PipelineAck, Fault>
        requires { ack_size self + length bytes.now < 2 ^ 64 }
        ensures value { result ≡ merges_ack self (part tag bytes.now) }
        ensures bound { IfOk result (λ s. ack_size s ≤ ack_size self + length bytes.now) }
    {
        match tag {
            2 => {
                let replies = push_packed(bytes, self.replies)?;
                Ok(PipelineAck { replies, ..self })
            }
            4 => {
                push_packed(bytes, Skipped)?;
                Ok(self)
            }
            1 | 3 => Err(Fault::WireType),
            _ => Ok(self),
        }
    }

    // A fixed number, which no tag of an answer takes.
    fn merge_fixed(self, tag: u32) -> Result<PipelineAck, Fault>
        ensures { result ≡ (if is_ack_tag tag then Err WireType else Ok self) }
    {
        match tag {
            1..=4 => Err(Fault::WireType),
            _ => Ok(self),
        }
    }

    /// Reads an answer. An absent number is 0.
    pub fn read(input: &[u8]) -> Result<PipelineAck, DecodeError>
        ensures { result ≡ ack_read input.now }
    {
        decode::<PipelineAck>(input)
    }

    /// What the answer means: failed nodes come first.
    pub fn verdict(&self) -> Verdict
        ensures { result ≡ verdict_of self.now.seqno self.now.replies.failed }
    {
        if self.replies.failed.count > 0 {
            return Verdict::Failed(self.replies.failed);
        }
        match self.seqno {
            HEART_BEAT_SEQNO => Verdict::HeartBeat,
            UNKNOWN_SEQNO => Verdict::UnknownSeqno,
            seqno => Verdict::Packet(seqno),
        }
    }
}

impl Merge for PipelineAck {
    ghost none = { no_ack };

    ghost merges = { merges_ack };

    ghost size = { ack_size };

    ghost starts = { Prim.search rules };

    fn empty() -> PipelineAck {
        PipelineAck {
            seqno: 0,
            replies: Replies::none(),
        }
    }

    fn merge_field(self, field: Field<'_>) -> Result<PipelineAck, Fault> {
        match field {
            Field::Varint { tag, value, .. } => Ok(self.merge_varint(tag, value)),
            Field::Part { tag, bytes, .. } => self.merge_part(tag, bytes),
            Field::Fixed64 { tag, .. } | Field::Fixed32 { tag, .. } => self.merge_fixed(tag),
        }
    }
}

/// Reads an answer, and says what it means.
pub fn judge(input: &[u8]) -> Result<Verdict, DecodeError>
    ensures { result ≡ verdict_on input.now }
{
    let ack = PipelineAck::read(input)?;
    Ok(ack.verdict())
}

/// The number of an answer that passes: one by which no node failed.
pub fn passing(input: &[u8]) -> Option<u64>
    ensures { result ≡ passes input.now }
{
    let ack = PipelineAck::read(input).ok()?;
    if ack.replies.failed.count > 0 {
        return None;
    }
    Some(ack.seqno)
}
