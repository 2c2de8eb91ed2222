//! Requests to a datanode, each behind version 28 and its own operation code.
ghost use Rattle.std.specs.Prelude.{◌≡◌, ℕ, ◌≤◌, true, length, is_some};
ghost use Rattle.wire.specs.Fields.{encode_all};
ghost use Rattle.request.specs.Requests.{framed, sent};

use crate::transfer_block::TransferBlock;
use crate::write_block::WriteBlock;
use wire::encode::Message;
use wire::varint::EncodedVarint;

/// The version of the data transfer protocol.
const DATA_TRANSFER_VERSION: u16 = 28;

/// A request, by its operation code and its message.
pub trait Request: Message {
    const CODE: u8;

    /// What `CODE` is to a contract; `op` says so, since of a type with a lifetime no law can.
    ghost code: { ℕ };

    /// `CODE`, which ties it to what contracts say.
    fn op(&self) -> u8
        ensures { result ≡ code };

    /// The message's length, which is such that a buffer of 4,096 octets holds every request.
    // A contract and no law: its proof cites lemmas of proofs/, which a law in an impl may not.
    fn message_len(&self) -> usize
        ensures value { result ≡ length (encode_all (Self.Message.fields self.now)) }
        ensures bound { result ≤ 3728 };
}

/// Writes a request at the front of `out`: the version, the operation's code, and the message after its length. Where `out` is too short
/// it stays as it was.
pub fn send<R: Request>(request: &R, out: &mut [u8]) -> Option<usize>
    ensures written { sent
        (framed R.Request.code (encode_all (R.Message.fields request.now)))
        out.old out.new result }
    ensures suffices { 4096 ≤ length out.old → is_some result ≡ true }
{
    let inner = request.message_len();
    let size = EncodedVarint::of(inner as u64);
    let from = 3 + size.len();
    let end = from + inner;
    if out.len() < end {
        return None;
    }
    out[0..2].copy_from_slice(&DATA_TRANSFER_VERSION.to_be_bytes());
    out[2] = request.op();
    out[3..from].copy_from_slice(size.as_slice());
    request.encode(&mut out[from..end]);
    Some(end)
}

impl<'a> Request for WriteBlock<'a> {
    const CODE: u8 = 80;

    ghost code = { 80 };

    fn op(&self) -> u8 {
        Self::CODE
    }

    fn message_len(&self) -> usize {
        self.encoded_len()
    }
}

impl<'a> Request for TransferBlock<'a> {
    const CODE: u8 = 86;

    ghost code = { 86 };

    fn op(&self) -> u8 {
        Self::CODE
    }

    fn message_len(&self) -> usize {
        self.encoded_len()
    }
}
