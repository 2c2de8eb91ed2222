//! Answers as a datanode writes them.
ghost use Rattle.std.specs.Prelude.{◌≡◌, [], ◌∷◌};
ghost use Rattle.wire.specs.Fields.{varint};
ghost use Rattle.ack.specs.Written.{zag, answer_fields, answered, ReadBack};

use wire::encode::{Each, Message, OneField, Then, Uint};
use wire::row::{ByField, RowField};

// A reply, not packed, as datanodes write it.
#[derive(Clone, Copy)]
struct Reply;

impl RowField<u8> for Reply {
    ghost field = { λ status. varint 2 status };

    fn field_of(row: &u8) -> OneField<'_> {
        OneField::Uint(Uint {
            tag: 2,
            value: u64::from(*row),
        })
    }
}

// A number of 64 bits with its sign, zigzag.
fn zigzagged(seqno: u64) -> u64
    ensures { result ≡ zag seqno }
{
    if seqno < 0x8000_0000_0000_0000 {
        2 * seqno
    } else {
        2 * (u64::MAX - seqno) + 1
    }
}

/// Writes the answer to the packet of that number at the front of `out`, with a reply for each node, of which there are at most eight.
/// Where there are more, or `out` is too short, it stays as it was.
// Its replies are numbers, since a datanode may answer a status that datatransfer.proto does not list.
pub fn write_ack(out: &mut [u8], seqno: u64, replies: &[u8]) -> Option<usize>
    ensures { answered seqno replies.now out.old out.new result }
{
    if replies.len() > 8 {
        return None;
    }
    let answer = Then(
        Uint {
            tag: 1,
            value: zigzagged(seqno),
        },
        Each {
            rows: replies,
            by: ByField(Reply),
        },
    );
    let end = answer.encoded_len();
    if out.len() < end {
        return None;
    }
    answer.encode(&mut out[0..end]);
    Some(end)
}

/// An answer is read back as its number and the codes of its replies.
pub fn answers_read_back()
    ensures { ReadBack }
{}
