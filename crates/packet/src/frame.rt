//! Frames: a packet as it goes to a datanode.
ghost use Rattle.std.specs.Prelude.{◌≡◌, ◌+◌, ◌*◌, ◌^◌, ◌<◌, length, if◌then◌else◌, Some, None, nat_lt};
ghost use Rattle.packet.specs.Frame.{lengths, summed, frame_of, end_in, over};
ghost use Rattle.packet.specs.Header.{header_length};
ghost use Rattle.packet.specs.Room.{FramesFit, FirstWithin};
ghost use Rattle.packet.specs.Sums.{chunk_count};

use crate::header::{PacketHeader, header_len, put_header};
use crate::sums::{put_sums, sums_len};

/// The octets of the two lengths in front of a header.
pub(crate) const LENGTHS: usize = 6;

/// The lengths of a frame are below this.
pub(crate) const LENGTH_LIMIT: usize = 0x8000_0000;

/// A packet as it is written and read: its place in the block, its number, whether it is the last, and its data.
#[derive(Clone, Copy, Debug, PartialEq, Eq)]
// A frame does not say its chunk size, so each call takes that beside the packet.
pub struct WritePacket<'a> {
    pub offset: u64,
    pub seqno: u64,
    pub last: bool,
    pub data: &'a [u8],
}

/// Fills `out` with the two lengths, the highest octet of each first.
pub(crate) fn put_lengths(out: &mut [u8], whole: u32, head: u16)
    requires { length out.old ≡ 6 }
    ensures { out.new ≡ lengths whole head }
{
    out[0..4].copy_from_slice(&whole.to_be_bytes());
    out[4..6].copy_from_slice(&head.to_be_bytes());
}

// How many octets the sums take, where a frame can carry them and the data.
fn carried_sums(data_len: usize, chunk_size: u32) -> Option<usize>
    ensures { let sums = 4 * chunk_count chunk_size data_len in
        result ≡ (if nat_lt (4 + (sums + data_len)) (2 ^ 31) then Some sums else None) }
{
    let room = (LENGTH_LIMIT - 4).checked_sub(data_len)?;
    sums_len(data_len, chunk_size).filter(|sums| *sums < room)
}

// Fills `out` with the frame: lengths, header, sums and data in turn. The sums take `sums` octets.
fn put_frame(out: &mut [u8], packet: WritePacket<'_>, chunk_size: u32, sums: usize)
    requires sums_value { sums ≡ 4 * chunk_count chunk_size (length packet.«data».now) }
    requires data_bound { 4 + (sums + length packet.«data».now) < 2 ^ 31 }
    requires out_len { length out.old
        ≡ 6 + (header_length packet.last + (sums + length packet.«data».now)) }
    ensures { out.new ≡ frame_of chunk_size packet.entry }
{
    let header = PacketHeader {
        offset: packet.offset,
        seqno: packet.seqno,
        last: packet.last,
        data_len: packet.data.len() as u32,
    };
    let head = header_len(packet.last);
    let whole = 4 + sums + packet.data.len();
    put_lengths(&mut out[0..LENGTHS], whole as u32, head as u16);
    let start = LENGTHS + head;
    put_header(&mut out[LENGTHS..start], header);
    let middle = start + sums;
    put_sums(&mut out[start..middle], packet.data, chunk_size);
    let end = middle + packet.data.len();
    out[middle..end].copy_from_slice(packet.data);
}

/// Writes the frame of `packet` to the front of `buf`, with the sums of its chunks, and says where it ends.
/// `None` says that it does not fit, there or in its lengths, and that `buf` is as it was.
pub fn write_frame(buf: &mut [u8], packet: WritePacket<'_>, chunk_size: u32) -> Option<usize>
    ensures value { result ≡ end_in (summed chunk_size packet.entry) buf.old }
    ensures after { buf.new ≡ over (summed chunk_size packet.entry) buf.old }
{
    let sums = carried_sums(packet.data.len(), chunk_size)?;
    let end = LENGTHS + header_len(packet.last) + sums + packet.data.len();
    if end > buf.len() {
        return None;
    }
    put_frame(&mut buf[0..end], packet, chunk_size, sums);
    Some(end)
}

/// By accepted sizes every packet within its capacity, the first packet too, is framed in a buffer of the frame capacity.
pub fn room_stands()
    ensures { FramesFit × FirstWithin }
{}
