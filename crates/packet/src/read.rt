//! Frames as the other end reads them.
ghost use Rattle.std.specs.Prelude.{◌≡◌, ◌+◌, ◌^◌, ◌<◌, ◌≤◌, length, take, drop};
ghost use Rattle.wire.specs.Octets.{from_little};
ghost use Rattle.packet.specs.Header.{header_length};
ghost use Rattle.packet.specs.Reading.{Reads, packet_in, Unique, RoundTrip, header_at, front_of};

use crate::frame::{LENGTH_LIMIT, LENGTHS, WritePacket, put_lengths};
use crate::header::{PLAIN_LEN, PacketHeader, header_len, put_header};

/// What a frame carries: a packet, and the sums beside it. The sums and the data are borrowed from the frame;
/// nothing says yet that the sums are right.
#[derive(Clone, Copy, Debug, PartialEq, Eq)]
pub struct Frame<'a> {
    pub packet: WritePacket<'a>,
    pub sums: &'a [u8],
}

// The octets from `at` on, as many as the type says.
fn array_at<const N: usize>(bytes: &[u8], at: usize) -> &[u8; N]
    requires { at + N ≤ length bytes.now }
    ensures { result.now ≡ take N (drop at bytes.now) }
{
    bytes[at..].first_chunk().unwrap()
}

// What stands at the places of a header's numbers, whether or not there is a header.
fn header_at(bytes: &[u8]) -> PacketHeader
    requires { 31 ≤ length bytes.now }
    ensures { result ≡ header_at bytes.now }
{
    PacketHeader {
        offset: u64::from_le_bytes(*array_at(bytes, 7)),
        seqno: u64::from_le_bytes(*array_at(bytes, 16)),
        last: bytes[25] == 1,
        data_len: u32::from_le_bytes(*array_at(bytes, 27)),
    }
}

// Fills `out` with how a frame with that header begins.
fn put_front(out: &mut [u8], header: PacketHeader, whole: u32)
    requires { length out.old ≡ 6 + header_length header.last }
    ensures { out.new ≡ front_of whole header }
{
    let head = header_len(header.last);
    put_lengths(&mut out[0..LENGTHS], whole, head as u16);
    put_header(&mut out[LENGTHS..LENGTHS + head], header);
}

/// The packet whose frame these octets are, with nothing after it: the one packet that is written so.
/// `None` says that there is none.
pub fn read_frame(bytes: &[u8]) -> Option<Frame<'_>>
    ensures { Reads bytes.now (packet_in result) }
{
    if bytes.len() < LENGTHS + PLAIN_LEN {
        return None;
    }
    let header = header_at(bytes);
    let start = LENGTHS + header_len(header.last);
    let (front, rest) = bytes.split_at_checked(start)?;
    if rest.len() >= LENGTH_LIMIT - 4 {
        return None;
    }
    let sums_len = rest.len().checked_sub(header.data_len as usize)?;
    let mut room = [0u8; 33];
    let expected = &mut room[..start];
    put_front(expected, header, (4 + rest.len()) as u32);
    if front != &*expected {
        return None;
    }
    let (sums, data) = rest.split_at(sums_len);
    Some(Frame {
        packet: WritePacket {
            offset: header.offset,
            seqno: header.seqno,
            last: header.last,
            data,
        },
        sums,
    })
}

/// No two packets have one frame, and what is read from a frame as `write_frame` writes it is that packet,
/// with the sums of its data.
pub fn round_trip_stands()
    ensures { Unique × RoundTrip }
{}
