//! The sums and the frames of packets, for Rust and C to call: a slice passes as a pointer and a length.
//! The benchmark measures the code below through these functions.
#![tactic(auto)]

ghost use Rattle.std.specs.Prelude.{◌≡◌};
ghost use Rattle.std.specs.Option.{unwrap_or};
ghost use Rattle.std.specs.Str.{bytes_eq};
ghost use Rattle.crc.specs.Crc.{sum_of};
ghost use Rattle.packet.specs.Frame.{end_in, over};
ghost use Rattle.packet.specs.Sums.{sums_of};
ghost use Rattle.speed.specs.Framed.{packet_of};

use packet::frame::{WritePacket, write_frame};
use packet::sums::sums_match;

/// The CRC-32C of `bytes`.
#[unsafe(no_mangle)]
pub extern "C" fn speed_checksum(bytes: &[u8]) -> u32
    ensures { result ≡ sum_of 0x82F63B78 bytes.now }
{
    crc32c::checksum(bytes)
}

/// Whether `sums` are the sums of the data, over chunks of `chunk_size` bytes.
#[unsafe(no_mangle)]
pub extern "C" fn speed_sums_match(sums: &[u8], data: &[u8], chunk_size: u32) -> bool
    ensures { result ≡ bytes_eq sums.now (sums_of chunk_size «data».now) }
{
    sums_match(sums, data, chunk_size)
}

/// Writes the frame of a packet to the front of `buf`, with the sums of its chunks, and says how many octets it took.
/// No frame is empty: 0 says that it does not fit, and that `buf` is as it was.
// C calls this: it has the form of numbers and slices alone.
#[unsafe(no_mangle)]
pub extern "C" fn speed_write_frame(
    buf: &mut [u8],
    offset: u64,
    seqno: u64,
    last: bool,
    data: &[u8],
    chunk_size: u32,
) -> usize
    ensures value { result
        ≡ unwrap_or (end_in (packet_of chunk_size offset seqno last «data».now) buf.old) 0 }
    ensures after { buf.new ≡ over (packet_of chunk_size offset seqno last «data».now) buf.old }
{
    let packet = WritePacket {
        offset,
        seqno,
        last,
        data,
    };
    write_frame(buf, packet, chunk_size).unwrap_or(0)
}
