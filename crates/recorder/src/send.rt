//! A block sent packet by packet, into frames that are read back.
use crate::packets::packet_at;
use anyhow::{Context, ensure};
use crc32c::checksum;
use packet::frame::{WritePacket, write_frame};
use packet::read::read_frame;
use packet::size::PacketSize;
use packet::sums::sums_match;
use recording::cut::packet_count;

// Whether the frame's octets are read back as that packet, with the sums of its data. A frame does not say its chunk size.
fn comes_back(octets: &[u8], packet: WritePacket<'_>, chunk_size: u32) -> bool {
    read_frame(octets).is_some_and(|frame| {
        frame.packet == packet && sums_match(frame.sums, packet.data, chunk_size)
    })
}

// Frames the packet in `buf`, reads it back, and answers how many octets the frame has.
fn send_packet(buf: &mut [u8], packet: WritePacket<'_>, chunk_size: u32) -> anyhow::Result<usize> {
    let len = write_frame(buf, packet, chunk_size).context("a packet does not fit into its frame")?;
    let octets = buf
        .get(0..len)
        .context("a frame is longer than its buffer")?;
    ensure!(
        comes_back(octets, packet, chunk_size),
        "a frame is not read back as its packet"
    );
    Ok(len)
}

fn show_header(rt: &HostRuntime, which: &str, packet: WritePacket<'_>) -> anyhow::Result<()> {
    let WritePacket {
        offset,
        seqno,
        last,
        data,
    } = packet;
    let data_len = data.len();
    println!(rt;
        "{which} header: offset {offset}, seqno {seqno}, last {last}, data length {data_len}"
    )?;
    Ok(())
}

/// Sends the block's packets and the empty last one, each read back, and tells what was sent.
pub fn send_block(rt: &HostRuntime, size: PacketSize, block: &[u8]) -> anyhow::Result<()> {
    let capacity = size.capacity();
    let chunk_size = size.chunk_size();
    let count = packet_count(block, capacity);
    let mut buf = vec![in rt.alloc(); 0u8; size.frame_capacity()]?;
    let mut octets = 0usize;
    for packet in (0..=count).map(|k| packet_at(block, capacity, k)) {
        if packet.last {
            show_header(rt, "last", packet)?;
        } else if packet.seqno == 0 {
            show_header(rt, "first", packet)?;
        }
        let len = send_packet(buf.as_mut_slice(), packet, chunk_size)?;
        octets = octets.saturating_add(len);
    }
    let bytes = block.len();
    let sum = checksum(block);
    println!(rt;
        "bytes {bytes}, packets {count}, frames with the last one {}, octets {octets}",
        count.saturating_add(1)
    )?;
    println!(rt; "CRC-32C of the block {sum:08x}")?;
    Ok(())
}
