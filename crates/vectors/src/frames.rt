//! Frames: written by us and read by us.
use crate::error::LineError;
use crate::hex::octets;
use packet::frame::{WritePacket, write_frame};
use packet::read::read_frame;
use packet::sums::sums_match;
use std::alloc::{AllocError, Global};

// Whether the packet is written as these octets, no more and no fewer.
fn writes(
    heap: Global,
    packet: WritePacket<'_>,
    chunk_size: u32,
    frame: &[u8],
) -> Result<bool, AllocError> {
    let mut buf = vec![in heap; 0u8; frame.len()]?;
    let end = write_frame(&mut buf, packet, chunk_size);
    Ok(end == Some(frame.len()) && buf.as_slice() == frame)
}

// Whether these octets are read as the packet, with the sums of its data.
fn reads(frame: &[u8], packet: WritePacket<'_>, chunk_size: u32) -> bool {
    read_frame(frame).is_some_and(|read| read.packet == packet
        && sums_match(read.sums, packet.data, chunk_size))
}

fn is_last(word: &str) -> Result<bool, LineError> {
    match word {
        "last" => Ok(true),
        "more" => Ok(false),
        _ => Err(LineError::Form),
    }
}

/// `CHUNK OFFSET SEQNO last|more DATA FRAME`: whether the frame is the packet's, both ways.
pub fn agrees(heap: Global, words: &[&str]) -> Result<bool, LineError> {
    let [chunk, offset, seqno, last, data, frame] = words else {
        return Err(LineError::Form);
    };
    let chunk_size = chunk.parse()?;
    let data = octets(heap, data)?;
    let frame = octets(heap, frame)?;
    let packet = WritePacket {
        offset: offset.parse()?,
        seqno: seqno.parse()?,
        last: is_last(last)?,
        data: data.as_slice(),
    };
    let written = writes(heap, packet, chunk_size, frame.as_slice())?;
    Ok(written && reads(frame.as_slice(), packet, chunk_size))
}
