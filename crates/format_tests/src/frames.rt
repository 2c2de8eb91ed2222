//! Sizes and frames on examples.
use packet::frame::{WritePacket, write_frame};
use packet::header::HEART_BEAT_SEQNO;
use packet::read::read_frame;
use packet::size::PacketSize;
use packet::size::settings::SizeError;
use packet::sums::sums_match;
use std::test::Fail;

// How many bytes a packet takes, and how long its frame can be.
fn room(chunk: u32, packet: u32) -> Option<(usize, usize)> {
    let size = PacketSize::new(chunk, packet).ok()?;
    Some((size.capacity(), size.frame_capacity()))
}

// How many bytes the first packet of an append takes.
fn first(chunk: u32, packet: u32, len: u64) -> Option<usize> {
    Some(PacketSize::new(chunk, packet).ok()?.first_capacity(len))
}

#[test]
fn sizes(rt: HostRuntime) {
    assert!(rt; room(512, 65_536) == Some((64_512, 65_049)));
    assert!(rt; room(512, 0) == Some((512, 549)));
    assert!(rt; PacketSize::new(4, 40) == Err(SizeError::Packet));
    assert!(rt; room(4, 41) == Some((4, 41)));
    assert!(rt; first(4, 41, 10) == Some(2));
    assert!(rt; first(4, 41, 12) == Some(4));
    assert!(rt; PacketSize::new(1_048_577, 0) == Err(SizeError::Chunk));
}

#[test]
fn heartbeat(rt: HostRuntime) {
    let mut buf = [0xee; 32];
    let packet = WritePacket {
        offset: 0,
        seqno: HEART_BEAT_SEQNO,
        last: false,
        data: b"",
    };
    assert!(rt; write_frame(&mut buf, packet, 512) == Some(31));
    assert!(rt;
        &buf[0..32]
            == b"\0\0\0\x04\0\x19\x09\0\0\0\0\0\0\0\0\x11\xff\xff\xff\xff\xff\xff\xff\xff\x18\0\x25\0\0\0\0\xee".as_slice()
    );
}

// "123456789" has the CRC-32C E3069283
#[test]
fn round_trip(rt: HostRuntime) -> Result<(), Fail> {
    let mut buf = [0; 64];
    let packet = WritePacket {
        offset: 9,
        seqno: 1,
        last: true,
        data: b"123456789123",
    };
    assert!(rt; write_frame(&mut buf, packet, 9) == Some(53));
    assert!(rt; &buf[33..37] == b"\xe3\x06\x92\x83".as_slice());
    assert!(rt; read_frame(&buf).is_none());
    let frame = read_frame(&buf[0..53]).ok_or("no frame")?;
    assert_eq!(rt; frame.packet.offset, 9);
    assert!(rt; frame.packet == packet);
    assert!(rt; sums_match(frame.sums, frame.packet.data, 9));
    assert!(rt; !sums_match(frame.sums, frame.packet.data, 8));
    assert!(rt; write_frame(&mut buf[0..52], packet, 9).is_none());
    Ok(())
}
