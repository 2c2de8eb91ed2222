//! The block that goes through the writer.
use crate::memory::show_memory;
use crate::sink::Sink;
use anyhow::{anyhow, bail, ensure};
use packet::size::PacketSize;
use replace::datanode::{Policy, ReplaceDatanodeOnFailure};
use spool::state::Spool;
use writer::buffers::{Buffers, MOST_SLOTS};
use writer::heed::Heeded;
use writer::open::Opened;
use writer::opening::Opening;
use writer::refusal::Refusal;
use writer::state::Writer;

const CHUNK: u32 = 512;

const PACKET: u32 = 65_536;

const NODES: u64 = 3;

const MEBIBYTE: usize = 1_048_576;

/// dn1, 127.0.1.1, ports 50010, 50075 and 50020, rack1, in service.
const INFO: &[u8] =
    b"\x0a\x24\x0a\x09127.0.1.1\x12\x03dn1\x1a\x06uuid-1\x20\xda\x86\x03\x28\x9b\x87\x03\x30\xe4\x86\x03\x10\x80\x80\x80\x80\x80\x20\x18\xe8\x07\x30\x81\xd0\x95\xff\xbc\x31\x42\x06/rack1\x50\x00";

const TOKEN: &[u8] = b"\x0a\x05\x01\x01\x01\x01\x01\x12\x03pw1\x1a\x10HDFS_BLOCK_TOKEN\x22\x03svc";

/// What came of a block.
#[derive(Clone, Copy)]
pub struct Written {
    pub bytes: u64,
    pub packets: u64,
}

fn opening<'a>() -> Opening<'a> {
    Opening {
        path: b"/furnace/block",
        pool_id: b"BP-1",
        block_id: 1_073_741_825,
        stamp: 1001,
        initial_len: 0,
        block_size: 1_073_741_824,
        chunk_size: CHUNK,
        packet_size: PACKET,
        replication: 3,
        replace: ReplaceDatanodeOnFailure::new(Policy::Default, false),
        infos: &[INFO, INFO, INFO],
        storage_ids: &[b"DS-1", b"DS-2", b"DS-3"],
        storage_types: &[1, 1, 1],
        token: TOKEN,
        client_name: b"furnace-recorder",
        time: 0,
    }
}

// Bytes that look like none in particular.
fn fill(bytes: &mut [u8]) {
    let mut x = 1u32;
    for byte in bytes {
        x = x.wrapping_mul(1_664_525).wrapping_add(1_013_904_223);
        *byte = (x >> 24) as u8;
    }
}

fn refused(refusal: Refusal) -> anyhow::Error {
    let number = u8::from(refusal);
    anyhow!("refused with number {number}: {refusal}")
}

// Heeds the answers that have come, and counts those that confirm a packet.
fn heed_all(
    writer: &mut Writer,
    sink: &mut Sink<Spool>,
    buffers: &mut Buffers,
) -> anyhow::Result<u64> {
    let mut confirmed = 0u64;
    for _ in 0..MOST_SLOTS {
        let heeded = writer
            .heed(
                sink,
                &buffers.store,
                &buffers.frame,
                &buffers.request,
                &mut buffers.answer,
            )
            .map_err(refused)?;
        match heeded {
            Heeded::Confirmed(_) => confirmed = confirmed.saturating_add(1),
            Heeded::Complete(_) => return Ok(confirmed.saturating_add(1)),
            Heeded::Nothing => break,
            Heeded::HeartBeat | Heeded::Broken(_) => bail!("the sink gives other answers"),
        }
    }
    Ok(confirmed)
}

// Writes a part, and heeds what comes of it. A part has fewer packets than there are slots.
fn write_part(
    writer: &mut Writer,
    sink: &mut Sink<Spool>,
    buffers: &mut Buffers,
    part: &[u8],
) -> anyhow::Result<u64> {
    let written = writer
        .write(
            sink,
            &mut buffers.store,
            &mut buffers.frame,
            &buffers.request,
            &buffers.answer,
            part,
        )
        .map_err(refused)?;
    ensure!(
        written.taken == part.len() && !written.put_lost,
        "a part was not taken whole"
    );
    heed_all(writer, sink, buffers)
}

/// Writes a block of so many mebibytes, and closes it.
pub fn write_mebibytes(rt: &HostRuntime, mebibytes: usize) -> anyhow::Result<Written> {
    let size = PacketSize::new(CHUNK, PACKET).map_err(|_| anyhow!("the sizes do not go together"))?;
    let mut part = vec![in rt.alloc(); 0u8; MEBIBYTE]?;
    fill(&mut part);
    let mut buffers = Buffers::new(rt.alloc(), size, MOST_SLOTS)?;
    let mut sink = Sink::over(Spool::over(rt.alloc(), Vec::new(rt.alloc()), NODES)?);
    let Opened {
        mut writer,
        outcome,
    } = Writer::open(
        rt.alloc(),
        opening(),
        &mut sink,
        &buffers.store,
        &buffers.frame,
        &mut buffers.request,
        &mut buffers.answer,
    )?;
    outcome.map_err(refused)?;
    show_memory(rt, &writer)?;
    let mut packets = 0u64;
    for _ in 0..mebibytes {
        let confirmed = write_part(&mut writer, &mut sink, &mut buffers, &part)?;
        packets = packets.saturating_add(confirmed);
    }
    writer
        .finish(
            &mut sink,
            &buffers.store,
            &mut buffers.frame,
            &buffers.request,
            &buffers.answer,
        )
        .map_err(refused)?;
    packets = packets.saturating_add(heed_all(&mut writer, &mut sink, &mut buffers)?);
    let record = writer.close().map_err(refused)?;
    Ok(Written {
        bytes: record.num_bytes,
        packets,
    })
}
