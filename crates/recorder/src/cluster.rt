//! The datanodes, the token and the names of the dry run's block.
use crate::options::Options;
use anyhow::{Context, ensure};
use packet::size::PacketSize;
use proto::datanode::Datanode;
use proto::token::Token;
use replace::datanode::ReplaceDatanodeOnFailure;
use writer::opening::Opening;

/// The block's generation stamp at the beginning.
pub const STAMP: u64 = 1001;

const PLACES: usize = 8;

/// Nine datanodes, each a `DatanodeInfoProto`: name, address, ports 50010, 50075 and 50020, rack, in service.
const INFOS: [&[u8]; 9] = [
    b"\x0a\x24\x0a\x09127.0.1.1\x12\x03dn1\x1a\x06uuid-1\x20\xda\x86\x03\x28\x9b\x87\x03\x30\xe4\x86\x03\x10\x80\x80\x80\x80\x80\x20\x18\xe8\x07\x30\x81\xd0\x95\xff\xbc\x31\x42\x06/rack1\x50\x00",
    b"\x0a\x24\x0a\x09127.0.1.2\x12\x03dn2\x1a\x06uuid-2\x20\xda\x86\x03\x28\x9b\x87\x03\x30\xe4\x86\x03\x10\x80\x80\x80\x80\x80\x20\x18\xe8\x07\x30\x81\xd0\x95\xff\xbc\x31\x42\x06/rack2\x50\x00",
    b"\x0a\x24\x0a\x09127.0.1.3\x12\x03dn3\x1a\x06uuid-3\x20\xda\x86\x03\x28\x9b\x87\x03\x30\xe4\x86\x03\x10\x80\x80\x80\x80\x80\x20\x18\xe8\x07\x30\x81\xd0\x95\xff\xbc\x31\x42\x06/rack3\x50\x00",
    b"\x0a\x24\x0a\x09127.0.1.4\x12\x03dn4\x1a\x06uuid-4\x20\xda\x86\x03\x28\x9b\x87\x03\x30\xe4\x86\x03\x10\x80\x80\x80\x80\x80\x20\x18\xe8\x07\x30\x81\xd0\x95\xff\xbc\x31\x42\x06/rack1\x50\x00",
    b"\x0a\x24\x0a\x09127.0.1.5\x12\x03dn5\x1a\x06uuid-5\x20\xda\x86\x03\x28\x9b\x87\x03\x30\xe4\x86\x03\x10\x80\x80\x80\x80\x80\x20\x18\xe8\x07\x30\x81\xd0\x95\xff\xbc\x31\x42\x06/rack2\x50\x00",
    b"\x0a\x24\x0a\x09127.0.1.6\x12\x03dn6\x1a\x06uuid-6\x20\xda\x86\x03\x28\x9b\x87\x03\x30\xe4\x86\x03\x10\x80\x80\x80\x80\x80\x20\x18\xe8\x07\x30\x81\xd0\x95\xff\xbc\x31\x42\x06/rack3\x50\x00",
    b"\x0a\x24\x0a\x09127.0.1.7\x12\x03dn7\x1a\x06uuid-7\x20\xda\x86\x03\x28\x9b\x87\x03\x30\xe4\x86\x03\x10\x80\x80\x80\x80\x80\x20\x18\xe8\x07\x30\x81\xd0\x95\xff\xbc\x31\x42\x06/rack1\x50\x00",
    b"\x0a\x24\x0a\x09127.0.1.8\x12\x03dn8\x1a\x06uuid-8\x20\xda\x86\x03\x28\x9b\x87\x03\x30\xe4\x86\x03\x10\x80\x80\x80\x80\x80\x20\x18\xe8\x07\x30\x81\xd0\x95\xff\xbc\x31\x42\x06/rack2\x50\x00",
    b"\x0a\x24\x0a\x09127.0.1.9\x12\x03dn9\x1a\x06uuid-9\x20\xda\x86\x03\x28\x9b\x87\x03\x30\xe4\x86\x03\x10\x80\x80\x80\x80\x80\x20\x18\xe8\x07\x30\x81\xd0\x95\xff\xbc\x31\x42\x06/rack3\x50\x00",
];

const STORAGES: [&[u8]; 9] = [
    b"DS-1", b"DS-2", b"DS-3", b"DS-4", b"DS-5", b"DS-6", b"DS-7", b"DS-8", b"DS-9",
];

/// Each storage is a disk.
const TYPES: [u8; 9] = [1; 9];

// A `TokenProto`: identifier, password, kind and service.
const TOKEN: &[u8] = b"\x0a\x05\x01\x01\x01\x01\x01\x12\x03pw1\x1a\x10HDFS_BLOCK_TOKEN\x22\x03svc";

/// The token of the block, as the namenode has it.
pub fn token() -> anyhow::Result<Token> {
    Token::new(TOKEN).context("the token is not in form")
}

// The datanode of that number.
fn datanode(i: usize) -> anyhow::Result<Datanode> {
    let info = INFOS.get(i).context("there are nine datanodes")?;
    let storage = STORAGES.get(i).context("there are nine storages")?;
    Datanode::new(info, storage, 1).context("a datanode is not in form")
}

/// So many datanodes from that number on, at the front of `out`.
pub fn datanodes(
    out: &mut [Datanode; PLACES],
    from: usize,
    count: usize,
) -> anyhow::Result<&[Datanode]> {
    for i in 0..count.min(PLACES) {
        out[i] = datanode(from.saturating_add(i))?;
    }
    out.get(0..count)
        .context("there are at most eight datanodes")
}

/// Eight times the first datanode, as room for others.
pub fn room() -> anyhow::Result<[Datanode; PLACES]> {
    Ok([datanode(0)?; PLACES])
}

/// The dry run's block, on so many datanodes.
pub fn opening<'a>(
    options: &Options,
    size: PacketSize,
    nodes: usize,
    replace: ReplaceDatanodeOnFailure,
) -> anyhow::Result<Opening<'a>> {
    ensure!(
        nodes >= 1 && nodes <= PLACES,
        "a pipeline has one to eight datanodes"
    );
    Ok(Opening {
        path: b"/furnace/block",
        pool_id: b"BP-1",
        block_id: 1_073_741_825,
        stamp: STAMP,
        initial_len: 0,
        // The writer opens no block for more than 2^63 - 1 bytes; a larger limit is as good as that.
        block_size: options.block.min(u64::MAX / 2),
        chunk_size: size.chunk_size(),
        packet_size: options.packet,
        replication: nodes as u32,
        replace,
        infos: &INFOS[0..nodes],
        storage_ids: &STORAGES[0..nodes],
        storage_types: &TYPES[0..nodes],
        token: TOKEN,
        client_name: b"furnace-recorder",
        time: 0,
    })
}
