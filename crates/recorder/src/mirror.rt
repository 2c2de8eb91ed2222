//! The block on a bench of several nodes, a replica each, one of which may fail, and what each of them holds.
use crate::cluster::{STAMP, datanodes, opening, room, token};
use crate::options::Options;
use crate::record::show_record;
use crate::write::write_block;
use bench::state::Bench;
use faults::failing_node::FailingNode;
use packet::size::PacketSize;
use pool::memory::Pool;
use replace::datanode::ReplaceDatanodeOnFailure;

// Tells of each node whether its replica is the block.
fn show_replicas(rt: &HostRuntime, bench: &Bench, block: &[u8]) -> anyhow::Result<()> {
    let len = bench.kept().len();
    let same = bench.kept() == block;
    println!(rt; "  node 1 keeps {len} bytes, the block's bytes {same}")?;
    let replicas = (0..bench.replicas()).filter_map(|i| bench.replica(i));
    for (i, replica) in replicas.enumerate() {
        let node = i.saturating_add(2);
        let len = replica.len();
        let same = replica == block;
        println!(rt; "  node {node} holds {len} bytes, the block's bytes {same}")?;
    }
    Ok(())
}

/// Writes the block through a bench of that many nodes, the chosen one of which fails at the chosen packet, with a namenode that has datanodes
/// to spare, and tells what was confirmed, mended, kept and recorded, and what each replica holds.
pub fn mirror_block(
    rt: &HostRuntime,
    options: &Options,
    size: PacketSize,
    replace: ReplaceDatanodeOnFailure,
    block: &[u8],
    count: usize,
) -> anyhow::Result<()> {
    let bytes = Vec::with_capacity(rt.alloc(), block.len())?;
    let bench = Bench::over(rt.alloc(), bytes)?;
    let packet = options.fail_packet.unwrap_or(u64::MAX);
    let mut chain = FailingNode::at_packet(bench, packet, options.fail_node, count);
    let (mut nodes, mut spares) = (room()?, room()?);
    let nodes = datanodes(&mut nodes, 0, count)?;
    let spares = datanodes(&mut spares, count, options.spares)?;
    let mut pool = Pool::new(rt.alloc(), STAMP, 0, nodes, token()?, spares)?;
    println!(rt; "bench of {count} nodes, {} to spare:", options.spares)?;
    let opening = opening(options, size, count, replace)?;
    let record = write_block(rt, opening, size, &mut chain, &mut pool, block)?;
    show_record(rt, &record, pool.entry())?;
    show_replicas(rt, chain.inner(), block)
}
