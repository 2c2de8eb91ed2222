//! The block kept by a spool, a chain of one node, for a cluster that has no datanode more to give.
use crate::cluster::{STAMP, datanodes, opening, room, token};
use crate::options::Options;
use crate::record::show_record;
use crate::write::write_block;
use packet::size::PacketSize;
use pool::memory::House;
use replace::datanode::ReplaceDatanodeOnFailure;
use spool::state::Spool;
use std::fs;

// Writes the kept bytes to the file of that name.
fn write_file(rt: &HostRuntime, kept: &[u8], name: &str) -> anyhow::Result<()> {
    fs::write(rt, name, kept)?;
    let len = kept.len();
    println!(rt; "{name} has {len} bytes")?;
    Ok(())
}

/// Writes the block through a spool with room for it, and tells what was kept and recorded.
pub fn keep_block(
    rt: &HostRuntime,
    options: &Options,
    size: PacketSize,
    replace: ReplaceDatanodeOnFailure,
    block: &[u8],
) -> anyhow::Result<()> {
    let bytes = Vec::with_capacity(rt.alloc(), block.len())?;
    let mut spool = Spool::over(rt.alloc(), bytes, 1)?;
    let mut nodes = room()?;
    let nodes = datanodes(&mut nodes, 0, 1)?;
    let mut house = House::new(rt.alloc(), STAMP, 0, nodes, token()?)?;
    println!(rt; "spool, one datanode:")?;
    let opening = opening(options, size, 1, replace)?;
    let record = write_block(rt, opening, size, &mut spool, &mut house, block)?;
    show_record(rt, &record, house.entry())?;
    let kept = spool.kept();
    let len = kept.len();
    let same = kept == block;
    println!(rt; "  bytes kept {len}, the block's bytes {same}")?;
    match options.spool.as_deref() {
        Some(name) => write_file(rt, kept, name),
        None => Ok(()),
    }
}
