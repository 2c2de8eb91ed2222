//! A block's closing record, beside what the namenode has of the block.
use anyhow::{Context, ensure};
use pool::entry::BlockEntry;
use proto::block::ExtendedBlock;
use std::str;

/// Tells the record and the namenode's entry, which must have its stamp.
pub fn show_record(
    rt: &HostRuntime,
    record: &ExtendedBlock,
    entry: BlockEntry<'_>,
) -> anyhow::Result<()> {
    let pool = str::from_utf8(record.pool_id.as_slice()).context("the pool is no text")?;
    println!(rt;
        "  record: pool {pool}, block {}, stamp {}, bytes {}",
        record.block_id, record.generation_stamp, record.num_bytes
    )?;
    ensure!(
        entry.stamp == record.generation_stamp,
        "the namenode has another stamp"
    );
    println!(rt;
        "  the namenode has stamp {} on these datanodes:",
        entry.stamp
    )?;
    for node in entry.nodes {
        let ip = str::from_utf8(node.ip_addr()).context("an address is no text")?;
        println!(rt; "    {ip}:{}", node.xfer_port())?;
    }
    Ok(())
}
