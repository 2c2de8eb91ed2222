//! The furnace recorder's dry run: readings from standard input become a block, packets and frames, and each frame is read back and compared;
//! then the block writer writes the block through a spool, a chain of one node, and through a bench of several, one of which may fail.
#![tactic(auto)]

mod cluster;
mod keep;
mod mirror;
mod options;
mod packets;
mod progress;
mod record;
mod send;
mod take;
mod write;

use anyhow::anyhow;
use keep::keep_block;
use mirror::mirror_block;
use options::Options;
use packet::size::PacketSize;
use send::send_block;
use std::io::Read;
use take::take_lines;

fn run(rt: &HostRuntime) -> anyhow::Result<()> {
    let options = Options::from_args(rt)?;
    // `map_err`, since `context` would print the cause too.
    let size = PacketSize::new(options.chunk, options.packet).map_err(|_| anyhow!(
        "these chunk and packet sizes do not go together"
    ))?;
    let mut text = Vec::new(rt.alloc());
    rt.stdin().read_to_end(&mut text)?;
    let mut block = Vec::new(rt.alloc());
    take_lines(rt, text.as_slice(), options.block, &mut block)?;
    send_block(rt, size, block.as_slice())?;
    let replace = options.replacement();
    keep_block(rt, &options, size, replace, block.as_slice())?;
    match options.nodes {
        Some(nodes) => mirror_block(rt, &options, size, replace, block.as_slice(), nodes),
        None => Ok(()),
    }
}

fn main(rt: HostRuntime) -> anyhow::Result<()> {
    run(&rt)
}
