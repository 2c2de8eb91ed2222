//! A block written by the block writer, through any chain.
use crate::progress::{Progress, refused};
use chain::meaning::Chain;
use namenode::meaning::Namenode;
use packet::size::PacketSize;
use proto::block::ExtendedBlock;
use runs::client::run;
use writer::buffers::{Buffers, MOST_SLOTS};
use writer::open::Opened;
use writer::opening::Opening;
use writer::state::Writer;

/// So many turns are more than a block of that length needs: each takes bytes, or hears of a packet, or mends the pipeline.
fn turns(block: &[u8], capacity: usize) -> usize {
    let packets = block.len() / capacity.max(1);
    packets.saturating_mul(4).saturating_add(1024)
}

/// Opens the block, writes and finishes it, mends the pipeline as often as it breaks, and closes the block. Each recovery is told.
// The size stands beside the opening, which has its two numbers as they came from outside, and not looked at.
pub fn write_block<C: Chain, N: Namenode>(
    rt: &HostRuntime,
    opening: Opening<'_>,
    size: PacketSize,
    link: &mut C,
    namenode: &mut N,
    block: &[u8],
) -> anyhow::Result<ExtendedBlock> {
    let mut buffers = Buffers::new(rt.alloc(), size, MOST_SLOTS)?;
    let Opened {
        mut writer,
        outcome,
    } = Writer::open(
        rt.alloc(),
        opening,
        link,
        &buffers.store,
        &buffers.frame,
        &mut buffers.request,
        &mut buffers.answer,
    )?;
    if let Err(refusal) = outcome {
        return refused(rt, "the opening", refusal);
    }
    let mut progress = Progress::new(block);
    for _ in 0..turns(block, size.capacity()) {
        if progress.is_complete() {
            break;
        }
        let commands = progress.commands();
        let mut outcomes = [None; 3];
        run(
            &mut writer,
            link,
            namenode,
            &mut buffers.store,
            &mut buffers.frame,
            &mut buffers.request,
            &mut buffers.answer,
            &commands,
            &mut outcomes,
        );
        for outcome in outcomes.into_iter().flatten() {
            progress.take(rt, outcome, writer.state())?;
        }
    }
    progress.show(rt)?;
    match writer.close() {
        Ok(record) => Ok(record),
        Err(refusal) => refused(rt, "the close", refusal),
    }
}
