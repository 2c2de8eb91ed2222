//! The sizes of a random block, and what goes wrong with it.
use anyhow::anyhow;
use faults::chance::Chance;
use packet::size::PacketSize;
use replace::datanode::{Policy, ReplaceDatanodeOnFailure};

/// A block has so many bytes at most.
const BLOCK: u64 = 400;

const CHUNKS: [u32; 5] = [1, 4, 7, 16, 64];

const POLICIES: [Policy; 4] = [
    Policy::Disable,
    Policy::Never,
    Policy::Default,
    Policy::Always,
];

/// Once in so many acts of the pipeline something goes wrong.
const RARITIES: [u64; 5] = [6, 12, 40, 120, 1000];

/// Once in so many requests the namenode refuses.
const REFUSALS: [u64; 3] = [4, 20, 500];

#[derive(Clone, Copy)]
pub struct Plan {
    pub size: PacketSize,
    /// The packet size as it is asked for.
    pub packet: u32,
    /// The store has room for so many packets.
    pub slots: usize,
    pub block_size: u64,
    /// The block has so many bytes already.
    pub initial: u64,
    pub nodes: usize,
    pub replication: u32,
    /// The namenode has so many datanodes to spare.
    pub spares: usize,
    pub replace: ReplaceDatanodeOnFailure,
    pub rarity: u64,
    pub refusals: u64,
}

// One of some values.
fn one_of<T: Copy>(chance: &mut Chance, values: &[T], other: T) -> T {
    let at = chance.below(values.len() as u64) as usize;
    values.get(at).copied().unwrap_or(other)
}

// How many octets a packet may have: as few as there can be, or room for some chunks, and some more that no chunk fills.
fn packet_for(chance: &mut Chance, chunk: u32) -> u32 {
    if chance.one_in(2) {
        return 0;
    }
    let chunks = chance.below(3).saturating_add(1) as u32;
    let more = chance.below(4) as u32;
    chunks
        .saturating_mul(chunk.saturating_add(4))
        .saturating_add(33)
        .saturating_add(more)
}

impl Plan {
    pub fn random(chance: &mut Chance) -> anyhow::Result<Plan> {
        let chunk = one_of(chance, &CHUNKS, 4);
        let packet = packet_for(chance, chunk);
        let size = PacketSize::new(chunk, packet).map_err(|_| anyhow!(
            "the sizes do not go together"
        ))?;
        let block_size = chance.below(BLOCK);
        let initial = if chance.one_in(3) {
            chance.below(block_size.saturating_add(1))
        } else {
            0
        };
        let nodes = chance.below(8).saturating_add(1);
        let policy = one_of(chance, &POLICIES, Policy::Never);
        Ok(Plan {
            size,
            packet,
            slots: chance.below(6).saturating_add(3) as usize,
            block_size,
            initial,
            nodes: nodes as usize,
            replication: nodes as u32,
            spares: chance.below(5) as usize,
            replace: ReplaceDatanodeOnFailure::new(policy, chance.one_in(2)),
            rarity: one_of(chance, &RARITIES, 40),
            refusals: one_of(chance, &REFUSALS, 20),
        })
    }
}
