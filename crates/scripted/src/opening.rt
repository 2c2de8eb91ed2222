//! What a script opens its block with.
use replace::settings::Settings;
use std::alloc::Global;

/// A datanode's row: its `DatanodeInfoProto`, and the name and type of its storage. Nothing of it has been looked at.
#[derive(Drop)]
pub struct NodeRow {
    pub info: Vec<u8>,
    pub storage_id: Vec<u8>,
    pub storage_type: u64,
}

/// What the block is opened with, as the script's lines have it.
#[derive(Drop)]
pub struct ScriptedOpening {
    pub path: Vec<u8>,
    pub pool_id: Vec<u8>,
    pub block_id: u64,
    pub stamp: u64,
    pub initial_len: u64,
    pub block_size: u64,
    pub chunk_size: u32,
    pub packet_size: u32,
    pub replication: u32,
    pub settings: Settings,
    pub token: Vec<u8>,
    pub nodes: Vec<NodeRow>,
}

impl ScriptedOpening {
    /// An opening of which no line was read.
    pub fn new(heap: Global) -> ScriptedOpening {
        ScriptedOpening {
            path: Vec::new(heap),
            pool_id: Vec::new(heap),
            block_id: 0,
            stamp: 0,
            initial_len: 0,
            block_size: 0,
            chunk_size: 0,
            packet_size: 0,
            replication: 0,
            settings: Settings::new(),
            token: Vec::new(heap),
            nodes: Vec::new(heap),
        }
    }
}
