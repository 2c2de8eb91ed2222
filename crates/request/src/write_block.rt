//! `OpWriteBlockProto`: the request that sets up a pipeline.
ghost use Rattle.std.specs.Prelude.{◌≤◌, length};

use crate::stage::Stage;
use proto::block::ClientOperationHeader;
use proto::datanode::Datanode;

/// A pipeline to be set up: its first datanode, which the request is sent to, and those behind it, of which there are at most seven.
#[derive(Clone, Copy)]
pub struct WriteBlock<'a> {
    pub header: ClientOperationHeader<'a>,
    pub stage: Stage,
    pub first: &'a Datanode,
    pub targets: &'a [Datanode],
    pub min_bytes: u64,
    pub max_bytes: u64,
    pub latest_stamp: u64,
    pub chunk_size: u32,
    ghost few: { length targets.now ≤ 7 },
}
