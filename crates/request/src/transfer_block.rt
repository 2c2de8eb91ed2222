//! `OpTransferBlockProto`: the request that copies a block to a new datanode of its pipeline.
use proto::block::ClientOperationHeader;
use proto::datanode::Datanode;

/// A copy of a block, to be sent on to one datanode. The storage type is the new datanode's.
#[derive(Clone, Copy)]
pub struct TransferBlock<'a> {
    pub header: ClientOperationHeader<'a>,
    pub target: &'a Datanode,
}
