//! The namenode's requests as they stand on the wire.
use crate::message::Message;
use crate::opening::ScriptedOpening;
use proto::datanode::Datanode;
use std::alloc::{AllocError, Global};

/// What stands before the client's uuid in the name that it gives the namenode.
const CLIENT_PREFIX: &str = "hdfs_native_client-";

/// What a namenode's client names in its requests besides what it is asked for: the file, the block and itself.
#[derive(Drop)]
pub struct Client {
    heap: Global,
    path: Vec<u8>,
    pool_id: Vec<u8>,
    block_id: u64,
    /// The block's stamp, as the last update left it.
    pub stamp: u64,
    name: Vec<u8>,
}

impl Client {
    /// The client of an opening, by its uuid.
    pub fn new(heap: Global, opening: &ScriptedOpening, uuid: &str) -> Result<Client, AllocError> {
        let name = format!(in heap; "{CLIENT_PREFIX}{uuid}")?;
        Ok(Client {
            heap,
            path: opening.path.clone()?,
            pool_id: opening.pool_id.clone()?,
            block_id: opening.block_id,
            stamp: opening.stamp,
            name: Vec::from_slice(heap, name.as_bytes())?,
        })
    }

    // An `ExtendedBlockProto`.
    fn block(&self, stamp: u64, len: u64) -> Result<Vec<u8>, AllocError> {
        let mut block = Message::new(self.heap);
        block.part(1, self.pool_id.as_slice())?;
        block.number(2, self.block_id)?;
        block.number(3, stamp)?;
        block.number(4, len)?;
        Ok(block.into_octets())
    }

    /// A `GetAdditionalDatanodeRequestProto`.
    pub fn get_additional_datanode(
        &self,
        len: u64,
        survivors: &[Datanode],
        failed: &[Datanode],
    ) -> Result<Vec<u8>, AllocError> {
        let mut message = Message::new(self.heap);
        message.part(1, self.path.as_slice())?;
        message.part(2, self.block(self.stamp, len)?.as_slice())?;
        for node in survivors {
            message.part(3, node.info())?;
        }
        for node in failed {
            message.part(4, node.info())?;
        }
        message.number(5, 1)?;
        message.part(6, self.name.as_slice())?;
        for node in survivors {
            message.part(7, node.storage_id())?;
        }
        Ok(message.into_octets())
    }

    /// An `UpdateBlockForPipelineRequestProto`.
    pub fn update_block_for_pipeline(&self, len: u64) -> Result<Vec<u8>, AllocError> {
        let mut message = Message::new(self.heap);
        message.part(1, self.block(self.stamp, len)?.as_slice())?;
        message.part(2, self.name.as_slice())?;
        Ok(message.into_octets())
    }

    /// An `UpdatePipelineRequestProto`.
    pub fn update_pipeline(
        &self,
        stamp: u64,
        len: u64,
        nodes: &[Datanode],
    ) -> Result<Vec<u8>, AllocError> {
        let mut message = Message::new(self.heap);
        message.part(1, self.name.as_slice())?;
        message.part(2, self.block(self.stamp, len)?.as_slice())?;
        message.part(3, self.block(stamp, len)?.as_slice())?;
        for node in nodes {
            message.part(4, node.id())?;
        }
        for node in nodes {
            message.part(5, node.storage_id())?;
        }
        Ok(message.into_octets())
    }
}
