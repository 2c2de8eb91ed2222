//! Requests that copy a block to a new datanode.
use crate::error::LineError;
use crate::hex::octets;
use crate::requests::{block_of, is_sent_as, node_of, text_of, token_of};
use proto::block::ClientOperationHeader;
use request::transfer_block::TransferBlock;
use std::alloc::Global;

/// `POOL ID STAMP BYTES TOKEN CLIENT NODE REQUEST`: whether that is the request.
pub fn agrees(heap: Global, words: &[&str]) -> Result<bool, LineError> {
    let [pool, id, stamp, bytes, token, client, node, request] = words else {
        return Err(LineError::Form);
    };
    let block = block_of(&[*pool, *id, *stamp, *bytes])?;
    let token = token_of(heap, token)?;
    let client_name = text_of(client)?;
    let target = node_of(heap, node)?;
    let request = octets(heap, request)?;
    let header = ClientOperationHeader {
        block,
        token: &token,
        client_name: &client_name,
    };
    let transfer = TransferBlock {
        header,
        target: &target,
    };
    Ok(is_sent_as(&transfer, request.as_slice()))
}
