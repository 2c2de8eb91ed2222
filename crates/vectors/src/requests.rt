//! What all requests are made of: the block, its token, the client and the datanodes.
use crate::error::LineError;
use crate::hex::octets;
use proto::block::ExtendedBlock;
use proto::datanode::Datanode;
use proto::fixed::Fixed;
use proto::token::Token;
use request::send::{Request, send};
use std::alloc::Global;

// So many octets hold every request.
const REQUEST_LEN: usize = 4096;

/// A text of at most 64 octets.
pub fn text_of(text: &str) -> Result<Fixed<64>, LineError> {
    Ok(Fixed::try_from(text.as_bytes())?)
}

/// `POOL ID STAMP BYTES`
pub fn block_of(words: &[&str]) -> Result<ExtendedBlock, LineError> {
    let [pool, id, stamp, bytes] = words else {
        return Err(LineError::Form);
    };
    Ok(ExtendedBlock {
        pool_id: text_of(pool)?,
        block_id: id.parse()?,
        generation_stamp: stamp.parse()?,
        num_bytes: bytes.parse()?,
    })
}

/// A token, as the octets of its message.
pub fn token_of(heap: Global, word: &str) -> Result<Token, LineError> {
    let message = octets(heap, word)?;
    Token::new(message.as_slice()).ok_or(LineError::Form)
}

/// `INFO:STORAGE:TYPE`
pub fn node_of(heap: Global, word: &str) -> Result<Datanode, LineError> {
    let (info, storage) = word.split_once(':').ok_or(LineError::Form)?;
    let (name, kind) = storage.split_once(':').ok_or(LineError::Form)?;
    let info = octets(heap, info)?;
    Datanode::new(info.as_slice(), name.as_bytes(), kind.parse()?).ok_or(LineError::Form)
}

/// Whether the request is written as these octets.
pub fn is_sent_as<R: Request>(request: &R, octets: &[u8]) -> bool {
    let mut buf = [0u8; REQUEST_LEN];
    send(request, &mut buf).is_some_and(|end| end <= REQUEST_LEN && &buf[..end] == octets)
}

/// Datanodes, a word for each.
pub fn nodes_of(heap: Global, words: &[&str]) -> Result<Vec<Datanode>, LineError> {
    let mut nodes = Vec::new(heap);
    for word in words {
        nodes.push(node_of(heap, word)?)?;
    }
    Ok(nodes)
}
