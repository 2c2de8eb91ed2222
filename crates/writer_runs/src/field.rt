//! What an opening is given in place of what it has by default.
use replace::datanode::{Policy, ReplaceDatanodeOnFailure};
use writer::opening::Opening;

/// One field of an opening, with its value.
#[derive(Clone, Copy)]
pub enum Field {
    Path(&'static [u8]),
    PoolId(&'static [u8]),
    ClientName(&'static [u8]),
    Token(&'static [u8]),
    InitialLen(u64),
    BlockSize(u64),
    ChunkSize(u32),
    PacketSize(u32),
    /// The policy, and whether the effort is the best one.
    Replace(Policy, bool),
    Infos(&'static [&'static [u8]]),
    StorageIds(&'static [&'static [u8]]),
    StorageTypes(&'static [u8]),
}

impl Field {
    // Gives an opening this value.
    fn put(self, opening: &mut Opening<'static>) {
        match self {
            Field::Path(path) => opening.path = path,
            Field::PoolId(pool_id) => opening.pool_id = pool_id,
            Field::ClientName(name) => opening.client_name = name,
            Field::Token(token) => opening.token = token,
            Field::InitialLen(len) => opening.initial_len = len,
            Field::BlockSize(size) => opening.block_size = size,
            Field::ChunkSize(size) => opening.chunk_size = size,
            Field::PacketSize(size) => opening.packet_size = size,
            Field::Replace(policy, best_effort) => {
                opening.replace = ReplaceDatanodeOnFailure::new(policy, best_effort);
            }
            Field::Infos(infos) => opening.infos = infos,
            Field::StorageIds(ids) => opening.storage_ids = ids,
            Field::StorageTypes(types) => opening.storage_types = types,
        }
    }
}

/// An opening with these fields in place of its own.
pub fn with_fields(opening: Opening<'static>, fields: &[Field]) -> Opening<'static> {
    let mut opening = opening;
    for field in fields {
        field.put(&mut opening);
    }
    opening
}
