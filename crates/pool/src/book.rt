//! What a namenode in memory keeps of its block.
ghost use Rattle.std.specs.Prelude.{◌≤◌, vec_capacity};

use proto::datanode::Datanode;
use proto::token::Token;

/// How many datanodes an update may name: there is memory for these from the start.
pub const PLACES: usize = 8;

/// The block's stamp, length and datanodes, and the token for them.
#[derive(Drop)]
pub struct Book {
    pub(crate) stamp: u64,
    pub(crate) size: u64,
    pub(crate) nodes: Vec<Datanode>,
    pub(crate) token: Token,
    ghost places: { 8 ≤ vec_capacity nodes },
}
