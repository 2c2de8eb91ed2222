//! Twelve datanodes, which differ by a letter, and their names.
use anyhow::Context;
use proto::datanode::Datanode;
use proto::token::Token;

/// There are so many datanodes.
pub const DATANODES: usize = 12;

/// `DatanodeInfoProto`s in form, whose ip is the letter at place 4.
pub const INFOS: [&[u8]; DATANODES] = [
    b"\x0a\x0f\x0a\x01a\x12\x01h\x1a\x01u\x20\x09\x28\x00\x30\x00",
    b"\x0a\x0f\x0a\x01b\x12\x01h\x1a\x01u\x20\x09\x28\x00\x30\x00",
    b"\x0a\x0f\x0a\x01c\x12\x01h\x1a\x01u\x20\x09\x28\x00\x30\x00",
    b"\x0a\x0f\x0a\x01d\x12\x01h\x1a\x01u\x20\x09\x28\x00\x30\x00",
    b"\x0a\x0f\x0a\x01e\x12\x01h\x1a\x01u\x20\x09\x28\x00\x30\x00",
    b"\x0a\x0f\x0a\x01f\x12\x01h\x1a\x01u\x20\x09\x28\x00\x30\x00",
    b"\x0a\x0f\x0a\x01g\x12\x01h\x1a\x01u\x20\x09\x28\x00\x30\x00",
    b"\x0a\x0f\x0a\x01h\x12\x01h\x1a\x01u\x20\x09\x28\x00\x30\x00",
    b"\x0a\x0f\x0a\x01i\x12\x01h\x1a\x01u\x20\x09\x28\x00\x30\x00",
    b"\x0a\x0f\x0a\x01j\x12\x01h\x1a\x01u\x20\x09\x28\x00\x30\x00",
    b"\x0a\x0f\x0a\x01k\x12\x01h\x1a\x01u\x20\x09\x28\x00\x30\x00",
    b"\x0a\x0f\x0a\x01l\x12\x01h\x1a\x01u\x20\x09\x28\x00\x30\x00",
];

const LETTER: usize = 4;

/// The block's generation stamp at the beginning.
pub const STAMP: u64 = 1001;

/// A `TokenProto` in form.
pub const TOKEN: &[u8] = b"\x0a\x00\x12\x00\x1a\x00\x22\x00";

/// The letter of a datanode, from its octets.
pub fn letter(info: &[u8]) -> Option<u8> {
    info.get(LETTER).copied()
}

pub fn token() -> anyhow::Result<Token> {
    Token::new(TOKEN).context("the token is not in form")
}

/// The datanodes, each with its storage.
pub fn datanodes() -> anyhow::Result<[Datanode; DATANODES]> {
    let mut nodes = [datanode(INFOS[0])?; DATANODES];
    for (node, info) in nodes.iter_mut().zip(INFOS) {
        *node = datanode(info)?;
    }
    Ok(nodes)
}

// The datanode that these octets are.
fn datanode(info: &[u8]) -> anyhow::Result<Datanode> {
    Datanode::new(info, b"DS-1", 1).context("a datanode is not in form")
}
