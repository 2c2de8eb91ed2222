//! Datanodes, tokens and openings for the runs.
use ack::tally::FailedNodes;
use proto::datanode::Datanode;
use proto::token::Token;
use replace::datanode::{Policy, ReplaceDatanodeOnFailure};
use std::test::Fail;
use writer::cause::Cause;
use writer::heed::Heeded;
use writer::opening::Opening;

/// A `DatanodeInfoProto` in form. Its ip is the letter a.
pub const A: &[u8] = b"\x0a\x0f\x0a\x01a\x12\x01h\x1a\x01u\x20\x09\x28\x00\x30\x00";

/// One whose ip is b.
pub const B: &[u8] = b"\x0a\x0f\x0a\x01b\x12\x01h\x1a\x01u\x20\x09\x28\x00\x30\x00";

/// One whose ip is c.
pub const C: &[u8] = b"\x0a\x0f\x0a\x01c\x12\x01h\x1a\x01u\x20\x09\x28\x00\x30\x00";

/// One whose ip is d.
pub const D: &[u8] = b"\x0a\x0f\x0a\x01d\x12\x01h\x1a\x01u\x20\x09\x28\x00\x30\x00";

/// One whose ip is e.
pub const E: &[u8] = b"\x0a\x0f\x0a\x01e\x12\x01h\x1a\x01u\x20\x09\x28\x00\x30\x00";

const INFOS: [&[u8]; 5] = [A, B, C, D, E];

/// The name of a datanode's storage.
pub const DS_1: &[u8] = b"DS-1";

const STORAGE_IDS: [&[u8]; 5] = [DS_1; 5];

const STORAGE_TYPES: [u8; 5] = [1; 5];

/// A `TokenProto` in form.
pub const TOKEN: &[u8] = b"\x0a\x00\x12\x00\x1a\x00\x22\x00";

/// What a heed comes to whose link is lost.
pub const LINK_LOST: Heeded = Heeded::Broken(Cause::Link);

/// What a heed comes to where the second datanode alone said that it failed.
pub const SECOND_FAILED: Heeded = Heeded::Broken(Cause::Replies(FailedNodes {
    positions: [false, true, false, false, false, false, false, false],
    count: 1,
    highest: 1,
}));

/// What a heed comes to where the third datanode alone said that it failed.
pub const THIRD_FAILED: Heeded = Heeded::Broken(Cause::Replies(FailedNodes {
    positions: [false, false, true, false, false, false, false, false],
    count: 1,
    highest: 2,
}));

pub fn node(info: &[u8]) -> Result<Datanode, Fail> {
    Ok(Datanode::new(info, DS_1, 1).ok_or("the datanode is not in form")?)
}

/// A token, in form or not.
pub fn token(in_form: bool) -> Result<Token, Fail> {
    if !in_form {
        return Ok(Token::none());
    }
    Ok(Token::new(TOKEN).ok_or("the token is not in form")?)
}

/// A new block of 64 bytes at most, on the first `nodes` of the five datanodes, in packets of one chunk of four bytes.
pub fn opening(nodes: usize) -> Opening<'static> {
    let nodes = nodes.min(5);
    Opening {
        path: b"/furnace/1",
        pool_id: b"BP-1",
        block_id: 7,
        stamp: 1001,
        initial_len: 0,
        block_size: 64,
        chunk_size: 4,
        packet_size: 0,
        replication: nodes as u32,
        replace: ReplaceDatanodeOnFailure::new(Policy::Never, false),
        infos: &INFOS[..nodes],
        storage_ids: &STORAGE_IDS[..nodes],
        storage_types: &STORAGE_TYPES[..nodes],
        token: TOKEN,
        client_name: b"recorder",
        time: 100,
    }
}
