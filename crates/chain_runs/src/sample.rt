//! A datanode, a token and requests for the runs.
use packet::frame::{WritePacket, write_frame};
use proto::block::{ClientOperationHeader, ExtendedBlock};
use proto::datanode::Datanode;
use proto::fixed::Fixed;
use proto::token::Token;
use request::send::send;
use request::stage::Stage;
use request::write_block::WriteBlock;
use std::test::Fail;

const NODE: &[u8] =
    b"\x0a\x24\x0a\x09127.0.1.1\x12\x03dn1\x1a\x06uuid-1\x20\xda\x86\x03\x28\x9b\x87\x03\x30\xe4\x86\x03";

const TOKEN: &[u8] = b"\x0a\x05\x01\x01\x01\x01\x01\x12\x03pw1\x1a\x10HDFS_BLOCK_TOKEN\x22\x03svc";

pub fn node() -> Result<Datanode, Fail> {
    Ok(Datanode::new(NODE, b"DS-1", 1).ok_or("the datanode is not in form")?)
}

/// A request for a pipeline of one node and `others` more, over chunks of four bytes.
pub fn request(others: usize, out: &mut [u8]) -> Result<&[u8], Fail> {
    if others > 7 {
        return Err(Fail::new("a pipeline has at most eight nodes"));
    }
    let node = node()?;
    let targets = [node; 7];
    let token = Token::new(TOKEN).ok_or("the token is not in form")?;
    let name = Fixed::try_from(b"name".as_slice()).map_err(|_| Fail::new("the text is too long"))?;
    let block = ExtendedBlock {
        pool_id: name,
        block_id: 1,
        generation_stamp: 1001,
        num_bytes: 0,
    };
    let request = WriteBlock {
        header: ClientOperationHeader {
            block,
            token: &token,
            client_name: &name,
        },
        stage: Stage::SetupCreate,
        first: &node,
        targets: &targets[0..others],
        min_bytes: 0,
        max_bytes: 0,
        latest_stamp: 1001,
        chunk_size: 4,
    };
    let end = send(&request, out).ok_or("the request does not fit")?;
    Ok(out.get(..end).ok_or("the request is too long")?)
}

/// The frame of a packet over chunks of four bytes.
pub fn frame<'a>(
    offset: u64,
    seqno: u64,
    data: &[u8],
    out: &'a mut [u8],
) -> Result<&'a [u8], Fail> {
    let packet = WritePacket {
        offset,
        seqno,
        last: false,
        data,
    };
    let end = write_frame(out, packet, 4).ok_or("the frame does not fit")?;
    Ok(out.get(..end).ok_or("the frame is too long")?)
}
