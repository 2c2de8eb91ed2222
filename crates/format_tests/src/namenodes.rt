//! Both namenodes, asked for each thing once.
use namenode::protocol::{NamenodeProtocol, Refused};
use pool::memory::{House, Pool};
use proto::datanode::Datanode;
use proto::token::Token;
use std::test::Fail;

fn node(ip: u8) -> Result<Datanode, Fail> {
    let info = [
        0x0a, 15, 0x0a, 1, ip, 0x12, 1, b'h', 0x1a, 1, b'u', 0x20, 9, 0x28, 0, 0x30, 0,
    ];
    Ok(Datanode::new(&info, b"DS-1", 1).ok_or("not in form")?)
}

fn token() -> Result<Token, Fail> {
    let message = [0x0a, 0, 0x12, 0, 0x1a, 0, 0x22, 0];
    Ok(Token::new(&message).ok_or("not in form")?)
}

#[test]
fn first_new_spare_is_offered(rt: HostRuntime) -> Result<(), Fail> {
    let (a, b, c) = (node(b'a')?, node(b'b')?, node(b'c')?);
    let mut pool = Pool::new(rt.alloc(), 1, 0, &[a, b], token()?, &[b, c])?;
    assert!(rt; pool.get_additional_datanode(0, &[a], &[b]) == Ok(()));
    assert!(rt; pool.offered_len() == 2);
    let last = pool.offered(1).ok_or("no row")?;
    assert!(rt; last.info == c.info());
    assert!(rt; pool.get_additional_datanode(0, &[a, c], &[b]) == Err(Refused));
    Ok(())
}

#[test]
fn stamp_follows_the_entry(rt: HostRuntime) -> Result<(), Fail> {
    let a = node(b'a')?;
    let mut pool = Pool::new(rt.alloc(), 1001, 0, &[a], token()?, &[])?;
    assert!(rt; pool.update_block_for_pipeline(5) == Ok(1002));
    assert!(rt; pool.update_pipeline(u64::MAX, 5, &[a]) == Ok(()));
    assert!(rt; pool.update_block_for_pipeline(5) == Err(Refused));
    assert!(rt; pool.update_pipeline(7, 5, &[a, a, a, a, a, a, a, a, a]) == Err(Refused));
    Ok(())
}

#[test]
fn no_datanode_is_offered(rt: HostRuntime) -> Result<(), Fail> {
    let message = [0x0a, 0, 0x12, 0, 0x1a, 0, 0x22, 0];
    let token = Token::new(&message).ok_or("not in form")?;
    let mut house = House::new(rt.alloc(), 7, 0, &[], token)?;
    assert!(rt; house.get_additional_datanode(0, &[], &[]) == Err(Refused));
    assert!(rt; house.update_block_for_pipeline(0) == Ok(8));
    assert!(rt; house.stamp_token() == message.as_slice());
    Ok(())
}
