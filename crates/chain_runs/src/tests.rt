//! Each call once as it should be, and once lost for each reason there is.
use crate::sample::{frame, node, request};
use bench::state::Bench;
use chain::link::{Link, LinkLost};
use packet::header::HEART_BEAT_SEQNO;
use spool::state::Spool;
use std::process::Abort;
use std::test::Fail;

// A set up of `others` nodes behind the first: unreadable, without room for its response, asking for more than is kept, and as it should be.
fn set_up<L: Link>(rt: &impl Abort, link: &mut L, others: usize) -> Result<(), Fail> {
    let node = node()?;
    let mut asked = [0u8; 1024];
    let asked = request(others, &mut asked)?;
    let mut answer = [7u8; 4];
    let unreadable = link.set_up(&node, b"none", 0, &mut answer);
    assert_eq!(rt; unreadable, Err(LinkLost));
    let mut short = [7u8; 1];
    assert_eq!(rt; link.set_up(&node, asked, 0, &mut short), Err(LinkLost));
    assert_eq!(rt; link.set_up(&node, asked, 1, &mut answer), Err(LinkLost));
    assert_eq!(rt; answer, [7, 7, 7, 7]);
    assert_eq!(rt; link.set_up(&node, asked, 0, &mut answer), Ok(2));
    assert_eq!(rt; answer, [8, 0, 7, 7]);
    Ok(())
}

// A packet put, and what the link answers.
fn put<L: Link>(
    link: &mut L,
    offset: u64,
    seqno: u64,
    data: &[u8],
) -> Result<Result<(), LinkLost>, Fail> {
    let mut room = [0u8; 128];
    Ok(link.put(frame(offset, seqno, data, &mut room)?))
}

// No frame, another place, wrong sums, a heartbeat, and two packets as they should be.
fn puts<L: Link>(rt: &impl Abort, link: &mut L) -> Result<(), Fail> {
    assert_eq!(rt; link.put(b"no frame"), Err(LinkLost));
    assert_eq!(rt; put(link, 4, 0, b"abcd")?, Err(LinkLost));
    let mut room = [0u8; 128];
    assert_eq!(rt; frame(0, 0, b"abcd", &mut room)?.len(), 39);
    room[38] = b'e';
    assert_eq!(rt; link.put(&room[0..39]), Err(LinkLost));
    assert_eq!(rt; put(link, 0, HEART_BEAT_SEQNO, b"")?, Ok(()));
    assert_eq!(rt; put(link, 0, 0, b"abcd")?, Ok(()));
    assert_eq!(rt; put(link, 4, 1, b"ef")?, Ok(()));
    Ok(())
}

// The answers of two packets, the first of them lost once for want of room, and then none.
fn answers<L: Link>(rt: &impl Abort, link: &mut L, octets: usize) {
    let mut short = [0u8; 3];
    assert_eq!(rt; link.next(&mut short), Err(LinkLost));
    let mut answer = [0u8; 64];
    assert_eq!(rt; link.next(&mut answer), Ok(Some(octets)));
    assert_eq!(rt; answer[1], 0);
    assert_eq!(rt; link.next(&mut answer), Ok(Some(octets)));
    assert_eq!(rt; answer[1], 2);
    assert_eq!(rt; link.next(&mut answer), Ok(None));
}

#[test]
fn a_spool(rt: HostRuntime) -> Result<(), Fail> {
    let heap = rt.alloc();
    let mut spool = Spool::over(heap, Vec::with_capacity(heap, 8)?, 1)?;
    set_up(&rt, &mut spool, 0)?;
    puts(&rt, &mut spool)?;
    assert_eq!(rt;
        put(&mut spool, 6, 2, b"ghi")?,
        Err(LinkLost),
        "the memory is full"
    );
    assert_eq!(rt; spool.pending(), 2);
    assert!(rt; spool.kept().is_empty());
    answers(&rt, &mut spool, 4);
    assert!(rt; spool.kept() == b"abcdef".as_slice());
    let mut large = [0u8; 1024];
    let large = request(1, &mut large)?;
    let mut answer = [0u8; 4];
    assert_eq!(rt;
        spool.set_up(&node()?, large, 0, &mut answer),
        Err(LinkLost),
        "it has one node"
    );
    Ok(())
}

#[test]
fn a_bench(rt: HostRuntime) -> Result<(), Fail> {
    let heap = rt.alloc();
    let mut bench = Bench::over(heap, Vec::with_capacity(heap, 8)?)?;
    set_up(&rt, &mut bench, 2)?;
    puts(&rt, &mut bench)?;
    assert_eq!(rt;
        put(&mut bench, 6, 2, b"ghi")?,
        Err(LinkLost),
        "the memory is full"
    );
    assert_eq!(rt; bench.replicas(), 2);
    answers(&rt, &mut bench, 8);
    assert!(rt; bench.kept() == b"abcdef".as_slice());
    let second = bench.replica(0).ok_or("there is no second replica")?;
    assert!(rt; second == b"abcdef".as_slice());
    assert!(rt; bench.replica(2).is_none());
    Ok(())
}
