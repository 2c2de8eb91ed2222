//! Answers and responses, octet by octet.
use ack::ack::{Verdict, judge};
use ack::response::BlockOpResponse;
use ack::tally::FailedNodes;
use std::test::Fail;
use wire::field::{DecodeError, Fault};

// One failed node, at a position below 8.
fn only(position: usize) -> Result<Verdict, DecodeError> {
    let mut positions = [false; 8];
    if position < 8 {
        positions[position] = true;
    }
    Ok(Verdict::Failed(FailedNodes {
        positions,
        count: 1,
        highest: position,
    }))
}

fn refused(place: usize, fault: Fault) -> Result<Verdict, DecodeError> {
    Err(DecodeError { place, fault })
}

#[test]
fn passing_answers(rt: HostRuntime) {
    assert!(rt; judge(&[0x08, 0x00, 0x10, 0x00]) == Ok(Verdict::Packet(0)));
    assert!(rt; judge(&[0x08, 0x01]) == Ok(Verdict::HeartBeat));
    assert!(rt; judge(&[0x08, 0x03]) == Ok(Verdict::UnknownSeqno));
    assert!(rt; judge(&[0x08, 0x03, 0x10, 0x0e, 0x08, 0x04]) == Ok(Verdict::Packet(2)));
    assert!(rt; judge(&[]) == Ok(Verdict::Packet(0)));
}

#[test]
fn failed_nodes(rt: HostRuntime) {
    assert!(rt; judge(&[0x08, 0x03, 0x10, 0x01]) == only(0));
    assert!(rt; judge(&[0x08, 0x03, 0x10, 0x0e, 0x10, 0x01]) == only(0));
    assert!(rt; judge(&[0x12, 0x03, 0x00, 0x01, 0x00]) == only(1));
    assert!(rt; judge(&[0x12, 0x02, 0x00, 0x00, 0x10, 0x0d, 0x12, 0x01, 0x00]) == only(2));
    assert!(rt; judge(&[0x12, 0x09, 0, 0, 0, 0, 0, 0, 0, 0, 0x01]) == only(8));
}

#[test]
fn faults(rt: HostRuntime) {
    assert!(rt; judge(&[0x08, 0x00, 0x12, 0x01, 0x80]) == refused(2, Fault::End));
    assert!(rt; judge(&[0x22, 0x02, 0x01, 0x80]) == refused(0, Fault::End));
    assert!(rt;
        judge(&[
            0x22, 0x0a, 0xff, 0xff, 0xff, 0xff, 0xff, 0xff, 0xff, 0xff, 0xff, 0x02,
        ],) == refused(0, Fault::Varint)
    );
    assert!(rt; judge(&[0x10, 0x00, 0x0a, 0x00]) == refused(2, Fault::WireType));
    assert!(rt; judge(&[0x25, 0x00, 0x00, 0x00, 0x00]) == refused(0, Fault::WireType));
    assert!(rt; judge(&[0x2a, 0x01, 0x80]) == Ok(Verdict::Packet(0)));
}

#[test]
fn responses(rt: HostRuntime) -> Result<(), Fail> {
    assert!(rt; BlockOpResponse::read(&[0x08, 0x05, 0x08, 0x00])?.is_good());
    assert!(rt; !BlockOpResponse::read(&[0x08, 0x00, 0x08, 0x05])?.is_good());
    assert!(rt; !BlockOpResponse::read(&[0x12, 0x00])?.is_good());
    let spoilt = BlockOpResponse::read(&[0x10, 0x00, 0x0a, 0x00]);
    assert_eq!(rt;
        spoilt,
        Err(DecodeError {
            place: 2,
            fault: Fault::WireType,
        })
    );
    Ok(())
}
