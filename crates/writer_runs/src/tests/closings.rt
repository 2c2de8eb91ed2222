//! The refusals that close a writer: answers with a wrong number, and recoveries that come to nothing. The store stays, and so do the
//! bytes that the chain keeps.
use crate::action::{Action, Look};
use crate::case::{CASE, Case, Namenodes, perform_all};
use crate::end::End;
use crate::link::Instead;
use crate::sample::{B, DS_1, LINK_LOST, TOKEN};
use crate::test_namenode::TestNamenode;
use namenode::protocol::Offered;
use pipeline::reply::ReplyError;
use runs::command::Command;
use std::test::Fail;
use writer::heed::Heeded;
use writer::refusal::Refusal;

// The bytes written and their number, the answer that comes, the refusal of it and its number, and how many packets are held.
macro_rules! answered {
    ($bytes:literal, $len:literal, $answer:literal, $why:expr, $number:literal, $held:literal) => {
        Case {
            nodes: 1,
            actions: &[
                Action::Write($bytes, $len),
                Action::Mark,
                Action::OnNext(Instead::Octets($answer)),
                Action::Refused(Command::Heed, $number, $why),
                Action::Look(Look::Answer($answer)),
                Action::Look(Look::SameStore),
                Action::Refused(Command::Heed, 21, Refusal::Closed),
            ],
            end: End::Incomplete($held),
            ..CASE
        }
    };
}

// An answer that passes, but has the number -2, or that of a packet which is not the first held one.
#[test]
fn answers(rt: HostRuntime) -> Result<(), Fail> {
    const CASES: &[Case] = &[
        answered!(b"ab", 2, b"\x08\x03\x10\x00", Refusal::UnknownSeqno, 9, 0),
        answered!(b"ab", 2, b"\x08\x00\x10\x00", Refusal::Unexpected, 10, 0),
        answered!(
            b"abcdefgh",
            8,
            b"\x08\x02\x10\x00",
            Refusal::Unexpected,
            10,
            2
        ),
        answered!(
            b"abcdefgh",
            8,
            b"\x08\x0a\x10\x00",
            Refusal::Unexpected,
            10,
            2
        ),
    ];
    perform_all(&rt, rt.alloc(), CASES)
}

// A packet is confirmed, one held, and there are two bytes more. An answer breaks the pipeline on so many datanodes, and the recovery is
// refused. Neither the link nor the namenode is asked, and all buffers stay.
macro_rules! unasked {
    ($nodes:literal, $answer:expr, $namenode:expr, $number:literal, $why:expr) => {
        Case {
            nodes: $nodes,
            namenode: $namenode,
            actions: &[
                Action::Write(b"abcdefghij", 10),
                Action::Heed(Heeded::Confirmed(0)),
                Action::OnNext($answer),
                Action::Breaks,
                Action::Mark,
                Action::Refused(Command::Recover(200), $number, $why),
                Action::Refused(Command::Recover(200), 21, Refusal::Closed),
                Action::Look(Look::Same),
                Action::Look(Look::Kept(b"abcd")),
                Action::Look(Look::Asked(b"a")),
                Action::Look(Look::On(b"")),
            ],
            ..CASE
        }
    };
}

// All datanodes failed.
macro_rules! all_failed {
    ($nodes:literal, $answer:expr) => {
        unasked!($nodes, $answer, Namenodes::House(1001, true), 11, Refusal::AllFailed)
    };
}

// One past the pipeline failed.
macro_rules! past_pipeline {
    ($nodes:literal, $answer:expr) => {
        unasked!($nodes, $answer, Namenodes::House(1001, true), 12, Refusal::PastPipeline)
    };
}

// Where both fit, the former counts.
#[test]
fn positions(rt: HostRuntime) -> Result<(), Fail> {
    const CASES: &[Case] = &[
        all_failed!(1, Instead::Lost),
        all_failed!(1, Instead::Octets(b"\xff")),
        all_failed!(2, Instead::Octets(b"\x08\x02\x10\x01\x10\x01")),
        all_failed!(2, Instead::Octets(b"\x08\x02\x10\x01\x10\x00\x10\x01")),
        past_pipeline!(2, Instead::Octets(b"\x08\x02\x10\x00\x10\x00\x10\x01")),
    ];
    perform_all(&rt, rt.alloc(), CASES)
}

// There is no stamp after the last one, and a token may be out of form.
#[test]
fn stamps(rt: HostRuntime) -> Result<(), Fail> {
    const CASES: &[Case] = &[
        unasked!(
            2,
            Instead::Lost,
            Namenodes::House(u64::MAX, true),
            14,
            Refusal::Stamp
        ),
        unasked!(
            2,
            Instead::Lost,
            Namenodes::House(1001, false),
            14,
            Refusal::Stamp
        ),
    ];
    perform_all(&rt, rt.alloc(), CASES)
}

// The recovery's set up comes to that. No packet is put again, and the namenode is not told.
macro_rules! untold {
    ($set_up:expr, $why:expr) => {
        Case {
            actions: &[
                Action::Write(b"abcdefghij", 10),
                Action::Heed(Heeded::Confirmed(0)),
                Action::OnNext(Instead::Lost),
                Action::Heed(LINK_LOST),
                Action::Mark,
                Action::OnSetUp($set_up),
                Action::Refused(Command::Recover(200), 15, Refusal::Recovery($why)),
                Action::Refused(Command::Recover(200), 21, Refusal::Closed),
                Action::Look(Look::SameStore),
                Action::Look(Look::Kept(b"abcd")),
                Action::Look(Look::Request(&[0, 28, 80])),
                Action::Look(Look::Asked(b"ab")),
                Action::Look(Look::PutCount(0)),
                Action::Look(Look::On(b"")),
            ],
            ..CASE
        }
    };
}

// A set up that is lost, cannot be read, has another status, or has none.
#[test]
fn set_ups(rt: HostRuntime) -> Result<(), Fail> {
    const CASES: &[Case] = &[
        untold!(Instead::Lost, ReplyError::Lost),
        untold!(Instead::Octets(b"\x08"), ReplyError::Undecodable),
        untold!(Instead::Octets(b"\x08\x01"), ReplyError::Status),
        untold!(Instead::Octets(b""), ReplyError::Status),
    ];
    perform_all(&rt, rt.alloc(), CASES)
}

// The update is refused after the packet that was held is put again.
#[test]
fn update(rt: HostRuntime) -> Result<(), Fail> {
    const UPDATE: Case = Case {
        namenode: Namenodes::Test(TestNamenode {
            row: Offered {
                info: B,
                storage_id: DS_1,
                storage_type: 1,
            },
            token: TOKEN,
        }),
        actions: &[
            Action::Write(b"abcdefghij", 10),
            Action::Heed(Heeded::Confirmed(0)),
            Action::OnNext(Instead::Lost),
            Action::Heed(LINK_LOST),
            Action::Mark,
            Action::Refused(Command::Recover(200), 16, Refusal::Update),
            Action::Refused(Command::Recover(200), 21, Refusal::Closed),
            Action::Look(Look::SameStore),
            Action::Look(Look::Kept(b"abcd")),
            Action::Look(Look::PutCount(1)),
        ],
        end: End::Incomplete(1),
        ..CASE
    };
    UPDATE.performs(&rt, rt.alloc())
}
