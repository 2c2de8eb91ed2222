//! A pipeline that breaks in each state in which it can, and the block's end after its recovery.
use crate::action::{Action, Look};
use crate::buffers::SEVEN_SLOTS;
use crate::case::{CASE, Case, perform_all};
use crate::end::End;
use crate::link::{DATA, Instead, LAST, Put};
use crate::sample::LINK_LOST;
use request::setup::Setup;
use runs::command::Command;
use std::test::Fail;
use writer::heed::Heeded;
use writer::refusal::Refusal;

// The set up of a recovery with the datanode a gone; the least and the most bytes are those of the case.
const SETUP: Setup = Setup {
    stage: 3,
    pipeline_size: 2,
    min_bytes: 0,
    max_bytes: 0,
    latest_stamp: 1002,
    stamp: 1001,
    checksum_type: 2,
    chunk_size: 4,
};

// Three datanodes, and a store of seven packets.
const ON_THREE: Case = Case {
    nodes: 3,
    lengths: SEVEN_SLOTS,
    ..CASE
};

// Three datanodes break, and a is gone: all that is held is put again, on the other two. So many packets are held then, so many bytes are
// confirmed, and the block has so many; the actions are those until it breaks and those that end the block, which then has these bytes.
macro_rules! recovered {
    ($held:literal, $least:literal, $len:literal, [$($until:expr),*], [$($end:expr),*], $all:literal) => {
        Case {
            actions: &[
                $($until,)*
                Action::Mark,
                Action::Recover(200, 1002, $held),
                Action::Look(Look::SetUp(Setup {
                    min_bytes: $least,
                    max_bytes: $len,
                    ..SETUP
                })),
                Action::Look(Look::Asked(b"ab")),
                Action::Look(Look::PutCount($held)),
                Action::Look(Look::Entry(1002, $len)),
                $($end),*
            ],
            end: End::Complete($all, b"bc"),
            ..ON_THREE
        }
    };
}

// Before the block's end these bytes are written, so many packets are confirmed, and an answer is lost. Then the block goes on where it was.
macro_rules! open {
    ($bytes:literal, $len:literal, [$($confirmed:literal),*], $held:literal, $least:literal, $last:literal, $all:literal) => {
        recovered!(
            $held, $least, $len,
            [
                Action::Write($bytes, $len),
                $(Action::Heed(Heeded::Confirmed($confirmed)),)*
                Action::OnNext(Instead::Lost),
                Action::Heed(LINK_LOST)
            ],
            [
                Action::Write(b"vwxyz", 5),
                Action::Finish,
                Action::HeedAll(Heeded::Complete($last))
            ],
            $all
        )
    };
}

// With six bytes written the block's end is put, or lost, in these actions. No more can be written after the recovery.
macro_rules! ended {
    ($held:literal, $least:literal, $($until:expr),*) => {
        recovered!(
            $held, $least, 6,
            [Action::Write(b"abcdef", 6), $($until),*],
            [
                Action::Refused(Command::Write(b"vwxyz"), 23, Refusal::Finished),
                Action::HeedAll(Heeded::Complete(2))
            ],
            b"abcdef"
        )
    };
}

// After the block's end an answer is lost after the last packet was sent; the frame before it is lost, so that it is held and not sent; or its
// own frame is lost.
#[test]
fn each_state(rt: HostRuntime) -> Result<(), Fail> {
    const CASES: &[Case] = &[
        open!(b"", 0, [], 0, 0, 2, b"vwxyz"),
        open!(b"abcd", 4, [0], 0, 4, 3, b"abcdvwxyz"),
        open!(b"ab", 2, [], 0, 0, 2, b"abvwxyz"),
        open!(b"abcdef", 6, [0], 0, 4, 3, b"abcdefvwxyz"),
        open!(b"abcdefgh", 8, [], 2, 0, 4, b"abcdefghvwxyz"),
        open!(b"abcdefghijkl", 12, [0], 2, 4, 5, b"abcdefghijklvwxyz"),
        open!(b"abcdefghij", 10, [0], 1, 4, 4, b"abcdefghijvwxyz"),
        ended!(
            3,
            0,
            Action::Finish,
            Action::OnNext(Instead::Lost),
            Action::Heed(LINK_LOST)
        ),
        ended!(
            2,
            4,
            Action::Heed(Heeded::Confirmed(0)),
            Action::LosePut(0),
            Action::FinishLost
        ),
        ended!(
            2,
            4,
            Action::Heed(Heeded::Confirmed(0)),
            Action::LosePut(1),
            Action::FinishLost
        ),
    ];
    perform_all(&rt, rt.alloc(), CASES)
}

const FIRST: Put = Put { len: 4, ..DATA };

const SECOND: Put = Put {
    offset: 4,
    seqno: 1,
    len: 2,
    ..DATA
};

// The packet that was lost and the last one, which was never sent, go out again behind the one that was taken: in order, with their offsets.
#[test]
fn last_packet_unsent(rt: HostRuntime) -> Result<(), Fail> {
    const UNSENT: Case = Case {
        actions: &[
            Action::Write(b"abcdef", 6),
            Action::LosePut(0),
            Action::FinishLost,
            Action::Look(Look::Puts(&[
                FIRST,
                Put {
                    taken: false,
                    ..SECOND
                },
            ])),
            Action::Mark,
            Action::Recover(200, 1002, 3),
            Action::Look(Look::Puts(&[
                FIRST,
                SECOND,
                Put {
                    offset: 6,
                    seqno: 2,
                    ..LAST
                },
            ])),
            Action::HeedAll(Heeded::Complete(2)),
        ],
        end: End::Complete(b"abcdef", b"bc"),
        ..ON_THREE
    };
    UNSENT.performs(&rt, rt.alloc())
}

// The datanodes have confirmed a packet, and the answer was lost: they keep no more than the writer knows of, and get the packet again.
#[test]
fn lost_confirmation(rt: HostRuntime) -> Result<(), Fail> {
    const UNHEARD: Case = Case {
        actions: &[
            Action::Write(b"abcdefghij", 10),
            Action::Unheard(8),
            Action::Look(Look::Kept(b"abcd")),
            Action::OnNext(Instead::Lost),
            Action::Heed(LINK_LOST),
            Action::Recover(200, 1002, 2),
            Action::Look(Look::Kept(b"")),
            Action::Look(Look::Pending(2)),
            Action::Finish,
            Action::HeedAll(Heeded::Complete(3)),
        ],
        end: End::Complete(b"abcdefghij", b"bc"),
        ..ON_THREE
    };
    UNHEARD.performs(&rt, rt.alloc())
}

// Each recovery has a stamp of its own, and a datanode less.
#[test]
fn again(rt: HostRuntime) -> Result<(), Fail> {
    const TWICE: Case = Case {
        actions: &[
            Action::Write(b"abcdef", 6),
            Action::Finish,
            Action::OnNext(Instead::Lost),
            Action::Heed(LINK_LOST),
            Action::Recover(200, 1002, 3),
            Action::OnNext(Instead::Lost),
            Action::Heed(LINK_LOST),
            Action::Recover(200, 1003, 3),
            Action::HeedAll(Heeded::Complete(2)),
        ],
        end: End::Complete(b"abcdef", b"c"),
        ..ON_THREE
    };
    TWICE.performs(&rt, rt.alloc())
}
