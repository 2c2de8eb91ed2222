//! Frames and answers that are lost, or that are not what they should be, and the block's end after the recovery.
use crate::action::{Action, Look};
use crate::buffers::SEVEN_SLOTS;
use crate::case::{CASE, Case, perform_all};
use crate::end::End;
use crate::link::Instead;
use crate::sample::{LINK_LOST, SECOND_FAILED, THIRD_FAILED};
use runs::command::Command;
use std::test::Fail;
use wire::field::{DecodeError, Fault};
use writer::cause::Cause;
use writer::heed::Heeded;
use writer::refusal::Refusal;
use writer::state::kind::State;

// How many frames are taken before the one that is lost, how many packets are held then, how many bytes are taken, and which are left.
macro_rules! lost_in_a_write {
    ($before:literal, $held:literal, $taken:literal, $rest:literal, $left:literal) => {
        Case {
            lengths: SEVEN_SLOTS,
            actions: &[
                Action::LosePut($before),
                Action::WriteLost(b"abcdefghijklmn", $taken),
                Action::Look(Look::Pending($before)),
                Action::Look(Look::State(State::Broken {
                    cause: Cause::Put($before),
                    finished: false,
                })),
                Action::Refused(Command::Write($rest), 22, Refusal::Broken),
                Action::Recover(200, 1002, $held),
                Action::Write($rest, $left),
                Action::Finish,
                Action::HeedAll(Heeded::Complete(4)),
            ],
            end: End::Complete(b"abcdefghijklmn", b"b"),
            ..CASE
        }
    };
}

// The first, second or third frame of a write is lost: the bytes of its packet count as taken, and no more are.
#[test]
fn in_a_write(rt: HostRuntime) -> Result<(), Fail> {
    const CASES: &[Case] = &[
        lost_in_a_write!(0, 1, 4, b"efghijklmn", 10),
        lost_in_a_write!(1, 2, 8, b"ijklmn", 6),
        lost_in_a_write!(2, 3, 12, b"mn", 2),
    ];
    perform_all(&rt, rt.alloc(), CASES)
}

// How many of the two frames are taken before the one that is lost.
macro_rules! lost_in_a_finish {
    ($before:literal) => {
        Case {
            nodes: 3,
            lengths: SEVEN_SLOTS,
            actions: &[
                Action::Write(b"ab", 2),
                Action::LosePut($before),
                Action::FinishLost,
                Action::Look(Look::Pending($before)),
                Action::Look(Look::State(State::Broken {
                    cause: Cause::Put($before),
                    finished: true,
                })),
                Action::Refused(Command::Finish, 22, Refusal::Broken),
                Action::LosePut(0),
                Action::RecoverLost(200, 1002, 0),
                Action::Look(Look::State(State::Broken {
                    cause: Cause::Put(0),
                    finished: true,
                })),
                Action::Recover(200, 1003, 2),
                Action::Look(Look::State(State::Finishing)),
                Action::Refused(Command::Finish, 23, Refusal::Finished),
                Action::HeedAll(Heeded::Complete(1)),
            ],
            end: End::Complete(b"ab", b"c"),
            ..CASE
        }
    };
}

// Of the two frames that end a block the first or the second is lost, and both packets are held; then the first is lost when they are put
// again.
#[test]
fn in_a_finish(rt: HostRuntime) -> Result<(), Fail> {
    const CASES: &[Case] = &[lost_in_a_finish!(0), lost_in_a_finish!(1)];
    perform_all(&rt, rt.alloc(), CASES)
}

// How many of the held packets are put again before the one that is lost.
macro_rules! lost_in_a_replay {
    ($before:literal) => {
        Case {
            nodes: 3,
            lengths: SEVEN_SLOTS,
            actions: &[
                Action::Write(b"abcdefghijklmn", 14),
                Action::OnNext(Instead::Lost),
                Action::Heed(LINK_LOST),
                Action::LosePut($before),
                Action::RecoverLost(200, 1002, $before),
                Action::Look(Look::State(State::Broken {
                    cause: Cause::Put($before),
                    finished: false,
                })),
                Action::Look(Look::Pending($before)),
                Action::Look(Look::Entry(1002, 14)),
                Action::Look(Look::On(b"bc")),
                Action::Refused(Command::Heed, 22, Refusal::Broken),
                Action::Recover(200, 1003, 3),
                Action::Look(Look::State(State::Streaming)),
                Action::Finish,
                Action::HeedAll(Heeded::Complete(4)),
            ],
            end: End::Complete(b"abcdefghijklmn", b"c"),
            ..CASE
        }
    };
}

// A frame is lost while the held packets are put again: those before it are on the new pipeline, all are still held, and the namenode knows
// of that pipeline. The first datanode of it has failed then.
#[test]
fn in_a_replay(rt: HostRuntime) -> Result<(), Fail> {
    const CASES: &[Case] = &[
        lost_in_a_replay!(0),
        lost_in_a_replay!(1),
        lost_in_a_replay!(2),
    ];
    perform_all(&rt, rt.alloc(), CASES)
}

// An answer that ends within its second field.
const CUT: Heeded = Heeded::Broken(Cause::Decoding(DecodeError {
    place: 2,
    fault: Fault::End,
}));

// What comes in place of an answer, what that is heeded as, how the buffers are then, and the datanodes that are left.
macro_rules! lost_at_a_heed {
    ($instead:expr, $heeded:expr, $look:expr, $ips:literal) => {
        Case {
            nodes: 3,
            lengths: SEVEN_SLOTS,
            actions: &[
                Action::Write(b"abcdef", 6),
                Action::Mark,
                Action::OnNext($instead),
                Action::Heed($heeded),
                Action::Look($look),
                Action::Recover(200, 1002, 1),
                Action::Write(b"gh", 2),
                Action::Finish,
                Action::HeedAll(Heeded::Complete(2)),
            ],
            end: End::Complete(b"abcdefgh", $ips),
            ..CASE
        }
    };
}

// An answer that comes in place of the chain's, and stands in its buffer then.
macro_rules! answered {
    ($answer:literal, $heeded:expr, $ips:literal) => {
        lost_at_a_heed!(Instead::Octets($answer), $heeded, Look::Answer($answer), $ips)
    };
}

// Whom an answer counts against that is lost or is not what it should be: the first datanode, unless the replies name another. With a lost
// link the answer's buffer stays.
#[test]
fn at_a_heed(rt: HostRuntime) -> Result<(), Fail> {
    const CASES: &[Case] = &[
        lost_at_a_heed!(Instead::Lost, LINK_LOST, Look::Same, b"bc"),
        answered!(b"\x08\x00\x10", CUT, b"bc"),
        answered!(b"\x08\x00\x10\x00\x10\x01", SECOND_FAILED, b"ac"),
        answered!(b"\x08\x03\x10\x00\x10\x00\x10\x0d", THIRD_FAILED, b"ab"),
    ];
    perform_all(&rt, rt.alloc(), CASES)
}
