//! When a heartbeat is put: thirty seconds after the last opening, recovery or heartbeat, by a clock that may go back.
use crate::action::{Action, Look};
use crate::case::{CASE, Case, perform_all};
use crate::end::End;
use crate::link::{DATA, Instead, Put};
use crate::sample::LINK_LOST;
use packet::header::HEART_BEAT_SEQNO;
use runs::command::Command;
use std::test::Fail;
use writer::beat::Beat;
use writer::cause::Cause;
use writer::heed::Heeded;
use writer::refusal::Refusal;
use writer::state::kind::State;

const HEART_BEAT: Put = Put {
    seqno: HEART_BEAT_SEQNO,
    ..DATA
};

// The block is opened at 100. A clock that goes back is not past anything, and does not change when the next heartbeat is due.
#[test]
fn times(rt: HostRuntime) -> Result<(), Fail> {
    const TIMES: Case = Case {
        actions: &[
            Action::Mark,
            Action::Beat(100, Beat::Idle),
            Action::Beat(129, Beat::Idle),
            Action::Beat(99, Beat::Idle),
            Action::Beat(0, Beat::Idle),
            Action::Look(Look::Puts(&[])),
            Action::Look(Look::Same),
            Action::Beat(130, Beat::Put),
            Action::Beat(130, Beat::Idle),
            Action::Beat(100, Beat::Idle),
            Action::Beat(159, Beat::Idle),
            Action::Beat(160, Beat::Put),
            Action::Beat(u64::MAX, Beat::Put),
            Action::Beat(u64::MAX, Beat::Idle),
            Action::Look(Look::Puts(&[HEART_BEAT; 3])),
            Action::Look(Look::SameStore),
            Action::Look(Look::Pending(0)),
        ],
        ..CASE
    };
    TIMES.performs(&rt, rt.alloc())
}

// A packet is no heartbeat: the time counts on.
#[test]
fn packets(rt: HostRuntime) -> Result<(), Fail> {
    const PACKETS: Case = Case {
        actions: &[
            Action::Write(b"abcdef", 6),
            Action::Beat(129, Beat::Idle),
            Action::Beat(131, Beat::Put),
            Action::OnNext(Instead::Octets(b"\x08\x01\x10\x00\x10\x00")),
            Action::Heed(Heeded::HeartBeat),
            Action::Heed(Heeded::Confirmed(0)),
            Action::Finish,
            Action::Refused(Command::Beat(1000), 23, Refusal::Finished),
            Action::HeedAll(Heeded::Complete(2)),
        ],
        end: End::Record(b"abcdef", 1001),
        ..CASE
    };
    PACKETS.performs(&rt, rt.alloc())
}

// A recovery at that time.
macro_rules! recovered_at {
    ($time:literal) => {
        Case {
            actions: &[
                Action::OnNext(Instead::Lost),
                Action::Heed(LINK_LOST),
                Action::Recover($time, 1002, 0),
                Action::Beat($time - 1, Beat::Idle),
                Action::Beat($time + 29, Beat::Idle),
                Action::Beat($time + 30, Beat::Put),
                Action::Beat($time + 59, Beat::Idle),
                Action::Beat($time + 60, Beat::Put),
            ],
            ..CASE
        }
    };
}

// After a recovery the time counts from there, also where the clock went back.
#[test]
fn recoveries(rt: HostRuntime) -> Result<(), Fail> {
    const CASES: &[Case] = &[recovered_at!(300), recovered_at!(50)];
    perform_all(&rt, rt.alloc(), CASES)
}

// A lost heartbeat breaks the pipeline, with nothing held.
#[test]
fn lost(rt: HostRuntime) -> Result<(), Fail> {
    const LOST: Case = Case {
        actions: &[
            Action::LosePut(0),
            Action::Beat(129, Beat::Idle),
            Action::Beat(130, Beat::Lost),
            Action::Look(Look::State(State::Broken {
                cause: Cause::Put(HEART_BEAT_SEQNO),
                finished: false,
            })),
            Action::Refused(Command::Beat(160), 22, Refusal::Broken),
            Action::Recover(170, 1002, 0),
            Action::Look(Look::On(b"b")),
            Action::Beat(199, Beat::Idle),
            Action::Beat(200, Beat::Put),
            Action::Write(b"abcd", 4),
            Action::Finish,
            Action::HeedAll(Heeded::Complete(1)),
        ],
        end: End::Record(b"abcd", 1002),
        ..CASE
    };
    LOST.performs(&rt, rt.alloc())
}
