//! What each call is refused with in each state, and by buffers that do not suffice: the state counts first, then the store, then the others.
use crate::action::{Action, Look};
use crate::buffers::LEAST;
use crate::case::{CASE, Case, perform_all};
use crate::end::End;
use crate::link::Instead;
use crate::sample::LINK_LOST;
use runs::command::Command;
use std::test::Fail;
use writer::cause::Cause;
use writer::heed::Heeded;
use writer::refusal::Refusal;
use writer::state::kind::State;

// A link was lost, and the block is not finished.
const BROKEN: State = State::Broken {
    cause: Cause::Link,
    finished: false,
};

// In each state: another store and a frame buffer that is too short, and then that frame buffer alone. The link is sent nothing, all
// buffers stay, and the writer stays in its state.
#[test]
fn each_state(rt: HostRuntime) -> Result<(), Fail> {
    const EACH_STATE: Case = Case {
        actions: &[
            Action::Look(Look::State(State::Streaming)),
            Action::Write(b"abcdefghij", 10),
            Action::Lend(21, 40, 4096),
            Action::Numbers([6, 6, 6, 25, 6]),
            Action::Look(Look::State(State::Streaming)),
            Action::Own,
            Action::Lend(20, 40, 4096),
            Action::Numbers([7, 7, 7, 25, 7]),
            Action::Own,
            Action::Refused(Command::Recover(0), 25, Refusal::Whole),
            Action::OnNext(Instead::Lost),
            Action::Heed(LINK_LOST),
            Action::Lend(21, 40, 4096),
            Action::Numbers([22, 22, 22, 6, 22]),
            Action::Look(Look::State(BROKEN)),
            Action::Own,
            Action::Lend(20, 40, 4096),
            Action::Numbers([22, 22, 22, 7, 22]),
            Action::Own,
            Action::Recover(0, 1002, 2),
            Action::Look(Look::State(State::Streaming)),
            Action::Finish,
            Action::Lend(21, 40, 4096),
            Action::Numbers([23, 6, 23, 25, 23]),
            Action::Look(Look::State(State::Finishing)),
            Action::Own,
            Action::Lend(20, 40, 4096),
            Action::Numbers([23, 7, 23, 25, 23]),
            Action::Own,
            Action::HeedAll(Heeded::Complete(3)),
            Action::Lend(21, 40, 4096),
            Action::Numbers([24; 5]),
            Action::Look(Look::State(State::Complete)),
            Action::Own,
            Action::Lend(20, 40, 4096),
            Action::Numbers([24; 5]),
            Action::Own,
        ],
        end: End::Complete(b"abcdefghij", b"b"),
        ..CASE
    };
    EACH_STATE.performs(&rt, rt.alloc())
}

#[test]
fn closed(rt: HostRuntime) -> Result<(), Fail> {
    const CLOSED: Case = Case {
        actions: &[
            Action::Write(b"abcd", 4),
            Action::OnNext(Instead::Octets(b"\x08\x03\x10\x00")),
            Action::Refused(Command::Heed, 9, Refusal::UnknownSeqno),
            Action::Look(Look::State(State::Closed)),
            Action::Lend(21, 40, 4096),
            Action::Numbers([21; 5]),
            Action::Own,
            Action::Lend(20, 40, 4096),
            Action::Numbers([21; 5]),
            Action::Own,
        ],
        end: End::Incomplete(1),
        ..CASE
    };
    CLOSED.performs(&rt, rt.alloc())
}

// Runs that do not complete the block, and how many packets are held then.
const INCOMPLETE: &[Case] = &[
    Case {
        actions: &[Action::Write(b"", 0)],
        end: End::Incomplete(0),
        ..CASE
    },
    Case {
        actions: &[Action::Write(b"abc", 3)],
        end: End::Incomplete(0),
        ..CASE
    },
    Case {
        actions: &[Action::Write(b"abcdefghij", 10)],
        end: End::Incomplete(2),
        ..CASE
    },
    Case {
        actions: &[Action::Write(b"abcdefghij", 10), Action::Finish],
        end: End::Incomplete(4),
        ..CASE
    },
];

// A block that is not complete has no record, whatever its state.
#[test]
fn incomplete(rt: HostRuntime) -> Result<(), Fail> {
    perform_all(&rt, rt.alloc(), INCOMPLETE)
}

// Three slots have places for two packets. Where the end of the block needs more, a finish waits for confirmations, and two packets more need
// two places; a buffer that is too short counts before that.
#[test]
fn places(rt: HostRuntime) -> Result<(), Fail> {
    const PLACES: Case = Case {
        lengths: LEAST,
        actions: &[
            Action::Write(b"abcdefghij", 10),
            Action::Lend(12, 41, 4095),
            Action::Refused(Command::Finish, 7, Refusal::Buffer),
            Action::Own,
            Action::Mark,
            Action::Refused(Command::Finish, 26, Refusal::Places),
            Action::Heed(Heeded::Confirmed(0)),
            Action::Refused(Command::Finish, 26, Refusal::Places),
            Action::Look(Look::SameStore),
            Action::Look(Look::SameFrame),
            Action::Heed(Heeded::Confirmed(1)),
            Action::Finish,
            Action::HeedAll(Heeded::Complete(3)),
        ],
        end: End::Record(b"abcdefghij", 1001),
        ..CASE
    };
    PLACES.performs(&rt, rt.alloc())
}
