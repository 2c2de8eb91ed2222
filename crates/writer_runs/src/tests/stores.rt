//! A store of another length is refused by every call that is lent one; the writer's own stays as it was, and the run goes on with it.
use crate::action::{Action, Look};
use crate::buffers::SEVEN_SLOTS;
use crate::case::{CASE, Case, perform_all};
use crate::end::End;
use crate::link::Instead;
use crate::sample::LINK_LOST;
use runs::command::Command;
use std::test::Fail;
use writer::heed::Heeded;
use writer::refusal::Refusal;

// A store of that length.
macro_rules! lent {
    ($len:literal) => {
        Case {
            lengths: SEVEN_SLOTS,
            actions: &[
                Action::Write(b"abcdefghij", 10),
                Action::Look(Look::PutCount(2)),
                Action::Lend($len, 41, 4096),
                Action::Refused(Command::Write(b"klm"), 6, Refusal::Store),
                Action::Refused(Command::Heed, 6, Refusal::Store),
                Action::Refused(Command::Beat(130), 6, Refusal::Store),
                Action::Refused(Command::Finish, 6, Refusal::Store),
                Action::Own,
                Action::Look(Look::Store(b"abcdefghij")),
                Action::Write(b"klm", 3),
                Action::Finish,
                Action::HeedAll(Heeded::Complete(4)),
            ],
            end: End::Record(b"abcdefghijklm", 1001),
            ..CASE
        }
    };
}

#[test]
fn shorter_and_longer(rt: HostRuntime) -> Result<(), Fail> {
    const CASES: &[Case] = &[lent!(0), lent!(24), lent!(27), lent!(29), lent!(4096)];
    perform_all(&rt, rt.alloc(), CASES)
}

// The same of a recovery: neither the namenode nor the link is asked, and the own store has what is put again.
#[test]
fn recovery(rt: HostRuntime) -> Result<(), Fail> {
    const RECOVERY: Case = Case {
        lengths: SEVEN_SLOTS,
        actions: &[
            Action::Write(b"abcdefghij", 10),
            Action::OnNext(Instead::Lost),
            Action::Heed(LINK_LOST),
            Action::Lend(20, 41, 4096),
            Action::Refused(Command::Recover(200), 6, Refusal::Store),
            Action::Look(Look::On(b"")),
            Action::Look(Look::Asked(b"a")),
            Action::Own,
            Action::Recover(200, 1002, 2),
            Action::Finish,
            Action::HeedAll(Heeded::Complete(3)),
        ],
        end: End::Complete(b"abcdefghij", b"b"),
        ..CASE
    };
    RECOVERY.performs(&rt, rt.alloc())
}
