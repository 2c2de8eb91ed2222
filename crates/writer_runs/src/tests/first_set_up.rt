//! What an opening comes to whose set up does not come back good.
use crate::action::{Action, Look};
use crate::case::{CASE, Case, perform_all};
use crate::link::Instead;
use pipeline::reply::ReplyError;
use runs::command::Command;
use std::test::Fail;
use writer::refusal::Refusal;

// What the set up comes to, why the opening is refused then, and what stands at the front of the answer's buffer.
macro_rules! refused {
    ($instead:expr, $why:expr, $front:literal) => {
        Case {
            set_up: Some($instead),
            opened: 8,
            why: Some(Refusal::SetUp($why)),
            actions: &[
                Action::Look(Look::SameStore),
                Action::Look(Look::SameFrame),
                Action::Look(Look::Answer($front)),
                Action::Look(Look::Request(&[0, 28, 80])),
                Action::Look(Look::Asked(b"a")),
                Action::Refused(Command::Write(b"abcd"), 21, Refusal::Closed),
                Action::Look(Look::Puts(&[])),
            ],
            ..CASE
        }
    };
}

// A set up that is lost, cannot be read, has another status, or has none. The request stands in its buffer, and the response, if one came.
#[test]
fn set_ups(rt: HostRuntime) -> Result<(), Fail> {
    const CASES: &[Case] = &[
        refused!(Instead::Lost, ReplyError::Lost, b"\x77\x77\x77"),
        refused!(
            Instead::Octets(b"\x08"),
            ReplyError::Undecodable,
            b"\x08\x77\x77"
        ),
        refused!(
            Instead::Octets(b"\x08\x01"),
            ReplyError::Status,
            b"\x08\x01\x77"
        ),
        refused!(Instead::Octets(b""), ReplyError::Status, b"\x77\x77\x77"),
    ];
    perform_all(&rt, rt.alloc(), CASES)
}
