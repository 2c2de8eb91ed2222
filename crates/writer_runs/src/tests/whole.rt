//! A block written with no fault.
use crate::action::Action;
use crate::case::{CASE, Case};
use crate::end::End;
use std::test::Fail;
use writer::heed::Heeded;

#[test]
fn a_block_over_a_spool(rt: HostRuntime) -> Result<(), Fail> {
    const WHOLE: Case = Case {
        nodes: 1,
        actions: &[
            Action::Write(b"abcdef", 6),
            Action::Heed(Heeded::Confirmed(0)),
            Action::Heed(Heeded::Nothing),
            Action::Finish,
            Action::Heed(Heeded::Confirmed(1)),
            Action::Heed(Heeded::Complete(2)),
        ],
        end: End::Record(b"abcdef", 1001),
        ..CASE
    };
    WHOLE.performs_on_spool(&rt, rt.alloc())
}
