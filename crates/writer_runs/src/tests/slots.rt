//! A write takes bytes as far as slots and block reach.
use crate::action::{Action, Look};
use crate::buffers::LEAST;
use crate::case::{CASE, Case, perform_all};
use crate::end::End;
use crate::field::Field;
use crate::link::{DATA, LAST, Put};
use std::test::Fail;
use writer::admit::Lengths;
use writer::heed::Heeded;

// Of three slots two are for held packets, and the third one fills: a write stops there, and goes on after a confirmation.
#[test]
fn full_slots(rt: HostRuntime) -> Result<(), Fail> {
    const FULL_SLOTS: Case = Case {
        lengths: LEAST,
        actions: &[
            Action::Write(b"abcdefghijklmnopqrst", 12),
            Action::Look(Look::PutCount(2)),
            Action::Mark,
            Action::Look(Look::Store(b"abcdefghijkl")),
            Action::Write(b"mnopqrst", 0),
            Action::Look(Look::Same),
            Action::Heed(Heeded::Confirmed(0)),
            Action::Write(b"mnopqrst", 4),
            Action::Look(Look::PutCount(1)),
            Action::Look(Look::Store(b"mnopefghijkl")),
            Action::HeedAll(Heeded::Nothing),
            Action::Write(b"qrst", 4),
            Action::HeedAll(Heeded::Nothing),
            Action::Finish,
            Action::HeedAll(Heeded::Complete(5)),
        ],
        end: End::Record(b"abcdefghijklmnopqrst", 1001),
        ..CASE
    };
    FULL_SLOTS.performs(&rt, rt.alloc())
}

const BYTES: &[u8] = &[b'x'; 500];

// However long the store is, there are 101 slots at most.
#[test]
fn most_slots(rt: HostRuntime) -> Result<(), Fail> {
    const MOST_SLOTS: Case = Case {
        nodes: 1,
        fields: &[Field::BlockSize(1024)],
        lengths: Lengths {
            store: 500,
            ..LEAST
        },
        actions: &[
            Action::Write(BYTES, 404),
            Action::Look(Look::Pending(100)),
            Action::Write(BYTES, 0),
            Action::Heed(Heeded::Confirmed(0)),
            Action::Write(BYTES, 4),
            Action::Look(Look::Pending(100)),
        ],
        ..CASE
    };
    MOST_SLOTS.performs_on_spool(&rt, rt.alloc())
}

// A block that is full takes nothing more, whether its last packet is full or not.
const FULL: &[Case] = &[
    Case {
        fields: &[Field::BlockSize(10)],
        actions: &[
            Action::Write(b"abcdefghijkl", 10),
            Action::Look(Look::PutCount(2)),
            Action::Write(b"abcdefghijkl", 0),
            Action::Mark,
            Action::Finish,
            Action::Look(Look::Puts(&[
                Put {
                    offset: 8,
                    seqno: 2,
                    len: 2,
                    ..DATA
                },
                Put {
                    offset: 10,
                    seqno: 3,
                    ..LAST
                },
            ])),
            Action::HeedAll(Heeded::Complete(3)),
        ],
        end: End::Record(b"abcdefghij", 1001),
        ..CASE
    },
    Case {
        fields: &[Field::BlockSize(8)],
        actions: &[
            Action::Write(b"abcdefghijkl", 8),
            Action::Look(Look::PutCount(2)),
            Action::Write(b"abcdefghijkl", 0),
            Action::Mark,
            Action::Finish,
            Action::Look(Look::Puts(&[Put {
                offset: 8,
                seqno: 2,
                ..LAST
            }])),
            Action::HeedAll(Heeded::Complete(2)),
        ],
        end: End::Record(b"abcdefgh", 1001),
        ..CASE
    },
];

#[test]
fn full_block(rt: HostRuntime) -> Result<(), Fail> {
    perform_all(&rt, rt.alloc(), FULL)
}
