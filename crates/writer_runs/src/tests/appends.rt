//! A block that has bytes already: its first packet ends the chunk that was begun, and the offsets go on from there.
use crate::action::{Action, Look};
use crate::buffers::LEAST;
use crate::case::{CASE, Case, perform_all};
use crate::end::End;
use crate::field::Field;
use crate::link::{DATA, Instead, LAST, Put};
use crate::sample::LINK_LOST;
use std::test::Fail;
use writer::admit::Lengths;
use writer::heed::Heeded;

// Ten bytes end within a chunk of four: the first packet has the two that are left of it. Eight bytes end with one.
const FIRST_PACKETS: &[Case] = &[
    Case {
        fields: &[Field::InitialLen(10)],
        kept: b"0123456789",
        actions: &[
            Action::Look(Look::Stage(0, 10, 10)),
            Action::Write(b"abcdefg", 7),
            Action::Finish,
            Action::Look(Look::Puts(&[
                Put {
                    offset: 10,
                    seqno: 0,
                    len: 2,
                    ..DATA
                },
                Put {
                    offset: 12,
                    seqno: 1,
                    len: 4,
                    ..DATA
                },
                Put {
                    offset: 16,
                    seqno: 2,
                    len: 1,
                    ..DATA
                },
                Put {
                    offset: 17,
                    seqno: 3,
                    ..LAST
                },
            ])),
            Action::HeedAll(Heeded::Complete(3)),
        ],
        end: End::Record(b"0123456789abcdefg", 1001),
        ..CASE
    },
    Case {
        fields: &[Field::InitialLen(8)],
        kept: b"01234567",
        actions: &[
            Action::Look(Look::Stage(0, 8, 8)),
            Action::Write(b"abcdefg", 7),
            Action::Finish,
            Action::Look(Look::Puts(&[
                Put {
                    offset: 8,
                    seqno: 0,
                    len: 4,
                    ..DATA
                },
                Put {
                    offset: 12,
                    seqno: 1,
                    len: 3,
                    ..DATA
                },
                Put {
                    offset: 15,
                    seqno: 2,
                    ..LAST
                },
            ])),
            Action::HeedAll(Heeded::Complete(2)),
        ],
        end: End::Record(b"01234567abcdefg", 1001),
        ..CASE
    },
];

#[test]
fn first_packet(rt: HostRuntime) -> Result<(), Fail> {
    perform_all(&rt, rt.alloc(), FIRST_PACKETS)
}

// Packets of two chunks: the first one still has only what ends the chunk, and the others have both.
#[test]
fn two_chunks(rt: HostRuntime) -> Result<(), Fail> {
    const TWO_CHUNKS: Case = Case {
        nodes: 1,
        fields: &[Field::InitialLen(5), Field::PacketSize(49)],
        kept: b"01234",
        lengths: Lengths {
            store: 40,
            frame: 49,
            ..LEAST
        },
        actions: &[
            Action::Write(b"abcdefghijklm", 13),
            Action::Look(Look::Pending(2)),
            Action::Look(Look::Store(b"abc\x77\x77\x77\x77\x77defghijklm")),
            Action::Heed(Heeded::Confirmed(0)),
            Action::Look(Look::Kept(b"01234abc")),
            Action::Finish,
            Action::HeedAll(Heeded::Complete(3)),
        ],
        end: End::Record(b"01234abcdefghijklm", 1001),
        ..CASE
    };
    TWO_CHUNKS.performs_on_spool(&rt, rt.alloc())
}

// An append that breaks at once keeps what the block had, and what is held begins behind it.
#[test]
fn recovery(rt: HostRuntime) -> Result<(), Fail> {
    const RECOVERY: Case = Case {
        fields: &[Field::InitialLen(10)],
        kept: b"0123456789",
        actions: &[
            Action::Write(b"abcdefg", 7),
            Action::Mark,
            Action::OnNext(Instead::Lost),
            Action::Heed(LINK_LOST),
            Action::Recover(200, 1002, 2),
            Action::Look(Look::Stage(3, 10, 17)),
            Action::Look(Look::Puts(&[
                Put {
                    offset: 10,
                    seqno: 0,
                    len: 2,
                    ..DATA
                },
                Put {
                    offset: 12,
                    seqno: 1,
                    len: 4,
                    ..DATA
                },
            ])),
            Action::Finish,
            Action::HeedAll(Heeded::Complete(3)),
        ],
        end: End::Complete(b"0123456789abcdefg", b"b"),
        ..CASE
    };
    RECOVERY.performs(&rt, rt.alloc())
}
