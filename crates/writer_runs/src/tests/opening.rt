//! What an opening is refused with, one thing wrong at a time, and which of two comes first.
use crate::action::{Action, Look};
use crate::buffers::LEAST;
use crate::case::{CASE, Case, perform_all};
use crate::field::Field;
use crate::sample::{A, DS_1};
use runs::command::Command;
use std::test::Fail;
use writer::admit::Lengths;
use writer::refusal::Refusal;
use writer::state::kind::State;

// Where an opening is refused, the link was asked for nothing, no buffer was written, and the writer is closed.
const CLOSED: &[Action] = &[
    Action::Look(Look::Asked(b"")),
    Action::Look(Look::Same),
    Action::Look(Look::State(State::Closed)),
    Action::Refused(Command::Heed, 21, Refusal::Closed),
];

// An opening on one datanode with these fields is refused with that number.
macro_rules! refused {
    ($number:literal, $($field:expr),*) => {
        Case {
            nodes: 1,
            fields: &[$($field),*],
            opened: $number,
            actions: CLOSED,
            ..CASE
        }
    };
}

// An opening on one datanode with these fields is not refused.
macro_rules! opened {
    ($($field:expr),*) => {
        Case {
            nodes: 1,
            fields: &[$($field),*],
            ..CASE
        }
    };
}

#[test]
fn sizes(rt: HostRuntime) -> Result<(), Fail> {
    const CASES: &[Case] = &[
        refused!(1, Field::ChunkSize(0), Field::PacketSize(0)),
        refused!(1, Field::ChunkSize(1_048_577), Field::PacketSize(0)),
        refused!(1, Field::ChunkSize(0), Field::PacketSize(1)),
        refused!(2, Field::ChunkSize(4), Field::PacketSize(1)),
        refused!(2, Field::ChunkSize(4), Field::PacketSize(40)),
        refused!(2, Field::ChunkSize(4), Field::PacketSize(16_777_217)),
        opened!(Field::ChunkSize(4), Field::PacketSize(41)),
        opened!(Field::ChunkSize(4), Field::PacketSize(0)),
    ];
    perform_all(&rt, rt.alloc(), CASES)
}

#[test]
fn lengths(rt: HostRuntime) -> Result<(), Fail> {
    const CASES: &[Case] = &[
        refused!(3, Field::InitialLen(65), Field::BlockSize(64)),
        refused!(
            3,
            Field::InitialLen(0),
            Field::BlockSize(0x8000_0000_0000_0000)
        ),
        opened!(
            Field::InitialLen(0),
            Field::BlockSize(0x7fff_ffff_ffff_ffff)
        ),
    ];
    perform_all(&rt, rt.alloc(), CASES)
}

// No datanode, nine and eight; and fewer names or more types than datanodes.
#[test]
fn counts(rt: HostRuntime) -> Result<(), Fail> {
    const NONE: Case = Case {
        nodes: 0,
        opened: 4,
        actions: CLOSED,
        ..CASE
    };
    const CASES: &[Case] = &[
        NONE,
        refused!(
            4,
            Field::Infos(&[A; 9]),
            Field::StorageIds(&[DS_1; 9]),
            Field::StorageTypes(&[1; 9])
        ),
        opened!(
            Field::Infos(&[A; 8]),
            Field::StorageIds(&[DS_1; 8]),
            Field::StorageTypes(&[1; 8])
        ),
        refused!(4, Field::StorageIds(&[])),
        refused!(4, Field::StorageTypes(&[1, 1])),
    ];
    perform_all(&rt, rt.alloc(), CASES)
}

#[test]
fn forms(rt: HostRuntime) -> Result<(), Fail> {
    const CASES: &[Case] = &[
        refused!(5, Field::Infos(&[b"\x0a\x00"])),
        refused!(5, Field::StorageIds(&[b"DS-\xff"])),
        refused!(5, Field::StorageTypes(&[128])),
        refused!(5, Field::Token(b"")),
        refused!(5, Field::Path(&[b'x'; 256])),
        refused!(5, Field::PoolId(&[b'x'; 65])),
        refused!(5, Field::ClientName(b"\x80")),
    ];
    perform_all(&rt, rt.alloc(), CASES)
}

#[test]
fn longest_forms(rt: HostRuntime) -> Result<(), Fail> {
    const LONGEST: Case = opened!(
        Field::StorageTypes(&[127]),
        Field::Path(&[b'x'; 255]),
        Field::PoolId(&[b'x'; 64]),
        Field::ClientName(&[b'x'; 64])
    );
    LONGEST.performs(&rt, rt.alloc())
}

// Buffers of these lengths are refused with that number.
macro_rules! short {
    ($number:literal, $store:literal, $frame:literal, $request:literal, $answer:literal) => {
        Case {
            lengths: Lengths {
                store: $store,
                frame: $frame,
                request: $request,
                answer: $answer,
            },
            ..refused!($number,)
        }
    };
}

#[test]
fn buffers(rt: HostRuntime) -> Result<(), Fail> {
    const CASES: &[Case] = &[
        short!(6, 11, 41, 4096, 4096),
        short!(7, 12, 40, 4096, 4096),
        short!(7, 12, 41, 4095, 4096),
        short!(7, 12, 41, 4096, 4095),
        short!(6, 11, 40, 4095, 4095),
        Case {
            nodes: 1,
            lengths: LEAST,
            ..CASE
        },
    ];
    perform_all(&rt, rt.alloc(), CASES)
}

// Of two things that are wrong, the one with the smaller number counts.
#[test]
fn order(rt: HostRuntime) -> Result<(), Fail> {
    const CASES: &[Case] = &[
        Case {
            nodes: 0,
            ..refused!(2, Field::PacketSize(1), Field::InitialLen(65))
        },
        Case {
            nodes: 0,
            ..refused!(3, Field::InitialLen(65))
        },
        Case {
            nodes: 0,
            ..refused!(4, Field::Token(b""))
        },
        Case {
            lengths: Lengths { store: 0, ..LEAST },
            ..refused!(5, Field::Token(b""))
        },
    ];
    perform_all(&rt, rt.alloc(), CASES)
}
