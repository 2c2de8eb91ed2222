//! Datanodes that failed, and what comes in their places: none, or one of the namenode's list.
use crate::action::{Action, Look};
use crate::case::{CASE, Case, Namenodes, perform_all};
use crate::end::End;
use crate::field::Field;
use crate::link::Instead;
use crate::sample::{A, D, DS_1, LINK_LOST, SECOND_FAILED, TOKEN};
use crate::test_namenode::TestNamenode;
use ack::tally::FailedNodes;
use namenode::protocol::Offered;
use pipeline::add_datanode::NoDatanode;
use replace::datanode::Policy;
use runs::command::Command;
use std::test::Fail;
use writer::cause::Cause;
use writer::heed::Heeded;
use writer::refusal::Refusal;

// Two packets are held and two bytes more.
const WRITTEN: Action = Action::Write(b"abcdefghij", 10);

// Of a, b and c the second one fails.
const B_FAILS: Action = Action::OnNext(Instead::Octets(b"\x08\x00\x10\x00\x10\x01\x10\x00"));

// A run on a, b and c, with a new datanode for each one that is gone, or none where there is none to have.
const BEST_EFFORT: Case = Case {
    nodes: 3,
    fields: &[Field::Replace(Policy::Always, true)],
    ..CASE
};

// The same, where the recovery fails if there is none to have.
const STRICT: Case = Case {
    fields: &[Field::Replace(Policy::Always, false)],
    ..BEST_EFFORT
};

// The positions are those of the pipeline that failed: with a, c and e gone, b and d are left.
#[test]
fn three_at_once(rt: HostRuntime) -> Result<(), Fail> {
    const THREE_AT_ONCE: Case = Case {
        nodes: 5,
        actions: &[
            WRITTEN,
            Action::OnNext(Instead::Octets(b"\x08\x00\x10\x01\x10\x00\x10\x05\x10\x00\x10\x01")),
            Action::Heed(Heeded::Broken(Cause::Replies(FailedNodes {
                positions: [true, false, true, false, true, false, false, false],
                count: 3,
                highest: 4,
            }))),
            Action::Recover(200, 1002, 2),
            Action::Look(Look::Asked(b"ab")),
            Action::Finish,
            Action::HeedAll(Heeded::Complete(3)),
        ],
        end: End::Complete(b"abcdefghij", b"bd"),
        ..CASE
    };
    THREE_AT_ONCE.performs(&rt, rt.alloc())
}

// The spare b was in the pipeline, so d is the new datanode. It stands behind a and c, and c copies the block to it.
#[test]
fn from_the_pool(rt: HostRuntime) -> Result<(), Fail> {
    const FROM_THE_POOL: Case = Case {
        namenode: Namenodes::Pool(true),
        actions: &[
            WRITTEN,
            B_FAILS,
            Action::Heed(SECOND_FAILED),
            Action::Replace(200, (2, 1), 1002, 2),
            Action::Look(Look::Asked(b"aca")),
            Action::Look(Look::Entry(1002, 10)),
            Action::Write(b"kl", 2),
            Action::Finish,
            Action::HeedAll(Heeded::Complete(3)),
        ],
        end: End::Complete(b"abcdefghijkl", b"acd"),
        ..STRICT
    };
    FROM_THE_POOL.performs(&rt, rt.alloc())
}

// The default policy replaces where half of the datanodes or fewer are left: of three, one.
#[test]
fn default_policy(rt: HostRuntime) -> Result<(), Fail> {
    const BY_DEFAULT: Case = Case {
        fields: &[Field::Replace(Policy::Default, false)],
        namenode: Namenodes::Pool(true),
        actions: &[
            WRITTEN,
            B_FAILS,
            Action::Heed(SECOND_FAILED),
            Action::Recover(200, 1002, 2),
            Action::OnNext(Instead::Lost),
            Action::Heed(LINK_LOST),
            Action::Replace(200, (1, 0), 1003, 2),
            Action::Finish,
            Action::HeedAll(Heeded::Complete(3)),
        ],
        end: End::Complete(b"abcdefghij", b"cb"),
        ..STRICT
    };
    BY_DEFAULT.performs(&rt, rt.alloc())
}

// There is no datanode to have.
const NO_SPARE: Case = Case {
    actions: &[
        WRITTEN,
        B_FAILS,
        Action::Heed(SECOND_FAILED),
        Action::Recover(200, 1002, 2),
        Action::Finish,
        Action::HeedAll(Heeded::Complete(3)),
    ],
    end: End::Complete(b"abcdefghij", b"ac"),
    ..BEST_EFFORT
};

// There is one, and it gets no copy.
const COPY_LOST: Case = Case {
    namenode: Namenodes::Pool(true),
    actions: &[
        WRITTEN,
        B_FAILS,
        Action::Heed(SECOND_FAILED),
        Action::OnTransfer(Instead::Lost),
        Action::Recover(200, 1002, 2),
        Action::Look(Look::Asked(b"aca")),
        Action::Finish,
        Action::HeedAll(Heeded::Complete(3)),
    ],
    ..NO_SPARE
};

// Best effort goes on with those that are left.
#[test]
fn best_effort(rt: HostRuntime) -> Result<(), Fail> {
    perform_all(&rt, rt.alloc(), &[NO_SPARE, COPY_LOST])
}

// Without best effort the recovery is refused with that cause, and the writer is closed. No packet is put again.
macro_rules! fails {
    ($namenode:expr, $before:expr, $why:expr) => {
        Case {
            namenode: $namenode,
            actions: &[
                WRITTEN,
                B_FAILS,
                Action::Heed(SECOND_FAILED),
                Action::Mark,
                $before,
                Action::Refused(Command::Recover(200), 13, Refusal::Replacement($why)),
                Action::Look(Look::PutCount(0)),
                Action::Look(Look::SameStore),
                Action::Look(Look::SameFrame),
                Action::Refused(Command::Write(b"k"), 21, Refusal::Closed),
            ],
            ..STRICT
        }
    };
}

// The namenode gives no datanode.
macro_rules! no_datanode {
    ($namenode:expr, $why:expr) => {
        fails!($namenode, Action::Mark, $why)
    };
}

// A namenode that offers one datanode alone, on a storage of that type.
macro_rules! offers {
    ($info:expr, $storage_type:literal, $token:expr) => {
        Namenodes::Test(TestNamenode {
            row: Offered {
                info: $info,
                storage_id: DS_1,
                storage_type: $storage_type,
            },
            token: $token,
        })
    };
}

#[test]
fn no_datanode(rt: HostRuntime) -> Result<(), Fail> {
    const CASES: &[Case] = &[
        no_datanode!(Namenodes::House(1001, true), NoDatanode::Namenode),
        no_datanode!(Namenodes::Pool(false), NoDatanode::List),
        no_datanode!(offers!(A, 1, TOKEN), NoDatanode::NoNewNode),
        no_datanode!(offers!(D, 1, TOKEN), NoDatanode::NoSource),
        no_datanode!(offers!(D, 128, TOKEN), NoDatanode::List),
        no_datanode!(offers!(D, 256, TOKEN), NoDatanode::List),
        no_datanode!(offers!(b"\x0a\x00", 1, TOKEN), NoDatanode::List),
        no_datanode!(offers!(D, 1, b""), NoDatanode::List),
    ];
    perform_all(&rt, rt.alloc(), CASES)
}

// The copy comes to that.
macro_rules! no_copy {
    ($transfer:expr, $why:expr) => {
        fails!(Namenodes::Pool(true), Action::OnTransfer($transfer), $why)
    };
}

#[test]
fn no_copy(rt: HostRuntime) -> Result<(), Fail> {
    const CASES: &[Case] = &[
        no_copy!(Instead::Lost, NoDatanode::Lost),
        no_copy!(Instead::Octets(b"\x08"), NoDatanode::Undecodable),
        no_copy!(Instead::Octets(b"\x08\x02"), NoDatanode::Status),
        no_copy!(Instead::Octets(b""), NoDatanode::Status),
    ];
    perform_all(&rt, rt.alloc(), CASES)
}
