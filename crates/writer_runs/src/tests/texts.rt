//! What refusals, causes and states print.
use ack::tally::FailedNodes;
use pipeline::add_datanode::NoDatanode;
use pipeline::reply::ReplyError;
use std::alloc::Global;
use std::fmt::Display;
use std::process::Abort;
use std::test::Fail;
use wire::field::{DecodeError, Fault};
use writer::cause::Cause;
use writer::refusal::Refusal;
use writer::state::kind::State;

// Each prints as the text beside it.
fn print_as<T: Display>(rt: &impl Abort, heap: Global, texts: &[(T, &str)]) -> Result<(), Fail> {
    for (value, text) in texts {
        let printed = format!(in heap; "{value}")?;
        assert_eq!(rt; printed.as_str(), *text);
    }
    Ok(())
}

const REFUSALS: &[(Refusal, &str)] = &[
    (
        Refusal::ChunkSize,
        "the chunk size is 0 or above 1,048,576; nothing was sent, and this writer is closed: mend it and open anew",
    ),
    (
        Refusal::Store,
        "the store is below three packets, or not as long as at the opening; nothing was done: an opening leaves a closed writer, a later call may be repeated",
    ),
    (
        Refusal::SetUp(ReplyError::Lost),
        "the pipeline could not be set up (no response came); this writer is closed: the block has to be opened anew",
    ),
    (
        Refusal::PastPipeline,
        "a position that failed lies past the pipeline; this writer is closed: another has to write what is not confirmed",
    ),
    (
        Refusal::Replacement(NoDatanode::NoNewNode),
        "the datanode that failed could not be replaced (the namenode's list has no new datanode); this writer is closed: another has to write what is not confirmed",
    ),
    (
        Refusal::Broken,
        "the pipeline is broken; nothing was done: recover, and then repeat the call",
    ),
    (
        Refusal::Incomplete(3),
        "the block is not complete (packets held 3); there is no record, and the writer is gone",
    ),
];

#[test]
fn refusals(rt: HostRuntime) -> Result<(), Fail> {
    print_as(&rt, rt.alloc(), REFUSALS)
}

// Positions 0 and 2 failed.
const TWO: FailedNodes = FailedNodes {
    positions: [true, false, true, false, false, false, false, false],
    count: 2,
    highest: 2,
};

const CAUSES: &[(Cause, &str)] = &[
    (
        Cause::Put(7),
        "packet 7 was lost; recover puts what is held again, without the first datanode",
    ),
    (
        Cause::Put(u64::MAX),
        "a heartbeat was lost; recover puts what is held again, without the first datanode",
    ),
    (
        Cause::Link,
        "the link was lost; recover puts what is held again, without the first datanode",
    ),
    (
        Cause::Replies(TWO),
        "datanodes failed (positions 0,2); recover puts what is held again, without them",
    ),
    (
        Cause::Decoding(DecodeError {
            place: 2,
            fault: Fault::End,
        }),
        "an answer cannot be read (octet 2: the message ends inside a field); recover puts what is held again, without the first datanode",
    ),
];

#[test]
fn causes(rt: HostRuntime) -> Result<(), Fail> {
    print_as(&rt, rt.alloc(), CAUSES)
}

const STATES: &[(State, &str)] = &[
    (State::Streaming, "streaming"),
    (
        State::Finishing,
        "finishing: the last packet is handed over",
    ),
    (
        State::Broken {
            cause: Cause::Put(7),
            finished: false,
        },
        "broken while streaming: packet 7 was lost; recover puts what is held again, without the first datanode",
    ),
    (State::Complete, "complete: all packets are confirmed"),
    (State::Closed, "closed: a refusal has ended the block"),
];

#[test]
fn states(rt: HostRuntime) -> Result<(), Fail> {
    print_as(&rt, rt.alloc(), STATES)
}
