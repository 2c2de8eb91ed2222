//! What must be true after every call, and of a closing record.
use crate::model::{Model, Phase};
use crate::nodes::Nodes;
use anyhow::{Context, bail, ensure};
use bench::state::Bench;
use faults::faulty_link::FaultyLink;
use pool::entry::BlockEntry;
use proto::block::ExtendedBlock;
use runs::command::{Command, Outcome};
use writer::heed::Heeded;
use writer::refusal::Refusal;
use writer::state::kind::State;

/// How a pipeline stood.
#[derive(Clone, Copy)]
pub struct Before {
    pub kept: usize,
    pub pending: usize,
}

impl Before {
    pub fn of(bench: &Bench) -> Before {
        Before {
            kept: bench.kept().len(),
            pending: bench.pending(),
        }
    }
}

/// Refused: for what the writer is in the midst of, for a store of another length, or for what only a call itself can find.
pub fn is_refused(
    model: &Model,
    command: &Command<'_>,
    outcome: Outcome,
    other: bool,
) -> anyhow::Result<()> {
    let refusal = outcome.refusal();
    let as_it_must_be = match model.refusal(command) {
        Some(expected) => refusal == Some(expected),
        None if other => refusal == Some(Refusal::Store),
        None => match refusal {
            Some(refusal) => { refusal == Refusal::Places || (9..=16).contains(&u8::from(refusal)) }
            None => true,
        },
    };
    if as_it_must_be {
        return Ok(());
    }
    let wrong = "a call is refused that must not be, or not one that must";
    match refusal {
        Some(refusal) => {
            let number = u8::from(refusal);
            bail!("{wrong}: refused with number {number}: {refusal}")
        }
        None => bail!("{wrong}"),
    }
}

/// State: the writer is in the midst of what its calls have told, and what broke its pipeline
/// counts against the datanodes that were told.
pub fn is_in_state(model: &Model, state: State) -> anyhow::Result<()> {
    let as_told = match (state, model.phase) {
        (State::Streaming, Phase::Whole) => !model.finished,
        (State::Finishing, Phase::Whole) => model.finished,
        (State::Broken { cause, finished }, Phase::Broken(failed)) => {
            cause.failed_nodes() == failed && finished == model.finished
        }
        (State::Complete, Phase::Complete) | (State::Closed, Phase::Closed) => true,
        _ => false,
    };
    ensure!(
        as_told,
        "the writer is not where its calls tell: it is {state}"
    );
    Ok(())
}

/// Whole: what all datanodes have confirmed is the beginning of the block's bytes, what one of them holds besides goes on with them, and while
/// nothing is broken no more is missing there than the packet being filled.
pub fn is_whole(bench: &Bench, model: &Model, capacity: usize) -> anyhow::Result<()> {
    let kept = bench.kept();
    ensure!(
        model.bytes.starts_with(kept),
        "the kept bytes are not the beginning of the block"
    );
    for i in 0..bench.replicas() {
        let replica = bench.replica(i).context("a replica is not there")?;
        ensure!(
            replica.starts_with(kept),
            "a replica does not begin with the kept bytes"
        );
        ensure!(
            model.bytes.starts_with(replica),
            "a replica is not the beginning of the block"
        );
        ensure!(
            model.bytes.len().saturating_sub(replica.len()) <= model.may_lack(capacity),
            "a packet was not put"
        );
    }
    Ok(())
}

/// Told: bytes are kept, and a packet leaves the pending ones, just when the writer says that a packet is confirmed. The last packet has no
/// bytes, and no other than it is marked as the last.
pub fn is_told(
    link: &FaultyLink<Bench>,
    before: Before,
    outcome: Outcome,
    capacity: usize,
) -> anyhow::Result<()> {
    let kept = link.inner().kept().len();
    let more = kept
        .checked_sub(before.kept)
        .context("there are fewer kept bytes than before")?;
    match outcome {
        Outcome::Heard(Ok(Heeded::Confirmed(seqno))) => {
            ensure!(
                more >= 1 && more <= capacity,
                "a packet's bytes are not kept"
            );
            ensure!(
                link.last() != Some(seqno),
                "a packet that is marked as the last is not told as it"
            );
        }
        Outcome::Heard(Ok(Heeded::Complete(seqno))) => {
            ensure!(more == 0, "the last packet has bytes");
            ensure!(
                link.last() == Some(seqno),
                "another packet than the last is marked as the last, or the last is not"
            );
        }
        _ => ensure!(more == 0, "bytes are kept of which nothing is told"),
    }
    let confirmed = matches!(
        outcome,
        Outcome::Heard(Ok(Heeded::Confirmed(_) | Heeded::Complete(_)))
    );
    let left = link
        .inner()
        .pending()
        .saturating_add(usize::from(confirmed));
    ensure!(
        !matches!(outcome, Outcome::Heard(_)) || left == before.pending,
        "a packet has left the pending ones and is not told, or is told and has not left"
    );
    Ok(())
}

/// Order and entry: all bytes are kept by all datanodes, the record has their number, and the namenode has the block at the record's stamp on
/// the last pipeline's datanodes.
pub fn is_closed(
    bench: &Bench,
    model: &Model,
    entry: BlockEntry<'_>,
    record: &ExtendedBlock,
) -> anyhow::Result<()> {
    let bytes = model.bytes.as_slice();
    ensure!(bench.kept() == bytes, "the kept bytes are not the block");
    ensure!(
        bench.replicas().saturating_add(1) == model.nodes.len(),
        "there are not as many replicas as datanodes"
    );
    for i in 0..bench.replicas() {
        ensure!(
            bench.replica(i) == Some(bytes),
            "a replica is not the block"
        );
    }
    ensure!(
        record.num_bytes == bytes.len() as u64,
        "the record has another length"
    );
    ensure!(
        record.generation_stamp == model.stamp,
        "the record has another stamp"
    );
    ensure!(
        entry.stamp == record.generation_stamp,
        "the namenode has another stamp"
    );
    ensure!(
        Nodes::of(entry.nodes) == model.nodes,
        "the namenode has the block on other datanodes"
    );
    Ok(())
}
