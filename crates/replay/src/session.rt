//! A run being replayed.
use crate::page::Page;
use ack::tally::FailedNodes;
use anyhow::ensure;
use packet::size::PacketSize;
use scripted::act::{Act, Call};
use scripted::clock::Clock;
use scripted::link::ScriptedLink;
use scripted::log::Log;
use scripted::opening::ScriptedOpening;
use scripted::scripted_namenode::ScriptedNamenode;
use scripted::words::framed;
use spool::state::Spool;
use std::alloc::{AllocError, Global};
use writer::buffers::{Buffers, MOST_SLOTS};
use writer::state::Writer;

/// The recorded runs have the client's uuid masked by this one, so the block is opened with it.
pub const UUID: &str = "00000000-0000-0000-0000-000000000000";

/// A block that has more bytes when it is opened is not replayed: the chain's memory holds them.
const MAX_INITIAL_LEN: u64 = 0x1000_0000;

/// So many nodes a pipeline has at most.
const NODES: u64 = 8;

/// Where the run is.
#[derive(Clone, Copy, PartialEq, Eq)]
pub enum Stage {
    /// The block is not open yet.
    Before,
    /// No call is under way.
    Idle,
    /// A write waits for slots.
    Writing,
    /// The block's end waits for its answers.
    Finishing,
    /// There is no writer any more.
    Over,
}

/// A run.
#[derive(Drop)]
pub struct Session {
    pub heap: Global,
    pub opening: ScriptedOpening,
    pub link: ScriptedLink,
    pub namenode: ScriptedNamenode,
    pub buffers: Buffers,
    pub writer: Option<Writer>,
    pub stage: Stage,
    /// What broke the pipeline, where no recovery has mended it yet.
    pub broken: Option<FailedNodes>,
    pub complete: bool,
    /// The seconds that have passed.
    pub time: u64,
    /// How many bytes the block has.
    pub len: u64,
    /// The bytes of the write under way, and how many of them were taken.
    pub bytes: Vec<u8>,
    pub taken: usize,
}

// How many bytes the script writes at most, with those that the block has.
fn room_for(opening: &ScriptedOpening) -> anyhow::Result<usize> {
    ensure!(
        opening.initial_len <= MAX_INITIAL_LEN,
        "the block has too many bytes to be replayed"
    );
    Ok(opening.initial_len as usize)
}

// Buffers as long as a writer can use. For sizes that the opening is refused for the least ones do.
fn buffers_for(heap: Global, opening: &ScriptedOpening) -> Result<Buffers, AllocError> {
    let size = PacketSize::new(opening.chunk_size, opening.packet_size).unwrap_or(
        PacketSize::least(),
    );
    Buffers::new(heap, size, MOST_SLOTS)
}

impl Session {
    pub fn new(heap: Global, opening: ScriptedOpening, written: usize) -> anyhow::Result<Session> {
        let clock = Clock::new(heap)?;
        let initial = room_for(&opening)?;
        let mut kept = Vec::with_capacity(heap, initial.saturating_add(written))?;
        kept.resize(initial, 0u8)?;
        let spool = Spool::over(heap, kept, NODES)?;
        let link = ScriptedLink::new(heap, spool, Log::new(heap, clock.share()?));
        let log = Log::new(heap, clock);
        let namenode = ScriptedNamenode::new(heap, &opening, UUID, log)?;
        let buffers = buffers_for(heap, &opening)?;
        let len = opening.initial_len;
        Ok(Session {
            heap,
            opening,
            link,
            namenode,
            buffers,
            writer: None,
            stage: Stage::Before,
            broken: None,
            complete: false,
            time: 0,
            len,
            bytes: Vec::new(heap),
            taken: 0,
        })
    }

    // An answer as it stands on the wire. One that comes in pieces breaks the connection, as it does in the original.
    fn hear_raw(&mut self, wire: &[u8]) -> anyhow::Result<()> {
        match framed(wire) {
            Some(message) => self.link.answer(message)?,
            None => self.link.reset(),
        }
        Ok(())
    }

    // Does what a line of the script says, up to what has then to settle.
    fn act(&mut self, page: &Page<'_>, act: &Act) -> anyhow::Result<()> {
        match act {
            Act::Open => self.open(page)?,
            Act::Write(bytes) => self.begin_write(page, bytes.as_slice())?,
            Act::Time(seconds) => self.pass(*seconds),
            Act::Finish => self.finish(page)?,
            Act::Answer(message) => self.link.answer(message.as_slice())?,
            Act::RawAnswer(wire) => self.hear_raw(wire.as_slice())?,
            Act::Lose => self.link.reset(),
            Act::HalfClose => self.link.half_close(),
            Act::Stall => {}
            Act::Drop => {
                self.writer = None;
                self.stage = Stage::Over;
            }
        }
        Ok(())
    }

    /// Makes a call of the script, and tells what came of it.
    pub fn make(&mut self, page: &Page<'_>, call: Call) -> anyhow::Result<()> {
        let Call {
            line,
            act,
            link,
            namenode,
        } = call;
        self.link.plan(link)?;
        self.namenode.plan(namenode)?;
        println!(page.rt; "> {line}")?;
        let is_writers = matches!(&act, Act::Open | Act::Write(_) | Act::Finish);
        if self.stage == Stage::Over && is_writers {
            return page.line("no-writer");
        }
        self.act(page, &act)?;
        self.settle(page)
    }

    /// The transcript's last line.
    pub fn end_line(&self) -> &'static str {
        match self.stage {
            Stage::Writing | Stage::Finishing => "end pending",
            Stage::Before | Stage::Idle | Stage::Over => "end",
        }
    }
}
