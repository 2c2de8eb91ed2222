//! The calls of a script.
use crate::error::ScriptError;
use crate::plans::{LinkPlans, NamenodePlans};
use crate::words::{generated, octets};
use std::alloc::Global;

/// What is done, by the writer's owner or by the first datanode.
#[derive(Drop)]
pub enum Act {
    Open,
    Write(Vec<u8>),
    /// So many seconds pass.
    Time(u64),
    Finish,
    /// An answer, without its length.
    Answer(Vec<u8>),
    /// Octets of the wire as they are.
    RawAnswer(Vec<u8>),
    /// The connection is reset.
    Lose,
    /// The datanode sends no more, and reads on.
    HalfClose,
    /// The datanode reads no more.
    Stall,
    /// The writer is dropped.
    Drop,
}

/// A call, with its line as it stands in the script, and the plans that stand before it and behind the call before.
#[derive(Drop)]
pub struct Call {
    pub line: String,
    pub act: Act,
    pub link: LinkPlans,
    pub namenode: NamenodePlans,
}

impl Act {
    /// How many bytes it writes.
    pub fn written(&self) -> usize {
        match self {
            Act::Write(bytes) => bytes.len(),
            _ => 0,
        }
    }

    /// The call of a line of these words, where it is one.
    pub fn read(heap: Global, words: &[&str]) -> Result<Option<Act>, ScriptError> {
        let act = match words {
            ["open"] => Act::Open,
            ["write", bytes] => Act::Write(octets(heap, bytes)?),
            ["write-gen", seed, count] => Act::Write(generated(
                heap,
                seed.parse()?,
                count.parse()?,
            )?),
            ["time", seconds] => Act::Time(seconds.parse()?),
            ["finish"] => Act::Finish,
            ["answer", message] => Act::Answer(octets(heap, message)?),
            ["answer-raw", wire] => Act::RawAnswer(octets(heap, wire)?),
            ["lose"] => Act::Lose,
            ["half-close"] => Act::HalfClose,
            ["stall"] => Act::Stall,
            ["drop"] => Act::Drop,
            _ => return Ok(None),
        };
        Ok(Some(act))
    }
}
