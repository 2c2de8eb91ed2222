//! The states of a writer.
use crate::cause::Cause;
use std::fmt;

/// Where a writer is.
#[derive(Clone, Copy, Debug, PartialEq, Eq)]
pub enum State {
    /// Bytes are taken and packets go out.
    Streaming,
    /// The last packet is handed over, and not all are confirmed.
    Finishing,
    /// The pipeline is broken, and waits for a recovery; `finished` says whether the last packet is handed over.
    Broken { cause: Cause, finished: bool },
    /// All packets are confirmed.
    Complete,
    /// A refusal has ended the block.
    Closed,
}

/// What goes behind "the writer is".
impl fmt::Display for State {
    fn fmt<W: fmt::Write>(&self, f: &mut fmt::Formatter<W>) -> fmt::Result {
        match self {
            State::Streaming => write!(f, "streaming"),
            State::Finishing => write!(f, "finishing: the last packet is handed over"),
            State::Broken { cause, finished } => {
                let midst = if *finished { "finishing" } else { "streaming" };
                write!(f, "broken while {midst}: {cause}")
            }
            State::Complete => write!(f, "complete: all packets are confirmed"),
            State::Closed => write!(f, "closed: a refusal has ended the block"),
        }
    }
}
