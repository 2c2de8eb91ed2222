//! The least client of a link: a frame sent and an answer asked for, each with the act that came.
ghost use Rattle.chain.specs.Client.{Exchanged};

use crate::link::Link;
use std::error::Error;
use std::fmt;

/// Why an exchange came to nothing.
#[derive(Clone, Copy, Debug, PartialEq, Eq)]
pub enum ExchangeError {
    /// The frame was lost, so that no answer was asked for.
    Unsent,
    /// The frame was taken, and then the link was lost.
    Lost,
}

impl fmt::Display for ExchangeError {
    fn fmt<W: fmt::Write>(&self, f: &mut fmt::Formatter<W>) -> fmt::Result {
        match self {
            Self::Unsent => write!(f, "the frame was lost"),
            Self::Lost => write!(f, "the link was lost after the frame"),
        }
    }
}

impl Error for ExchangeError {}

/// Sends a frame, and where it was taken asks for an answer and tells how many octets it has, if one has come.
pub fn put_then_next<L: Link>(
    link: &mut L,
    frame: &[u8],
    answer: &mut [u8],
) -> Result<Option<usize>, ExchangeError>
    ensures { Exchanged L.Link link.old frame.now answer.old answer.new link.new result }
{
    link.put(frame).map_err(|_| ExchangeError::Unsent)?;
    link.next(answer).map_err(|_| ExchangeError::Lost)
}
