//! The replies of a pipeline's nodes, and the positions of those that failed.
ghost use Rattle.std.specs.Prelude.{◌≡◌, ◌+◌, ◌^◌, ◌<◌};
ghost use Rattle.ack.specs.Tally.{with_failed, no_replies, noted, reply_count};

use crate::packed::Repeated;
use std::fmt;

// The largest status code of datatransfer.proto, ERROR_BLOCK_PINNED.
const LAST_STATUS: u64 = 13;

/// The nodes of a pipeline that failed, by their positions in it.
#[derive(Clone, Copy, Debug, PartialEq, Eq)]
pub struct FailedNodes {
    /// Of each position below 8, whether it failed.
    pub positions: [bool; 8],
    /// How many failed, those from 8 on too.
    pub count: usize,
    /// The highest position that failed, or 0 where none did.
    // Of positions from 8 on `positions` does not tell.
    pub highest: usize,
}

impl FailedNodes {
    // One more, at a position above all others.
    fn with(self, position: usize) -> FailedNodes
        requires { self.count + 1 < 2 ^ 64 }
        ensures { result ≡ with_failed self position }
    {
        let mut positions = self.positions;
        if position < 8 {
            positions[position] = true;
        }
        FailedNodes {
            positions,
            count: self.count + 1,
            highest: position,
        }
    }
}

/// The positions that failed, with commas between them. Of those from 8 on only the highest is known.
impl fmt::Display for FailedNodes {
    fn fmt<W: fmt::Write>(&self, f: &mut fmt::Formatter<W>) -> fmt::Result {
        let mut between = "";
        for (i, is_failed) in self.positions.iter().enumerate() {
            if *is_failed {
                write!(f, "{between}{i}")?;
                between = ",";
            }
        }
        if self.highest >= 8 {
            let highest = self.highest;
            write!(f, "{between}{highest}")?;
        }
        Ok(())
    }
}

/// The replies so far: how many have a known status, which is the position of the next, and which of them failed.
#[derive(Clone, Copy, Debug, PartialEq, Eq)]
pub struct Replies {
    pub known: usize,
    pub failed: FailedNodes,
}

impl Replies {
    // No reply yet.
    pub(crate) fn none() -> Replies
        ensures { result ≡ no_replies }
    {
        Replies {
            known: 0,
            failed: FailedNodes {
                positions: [false; 8],
                count: 0,
                highest: 0,
            },
        }
    }
}

impl Repeated for Replies {
    ghost pushed = { noted };

    ghost size = { reply_count };

    // A reply is an enum, of which the low 32 bits count. One that is no known status takes no position.
    fn push(self, value: u64) -> Replies {
        let known = self.known + 1;
        match value % 0x1_0000_0000 {
            0 => Replies { known, ..self },
            1..=LAST_STATUS => Replies {
                known,
                failed: self.failed.with(self.known),
            },
            _ => self,
        }
    }
}
