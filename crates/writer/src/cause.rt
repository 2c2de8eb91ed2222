//! Why a pipeline is broken.
ghost use Rattle.std.specs.Prelude.{◌≡◌};
ghost use Rattle.writer.specs.Causes.{failed_in};

use ack::tally::FailedNodes;
use packet::header::HEART_BEAT_SEQNO;
use std::fmt;
use wire::field::DecodeError;

/// What broke a pipeline.
#[derive(Clone, Copy, Debug, PartialEq, Eq)]
pub enum Cause {
    /// The frame of the packet of that number was lost. The number is the one in the frame's
    /// header, which is -1 of a heartbeat.
    Put(u64),
    /// The link was lost.
    Link,
    /// Nodes said that they failed.
    Replies(FailedNodes),
    /// An answer could not be read.
    Decoding(DecodeError),
}

impl Cause {
    /// The nodes that are held to have failed: the first one, unless the replies name others.
    pub fn failed_nodes(&self) -> FailedNodes
        ensures { result ≡ failed_in self.now }
    {
        match *self {
            Cause::Replies(failed) => failed,
            Cause::Put(_) | Cause::Link | Cause::Decoding(_) => FailedNodes {
                positions: [true, false, false, false, false, false, false, false],
                count: 1,
                highest: 0,
            },
        }
    }
}

/// What happened, and behind it what a recovery does about it.
impl fmt::Display for Cause {
    fn fmt<W: fmt::Write>(&self, f: &mut fmt::Formatter<W>) -> fmt::Result {
        match self {
            Cause::Put(seqno) if *seqno == HEART_BEAT_SEQNO => write!(f, "a heartbeat was lost")?,
            Cause::Put(seqno) => write!(f, "packet {seqno} was lost")?,
            Cause::Link => write!(f, "the link was lost")?,
            Cause::Replies(failed) => write!(f, "datanodes failed (positions {failed})")?,
            Cause::Decoding(error) => write!(f, "an answer cannot be read ({error})")?,
        }
        let without = match self {
            Cause::Replies(_) => "them",
            Cause::Put(_) | Cause::Link | Cause::Decoding(_) => "the first datanode",
        };
        write!(f, "; recover puts what is held again, without {without}")
    }
}
