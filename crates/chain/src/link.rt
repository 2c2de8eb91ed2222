//! A link to a pipeline, by its own acts. Only the link can say which acts there are, so code that does not call it, or that claims another
//! outcome than the one that came, has no act to show. A connection to real datanodes is a link; that they mean what they say is the cluster's part.
ghost use Rattle.std.specs.Prelude.{ℕ, Bool, List, Option, is_ok};
ghost use Rattle.proto.specs.declared.datanode.Datanode.{Datanode};
ghost use Rattle.chain.specs.Acts.{Came, Replied, Answered};

use proto::datanode::Datanode;
use std::error::Error;
use std::fmt;

/// A link is lost, or what was sent on it, or what came and found no room.
#[derive(Clone, Copy, Debug, PartialEq, Eq)]
pub struct LinkLost;

impl fmt::Display for LinkLost {
    fn fmt<W: fmt::Write>(&self, f: &mut fmt::Formatter<W>) -> fmt::Result {
        write!(f, "the link is lost")
    }
}

impl Error for LinkLost {}

// An answer's length is told beside the buffer that is lent for it: nothing is allocated, and the contracts speak of the whole buffer.
pub trait Link: Sized {
    /// From one state to another: the datanode connected to, the request, the least count, and the response if one came.
    ghost sets: { Self → Datanode → List ℕ → ℕ → Option (List ℕ) → Self → Type 0 };

    /// A frame, and whether it was taken.
    ghost puts: { Self → List ℕ → Bool → Self → Type 0 };

    /// What came when an answer was asked for.
    ghost nexts: { Self → Came → Self → Type 0 };

    /// The datanode connected to, the request, and the response if one came.
    ghost transfers: { Self → Datanode → List ℕ → Option (List ℕ) → Self → Type 0 };

    /// Sends a request that sets up a pipeline to its first datanode, and answers how many octets the response has. It stands at the front of
    /// `answer`, which stays as it was where the request, or a response longer than `answer`, was lost. `least` is how many bytes all
    /// datanodes must have, and keep.
    fn set_up(
        &mut self,
        node: &Datanode,
        request: &[u8],
        least: u64,
        answer: &mut [u8],
    ) -> Result<usize, LinkLost>
        ensures { Replied (λ came. sets self.old node.now request.now least came self.new)
            answer.old answer.new result };

    /// Sends a frame.
    fn put(&mut self, frame: &[u8]) -> Result<(), LinkLost>
        ensures { puts self.old frame.now (is_ok result) self.new };

    /// Asks for the next answer, and tells how many octets it has. It stands at the front of `answer`; where none has come yet, or the link
    /// is lost, `answer` stays as it was.
    fn next(&mut self, answer: &mut [u8]) -> Result<Option<usize>, LinkLost>
        ensures { Answered (λ came. nexts self.old came self.new) answer.old answer.new result };

    /// Sends a request that copies the block to a new datanode to the datanode that has it. Its response comes as that of a set up.
    fn transfer(
        &mut self,
        node: &Datanode,
        request: &[u8],
        answer: &mut [u8],
    ) -> Result<usize, LinkLost>
        ensures { Replied (λ came. transfers self.old node.now request.now came self.new)
            answer.old answer.new result };
}
