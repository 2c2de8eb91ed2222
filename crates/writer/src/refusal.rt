//! What a call answers where it does not act, and its number.
ghost use Rattle.std.specs.Prelude.{◌≡◌};
ghost use Rattle.writer.specs.Refusals.{number_of};

use pipeline::add_datanode::NoDatanode;
use pipeline::reply::ReplyError;
use std::error::Error;
use std::fmt;

/// Why a call was refused.
#[derive(Clone, Copy, Debug, PartialEq, Eq)]
pub enum Refusal {
    /// The chunk size is 0 or above 1,048,576.
    ChunkSize,
    /// The packet size leaves no room for a chunk, or is above 16,777,216.
    PacketSize,
    /// The initial length is above the block size, or that above 2^63 - 1.
    Length,
    /// There are not 1 to 8 datanodes, or their lists differ in length.
    Nodes,
    /// A datanode, a storage type, a token or a text is out of form.
    Form,
    /// The store is shorter than three packets, or later of another length.
    Store,
    /// The frame, request or answer buffer is too short.
    Buffer,
    /// The opening's set up did not come back good.
    SetUp(ReplyError),
    /// A passing answer has the number -2.
    UnknownSeqno,
    /// A passing answer has a number that is not the first held packet's.
    Unexpected,
    /// At least as many positions failed as there are datanodes.
    AllFailed,
    /// A failed position lies past the pipeline.
    PastPipeline,
    /// The failed datanode could not be replaced.
    Replacement(NoDatanode),
    /// The namenode gave no stamp, or a token out of form.
    Stamp,
    /// The recovery's set up did not come back good.
    Recovery(ReplyError),
    /// The namenode refused the update.
    Update,
    /// The writer is closed.
    Closed,
    /// The pipeline is broken.
    Broken,
    /// The block is finished.
    Finished,
    /// The block is complete.
    Complete,
    /// The pipeline is whole.
    Whole,
    /// There are no places for the packets that end the block.
    Places,
    /// The block is not complete; so many packets are held.
    Incomplete(usize),
}

/// The refusal's number.
impl From<Refusal> for u8 {
    ghost from_gives = { λ refusal number. number ≡ number_of refusal };

    fn from(refusal: Refusal) -> u8 {
        match refusal {
            Refusal::ChunkSize => 1,
            Refusal::PacketSize => 2,
            Refusal::Length => 3,
            Refusal::Nodes => 4,
            Refusal::Form => 5,
            Refusal::Store => 6,
            Refusal::Buffer => 7,
            Refusal::SetUp(_) => 8,
            Refusal::UnknownSeqno => 9,
            Refusal::Unexpected => 10,
            Refusal::AllFailed => 11,
            Refusal::PastPipeline => 12,
            Refusal::Replacement(_) => 13,
            Refusal::Stamp => 14,
            Refusal::Recovery(_) => 15,
            Refusal::Update => 16,
            Refusal::Closed => 21,
            Refusal::Broken => 22,
            Refusal::Finished => 23,
            Refusal::Complete => 24,
            Refusal::Whole => 25,
            Refusal::Places => 26,
            Refusal::Incomplete(_) => 27,
        }
    }
}

impl Refusal {
    // What happened. What came of a request, and how many packets are held, is told behind it.
    fn event(&self) -> &'static str {
        match self {
            Refusal::ChunkSize => "the chunk size is 0 or above 1,048,576",
            Refusal::PacketSize => "the packet size is 1 to chunk size + 36, or above 16,777,216",
            Refusal::Length => "the block is longer than its size, or that is above 2^63 - 1",
            Refusal::Nodes => "there are not 1 to 8 datanodes, or their lists differ in length",
            Refusal::Form => "a datanode, a storage type, a token or a text is out of form",
            Refusal::Store => "the store is below three packets, or not as long as at the opening",
            Refusal::Buffer => "the frame, request or answer buffer is too short",
            Refusal::SetUp(_) => "the pipeline could not be set up",
            Refusal::UnknownSeqno => "an answer passes with the number -2, which no packet has",
            Refusal::Unexpected =>
                "an answer passes with another number than the first held packet's",
            Refusal::AllFailed => "as many positions failed as there are datanodes, or more",
            Refusal::PastPipeline => "a position that failed lies past the pipeline",
            Refusal::Replacement(_) => "the datanode that failed could not be replaced",
            Refusal::Stamp => "the namenode gave no new stamp, or a token out of form",
            Refusal::Recovery(_) => "the pipeline could not be set up again",
            Refusal::Update => "the namenode refused the new pipeline",
            Refusal::Closed => "the writer is closed",
            Refusal::Broken => "the pipeline is broken",
            Refusal::Finished => "the last packet is handed over, and no more bytes are taken",
            Refusal::Complete => "the block is complete",
            Refusal::Whole => "the pipeline is whole",
            Refusal::Places => "the slots have no room for the packets that end the block",
            Refusal::Incomplete(_) => "the block is not complete",
        }
    }

    // What it means for the block, and what its user can do.
    fn consequence(&self) -> &'static str {
        match self {
            Refusal::ChunkSize
            | Refusal::PacketSize
            | Refusal::Length
            | Refusal::Nodes
            | Refusal::Form => "nothing was sent, and this writer is closed: mend it and open anew",
            Refusal::Store | Refusal::Buffer => {
                "nothing was done: an opening leaves a closed writer, a later call may be repeated"
            }
            Refusal::SetUp(_) => "this writer is closed: the block has to be opened anew",
            Refusal::UnknownSeqno
            | Refusal::Unexpected
            | Refusal::AllFailed
            | Refusal::PastPipeline
            | Refusal::Replacement(_)
            | Refusal::Stamp
            | Refusal::Recovery(_)
            | Refusal::Update => {
                "this writer is closed: another has to write what is not confirmed"
            }
            Refusal::Closed => "nothing was done: another writer has to go on with the block",
            Refusal::Broken => "nothing was done: recover, and then repeat the call",
            Refusal::Finished => "nothing was done: heed until the block is complete",
            Refusal::Complete => "nothing was done: close gives its record",
            Refusal::Whole => "nothing was done, and there is nothing to recover",
            Refusal::Places =>
                "nothing was done: heed until a packet is confirmed, and then repeat it",
            Refusal::Incomplete(_) => "there is no record, and the writer is gone",
        }
    }
}

/// What happened, and behind it what that means for the block.
impl fmt::Display for Refusal {
    fn fmt<W: fmt::Write>(&self, f: &mut fmt::Formatter<W>) -> fmt::Result {
        let event = self.event();
        let consequence = self.consequence();
        match self {
            Refusal::SetUp(why) | Refusal::Recovery(why) => {
                write!(f, "{event} ({why}); {consequence}")
            }
            Refusal::Replacement(why) => write!(f, "{event} ({why}); {consequence}"),
            Refusal::Incomplete(held) => write!(f, "{event} (packets held {held}); {consequence}"),
            _ => write!(f, "{event}; {consequence}"),
        }
    }
}

impl Error for Refusal {}
