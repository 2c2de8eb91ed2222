//! The response to a request, judged.
ghost use Rattle.std.specs.Prelude.{◌≡◌, ◌≤◌, length, Some};
ghost use Rattle.pipeline.specs.declared.reply.ReplyError.TheVariants as error;
ghost use Rattle.pipeline.specs.Replies.{reply_of, size_of, front_of};

use ack::response::BlockOpResponse;
use chain::link::LinkLost;
use std::fmt;
use wire::field::DecodeError;

/// Why a request was not granted.
#[derive(Clone, Copy, Debug, PartialEq, Eq)]
pub enum ReplyError {
    /// No response came.
    Lost,
    /// A response that cannot be read.
    Undecodable,
    /// A response with another status than SUCCESS, or with none.
    Status,
}

impl fmt::Display for ReplyError {
    fn fmt<W: fmt::Write>(&self, f: &mut fmt::Formatter<W>) -> fmt::Result {
        match self {
            ReplyError::Lost => write!(f, "no response came"),
            ReplyError::Undecodable => write!(f, "the response cannot be read"),
            ReplyError::Status => write!(f, "the response is not SUCCESS"),
        }
    }
}

impl From<LinkLost> for ReplyError {
    ghost from_gives = { λ _ e. e ≡ error.Lost };

    fn from(_: LinkLost) -> ReplyError {
        ReplyError::Lost
    }
}

impl From<DecodeError> for ReplyError {
    ghost from_gives = { λ _ e. e ≡ error.Undecodable };

    fn from(_: DecodeError) -> ReplyError {
        ReplyError::Undecodable
    }
}

// What a response says.
fn judged(message: &[u8]) -> Result<(), ReplyError>
    ensures { result ≡ reply_of (Some message.now) }
{
    if BlockOpResponse::read(message)?.is_good() {
        Ok(())
    } else {
        Err(ReplyError::Status)
    }
}

/// What a response of so many octets at the front of `answer` says, or that none came.
// The length comes beside the answer's buffer, as the link tells it: nothing is allocated, and the response is the buffer's front.
pub fn judge_reply(came: Result<usize, LinkLost>, answer: &[u8]) -> Result<(), ReplyError>
    requires { size_of came ≤ length answer.now }
    ensures { result ≡ reply_of (front_of came answer.now) }
{
    let len = came?;
    judged(&answer[0..len])
}
