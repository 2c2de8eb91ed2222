//! An answer asked for, and what it says.
ghost use Rattle.std.specs.Prelude.{◌≡◌};
ghost use Rattle.sending.specs.declared.ask.AskError.TheVariants.{Lost, Undecodable};
ghost use Rattle.sending.specs.Asking.{Hears};

use ack::ack::{Verdict, judge};
use chain::link::{Link, LinkLost};
use std::error::Error;
use std::fmt;
use wire::field::DecodeError;

/// Why nothing was heard when an answer was asked for.
#[derive(Clone, Copy, Debug, PartialEq, Eq)]
pub enum AskError {
    /// The link is lost.
    Lost,
    /// An answer came that cannot be read.
    Undecodable(DecodeError),
}

impl From<LinkLost> for AskError {
    ghost from_gives = { λ _ error. error ≡ Lost };

    fn from(_lost: LinkLost) -> Self {
        AskError::Lost
    }
}

impl From<DecodeError> for AskError {
    ghost from_gives = { λ fault error. error ≡ Undecodable fault };

    fn from(fault: DecodeError) -> Self {
        AskError::Undecodable(fault)
    }
}

impl fmt::Display for AskError {
    fn fmt<W: fmt::Write>(&self, f: &mut fmt::Formatter<W>) -> fmt::Result {
        match self {
            Self::Lost => write!(f, "the link is lost"),
            Self::Undecodable(_) => write!(f, "an answer cannot be read"),
        }
    }
}

impl Error for AskError {}

/// Asks the link for its next answer and judges it, if one has come. It stands at the front of `answer`, which stays as it was where none came.
pub fn ask<L: Link>(link: &mut L, answer: &mut [u8]) -> Result<Option<Verdict>, AskError>
    ensures { Hears L.Link link.old answer.old answer.new link.new result }
{
    let came = link.next(answer)?;
    Ok(came.map(|len| judge(&answer[0..len])).transpose()?)
}
