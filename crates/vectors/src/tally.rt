//! How many lines of each kind agree.
ghost use Rattle.std.specs.Prelude.{◌≡◌};
ghost use Rattle.vectors.specs.Tallies.{more, nothing, agreed_on, differed_in};

use crate::error::LineError;
use std::str::FromStr;

/// What a line of the table is a vector of.
#[derive(Clone, Copy, Debug)]
pub enum Kind {
    Frame,
    Write,
    Transfer,
    Answer,
    Response,
}

impl FromStr for Kind {
    type Err = LineError;

    fn from_str(word: &str) -> Result<Kind, LineError> {
        match word {
            "frame" => Ok(Kind::Frame),
            "write" => Ok(Kind::Write),
            "transfer" => Ok(Kind::Transfer),
            "answer" => Ok(Kind::Answer),
            "response" => Ok(Kind::Response),
            _ => Err(LineError::Form),
        }
    }
}

/// How many lines agree, by their kind, and how many do not.
#[derive(Clone, Copy)]
pub struct Tally {
    pub frames: u32,
    pub writes: u32,
    pub transfers: u32,
    pub answers: u32,
    pub responses: u32,
    pub differing: u32,
}

// One line more, up to what 32 bits hold.
fn count(lines: &mut u32)
    ensures { lines.new ≡ more lines.old }
{
    *lines = lines.saturating_add(1);
}

impl Tally {
    pub fn new() -> Tally
        ensures { result ≡ nothing }
    {
        Tally {
            frames: 0,
            writes: 0,
            transfers: 0,
            answers: 0,
            responses: 0,
            differing: 0,
        }
    }

    /// Counts a line that agrees.
    pub fn agreed(mut self, kind: Kind) -> Tally
        ensures { result ≡ agreed_on self kind }
    {
        match kind {
            Kind::Frame => count(&mut self.frames),
            Kind::Write => count(&mut self.writes),
            Kind::Transfer => count(&mut self.transfers),
            Kind::Answer => count(&mut self.answers),
            Kind::Response => count(&mut self.responses),
        }
        self
    }

    /// Counts a line that does not.
    pub fn differed(mut self) -> Tally
        ensures { result ≡ differed_in self }
    {
        count(&mut self.differing);
        self
    }
}
