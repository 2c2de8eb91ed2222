//! What a client asks of a writer, and what came of it.
ghost use Rattle.std.specs.Prelude.{◌≡◌};
ghost use Rattle.runs.specs.Outcomes.{refusal_in};

use writer::beat::Beat;
use writer::finish::Finished;
use writer::heed::Heeded;
use writer::recover::Recovered;
use writer::refusal::Refusal;
use writer::write::Written;

/// A call of a writer, with what it is given beside the buffers. A time is in seconds.
#[derive(Clone, Copy)]
pub enum Command<'a> {
    Write(&'a [u8]),
    Heed,
    Beat(u64),
    Finish,
    Recover(u64),
}

/// What a call answered.
#[derive(Clone, Copy, Debug, PartialEq, Eq)]
pub enum Outcome {
    Wrote(Result<Written, Refusal>),
    Heard(Result<Heeded, Refusal>),
    Beaten(Result<Beat, Refusal>),
    Ended(Result<Finished, Refusal>),
    Recovered(Result<Recovered, Refusal>),
}

impl Outcome {
    /// Why the call was refused, where it was.
    pub fn refusal(self) -> Option<Refusal>
        ensures { result ≡ refusal_in self }
    {
        match self {
            Outcome::Wrote(answer) => answer.err(),
            Outcome::Heard(answer) => answer.err(),
            Outcome::Beaten(answer) => answer.err(),
            Outcome::Ended(answer) => answer.err(),
            Outcome::Recovered(answer) => answer.err(),
        }
    }
}
