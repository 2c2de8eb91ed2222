//! How far a block is written, and what each call of the writer came to.
use anyhow::bail;
use runs::command::{Command, Outcome};
use writer::beat::Beat;
use writer::heed::Heeded;
use writer::recover::Recovered;
use writer::refusal::Refusal;
use writer::state::kind::State;

/// So many turns without an answer are too many.
const PATIENCE: usize = 16;

/// What is left to be done.
#[derive(Clone, Copy)]
pub struct Progress<'a> {
    rest: &'a [u8],
    broken: bool,
    finished: bool,
    complete: bool,
    confirmed: u64,
    beats: u64,
    quiet: usize,
    /// A turn takes a second.
    time: u64,
}

impl<'a> Progress<'a> {
    pub fn new(block: &'a [u8]) -> Progress<'a> {
        Progress {
            rest: block,
            broken: false,
            finished: false,
            complete: false,
            confirmed: 0,
            beats: 0,
            quiet: 0,
            time: 0,
        }
    }

    pub fn is_complete(&self) -> bool {
        self.complete
    }

    /// The calls of the next turn.
    pub fn commands(&mut self) -> [Command<'a>; 3] {
        self.time = self.time.saturating_add(1);
        if self.broken {
            [Command::Recover(self.time), Command::Heed, Command::Heed]
        } else if !self.rest.is_empty() {
            [
                Command::Write(self.rest),
                Command::Beat(self.time),
                Command::Heed,
            ]
        } else if !self.finished {
            [Command::Finish, Command::Heed, Command::Heed]
        } else {
            [Command::Heed, Command::Heed, Command::Heed]
        }
    }

    // Tells the state of a writer whose pipeline a call has broken, and why.
    fn is_broken(&mut self, rt: &HostRuntime, state: State) -> anyhow::Result<()> {
        self.broken = true;
        let confirmed = self.confirmed;
        println!(rt; "  after {confirmed} confirmed packets the writer is {state}")?;
        Ok(())
    }

    // A call put frames, the last of which may be lost.
    fn put(&mut self, rt: &HostRuntime, lost: bool, state: State) -> anyhow::Result<()> {
        if lost {
            return self.is_broken(rt, state);
        }
        Ok(())
    }

    // Counts an answer, or that none came.
    fn heed(&mut self, rt: &HostRuntime, heeded: Heeded, state: State) -> anyhow::Result<()> {
        match heeded {
            Heeded::Nothing => {
                self.quiet = self.quiet.saturating_add(1);
                if self.quiet > PATIENCE {
                    bail!("no answer comes");
                }
            }
            Heeded::HeartBeat => self.quiet = 0,
            Heeded::Confirmed(_) => {
                self.quiet = 0;
                self.confirmed = self.confirmed.saturating_add(1);
            }
            Heeded::Complete(_) => {
                self.confirmed = self.confirmed.saturating_add(1);
                self.complete = true;
            }
            Heeded::Broken(_) => self.is_broken(rt, state)?,
        }
        Ok(())
    }

    // What a recovery came to. The pipeline is broken again where a frame was lost.
    fn recovered(
        &mut self,
        rt: &HostRuntime,
        recovered: Recovered,
        state: State,
    ) -> anyhow::Result<()> {
        self.broken = false;
        let Recovered {
            choice,
            stamp,
            replayed,
            put_lost,
        } = recovered;
        match choice {
            Some((new, source)) => println!(rt;
                "  new datanode {new} of the namenode's list, copied from {source}"
            )?,
            None => println!(rt; "  no new datanode")?,
        }
        println!(rt; "  stamp {stamp}, packets put again {replayed}, a frame lost {put_lost}")?;
        self.put(rt, put_lost, state)
    }

    /// Takes in what a call came to. `state` is the writer's at the end of the turn: a pipeline
    /// that one of its calls has broken is still broken then. A call of the same turn that a break
    /// or the block's end came before is refused, and no error; nor is an end that has no places
    /// yet.
    pub fn take(&mut self, rt: &HostRuntime, outcome: Outcome, state: State) -> anyhow::Result<()> {
        match outcome {
            Outcome::Wrote(Ok(written)) => {
                self.rest = self.rest.get(written.taken..).unwrap_or(&[]);
                self.put(rt, written.put_lost, state)?;
            }
            Outcome::Beaten(Ok(beat)) => {
                self.beats = self.beats.saturating_add(u64::from(beat == Beat::Put));
                self.put(rt, beat == Beat::Lost, state)?;
            }
            Outcome::Heard(Ok(heeded)) => self.heed(rt, heeded, state)?,
            Outcome::Ended(Ok(ended)) => {
                self.finished = true;
                self.put(rt, ended.put_lost, state)?;
            }
            Outcome::Recovered(Ok(recovered)) => self.recovered(rt, recovered, state)?,
            refused => {
                if let Some(refusal) = refused.refusal() {
                    self.refused(rt, refusal)?;
                }
            }
        }
        Ok(())
    }

    // A refusal that is no error passes; any other one ends the run.
    fn refused(&self, rt: &HostRuntime, refusal: Refusal) -> anyhow::Result<()> {
        match refusal {
            Refusal::Broken if self.broken => Ok(()),
            Refusal::Complete if self.complete => Ok(()),
            Refusal::Places => Ok(()),
            _ => refused(rt, "a call", refusal),
        }
    }

    /// Tells how many packets were confirmed, and how many heartbeats put.
    pub fn show(&self, rt: &HostRuntime) -> anyhow::Result<()> {
        let Progress {
            confirmed,
            beats,
            ..
        } = *self;
        println!(rt; "  packets confirmed {confirmed}, heartbeats put {beats}")?;
        Ok(())
    }
}

/// Tells a refusal, and ends what was to be done. Its text is longer than what an error keeps.
pub fn refused<T>(rt: &HostRuntime, what: &str, refusal: Refusal) -> anyhow::Result<T> {
    let number = u8::from(refusal);
    eprintln!(rt; "refused with number {number}: {refusal}")?;
    bail!("{what} is refused with number {number}")
}
