//! The actions of a run, as data.
use crate::link::{Instead, Put};
use request::setup::Setup;
use runs::command::{Command, Outcome};
use writer::beat::Beat;
use writer::finish::Finished;
use writer::heed::Heeded;
use writer::recover::Recovered;
use writer::refusal::Refusal;
use writer::state::kind::State;
use writer::write::Written;

/// A call and what it has to come to, something that is to go wrong, or a look at what stands then.
#[derive(Clone, Copy)]
pub enum Action {
    /// Bytes are written, and so many are taken.
    Write(&'static [u8], usize),
    /// The same, and then a frame is lost.
    WriteLost(&'static [u8], usize),
    /// An answer is heeded.
    Heed(Heeded),
    /// Answers are heeded until one that is no confirmation, or none.
    HeedAll(Heeded),
    /// An answer is heeded, and the pipeline is broken, whatever by.
    Breaks,
    /// A beat at a time.
    Beat(u64, Beat),
    /// A recovery at a time gives this stamp, and puts so many packets again, on the datanodes that are left.
    Recover(u64, u64, usize),
    /// The same, and then a frame is lost.
    RecoverLost(u64, u64, usize),
    /// The same as the first, with a new datanode and its source at these positions.
    Replace(u64, (usize, usize), u64, usize),
    Finish,
    /// One of the frames of the block's end is lost.
    FinishLost,
    /// A call is refused, with this number.
    Refused(Command<'static>, u8, Refusal),
    /// The numbers that a write, a heed, a beat, a recovery and a finish are refused with, or 0.
    Numbers([u8; 5]),
    /// One frame is lost, after so many more.
    LosePut(usize),
    /// What the next set up comes to.
    OnSetUp(Instead),
    /// What comes when the next answer is asked for.
    OnNext(Instead),
    /// What the next transfer comes to.
    OnTransfer(Instead),
    /// An answer of so many octets comes, and the writer does not hear of it.
    Unheard(usize),
    /// From here on frames are noted anew, and the buffers are to stay.
    Mark,
    /// Copies of the run's buffers are lent in their place, with a store, a frame and an answer of these lengths.
    Lend(usize, usize, usize),
    /// The lent ones are still as they were, and the run's own take their place.
    Own,
    Look(Look),
}

/// A look at what stands.
#[derive(Clone, Copy)]
pub enum Look {
    /// The last set up that was asked for: its stage, minimum and maximum.
    Stage(u64, u64, u64),
    /// The whole of it.
    SetUp(Setup),
    /// The ips of the datanodes that set ups and transfers were sent to.
    Asked(&'static [u8]),
    /// The frames since the mark.
    Puts(&'static [Put]),
    /// How many there are.
    PutCount(usize),
    /// How many packets the first datanode has not answered.
    Pending(usize),
    /// The bytes that it keeps.
    Kept(&'static [u8]),
    /// All buffers are as they were at the mark.
    Same,
    SameStore,
    SameFrame,
    /// What stands at the front of the store.
    Store(&'static [u8]),
    Request(&'static [u8]),
    Answer(&'static [u8]),
    /// The ips of the datanodes that the namenode has the block on.
    On(&'static [u8]),
    /// The stamp and length that the namenode has the block at.
    Entry(u64, u64),
    /// What the writer says that it is in the midst of, and why.
    State(State),
}

// What a recovery comes to.
fn recovered(
    choice: Option<(usize, usize)>,
    stamp: u64,
    replayed: usize,
    put_lost: bool,
) -> Outcome {
    Outcome::Recovered(Ok(Recovered {
        choice,
        stamp,
        replayed,
        put_lost,
    }))
}

// What a write comes to.
fn wrote(taken: usize, put_lost: bool) -> Outcome {
    Outcome::Wrote(Ok(Written { taken, put_lost }))
}

impl Action {
    /// The call that the action is, and what it has to come to, where it is one that is not refused.
    pub fn call(self) -> Option<(Command<'static>, Outcome)> {
        match self {
            Action::Write(bytes, taken) => Some((Command::Write(bytes), wrote(taken, false))),
            Action::WriteLost(bytes, taken) => Some((Command::Write(bytes), wrote(taken, true))),
            Action::Heed(heeded) => Some((Command::Heed, Outcome::Heard(Ok(heeded)))),
            Action::Beat(time, beat) => Some((Command::Beat(time), Outcome::Beaten(Ok(beat)))),
            Action::Recover(time, stamp, packets) => {
                Some((
                    Command::Recover(time),
                    recovered(None, stamp, packets, false),
                ))
            }
            Action::RecoverLost(time, stamp, packets) => {
                Some((
                    Command::Recover(time),
                    recovered(None, stamp, packets, true),
                ))
            }
            Action::Replace(time, choice, stamp, packets) => {
                Some((
                    Command::Recover(time),
                    recovered(Some(choice), stamp, packets, false),
                ))
            }
            Action::Finish => Some((
                Command::Finish,
                Outcome::Ended(Ok(Finished { put_lost: false })),
            )),
            Action::FinishLost => {
                Some((
                    Command::Finish,
                    Outcome::Ended(Ok(Finished { put_lost: true })),
                ))
            }
            _ => None,
        }
    }
}
