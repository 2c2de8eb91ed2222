//! A writer with the link and the buffers that its calls are lent.
use crate::buffers::{are_same, copy_of, with_lengths};
use crate::link::TestLink;
use chain::link::Link;
use namenode::protocol::NamenodeProtocol;
use proto::block::ExtendedBlock;
use runs::command::{Command, Outcome};
use std::alloc::{AllocError, Global};
use std::mem;
use writer::admit::Lengths;
use writer::buffers::Buffers;
use writer::heed::Heeded;
use writer::opening::Opening;
use writer::refusal::Refusal;
use writer::state::Writer;

/// A writer, and what its calls are lent.
#[derive(Drop)]
pub struct Run<C> {
    pub writer: Writer,
    pub link: TestLink<C>,
    pub buffers: Buffers,
    /// The buffers as they were at the last mark.
    pub marked: Buffers,
    // The run's own buffers while others are lent, and else those that were lent last.
    own: Buffers,
}

// Beside `call` of `runs`, which makes a call over a link and a namenode that mean what they say: those of the tests do not.
fn call<L: Link, N: NamenodeProtocol>(
    writer: &mut Writer,
    link: &mut L,
    namenode: &mut N,
    store: &mut [u8],
    frame: &mut [u8],
    request: &mut [u8],
    answer: &mut [u8],
    command: Command<'_>,
) -> Outcome {
    match command {
        Command::Write(bytes) => {
            Outcome::Wrote(writer.write(link, store, frame, request, answer, bytes))
        }
        Command::Heed => Outcome::Heard(writer.heed(link, store, frame, request, answer)),
        Command::Beat(time) => {
            Outcome::Beaten(writer.beat(link, store, frame, request, answer, time))
        }
        Command::Finish => Outcome::Ended(writer.finish(link, store, frame, request, answer)),
        Command::Recover(time) => Outcome::Recovered(writer.recover(
            link, namenode, store, frame, request, answer, time,
        )),
    }
}

impl<C: Link + Drop> Run<C> {
    /// A block opened over this link with these buffers, and what the opening came to. The mark is before it.
    pub fn open(
        heap: Global,
        opening: Opening<'_>,
        link: TestLink<C>,
        buffers: Buffers,
    ) -> Result<(Run<C>, Result<(), Refusal>), AllocError> {
        let mut link = link;
        let mut buffers = buffers;
        let marked = copy_of(&buffers)?;
        let own = copy_of(&buffers)?;
        let opened = Writer::open(
            heap,
            opening,
            &mut link,
            &buffers.store,
            &buffers.frame,
            &mut buffers.request,
            &mut buffers.answer,
        )?;
        let run = Run {
            writer: opened.writer,
            link,
            buffers,
            marked,
            own,
        };
        Ok((run, opened.outcome))
    }
}

impl<C: Link> Run<C> {
    /// Makes a call.
    pub fn call<N: NamenodeProtocol>(&mut self, namenode: &mut N, command: Command<'_>) -> Outcome {
        call(
            &mut self.writer,
            &mut self.link,
            namenode,
            &mut self.buffers.store,
            &mut self.buffers.frame,
            &mut self.buffers.request,
            &mut self.buffers.answer,
            command,
        )
    }

    /// Heeds answers until one that is no confirmation, or none, and tells what that was.
    pub fn heed_all<N: NamenodeProtocol>(&mut self, namenode: &mut N) -> Outcome {
        for _ in 0..128 {
            match self.call(namenode, Command::Heed) {
                Outcome::Heard(Ok(Heeded::Confirmed(_) | Heeded::HeartBeat)) => {}
                outcome => return outcome,
            }
        }
        Outcome::Heard(Ok(Heeded::Nothing))
    }

    /// From here on frames are noted anew, and the buffers are to stay.
    pub fn mark(&mut self) -> Result<(), AllocError> {
        self.link.puts.clear();
        self.marked = copy_of(&self.buffers)?;
        Ok(())
    }

    /// Copies of the run's buffers are lent in their place, with a store, a frame and an answer of these lengths.
    pub fn lend(&mut self, store: usize, frame: usize, answer: usize) -> Result<(), AllocError> {
        let lengths = Lengths {
            store,
            frame,
            answer,
            request: self.buffers.request.len(),
        };
        let lent = with_lengths(&self.buffers, lengths)?;
        self.own = mem::replace(&mut self.buffers, lent);
        self.mark()
    }

    /// The run's own buffers take the place of the lent ones. Whether nothing was put, and the lent ones are as they were lent.
    pub fn take_back(&mut self) -> bool {
        mem::swap(&mut self.buffers, &mut self.own);
        self.link.puts.is_empty() && are_same(&self.own, &self.marked)
    }

    /// The closing record, or why there is none, and the chain.
    pub fn close(self) -> (Result<ExtendedBlock, Refusal>, C) {
        let Run {
            writer,
            link,
            buffers: _,
            marked: _,
            own: _,
        } = self;
        (writer.close(), link.inner)
    }
}
