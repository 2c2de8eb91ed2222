//! What settles after each call, as the tasks of the original do between the calls.
use crate::page::Page;
use crate::session::{Session, Stage};
use writer::heed::Heeded;
use writer::refusal::Refusal;

impl Session {
    /// Tells what the chain and the namenode wrote down, in their common order.
    pub fn show_events(&mut self, page: &Page<'_>) -> anyhow::Result<()> {
        let mut noted = self.link.take_events();
        for one in self.namenode.take_events() {
            noted.push(one)?;
        }
        noted.sort_by_key(|one| one.turn)?;
        for one in noted.iter() {
            page.event(&one.event, self.namenode.offered_list())?;
        }
        Ok(())
    }

    /// Heeds all answers that have come, up to one that breaks the pipeline or ends the block.
    pub fn heed_all(&mut self) -> Result<(), Refusal> {
        // A count: a link that has an answer each time would never let this end.
        for _ in 0..u32::MAX {
            if self.broken.is_some() || self.complete {
                return Ok(());
            }
            let Some(writer) = self.writer.as_mut() else {
                return Ok(());
            };
            let heeded = writer.heed(
                &mut self.link,
                self.buffers.store.as_slice(),
                self.buffers.frame.as_slice(),
                self.buffers.request.as_slice(),
                self.buffers.answer.as_mut_slice(),
            )?;
            match heeded {
                Heeded::Nothing => return Ok(()),
                Heeded::HeartBeat | Heeded::Confirmed(_) => {}
                Heeded::Complete(_) => self.complete = true,
                Heeded::Broken(cause) => self.broken = Some(cause.failed_nodes()),
            }
        }
        Ok(())
    }

    // Heeds what has come, and mends the pipeline where that broke it.
    fn heed_and_mend(&mut self, page: &Page<'_>) -> anyhow::Result<Result<(), Refusal>> {
        if let Err(refusal) = self.heed_all() {
            return Ok(Err(refusal));
        }
        self.recover(page)
    }

    // Gives the writer up for the record of its block.
    fn close(&mut self, page: &Page<'_>) -> anyhow::Result<()> {
        self.stage = Stage::Over;
        let Some(writer) = self.writer.take() else {
            return Ok(());
        };
        match writer.close() {
            Ok(block) => page.record(block),
            Err(refusal) => page.refused(refusal),
        }
    }

    // The end of a block: it is complete, or waits for an answer.
    fn settle_end(&mut self, page: &Page<'_>) -> anyhow::Result<()> {
        if let Err(refusal) = self.heed_and_mend(page)? {
            return self.refuse(page, refusal, Stage::Over);
        }
        self.show_events(page)?;
        if !self.complete {
            return page.line("pending");
        }
        self.close(page)
    }

    // A write: answers are heeded, and the writer goes on where they freed slots. It does so too where all bytes are taken, since the last
    // packet may be full and wait for a slot.
    fn settle_write(&mut self, page: &Page<'_>) -> anyhow::Result<()> {
        // A refusal closes the writer, which says so at its next call.
        if self.heed_all().is_ok() && self.broken.is_none() {
            self.go_on_writing(page)?;
        }
        if self.stage != Stage::Writing {
            return Ok(());
        }
        self.show_events(page)?;
        if !self.is_written() {
            return page.line("pending");
        }
        self.stage = Stage::Idle;
        page.wrote(self.taken)
    }

    /// What has come is heeded, and what came of it told.
    pub fn settle(&mut self, page: &Page<'_>) -> anyhow::Result<()> {
        match self.stage {
            Stage::Finishing => self.settle_end(page),
            Stage::Writing => self.settle_write(page),
            // An answer that has come is heeded at the end of the next write, which is where the original looks at what it heard.
            Stage::Before | Stage::Idle | Stage::Over => self.show_events(page),
        }
    }
}
