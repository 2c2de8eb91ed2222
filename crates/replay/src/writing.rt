//! Bytes written, seconds that pass, and the block's end.
use crate::page::Page;
use crate::session::{Session, Stage};
use writer::beat::Beat;
use writer::cause::Cause;
use writer::refusal::Refusal;

impl Session {
    // A frame was lost, which counts against the first datanode.
    fn note_loss(&mut self, put_lost: bool) {
        if put_lost {
            self.broken = Some(Cause::Link.failed_nodes());
        }
    }

    /// A call was refused: that is told, and the run is then at that stage.
    pub fn refuse(
        &mut self,
        page: &Page<'_>,
        refusal: Refusal,
        stage: Stage,
    ) -> anyhow::Result<()> {
        self.stage = stage;
        self.show_events(page)?;
        page.refused(refusal)
    }

    /// Begins a write. A pipeline that broke before is mended first.
    pub fn begin_write(&mut self, page: &Page<'_>, bytes: &[u8]) -> anyhow::Result<()> {
        if self.stage != Stage::Idle {
            return page.line("busy");
        }
        if let Err(refusal) = self.recover(page)? {
            return self.refuse(page, refusal, Stage::Idle);
        }
        self.bytes = Vec::from_slice(self.heap, bytes)?;
        self.taken = 0;
        self.stage = Stage::Writing;
        self.go_on_writing(page)
    }

    /// Has the writer take more bytes of the write under way.
    pub fn go_on_writing(&mut self, page: &Page<'_>) -> anyhow::Result<()> {
        let Some(writer) = self.writer.as_mut() else {
            return Ok(());
        };
        let left = self.bytes.as_slice();
        let left = left.get(self.taken..).unwrap_or(left);
        let written = writer.write(
            &mut self.link,
            self.buffers.store.as_mut_slice(),
            self.buffers.frame.as_mut_slice(),
            self.buffers.request.as_slice(),
            self.buffers.answer.as_slice(),
            left,
        );
        match written {
            Ok(written) => {
                self.taken = self.taken.saturating_add(written.taken);
                self.len = self.len.saturating_add(written.taken as u64);
                self.note_loss(written.put_lost);
                Ok(())
            }
            Err(refusal) => self.refuse(page, refusal, Stage::Idle),
        }
    }

    /// Whether the write under way has come to its end: all bytes are taken, the block is full, or the pipeline broke.
    pub fn is_written(&self) -> bool {
        self.taken >= self.bytes.len()
            || self.len >= self.opening.block_size
            || self.broken.is_some()
    }

    /// So many seconds pass. A heartbeat that the writer refuses is none.
    pub fn pass(&mut self, seconds: u64) {
        self.time = self.time.saturating_add(seconds);
        let Some(writer) = self.writer.as_mut() else {
            return;
        };
        let beat = writer.beat(
            &mut self.link,
            self.buffers.store.as_slice(),
            self.buffers.frame.as_mut_slice(),
            self.buffers.request.as_slice(),
            self.buffers.answer.as_slice(),
            self.time,
        );
        self.note_loss(beat == Ok(Beat::Lost));
    }

    // Ends the block: at once, or after the answers that have come freed slots for the packets that end it.
    fn finish_block(&mut self) -> Result<(), Refusal> {
        match self.finish_once() {
            Err(Refusal::Places) => {
                self.heed_all()?;
                self.finish_once()
            }
            finished => finished,
        }
    }

    fn finish_once(&mut self) -> Result<(), Refusal> {
        let Some(writer) = self.writer.as_mut() else {
            return Ok(());
        };
        let finished = writer.finish(
            &mut self.link,
            self.buffers.store.as_slice(),
            self.buffers.frame.as_mut_slice(),
            self.buffers.request.as_slice(),
            self.buffers.answer.as_slice(),
        )?;
        self.note_loss(finished.put_lost);
        Ok(())
    }

    /// Ends the block. A pipeline that broke before is mended first.
    pub fn finish(&mut self, page: &Page<'_>) -> anyhow::Result<()> {
        if self.stage != Stage::Idle {
            return page.line("busy");
        }
        if let Err(refusal) = self.recover(page)? {
            return self.refuse(page, refusal, Stage::Over);
        }
        if let Err(refusal) = self.finish_block() {
            return self.refuse(page, refusal, Stage::Over);
        }
        self.stage = Stage::Finishing;
        Ok(())
    }
}
