//! A broken pipeline mended.
use crate::page::Page;
use crate::session::Session;
use writer::cause::Cause;
use writer::recover::Recovered;
use writer::refusal::Refusal;

/// A pipeline that breaks again in its replay is mended so often at most.
const ATTEMPTS: usize = 16;

impl Session {
    // One recovery.
    fn recover_once(&mut self) -> Result<(), Refusal> {
        let Some(writer) = self.writer.as_mut() else {
            return Ok(());
        };
        let Recovered { put_lost, .. } = writer.recover(
            &mut self.link,
            &mut self.namenode,
            self.buffers.store.as_slice(),
            self.buffers.frame.as_mut_slice(),
            self.buffers.request.as_mut_slice(),
            self.buffers.answer.as_mut_slice(),
            self.time,
        )?;
        if put_lost {
            self.broken = Some(Cause::Link.failed_nodes());
        }
        Ok(())
    }

    /// Mends the pipeline where it is broken, and tells what came of it.
    pub fn recover(&mut self, page: &Page<'_>) -> anyhow::Result<Result<(), Refusal>> {
        for _ in 0..ATTEMPTS {
            let Some(failed) = self.broken.take() else {
                return Ok(Ok(()));
            };
            self.show_events(page)?;
            page.recovers(failed)?;
            if let Err(refusal) = self.recover_once() {
                return Ok(Err(refusal));
            }
            self.show_events(page)?;
        }
        Ok(Ok(()))
    }
}
