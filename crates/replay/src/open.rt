//! The block opened.
use crate::page::Page;
use crate::session::{Session, Stage, UUID};
use scripted::opening::ScriptedOpening;
use writer::open::Opened;
use writer::opening::Opening;
use writer::state::Writer;

// What the writer is opened with; the lists are those of the script's datanodes.
fn opening_of<'a>(
    script: &'a ScriptedOpening,
    infos: &'a [&'a [u8]],
    storage_ids: &'a [&'a [u8]],
    storage_types: &'a [u8],
    time: u64,
) -> Opening<'a> {
    Opening {
        path: script.path.as_slice(),
        pool_id: script.pool_id.as_slice(),
        block_id: script.block_id,
        stamp: script.stamp,
        initial_len: script.initial_len,
        block_size: script.block_size,
        chunk_size: script.chunk_size,
        packet_size: script.packet_size,
        replication: script.replication,
        replace: script.settings.replace_datanode(),
        infos,
        storage_ids,
        storage_types,
        token: script.token.as_slice(),
        client_name: UUID.as_bytes(),
        time,
    }
}

impl Session {
    // Opens the block with what the script says.
    fn open_block(&mut self) -> anyhow::Result<Opened> {
        let heap = self.heap;
        let script = &self.opening;
        let nodes = script.nodes.as_slice();
        let infos: Vec<&[u8]> = nodes.iter().map(|row| row.info.as_slice()).collect(heap)?;
        let storages: Vec<&[u8]> = nodes
            .iter()
            .map(|row| row.storage_id.as_slice())
            .collect(heap)?;
        // A type that is no octet is out of form, as 255 is.
        let types: Vec<u8> = nodes
            .iter()
            .map(|row| u8::try_from(row.storage_type).unwrap_or(u8::MAX))
            .collect(heap)?;
        let opening = opening_of(
            script,
            infos.as_slice(),
            storages.as_slice(),
            types.as_slice(),
            self.time,
        );
        Ok(Writer::open(
            heap,
            opening,
            &mut self.link,
            self.buffers.store.as_slice(),
            self.buffers.frame.as_slice(),
            self.buffers.request.as_mut_slice(),
            self.buffers.answer.as_mut_slice(),
        )?)
    }

    /// Opens the block, and tells what came of it.
    pub fn open(&mut self, page: &Page<'_>) -> anyhow::Result<()> {
        let opened = self.open_block()?;
        self.show_events(page)?;
        match opened.outcome {
            Ok(()) => {
                self.writer = Some(opened.writer);
                self.stage = Stage::Idle;
                page.line("opened")
            }
            Err(refusal) => {
                self.stage = Stage::Over;
                page.refused(refusal)
            }
        }
    }
}
