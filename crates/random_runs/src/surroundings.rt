//! What stands around a writer: a pipeline and a namenode with faults, and the buffers that its
//! calls are lent.
use crate::cluster::{INFOS, STAMP, TOKEN, datanodes, token};
use crate::plan::Plan;
use anyhow::Context;
use bench::state::Bench;
use faults::chance::Chance;
use faults::faulty_link::FaultyLink;
use faults::faulty_namenode::FaultyNamenode;
use pool::memory::Pool;
use runs::client::call;
use runs::command::{Command, Outcome};
use std::alloc::Global;
use std::mem;
use writer::buffers::Buffers;
use writer::open::Opened;
use writer::opening::Opening;
use writer::state::Writer;

const STORAGE_IDS: [&[u8]; 8] = [b"DS-1"; 8];

const STORAGE_TYPES: [u8; 8] = [1; 8];

#[derive(Drop)]
pub struct Surroundings {
    pub link: FaultyLink<Bench>,
    pub namenode: FaultyNamenode<Pool>,
    buffers: Buffers,
    /// A store that is one octet longer.
    other: Vec<u8>,
}

// A bench that keeps the bytes that the block has already, with faults.
fn link(
    heap: Global,
    chance: &mut Chance,
    plan: Plan,
    bytes: &[u8],
) -> anyhow::Result<FaultyLink<Bench>> {
    let mut kept = Vec::with_capacity(heap, plan.block_size as usize)?;
    kept.extend_from_slice(bytes)?;
    let bench = Bench::over(heap, kept)?;
    let seed = chance.draw();
    Ok(FaultyLink::over(bench, Chance::from_seed(seed), plan.rarity))
}

// A namenode that has the block on the first datanodes, and some of the others to spare, with faults.
fn namenode(heap: Global, chance: &mut Chance, plan: Plan) -> anyhow::Result<FaultyNamenode<Pool>> {
    let nodes = datanodes()?;
    let own = nodes
        .get(0..plan.nodes)
        .context("there are too few datanodes")?;
    let end = plan.nodes.saturating_add(plan.spares);
    let spares = nodes
        .get(plan.nodes..end)
        .context("there are too few spare datanodes")?;
    let pool = Pool::new(heap, STAMP, plan.initial, own, token()?, spares)?;
    let seed = chance.draw();
    Ok(FaultyNamenode::over(pool, Chance::from_seed(seed), plan.refusals))
}

impl Surroundings {
    pub fn new(
        heap: Global,
        chance: &mut Chance,
        plan: Plan,
        bytes: &[u8],
    ) -> anyhow::Result<Surroundings> {
        let buffers = Buffers::new(heap, plan.size, plan.slots)?;
        let other = buffers.store.len().saturating_add(1);
        Ok(Surroundings {
            link: link(heap, chance, plan, bytes)?,
            namenode: namenode(heap, chance, plan)?,
            buffers,
            other: vec![in heap; 0u8; other]?,
        })
    }

    /// Opens the block.
    pub fn open(&mut self, heap: Global, plan: Plan) -> anyhow::Result<Opened> {
        let opening = Opening {
            path: b"/furnace/1",
            pool_id: b"BP-1",
            block_id: 7,
            stamp: STAMP,
            initial_len: plan.initial,
            block_size: plan.block_size,
            chunk_size: plan.size.chunk_size(),
            packet_size: plan.packet,
            replication: plan.replication,
            replace: plan.replace,
            infos: INFOS
                .get(0..plan.nodes)
                .context("there are too few datanodes")?,
            storage_ids: STORAGE_IDS
                .get(0..plan.nodes)
                .context("there are too few storages")?,
            storage_types: STORAGE_TYPES
                .get(0..plan.nodes)
                .context("there are too few types")?,
            token: TOKEN,
            client_name: b"recorder",
            time: 0,
        };
        Ok(Writer::open(
            heap,
            opening,
            &mut self.link,
            &self.buffers.store,
            &self.buffers.frame,
            &mut self.buffers.request,
            &mut self.buffers.answer,
        )?)
    }

    /// Makes a call with the writer's own store, or with one of another length in its place.
    pub fn call(&mut self, writer: &mut Writer, command: Command<'_>, other: bool) -> Outcome {
        if other {
            mem::swap(&mut self.buffers.store, &mut self.other);
        }
        let outcome = call(
            writer,
            &mut self.link,
            &mut self.namenode,
            &mut self.buffers.store,
            &mut self.buffers.frame,
            &mut self.buffers.request,
            &mut self.buffers.answer,
            command,
        );
        if other {
            mem::swap(&mut self.buffers.store, &mut self.other);
        }
        outcome
    }
}
