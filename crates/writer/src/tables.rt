//! The memory of a writer: all that it ever takes, taken at the opening.
ghost use Rattle.std.specs.Prelude.{◌≡◌, ◌<◌, ◌≤◌, [], length, replicate, vec_len, vec_capacity};
ghost use Rattle.held.specs.Slots.{sizes_of};

use held::table::HeldTable;
use pipeline::nodes::NodeTable;
use std::alloc::{AllocError, Global};

/// Tables without contents.
#[derive(Drop)]
pub struct Tables {
    pub(crate) held: HeldTable,
    pub(crate) nodes: NodeTable,
    pub(crate) chosen: NodeTable,
    pub(crate) gone: NodeTable,
    pub(crate) offered: NodeTable,
    ghost sizes: { sizes_of held.records.items ≡ replicate 101 0 },
    ghost empty: { vec_len chosen.rows ≡ 0 },
}

impl Tables {
    /// Takes the memory.
    pub(crate) fn new(heap: Global) -> Result<Tables, AllocError> {
        let held = HeldTable::new(heap)?;
        let nodes = NodeTable::with_room(heap)?;
        let chosen = NodeTable::with_room(heap)?;
        let gone = NodeTable::with_room(heap)?;
        let offered = NodeTable::with_room(heap)?;
        Ok(Tables {
            held,
            nodes,
            chosen,
            gone,
            offered,
        })
    }
}
