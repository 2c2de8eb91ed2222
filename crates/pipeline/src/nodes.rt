//! The table of a pipeline's datanodes. Its memory is taken once, and its rows are then changed in place.
ghost use Rattle.std.specs.Prelude.{◌≡◌, ◌<◌, ◌≤◌, [], ◌∷◌, ◌++◌, length, IfOk, vec_len, vec_capacity, slice_index_or};
ghost use Rattle.pipeline.specs.Places.{placed};

use proto::datanode::Datanode;
use std::alloc::{AllocError, Global};

/// How many datanodes a pipeline has at most.
pub const PLACES: usize = 8;

/// Some datanodes, in order, with memory for a whole pipeline at the least.
#[derive(Drop)]
pub struct NodeTable {
    pub rows: Vec<Datanode>,
    ghost room: { 8 ≤ vec_capacity rows },
}

// No call but the first takes memory or gives it up, so each says that the capacity stays.
impl NodeTable {
    ghost use Rattle.std.specs.Borrow.{sem, follows};
    ghost use Rattle.std.specs.Vec.{with_item};
    ghost use Rattle.proto.specs.contracts.datanode.Datanode.{the_row as Node-row};
    ghost use Rattle.pipeline.specs.contracts.nodes.NodeTable.{the_row};

    /// No datanode, and memory for a whole pipeline. This alone takes memory.
    pub fn with_room(heap: Global) -> Result<NodeTable, AllocError>
        ensures { IfOk result (λ t. t.rows.items ≡ []) }
    {
        let rows = Vec::with_capacity(heap, PLACES)?;
        Ok(NodeTable { rows })
    }

    pub fn as_slice(&self) -> &[Datanode]
        ensures { result.now ≡ self.now.rows.items }
    {
        self.rows.as_slice()
    }

    /// One row, to be changed.
    pub fn row(&mut self, i: usize) -> &mut Datanode
        requires { i < vec_len self.old.rows }
        ensures* follows { sem 𝓛 (follows the_row Node-row self.entry.ghost_name result.ghost_name
            (λ w. record { rows = with_item self.old.rows i w; room = self.old.room })) }
        ensures value { result.now ≡ slice_index_or self.old.rows.items i result.now }
    {
        &mut self.rows[i]
    }

    /// One datanode more, behind the others.
    pub fn push(&mut self, node: &Datanode)
        requires { vec_len self.old.rows < vec_capacity self.old.rows }
        ensures items { self.new.rows.items ≡ self.old.rows.items ++ node.now ∷ [] }
        ensures capacity { vec_capacity self.new.rows ≡ vec_capacity self.old.rows }
    {
        self.rows.push_reserved(*node);
    }

    /// No datanode any more. The memory stays.
    pub fn clear(&mut self)
        ensures items { self.new.rows.items ≡ [] }
        ensures capacity { vec_capacity self.new.rows ≡ vec_capacity self.old.rows }
    {
        self.rows.clear();
    }

    // Puts a datanode in place of a row, or behind the last one.
    fn put(&mut self, i: usize, node: &Datanode)
        requires { (i ≤ vec_len self.old.rows) × (i < vec_capacity self.old.rows) }
        ensures items { self.new.rows.items ≡ placed self.old.rows.items i node.now }
        ensures capacity { vec_capacity self.new.rows ≡ vec_capacity self.old.rows }
    {
        if i < self.rows.len() {
            *self.row(i) = *node;
        } else {
            self.push(node);
        }
    }

    /// These datanodes in place of those that the table had, row by row, in the memory that it has.
    pub fn overwrite(&mut self, list: &[Datanode])
        requires { length list.now ≤ vec_capacity self.old.rows }
        ensures items { self.new.rows.items ≡ list.now }
        ensures capacity { vec_capacity self.new.rows ≡ vec_capacity self.old.rows }
    {
        // The rows are changed in place, in the memory that was taken at the opening.
        for (i, node) in list.iter().enumerate() {
            self.put(i, node);
        }
        self.rows.truncate(list.len());
    }
}
